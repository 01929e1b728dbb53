use crate::leaf::Leaf;
use sqlite_items::Items;

/// A leaf, or the children of a structure.
#[cycle(tree)]
#[derive(Drop)]
pub enum Tree {
    Leaf(Leaf),
    Branch(Items<Child>),
}

/// A child, and its place in the table of its structure, from 0.
#[cycle(tree)]
#[derive(Drop)]
pub struct Child {
    pub at: u8,
    pub tree: Tree,
}

/// The children of a structure, in their order. Contracts see the list.
pub type Children = Items<Child>;
