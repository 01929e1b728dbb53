ghost use Rattle.std.specs.Prelude.{◌≡◌, ◌<◌, IfOk, length};
ghost use Rattle.cap_leaf.specs.Trees.{data_of, children_view, value, branch, none, child};
ghost use Rattle.cap_fields.specs.Fields.{numbered, record_of, followed_by};

use cap_base::Memory;
use cap_leaf::{Child, Children, Leaf, Tree};
use sqlite_items::Items;
use std::alloc::Global;

/// These leaves as children, at the places from 0 on.
pub fn leaves(alloc: Global, leaves: &[Leaf]) -> Result<Children, Memory>
    requires { length leaves.now < 256 }
    ensures { IfOk result (λ cs. children_view cs ≡ numbered 0 leaves.now) }
{
    let mut children = Items::new(alloc);
    for (at, leaf) in leaves.iter().enumerate() {
        children.push(Child {
            at: at as u8,
            tree: Tree::Leaf(*leaf),
        })?;
    }
    Ok(children)
}

/// One child more, at a place.
pub fn with(children: Children, at: u8, tree: Tree) -> Result<Children, Memory>
    ensures { IfOk result (λ cs. children_view cs ≡ followed_by (children_view children) (child at (data_of tree) none)) }
{
    let mut children = children;
    children.push(Child { at, tree })?;
    Ok(children)
}

/// A leaf alone.
pub fn leaf_tree(leaf: Leaf) -> Tree
    ensures { data_of result ≡ value leaf }
{
    Tree::Leaf(leaf)
}

/// A structure of these children.
pub fn structure(children: Children) -> Tree
    ensures { data_of result ≡ branch (children_view children) }
{
    Tree::Branch(children)
}

/// A structure of these leaves.
pub fn record(alloc: Global, fields: &[Leaf]) -> Result<Tree, Memory>
    requires { length fields.now < 256 }
    ensures { IfOk result (λ t. data_of t ≡ record_of fields.now) }
{
    let children = leaves(alloc, fields)?;
    Ok(structure(children))
}
