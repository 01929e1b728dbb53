ghost use Rattle.std.specs.Prelude.{◌≡◌};

use crate::kinds::LeafKind;

/// One child of a table. It stands at least `least` and at most `most` times.
#[cycle(schema)]
#[derive(Clone, Copy)]
pub struct Node {
    pub tag: &'static str,
    pub least: u8,
    pub most: u8,
    pub shape: Shape,
}

/// What stands between a child's opening and its closing: a leaf's content, all children of a table in their order, or exactly one of them.
#[cycle(schema)]
#[derive(Clone, Copy)]
pub enum Shape {
    Leaf(LeafKind),
    All(&'static [Node]),
    OneOf(&'static [Node]),
}

impl Shape {
    ghost use Rattle.cap_leaf.specs.View.{table_view, content_view};
    ghost use Rattle.cap_leaf.specs.Schema.{table_in};

    /// The table of a structure's children; a leaf has none.
    pub fn table(&self) -> &'static [Node]
        ensures { table_view result.now ≡ table_in (content_view self.now) }
    {
        match *self {
            Shape::Leaf(_) => &[],
            Shape::All(nodes) => nodes,
            Shape::OneOf(nodes) => nodes,
        }
    }
}
