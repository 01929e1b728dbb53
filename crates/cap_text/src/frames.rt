ghost use Rattle.std.specs.Prelude.{◌≡◌, ◌<◌, ◌≤◌, true, length};
ghost use Rattle.cap_leaf.specs.View.{table_view};
ghost use Rattle.cap_trees.specs.Tests.{bounded_test};
ghost use Rattle.cap_text.specs.Places.{place_in};

use cap_leaf::{Child, Node, Tree};
use sqlite_items::Items;
use std::alloc::{AllocError, Global};
use std::mem;

/// What may still stand in a structure.
#[derive(Clone, Copy, Debug)]
pub(crate) enum Left {
    /// Rows from this place on, of which the first has stood that often.
    Rows { at: u8, count: u8 },
    /// One row of the table.
    Choice,
    Filled,
}

/// A structure that is open.
#[derive(Drop)]
pub(crate) struct Frame {
    pub tag: &'static str,
    pub nodes: &'static [Node],
    pub left: Left,
    /// The place of the child that was opened last.
    pub last: u8,
    pub done: Items<Child>,
    ghost few: { length nodes.now < 256 },
    ghost bounded: { bounded_test (table_view nodes.now) ≡ true },
    ghost within: { place_in left ≤ length nodes.now },
}

impl Frame {
    ghost use Rattle.std.specs.Prelude.{OnOk};
    ghost use Rattle.cap_leaf.specs.Trees.{data_of};
    ghost use Rattle.cap_text.specs.Machine.{fresh};
    ghost use Rattle.cap_text.specs.SeenFrames.{frame_of, left_of, with_child};

    /// A structure that was just opened.
    pub fn fresh(alloc: Global, tag: &'static str, nodes: &'static [Node], left: Left) -> Frame
        requires few { length nodes.now < 256 }
        requires bounded { bounded_test (table_view nodes.now) ≡ true }
        requires within { place_in left ≤ length nodes.now }
        ensures { frame_of result ≡ fresh tag.entry.now (left_of nodes.entry.now left) }
    {
        Frame {
            tag,
            nodes,
            left,
            last: 0,
            done: Items::new(alloc),
        }
    }

    /// Keeps the tree of the child that was opened last.
    pub fn keep(&mut self, tree: Tree) -> Result<(), AllocError>
        ensures { OnOk result (frame_of self.new ≡ with_child (frame_of self.old) (data_of tree)) }
    {
        let at = self.last;
        self.done.push(Child { at, tree })
    }

    /// Opens a child at a place.
    pub fn enter(&mut self, left: Left, last: u8)
        requires { place_in left ≤ length self.old.nodes.now }
        ensures { frame_of self.new ≡ record (frame_of self.old) { left = left_of self.old.nodes.now left; last = last } }
    {
        self.left = left;
        self.last = last;
    }

    /// Gives the children up, as it is closed.
    pub fn take(&mut self, alloc: Global) -> Items<Child>
        ensures { result ≡ self.old.done }
    {
        mem::replace(&mut self.done, Items::new(alloc))
    }
}
