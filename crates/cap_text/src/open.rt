ghost use Rattle.std.specs.Prelude.{◌≡◌, true};
ghost use Rattle.cap_leaf.specs.Spelling.{is_kind};

use crate::frames::{Frame, Left};
use cap_leaf::{Kind, LeafKind, Tree};
use cap_trees::schema_of;
use std::alloc::{AllocError, Global};
use std::mem;

/// A leaf that is open.
#[derive(Clone, Copy, Drop)]
pub(crate) struct OpenLeaf {
    pub tag: &'static str,
    pub kind: LeafKind,
    ghost good: { is_kind kind ≡ true },
}

/// The structures of a message that are open, the innermost apart, and a leaf that is open in them.
#[derive(Drop)]
pub(crate) struct Open {
    pub kind: Kind,
    pub current: Frame,
    pub outer: Vec<Frame>,
    pub leaf: Option<OpenLeaf>,
}

/// Where a document stands.
#[derive(Drop)]
pub(crate) enum Doc {
    First,
    Prolog,
    Inside(Open),
    Whole(Kind, Tree),
}

/// Where the end of a text leads.
#[derive(Drop)]
pub(crate) enum Outcome {
    /// It can't be read.
    Barred,
    /// It is a piece that leads on in what is open.
    Read,
    /// It is a piece that leads here.
    Moved(Doc),
}

impl Open {
    ghost use Rattle.std.specs.Prelude.{IfOk, OnOk, ◌∷◌};
    ghost use Rattle.cap_leaf.specs.Trees.{data_of};
    ghost use Rattle.cap_text.specs.Machine.{close, inside};
    ghost use Rattle.cap_text.specs.SeenFrames.{frame_of, frames_of, branch_of};
    ghost use Rattle.cap_text.specs.SeenDocs.{open_of, closed_to};

    /// Puts an element that is closed into the innermost structure.
    pub fn keep(&mut self, tree: Tree) -> Result<(), AllocError>
        ensures kept { OnOk result (inside (open_of self.new) ≡ close (open_of self.old) (data_of tree)) }
        ensures leaf { self.new.leaf ≡ self.old.leaf }
        ensures kind { self.new.kind ≡ self.old.kind }
    {
        self.current.keep(tree)
    }

    /// Opens a structure in the innermost one.
    pub fn push(&mut self, inner: Frame) -> Result<(), AllocError>
        ensures pushed { OnOk result (open_of self.new ≡ frame_of inner ∷ open_of self.old) }
        ensures leaf { self.new.leaf ≡ self.old.leaf }
        ensures kind { self.new.kind ≡ self.old.kind }
    {
        let around = mem::replace(&mut self.current, inner);
        self.outer.push(around)?;
        Ok(())
    }

    /// Closes the innermost structure: its tree, where it stands in no other.
    pub fn pop(&mut self, alloc: Global) -> Result<Option<Tree>, AllocError>
        ensures popped { IfOk result (λ whole. closed_to whole (open_of self.new) ≡ close (frames_of self.old.outer.items) (branch_of (frame_of self.old.current))) }
        ensures leaf { self.new.leaf ≡ self.old.leaf }
        ensures kind { self.new.kind ≡ self.old.kind }
    {
        match self.outer.pop() {
            None => Ok(Some(Tree::Branch(self.current.take(alloc)))),
            Some(around) => {
                let Frame { done, .. } = mem::replace(&mut self.current, around);
                self.current.keep(Tree::Branch(done))?;
                Ok(None)
            }
        }
    }
}

impl Doc {
    ghost use Rattle.cap_text.specs.Machine.{within, root};
    ghost use Rattle.cap_text.specs.Bytes.{may_blank as blank_test, blanked};
    ghost use Rattle.cap_text.specs.SeenDocs.{doc_of};

    /// `Document` is open.
    pub fn root(alloc: Global, kind: Kind) -> Doc
        ensures { doc_of result ≡ within kind (root kind) }
    {
        let left = Left::Rows { at: 0, count: 0 };
        let current = Frame::fresh(alloc, "Document", schema_of(kind), left);
        Doc::Inside(Open {
            kind,
            current,
            outer: Vec::new(alloc),
            leaf: None,
        })
    }

    /// Whether white space may stand here.
    pub fn may_blank(&self) -> bool
        ensures { result ≡ blank_test (doc_of self.now) }
    {
        match self {
            Doc::Inside(stack) => stack.leaf.is_none(),
            _ => true,
        }
    }

    /// White space.
    pub fn pass(&mut self)
        ensures { doc_of self.new ≡ blanked (doc_of self.old) }
    {
        if let Doc::First = self {
            *self = Doc::Prolog;
        }
    }
}
