ghost use Rattle.std.specs.Prelude.{◌≡◌, MatchOption};
ghost use Rattle.cap_leaf.specs.declared.kinds.Kind.{Kind};
ghost use Rattle.cap_leaf.specs.Trees.{data_of, branch, none, child};
ghost use Rattle.cap_text.specs.Bytes.{Verdict, message_in};

use crate::error::ReadError;
use crate::open::Doc;
use crate::reading::Reading;
use crate::reason::fault;
use cap_leaf::{Child, Kind, Tree};

// The one child of a structure, where it has one alone.
fn only_child(tree: Tree) -> Option<Child>
    ensures { MatchOption result ((k : Kind) (v : Verdict) → message_in k (data_of tree) v ≡ v) (λ c. data_of tree ≡ branch (child c.at (data_of c.tree) none)) }
{
    match tree {
        Tree::Leaf(_) => None,
        Tree::Branch(mut children) => {
            if children.len() == 1 {
                children.pop()
            } else {
                None
            }
        }
    }
}

impl Reading {
    ghost use Rattle.cap_text.specs.Bytes.{verdict_of};
    ghost use Rattle.cap_text.specs.Seen.{reading_of};
    ghost use Rattle.cap_text.specs.Verdicts.{IsVerdict};

    /// What the bytes are: a document, or their first fault.
    pub fn verdict(self) -> Result<(Kind, Tree), ReadError>
        ensures { IsVerdict (verdict_of (reading_of self)) result }
    {
        let Reading { held, doc, known } = self;
        let fault = fault(&known, held.ends, held.bytes.as_slice());
        if held.stuck || !held.bytes.is_empty() {
            return Err(ReadError::Fault(fault));
        }
        match doc {
            Doc::Whole(kind, tree) => match only_child(tree) {
                Some(child) => {
                    let Child { tree, .. } = child;
                    Ok((kind, tree))
                }
                None => Err(ReadError::Fault(fault)),
            },
            _ => Err(ReadError::Fault(fault)),
        }
    }
}
