ghost use Rattle.std.specs.Prelude.{◌≡◌, ◌<◌, ◌≤◌, ◌+◌, ◌^◌, ◌++◌, [], OnOk, OnErr, IsErr, IfOk, MatchResult, List, ℕ, length};
ghost use Rattle.cap_leaf.specs.Trees.{data_of};

use crate::error::ReadError;
use crate::reading::Reading;
use cap_base::Memory;
use cap_leaf::{Kind, Tree};
use std::alloc::Global;

/// Reads a document that comes in pieces, cut anywhere. Besides the tree it holds at most 128 bytes of the text.
/// After want of memory each later call answers it again.
#[derive(Drop)]
pub struct PieceReader {
    reading: Option<Reading>,
    alloc: Global,
}

impl PieceReader {
    ghost use Rattle.cap_trees.specs.Fits.{FitsKind};
    ghost use Rattle.cap_text.specs.Pieces.{Spells};
    ghost use Rattle.cap_text.specs.Reads.{HasRead, HasFailed, IsFaultOf, held_by};

    /// A reader that has read nothing.
    pub fn new(alloc: Global) -> PieceReader
        ensures { HasRead result [] }
    {
        PieceReader {
            reading: Some(Reading::begun()),
            alloc,
        }
    }

    /// Reads one piece more. The one refusal is want of memory.
    pub fn feed(&mut self, piece: &[u8]) -> Result<(), Memory>
        ensures read { (bytes : List ℕ) → HasRead self.old bytes → length bytes + length piece.now < 2 ^ 64 → OnOk result (HasRead self.new (bytes ++ piece.now)) }
        ensures memory { OnErr result (HasFailed self.new) }
        ensures failed { HasFailed self.old → IsErr result }
        ensures held { held_by self.new ≤ 128 }
    {
        let alloc = self.alloc;
        match &mut self.reading {
            None => Err(Memory),
            Some(reading) => {
                let fed = reading.feed(alloc, piece);
                if fed.is_err() {
                    self.reading = None;
                }
                fed
            }
        }
    }

    /// The document that was read, or its first fault, or want of memory.
    pub fn finish(self) -> Result<(Kind, Tree), ReadError>
        ensures read { (bytes : List ℕ) → HasRead self bytes → MatchResult result (λ d. Spells d.0 (data_of d.1) bytes) (λ e. IsFaultOf bytes e) }
        ensures fits { (bytes : List ℕ) → HasRead self bytes → IfOk result (λ d. FitsKind d.0 (data_of d.1)) }
        ensures failed { HasFailed self → IsErr result }
        ensures memory { HasFailed self → result ≡ Err ReadError.Memory }
    {
        match self.reading {
            None => Err(ReadError::Memory),
            Some(reading) => reading.verdict(),
        }
    }
}
