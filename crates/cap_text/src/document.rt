ghost use Rattle.std.specs.Prelude.{◌≡◌, ◌<◌, ◌^◌, length, IfOk, MatchResult};
ghost use Rattle.cap_leaf.specs.Trees.{data_of};
ghost use Rattle.cap_trees.specs.Fits.{FitsKind};
ghost use Rattle.cap_text.specs.Pieces.{Spells};
ghost use Rattle.cap_text.specs.Reads.{IsFaultOf};

use crate::error::ReadError;
use crate::reader::PieceReader;
use cap_leaf::{Kind, Tree};
use std::alloc::Global;

/// Reads a document: its kind and the tree of its message element, or the first fault of the bytes, or want of memory.
pub fn read_document(alloc: Global, bytes: &[u8]) -> Result<(Kind, Tree), ReadError>
    ensures fits { IfOk result (λ d. FitsKind d.0 (data_of d.1)) }
    ensures read { MatchResult result (λ d. Spells d.0 (data_of d.1) bytes.now) (λ e. IsFaultOf bytes.now e) }
{
    let mut reader = PieceReader::new(alloc);
    match reader.feed(bytes) {
        Ok(()) => reader.finish(),
        Err(_) => Err(ReadError::Memory),
    }
}
