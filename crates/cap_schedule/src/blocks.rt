ghost use Rattle.std.specs.Prelude.{◌≡◌, true, false, length, IfOk, MatchOption, map};
ghost use Rattle.std.specs.List.{list_all};
ghost use Rattle.cap_schedule.specs.Blocks.{has_six, blocks_in};

use crate::lines::pieces_of;
use cap_entries::Blocks;
use std::alloc::{AllocError, Global};

// A piece of six bytes.
fn six(piece: &[u8]) -> [u8; 6]
    requires { length piece.now ≡ 6 }
    ensures { result ≡ piece.now }
{
    let mut prefix = [0; 6];
    prefix.copy_from_slice(piece);
    prefix
}

// The pieces, where each has six bytes.
fn prefixes_of(alloc: Global, pieces: &[&[u8]]) -> Result<Option<Vec<[u8; 6]>>, AllocError>
    ensures { IfOk result (λ found. MatchOption found (list_all has_six (map (λ p. p.now) pieces.now) ≡ false)
        (λ prefixes. (list_all has_six (map (λ p. p.now) pieces.now) ≡ true) × (prefixes.items ≡ map (λ p. p.now) pieces.now))) }
{
    let mut prefixes = Vec::new(alloc);
    for piece in pieces {
        if piece.len() != 6 {
            return Ok(None);
        }
        prefixes.push(six(piece))?;
    }
    Ok(Some(prefixes))
}

/// The blocked prefixes that a word names: `none`, or 1 to 64 prefixes of six digits with commas.
pub fn blocks(alloc: Global, text: &[u8]) -> Result<Option<Blocks>, AllocError>
    ensures { IfOk result (λ found. found ≡ blocks_in text.now) }
{
    if text == b"none".as_slice() {
        return Ok(Blocks::new(Vec::new(alloc)));
    }
    let pieces = pieces_of(alloc, text, b',')?;
    match prefixes_of(alloc, &pieces)? {
        Some(prefixes) => Ok(Blocks::new(prefixes)),
        None => Ok(None),
    }
}
