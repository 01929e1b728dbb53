ghost use Rattle.std.specs.Prelude.{◌≡◌, ◌≤◌, ◌<◌, Err, IfOk, length};
ghost use Rattle.std.specs.Io.KnownBytes.{Consumes, IsAtEnd};
ghost use Rattle.cap_base.specs.Causes.{Rose};
ghost use Rattle.cap_text.specs.Reads.{HasRead};
ghost use Rattle.cap_top.specs.Limits.{IsPastLimit, IsWithin};
ghost use Rattle.cap_top.specs.Top.{Took, TookAll};

use crate::tally::Tally;
use cap_base::Source;
use cap_text::PieceReader;
use std::alloc::Global;

const MOST_BYTES: usize = 16 * 1024 * 1024;

/// The most lines of an input.
pub const MOST_LINES: u64 = 100_000;

/// Why an input was not read to its end.
#[derive(Clone, Copy)]
pub enum InputFault {
    Read,
    Limit,
    Memory,
}

/// Reads the input to its end.
pub fn read_all<S: Source>(alloc: Global, input: &mut S) -> Result<Vec<u8>, InputFault>
    ensures ok { IfOk result (λ text. Consumes (S.left input.old) (S.left input.new) text.items × IsAtEnd (S.left input.new) × (length text.items ≤ MOST_BYTES)) }
    ensures read { result ≡ Err InputFault.Read → Rose (S.faults input.old) (S.faults input.new) }
    ensures limit { result ≡ Err InputFault.Limit → Took (S.left input.old) (S.left input.new) (λ bytes. MOST_BYTES < length bytes) }
    ensures faults { S.faults input.old ≤ S.faults input.new }
{
    let mut text = Vec::new(alloc);
    let mut buf = [0u8; 4096];
    'pieces: while text.len() <= MOST_BYTES {
        let Ok(count) = input.take(&mut buf) else {
            return Err(InputFault::Read);
        };
        if count == 0 {
            return Ok(text);
        }
        let piece = buf.split_at(count).0;
        if text.extend_from_slice(piece).is_err() {
            return Err(InputFault::Memory);
        }
    }
    Err(InputFault::Limit)
}

/// Feeds the input to a reader, piece by piece to its end. Of the input no more than a piece is held.
pub fn feed_all<S: Source>(alloc: Global, input: &mut S) -> Result<PieceReader, InputFault>
    ensures ok { IfOk result (λ reader. TookAll (S.left input.old) (S.left input.new) (λ bytes. HasRead reader bytes × IsWithin bytes)) }
    ensures read { result ≡ Err InputFault.Read → Rose (S.faults input.old) (S.faults input.new) }
    ensures limit { result ≡ Err InputFault.Limit → Took (S.left input.old) (S.left input.new) IsPastLimit }
    ensures faults { S.faults input.old ≤ S.faults input.new }
{
    let mut reader = PieceReader::new(alloc);
    let mut tally = Tally::nothing();
    let mut buf = [0u8; 4096];
    'pieces: while tally.bytes <= MOST_BYTES && tally.lines <= MOST_LINES {
        let Ok(count) = input.take(&mut buf) else {
            return Err(InputFault::Read);
        };
        if count == 0 {
            return Ok(reader);
        }
        let piece = buf.split_at(count).0;
        let Ok(()) = reader.feed(piece) else {
            return Err(InputFault::Memory);
        };
        tally = tally.with(piece);
    }
    Err(InputFault::Limit)
}
