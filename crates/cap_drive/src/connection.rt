// One connection.
ghost use Rattle.std.specs.Prelude.{◌≡◌, ◌≤◌, ◌<◌, ◌+◌, [], length, take, true, false, Some, IfOk, IfErr, OnOk, MatchResult};
ghost use Rattle.cap_drive.specs.Going.{IsBegun, Goes, Stops, HasRisen, StillWorks};
ghost use Rattle.cap_drive.specs.Closings.{Closes};

use crate::answer::serve_frame;
use crate::closing::{Closing, Tally};
use cap_answering::Answering;
use cap_base::Clock;
use cap_frame::{BadLength, Framer};
use cap_link::Link;
use std::alloc::Global;

/// The most frames of a connection.
const MOST_FRAMES: u64 = 65_536;

/// The most bytes of so many frames. Each piece that is taken has one at least.
const MOST_PIECES: u64 = 65_536 * 65_540;

/// The bytes of a piece.
const PIECE: usize = 4096;

// Serves the next bytes up to the end of a frame, and tells how many these are.
fn serve_some<A: Answering, L: Link, C: Clock>(
    alloc: Global,
    framer: &mut Framer,
    host: &mut A,
    link: &mut L,
    clock: &mut C,
    bytes: &[u8],
    tally: &mut Tally,
) -> Result<usize, Closing>
    requires open { L.is_open link.old ≡ true }
    requires works { A.has_failed host.old ≡ false }
    requires some { 0 < length bytes.now }
    requires begun { IsBegun framer.old }
    requires few { tally.old.frames < 65536 }
    requires replied { tally.old.replies ≤ tally.old.frames }
    ensures ok { IfOk result (λ n. (0 < n) × (n ≤ length bytes.now) × Goes (A.tells host.old) (A.is_readable host.old) A.adds A.replies (C.told clock.old) (L.tells link.old) [] (take n bytes.now) framer.old (A.entries host.old) (L.lines link.old) tally.old framer.new (A.entries host.new) (L.lines link.new) tally.new) }
    ensures begun { OnOk result (IsBegun framer.new) }
    ensures few { OnOk result (tally.new.frames < 65536) }
    ensures replied { OnOk result (tally.new.replies ≤ tally.new.frames) }
    ensures err { IfErr result (λ closing. Stops (A.tells host.old) (A.is_readable host.old) A.adds A.replies (C.told clock.old) (L.tells link.old) A.has A.is_allowed closing (A.may_leave host.new) [] bytes.now framer.old (A.entries host.old) (L.lines link.old) tally.old (A.entries host.new) (L.lines link.new) tally.new) }
    ensures risen { IfErr result (λ closing. HasRisen closing (L.line_faults link.old) (L.line_faults link.new) (A.faults host.old) (A.faults host.new)) }
    ensures works { MatchResult result (λ _. A.has_failed host.new ≡ false) (λ closing. StillWorks closing (A.has_failed host.new)) }
    ensures faults { A.faults host.old ≤ A.faults host.new }
    ensures is_readable { A.is_readable host.new ≡ A.is_readable host.old }
    ensures host_tells { A.tells host.new ≡ A.tells host.old }
    ensures told { C.told clock.new ≡ C.told clock.old }
    ensures line_later { L.line_faults link.old ≤ L.line_faults link.new }
    ensures open { L.is_open link.new ≡ true }
    ensures tells { L.tells link.new ≡ L.tells link.old }
    ensures port { L.port_faults link.new ≡ L.port_faults link.old }
{
    let count = match framer.feed(bytes) {
        Ok(count) => count,
        Err(BadLength(length)) => return Err(Closing::BadLength(length)),
    };
    let Some(body) = framer.next() else {
        return Ok(count);
    };
    let replies = match serve_frame(alloc, host, link, clock, body) {
        Ok(replies) => replies,
        Err(closing) => return Err(closing),
    };
    tally.replies += replies;
    tally.frames += 1;
    if tally.frames == MOST_FRAMES {
        return Err(Closing::FrameLimit);
    }
    Ok(count)
}

// Serves the frames of a piece.
fn serve_piece<A: Answering, L: Link, C: Clock>(
    alloc: Global,
    framer: &mut Framer,
    host: &mut A,
    link: &mut L,
    clock: &mut C,
    piece: &[u8],
    tally: &mut Tally,
) -> Result<(), Closing>
    requires open { L.is_open link.old ≡ true }
    requires works { A.has_failed host.old ≡ false }
    requires begun { IsBegun framer.old }
    requires few { tally.old.frames < 65536 }
    requires replied { tally.old.replies ≤ tally.old.frames }
    ensures ok { OnOk result (Goes (A.tells host.old) (A.is_readable host.old) A.adds A.replies (C.told clock.old) (L.tells link.old) [] piece.now framer.old (A.entries host.old) (L.lines link.old) tally.old framer.new (A.entries host.new) (L.lines link.new) tally.new) }
    ensures begun { OnOk result (IsBegun framer.new) }
    ensures few { OnOk result (tally.new.frames < 65536) }
    ensures replied { OnOk result (tally.new.replies ≤ tally.new.frames) }
    ensures err { IfErr result (λ closing. Stops (A.tells host.old) (A.is_readable host.old) A.adds A.replies (C.told clock.old) (L.tells link.old) A.has A.is_allowed closing (A.may_leave host.new) [] piece.now framer.old (A.entries host.old) (L.lines link.old) tally.old (A.entries host.new) (L.lines link.new) tally.new) }
    ensures risen { IfErr result (λ closing. HasRisen closing (L.line_faults link.old) (L.line_faults link.new) (A.faults host.old) (A.faults host.new)) }
    ensures works { MatchResult result (λ _. A.has_failed host.new ≡ false) (λ closing. StillWorks closing (A.has_failed host.new)) }
    ensures faults { A.faults host.old ≤ A.faults host.new }
    ensures is_readable { A.is_readable host.new ≡ A.is_readable host.old }
    ensures host_tells { A.tells host.new ≡ A.tells host.old }
    ensures told { C.told clock.new ≡ C.told clock.old }
    ensures line_later { L.line_faults link.old ≤ L.line_faults link.new }
    ensures open { L.is_open link.new ≡ true }
    ensures tells { L.tells link.new ≡ L.tells link.old }
    ensures port { L.port_faults link.new ≡ L.port_faults link.old }
{
    let mut rest = piece;
    'bytes: while !rest.is_empty() {
        match serve_some(alloc, framer, host, link, clock, rest, tally) {
            Ok(count) => rest = rest.split_at(count).1,
            Err(closing) => return Err(closing),
        }
    }
    Ok(())
}

/// Serves the open connection.
pub(crate) fn serve_connection<A: Answering, L: Link, C: Clock>(
    alloc: Global,
    host: &mut A,
    link: &mut L,
    clock: &mut C,
    tally: &mut Tally,
) -> Closing
    requires open { L.is_open link.old ≡ true }
    requires works { A.has_failed host.old ≡ false }
    requires new { tally.old.frames ≡ 0 }
    requires none { tally.old.replies ≡ 0 }
    ensures closes { Closes (A.tells host.old) (A.is_readable host.old) A.adds A.replies (C.told clock.old) (L.tells link.old) A.has A.is_allowed result (A.may_leave host.new) (A.entries host.old) (A.entries host.new) (L.lines link.old) (L.lines link.new) tally.new.replies }
    ensures risen { HasRisen result (L.line_faults link.old) (L.line_faults link.new) (A.faults host.old) (A.faults host.new) }
    ensures works { StillWorks result (A.has_failed host.new) }
    ensures faults { A.faults host.old ≤ A.faults host.new }
    ensures is_readable { A.is_readable host.new ≡ A.is_readable host.old }
    ensures host_tells { A.tells host.new ≡ A.tells host.old }
    ensures told { C.told clock.new ≡ C.told clock.old }
    ensures line_later { L.line_faults link.old ≤ L.line_faults link.new }
    ensures open { L.is_open link.new ≡ true }
    ensures tells { L.tells link.new ≡ L.tells link.old }
    ensures port { L.port_faults link.new ≡ L.port_faults link.old }
{
    let Ok(mut framer) = Framer::new(alloc) else {
        return Closing::Memory;
    };
    let mut buf = [0u8; PIECE];
    'takes: for i in 0..MOST_PIECES {
        let Ok(count) = link.take(&mut buf) else {
            return Closing::Fault;
        };
        if count == 0 {
            return Closing::End;
        }
        let piece = buf.split_at(count).0;
        if let Err(closing) = serve_piece(alloc, &mut framer, host, link, clock, piece, tally) {
            return closing;
        }
    }
    // The frames of so many bytes would be more than a connection may have.
    unreachable!()
}
