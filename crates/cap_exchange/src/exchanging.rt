// One message out, one frame in.
ghost use Rattle.std.specs.Prelude.{◌≡◌, [], ◌++◌, true, IfOk, OnErr};
ghost use Rattle.cap_frame.specs.Frame.{IsBody};
ghost use Rattle.cap_link.specs.Lines.{Talk};
ghost use Rattle.cap_exchange.specs.Exchange.{seen, heard_of, Exchanged, CutShort};
ghost use Rattle.cap_exchange.specs.Hearing.{HearsPiece, Takes, Hears, Converses, Breaks};

use crate::heard::NoAnswer;
use cap_base::{Memory, PutError};
use cap_frame::{BadLength, Framer, frame};
use cap_link::Link;
use std::alloc::Global;

/// The most pieces of a frame. Each piece that is taken has one byte at least, and the longest frame has so many.
const MOST_PIECES: u64 = 65_540;

/// The bytes of a piece.
const PIECE: usize = 4096;

// Hears the next bytes. None where a frame has only begun.
fn hear(
    alloc: Global,
    framer: &mut Framer,
    piece: &[u8],
) -> Result<Option<Result<Vec<u8>, NoAnswer>>, Memory>
    ensures ok { IfOk result (λ heard. HearsPiece heard (framer.old ++ piece.now) framer.new) }
{
    if let Err(BadLength(length)) = framer.feed(piece) {
        return Ok(Some(Err(NoAnswer::BadLength(length))));
    }
    let Some(body) = framer.next() else {
        return Ok(None);
    };
    match Vec::from_slice(alloc, body) {
        Ok(body) => Ok(Some(Ok(body))),
        Err(_) => Err(Memory),
    }
}

// Takes bytes from the open connection until it has heard a frame, or knows why it hears none.
fn listen<L: Link>(
    alloc: Global,
    framer: &mut Framer,
    link: &mut L,
) -> Result<Result<Vec<u8>, NoAnswer>, Memory>
    requires open { L.is_open link.old ≡ true }
    requires none { framer.old ≡ [] }
    ensures ok { IfOk result (λ heard. Hears (L.tells link.old) (heard_of heard) (seen L.Link link.old) (seen L.Link link.new)) }
    ensures err { OnErr result (Takes (L.tells link.old) (seen L.Link link.old) (seen L.Link link.new)) }
    ensures tells { L.tells link.new ≡ L.tells link.old }
{
    let mut buf = [0u8; PIECE];
    'takes: for i in 0..MOST_PIECES {
        let Ok(count) = link.take(&mut buf) else {
            return Ok(Err(NoAnswer::Line));
        };
        if count == 0 {
            return Ok(Err(NoAnswer::Early));
        }
        let piece = buf.split_at(count).0;
        if let Some(heard) = hear(alloc, framer, piece)? {
            return Ok(heard);
        }
    }
    // So many bytes have a whole frame.
    unreachable!()
}

// Puts the bytes of a frame on the open connection, and listens.
fn converse<L: Link>(
    alloc: Global,
    framer: &mut Framer,
    link: &mut L,
    framed: &[u8],
) -> Result<Result<Vec<u8>, NoAnswer>, Memory>
    requires open { L.is_open link.old ≡ true }
    requires none { framer.old ≡ [] }
    ensures ok { IfOk result (λ heard. Converses (L.tells link.old) framed.now (heard_of heard) (seen L.Link link.old) (seen L.Link link.new)) }
    ensures err { OnErr result (Breaks (L.tells link.old) framed.now (seen L.Link link.old) (seen L.Link link.new)) }
    ensures tells { L.tells link.new ≡ L.tells link.old }
{
    match link.put(framed) {
        Ok(()) => listen(alloc, framer, link),
        Err(PutError::Failed) => Ok(Err(NoAnswer::Line)),
        Err(PutError::Memory) => Err(Memory),
    }
}

/// Opens the next connection, puts the frame of a text of 1 to 65,536 bytes, and takes one frame; then it closes the connection. It gives the body of that
/// frame, or why there is none. `next` is called once. Want of memory ends it before the connection is opened, in putting, or where the body is kept.
pub fn exchange<L: Link>(
    alloc: Global,
    link: &mut L,
    text: &[u8],
) -> Result<Result<Vec<u8>, NoAnswer>, Memory>
    requires body { IsBody text.now }
    ensures made { IfOk result (λ heard. (talk : Talk) × Exchanged (L.tells link.old) text.now (heard_of heard) talk (seen L.Link link.old) (seen L.Link link.new)) }
    ensures cut { OnErr result ((talk : Talk) × CutShort (L.tells link.old) text.now talk (seen L.Link link.old) (seen L.Link link.new)) }
    ensures tells { L.tells link.new ≡ L.tells link.old }
{
    let Ok(framed) = frame(alloc, text) else {
        return Err(Memory);
    };
    let Ok(mut framer) = Framer::new(alloc) else {
        return Err(Memory);
    };
    match link.next() {
        Ok(true) => {}
        Ok(false) => return Ok(Err(NoAnswer::Connection)),
        Err(_) => return Ok(Err(NoAnswer::Port)),
    }
    let heard = converse(alloc, &mut framer, link, framed.as_slice());
    link.close();
    heard
}
