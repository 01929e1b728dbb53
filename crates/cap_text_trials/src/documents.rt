// Documents, whole and in pieces.
ghost use Rattle.cap_leaf.specs.Trees.{data_of};
ghost use Rattle.cap_trees.specs.Fits.{FitsKind};

use crate::messages::again;
use crate::names::ident;
use crate::words::{cut, spelt};
use cap_base::Reason;
use cap_leaf::{Fault, Kind, Tree};
use cap_text::{PieceReader, ReadError, message_number, read_document, write_document};
use std::alloc::{AllocError, Global};

pub(crate) fn fault_text(alloc: Global, fault: &Fault) -> Result<String, AllocError> {
    let from = match fault.from {
        Some(from) => ident(alloc, from.as_bytes())?,
        None => String::from_str(alloc, "no one")?,
    };
    let family = if fault.management {
        " of management"
    } else {
        ""
    };
    let Fault {
        place,
        reason,
        exchange,
        ..
    } = *fault;
    format!(in alloc; "{reason:?} at {place}, exchange {exchange} from {from}{family}")
}

/// The text of a document beside the bytes that it was read from.
pub(crate) fn beside(
    alloc: Global,
    kind: Kind,
    text: &[u8],
    bytes: &[u8],
) -> Result<String, AllocError> {
    let number = message_number(kind);
    let len = text.len();
    if text == bytes {
        format!(in alloc; "{number} of {len} bytes, as it came")
    } else {
        format!(in alloc;
            "{number} of {len} bytes, {}",
            str::from_utf8(text).unwrap_or("no text")
        )
    }
}

fn written(alloc: Global, kind: Kind, tree: &Tree, bytes: &[u8]) -> Result<String, AllocError>
    requires { FitsKind kind (data_of tree.now) }
{
    match write_document(alloc, kind, tree) {
        Ok(text) => beside(alloc, kind, &text, bytes),
        Err(_) => String::from_str(alloc, "no memory"),
    }
}

// What is read of a document that comes whole.
fn whole(alloc: Global, bytes: &[u8]) -> Result<String, AllocError> {
    match read_document(alloc, bytes) {
        Ok((kind, tree)) => written(alloc, kind, &tree, bytes),
        Err(ReadError::Fault(fault)) => fault_text(alloc, &fault),
        Err(ReadError::Memory) => String::from_str(alloc, "no memory"),
    }
}

// What a reader read: the number of a document, or the fault.
fn finished(alloc: Global, reader: PieceReader) -> Result<String, AllocError> {
    match reader.finish() {
        Ok((kind, _tree)) => String::from_str(alloc, message_number(kind)),
        Err(ReadError::Fault(fault)) => fault_text(alloc, &fault),
        Err(ReadError::Memory) => String::from_str(alloc, "no memory"),
    }
}

// What is read of a document that comes byte by byte.
fn byte_by_byte(alloc: Global, bytes: &[u8]) -> Result<String, AllocError> {
    let mut reader = PieceReader::new(alloc);
    for byte in bytes {
        if reader.feed(&[*byte]).is_err() {
            return String::from_str(alloc, "no memory");
        }
    }
    finished(alloc, reader)
}

// Another answer for the same document.
fn other<'a>(answer: &str, other: &'a str) -> &'a str {
    if answer.starts_with(other) {
        "the same"
    } else {
        other
    }
}

/// A document read whole, byte by byte, and as a message.
pub(crate) fn document(alloc: Global, bytes: &[u8]) -> Result<String, AllocError> {
    let answer = whole(alloc, bytes)?;
    let pieces = byte_by_byte(alloc, bytes)?;
    let message = again(alloc, bytes)?;
    let answer = answer.as_str();
    let pieces = other(answer, pieces.as_str());
    let message = other(answer, message.as_str());
    format!(in alloc; "{answer}; byte by byte {pieces}; as a message {message}")
}

// The given document with so many bytes at a place replaced by a text that stands so many times.
fn replaced(
    alloc: Global,
    given: &[u8],
    place: (usize, usize),
    times: usize,
    text: &[u8],
) -> Result<Vec<u8>, AllocError> {
    let (at, removed) = place;
    let mut out = Vec::from_slice(alloc, &given[..at.min(given.len())])?;
    for _ in 0..times {
        out.extend_from_slice(text)?;
    }
    out.extend_from_slice(&given[at.saturating_add(removed).min(given.len())..])?;
    Ok(out)
}

fn count(word: &str) -> usize {
    word.parse::<usize>().unwrap_or(0)
}

/// The given document with an edit: its place, how many bytes go, how often the text comes, and the text.
pub(crate) fn edited(alloc: Global, given: &[u8], words: &str) -> Result<String, AllocError> {
    let (at, words) = cut(words);
    let (removed, words) = cut(words);
    let (times, text) = cut(words);
    let text = spelt(alloc, text)?;
    let place = (count(at), count(removed));
    let bytes = replaced(alloc, given, place, count(times), &text)?;
    document(alloc, &bytes)
}

// Whether a front of a document is one that was cut short, with its fault inside it.
fn is_cut_short(alloc: Global, front: &[u8]) -> bool {
    match read_document(alloc, front).err() {
        Some(ReadError::Fault(fault)) => {
            fault.reason == Reason::Pars && fault.place <= front.len() as u64
        }
        _ => false,
    }
}

// Whether two pieces are a document.
fn is_document(alloc: Global, first: &[u8], second: &[u8]) -> bool {
    let mut reader = PieceReader::new(alloc);
    if reader.feed(first).is_err() || reader.feed(second).is_err() {
        return false;
    }
    reader.finish().is_ok()
}

/// How many fronts of the given document are cut short, and how often it is a document in two pieces.
pub(crate) fn fronts(alloc: Global, given: &[u8]) -> Result<String, AllocError> {
    let len = given.len();
    let short = (0..len)
        .filter(|at| is_cut_short(alloc, &given[..*at]))
        .count();
    let whole = (0..len)
        .filter(|at| is_document(alloc, &given[..*at], &given[*at..]))
        .count();
    format!(in alloc; "{short} of {len} cut short, {whole} of {len} whole in two pieces")
}

/// Nothing but so many `<`.
pub(crate) fn noise(alloc: Global, words: &str) -> Result<String, AllocError> {
    let bytes = Vec::from_elem(alloc, b'<', count(words).min(100_000))?;
    document(alloc, &bytes)
}
