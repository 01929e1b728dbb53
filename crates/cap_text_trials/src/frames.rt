// Frames of a stream.
use crate::words::cut;
use cap_base::Memory;
use cap_frame::{BadLength, Framer, frame};
use std::alloc::{AllocError, Global};
use std::fmt::Write;

// What a framer answers for bytes.
fn fed(alloc: Global, framer: &mut Framer, bytes: &[u8]) -> Result<String, AllocError> {
    match framer.feed(bytes) {
        Ok(count) => format!(in alloc; "{count}"),
        Err(BadLength(length)) => format!(in alloc; "bad length {length}"),
    }
}

// The answers for each byte.
fn fed_by_bytes(alloc: Global, head: &[u8]) -> Result<String, Memory> {
    let mut framer = Framer::new(alloc)?;
    let mut out = String::new(alloc);
    for byte in head {
        let text = fed(alloc, &mut framer, &[*byte])?;
        write!(out, " {text}")?;
    }
    Ok(out)
}

/// What a framer answers for these bytes, for one more, and for each byte alone; and whether a frame waits after the first two.
pub(crate) fn head(alloc: Global, bytes: &[u8]) -> Result<String, Memory> {
    let mut framer = Framer::new(alloc)?;
    let first = fed(alloc, &mut framer, bytes)?;
    let second = fed(alloc, &mut framer, &[1])?;
    let waits = framer.next().is_some();
    with_bytes(alloc, bytes, first.as_str(), second.as_str(), waits)
}

fn with_bytes(
    alloc: Global,
    bytes: &[u8],
    first: &str,
    second: &str,
    waits: bool,
) -> Result<String, Memory> {
    let single = fed_by_bytes(alloc, bytes)?;
    let text = format!(in alloc;
        "{first}, then {second}, a frame waits: {waits}; byte by byte{single}"
    )?;
    Ok(text)
}

// Adds a frame of so many 7s.
fn add_frame(alloc: Global, size: usize, stream: &mut Vec<u8>) -> Result<(), Memory> {
    if 1 <= size && size <= 65_536 {
        let body = Vec::from_elem(alloc, 7u8, size)?;
        let framed = frame(alloc, &body)?;
        stream.extend_from_slice(&framed)?;
    }
    Ok(())
}

fn stream_of(alloc: Global, sizes: &str) -> Result<Vec<u8>, Memory> {
    let mut stream = Vec::new(alloc);
    for word in sizes.split_whitespace() {
        add_frame(alloc, word.parse::<usize>().unwrap_or(0), &mut stream)?;
    }
    Ok(stream)
}

// Adds the size of a body; one that has another byte than 7 is marked.
fn add_size(out: &mut String, body: &[u8]) -> Result<(), AllocError> {
    let mark = if body.iter().all(|byte| *byte == 7) {
        ""
    } else {
        " with other bytes"
    };
    write!(out, " {}{mark}", body.len())
}

// The bodies that a framer hands out where a stream comes in pieces of so many bytes.
fn handed_out(alloc: Global, stream: &[u8], piece: usize) -> Result<String, Memory> {
    let mut out = String::new(alloc);
    let mut framer = Framer::new(alloc)?;
    let mut rest = stream;
    for _ in 0..1_000_000u64 {
        if let Some(body) = framer.next() {
            add_size(&mut out, body)?;
        }
        if rest.is_empty() {
            break;
        }
        match framer.feed(rest.split_at(piece.min(rest.len())).0) {
            Ok(taken) => rest = rest.split_at(taken).1,
            Err(_) => break,
        }
    }
    Ok(out)
}

/// The bodies of a stream of frames of these sizes, which comes in pieces of so many bytes.
pub(crate) fn bodies(alloc: Global, words: &str) -> Result<String, Memory> {
    let (piece, sizes) = cut(words);
    let stream = stream_of(alloc, sizes)?;
    let out = handed_out(alloc, &stream, piece.parse::<usize>().unwrap_or(1))?;
    let text = format!(in alloc; "{} bytes hold{out}", stream.len())?;
    Ok(text)
}
