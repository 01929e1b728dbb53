// Links in memory.
use crate::lines::{Line, close, open, put, take};
use crate::show::{number, said, text_of};
use cap_link::MemLink;
use std::alloc::{AllocError, Global};

// Connections with these bytes, of which a `-` is one with none.
fn connections(alloc: Global, words: &[&str]) -> Result<Vec<Vec<u8>>, AllocError> {
    let mut made = Vec::new(alloc);
    for word in words {
        let bytes = if *word == "-" {
            b"".as_slice()
        } else {
            word.as_bytes()
        };
        made.push(Vec::from_slice(alloc, bytes)?)?;
    }
    Ok(made)
}

fn new_link(alloc: Global, line: &mut Line<MemLink>, words: &[&str]) -> Result<String, AllocError> {
    *line = Line::new(MemLink::new(alloc, connections(alloc, words)?));
    said(alloc, "new")
}

fn bytes(alloc: Global, line: &Line<MemLink>, i: u64) -> Result<String, AllocError> {
    match line.link.bytes(i as usize) {
        Some(bytes) => format!(in alloc; "Some {}", text_of(bytes)),
        None => said(alloc, "None"),
    }
}

fn fail(alloc: Global, line: &mut Line<MemLink>, calls: &[u64]) -> Result<String, AllocError> {
    let answer = line.link.fail_at(calls);
    format!(in alloc; "{answer:?}")
}

// What names a link in memory: `new BYTES ..`, `bytes CONNECTION`, `fail CALL ..`.
fn memory(
    alloc: Global,
    line: &mut Line<MemLink>,
    words: &[&str],
    calls: &[u64],
) -> Result<String, AllocError> {
    match words {
        ["new", rest @ ..] => new_link(alloc, line, rest),
        ["bytes", i] => bytes(alloc, line, number(i)),
        ["fail", ..] => fail(alloc, line, calls),
        _ => said(alloc, "none"),
    }
}

/// Calls of a link in memory: those of any link, and `new BYTES ..`, `bytes CONNECTION`, `fail CALL ..`.
pub fn link(
    alloc: Global,
    line: &mut Line<MemLink>,
    words: &[&str],
    calls: &[u64],
) -> Result<String, AllocError> {
    match words {
        ["open"] => open(alloc, line),
        ["take", room] => take(alloc, line, number(room)),
        ["put", text] => put(alloc, line, text),
        ["close"] => close(alloc, line),
        _ => memory(alloc, line, words, calls),
    }
}
