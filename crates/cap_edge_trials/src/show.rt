// Words to values, and values to words.
ghost use Rattle.std.specs.Prelude.{◌<◌, ◌^◌};

use cap_base::{Failed, read_number};
use std::alloc::{AllocError, Global};
use std::str;

/// The number that a word spells; 0 where it spells none.
pub fn number(word: &str) -> u64
    ensures { result < 2 ^ 34 }
{
    match read_number(word.as_bytes(), 10) {
        Some(n) if n < 1 << 34 => n,
        _ => 0,
    }
}

/// These words alone.
pub fn said(alloc: Global, words: &str) -> Result<String, AllocError> {
    format!(in alloc; "{words}")
}

/// Bytes as text.
pub fn text_of(bytes: &[u8]) -> &str {
    match str::from_utf8(bytes) {
        Ok(text) => text,
        Err(_) => "no text",
    }
}

/// What a call took, and its bytes.
pub fn taken(
    alloc: Global,
    answer: Result<usize, Failed>,
    buf: &[u8],
) -> Result<String, AllocError> {
    match answer {
        Ok(n) if n <= buf.len() => format!(in alloc; "Ok({n}) {}", text_of(&buf[..n])),
        _ => said(alloc, "Err(Failed)"),
    }
}
