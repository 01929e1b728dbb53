// The words of a case.
use cap_base::Memory;
use std::alloc::{AllocError, Global};
use std::fmt::Write;

/// A text up to a mark, and what stands behind the mark.
pub(crate) fn cut(text: &str, mark: char) -> (&str, &str) {
    text.split_once(mark).unwrap_or((text, ""))
}

/// A number; what is no number counts as 0.
pub(crate) fn number(word: &str) -> u64 {
    word.parse::<u64>().unwrap_or(0)
}

/// Bytes as text.
pub(crate) fn shown(bytes: &[u8]) -> &str {
    str::from_utf8(bytes).unwrap_or("no text")
}

/// A text of its own.
pub(crate) fn text(alloc: Global, text: &str) -> Result<String, Memory> {
    Ok(String::from_str(alloc, text)?)
}

fn digit(byte: u8) -> u8 {
    match byte {
        b'0'..=b'9' => byte - b'0',
        b'a'..=b'f' => byte - b'a' + 10,
        _ => 0,
    }
}

/// The bytes that pairs of hexadecimal digits spell.
pub(crate) fn bytes_in(alloc: Global, word: &str) -> Result<Vec<u8>, AllocError> {
    let mut out = Vec::new(alloc);
    let mut high = None;
    for byte in word.as_bytes() {
        let low = digit(*byte);
        match high {
            Some(first) => {
                out.push(u8::wrapping_mul(first, 16).wrapping_add(low))?;
                high = None;
            }
            None => high = Some(low),
        }
    }
    Ok(out)
}

/// Bytes as pairs of hexadecimal digits.
pub(crate) fn hex(alloc: Global, bytes: &[u8]) -> Result<String, AllocError> {
    let mut out = String::new(alloc);
    for byte in bytes {
        write!(out, "{byte:02x}")?;
    }
    Ok(out)
}
