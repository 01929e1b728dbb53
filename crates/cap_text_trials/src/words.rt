// The words of a case.
use std::alloc::{AllocError, Global};

/// The first word of a text, and what stands behind the blank after it.
pub(crate) fn cut(text: &str) -> (&str, &str) {
    text.split_once(' ').unwrap_or((text, ""))
}

/// Bytes as text.
pub(crate) fn shown(alloc: Global, bytes: &[u8]) -> Result<String, AllocError> {
    String::from_str(alloc, str::from_utf8(bytes).unwrap_or("no text"))
}

/// The answer where there is no value.
pub(crate) fn none(alloc: Global) -> Result<String, AllocError> {
    String::from_str(alloc, "none")
}

// How far an escape is: it has not begun, has begun, or has its first digit.
#[derive(Clone, Copy)]
enum Escape {
    Closed,
    Begun,
    High(u8),
}

fn digit(byte: u8) -> u8 {
    match byte {
        b'0'..=b'9' => byte - b'0',
        b'a'..=b'f' => byte - b'a' + 10,
        _ => 0,
    }
}

fn put(out: &mut Vec<u8>, escape: Escape, byte: u8) -> Result<Escape, AllocError> {
    match escape {
        Escape::Closed if byte == b'\\' => Ok(Escape::Begun),
        Escape::Closed => {
            out.push(byte)?;
            Ok(Escape::Closed)
        }
        Escape::Begun => Ok(Escape::High(digit(byte))),
        Escape::High(high) => {
            out.push(high.wrapping_mul(16).wrapping_add(digit(byte)))?;
            Ok(Escape::Closed)
        }
    }
}

/// The bytes that a text spells.
pub(crate) fn spelt(alloc: Global, text: &str) -> Result<Vec<u8>, AllocError> {
    let mut out = Vec::new(alloc);
    let mut escape = Escape::Closed;
    for byte in text.as_bytes() {
        escape = put(&mut out, escape, *byte)?;
    }
    Ok(out)
}
