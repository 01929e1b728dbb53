ghost use Rattle.std.specs.Prelude.{◌≡◌, ◌<◌, IfOk, IfSome};
ghost use Rattle.cap_schedule.specs.Hex.{hex_digit as spec_digit, hex_byte as spec_byte, hex_bytes as spec_bytes};

use crate::schedule::Bytes;
use std::alloc::{AllocError, Global};

// The value of a hexadecimal digit, in lower case.
fn hex_digit(b: u8) -> Option<u8>
    ensures value { result ≡ spec_digit b }
    ensures small { IfSome result (λ n. n < 16) }
{
    if b'0' <= b && b <= b'9' {
        Some(b - b'0')
    } else if b'a' <= b && b <= b'f' {
        Some(b - 87)
    } else {
        None
    }
}

/// The byte of two hexadecimal digits, in lower case.
pub fn hex_byte(high: u8, low: u8) -> Option<u8>
    ensures { result ≡ spec_byte high low }
{
    match (hex_digit(high), hex_digit(low)) {
        (Some(high), Some(low)) => Some(16 * high + low),
        _ => None,
    }
}

/// The bytes that hexadecimal digits spell, two to a byte.
pub fn hex_bytes(alloc: Global, text: &[u8]) -> Result<Option<Bytes>, AllocError>
    ensures { IfOk result (λ found. found ≡ spec_bytes text.now) }
{
    let mut bytes = Vec::new(alloc);
    let mut rest = text;
    'pairs: while rest.len() >= 2 {
        let Some(byte) = hex_byte(rest[0], rest[1]) else {
            return Ok(None);
        };
        bytes.push(byte)?;
        rest = rest.split_at(2).1;
    }
    if rest.is_empty() {
        Ok(Some(Bytes::new(bytes)))
    } else {
        Ok(None)
    }
}
