// The words of a row.
use cap_base::read_number;
use cap_frame::frame;
use std::alloc::{AllocError, Global};

/// The number that a word spells; 0 where it spells none.
pub fn number(word: &str) -> u64 {
    match read_number(word.as_bytes(), 10) {
        Some(n) => n,
        None => 0,
    }
}

/// The numbers of a list with commas; none for `-`.
pub fn numbers(alloc: Global, words: &str) -> Result<Vec<u64>, AllocError> {
    let mut list = Vec::new(alloc);
    if words != "-" {
        for word in words.split(',') {
            list.push(number(word))?;
        }
    }
    Ok(list)
}

fn digit(letter: u8) -> u8 {
    match letter {
        b'0'..=b'9' => letter - b'0',
        b'a'..=b'f' => letter - b'a' + 10,
        _ => 0,
    }
}

// Bytes, two hexadecimal digits each.
fn push_bytes(bytes: &mut Vec<u8>, digits: &[u8]) -> Result<(), AllocError> {
    for pair in digits.chunks_exact(2) {
        bytes.push(digit(pair[0]) % 16 * 16 + digit(pair[1]) % 16)?;
    }
    Ok(())
}

fn push_frame(alloc: Global, bytes: &mut Vec<u8>, body: &[u8]) -> Result<(), AllocError> {
    if body.is_empty() || body.len() > 65_536 {
        return Ok(());
    }
    match frame(alloc, body) {
        Ok(framed) => bytes.extend_from_slice(&framed),
        Err(_) => Err(AllocError),
    }
}

/// The bytes of a connection: frames of these words, joined by `+`; a word behind `=` is bytes in hexadecimal digits, one behind `%` a frame of such bytes, and `*` as many frames of one byte as a
/// connection may have, and one more.
pub fn connection(alloc: Global, words: &str) -> Result<Vec<u8>, AllocError> {
    let mut bytes = Vec::new(alloc);
    for word in words.split('+') {
        if word == "*" {
            for _ in 0..65_537 {
                bytes.extend_from_slice(b"\x00\x00\x00\x01x")?;
            }
        } else if let Some(digits) = word.strip_prefix('=') {
            push_bytes(&mut bytes, digits.as_bytes())?;
        } else if let Some(digits) = word.strip_prefix('%') {
            let mut body = Vec::new(alloc);
            push_bytes(&mut body, digits.as_bytes())?;
            push_frame(alloc, &mut bytes, &body)?;
        } else {
            push_frame(alloc, &mut bytes, word.as_bytes())?;
        }
    }
    Ok(bytes)
}
