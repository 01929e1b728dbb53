// Any link, call by call.
ghost use Rattle.std.specs.Prelude.{◌≡◌, true};

use crate::show::{said, taken};
use cap_link::Link;
use std::alloc::{AllocError, Global};

/// A link, and whether a connection was opened on it.
#[derive(Drop)]
pub struct Line<L: Link + Drop> {
    pub link: L,
    is_open: bool,
    ghost open: { is_open ≡ true → L.is_open link ≡ true },
}

impl<L: Link + Drop> Line<L> {
    pub fn new(link: L) -> Line<L> {
        Line {
            link,
            is_open: false,
        }
    }
}

/// Opens the next connection.
pub fn open<L: Link + Drop>(alloc: Global, line: &mut Line<L>) -> Result<String, AllocError> {
    let answer = line.link.next();
    if answer == Ok(true) {
        line.is_open = true;
    }
    format!(in alloc; "{answer:?}")
}

/// Takes at most so many bytes.
pub fn take<L: Link + Drop>(
    alloc: Global,
    line: &mut Line<L>,
    room: u64,
) -> Result<String, AllocError> {
    let mut buf = [0u8; 16];
    if !line.is_open || room == 0 || room > 16 {
        return said(alloc, "none");
    }
    let answer = line.link.take(&mut buf[..room as usize]);
    taken(alloc, answer, &buf)
}

/// Puts a text.
pub fn put<L: Link + Drop>(
    alloc: Global,
    line: &mut Line<L>,
    text: &str,
) -> Result<String, AllocError> {
    if !line.is_open {
        return said(alloc, "none");
    }
    let answer = line.link.put(text.as_bytes());
    format!(in alloc; "{answer:?}")
}

/// Says that nothing more comes.
pub fn close<L: Link + Drop>(alloc: Global, line: &mut Line<L>) -> Result<String, AllocError> {
    line.link.close();
    said(alloc, "closed")
}
