// Parameter sets, and what both ends are set up with.
use crate::entries::row;
use crate::words::{cut, number, text};
use cap_base::{Ident, Memory, Row};
use cap_entries::{Blocks, Idents, RowSet, TermSetup, floor_row};
use std::alloc::{AllocError, Global};

fn is_made(alloc: Global, is_made: bool) -> Result<String, Memory> {
    text(alloc, if is_made { "made" } else { "none" })
}

fn rows_in(alloc: Global, words: &str) -> Result<Vec<Row>, AllocError> {
    let mut rows = Vec::new(alloc);
    for word in words.split_whitespace() {
        if let Some(row) = row(word) {
            rows.push(row)?;
        }
    }
    Ok(rows)
}

fn set_of(alloc: Global, rows: Vec<Row>) -> Result<String, Memory> {
    match RowSet::new(rows) {
        Ok(set) => Ok(format!(in alloc; "a set of {}", set.as_slice().len())?),
        Err(fault) => Ok(format!(in alloc; "{fault:?}")?),
    }
}

/// A parameter set of rows.
pub(crate) fn set(alloc: Global, words: &str) -> Result<String, Memory> {
    let rows = rows_in(alloc, words)?;
    set_of(alloc, rows)
}

/// A parameter set of one row that stands so many times.
pub(crate) fn many(alloc: Global, words: &str) -> Result<String, Memory> {
    let (count, word) = cut(words, ' ');
    match row(word) {
        Some(row) => set_of(
            alloc,
            Vec::from_elem(alloc, row, number(count).min(1000) as usize)?,
        ),
        None => text(alloc, "no row"),
    }
}

/// The floor that rows give.
pub(crate) fn floor(alloc: Global, words: &str) -> Result<String, Memory> {
    let rows = rows_in(alloc, words)?;
    match floor_row(&rows) {
        Some(floor) => Ok(format!(in alloc; "{floor}")?),
        None => text(alloc, "none"),
    }
}

fn term_setup(terminal: &str, host: &str, max: u64, floor: u64) -> Option<TermSetup> {
    let terminal = Ident::read(terminal.as_bytes())?;
    let host = Ident::read(host.as_bytes())?;
    TermSetup::new(terminal, host, max, floor)
}

/// A terminal's set-up: its name and its host's, the number of its sales, and its floor.
pub(crate) fn setup(alloc: Global, words: &str) -> Result<String, Memory> {
    let (terminal, words) = cut(words, ' ');
    let (host, words) = cut(words, ' ');
    let (max, floor) = cut(words, ' ');
    is_made(
        alloc,
        term_setup(terminal, host, number(max), number(floor)).is_some(),
    )
}

/// The names of a host's terminals.
pub(crate) fn names(alloc: Global, words: &str) -> Result<String, Memory> {
    let mut names = Vec::new(alloc);
    for word in words.split_whitespace() {
        if let Some(name) = Ident::read(word.as_bytes()) {
            names.push(name)?;
        }
    }
    is_made(alloc, Idents::new(names).is_some())
}

fn prefix(word: &str) -> [u8; 6] {
    let mut prefix = [0; 6];
    for (place, byte) in prefix.iter_mut().zip(word.as_bytes()) {
        *place = *byte;
    }
    prefix
}

/// The beginning of an account that stands so many times among those that a host blocks.
pub(crate) fn blocks(alloc: Global, words: &str) -> Result<String, Memory> {
    let (count, word) = cut(words, ' ');
    let prefixes = Vec::from_elem(alloc, prefix(word), number(count).min(1000) as usize)?;
    is_made(alloc, Blocks::new(prefixes).is_some())
}
