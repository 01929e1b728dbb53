// The records of entries.
ghost use Rattle.std.specs.Prelude.{IsTrue, IfOk, IfSome};

use crate::entries::entry;
use crate::words::{bytes_in, cut, hex, text};
use cap_base::Memory;
use cap_entries::{HostEntry, TermEntry};
use cap_journal::Record;
use std::alloc::{AllocError, Global};

// The record of a value.
fn record_of<E: Record>(alloc: Global, value: &E) -> Result<Vec<u8>, AllocError>
    requires { IsTrue (E.fits value.now) }
{
    let mut out = Vec::with_capacity(alloc, value.size())?;
    value.write(&mut out);
    Ok(out)
}

/// The record of an entry of a terminal's journal.
pub(crate) fn record(alloc: Global, word: &str) -> Result<String, Memory> {
    match entry(alloc, word)? {
        Some(entry) => {
            if !entry.fits_record() {
                return text(alloc, "none");
            }
            let record = record_of(alloc, &entry)?;
            Ok(hex(alloc, &record)?)
        }
        None => text(alloc, "no entry"),
    }
}

// The value of the record that bytes begin with, and its number of bytes. What reads has a record.
fn value_in<E: Record>(alloc: Global, bytes: &[u8]) -> Result<Option<(E, usize)>, Memory>
    ensures { IfOk result (λ found. IfSome found (λ value. IsTrue (E.fits value.0))) }
{
    E::read(alloc, bytes)
}

// Whether the record of the value that bytes begin with is these bytes, and how many there are of them.
fn again<E: Record + Drop>(alloc: Global, bytes: &[u8]) -> Result<String, Memory> {
    match value_in::<E>(alloc, bytes)? {
        Some((value, size)) => {
            let record = record_of(alloc, &value)?;
            let is_same = bytes.starts_with(&record);
            Ok(format!(in alloc; "{size} bytes, written the same: {is_same}")?)
        }
        None => text(alloc, "none"),
    }
}

/// The record that bytes begin with, of an entry of a terminal's or a host's journal, read and written again.
pub(crate) fn read(alloc: Global, words: &str) -> Result<String, Memory> {
    let (of, word) = cut(words, ' ');
    let bytes = bytes_in(alloc, word)?;
    match of {
        "terminal" => again::<TermEntry>(alloc, &bytes),
        _ => again::<HostEntry>(alloc, &bytes),
    }
}
