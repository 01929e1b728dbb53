// What the plain call makes of a document, by the entries alone.
use crate::documents::document;
use crate::fault::Fault;
use crate::journals::entries_in;
use crate::opening::opened;
use crate::state::{At, Trial};
use cap_entries::{TermEntry, first_not_allowed};
use cap_msgs::{DecodeError, decode};
use cap_terminal_answers::{Taking, take_fault, take_message};
use std::alloc::Global;
use std::string::String;

// What the plain call makes of bytes. None where the entries are not allowed.
fn taken(alloc: Global, entries: &[TermEntry], bytes: &[u8]) -> Result<Option<Taking>, Fault> {
    if first_not_allowed(alloc, entries)?.is_some() {
        return Ok(None);
    }
    match decode(alloc, bytes) {
        Ok(message) => Ok(Some(take_message(alloc, entries, &message)?)),
        Err(DecodeError::Fault(fault)) => Ok(Some(take_fault(&fault))),
        Err(DecodeError::Memory) => Err(Fault::Memory),
    }
}

// A terminal's entries, beside the terminal.
fn entries_of(alloc: Global, terminal: Trial) -> Result<(Vec<TermEntry>, Trial), Fault> {
    let mut journal = terminal.into_journal();
    let entries = entries_in(alloc, &mut journal)?;
    match opened(alloc, journal) {
        Ok(terminal) => Ok((entries, terminal)),
        Err(_) => Err(Fault::Journal),
    }
}

// What the plain call answers and adds.
fn told(alloc: Global, entries: &[TermEntry], words: [&str; 6]) -> Result<String, Fault> {
    let text = document(alloc, words)?;
    match taken(alloc, entries, text.as_bytes())? {
        Some(taking) => Ok(format!(in alloc; "{:?} {:?}", taking.added, taking.answer)?),
        None => Ok(String::from_str(alloc, "not allowed")?),
    }
}

/// `plain ACQ1 caaa.004 ..`: what the plain call makes of a document, as its definition says, of the entries of the terminal, which stays as it is.
pub(crate) fn plain(alloc: Global, at: At, words: [&str; 6]) -> Result<(At, String), Fault> {
    match at {
        At::Open(terminal) => {
            let (entries, terminal) = entries_of(alloc, terminal)?;
            let text = told(alloc, &entries, words)?;
            Ok((At::Open(terminal), text))
        }
        other => Ok((other, String::from_str(alloc, "none")?)),
    }
}
