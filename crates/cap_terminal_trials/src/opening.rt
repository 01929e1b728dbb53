// Rows that make a terminal, or open it again.
use crate::fault::Fault;
use crate::journals::{add, begin, setup};
use crate::row::number;
use crate::state::{At, Trial};
use cap_entries::TermEntry;
use cap_journal::VecJournal;
use cap_terminal::{TermOpenCause, Terminal};
use std::alloc::Global;
use std::string::String;

/// Opens a terminal over a journal, or tells why none is opened.
pub(crate) fn opened(
    alloc: Global,
    journal: VecJournal<TermEntry>,
) -> Result<Trial, TermOpenCause> {
    match Terminal::open(alloc, journal) {
        Ok(terminal) => Ok(terminal),
        Err(error) => Err(error.cause),
    }
}

/// Opens a terminal over the journal, and says so.
pub(crate) fn open(alloc: Global, journal: VecJournal<TermEntry>) -> Result<(At, String), Fault> {
    match opened(alloc, journal) {
        Ok(terminal) => Ok((At::Open(terminal), String::from_str(alloc, "open")?)),
        Err(cause) => Ok((At::Nothing, format!(in alloc; "{cause:?}")?)),
    }
}

/// `new 1000 2000`: a terminal with these limits of its sales and its floor.
pub(crate) fn new(alloc: Global, words: [&str; 6]) -> Result<(At, String), Fault> {
    let mut journal = VecJournal::new(alloc)?;
    add(&mut journal, setup(number(words[0]), number(words[1])))?;
    open(alloc, journal)
}

// The entry of a row such as `begin 1 1250`.
fn entry_of(words: [&str; 6]) -> Option<TermEntry> {
    match words[0] {
        "setup" => setup(number(words[1]), number(words[2])),
        "begin" => begin(number(words[1]), number(words[2])),
        "cancelled" => Some(TermEntry::Cancelled {
            n: number(words[1]),
        }),
        _ => None,
    }
}

/// `entry begin 1 1250`: one more entry of a journal over which no terminal is open.
pub(crate) fn entry(alloc: Global, at: At, words: [&str; 6]) -> Result<(At, String), Fault> {
    let mut journal = match at {
        At::Journal(journal) => journal,
        _ => VecJournal::new(alloc)?,
    };
    let added = add(&mut journal, entry_of(words))?;
    Ok((At::Journal(journal), format!(in alloc; "{added}")?))
}

/// `open`: opens a terminal over the journal, once more where one is open.
pub(crate) fn again(alloc: Global, at: At) -> Result<(At, String), Fault> {
    match at {
        At::Journal(journal) => open(alloc, journal),
        At::Open(terminal) => open(alloc, terminal.into_journal()),
        _ => open(alloc, VecJournal::new(alloc)?),
    }
}
