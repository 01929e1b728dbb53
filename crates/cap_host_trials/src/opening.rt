// Rows that make a host, or look into its journal.
use crate::fault::Fault;
use crate::start::new_host;
use crate::trial::{InMemory, Trial, entries_in, opened};
use cap_entries::HostEntry;
use std::alloc::Global;
use std::string::String;

// A host over a journal, and the entries that it has.
fn trial(alloc: Global, host: InMemory) -> Result<Trial, Fault> {
    let mut journal = host.into_journal();
    let entries = entries_in(alloc, &mut journal)?;
    let host = opened(alloc, journal)?;
    Ok(Trial { host, entries })
}

/// `new`: a host with the terminals T1 and T2.
pub(crate) fn new(alloc: Global) -> Result<(Option<Trial>, String), Fault> {
    let trial = trial(alloc, new_host(alloc, &["T1", "T2"])?)?;
    Ok((Some(trial), String::from_str(alloc, "open")?))
}

// Whether two lists of entries are the same, and how many there are.
fn compared(alloc: Global, entries: &[HostEntry], wanted: &[HostEntry]) -> Result<String, Fault> {
    let told = format!(in alloc; "{entries:?}")?;
    let plain = format!(in alloc; "{wanted:?}")?;
    let word = if told == plain {
        "same"
    } else {
        "not the same"
    };
    Ok(format!(in alloc; "{} {word}", entries.len())?)
}

/// `entries`: whether the journal has the entries of the plain answers, and how many. The host is opened again over it.
pub(crate) fn entries(alloc: Global, at: Option<Trial>) -> Result<(Option<Trial>, String), Fault> {
    let Some(Trial { host, entries }) = at else {
        return Ok((None, String::from_str(alloc, "none")?));
    };
    let again = trial(alloc, host)?;
    let text = compared(alloc, &again.entries, &entries)?;
    Ok((Some(again), text))
}
