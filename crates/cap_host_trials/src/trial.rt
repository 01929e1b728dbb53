use crate::fault::Fault;
use cap_entries::HostEntry;
use cap_host::Host;
use cap_journal::{Journal, VecJournal};
use std::alloc::Global;

/// A host over a journal in memory.
pub(crate) type InMemory = Host<VecJournal<HostEntry>>;

/// A host, and the entries that it ought to have by the plain answers.
#[derive(Drop)]
pub(crate) struct Trial {
    pub(crate) host: InMemory,
    pub(crate) entries: Vec<HostEntry>,
}

/// Opens a host over a journal.
pub(crate) fn opened(alloc: Global, journal: VecJournal<HostEntry>) -> Result<InMemory, Fault> {
    match Host::open(alloc, journal) {
        Ok(host) => Ok(host),
        Err(_) => Err(Fault::Journal),
    }
}

/// Copies a journal's entries.
pub(crate) fn entries_in(
    alloc: Global,
    journal: &mut VecJournal<HostEntry>,
) -> Result<Vec<HostEntry>, Fault> {
    let mut entries = Vec::new(alloc);
    for i in 0..journal.count() {
        if i < journal.count() {
            match journal.entry(i) {
                Ok(entry) => entries.push(entry)?,
                Err(_) => return Err(Fault::Journal),
            }
        }
    }
    Ok(entries)
}
