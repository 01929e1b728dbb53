use crate::fault::Fault;
use crate::trial::{InMemory, opened};
use cap_base::Memory;
use cap_entries::HostEntry;
use cap_journal::{Journal, Record, VecJournal};
use std::alloc::Global;

// The record of host ACQ1's set-up up to the number of its terminals: limit 500.00, blocks 411111, polls each hour from 2023-11-14T22:13:20Z on.
const FRONT: &[u8] =
    b"\x41\x04ACQ1\x00\x00\x00\x00\x00\x00\xc3\x50\x01411111\x00\x00\x00\x00\x00\x00\x00\x3c\x142023-11-14T22:13:20Z";

// A journal in memory with the entry of this record alone. None where there is no such entry.
#[tactic(auto, using(crate::proofs::Room::one_row))]
fn started(alloc: Global, record: &[u8]) -> Result<Option<VecJournal<HostEntry>>, Memory> {
    let mut journal = VecJournal::new(alloc)?;
    match HostEntry::read(alloc, record)? {
        Some((entry, _)) => {
            journal.reserve_rows()?;
            match journal.append(entry) {
                Ok(()) => Ok(Some(journal)),
                Err(_) => Err(Memory),
            }
        }
        None => Ok(None),
    }
}

// The bytes of a short text.
fn push_short(record: &mut Vec<u8>, text: &str) -> Result<(), Fault> {
    record.push((text.len() % 256) as u8)?;
    Ok(record.extend_from_slice(text.as_bytes())?)
}

// The record of the set-up with these terminals.
fn record(alloc: Global, names: &[&str]) -> Result<Vec<u8>, Fault> {
    let mut record = FRONT.to_vec(alloc)?;
    record.push((names.len() % 256) as u8)?;
    for name in names {
        push_short(&mut record, name)?;
    }
    Ok(record)
}

/// A host in memory with these terminals, which took nothing yet.
pub(crate) fn new_host(alloc: Global, names: &[&str]) -> Result<InMemory, Fault> {
    let record = record(alloc, names)?;
    match started(alloc, &record)? {
        Some(journal) => opened(alloc, journal),
        None => Err(Fault::Journal),
    }
}
