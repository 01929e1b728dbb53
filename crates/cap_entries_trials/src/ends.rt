// A small end over any journal.
use crate::journals::{Trial, new_journal};
use crate::words::text;
use cap_base::Memory;
use cap_disk::{Counted, Fill};
use cap_journal::{Journal, VecJournal};
use cap_journal_trials::{Ledger, Sample, add_and_reopen};
use std::alloc::Global;

// How many entries a journal in memory has after one was added.
fn count_in_memory(alloc: Global) -> Option<u64> {
    let mut journal = VecJournal::new(alloc).ok()?;
    journal.reserve_rows().ok()?;
    journal.append(Sample::Setup).ok()?;
    Some(journal.count())
}

// A journal to which an entry was added while the fourth call failed, and which was opened again; and whether it was answered Ok.
fn reopened(alloc: Global) -> Option<(Trial<Sample>, bool)> {
    let mut journal = new_journal(alloc)?;
    journal.reserve(1).ok()?;
    journal.arm_fail(4, Fill::Old, Counted::NoReads);
    let added = add_and_reopen(&mut journal, Sample::Begin).ok()?;
    Some((journal, added))
}

// How many entries an end counts after one more.
fn count_after_one(journal: Trial<Sample>) -> Option<u64> {
    let mut ledger = Ledger::new(journal);
    ledger.journal.reserve(1).ok()?;
    ledger.add(Sample::Begin).ok()?;
    Some(ledger.count)
}

fn counts(alloc: Global) -> Option<(u64, bool, u64, u64)> {
    let first = count_in_memory(alloc)?;
    let (journal, added) = reopened(alloc)?;
    let second = journal.count();
    let third = count_after_one(journal)?;
    Some((first, added, second, third))
}

/// An end in memory with one entry; one whose disk fails and which opens it again; and that one with one entry more.
pub(crate) fn ends(alloc: Global) -> Result<String, Memory> {
    match counts(alloc) {
        Some((first, added, second, third)) => {
            Ok(format!(in alloc; "{first}; answered Ok: {added}, {second}; {third}")?)
        }
        None => text(alloc, "no journal"),
    }
}
