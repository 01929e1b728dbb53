// Journals in memory, entry by entry.
use crate::fault::Fault;
use cap_base::{Account, Amount, Ident};
use cap_entries::{TermEntry, TermSetup};
use cap_journal::{Journal, VecJournal};
use std::alloc::Global;

/// The set-up of terminal T1 with host ACQ1.
pub(crate) fn setup(max: u64, floor: u64) -> Option<TermEntry> {
    let terminal = Ident::read(b"T1")?;
    let host = Ident::read(b"ACQ1")?;
    let settings = TermSetup::new(terminal, host, max, floor)?;
    Some(TermEntry::Setup(settings))
}

/// The sum and the account of a sale.
pub(crate) fn card(hundredths: u64) -> Option<(Amount, Account)> {
    let amount = Amount::new(hundredths)?;
    let account = Account::read(b"4000001234567899")?;
    Some((amount, account))
}

/// The beginning of a sale.
pub(crate) fn begin(n: u64, hundredths: u64) -> Option<TermEntry> {
    let (amount, account) = card(hundredths)?;
    Some(TermEntry::Begin { n, amount, account })
}

/// Adds an entry where it fits its record, and tells whether it does.
#[tactic(auto, using(crate::proofs::Room::one_row))]
pub(crate) fn add(
    journal: &mut VecJournal<TermEntry>,
    entry: Option<TermEntry>,
) -> Result<bool, Fault> {
    let Some(entry) = entry else {
        return Ok(false);
    };
    if !entry.fits_record() {
        return Ok(false);
    }
    journal.reserve_rows()?;
    match journal.append(entry) {
        Ok(()) => Ok(true),
        Err(_) => Err(Fault::Journal),
    }
}

/// Copies a journal's entries.
pub(crate) fn entries_in(
    alloc: Global,
    journal: &mut VecJournal<TermEntry>,
) -> Result<Vec<TermEntry>, Fault> {
    let mut entries = Vec::new(alloc);
    for i in 0..journal.count() {
        if i < journal.count() {
            match journal.entry(i) {
                Ok(entry) => entries.push(entry)?,
                Err(_) => return Err(Fault::Journal),
            }
        }
    }
    Ok(entries)
}
