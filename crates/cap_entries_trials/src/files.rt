// The file of a journal, to the byte.
use crate::entries::entries;
use crate::journals::{Trial, add, bytes_of, disk_with, new_journal};
use crate::pages;
use crate::words::{bytes_in, cut, hex, text};
use cap_base::Memory;
use cap_entries::TermEntry;
use cap_journal::{DiskJournal, Journal, OpenCause, Record};
use cap_journal_trials::Sample;
use std::alloc::{AllocError, Global};
use std::fmt::Write;

fn opened<E: Record>(alloc: Global, bytes: &[u8]) -> Option<Result<u64, OpenCause>> {
    let disk = disk_with(alloc, bytes)?;
    let opened: Result<Trial<E>, _> = DiskJournal::open(alloc, disk);
    match opened {
        Ok(journal) => Some(Ok(journal.count())),
        Err(error) => Some(Err(error.cause)),
    }
}

fn begun<E: Record>(alloc: Global, bytes: &[u8]) -> Option<Result<u64, OpenCause>> {
    let disk = disk_with(alloc, bytes)?;
    let begun: Result<Trial<E>, _> = DiskJournal::init(alloc, disk);
    match begun {
        Ok(journal) => Some(Ok(journal.count())),
        Err(error) => Some(Err(error.cause)),
    }
}

fn told(alloc: Global, count: Option<Result<u64, OpenCause>>) -> Result<String, Memory> {
    match count {
        Some(Ok(count)) => Ok(format!(in alloc; "{count} entries")?),
        Some(Err(cause)) => Ok(format!(in alloc; "{cause:?}")?),
        None => text(alloc, "no disk"),
    }
}

/// A file of a terminal's entries or of samples, opened; of samples also by a journal that is read through pages.
pub(crate) fn open(alloc: Global, words: &str) -> Result<String, Memory> {
    let (of, word) = cut(words, ' ');
    let bytes = bytes_in(alloc, word)?;
    match of {
        "terminal" => told(alloc, opened::<TermEntry>(alloc, &bytes)),
        "paged" => told(alloc, pages::opened(alloc, &bytes)),
        _ => told(alloc, opened::<Sample>(alloc, &bytes)),
    }
}

/// A journal begun on a disk that holds a file.
pub(crate) fn begin(alloc: Global, words: &str) -> Result<String, Memory> {
    let (of, word) = cut(words, ' ');
    let bytes = bytes_in(alloc, word)?;
    match of {
        "terminal" => told(alloc, begun::<TermEntry>(alloc, &bytes)),
        _ => told(alloc, begun::<Sample>(alloc, &bytes)),
    }
}

// The gates of the first three groups and the one behind them.
fn places<E: Record>(alloc: Global, journal: &Trial<E>) -> Result<String, AllocError> {
    let mut out = String::new(alloc);
    for i in 0..4 {
        if i <= journal.count() {
            write!(out, " {}", journal.place_of(i))?;
        }
    }
    Ok(out)
}

fn shown<E: Record>(alloc: Global, journal: Trial<E>) -> Result<String, Memory> {
    let places = places(alloc, &journal)?;
    let mut disk = journal.into_disk();
    match bytes_of(alloc, &mut disk) {
        Some(bytes) => {
            let hex = hex(alloc, &bytes)?;
            Ok(format!(in alloc; "gates{places}, bytes {hex}")?)
        }
        None => text(alloc, "no bytes"),
    }
}

fn or_none<E: Record>(alloc: Global, journal: Option<Trial<E>>) -> Result<String, Memory> {
    match journal {
        Some(journal) => shown(alloc, journal),
        None => text(alloc, "no journal"),
    }
}

// A journal of these entries, where each fits its record.
fn journal_of(alloc: Global, entries: Vec<TermEntry>) -> Option<Trial<TermEntry>> {
    let mut journal = new_journal(alloc)?;
    for entry in entries {
        if !entry.fits_record() {
            return None;
        }
        add(&mut journal, entry)?;
    }
    Some(journal)
}

/// The file of a terminal with these entries.
pub(crate) fn terminal(alloc: Global, words: &str) -> Result<String, Memory> {
    match entries(alloc, words)? {
        Some(entries) => or_none(alloc, journal_of(alloc, entries)),
        None => text(alloc, "no entries"),
    }
}

fn journal_of_samples(alloc: Global) -> Option<Trial<Sample>> {
    let mut journal = new_journal(alloc)?;
    add(&mut journal, Sample::Setup)?;
    add(&mut journal, Sample::Begin)?;
    add(&mut journal, Sample::Completed)?;
    Some(journal)
}

/// The file of the three samples.
pub(crate) fn samples(alloc: Global) -> Result<String, Memory> {
    or_none(alloc, journal_of_samples(alloc))
}
