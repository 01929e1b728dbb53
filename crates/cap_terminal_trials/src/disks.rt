// A terminal over a disk of which a call fails.
ghost use Rattle.std.specs.Prelude.{◌≡◌, false, IfSome};

use crate::fault::Fault;
use crate::journals::setup;
use crate::row::number;
use crate::state::{At, Disk};
use cap_disk::{Counted, Fill, MemoryDisk};
use cap_entries::TermEntry;
use cap_journal::{DiskJournal, Journal};
use cap_terminal::Terminal;
use std::alloc::Global;
use std::string::String;

// Adds an entry that fits its record.
#[tactic(auto, using(crate::proofs::Room::one_row))]
fn with_entry(journal: Disk, entry: TermEntry) -> Option<Disk>
    ensures { IfSome result (λ now. ⟦<Disk as Journal<TermEntry>>⟧.has_failed now ≡ false) }
{
    let mut journal = journal;
    if !entry.fits_record() || journal.reserve_rows().is_err() {
        return None;
    }
    match journal.append(entry) {
        Ok(()) => Some(journal),
        Err(_) => None,
    }
}

// A journal on a disk with a set-up alone.
fn set_up(alloc: Global) -> Option<Disk>
    ensures { IfSome result (λ now. ⟦<Disk as Journal<TermEntry>>⟧.has_failed now ≡ false) }
{
    let Ok(disk) = MemoryDisk::new(alloc) else {
        return None;
    };
    match DiskJournal::init(alloc, disk) {
        Ok(journal) => with_entry(journal, setup(1000, 2000)?),
        Err(_) => None,
    }
}

/// `disk 3`: a terminal over a disk in memory, of which this call fails, counted from here.
pub(crate) fn failing(alloc: Global, words: [&str; 6]) -> Result<(At, String), Fault> {
    let Some(mut journal) = set_up(alloc) else {
        return Err(Fault::Journal);
    };
    journal.arm_fail(number(words[0]), Fill::Old, Counted::NoReads);
    match Terminal::open(alloc, journal) {
        Ok(terminal) => Ok((At::OnDisk(terminal), String::from_str(alloc, "open")?)),
        Err(_) => Err(Fault::Journal),
    }
}
