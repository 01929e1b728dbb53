// How often adding an entry reads.
ghost use Rattle.std.specs.Prelude.{◌≡◌, ◌^◌, [], None, false};
ghost use Rattle.std.proofs.lemmas.Bool.{false≢true};

use crate::journals::add_to;
use crate::words::text;
use cap_base::{Failed, Memory};
use cap_disk::Disk;
use cap_journal::DiskJournal;
use cap_journal_trials::Sample;
use std::alloc::Global;

// A disk that keeps nothing, and counts its calls of `read_at`, and those of `write_at` and `sync`.
#[derive(Drop)]
struct CountingDisk {
    reads: u64,
    changes: u64,
}

impl Disk for CountingDisk {
    ghost tells = { λ _. false };

    ghost contents = { λ _. record { synced = []; written = []; shown = [] } };

    ghost moment = { λ _. 0 };

    ghost left_since = { λ _ _ _. Unit {0} };

    ghost room = { λ _. record { bytes = 2 ^ 64; calls = 2 ^ 64 } };

    ghost faults = { λ _. 0 };

    ghost counts = { λ _. None };

    ghost counts_now = { λ _ _ _ told. absurd (false≢true told) };

    ghost only_now = { λ _ _ told. absurd (false≢true told) };

    ghost shows_one = { λ _ told. absurd (false≢true told) };

    fn len(&mut self) -> Result<u64, Failed> {
        Ok(0)
    }

    fn read_at(&mut self, _place: u64, _buf: &mut [u8]) -> Result<(), Failed> {
        self.reads = self.reads.saturating_add(1);
        Ok(())
    }

    fn write_at(&mut self, _place: u64, _bytes: &[u8]) -> Result<(), Failed> {
        self.changes = self.changes.saturating_add(1);
        Ok(())
    }

    fn sync(&mut self) -> Result<(), Failed> {
        self.changes = self.changes.saturating_add(1);
        Ok(())
    }

    fn make_room(&mut self, _bytes: u64, _calls: u64) -> Result<(), Memory> {
        Ok(())
    }
}

// What the disk counted while a journal was made and two entries were added.
fn counted(alloc: Global) -> Option<CountingDisk> {
    let disk = CountingDisk {
        reads: 0,
        changes: 0,
    };
    let Ok(mut journal) = DiskJournal::init(alloc, disk) else {
        return None;
    };
    add_to(&mut journal, Sample::Setup)?;
    add_to(&mut journal, Sample::Begin)?;
    Some(journal.into_disk())
}

/// How often formatting and adding two entries reads: never.
pub(crate) fn appends(alloc: Global) -> Result<String, Memory> {
    match counted(alloc) {
        Some(disk) => {
            Ok(format!(in alloc; "reads {}, writes and syncs {}", disk.reads, disk.changes)?)
        }
        None => text(alloc, "no journal"),
    }
}
