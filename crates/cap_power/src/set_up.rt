ghost use Rattle.std.specs.Prelude.{◌≡◌, [], ◌∷◌, false, None, IsTrue, IfOk};
ghost use Rattle.cap_disk.specs.MemoryDisk.{told_of};
ghost use Rattle.cap_journal.specs.OfDisk.{disk_of, failed_of, entries_of};
ghost use Rattle.cap_journal.specs.File.{Has};
ghost use Rattle.cap_plays.specs.Corresponds.{EachHas};
ghost use Rattle.cap_power.specs.Counting.{Counting};
ghost use Rattle.cap_power.specs.Images.{images_of};

use cap_base::Memory;
use cap_disk::MemoryDisk;
use cap_journal::{DiskJournal, Journal, Record};
use std::alloc::Global;

// Where no call has failed, every image has exactly the entries.
fn images_have<E: Record>(journal: &DiskJournal<E, MemoryDisk>)
    requires { failed_of journal.now ≡ false }
    ensures { EachHas (Has E.reading) (images_of (disk_of journal.now)) (entries_of journal.now) }
{}

/// A journal of this one entry, on a new disk: every image has exactly it, and nothing is armed. The one error is want of memory.
pub fn journal_of<E: Record>(alloc: Global, entry: E) -> Result<DiskJournal<E, MemoryDisk>, Memory>
    requires { IsTrue (E.fits entry) }
    ensures entries { IfOk result (λ journal. entries_of journal ≡ entry ∷ []) }
    ensures works { IfOk result (λ journal. failed_of journal ≡ false) }
    ensures images { IfOk result (λ journal. EachHas (Has E.reading) (images_of (disk_of journal)) (entries_of journal)) }
    // three calls to format it, and four to append
    ensures counts { IfOk result (λ journal. Counting None 7 (told_of (disk_of journal))) }
{
    let disk = MemoryDisk::new(alloc)?;
    let journal: Result<DiskJournal<E, MemoryDisk>, _> = DiskJournal::init(alloc, disk);
    let Ok(mut journal) = journal else {
        return Err(Memory);
    };
    match journal.append(entry) {
        Ok(()) => {
            images_have(&journal);
            Ok(journal)
        }
        Err(_) => Err(Memory),
    }
}
