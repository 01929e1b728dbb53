// Opening a journal on a disk in memory.
ghost use Rattle.std.specs.Prelude.{◌≡◌, ℕ, List, false, Option, Some, IfOk, IfErr, MatchResult};
ghost use Rattle.cap_disk.specs.MemoryDisk.{contents_of, told_of};
ghost use Rattle.cap_journal.specs.OfDisk.{disk_of, failed_of, entries_of};
ghost use Rattle.cap_journal.specs.File.{Has};
ghost use Rattle.cap_journal.specs.Told.{StopsWithin};
ghost use Rattle.cap_power.specs.Words.{HasCounted, OnGivenBack, OnOpened, StopsInTwo};
ghost use Rattle.cap_power.specs.Images.{images_of, NoOthers};

use cap_base::Memory;
use cap_disk::MemoryDisk;
use cap_journal::{DiskJournal, Journal, OpenCause, OpenError, Record};
use std::alloc::Global;

// Opens a disk. Where a device call of it failed, it gives the disk back.
pub(crate) fn try_open<E: Record>(
    alloc: Global,
    disk: MemoryDisk,
) -> Result<Result<DiskJournal<E, MemoryDisk>, MemoryDisk>, Memory>
    ensures entries { OnOpened result (λ journal. Has E.reading (contents_of disk).shown (entries_of journal)) }
    ensures works { OnOpened result (λ journal. failed_of journal ≡ false) }
    ensures images { IfOk result (λ tried. MatchResult tried (λ journal. NoOthers disk (disk_of journal)) (λ back. NoOthers disk back)) }
    ensures counts { (stop : Option ℕ) → HasCounted 0 stop disk → OnOpened result (λ journal. HasCounted 2 stop (disk_of journal)) }
    ensures goes_on { (stop : Option ℕ) → HasCounted 0 stop disk → OnOpened result (λ journal. StopsInTwo stop → ⊥) }
    ensures stopped { (stop : Option ℕ) → HasCounted 0 stop disk → OnGivenBack result (λ back. StopsInTwo stop) }
    ensures one_left { HasCounted 0 (Some 2) disk → OnGivenBack result (λ back. (image : List ℕ) → images_of back image → image ≡ (contents_of disk).shown) }
{
    match DiskJournal::open(alloc, disk) {
        Ok(journal) => Ok(Ok(journal)),
        Err(error) => {
            let OpenError { back, cause } = error;
            match cause {
                OpenCause::Disk => Ok(Err(back)),
                // every image is a whole file
                _ => Err(Memory),
            }
        }
    }
}
