ghost use Rattle.std.specs.Prelude.{◌≡◌, ℕ, List, false, Option, Some, IfOk, IfErr, MatchResult};
ghost use Rattle.std.proofs.Common.{refl};
ghost use Rattle.cap_disk.specs.Disk.{Counts, StaysCounted};
ghost use Rattle.cap_disk.specs.Switch.{stop_of};
ghost use Rattle.cap_disk.specs.MemoryDisk.{contents_of, told_of};
ghost use Rattle.cap_entries.specs.TermRecord.{term_reading};
ghost use Rattle.cap_journal.specs.OfDisk.{disk_of, failed_of, entries_of};
ghost use Rattle.cap_journal.specs.File.{Has};
ghost use Rattle.cap_journal.specs.Kept.{kept_by};
ghost use Rattle.cap_journal.specs.Told.{StopsWithin};
ghost use Rattle.cap_power.specs.Words.{HasCounted, OnGivenBack, OnOpened, StopsInTwo};
ghost use Rattle.cap_power.specs.Images.{images_of, NoOthers};

use crate::OverDisk;
use crate::arming::arm_journal;
use crate::opening::try_open;
use cap_base::Memory;
use cap_disk::{Fill, MemoryDisk};
use cap_entries::TermEntry;
use cap_journal::{DiskJournal, Journal};
use cap_terminal::Terminal;
use std::alloc::Global;

// Opens the terminal over a journal that works. No device call is counted in it, and it leaves no other image.
fn terminal_over(
    alloc: Global,
    journal: DiskJournal<TermEntry, MemoryDisk>,
) -> Result<Terminal<DiskJournal<TermEntry, MemoryDisk>>, Memory>
    requires { failed_of journal ≡ false }
    ensures entries { IfOk result (λ end. entries_of end ≡ entries_of journal) }
    ensures works { IfOk result (λ end. failed_of end ≡ false) }
    ensures counts { IfOk result (λ end. StaysCounted (told_of (disk_of journal)) (told_of (disk_of end))) }
    ensures images { IfOk result (λ end. NoOthers (disk_of journal) (disk_of end)) }
{
    match Terminal::open(alloc, journal) {
        Ok(terminal) => Ok(terminal),
        Err(_) => Err(Memory),
    }
}

// Opens it with a call of the disk armed.
fn terminal_armed(
    alloc: Global,
    journal: DiskJournal<TermEntry, MemoryDisk>,
    call: u64,
    fill: Fill,
    cuts: bool,
) -> Result<Terminal<DiskJournal<TermEntry, MemoryDisk>>, Memory>
    requires { failed_of journal ≡ false }
    ensures entries { IfOk result (λ end. entries_of end ≡ entries_of journal) }
    ensures works { IfOk result (λ end. failed_of end ≡ false) }
    ensures images { IfOk result (λ end. NoOthers (disk_of journal) (disk_of end)) }
    ensures counts { (c : Counts) → told_of (disk_of journal) ≡ Some c → IfOk result (λ end. HasCounted c.calls (stop_of c.calls call) (disk_of end)) }
{
    terminal_over(alloc, arm_journal(journal, call, fill, cuts))
}

impl OverDisk<TermEntry> for Terminal<DiskJournal<TermEntry, MemoryDisk>> {
    ghost entries = { λ terminal. entries_of terminal };

    ghost disk = { λ terminal. disk_of terminal };

    ghost has_failed = { λ terminal. failed_of terminal };

    ghost kept = { λ terminal image works left. kept_by term_reading (contents_of terminal.disk) terminal.entries.items image (terminal.written refl works) (terminal.synced refl works) (terminal.parsed refl works) left };

    fn open(alloc: Global, file: MemoryDisk) -> Result<Result<Self, MemoryDisk>, Memory>
        ensures entries { OnOpened result (λ end. Has term_reading (contents_of file).shown (entries_of end)) }
        ensures works { OnOpened result (λ end. failed_of end ≡ false) }
        ensures images { IfOk result (λ tried. MatchResult tried (λ end. NoOthers file (disk_of end)) (λ back. NoOthers file back)) }
        ensures counts { (stop : Option ℕ) → HasCounted 0 stop file → OnOpened result (λ end. HasCounted 2 stop (disk_of end)) }
        ensures goes_on { (stop : Option ℕ) → HasCounted 0 stop file → OnOpened result (λ end. StopsInTwo stop → ⊥) }
        ensures stopped { (stop : Option ℕ) → HasCounted 0 stop file → OnGivenBack result (λ back. StopsInTwo stop) }
        ensures one_left { HasCounted 0 (Some 2) file → OnGivenBack result (λ back. (image : List ℕ) → images_of back image → image ≡ (contents_of file).shown) }
    {
        let tried = try_open(alloc, file)?;
        match tried {
            Ok(journal) => {
                let terminal = terminal_over(alloc, journal)?;
                Ok(Ok(terminal))
            }
            Err(back) => Ok(Err(back)),
        }
    }

    fn arm(self, alloc: Global, call: u64, fill: Fill, cuts: bool) -> Result<Self, Memory>
        requires { failed_of self ≡ false }
        ensures entries { IfOk result (λ end. entries_of end ≡ entries_of self) }
        ensures works { IfOk result (λ end. failed_of end ≡ false) }
        ensures images { IfOk result (λ end. NoOthers (disk_of self) (disk_of end)) }
        ensures counts { (c : Counts) → told_of (disk_of self) ≡ Some c → IfOk result (λ end. HasCounted c.calls (stop_of c.calls call) (disk_of end)) }
    {
        terminal_armed(alloc, Terminal::into_journal(self), call, fill, cuts)
    }

    fn into_disk(self) -> MemoryDisk
        ensures { result ≡ disk_of self }
    {
        Terminal::into_journal(self).into_disk()
    }
}
