ghost use Rattle.std.specs.Prelude.{◌≡◌, ℕ, List, false, Option, Some, IfOk, IfErr, MatchResult};
ghost use Rattle.std.proofs.Common.{refl};
ghost use Rattle.cap_disk.specs.Disk.{Counts, StaysCounted};
ghost use Rattle.cap_disk.specs.Switch.{stop_of};
ghost use Rattle.cap_disk.specs.MemoryDisk.{contents_of, told_of};
ghost use Rattle.cap_entries.specs.HostRecord.{host_reading};
ghost use Rattle.cap_journal.specs.OfDisk.{disk_of, failed_of, entries_of as journal_entries};
ghost use Rattle.cap_journal.specs.File.{Has};
ghost use Rattle.cap_journal.specs.Kept.{kept_by};
ghost use Rattle.cap_journal.specs.Told.{StopsWithin};
ghost use Rattle.cap_host.specs.Host.{journal_of, entries_of, has_failed as host_has_failed};
ghost use Rattle.cap_power.specs.Words.{HasCounted, OnGivenBack, OnOpened, StopsInTwo};
ghost use Rattle.cap_power.specs.Images.{images_of, NoOthers};

use crate::OverDisk;
use crate::arming::arm_journal;
use crate::opening::try_open;
use cap_base::Memory;
use cap_disk::{Fill, MemoryDisk};
use cap_entries::HostEntry;
use cap_host::Host;
use cap_journal::{DiskJournal, Journal};
use std::alloc::Global;

// Opens the host over a journal that works. No device call is counted in it, and it leaves no other image.
fn host_over(
    alloc: Global,
    journal: DiskJournal<HostEntry, MemoryDisk>,
) -> Result<Host<DiskJournal<HostEntry, MemoryDisk>>, Memory>
    requires { failed_of journal ≡ false }
    ensures entries { IfOk result (λ end. entries_of end ≡ journal_entries journal) }
    ensures works { IfOk result (λ end. host_has_failed end ≡ false) }
    ensures counts { IfOk result (λ end. StaysCounted (told_of (disk_of journal)) (told_of (disk_of (journal_of end)))) }
    ensures images { IfOk result (λ end. NoOthers (disk_of journal) (disk_of (journal_of end))) }
{
    match Host::open(alloc, journal) {
        Ok(host) => Ok(host),
        Err(_) => Err(Memory),
    }
}

// Opens it with a call of the disk armed.
fn host_armed(
    alloc: Global,
    journal: DiskJournal<HostEntry, MemoryDisk>,
    call: u64,
    fill: Fill,
    cuts: bool,
) -> Result<Host<DiskJournal<HostEntry, MemoryDisk>>, Memory>
    requires { failed_of journal ≡ false }
    ensures entries { IfOk result (λ end. entries_of end ≡ journal_entries journal) }
    ensures works { IfOk result (λ end. host_has_failed end ≡ false) }
    ensures images { IfOk result (λ end. NoOthers (disk_of journal) (disk_of (journal_of end))) }
    ensures counts { (c : Counts) → told_of (disk_of journal) ≡ Some c → IfOk result (λ end. HasCounted c.calls (stop_of c.calls call) (disk_of (journal_of end))) }
{
    host_over(alloc, arm_journal(journal, call, fill, cuts))
}

impl OverDisk<HostEntry> for Host<DiskJournal<HostEntry, MemoryDisk>> {
    ghost entries = { λ host. entries_of host };

    ghost disk = { λ host. disk_of (journal_of host) };

    ghost has_failed = { λ host. host_has_failed host };

    ghost kept = { λ host image works left. kept_by host_reading (contents_of (journal_of host).disk) (journal_of host).entries.items image ((journal_of host).written refl (host.ledger.works works)) ((journal_of host).synced refl (host.ledger.works works)) ((journal_of host).parsed refl (host.ledger.works works)) left };

    fn open(alloc: Global, file: MemoryDisk) -> Result<Result<Self, MemoryDisk>, Memory>
        ensures entries { OnOpened result (λ end. Has host_reading (contents_of file).shown (entries_of end)) }
        ensures works { OnOpened result (λ end. host_has_failed end ≡ false) }
        ensures images { IfOk result (λ tried. MatchResult tried (λ end. NoOthers file (disk_of (journal_of end))) (λ back. NoOthers file back)) }
        ensures counts { (stop : Option ℕ) → HasCounted 0 stop file → OnOpened result (λ end. HasCounted 2 stop (disk_of (journal_of end))) }
        ensures goes_on { (stop : Option ℕ) → HasCounted 0 stop file → OnOpened result (λ end. StopsInTwo stop → ⊥) }
        ensures stopped { (stop : Option ℕ) → HasCounted 0 stop file → OnGivenBack result (λ back. StopsInTwo stop) }
        ensures one_left { HasCounted 0 (Some 2) file → OnGivenBack result (λ back. (image : List ℕ) → images_of back image → image ≡ (contents_of file).shown) }
    {
        let tried = try_open(alloc, file)?;
        match tried {
            Ok(journal) => {
                let host = host_over(alloc, journal)?;
                Ok(Ok(host))
            }
            Err(back) => Ok(Err(back)),
        }
    }

    fn arm(self, alloc: Global, call: u64, fill: Fill, cuts: bool) -> Result<Self, Memory>
        requires { host_has_failed self ≡ false }
        ensures entries { IfOk result (λ end. entries_of end ≡ entries_of self) }
        ensures works { IfOk result (λ end. host_has_failed end ≡ false) }
        ensures images { IfOk result (λ end. NoOthers (disk_of (journal_of self)) (disk_of (journal_of end))) }
        ensures counts { (c : Counts) → told_of (disk_of (journal_of self)) ≡ Some c → IfOk result (λ end. HasCounted c.calls (stop_of c.calls call) (disk_of (journal_of end))) }
    {
        host_armed(alloc, Host::into_journal(self), call, fill, cuts)
    }

    fn into_disk(self) -> MemoryDisk
        ensures { result ≡ disk_of (journal_of self) }
    {
        Host::into_journal(self).into_disk()
    }
}
