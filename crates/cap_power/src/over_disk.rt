ghost use Rattle.std.specs.Prelude.{◌≡◌, ℕ, List, Bool, false, Option, Some, IfOk, IfErr, MatchResult};
ghost use Rattle.cap_disk.specs.Disk.{Counts};
ghost use Rattle.cap_disk.specs.Switch.{stop_of};
ghost use Rattle.cap_disk.specs.MemoryDisk.{contents_of, told_of};
ghost use Rattle.cap_disk.specs.declared.memory.MemoryDisk.{MemoryDisk};
ghost use Rattle.cap_journal.specs.File.{Has};
ghost use Rattle.cap_journal.specs.Told.{StopsWithin};
ghost use Rattle.cap_power.specs.Words.{HasCounted, OnGivenBack, OnOpened, StopsInTwo};
ghost use Rattle.cap_power.specs.Images.{images_of, NoOthers};

use cap_base::Memory;
use cap_disk::{Fill, MemoryDisk};
use cap_journal::Record;
use std::alloc::Global;

/// An end over a journal on a disk in memory.
pub trait OverDisk<E: Record>: Drop + Sized {
    /// The entries of its journal.
    ghost entries: { Self → List E };

    /// The disk of its journal.
    ghost disk: { Self → MemoryDisk };

    /// Whether a call of its disk has failed, so that it adds nothing.
    ghost has_failed: { Self → Bool };

    /// Opens the end over a disk whose calls count from 0, with a sync and a length. Where one of them fails, it gives the disk back.
    fn open(alloc: Global, file: MemoryDisk) -> Result<Result<Self, MemoryDisk>, Memory>
        ensures entries { OnOpened result (λ end. Has E.reading (contents_of file).shown (entries end)) }
        ensures works { OnOpened result (λ end. has_failed end ≡ false) }
        ensures images { IfOk result (λ tried. MatchResult tried (λ end. NoOthers file (disk end)) (λ back. NoOthers file back)) }
        ensures counts { (stop : Option ℕ) → HasCounted 0 stop file → OnOpened result (λ end. HasCounted 2 stop (disk end)) }
        ensures goes_on { (stop : Option ℕ) → HasCounted 0 stop file → OnOpened result (λ end. StopsInTwo stop → ⊥) }
        ensures stopped { (stop : Option ℕ) → HasCounted 0 stop file → OnGivenBack result (λ back. StopsInTwo stop) }
        ensures one_left { HasCounted 0 (Some 2) file → OnGivenBack result (λ back. (image : List ℕ) → images_of back image → image ≡ (contents_of file).shown) };

    /// The end, with a call of its disk armed: to cut the power there, or to fail. It counts from 1; at 0 nothing is armed. No device call is made.
    fn arm(self, alloc: Global, call: u64, fill: Fill, cuts: bool) -> Result<Self, Memory>
        requires { has_failed self ≡ false }
        ensures entries { IfOk result (λ end. entries end ≡ entries self) }
        ensures works { IfOk result (λ end. has_failed end ≡ false) }
        ensures images { IfOk result (λ end. NoOthers (disk self) (disk end)) }
        ensures counts { (c : Counts) → told_of (disk self) ≡ Some c → IfOk result (λ end. HasCounted c.calls (stop_of c.calls call) (disk end)) };

    /// Gives the disk back.
    fn into_disk(self) -> MemoryDisk
        ensures { result ≡ disk self };

    /// Where no call has failed, every image has exactly the entries.
    ghost kept: { (end : Self) (image : List ℕ) → has_failed end ≡ false → images_of (disk end) image → Has E.reading image (entries end) };
}
