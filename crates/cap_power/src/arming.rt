// Which device call of an end's disk fails, or cuts the power. Calls of `read_at` do not count.
ghost use Rattle.std.specs.Prelude.{◌≡◌, ℕ, false, Option, Some, None, IfOk};
ghost use Rattle.cap_disk.specs.Disk.{Counts};
ghost use Rattle.cap_disk.specs.Switch.{stop_of};
ghost use Rattle.cap_disk.specs.MemoryDisk.{told_of};
ghost use Rattle.cap_journal.specs.OfDisk.{disk_of, failed_of, entries_of};
ghost use Rattle.cap_power.specs.Words.{HasCounted};
ghost use Rattle.cap_power.specs.Counting.{Counting, CountsFromOne};
ghost use Rattle.cap_power.specs.Images.{NoOthers};

use crate::OverDisk;
use cap_base::Memory;
use cap_disk::{Counted, Fill, MemoryDisk};
use cap_journal::{DiskJournal, Journal, Record};
use cap_schedule::Prefix;
use std::alloc::Global;

/// A journal with a call of its disk armed: to cut the power there, or to fail.
pub(crate) fn arm_journal<E: Record>(
    journal: DiskJournal<E, MemoryDisk>,
    call: u64,
    fill: Fill,
    cuts: bool,
) -> DiskJournal<E, MemoryDisk>
    ensures entries { entries_of result ≡ entries_of journal }
    ensures has_failed { failed_of result ≡ failed_of journal }
    ensures images { NoOthers (disk_of journal) (disk_of result) }
    ensures counts { (c : Counts) → told_of (disk_of journal) ≡ Some c → HasCounted c.calls (stop_of c.calls call) (disk_of result) }
{
    let mut journal = journal;
    if cuts {
        journal.arm_cut(call, fill, Counted::NoReads);
        journal
    } else {
        journal.arm_fail(call, fill, Counted::NoReads);
        journal
    }
}

/// The end that works, with the call that the prefix names armed on its disk, and all else as it was. The one error is want of memory.
pub fn armed<E: Record, T: OverDisk<E>>(
    alloc: Global,
    end: T,
    prefix: Option<Prefix>,
) -> Result<T, Memory>
    requires { T.has_failed end ≡ false }
    ensures entries { IfOk result (λ now. T.entries now ≡ T.entries end) }
    ensures works { IfOk result (λ now. T.has_failed now ≡ false) }
    ensures images { IfOk result (λ now. NoOthers (T.disk end) (T.disk now)) }
    ensures call { IfOk result (λ now. CountsFromOne prefix) }
    ensures counts { (most : ℕ) → Counting None most (told_of (T.disk end)) → IfOk result (λ now. Counting prefix most (told_of (T.disk now))) }
{
    match prefix {
        Some(Prefix::Cut { call, fill }) => {
            // no prefix of a schedule names call 0
            if call == 0 {
                return Err(Memory);
            }
            end.arm(alloc, call, fill, true)
        }
        Some(Prefix::Fail { call, fill }) => {
            if call == 0 {
                return Err(Memory);
            }
            end.arm(alloc, call, fill, false)
        }
        Some(Prefix::CutAfter) => Ok(end),
        None => Ok(end),
    }
}

/// The end that works, with nothing armed on its disk, and all else as it was. The one error is want of memory.
pub fn disarmed<E: Record, T: OverDisk<E>>(alloc: Global, end: T) -> Result<T, Memory>
    requires { T.has_failed end ≡ false }
    ensures entries { IfOk result (λ now. T.entries now ≡ T.entries end) }
    ensures works { IfOk result (λ now. T.has_failed now ≡ false) }
    ensures images { IfOk result (λ now. NoOthers (T.disk end) (T.disk now)) }
    ensures counts { (calls : ℕ) (stop : Option ℕ) → HasCounted calls stop (T.disk end) → IfOk result (λ now. HasCounted calls None (T.disk now)) }
{
    end.arm(alloc, 0, Fill::Old, false)
}
