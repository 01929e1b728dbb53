// Opening an end again.
ghost use Rattle.std.specs.Prelude.{◌≡◌, ◌≤◌, ℕ, List, Bool, false, Option, Some, None, IfOk, IfErr, MatchResult};
ghost use Rattle.cap_disk.specs.MemoryDisk.{contents_of, told_of};
ghost use Rattle.cap_journal.specs.File.{Has};
ghost use Rattle.cap_journal.specs.Told.{StopsWithin};
ghost use Rattle.cap_plays.specs.Plays.{Doubt, MayKeep};
ghost use Rattle.cap_schedule.specs.declared.schedule.Prefix.TheVariants.{Cut, Fail, CutAfter};
ghost use Rattle.cap_power.specs.Words.{HasCounted};
ghost use Rattle.cap_power.specs.Images.{images_of, NoOthers, IsRestarted};
ghost use Rattle.cap_power.specs.Standing.{Stands, IsReady, IsOnWith, IsOffWithOne};
ghost use Rattle.cap_power.specs.Fates.{opening, MeetsFate, Opens};

use crate::OverDisk;
use crate::opening::try_open;
use crate::power::{Power, Settled};
use crate::settling::disk_of;
use cap_base::Memory;
use cap_disk::{Counted, Fill, MemoryDisk};
use cap_journal::{DiskJournal, Record};
use cap_schedule::{Outcome, Prefix};
use std::alloc::Global;

// The disk after the power was gone.
fn restarted(disk: MemoryDisk) -> MemoryDisk
    ensures { IsRestarted disk result }
{
    disk.restart()
}

// The end that was opened, with nothing armed.
fn on_again<E: Record, T: OverDisk<E>>(alloc: Global, end: T) -> Result<Settled<T>, Memory>
    requires { T.has_failed end ≡ false }
    ensures on { IfOk result (IsOnWith (Has E.reading) T.entries T.disk (T.entries end)) }
    ensures ready { (stop : Option ℕ) → HasCounted 2 stop (T.disk end) → IfOk result (λ after. IsReady T.has_failed T.disk 2 after.power) }
{
    let end = end.arm(alloc, 0, Fill::Old, false)?;
    Ok(Settled {
        power: Power::On(end),
        outcome: Outcome::Restarted,
    })
}

// Off, with what the power cut left of the disk.
fn cut_off<T: Drop>(disk: MemoryDisk) -> Settled<T>
    ensures { IsOffWithOne disk Outcome.WasCut result }
{
    Settled {
        power: Power::Off(disk.restart()),
        outcome: Outcome::WasCut,
    }
}

// Off, with the disk that failed.
fn failed_off<T: Drop>(disk: MemoryDisk) -> Settled<T>
    ensures power { result.power ≡ Power.Off disk }
    ensures outcome { result.outcome ≡ Outcome.DiskFailed }
{
    Settled {
        power: Power::Off(disk),
        outcome: Outcome::DiskFailed,
    }
}

// With no prefix. What the sync of an opening makes of the disk, a restart makes of it before.
fn open_whole<E: Record, T: OverDisk<E>>(
    alloc: Global,
    disk: MemoryDisk,
) -> Result<Settled<T>, Memory>
    ensures opened { IfOk result (Opens (Has E.reading) T.entries T.disk None (images_of disk)) }
    ensures ready { IfOk result (λ after. IsReady T.has_failed T.disk 2 after.power) }
{
    let fresh = restarted(disk);
    let tried: Result<T, MemoryDisk> = T::open(alloc, fresh)?;
    match tried {
        Ok(end) => on_again(alloc, end),
        // no call fails where none is armed
        Err(_) => Err(Memory),
    }
}

// The power goes after the opening.
fn open_to_cut_after<E: Record, T: OverDisk<E>>(
    alloc: Global,
    disk: MemoryDisk,
) -> Result<Settled<T>, Memory>
    ensures opened { IfOk result (Opens (Has E.reading) T.entries T.disk (Some CutAfter) (images_of disk)) }
    ensures ready { IfOk result (λ after. IsReady T.has_failed T.disk 2 after.power) }
{
    let fresh = restarted(disk);
    let tried: Result<DiskJournal<E, MemoryDisk>, MemoryDisk> = try_open(alloc, fresh)?;
    match tried {
        Ok(journal) => Ok(cut_off(journal.into_disk())),
        Err(_) => Err(Memory),
    }
}

// The power goes at the sync.
fn cut_at_sync<E: Record, T: OverDisk<E>>(
    alloc: Global,
    disk: MemoryDisk,
    fill: Fill,
) -> Result<Settled<T>, Memory>
    ensures opened { IfOk result (Opens (Has E.reading) T.entries T.disk (Some (Cut 1 fill)) (images_of disk)) }
    ensures ready { IfOk result (λ after. IsReady T.has_failed T.disk 2 after.power) }
{
    let mut disk = disk;
    disk.arm_cut(1, fill, Counted::NoReads);
    let tried: Result<DiskJournal<E, MemoryDisk>, MemoryDisk> = try_open(alloc, disk)?;
    match tried {
        // the first call is the sync
        Ok(_) => Err(Memory),
        Err(back) => Ok(cut_off(back)),
    }
}

// The power goes at a later call.
fn open_to_cut<E: Record, T: OverDisk<E>>(
    alloc: Global,
    disk: MemoryDisk,
    call: u64,
    fill: Fill,
) -> Result<Settled<T>, Memory>
    requires { 2 ≤ call }
    ensures opened { IfOk result (Opens (Has E.reading) T.entries T.disk (Some (Cut call fill)) (images_of disk)) }
    ensures ready { IfOk result (λ after. IsReady T.has_failed T.disk 2 after.power) }
{
    let mut fresh = restarted(disk);
    fresh.arm_cut(call, fill, Counted::NoReads);
    let tried: Result<T, MemoryDisk> = T::open(alloc, fresh)?;
    match tried {
        Ok(end) => on_again(alloc, end),
        Err(back) => Ok(cut_off(back)),
    }
}

// The sync fails: the disk stays as it is.
fn fail_at_sync<E: Record, T: OverDisk<E>>(
    alloc: Global,
    disk: MemoryDisk,
    fill: Fill,
) -> Result<Settled<T>, Memory>
    ensures opened { IfOk result (Opens (Has E.reading) T.entries T.disk (Some (Fail 1 fill)) (images_of disk)) }
    ensures ready { IfOk result (λ after. IsReady T.has_failed T.disk 2 after.power) }
{
    let mut disk = disk;
    disk.arm_fail(1, fill, Counted::NoReads);
    let tried: Result<DiskJournal<E, MemoryDisk>, MemoryDisk> = try_open(alloc, disk)?;
    match tried {
        Ok(_) => Err(Memory),
        Err(back) => Ok(failed_off(back)),
    }
}

// A later call fails: the sync has settled what a read gives.
fn open_to_fail<E: Record, T: OverDisk<E>>(
    alloc: Global,
    disk: MemoryDisk,
    call: u64,
    fill: Fill,
) -> Result<Settled<T>, Memory>
    requires { 2 ≤ call }
    ensures opened { IfOk result (Opens (Has E.reading) T.entries T.disk (Some (Fail call fill)) (images_of disk)) }
    ensures ready { IfOk result (λ after. IsReady T.has_failed T.disk 2 after.power) }
{
    let mut fresh = restarted(disk);
    fresh.arm_fail(call, fill, Counted::NoReads);
    let tried: Result<T, MemoryDisk> = T::open(alloc, fresh)?;
    match tried {
        Ok(end) => on_again(alloc, end),
        Err(back) => Ok(failed_off(back)),
    }
}

// By the prefix. None of a schedule names call 0.
fn open_again<E: Record, T: OverDisk<E>>(
    alloc: Global,
    disk: MemoryDisk,
    prefix: Option<Prefix>,
) -> Result<Settled<T>, Memory>
    ensures opened { IfOk result (Opens (Has E.reading) T.entries T.disk prefix (images_of disk)) }
    ensures ready { IfOk result (λ after. IsReady T.has_failed T.disk 2 after.power) }
{
    match prefix {
        None => open_whole(alloc, disk),
        Some(Prefix::CutAfter) => open_to_cut_after(alloc, disk),
        Some(Prefix::Cut { call, fill }) => match call {
            0 => Err(Memory),
            1 => cut_at_sync(alloc, disk, fill),
            _ => open_to_cut(alloc, disk, call, fill),
        },
        Some(Prefix::Fail { call, fill }) => match call {
            0 => Err(Memory),
            1 => fail_at_sync(alloc, disk, fill),
            _ => open_to_fail(alloc, disk, call, fill),
        },
    }
}

/// Opens an end again from its disk, with nothing left armed. Whatever entries its images held, it keeps as many of those tried as the doubt allows,
/// and is on or off by the prefix. The one error is want of memory.
pub fn reopen<E: Record, T: OverDisk<E>>(
    alloc: Global,
    power: Power<T>,
    prefix: Option<Prefix>,
) -> Result<Settled<T>, Memory>
    ensures opened { (settled tried : List E) (is_on : Bool) (doubt : Doubt) → Stands (Has E.reading) T.entries T.disk power settled tried is_on doubt → IfOk result (λ after. (kept : ℕ) × MayKeep doubt kept × MeetsFate (Has E.reading) T.entries T.disk after (opening prefix doubt kept settled tried)) }
    // an opening makes two calls of a disk whose calls count anew
    ensures ready { IfOk result (λ after. IsReady T.has_failed T.disk 2 after.power) }
{
    match power {
        Power::On(end) => open_again(alloc, disk_of(end, false), prefix),
        Power::Off(disk) => open_again(alloc, disk, prefix),
        Power::Lent => Err(Memory),
    }
}
