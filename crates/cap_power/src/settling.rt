// What becomes of an end by the answer of a line.
ghost use Rattle.std.specs.Prelude.{◌≡◌, ◌++◌, ℕ, List, length, Bool, true, false, Option, Some, None, IfOk, OnOk, IsOk, IsErr, IsErrOf};
ghost use Rattle.cap_disk.specs.MemoryDisk.{told_of};
ghost use Rattle.cap_disk.specs.declared.memory.MemoryDisk.{MemoryDisk};
ghost use Rattle.cap_journal.specs.File.{Has};
ghost use Rattle.cap_plays.specs.Plays.{Doubt, no_doubt};
ghost use Rattle.cap_plays.specs.Corresponds.{EndCorresponds};
ghost use Rattle.cap_power.specs.Words.{HasCounted};
ghost use Rattle.cap_power.specs.Counting.{cuts as spec_cuts, cuts_after as spec_cuts_after, arms, outcome_of_fault};
ghost use Rattle.cap_power.specs.Images.{images_of, NoOthers, IsLeftBy};
ghost use Rattle.cap_power.specs.Standing.{Stands, IsReady, fails};

use crate::OverDisk;
use crate::arming::disarmed;
use crate::power::{Power, Settled};
use crate::prefix::{cuts, cuts_after, outcome_of};
use cap_base::Memory;
use cap_disk::MemoryDisk;
use cap_journal::Record;
use cap_plays::LineFault;
use cap_schedule::{Outcome, Prefix};
use std::alloc::Global;

/// The disk of an end; after a power cut what is left of it.
pub fn disk_of<E: Record, T: OverDisk<E>>(end: T, cut: bool) -> MemoryDisk
    ensures { IsLeftBy cut (T.disk end) result }
{
    let disk = end.into_disk();
    if cut { disk.restart() } else { disk }
}

// The end with nothing armed on its disk, behind a line with this prefix.
fn unarmed<E: Record, T: OverDisk<E>>(
    alloc: Global,
    end: T,
    prefix: Option<Prefix>,
) -> Result<T, Memory>
    requires { T.has_failed end ≡ false }
    ensures entries { IfOk result (λ now. T.entries now ≡ T.entries end) }
    ensures works { IfOk result (λ now. T.has_failed now ≡ false) }
    ensures images { IfOk result (λ now. NoOthers (T.disk end) (T.disk now)) }
    ensures counts { (calls : ℕ) (stop : Option ℕ) → HasCounted calls stop (T.disk end) → (arms prefix ≡ false → stop ≡ None) → IfOk result (λ now. HasCounted calls None (T.disk now)) }
{
    match prefix {
        Some(Prefix::Cut { .. }) => disarmed(alloc, end),
        Some(Prefix::Fail { .. }) => disarmed(alloc, end),
        Some(Prefix::CutAfter) => Ok(end),
        None => Ok(end),
    }
}

// An end whose line was done.
fn settle_done<E: Record, T: OverDisk<E>>(
    alloc: Global,
    end: T,
    prefix: Option<Prefix>,
    outcome: Outcome,
) -> Result<Settled<T>, Memory>
    requires { T.has_failed end ≡ false }
    ensures stays { spec_cuts_after prefix ≡ false → (settled tried : List E) (is_on : Bool) (doubt : Doubt) → EndCorresponds (Has E.reading) (images_of (T.disk end)) true (T.entries end) settled tried is_on doubt → IfOk result (λ after. Stands (Has E.reading) T.entries T.disk after.power settled tried is_on doubt) }
    ensures outcome { spec_cuts_after prefix ≡ false → IfOk result (λ after. after.outcome ≡ outcome) }
    ensures cut { spec_cuts_after prefix ≡ true → (settled added : List E) → T.entries end ≡ settled ++ added → IfOk result (λ after. Stands (Has E.reading) T.entries T.disk after.power settled added false (no_doubt (length added))) }
    ensures was_cut { spec_cuts_after prefix ≡ true → IfOk result (λ after. after.outcome ≡ Outcome.WasCut) }
    ensures ready { (calls : ℕ) (stop : Option ℕ) → HasCounted calls stop (T.disk end) → (arms prefix ≡ false → stop ≡ None) → IfOk result (λ after. IsReady T.has_failed T.disk calls after.power) }
    ensures works { IfOk result (λ after. fails T.has_failed after.power ≡ false) }
{
    if cuts_after(prefix) {
        return Ok(Settled {
            power: Power::Off(disk_of(end, true)),
            outcome: Outcome::WasCut,
        });
    }
    let end = unarmed(alloc, end, prefix)?;
    Ok(Settled {
        power: Power::On(end),
        outcome,
    })
}

// An end whose line a device call ended.
fn settle_broken<E: Record, T: OverDisk<E>>(end: T, prefix: Option<Prefix>) -> Settled<T>
    ensures stays { (entries settled tried : List E) (is_on : Bool) (doubt : Doubt) → EndCorresponds (Has E.reading) (images_of (T.disk end)) false entries settled tried is_on doubt → Stands (Has E.reading) T.entries T.disk result.power settled tried is_on doubt }
    ensures left { (disk : MemoryDisk) × (result.power ≡ Power.Off disk) × IsLeftBy (spec_cuts prefix) (T.disk end) disk }
    ensures works { fails T.has_failed result.power ≡ false }
    ensures outcome { result.outcome ≡ outcome_of_fault (spec_cuts prefix) }
{
    let cut = cuts(prefix);
    Settled {
        power: Power::Off(disk_of(end, cut)),
        outcome: outcome_of(cut),
    }
}

/// What becomes of an end by the answer of its line and the prefix. Where the line was done, the end stays on with nothing armed, but a power cut
/// after all calls leaves its disk with all entries. Where a device call ended the line, the end is off: with what the cut left, or with the disk
/// itself where the call failed without a cut. The one error is want of memory, of the line's own or of this call's, and none after a fault.
pub fn settle<E: Record, T: OverDisk<E>>(
    alloc: Global,
    end: T,
    prefix: Option<Prefix>,
    said: Result<Outcome, LineFault>,
) -> Result<Settled<T>, Memory>
    requires { OnOk said (T.has_failed end ≡ false) }
    ensures stays { spec_cuts_after prefix ≡ false → (settled tried : List E) (is_on : Bool) (doubt : Doubt) → EndCorresponds (Has E.reading) (images_of (T.disk end)) true (T.entries end) settled tried is_on doubt → OnOk said (IfOk result (λ after. Stands (Has E.reading) T.entries T.disk after.power settled tried is_on doubt)) }
    ensures outcome { spec_cuts_after prefix ≡ false → IfOk said (λ outcome. IfOk result (λ after. after.outcome ≡ outcome)) }
    ensures cut { spec_cuts_after prefix ≡ true → (settled added : List E) → T.entries end ≡ settled ++ added → OnOk said (IfOk result (λ after. Stands (Has E.reading) T.entries T.disk after.power settled added false (no_doubt (length added)))) }
    ensures was_cut { spec_cuts_after prefix ≡ true → OnOk said (IfOk result (λ after. after.outcome ≡ Outcome.WasCut)) }
    ensures ready { (calls : ℕ) (stop : Option ℕ) → HasCounted calls stop (T.disk end) → (arms prefix ≡ false → stop ≡ None) → IfOk result (λ after. IsReady T.has_failed T.disk calls after.power) }
    ensures works { IfOk result (λ after. fails T.has_failed after.power ≡ false) }
    ensures broken { (entries settled tried : List E) (is_on : Bool) (doubt : Doubt) → EndCorresponds (Has E.reading) (images_of (T.disk end)) false entries settled tried is_on doubt → IsErrOf said LineFault.Disk → IfOk result (λ after. Stands (Has E.reading) T.entries T.disk after.power settled tried is_on doubt) }
    ensures left { IsErrOf said LineFault.Disk → IfOk result (λ after. (disk : MemoryDisk) × (after.power ≡ Power.Off disk) × IsLeftBy (spec_cuts prefix) (T.disk end) disk) }
    ensures fault { IsErrOf said LineFault.Disk → IfOk result (λ after. after.outcome ≡ outcome_of_fault (spec_cuts prefix)) }
    ensures no_memory { IsErrOf said LineFault.Disk → IsOk result }
    ensures memory { IsErrOf said LineFault.Memory → IsErr result }
{
    match said {
        Ok(outcome) => settle_done(alloc, end, prefix, outcome),
        Err(LineFault::Disk) => Ok(settle_broken(end, prefix)),
        Err(LineFault::Memory) => Err(Memory),
    }
}
