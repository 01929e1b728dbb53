ghost use Rattle.std.specs.Prelude.{◌≡◌, ◌==◌, ℕ, true, false, [], ◌∷◌, length, IsOk, IfOk};
ghost use Rattle.std.specs.List.{list_all};
ghost use Rattle.cap_base.specs.Text.{is_ident};
ghost use Rattle.cap_leaf.specs.Date.{is_date_time};
ghost use Rattle.cap_entries.specs.declared.host.HostEntry.TheVariants.{Setup};
ghost use Rattle.cap_entries.specs.RecordField.{is_amount as is_some_amount};
ghost use Rattle.cap_entries.specs.HostRecord.{is_host_field, host_reading};
ghost use Rattle.cap_journal.specs.File.{Has};
ghost use Rattle.cap_world.specs.World.{HostState};
ghost use Rattle.cap_plays.specs.Plays.{Doubt, no_doubt};
ghost use Rattle.cap_plays.specs.Corresponds.{EachHas};
ghost use Rattle.cap_power.specs.Images.{images_of};
ghost use Rattle.cap_power.specs.Standing.{fails};
ghost use Rattle.cap_host_side.specs.Sides.{HostStands};

use crate::side::DiskHost;
use cap_base::{Amount, Ident, Memory};
use cap_disk::MemoryDisk;
use cap_entries::{HostEntry, HostSetup};
use cap_host::Host;
use cap_leaf::{DateTime, Leaf, leaf_write};
use cap_power::{OverDisk, Power, disk_of, journal_of};
use std::alloc::Global;

// A value of a type keeps the rule of its type.

fn is_spelt(name: &Ident)
    ensures { is_ident name.now ≡ true }
{
    let _ = name.as_bytes();
}

fn names_are_spelt(names: &[Ident])
    ensures { list_all is_ident names.now ≡ true }
{
    for name in names {
        is_spelt(name);
    }
}

// It is written as a text that reads as it, and what is read keeps the rule.
fn is_dated(date: &DateTime)
    ensures { is_date_time date.now ≡ true }
{
    let mut text = [0; 40];
    let _ = leaf_write(&Leaf::DateTime(*date), &mut text);
}

fn is_of_six(prefix: &[u8; 6])
    ensures { (length prefix.now == 6) ≡ true }
{
    let _ = prefix.len();
}

fn are_of_six(prefixes: &[[u8; 6]])
    ensures { list_all (λ prefix. length prefix == 6) prefixes.now ≡ true }
{
    for prefix in prefixes {
        is_of_six(prefix);
    }
}

fn is_amount(amount: Amount)
    ensures { is_some_amount amount ≡ true }
{
    let _ = amount.hundredths();
}

// So a set-up fits its record.
#[tactic(auto, using(crate::proofs::Begun::fields_hold))]
fn fields_fit(setup: &HostSetup)
    ensures { is_host_field setup.now ≡ true }
{
    is_spelt(&setup.host());
    is_amount(setup.limit());
    are_of_six(setup.blocked().as_slice());
    is_dated(&setup.start());
    names_are_spelt(setup.terminals().as_slice());
}

/// A host of its set-up alone: it is on. The one error is want of memory.
pub fn set_up(alloc: Global, setup: &HostSetup) -> Result<Power<DiskHost>, Memory>
    ensures works { IfOk result (λ power. fails ⟦<DiskHost as OverDisk<HostEntry>>⟧.has_failed power ≡ false) }
    ensures stands { IfOk result (λ power. HostStands ⟦<DiskHost as OverDisk<HostEntry>>⟧.entries ⟦<DiskHost as OverDisk<HostEntry>>⟧.disk ⟦<DiskHost as OverDisk<HostEntry>>⟧.has_failed 7 power (record { settled = Setup setup.now ∷ []; tried = []; on = true }) (no_doubt 0)) }
{
    fields_fit(setup);
    let copy = setup.clone()?;
    let journal = journal_of(alloc, HostEntry::Setup(copy))?;
    match Host::open(alloc, journal) {
        Ok(host) => Ok(Power::On(host)),
        Err(_) => Err(Memory),
    }
}

/// Gives the disk of a host; one in other hands has none.
pub fn disk_in(power: Power<DiskHost>) -> Result<MemoryDisk, Memory>
    ensures has { (most : ℕ) (s : HostState) (doubt : Doubt) → HostStands ⟦<DiskHost as OverDisk<HostEntry>>⟧.entries ⟦<DiskHost as OverDisk<HostEntry>>⟧.disk ⟦<DiskHost as OverDisk<HostEntry>>⟧.has_failed most power s doubt → s.on ≡ true → IfOk result (λ disk. EachHas (Has host_reading) (images_of disk) s.settled) }
    ensures given { (most : ℕ) (s : HostState) (doubt : Doubt) → HostStands ⟦<DiskHost as OverDisk<HostEntry>>⟧.entries ⟦<DiskHost as OverDisk<HostEntry>>⟧.disk ⟦<DiskHost as OverDisk<HostEntry>>⟧.has_failed most power s doubt → IsOk result }
{
    match power {
        Power::On(host) => Ok(disk_of(host, false)),
        Power::Off(disk) => Ok(disk),
        Power::Lent => Err(Memory),
    }
}
