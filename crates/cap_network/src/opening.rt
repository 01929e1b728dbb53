// The ends as a schedule sets them up, and their disks.
ghost use Rattle.std.specs.Prelude.{◌≡◌, ◌++◌, IfOk, OnOk};
ghost use Rattle.cap_terminal_side.specs.declared.side.Side.{Side as SpecSide};
ghost use Rattle.cap_network.specs.Opened.{AreStarted, AreDisksOf};

use crate::network::Network;
use cap_base::Memory;
use cap_disk::MemoryDisk;
use cap_entries::{TermEntry, TermSetup};
use cap_host_side::{disk_in, set_up as host_set_up};
use cap_power::OverDisk;
use cap_replay::Ends;
use cap_schedule::Schedule;
use cap_terminal_side::{DiskTerminal, Side};
use std::alloc::Global;

// The terminals, in order.
fn sides_of(alloc: Global, setups: &[TermSetup]) -> Result<Vec<Side>, Memory>
    ensures { IfOk result (λ sides. AreStarted ⟦<DiskTerminal as OverDisk<TermEntry>>⟧.entries ⟦<DiskTerminal as OverDisk<TermEntry>>⟧.disk ⟦<DiskTerminal as OverDisk<TermEntry>>⟧.has_failed (λ (side : SpecSide). side.power) sides.items setups.now) }
{
    let mut sides = Vec::new(alloc);
    for setup in setups {
        sides.push(Side::set_up(alloc, setup)?)?;
    }
    Ok(sides)
}

// Their disks, in order.
fn disks_of(alloc: Global, sides: Vec<Side>) -> Result<Vec<MemoryDisk>, Memory>
    ensures { IfOk result (λ disks. AreDisksOf ⟦<DiskTerminal as OverDisk<TermEntry>>⟧.entries ⟦<DiskTerminal as OverDisk<TermEntry>>⟧.disk ⟦<DiskTerminal as OverDisk<TermEntry>>⟧.has_failed (λ (side : SpecSide). side.power) sides.items disks.items) }
{
    let mut disks = Vec::new(alloc);
    for side in sides {
        disks.push(side.disk()?)?;
    }
    Ok(disks)
}

impl Ends for Network {
    fn set_up(alloc: Global, schedule: &Schedule) -> Result<Network, Memory> {
        let host = host_set_up(alloc, &schedule.host)?;
        let sides = sides_of(alloc, schedule.terminals.as_slice())?;
        Ok(Network {
            alloc,
            host,
            sides,
            lines: 0,
        })
    }

    fn into_disks(self, alloc: Global) -> Result<Vec<MemoryDisk>, Memory> {
        let Network { host, sides, .. } = self;
        let host = disk_in(host)?;
        let mut disks = disks_of(alloc, sides)?;
        disks.insert(0, host)?;
        Ok(disks)
    }
}
