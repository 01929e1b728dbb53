// The report on the ends.
ghost use Rattle.std.specs.Prelude.{◌≡◌, ◌++◌, ◌<◌, ◌+◌, ◌^◌, ℕ, true, false, OnOk};
ghost use Rattle.cap_entries.specs.Log.{log};
ghost use Rattle.cap_world.specs.World.{HostState};
ghost use Rattle.cap_plays.specs.Plays.{Doubt};
ghost use Rattle.cap_plays.specs.Report.{end_text};
ghost use Rattle.cap_plays.specs.Session.{ReportsSo};
ghost use Rattle.cap_plays.specs.Laws.{InRange};
ghost use Rattle.cap_power.specs.Standing.{fails};
ghost use Rattle.cap_host_side.specs.Sides.{HostStands};
ghost use Rattle.cap_terminal_side.specs.declared.side.Side.{Side as SpecSide};
ghost use Rattle.cap_network.specs.Reports.{entries_in, sides_text};

use crate::network::{MOST_LINES, Network};
use cap_base::{Ident, Memory};
use cap_entries::{HostEntry, TermEntry};
use cap_host_side::{DiskHost, put_log};
use cap_plays::put_verdict;
use cap_power::{OverDisk, Power};
use cap_replay::put_terminal_line;
use cap_schedule::Schedule;
use cap_terminal_side::{DiskTerminal, Side};
use std::alloc::{AllocError, Global};

// The report on one terminal.
fn put_end(
    alloc: Global,
    text: &mut Vec<u8>,
    id: &Ident,
    side: &Side,
    host: &mut Power<DiskHost>,
    place: u8,
) -> Result<(), AllocError>
    requires works { fails ⟦<DiskHost as OverDisk<HostEntry>>⟧.has_failed host.old ≡ false }
    ensures works { fails ⟦<DiskHost as OverDisk<HostEntry>>⟧.has_failed host.new ≡ false }
    ensures text { (most : ℕ) (s : HostState) (doubt : Doubt) → most + 4 < 2 ^ 64 → HostStands ⟦<DiskHost as OverDisk<HostEntry>>⟧.entries ⟦<DiskHost as OverDisk<HostEntry>>⟧.disk ⟦<DiskHost as OverDisk<HostEntry>>⟧.has_failed most host.old s doubt → s.on ≡ true → OnOk result (HostStands ⟦<DiskHost as OverDisk<HostEntry>>⟧.entries ⟦<DiskHost as OverDisk<HostEntry>>⟧.disk ⟦<DiskHost as OverDisk<HostEntry>>⟧.has_failed most host.new s doubt × (text.new.items ≡ text.old.items ++ end_text id.now (entries_in ⟦<DiskTerminal as OverDisk<TermEntry>>⟧.entries (λ (side : SpecSide). side.power) side.now.power) (log s.settled place))) }
{
    match &side.power {
        Power::On(terminal) => {
            put_terminal_line(alloc, text, id, terminal)?;
            match put_log(alloc, text, id, host, place) {
                Ok(taken) => put_verdict(alloc, text, id, terminal.items_len(), taken),
                Err(Memory) => Err(AllocError),
            }
        }
        Power::Off(_) => Err(AllocError),
        Power::Lent => Err(AllocError),
    }
}

// The report on each terminal, in order.
fn put_all(
    alloc: Global,
    text: &mut Vec<u8>,
    ids: &[Ident],
    sides: &[Side],
    host: &mut Power<DiskHost>,
) -> Result<(), AllocError>
    requires works { fails ⟦<DiskHost as OverDisk<HostEntry>>⟧.has_failed host.old ≡ false }
    ensures works { fails ⟦<DiskHost as OverDisk<HostEntry>>⟧.has_failed host.new ≡ false }
    ensures text { (most : ℕ) (s : HostState) (doubt : Doubt) → most + 4 < 2 ^ 64 → HostStands ⟦<DiskHost as OverDisk<HostEntry>>⟧.entries ⟦<DiskHost as OverDisk<HostEntry>>⟧.disk ⟦<DiskHost as OverDisk<HostEntry>>⟧.has_failed most host.old s doubt → s.on ≡ true → OnOk result (HostStands ⟦<DiskHost as OverDisk<HostEntry>>⟧.entries ⟦<DiskHost as OverDisk<HostEntry>>⟧.disk ⟦<DiskHost as OverDisk<HostEntry>>⟧.has_failed most host.new s doubt × (text.new.items ≡ text.old.items ++ sides_text ⟦<DiskTerminal as OverDisk<TermEntry>>⟧.entries (λ (side : SpecSide). side.power) s.settled 0 ids.now sides.now)) }
{
    for place in 0..sides.len() {
        if place >= ids.len() {
            return Ok(());
        }
        if place > 255 {
            return Err(AllocError);
        }
        put_end(alloc, text, &ids[place], &sides[place], host, place as u8)?;
    }
    Ok(())
}

impl Network {
    /// Appends the report on each terminal, where every end is on. The one error is want of memory.
    pub(crate) fn put_ends(
        &mut self,
        text: &mut Vec<u8>,
        schedule: &Schedule,
    ) -> Result<(), AllocError>
        requires { InRange schedule.now }
        ensures { OnOk result (ReportsSo (⟦<Network as cap_plays::Network>⟧.corresponds self.old) (⟦<Network as cap_plays::Network>⟧.corresponds self.new) schedule.now text.old.items text.new.items) }
    {
        if self.lines > MOST_LINES {
            return Err(AllocError);
        }
        let ids = schedule.host.terminals().as_slice();
        put_all(self.alloc, text, ids, self.sides.as_slice(), &mut self.host)
    }
}
