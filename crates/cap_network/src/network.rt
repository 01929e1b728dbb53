ghost use Rattle.std.specs.Prelude.{◌≡◌, ◌≤◌, ◌<◌, ◌^◌, false, IfOk, OnOk};
ghost use Rattle.cap_schedule.specs.Ranges.{ActionInRange};
ghost use Rattle.cap_plays.specs.Session.{ActsSo, ReopensSo};
ghost use Rattle.cap_terminal_side.specs.declared.side.Side.{Side as SpecSide};
ghost use Rattle.cap_power.specs.Standing.{fails};
ghost use Rattle.cap_network.specs.Ends.{EndsStand};
ghost use Rattle.cap_network.specs.Nowhere.{reopening_line};

use cap_base::Memory;
use cap_entries::{HostEntry, TermEntry};
use cap_host_side::DiskHost;
use cap_plays::LAST_LINE;
use cap_power::{OverDisk, Power};
use cap_schedule::{Action, End, Line, Outcome, Prefix, Schedule};
use cap_terminal_side::{DiskTerminal, Side};
use std::alloc::{AllocError, Global};

/// After so many lines the network answers want of memory: no schedule in memory has as many.
pub(crate) const MOST_LINES: u64 = 281474976710656;

/// A host and its terminals, each over a journal on a disk in memory, and the texts of all that was sent between them.
#[derive(Drop)]
pub struct Network {
    pub(crate) alloc: Global,
    pub(crate) host: Power<DiskHost>,
    pub(crate) sides: Vec<Side>,
    /// How many lines were done: from it follows how many calls a disk has answered at most.
    pub(crate) lines: u64,
    /// Where the host is on, no call of its disk has failed.
    ghost works: { fails ⟦<DiskHost as OverDisk<HostEntry>>⟧.has_failed host ≡ false },
}

impl cap_plays::Network for Network {
    ghost corresponds = { λ network w doubts. EndsStand ⟦<DiskTerminal as OverDisk<TermEntry>>⟧.entries ⟦<DiskTerminal as OverDisk<TermEntry>>⟧.disk ⟦<DiskTerminal as OverDisk<TermEntry>>⟧.has_failed ⟦<DiskHost as OverDisk<HostEntry>>⟧.entries ⟦<DiskHost as OverDisk<HostEntry>>⟧.disk ⟦<DiskHost as OverDisk<HostEntry>>⟧.has_failed (λ (side : SpecSide). side.power) network.lines network.host network.sides.items w doubts };

    fn terminals(&self) -> u64 {
        self.sides.len() as u64
    }

    fn act(&mut self, line: &Line) -> Result<Outcome, AllocError> {
        if self.lines >= MOST_LINES || line.number > LAST_LINE {
            return Err(AllocError);
        }
        match self.act_of(line) {
            Ok(outcome) => Ok(outcome),
            Err(Memory) => Err(AllocError),
        }
    }

    fn reopen(&mut self, end: End) -> Result<(), AllocError> {
        match self.close(end) {
            Ok(()) => Ok(()),
            Err(Memory) => Err(AllocError),
        }
    }

    fn put_report(&mut self, text: &mut Vec<u8>, schedule: &Schedule) -> Result<(), AllocError> {
        self.put_ends(text, schedule)
    }
}

impl Network {
    // Does a line.
    fn act_of(&mut self, line: &Line) -> Result<Outcome, Memory>
        requires number { line.now.number ≤ 251702300799 }
        requires few { self.old.lines < 2 ^ 48 }
        requires range { ActionInRange line.now.action }
        ensures { IfOk result (λ outcome. ActsSo (⟦<Network as cap_plays::Network>⟧.corresponds self.old) (⟦<Network as cap_plays::Network>⟧.corresponds self.new) line.now outcome) }
    {
        let number = line.number;
        let prefix = line.prefix;
        match &line.action {
            Action::AtTerminal { place, order } => {
                self.act_at_terminal(number, prefix, *place, order)
            }
            Action::AtHost(order) => self.act_at_host(number, prefix, order),
            Action::Reopen(end) => self.open(number, prefix, *end),
        }
    }

    // Opens an end again by a line.
    fn open(&mut self, number: u64, prefix: Option<Prefix>, end: End) -> Result<Outcome, Memory>
        requires number { number ≤ 251702300799 }
        requires few { self.old.lines < 2 ^ 48 }
        ensures { IfOk result (λ outcome. ActsSo (⟦<Network as cap_plays::Network>⟧.corresponds self.old) (⟦<Network as cap_plays::Network>⟧.corresponds self.new) (reopening_line number prefix end) outcome) }
    {
        match end {
            End::Host => self.open_host(number, prefix),
            End::Terminal(place) => self.open_terminal(number, prefix, place),
        }
    }

    // Opens an end again where it is off.
    fn close(&mut self, end: End) -> Result<(), Memory>
        ensures { OnOk result (ReopensSo (⟦<Network as cap_plays::Network>⟧.corresponds self.old) (⟦<Network as cap_plays::Network>⟧.corresponds self.new) end) }
    {
        match end {
            End::Host => self.wake_host(),
            End::Terminal(place) => self.wake_terminal(place),
        }
    }
}
