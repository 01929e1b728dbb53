// Lines at the host of the network, and what arrives at a terminal by them.
ghost use Rattle.std.specs.Prelude.{◌≡◌, ◌≤◌, ◌<◌, ◌^◌, IfOk, OnOk};
ghost use Rattle.cap_plays.specs.Session.{ActsSo, ReopensSo};
ghost use Rattle.cap_plays.specs.Hosts.{host_line, host_opening_line};
ghost use Rattle.cap_terminal_side.specs.declared.side.Side.{Side as SpecSide};
ghost use Rattle.cap_network.specs.Arriving.{Gives, GoesTo};

use crate::network::Network;
use cap_base::Memory;
use cap_entries::TermEntry;
use cap_host_side::{Done, act, reopen};
use cap_plays::{date_of, moment_of};
use cap_power::{OverDisk, Power};
use cap_schedule::{End, HostOrder, Outcome, Prefix};
use cap_terminal_side::{DiskTerminal, Side};

// The texts of all that the terminal of a line sent, and the place that its next answer that counts has.
fn given<'a>(sides: &'a [Side], order: &HostOrder) -> (&'a [Vec<u8>], u64)
    ensures { Gives sides.now order.now result.0.now result.1 }
{
    match order {
        HostOrder::Up { terminal, .. } => match sides.get(*terminal as usize) {
            Some(side) => (side.sent.as_slice(), side.answers.len() as u64 + 1),
            None => (&[], 1),
        },
        HostOrder::Publish(_) => (&[], 1),
        HostOrder::Listen(_) => (&[], 1),
    }
}

// A reply arrives at the terminal of the line.
fn arrive(sides: &mut Vec<Side>, order: &HostOrder, reply: Option<Vec<u8>>) -> Result<(), Memory>
    ensures { OnOk result (GoesTo ⟦<DiskTerminal as OverDisk<TermEntry>>⟧.entries ⟦<DiskTerminal as OverDisk<TermEntry>>⟧.disk ⟦<DiskTerminal as OverDisk<TermEntry>>⟧.has_failed (λ (side : SpecSide). side.power) sides.old.items sides.new.items order.now reply) }
{
    match (order, reply) {
        (HostOrder::Up { terminal, .. }, Some(text)) => {
            let place = *terminal as usize;
            if place < sides.len() {
                sides[place].heard(text)?;
            }
            Ok(())
        }
        _ => Ok(()),
    }
}

impl Network {
    /// Does a line of the host. The one error is want of memory.
    pub(crate) fn act_at_host(
        &mut self,
        number: u64,
        prefix: Option<Prefix>,
        order: &HostOrder,
    ) -> Result<Outcome, Memory>
        requires number { number ≤ 251702300799 }
        requires few { self.old.lines < 2 ^ 48 }
        ensures { IfOk result (λ outcome. ActsSo (⟦<Network as cap_plays::Network>⟧.corresponds self.old) (⟦<Network as cap_plays::Network>⟧.corresponds self.new) (host_line number prefix order.now) outcome) }
    {
        date_of(moment_of(number));
        self.lines += 1;
        let (sent, place) = given(self.sides.as_slice(), order);
        let Done { outcome, reply } = act(
            self.alloc,
            &mut self.host,
            number,
            prefix,
            order,
            sent,
            place,
        )?;
        arrive(&mut self.sides, order, reply)?;
        Ok(outcome)
    }

    /// Opens the host again by a line. The one error is want of memory.
    pub(crate) fn open_host(
        &mut self,
        number: u64,
        prefix: Option<Prefix>,
    ) -> Result<Outcome, Memory>
        requires number { number ≤ 251702300799 }
        requires few { self.old.lines < 2 ^ 48 }
        ensures { IfOk result (λ outcome. ActsSo (⟦<Network as cap_plays::Network>⟧.corresponds self.old) (⟦<Network as cap_plays::Network>⟧.corresponds self.new) (host_opening_line number prefix) outcome) }
    {
        date_of(moment_of(number));
        self.lines += 1;
        let outcome = reopen(self.alloc, &mut self.host, prefix)?;
        Ok(outcome)
    }

    /// Opens the host again where it is off, without a line. The one error is want of memory.
    pub(crate) fn wake_host(&mut self) -> Result<(), Memory>
        ensures { OnOk result (ReopensSo (⟦<Network as cap_plays::Network>⟧.corresponds self.old) (⟦<Network as cap_plays::Network>⟧.corresponds self.new) End.Host) }
    {
        match &self.host {
            Power::Off(_) => {
                reopen(self.alloc, &mut self.host, None)?;
                Ok(())
            }
            Power::On(_) => Ok(()),
            Power::Lent => Err(Memory),
        }
    }
}
