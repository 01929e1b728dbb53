// Lines at the terminals of the network.
ghost use Rattle.std.specs.Prelude.{◌≡◌, ◌≤◌, ◌<◌, ◌^◌, IfOk, OnOk};
ghost use Rattle.cap_schedule.specs.Ranges.{OrderInRange};
ghost use Rattle.cap_plays.specs.Session.{ActsSo, ReopensSo};
ghost use Rattle.cap_plays.specs.Ends.{terminal_line};
ghost use Rattle.cap_plays.specs.Openings.{opening_line};
ghost use Rattle.cap_network.specs.Nowhere.{nowhere as spec_nowhere};

use crate::network::Network;
use cap_base::Memory;
use cap_plays::{date_of, moment_of};
use cap_power::Power;
use cap_schedule::{End, Order, Outcome, Prefix};

// What a line says that opens a terminal which is not there: its power can go after no call at all.
fn nowhere(prefix: Option<Prefix>) -> Outcome
    ensures { result ≡ spec_nowhere prefix }
{
    match prefix {
        None => Outcome::IsOff,
        Some(Prefix::Cut { .. }) => Outcome::IsOff,
        Some(Prefix::Fail { .. }) => Outcome::IsOff,
        Some(Prefix::CutAfter) => Outcome::WasCut,
    }
}

impl Network {
    /// Does a line of a terminal. The one error is want of memory.
    pub(crate) fn act_at_terminal(
        &mut self,
        number: u64,
        prefix: Option<Prefix>,
        place: u64,
        order: &Order,
    ) -> Result<Outcome, Memory>
        requires number { number ≤ 251702300799 }
        requires few { self.old.lines < 2 ^ 48 }
        requires range { OrderInRange order.now }
        ensures { IfOk result (λ outcome. ActsSo (⟦<Network as cap_plays::Network>⟧.corresponds self.old) (⟦<Network as cap_plays::Network>⟧.corresponds self.new) (terminal_line number place prefix order.now) outcome) }
    {
        date_of(moment_of(number));
        self.lines += 1;
        let place = place as usize;
        if place >= self.sides.len() {
            return Ok(Outcome::IsOff);
        }
        let outcome = self.sides[place].act(self.alloc, number, prefix, order)?;
        Ok(outcome)
    }

    /// Opens a terminal again by a line. The one error is want of memory.
    pub(crate) fn open_terminal(
        &mut self,
        number: u64,
        prefix: Option<Prefix>,
        place: u64,
    ) -> Result<Outcome, Memory>
        requires number { number ≤ 251702300799 }
        requires few { self.old.lines < 2 ^ 48 }
        ensures { IfOk result (λ outcome. ActsSo (⟦<Network as cap_plays::Network>⟧.corresponds self.old) (⟦<Network as cap_plays::Network>⟧.corresponds self.new) (opening_line number place prefix) outcome) }
    {
        date_of(moment_of(number));
        self.lines += 1;
        let place = place as usize;
        if place >= self.sides.len() {
            return Ok(nowhere(prefix));
        }
        let outcome = self.sides[place].reopen(self.alloc, prefix)?;
        Ok(outcome)
    }

    /// Opens a terminal again where it is off, without a line. The one error is want of memory.
    pub(crate) fn wake_terminal(&mut self, place: u64) -> Result<(), Memory>
        ensures { OnOk result (ReopensSo (⟦<Network as cap_plays::Network>⟧.corresponds self.old) (⟦<Network as cap_plays::Network>⟧.corresponds self.new) (End.Terminal place)) }
    {
        let place = place as usize;
        if place >= self.sides.len() {
            return Ok(());
        }
        match &self.sides[place].power {
            Power::Off(_) => {
                self.sides[place].reopen(self.alloc, None)?;
                Ok(())
            }
            Power::On(_) => Ok(()),
            Power::Lent => Err(Memory),
        }
    }
}
