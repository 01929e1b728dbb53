// Sales that a terminal begins and ends by itself.
ghost use Rattle.std.specs.Prelude.{◌≡◌, OnOk};
ghost use Rattle.cap_terminal.specs.Live.{IsLive};
ghost use Rattle.cap_plays.specs.Turns.{offline_turn};
ghost use Rattle.cap_terminal_lines.specs.Acts.{TurnDone};
ghost use Rattle.cap_terminal_lines.specs.Made.{begin_turn, sale_turn, void_turn, cancel_turn, close_turn};

use crate::ends::{complete, void_begun};
use crate::said::{Said, quiet};
use cap_base::{Account, Amount};
use cap_entries::TermEntry;
use cap_journal::Journal;
use cap_plays::LineFault;
use cap_sale::{AboveFloor, Begun};
use cap_schedule::Outcome;
use cap_terminal::{BeginFault, CancelFault, CloseFault, Terminal};

/// Begins a sale.
pub(crate) fn begin<J: Journal<TermEntry>>(
    terminal: &mut Terminal<J>,
    amount: Amount,
    account: Account,
) -> Result<Said, LineFault>
    ensures done { TurnDone J.Journal 4 terminal.old terminal.new (λ s. begin_turn s amount account) result }
    ensures works { OnOk result (J.has_failed terminal.new ≡ J.has_failed terminal.old) }
{
    match terminal.begin(amount, account) {
        Ok(begun) => {
            let n = begun.n();
            begun.set_aside();
            Ok(quiet(Outcome::Begun(n)))
        }
        Err(BeginFault::SaleLimit(most)) => Ok(quiet(Outcome::Limit(most))),
        Err(BeginFault::Memory) => Err(LineFault::Memory),
        Err(BeginFault::Disk) => Err(LineFault::Disk),
        Err(BeginFault::Failed) => Err(LineFault::Disk),
    }
}

// Completes a begun sale offline, where it is within the floor.
fn complete_offline<J: Journal<TermEntry>>(
    terminal: &mut Terminal<J>,
    begun: Begun,
) -> Result<Said, LineFault>
    requires { IsLive (J.entries terminal.old) begun.n begun.amount begun.account }
    ensures done { TurnDone J.Journal 4 terminal.old terminal.new (λ s. offline_turn s begun.n) result }
    ensures works { OnOk result (J.has_failed terminal.new ≡ J.has_failed terminal.old) }
{
    match terminal.offline(begun) {
        Ok(approved) => complete(terminal, approved),
        Err(AboveFloor { begun, floor: _ }) => {
            let n = begun.n();
            begun.set_aside();
            Ok(quiet(Outcome::AboveFloor(n)))
        }
    }
}

/// Completes a pending sale offline, where it is within the floor.
pub(crate) fn offline<J: Journal<TermEntry>>(
    terminal: &mut Terminal<J>,
    n: u64,
) -> Result<Said, LineFault>
    ensures done { TurnDone J.Journal 4 terminal.old terminal.new (λ s. offline_turn s n) result }
    ensures works { OnOk result (J.has_failed terminal.new ≡ J.has_failed terminal.old) }
{
    match terminal.take_pending(n) {
        Some(begun) => complete_offline(terminal, begun),
        None => Ok(quiet(Outcome::NotPending(n))),
    }
}

/// Begins a sale, and completes it offline, where it is within the floor.
pub(crate) fn sale<J: Journal<TermEntry>>(
    terminal: &mut Terminal<J>,
    amount: Amount,
    account: Account,
) -> Result<Said, LineFault>
    ensures done { TurnDone J.Journal 8 terminal.old terminal.new (λ s. sale_turn s amount account) result }
    ensures works { OnOk result (J.has_failed terminal.new ≡ J.has_failed terminal.old) }
{
    match terminal.begin(amount, account) {
        Ok(begun) => complete_offline(terminal, begun),
        Err(BeginFault::SaleLimit(most)) => Ok(quiet(Outcome::Limit(most))),
        Err(BeginFault::Memory) => Err(LineFault::Memory),
        Err(BeginFault::Disk) => Err(LineFault::Disk),
        Err(BeginFault::Failed) => Err(LineFault::Disk),
    }
}

/// Gives up a pending sale.
pub(crate) fn void<J: Journal<TermEntry>>(
    terminal: &mut Terminal<J>,
    n: u64,
) -> Result<Said, LineFault>
    ensures done { TurnDone J.Journal 4 terminal.old terminal.new (λ s. void_turn s n) result }
    ensures works { OnOk result (J.has_failed terminal.new ≡ J.has_failed terminal.old) }
{
    match terminal.take_pending(n) {
        Some(begun) => void_begun(terminal, begun),
        None => Ok(quiet(Outcome::NotPending(n))),
    }
}

/// Cancels a completed sale.
pub(crate) fn cancel<J: Journal<TermEntry>>(
    terminal: &mut Terminal<J>,
    n: u64,
) -> Result<Said, LineFault>
    ensures done { TurnDone J.Journal 4 terminal.old terminal.new (λ s. cancel_turn s n) result }
    ensures works { OnOk result (J.has_failed terminal.new ≡ J.has_failed terminal.old) }
{
    // its journal is a legal one
    let _ = terminal.setup();
    match terminal.cancel(n) {
        Ok(()) => Ok(quiet(Outcome::CancelledSale(n))),
        Err(CancelFault::NoSale(n)) => Ok(quiet(Outcome::NoSale(n))),
        Err(CancelFault::NotCompleted(n)) => Ok(quiet(Outcome::NotCompleted(n))),
        Err(CancelFault::AlreadyCancelled(n)) => Ok(quiet(Outcome::AlreadyCancelled(n))),
        Err(CancelFault::Disk) => Err(LineFault::Disk),
        Err(CancelFault::Failed) => Err(LineFault::Disk),
    }
}

/// Closes the period that is open.
pub(crate) fn close<J: Journal<TermEntry>>(terminal: &mut Terminal<J>) -> Result<Said, LineFault>
    ensures done { TurnDone J.Journal 4 terminal.old terminal.new close_turn result }
    ensures works { OnOk result (J.has_failed terminal.new ≡ J.has_failed terminal.old) }
{
    // its journal is a legal one
    let _ = terminal.setup();
    match terminal.close_period() {
        Ok((p, _)) => Ok(quiet(Outcome::ClosedPeriod(p))),
        Err(CloseFault::PeriodLimit) => Ok(quiet(Outcome::PeriodLimit)),
        Err(CloseFault::Memory) => Err(LineFault::Memory),
        Err(CloseFault::Disk) => Err(LineFault::Disk),
        Err(CloseFault::Failed) => Err(LineFault::Disk),
    }
}
