// How sales end, and periods.
ghost use Rattle.std.specs.Prelude.{◌≡◌, [], ◌∷◌, OnOk};
ghost use Rattle.cap_entries.specs.declared.terminal.TermEntry.TheVariants.{Completed, Declined, Voided};
ghost use Rattle.cap_terminal.specs.Live.{IsLive};
ghost use Rattle.cap_schedule.specs.declared.outcome.Outcome.TheVariants.{Sold, GivenUp, DeclinedSale};
ghost use Rattle.cap_terminal_lines.specs.Acts.{AddDone};

use crate::said::{Said, quiet};
use cap_entries::TermEntry;
use cap_journal::Journal;
use cap_plays::LineFault;
use cap_sale::{Approved, Begun};
use cap_schedule::Outcome;
use cap_terminal::{EntryFault, Terminal};

/// Completes an approved sale.
pub(crate) fn complete<J: Journal<TermEntry>>(
    terminal: &mut Terminal<J>,
    approved: Approved,
) -> Result<Said, LineFault>
    requires { IsLive (J.entries terminal.old) approved.n approved.amount approved.account }
    ensures done { AddDone J.Journal terminal.old terminal.new (Completed approved.n approved.code ∷ []) (Sold approved.n) result }
    ensures works { OnOk result (J.has_failed terminal.new ≡ J.has_failed terminal.old) }
{
    match terminal.complete(approved) {
        Ok(receipt) => Ok(quiet(Outcome::Sold(receipt.number()))),
        Err(EntryFault::Disk) => Err(LineFault::Disk),
        Err(EntryFault::Failed) => Err(LineFault::Disk),
    }
}

/// Gives up a sale that was approved.
pub(crate) fn give_up<J: Journal<TermEntry>>(
    terminal: &mut Terminal<J>,
    approved: Approved,
) -> Result<Said, LineFault>
    requires { IsLive (J.entries terminal.old) approved.n approved.amount approved.account }
    ensures done { AddDone J.Journal terminal.old terminal.new (Voided approved.n ∷ []) (GivenUp approved.n) result }
    ensures works { OnOk result (J.has_failed terminal.new ≡ J.has_failed terminal.old) }
{
    let n = approved.n();
    match terminal.void_approved(approved) {
        Ok(()) => Ok(quiet(Outcome::GivenUp(n))),
        Err(EntryFault::Disk) => Err(LineFault::Disk),
        Err(EntryFault::Failed) => Err(LineFault::Disk),
    }
}

/// Gives up a sale that was not approved.
pub(crate) fn void_begun<J: Journal<TermEntry>>(
    terminal: &mut Terminal<J>,
    begun: Begun,
) -> Result<Said, LineFault>
    requires { IsLive (J.entries terminal.old) begun.n begun.amount begun.account }
    ensures done { AddDone J.Journal terminal.old terminal.new (Voided begun.n ∷ []) (GivenUp begun.n) result }
    ensures works { OnOk result (J.has_failed terminal.new ≡ J.has_failed terminal.old) }
{
    let n = begun.n();
    match terminal.void_begun(begun) {
        Ok(()) => Ok(quiet(Outcome::GivenUp(n))),
        Err(EntryFault::Disk) => Err(LineFault::Disk),
        Err(EntryFault::Failed) => Err(LineFault::Disk),
    }
}

/// The host has declined a sale.
pub(crate) fn decline<J: Journal<TermEntry>>(
    terminal: &mut Terminal<J>,
    begun: Begun,
) -> Result<Said, LineFault>
    requires { IsLive (J.entries terminal.old) begun.n begun.amount begun.account }
    ensures done { AddDone J.Journal terminal.old terminal.new (Declined begun.n ∷ []) (DeclinedSale begun.n) result }
    ensures works { OnOk result (J.has_failed terminal.new ≡ J.has_failed terminal.old) }
{
    let n = begun.n();
    match terminal.decline(begun) {
        Ok(()) => Ok(quiet(Outcome::DeclinedSale(n))),
        Err(EntryFault::Disk) => Err(LineFault::Disk),
        Err(EntryFault::Failed) => Err(LineFault::Disk),
    }
}
