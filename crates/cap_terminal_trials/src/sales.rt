ghost use Rattle.cap_terminal.specs.Live.{IsLive};

use cap_base::{Account, Amount, Response};
use cap_entries::TermEntry;
use cap_journal::Journal;
use cap_sale::{AboveFloor, Approved, AuthResponse, Begun};
use cap_terminal::{BeginFault, Terminal};

/// What came of a sale.
#[derive(Clone, Copy, Debug, PartialEq, Eq)]
pub enum Outcome {
    /// It was completed.
    Sale(u64),
    /// Its amount is above the floor, and it stays pending.
    AboveFloor(u64),
    /// As many sales were begun as the set-up allows, which is this many.
    Limit(u64),
    /// It was given up.
    Void(u64),
    /// It was declined.
    Declined(u64),
    /// No sale with this number is pending.
    NotPending(u64),
    /// Memory ran out, or the disk failed.
    Fault,
}

// Completes an approved sale.
fn complete<J: Journal<TermEntry>>(terminal: &mut Terminal<J>, approved: Approved) -> Outcome
    requires live { IsLive (J.entries terminal.old) approved.n approved.amount approved.account }
{
    match terminal.complete(approved) {
        Ok(receipt) => Outcome::Sale(receipt.number()),
        Err(_) => Outcome::Fault,
    }
}

// Completes a sale that was begun, where its amount is at most the floor.
fn finish<J: Journal<TermEntry>>(terminal: &mut Terminal<J>, begun: Begun) -> Outcome
    requires live { IsLive (J.entries terminal.old) begun.n begun.amount begun.account }
{
    let n = begun.n();
    match terminal.offline(begun) {
        Ok(approved) => complete(terminal, approved),
        Err(above) => {
            let AboveFloor { begun, floor: _ } = above;
            begun.set_aside();
            Outcome::AboveFloor(n)
        }
    }
}

/// Begins a sale, and completes it where its amount is at most the floor.
pub fn sale<J: Journal<TermEntry>>(
    terminal: &mut Terminal<J>,
    amount: Amount,
    account: Account,
) -> Outcome {
    match terminal.begin(amount, account) {
        Ok(begun) => finish(terminal, begun),
        Err(BeginFault::SaleLimit(max)) => Outcome::Limit(max),
        Err(_) => Outcome::Fault,
    }
}

/// Completes a pending sale, where its amount is at most the floor.
pub fn offline<J: Journal<TermEntry>>(terminal: &mut Terminal<J>, n: u64) -> Outcome {
    match terminal.take_pending(n) {
        Some(begun) => finish(terminal, begun),
        None => Outcome::NotPending(n),
    }
}

/// Gives up a pending sale.
pub fn void<J: Journal<TermEntry>>(terminal: &mut Terminal<J>, n: u64) -> Outcome {
    match terminal.take_pending(n) {
        Some(begun) => match terminal.void_begun(begun) {
            Ok(()) => Outcome::Void(n),
            Err(_) => Outcome::Fault,
        },
        None => Outcome::NotPending(n),
    }
}

// An approved sale is completed, or given up where the customer has walked out.
fn end<J: Journal<TermEntry>>(
    terminal: &mut Terminal<J>,
    approved: Approved,
    walks_out: bool,
) -> Outcome
    requires live { IsLive (J.entries terminal.old) approved.n approved.amount approved.account }
{
    if !walks_out {
        return complete(terminal, approved);
    }
    let n = approved.n();
    match terminal.void_approved(approved) {
        Ok(()) => Outcome::Void(n),
        Err(_) => Outcome::Fault,
    }
}

/// Follows the host's decision on a pending sale: one that is approved is completed, or given up where the customer has walked out, and any other
/// is declined.
pub fn decide<J: Journal<TermEntry>>(
    terminal: &mut Terminal<J>,
    answer: &AuthResponse,
    walks_out: bool,
) -> Outcome {
    let n = answer.n;
    match terminal.take_pending(n) {
        Some(begun) => match answer.response {
            Response::Appr => match terminal.authorise(begun, answer) {
                Ok(approved) => end(terminal, approved, walks_out),
                Err(_) => unreachable!(),
            },
            _ => match terminal.decline(begun) {
                Ok(()) => Outcome::Declined(n),
                Err(_) => Outcome::Fault,
            },
        },
        None => Outcome::NotPending(n),
    }
}
