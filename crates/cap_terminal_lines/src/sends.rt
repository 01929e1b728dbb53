// Messages that a terminal sends.
ghost use Rattle.std.specs.Prelude.{◌≡◌, ◌≤◌, ◌<◌, ◌+◌, ◌^◌, true};
ghost use Rattle.cap_terminal_answers.specs.Takes.{queue_head};
ghost use Rattle.cap_terminal_answers.specs.Sends.{may_be_wanted};
ghost use Rattle.cap_plays.specs.Turns.{sends_head};
ghost use Rattle.cap_terminal_lines.specs.Acts.{SendDone};
ghost use Rattle.cap_terminal_lines.specs.Made.{batch_turn, ask_turn, ask_cancel_turn, diagnose_turn, status_turn};
ghost use Rattle.cap_terminal_lines.specs.Sent.{SendsText};

use crate::digits::message_fits;
use crate::said::{Said, quiet};
use cap_base::DataSet;
use cap_entries::TermEntry;
use cap_journal::Journal;
use cap_msgs::{Message, encode, texts_read_again};
use cap_plays::{LineFault, date_of};
use cap_schedule::Outcome;
use cap_terminal::{AskFault, Terminal};
use std::alloc::Global;

// Sends a message, after so many others.
fn send(alloc: Global, message: &Message, sent: u64) -> Result<Said, LineFault>
    requires { sent + 1 < 2 ^ 64 }
    ensures { SendsText message.now sent result }
{
    texts_read_again();
    if !message_fits(message) {
        return Err(LineFault::Memory);
    }
    match encode(alloc, message) {
        Ok(text) => Ok(Said {
            outcome: Outcome::Sent(sent + 1),
            sent: Some(text),
        }),
        Err(_) => Err(LineFault::Memory),
    }
}

/// Sends the oldest item that is not acknowledged.
pub(crate) fn push<J: Journal<TermEntry>>(
    alloc: Global,
    terminal: &Terminal<J>,
    moment: u64,
    sent: u64,
) -> Result<Said, LineFault>
    requires moment { moment ≤ 253402300799 }
    requires sent { sent + 1 < 2 ^ 64 }
    ensures { SendDone J.Journal terminal.now moment sent (λ s created. sends_head s moment created (queue_head s.settled)) result }
{
    date_of(moment);
    match terminal.head(moment, 0) {
        Some(message) => send(alloc, &message, sent),
        None => Ok(quiet(Outcome::NothingQueued)),
    }
}

/// Sends the first items that are not acknowledged, as many as the limit.
pub(crate) fn batch<J: Journal<TermEntry>>(
    alloc: Global,
    terminal: &Terminal<J>,
    limit: u64,
    moment: u64,
    sent: u64,
) -> Result<Said, LineFault>
    requires low { 1 ≤ limit }
    requires high { limit ≤ 100 }
    requires moment { moment ≤ 253402300799 }
    requires sent { sent + 1 < 2 ^ 64 }
    ensures { SendDone J.Journal terminal.now moment sent (λ s created. batch_turn s limit moment created) result }
{
    date_of(moment);
    match terminal.batch(limit as usize, moment, 0) {
        Ok(Some(message)) => send(alloc, &message, sent),
        Ok(None) => Ok(quiet(Outcome::NothingQueued)),
        Err(_) => Err(LineFault::Memory),
    }
}

/// Asks whether a pending sale is approved.
pub(crate) fn ask<J: Journal<TermEntry>>(
    alloc: Global,
    terminal: &Terminal<J>,
    n: u64,
    moment: u64,
    sent: u64,
) -> Result<Said, LineFault>
    requires moment { moment ≤ 253402300799 }
    requires sent { sent + 1 < 2 ^ 64 }
    ensures { SendDone J.Journal terminal.now moment sent (λ s created. ask_turn s n moment created) result }
{
    date_of(moment);
    match terminal.take_pending(n) {
        Some(begun) => {
            let message = terminal.ask(&begun, moment);
            begun.set_aside();
            send(alloc, &message, sent)
        }
        None => Ok(quiet(Outcome::NotPending(n))),
    }
}

/// Asks whether a completed sale may be cancelled.
pub(crate) fn ask_cancel<J: Journal<TermEntry>>(
    alloc: Global,
    terminal: &Terminal<J>,
    n: u64,
    moment: u64,
    sent: u64,
) -> Result<Said, LineFault>
    requires moment { moment ≤ 253402300799 }
    requires sent { sent + 1 < 2 ^ 64 }
    ensures { SendDone J.Journal terminal.now moment sent (λ s created. ask_cancel_turn s n moment created) result }
{
    date_of(moment);
    // its journal is a legal one
    let _ = terminal.setup();
    match terminal.ask_cancel(n, moment) {
        Ok(message) => send(alloc, &message, sent),
        Err(AskFault::NoSale(_)) => Ok(quiet(Outcome::NoSale(n))),
        Err(AskFault::NotCompleted(_)) => Ok(quiet(Outcome::NotCompleted(n))),
        Err(AskFault::AlreadyCancelled(_)) => Ok(quiet(Outcome::AlreadyCancelled(n))),
    }
}

/// Asks how far the host is.
pub(crate) fn diagnose<J: Journal<TermEntry>>(
    alloc: Global,
    terminal: &Terminal<J>,
    moment: u64,
    sent: u64,
) -> Result<Said, LineFault>
    requires moment { moment ≤ 253402300799 }
    requires sent { sent + 1 < 2 ^ 64 }
    ensures { SendDone J.Journal terminal.now moment sent (λ s created. diagnose_turn s moment created) result }
{
    send(alloc, &terminal.diagnose(moment), sent)
}

/// Reports the terminal's versions, and asks for a set of data.
pub(crate) fn status<J: Journal<TermEntry>>(
    alloc: Global,
    terminal: &Terminal<J>,
    wanted: DataSet,
    moment: u64,
    sent: u64,
) -> Result<Said, LineFault>
    requires wanted { may_be_wanted wanted ≡ true }
    requires moment { moment ≤ 253402300799 }
    requires sent { sent + 1 < 2 ^ 64 }
    ensures { SendDone J.Journal terminal.now moment sent (λ s created. status_turn s wanted moment created) result }
{
    send(alloc, &terminal.status_report(wanted, moment), sent)
}
