// What a terminal hears.
ghost use Rattle.std.specs.Prelude.{◌≡◌, [], false, Some, None, Ok, MatchOption, OnOk};
ghost use Rattle.cap_terminal.specs.Live.{IsLive};
ghost use Rattle.cap_plays.specs.Turns.{nth, on_approval, on_authorisation, on_handled};
ghost use Rattle.cap_plays.specs.Texts.{texts_in};
ghost use Rattle.cap_terminal_lines.specs.Hears.{decision_in as decision_of, IsAnswerAlone, says_only, refusal_of, on_answer, SaleDone, DecidedDone, HeardDone, DownDone};

use crate::ends::{complete, decline, give_up};
use crate::said::{Said, quiet};
use cap_entries::TermEntry;
use cap_journal::Journal;
use cap_msgs::texts_read_again;
use cap_plays::LineFault;
use cap_sale::{Approved, AuthRefused, AuthResponse, Begun};
use cap_schedule::Outcome;
use cap_terminal::{Handled, TermFault, Terminal};

// Ends an approved sale: where the customer walks out, it is given up.
fn settle<J: Journal<TermEntry>>(
    terminal: &mut Terminal<J>,
    walks_out: bool,
    approved: Approved,
) -> Result<Said, LineFault>
    requires { IsLive (J.entries terminal.old) approved.n approved.amount approved.account }
    ensures done { SaleDone J.Journal terminal.old terminal.new (on_approval walks_out approved.n approved.code) result }
    ensures works { OnOk result (J.has_failed terminal.new ≡ J.has_failed terminal.old) }
{
    if walks_out {
        give_up(terminal, approved)
    } else {
        complete(terminal, approved)
    }
}

// Ends a pending sale by the host's decision on it.
fn decide<J: Journal<TermEntry>>(
    terminal: &mut Terminal<J>,
    walks_out: bool,
    begun: Begun,
    answer: &AuthResponse,
) -> Result<Said, LineFault>
    requires live { IsLive (J.entries terminal.old) begun.n begun.amount begun.account }
    requires sale { begun.n ≡ answer.now.n }
    ensures done { SaleDone J.Journal terminal.old terminal.new (on_answer walks_out answer.now) result }
    ensures works { OnOk result (J.has_failed terminal.new ≡ J.has_failed terminal.old) }
{
    match terminal.authorise(begun, answer) {
        Ok(approved) => settle(terminal, walks_out, approved),
        Err(AuthRefused::Declined(begun, _)) => decline(terminal, begun),
        Err(AuthRefused::NotTheAnswer(begun)) => {
            begun.set_aside();
            Ok(quiet(Outcome::NotPending(answer.n)))
        }
    }
}

// Takes the host's decision on a sale.
fn on_decision<J: Journal<TermEntry>>(
    terminal: &mut Terminal<J>,
    walks_out: bool,
    answer: &AuthResponse,
) -> Result<Said, LineFault>
    ensures done { DecidedDone J.Journal terminal.old terminal.new (λ l. on_authorisation walks_out l answer.now) result }
    ensures works { OnOk result (J.has_failed terminal.new ≡ J.has_failed terminal.old) }
{
    match terminal.take_pending(answer.n) {
        Some(begun) => decide(terminal, walks_out, begun, answer),
        None => Ok(quiet(Outcome::NotPending(answer.n))),
    }
}

// What a line says to an answer that decides no sale.
fn outcome_of(handled: &Handled) -> Outcome
    ensures { result ≡ (on_handled false [] handled.now).outcome }
{
    match handled {
        Handled::Authorisation(answer) => Outcome::NotPending(answer.n),
        Handled::CancelAnswer { n, response } => Outcome::CancelAnswered {
            n: *n,
            response: *response,
        },
        Handled::Diagnosed(last) => Outcome::Diagnosed(*last),
        Handled::Plan(actions) => Outcome::PlanOf(actions.as_slice().len() as u64),
        Handled::Part {
            version,
            part,
            parts,
        } => Outcome::PartAdded {
            version: *version,
            part: *part,
            parts: *parts,
        },
        Handled::Acked(m) => Outcome::AckedUpTo(*m),
        Handled::Reconciled { m, .. } => Outcome::AckedUpTo(*m),
    }
}

// The decision on a sale, where it is one.
fn decision_in(handled: &Handled) -> Option<AuthResponse>
    ensures { result ≡ decision_of handled.now }
{
    match handled {
        Handled::Authorisation(answer) => Some(*answer),
        Handled::CancelAnswer { .. } => None,
        Handled::Diagnosed(_) => None,
        Handled::Plan(_) => None,
        Handled::Part { .. } => None,
        Handled::Acked(_) => None,
        Handled::Reconciled { .. } => None,
    }
}

// Goes on with an answer that was taken.
fn after_answer<J: Journal<TermEntry>>(
    terminal: &mut Terminal<J>,
    walks_out: bool,
    handled: &Handled,
) -> Result<Said, LineFault>
    ensures done { DecidedDone J.Journal terminal.old terminal.new (λ l. on_handled walks_out l handled.now) result }
    ensures works { OnOk result (J.has_failed terminal.new ≡ J.has_failed terminal.old) }
    ensures says { IsAnswerAlone handled.now → result ≡ Ok (says_only (on_handled false [] handled.now).outcome) }
    ensures stays { IsAnswerAlone handled.now → terminal.new ≡ terminal.old }
{
    match decision_in(handled) {
        Some(answer) => on_decision(terminal, walks_out, &answer),
        None => Ok(quiet(outcome_of(handled))),
    }
}

// What a line makes of a refusal.
fn refusal(fault: TermFault) -> Result<Said, LineFault>
    ensures { result ≡ refusal_of fault }
{
    match fault {
        TermFault::Unread(fault) => Ok(quiet(Outcome::Unread {
            reason: fault.reason,
            place: fault.place,
        })),
        TermFault::NotForUs => Ok(quiet(Outcome::NotForUs)),
        TermFault::Rejected(reason) => Ok(quiet(Outcome::Rejected(reason))),
        TermFault::NotAwaited => Ok(quiet(Outcome::NotAwaited)),
        TermFault::Stale { m, acked } => Ok(quiet(Outcome::Stale { number: m, acked })),
        TermFault::Beyond { m, len } => Ok(quiet(Outcome::Beyond { number: m, len })),
        TermFault::Disk => Err(LineFault::Disk),
        TermFault::Failed => Err(LineFault::Disk),
        TermFault::Memory => Err(LineFault::Memory),
    }
}

/// Takes bytes that arrive; where the customer walks out, an approved sale is given up.
pub(crate) fn hear<J: Journal<TermEntry>>(
    terminal: &mut Terminal<J>,
    walks_out: bool,
    text: &[u8],
) -> Result<Said, LineFault>
    ensures done { HeardDone J.Journal terminal.old terminal.new walks_out text.now result }
    ensures works { OnOk result (J.has_failed terminal.new ≡ J.has_failed terminal.old) }
{
    match terminal.handle(text) {
        Ok(handled) => after_answer(terminal, walks_out, &handled),
        Err(fault) => refusal(fault),
    }
}

// The text with this number, from 1.
fn text_at(texts: &[Vec<u8>], k: u64) -> Option<&[u8]>
    ensures { MatchOption result (nth (texts_in texts.now) k ≡ None) (λ text. nth (texts_in texts.now) k ≡ Some text.now) }
{
    if k == 0 {
        return None;
    }
    let i = (k - 1) as usize;
    if i < texts.len() {
        Some(texts[i].as_slice())
    } else {
        None
    }
}

/// Takes an answer of the host.
pub(crate) fn down<J: Journal<TermEntry>>(
    terminal: &mut Terminal<J>,
    walks_out: bool,
    answers: &[Vec<u8>],
    j: u64,
) -> Result<Said, LineFault>
    ensures done { DownDone J.Journal terminal.old terminal.new walks_out (texts_in answers.now) j result }
    ensures works { OnOk result (J.has_failed terminal.new ≡ J.has_failed terminal.old) }
{
    texts_read_again();
    match text_at(answers, j) {
        Some(text) => hear(terminal, walks_out, text),
        None => Ok(quiet(Outcome::NoMessage(j))),
    }
}
