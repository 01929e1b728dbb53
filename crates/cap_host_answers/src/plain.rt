ghost use Rattle.std.specs.Prelude.{◌≡◌, [], true, IfOk, List, length};
ghost use Rattle.cap_base.specs.declared.item.Item.TheVariants.{Cancel};
ghost use Rattle.cap_base.specs.declared.codes.Response.TheVariants.{Appr};
ghost use Rattle.cap_batch_msgs.specs.declared.body.BatchBody.TheVariants.{DiagnosticAnswer};
ghost use Rattle.cap_msgs.specs.declared.message.Body.TheVariants.{Sale as Of_sale, Batch as Of_batch, Management as Of_management};
ghost use Rattle.cap_entries.specs.declared.host.HostEntry.{HostEntry};
ghost use Rattle.cap_base.specs.Fits.{all_fit};
ghost use Rattle.cap_entries.specs.HostAllowed.{LegalHost};
ghost use Rattle.cap_entries.specs.Log.{log};
ghost use Rattle.cap_msgs.specs.Received.{Read, Unread};
ghost use Rattle.cap_msgs.specs.Report.{report_of, is_from_host, is_unanswered, is_management, ended_item};
ghost use Rattle.cap_host_answers.specs.Answer.{silent, answers, answer_of, answer_advice, answer_batch, answer_cancel_request};
ghost use Rattle.cap_host_answers.specs.Received.{rejection, rejects, answer_received, answer_from};

use crate::advice::{advise, advise_many};
use crate::entries::{log_of, place_of, settings};
use crate::request::{decide, decide_cancel};
use crate::status::give;
use cap_base::{Amount, Item, Memory, Reason, Response};
use cap_batch_msgs::BatchBody;
use cap_entries::HostEntry;
use cap_leaf::{Fault, Refused};
use cap_mgmt_msgs::MgmtBody;
use cap_msgs::{Body, Message};
use cap_plain::logs_fit;
use cap_sale_msgs::{Ended, SaleBody};
use std::alloc::Global;
use std::marker::Model;

/// What a host makes of what arrives: the entries that it adds, and the body of its reply, or None where it is silent.
#[derive(Debug, Drop)]
pub struct Answer {
    pub added: Vec<HostEntry>,
    pub reply: Option<Body>,
}

impl Model for Answer {
    ghost use Rattle.cap_host_answers.specs.Answer.{Answered};

    ghost Value = { Answered };

    ghost view = { λ a. record { added = a.added.items; reply = a.reply } };
}

/// A reply alone.
pub fn replies(alloc: Global, body: Body) -> Answer
    ensures { result ≡ answers body }
{
    Answer {
        added: Vec::new(alloc),
        reply: Some(body),
    }
}

/// No reply.
pub fn quiet(alloc: Global) -> Answer
    ensures { result ≡ silent }
{
    Answer {
        added: Vec::new(alloc),
        reply: None,
    }
}

fn rejection_of(management: bool, refused: Refused) -> Body
    ensures { result ≡ rejection management refused }
{
    if management {
        Body::Management(MgmtBody::ManagementRejection(refused))
    } else {
        Body::Batch(BatchBody::Rejection(refused))
    }
}

fn manages(body: &Body) -> bool
    ensures { result ≡ is_management body.now }
{
    matches!(body, Body::Management(_))
}

/// The rejection of a message for this reason.
pub fn rejected(alloc: Global, body: &Body, reason: Reason) -> Answer
    ensures { result ≡ rejects body.now reason }
{
    let refused = Refused {
        reason,
        expected: None,
        place: None,
    };
    replies(alloc, rejection_of(manages(body), refused))
}

/// Whether a message is one that only hosts send.
pub fn is_of_host(body: &Body) -> bool
    ensures { result ≡ is_from_host (report_of body.now) }
{
    match body {
        Body::Sale(body) => matches!(
            body,
            SaleBody::AuthAnswer { .. }
                | SaleBody::CompletionAnswer { .. }
                | SaleBody::CancelAnswer { .. }
                | SaleBody::CancelAdviceAnswer { .. }
        ),
        Body::Batch(body) => matches!(
            body,
            BatchBody::ReconcileAnswer { .. }
                | BatchBody::BatchAnswer { .. }
                | BatchBody::DiagnosticAnswer { .. }
        ),
        Body::Management(body) => matches!(body, MgmtBody::Plan(_) | MgmtBody::Part(_)),
    }
}

/// Whether a message is a rejection, which nobody answers.
pub fn needs_no_answer(body: &Body) -> bool
    ensures { result ≡ is_unanswered (report_of body.now) }
{
    matches!(
        body,
        Body::Batch(BatchBody::Rejection(_)) | Body::Management(MgmtBody::ManagementRejection(_))
    )
}

/// The item that a completion advice reports.
pub fn item_of(ended: &Ended) -> Item
    ensures { result ≡ ended_item ended.now }
{
    match *ended {
        Ended::Sale {
            n,
            amount,
            account,
            code,
        } => Item::Sale {
            n,
            amount,
            account,
            code,
        },
        Ended::Void { n } => Item::Void { n },
    }
}

/// The item that an advice on a cancellation reports.
pub fn cancellation(n: u64, amount: Amount) -> Item
    ensures { result ≡ Cancel n amount }
{
    Item::Cancel { n, amount }
}

// The log of the terminal at this place, whose items fit one after another.
fn own_log(alloc: Global, entries: &[HostEntry], place: u8) -> Result<Vec<Item>, Memory>
    requires { LegalHost entries.now }
    ensures value { IfOk result (λ v. v.items ≡ log entries.now place) }
    ensures fit { IfOk result (λ v. all_fit [] v.items ≡ true) }
{
    logs_fit();
    let own = log_of(alloc, entries, place)?;
    Ok(own)
}

// An item that the terminal at this place reports.
fn advise_at(
    alloc: Global,
    entries: &[HostEntry],
    place: u8,
    number: u64,
    item: &Item,
) -> Result<Answer, Memory>
    requires { LegalHost entries.now }
    ensures { IfOk result (λ a. a ≡ answer_advice place (log entries.now place) number item.now) }
{
    let own = own_log(alloc, entries, place)?;
    advise(alloc, own, place, number, item)
}

// A question on the cancellation of a sale of the terminal at this place.
fn cancel_at(
    alloc: Global,
    entries: &[HostEntry],
    place: u8,
    number: u64,
    amount: Amount,
) -> Result<Answer, Memory>
    ensures { IfOk result (λ a. a ≡ answer_cancel_request (log entries.now place) number amount) }
{
    let own = log_of(alloc, entries, place)?;
    Ok(decide_cancel(alloc, &own, number, amount))
}

// A message on one sale of the terminal at this place.
fn answer_sale(
    alloc: Global,
    entries: &[HostEntry],
    place: u8,
    number: u64,
    body: &SaleBody,
) -> Result<Answer, Memory>
    requires { LegalHost entries.now }
    ensures { IfOk result (λ a. a ≡ answer_of entries.now place number (Of_sale body.now)) }
{
    match body {
        SaleBody::AuthRequest { amount, account } => {
            let setup = settings(entries);
            Ok(decide(alloc, setup, number, *amount, account))
        }
        SaleBody::CancelRequest { amount } => cancel_at(alloc, entries, place, number, *amount),
        SaleBody::Completion(ended) => advise_at(alloc, entries, place, number, &item_of(ended)),
        SaleBody::CancelAdvice { n, amount } => {
            advise_at(alloc, entries, place, number, &cancellation(*n, *amount))
        }
        _ => Ok(quiet(alloc)),
    }
}

/// How far the host is: the number of the last item of a log.
pub fn tell_state(alloc: Global, last: u64) -> Answer
    ensures { result ≡ answers (Of_batch (DiagnosticAnswer Appr last)) }
{
    let body = BatchBody::DiagnosticAnswer {
        response: Response::Appr,
        last,
    };
    replies(alloc, Body::Batch(body))
}

fn state_at(alloc: Global, entries: &[HostEntry], place: u8) -> Result<Answer, Memory>
    ensures { IfOk result (λ a. a ≡ answers (Of_batch (DiagnosticAnswer Appr (length (log entries.now place))))) }
{
    let own = log_of(alloc, entries, place)?;
    Ok(tell_state(alloc, own.len() as u64))
}

// Items that the terminal at this place reports.
fn advise_many_at(
    alloc: Global,
    entries: &[HostEntry],
    place: u8,
    number: u64,
    items: &[Item],
) -> Result<Answer, Memory>
    ensures { IfOk result (λ a. a ≡ answer_batch place (log entries.now place) number items.now) }
{
    let own = log_of(alloc, entries, place)?;
    advise_many(alloc, &own, place, number, items)
}

// A message on a period or a batch of the terminal at this place, or a question.
fn answer_rows(
    alloc: Global,
    entries: &[HostEntry],
    place: u8,
    number: u64,
    body: &BatchBody,
) -> Result<Answer, Memory>
    requires { LegalHost entries.now }
    ensures { IfOk result (λ a. a ≡ answer_of entries.now place number (Of_batch body.now)) }
{
    match body {
        BatchBody::Diagnostic { .. } => state_at(alloc, entries, place),
        BatchBody::Reconcile { period, totals } => {
            let item = Item::Close {
                p: *period,
                totals: *totals,
            };
            advise_at(alloc, entries, place, number, &item)
        }
        BatchBody::Batch(items) => advise_many_at(alloc, entries, place, number, items.as_slice()),
        _ => Ok(quiet(alloc)),
    }
}

// A message of terminal management.
fn answer_management(
    alloc: Global,
    entries: &[HostEntry],
    place: u8,
    number: u64,
    body: &MgmtBody,
) -> Result<Answer, Memory>
    requires { LegalHost entries.now }
    ensures { IfOk result (λ a. a ≡ answer_of entries.now place number (Of_management body.now)) }
{
    match body {
        MgmtBody::Status {
            wanted,
            in_force,
            staged,
            parts,
        } => {
            let setup = settings(entries);
            give(alloc, entries, setup, *wanted, *in_force, *staged, *parts)
        }
        _ => Ok(quiet(alloc)),
    }
}

// A message of the terminal at this place, to this host.
fn answer_at(
    alloc: Global,
    entries: &[HostEntry],
    place: u8,
    number: u64,
    body: &Body,
) -> Result<Answer, Memory>
    requires { LegalHost entries.now }
    ensures { IfOk result (λ a. a ≡ answer_of entries.now place number body.now) }
{
    match body {
        Body::Sale(body) => answer_sale(alloc, entries, place, number, body),
        Body::Batch(body) => answer_rows(alloc, entries, place, number, body),
        Body::Management(body) => answer_management(alloc, entries, place, number, body),
    }
}

// A message to this host, by its sender's place.
fn answer_by(
    alloc: Global,
    entries: &[HostEntry],
    place: Option<u8>,
    message: &Message,
) -> Result<Answer, Memory>
    requires { LegalHost entries.now }
    ensures { IfOk result (λ a. a ≡ answer_from entries.now place message.now.header.exchange message.now.body) }
{
    match place {
        Some(place) => answer_at(
            alloc,
            entries,
            place,
            message.header.exchange,
            &message.body,
        ),
        None => Ok(rejected(alloc, &message.body, Reason::Intp)),
    }
}

/// What a host with these entries adds and answers to a message of anyone, to anyone.
pub fn answer_message(
    alloc: Global,
    entries: &[HostEntry],
    message: &Message,
) -> Result<Answer, Memory>
    requires { LegalHost entries.now }
    ensures { IfOk result (λ a. a ≡ answer_received entries.now (Read message.now)) }
{
    let setup = settings(entries);
    if needs_no_answer(&message.body) {
        return Ok(quiet(alloc));
    }
    if is_of_host(&message.body) {
        return Ok(rejected(alloc, &message.body, Reason::Msgt));
    }
    if message.header.to != setup.host() {
        return Ok(rejected(alloc, &message.body, Reason::Rcpp));
    }
    answer_by(
        alloc,
        entries,
        place_of(setup, &message.header.from),
        message,
    )
}

/// What a host answers to what is no document.
pub fn answer_fault(alloc: Global, fault: &Fault) -> Answer
    ensures { (entries : List HostEntry) → result ≡ answer_received entries (Unread fault.now) }
{
    let refused = Refused {
        reason: fault.reason,
        expected: None,
        place: Some(fault.place),
    };
    replies(alloc, rejection_of(fault.management, refused))
}
