ghost use Rattle.std.specs.Prelude.{◌≡◌, ◌==◌, ◌+◌, IfOk, List};
ghost use Rattle.cap_entries.specs.declared.terminal.TermEntry.{TermEntry};
ghost use Rattle.cap_entries.specs.Allowed.{Legal};
ghost use Rattle.cap_entries.specs.Items.{items};
ghost use Rattle.cap_entries.specs.Acked.{acked};
ghost use Rattle.cap_msgs.specs.declared.message.Body.TheVariants.{Sale as Of_sale, Batch as Of_batch, Management as Of_management};
ghost use Rattle.cap_msgs.specs.Received.{Read, Unread};
ghost use Rattle.cap_msgs.specs.Reply.{is_approval, is_totals_response, is_items_response, reply_of};
ghost use Rattle.cap_terminal_answers.specs.Takes.{refuses, tells, take_part, take_reply, is_for_us, takes};
ghost use Rattle.cap_entries.specs.Allowed.{part_allowed};
ghost use Rattle.cap_terminal_answers.specs.declared.handled.Handled.TheVariants.{Plan as Plan_handled};
ghost use Rattle.cap_terminal_answers.specs.Plain.{queue_view, acknowledges_so, take_told};

use crate::handled::{Handled, TermFault};
use crate::part::may_add;
use crate::queue::{QueueView, cancels_sale, closes, ends_sale};
use cap_base::{ConfigPart, Memory, Response};
use cap_batch_msgs::BatchBody;
use cap_entries::TermEntry;
use cap_leaf::Fault;
use cap_mgmt_msgs::{Actions, MgmtBody};
use cap_msgs::{Body, Message};
use cap_plain::items_of;
use cap_sale::AuthResponse;
use cap_sale_msgs::SaleBody;
use std::alloc::Global;
use std::marker::Model;

/// What a terminal makes of what arrives: the entry that it adds, if there is one, and its answer.
#[derive(Debug, Drop)]
pub struct Taking {
    pub added: Option<TermEntry>,
    pub answer: Result<Handled, TermFault>,
}

impl Model for Taking {
    ghost use Rattle.std.specs.Option.{option_to_list};
    ghost use Rattle.cap_terminal_answers.specs.Takes.{Taken};

    ghost Value = { Taken };

    ghost view = { λ t. record { added = option_to_list t.added; answer = t.answer } };
}

fn told(handled: Handled) -> Taking
    ensures { result ≡ tells handled }
{
    Taking {
        added: None,
        answer: Ok(handled),
    }
}

/// Nothing is added, and this is answered.
pub fn refused(fault: TermFault) -> Taking
    ensures { result ≡ refuses fault }
{
    Taking {
        added: None,
        answer: Err(fault),
    }
}

// The number of the last item that was acknowledged.
fn last_acked(entries: &[TermEntry]) -> u64
    ensures { result ≡ acked entries.now }
{
    let mut last = 0;
    for entry in entries {
        if let TermEntry::Acked { m } = entry {
            last = *m;
        }
    }
    last
}

// Whether a message is from the terminal's host and to it.
fn is_ours(entries: &[TermEntry], message: &Message) -> bool
    requires { Legal entries.now }
    ensures { result ≡ is_for_us entries.now message.now }
{
    match entries {
        [TermEntry::Setup(setup), ..] => {
            message.header.to == setup.terminal() && message.header.from == setup.host()
        }
        _ => unreachable!(),
    }
}

// What is to be known of the queue.
fn view_of(alloc: Global, entries: &[TermEntry]) -> Result<QueueView, Memory>
    requires { Legal entries.now }
    ensures { IfOk result (λ view. view ≡ queue_view entries.now) }
{
    let made = items_of(alloc, entries)?;
    let acked = last_acked(entries);
    Ok(QueueView {
        acked,
        len: made.len() as u64,
        head: made.get(acked as usize).copied(),
    })
}

fn approves(response: Response) -> bool
    ensures { result ≡ is_approval response }
{
    matches!(response, Response::Appr)
}

fn tells_totals(response: Response) -> bool
    ensures { result ≡ is_totals_response response }
{
    matches!(response, Response::Appr | Response::Decl)
}

fn takes_items(response: Response) -> bool
    ensures { result ≡ is_items_response response }
{
    matches!(response, Response::Appr | Response::Part)
}

// An acknowledgement of the items up to m.
fn acknowledged(view: &QueueView, m: u64, approves: bool, awaited: bool, answer: Handled) -> Taking
    ensures { result ≡ acknowledges_so view.now m approves awaited answer }
{
    let acked = view.acked;
    let len = view.len;
    if !approves {
        return refused(TermFault::NotAwaited);
    }
    if m <= acked {
        return refused(TermFault::Stale { m, acked });
    }
    if len < m {
        return refused(TermFault::Beyond { m, len });
    }
    if !awaited {
        return refused(TermFault::NotAwaited);
    }
    Taking {
        added: Some(TermEntry::Acked { m }),
        answer: Ok(answer),
    }
}

/// A message on one sale.
pub fn take_sale(view: &QueueView, number: u64, body: &SaleBody) -> Taking
    ensures { result ≡ take_told view.now number (reply_of (Of_sale body.now)) }
{
    match body {
        SaleBody::AuthAnswer { response, code } => told(Handled::Authorisation(AuthResponse {
            n: number,
            response: *response,
            code: *code,
        })),
        SaleBody::CancelAnswer { response } => told(Handled::CancelAnswer {
            n: number,
            response: *response,
        }),
        SaleBody::CompletionAnswer { response } => {
            let awaited = view.is_next(number) && ends_sale(&view.head);
            acknowledged(
                view,
                number,
                approves(*response),
                awaited,
                Handled::Acked(number),
            )
        }
        SaleBody::CancelAdviceAnswer { response } => {
            let awaited = view.is_next(number) && cancels_sale(&view.head);
            acknowledged(
                view,
                number,
                approves(*response),
                awaited,
                Handled::Acked(number),
            )
        }
        _ => refused(TermFault::NotAwaited),
    }
}

/// A message on periods or batches, a diagnostic one, or a rejection.
pub fn take_batch(view: &QueueView, number: u64, body: &BatchBody) -> Taking
    ensures { result ≡ take_told view.now number (reply_of (Of_batch body.now)) }
{
    match body {
        BatchBody::Rejection(refusal) => refused(TermFault::Rejected(refusal.reason)),
        BatchBody::DiagnosticAnswer { last, .. } => told(Handled::Diagnosed(*last)),
        BatchBody::ReconcileAnswer {
            response,
            period,
            totals,
        } => {
            let awaited = view.is_next(number) && closes(&view.head, *period);
            let answer = Handled::Reconciled {
                m: number,
                totals: *totals,
                agree: approves(*response),
            };
            acknowledged(view, number, tells_totals(*response), awaited, answer)
        }
        BatchBody::BatchAnswer { response, last } => acknowledged(
            view,
            *last,
            takes_items(*response),
            true,
            Handled::Acked(*last),
        ),
        _ => refused(TermFault::NotAwaited),
    }
}

/// A plan of management.
pub fn take_plan(actions: &Actions) -> Result<Taking, Memory>
    ensures { IfOk result (λ t. t ≡ tells (Plan_handled actions.now)) }
{
    Ok(told(Handled::Plan(actions.clone()?)))
}

/// A part of a parameter set, which may be added or not.
pub fn take_config(may_add: bool, part: &ConfigPart) -> Result<Taking, Memory>
    ensures { (entries : List TermEntry) → may_add ≡ part_allowed entries part.now → IfOk result (λ t. t ≡ take_part entries part.now) }
{
    if may_add {
        let answer = Handled::Part {
            version: part.version,
            part: part.part,
            parts: part.parts,
        };
        Ok(Taking {
            added: Some(TermEntry::Part(part.clone()?)),
            answer: Ok(answer),
        })
    } else {
        Ok(refused(TermFault::NotAwaited))
    }
}

// A message of terminal management.
fn take_management(entries: &[TermEntry], number: u64, body: &MgmtBody) -> Result<Taking, Memory>
    ensures { IfOk result (λ t. t ≡ take_reply entries.now number (reply_of (Of_management body.now))) }
{
    match body {
        MgmtBody::ManagementRejection(refusal) => Ok(refused(TermFault::Rejected(refusal.reason))),
        MgmtBody::Plan(actions) => take_plan(actions),
        MgmtBody::Part(part) => take_config(may_add(entries, part), part),
        MgmtBody::Status { .. } => Ok(refused(TermFault::NotAwaited)),
    }
}

/// What a terminal with these entries makes of a message of anyone, to anyone.
pub fn take_message(
    alloc: Global,
    entries: &[TermEntry],
    message: &Message,
) -> Result<Taking, Memory>
    requires { Legal entries.now }
    ensures { IfOk result (λ t. t ≡ takes entries.now (Read message.now)) }
{
    if !is_ours(entries, message) {
        return Ok(refused(TermFault::NotForUs));
    }
    let number = message.header.exchange;
    let view = match view_of(alloc, entries) {
        Ok(view) => view,
        Err(_) => return Err(Memory),
    };
    match &message.body {
        Body::Sale(body) => Ok(take_sale(&view, number, body)),
        Body::Batch(body) => Ok(take_batch(&view, number, body)),
        Body::Management(body) => take_management(entries, number, body),
    }
}

/// What a terminal with these entries makes of what is no document.
pub fn take_fault(fault: &Fault) -> Taking
    ensures { (entries : List TermEntry) → result ≡ takes entries (Unread fault.now) }
{
    refused(TermFault::Unread(*fault))
}
