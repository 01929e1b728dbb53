// The text of a reply.
ghost use Rattle.std.specs.Prelude.{◌≡◌, ◌≤◌, ◌^◌, true, None, IfOk, IfErr};
ghost use Rattle.std.specs.List.{list_all};
ghost use Rattle.cap_base.specs.declared.item.Totals.{Totals};
ghost use Rattle.cap_fields.specs.Refused.{in_digits, in_digits_if, is_refused};
ghost use Rattle.cap_sale_msgs.specs.Bodies.{is_sale_body};
ghost use Rattle.cap_batch_msgs.specs.Bodies.{is_totals, is_batch_body};
ghost use Rattle.cap_mgmt_msgs.specs.Bodies.{is_action, is_part, is_mgmt_body};
ghost use Rattle.cap_msgs.specs.Moment.{IsMoment};
ghost use Rattle.cap_msgs.specs.Ranges.{is_body, is_message};
ghost use Rattle.cap_msgs.specs.Received.{Received};
ghost use Rattle.cap_entries.specs.Log.{setup_of};
ghost use Rattle.cap_answering.specs.declared.fault.HostFault.TheVariants.{Memory};
ghost use Rattle.cap_host_answers.specs.Received.{number_of, name_or, sender_of};
ghost use Rattle.cap_host.specs.Reply.{IsText};
ghost use Rattle.cap_host.specs.Host.{entries_of};

use crate::host::Host;
use cap_answering::{ByteText, HostFault};
use cap_base::{Ident, Totals};
use cap_batch_msgs::BatchBody;
use cap_entries::HostEntry;
use cap_journal::Journal;
use cap_leaf::{DateTime, Header, Refused};
use cap_mgmt_msgs::{Action, MgmtBody};
use cap_msgs::{Body, Message, encode};
use cap_sale_msgs::SaleBody;

// At most ten digits.
const MOST: u64 = 9_999_999_999;

fn is_short(number: Option<u64>) -> bool
    ensures { result ≡ in_digits_if 10 number }
{
    match number {
        Some(number) => number <= MOST,
        None => true,
    }
}

fn refused_is_short(refused: &Refused) -> bool
    ensures { result ≡ is_refused refused.now }
{
    is_short(refused.expected) && is_short(refused.place)
}

fn totals_are_short(totals: &Totals) -> bool
    ensures { result ≡ is_totals totals.now }
{
    totals.sales <= MOST
        && (totals.sales_sum <= 9_999_999_999_999_999_999
            && (totals.cancels <= MOST && totals.cancels_sum <= 9_999_999_999_999_999_999))
}

fn action_is_short(action: &Action) -> bool
    ensures { result ≡ is_action action.now }
{
    action.minutes <= 999_999
}

fn actions_are_short(actions: &[Action]) -> bool
    ensures { result ≡ list_all is_action actions.now }
{
    actions.iter().all(|action| action_is_short(action))
}

// Whether the numbers of a body that a host sends fit their digits. What terminals send is no such body.
fn sale_is_short(body: &SaleBody) -> bool
    ensures { result ≡ true → is_sale_body body.now ≡ true }
{
    matches!(
        body,
        SaleBody::AuthAnswer { .. }
            | SaleBody::CompletionAnswer { .. }
            | SaleBody::CancelAnswer { .. }
            | SaleBody::CancelAdviceAnswer { .. }
    )
}

fn batch_is_short(body: &BatchBody) -> bool
    ensures { result ≡ true → is_batch_body body.now ≡ true }
{
    match body {
        BatchBody::ReconcileAnswer { period, totals, .. } => {
            *period <= MOST && totals_are_short(totals)
        }
        BatchBody::BatchAnswer { last, .. } => *last <= MOST,
        BatchBody::DiagnosticAnswer { last, .. } => *last <= MOST,
        BatchBody::Rejection(refused) => refused_is_short(refused),
        _ => false,
    }
}

fn management_is_short(body: &MgmtBody) -> bool
    ensures { result ≡ true → is_mgmt_body body.now ≡ true }
{
    match body {
        MgmtBody::Plan(actions) => actions_are_short(actions.as_slice()),
        MgmtBody::Part(part) => part.version <= MOST && (part.part <= 999 && part.parts <= 999),
        MgmtBody::ManagementRejection(refused) => refused_is_short(refused),
        MgmtBody::Status { .. } => false,
    }
}

fn body_is_short(body: &Body) -> bool
    ensures { result ≡ true → is_body body.now ≡ true }
{
    match body {
        Body::Sale(body) => sale_is_short(body),
        Body::Batch(body) => batch_is_short(body),
        Body::Management(body) => management_is_short(body),
    }
}

// A message from here, made at this moment, without a counter.
fn message_from(from: Ident, to: &Ident, moment: u64, number: u64, body: Body) -> Message
    requires { moment ≤ 253402300799 }
    ensures moment { IsMoment moment result.header.created }
    ensures message { result ≡ record { header = record { exchange = number; repeat = None; created = result.header.created; from = from; to = to.now }; body = body } }
{
    let header = Header {
        exchange: number,
        repeat: None,
        created: DateTime::utc(moment),
        from,
        to: *to,
    };
    Message { header, body }
}

// Whether the numbers of a reply fit their digits.
fn is_written(message: &Message) -> bool
    ensures { result ≡ true → message.now.header.repeat ≡ None → is_message message.now ≡ true }
{
    message.header.exchange <= MOST && body_is_short(&message.body)
}

impl<J: Journal<HostEntry> + Drop> Host<J> {
    // The text of a reply to what came with this number, to its sender. The numbers of a reply fit their digits, since a log has few items.
    pub(crate) fn written(
        &self,
        moment: u64,
        number: u64,
        to: &Ident,
        body: Body,
    ) -> Result<ByteText, HostFault>
        requires { moment ≤ 253402300799 }
        ensures text { (received : Received) → number ≡ number_of received → to.now ≡ name_or (sender_of received) → IfOk result (λ text. IsText (entries_of self.now) moment received body text) }
        ensures memory { IfErr result (λ fault. fault ≡ Memory) }
    {
        let message = message_from(self.setup().host(), to, moment, number, body);
        if !is_written(&message) {
            return Err(HostFault::Memory);
        }
        let text = encode(self.alloc, &message)?;
        Ok(ByteText::new(text))
    }
}
