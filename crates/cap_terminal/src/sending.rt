ghost use Rattle.std.specs.Prelude.{◌≡◌, ◌≤◌, ◌<◌, ◌+◌, ◌↔◌, true, IsTrue, IfOk, IfErr, IsSome, IfSome, OnSome, MatchOption, length, take};
ghost use Rattle.cap_leaf.specs.Date.{DateParts};
ghost use Rattle.cap_journal.specs.Seen.{EveryImage};
ghost use Rattle.cap_msgs.specs.Moment.{IsMoment, counter};
ghost use Rattle.cap_msgs.specs.Report.{advice_of};
ghost use Rattle.cap_entries.specs.TermRecord.{term_reading};
ghost use Rattle.cap_entries.specs.Entry.{is_pending, amount_of, account_of};
ghost use Rattle.cap_entries.specs.InForce.{staged_from, staged_version, staged_count};
ghost use Rattle.cap_entries.specs.Items.{items};
ghost use Rattle.cap_entries.specs.Acked.{acked};
ghost use Rattle.cap_plain.specs.Queue.{queue};
ghost use Rattle.cap_terminal.specs.Live.{IsLive};
ghost use Rattle.cap_terminal.specs.Causes.{IsAskCause};
ghost use Rattle.cap_terminal.specs.Stands.{HasItems};
ghost use Rattle.cap_terminal_answers.specs.Sends.{Is_message, Sends, Head, Batch_of, Ask, Ask_cancel, Diagnose, Report_status, may_be_wanted};

use crate::faults::AskFault;
use crate::terminal::Terminal;
use cap_base::{DataSet, Item, Memory};
use cap_batch_msgs::{BatchBody, Items};
use cap_entries::{TermEntry, TermSetup};
use cap_journal::Journal;
use cap_leaf::{DateTime, Header};
use cap_mgmt_msgs::MgmtBody;
use cap_msgs::{Body, Message};
use cap_sale::Begun;
use cap_sale_msgs::{Ended, SaleBody};
use cap_terminal_answers::{part_number, version};

// The body that reports an item.
fn advice(item: Item) -> Body
    ensures { result ≡ advice_of item }
{
    match item {
        Item::Sale {
            n,
            amount,
            account,
            code,
        } => Body::Sale(SaleBody::Completion(Ended::Sale {
            n,
            amount,
            account,
            code,
        })),
        Item::Void { n } => Body::Sale(SaleBody::Completion(Ended::Void { n })),
        Item::Cancel { n, amount } => Body::Sale(SaleBody::CancelAdvice { n, amount }),
        Item::Close { p, totals } => Body::Batch(BatchBody::Reconcile { period: p, totals }),
    }
}

// The counter of a message that is sent for so many times again.
fn counter_of(repeat: u16) -> Option<u16>
    ensures { result ≡ counter repeat }
{
    if repeat == 0 { None } else { Some(repeat) }
}

// A message of a set-up's terminal to its host.
fn message_by(setup: &TermSetup, moment: u64, repeat: u16, number: u64, body: Body) -> Message
    requires { moment ≤ 253402300799 }
    ensures moment { IsMoment moment result.header.created }
    ensures message { result ≡ record { header = record { exchange = number; repeat = counter repeat; created = result.header.created; from = setup.now.terminal; to = setup.now.host }; body = body } }
{
    let header = Header {
        exchange: number,
        repeat: counter_of(repeat),
        created: DateTime::utc(moment),
        from: setup.terminal(),
        to: setup.host(),
    };
    Message { header, body }
}

// What the terminal sends. A moment is in seconds since 1970, at most the end of the year 9999; repeat is at most 999, and 0 writes no counter.
impl<J: Journal<TermEntry>> Terminal<J> {
    // A message of the terminal to its host. Meanwhile each of its items stands in every image.
    fn message(&self, moment: u64, repeat: u16, number: u64, body: Body) -> Message
        requires { moment ≤ 253402300799 }
        ensures message { Is_message (J.entries self.now) moment repeat number body result }
        ensures in_images { IsTrue (J.tells self.now) → EveryImage J.may_leave self.now (HasItems term_reading (items (J.entries self.now))) }
    {
        let _ = self.failed;
        message_by(&self.setup, moment, repeat, number, body)
    }

    /// The oldest item that is not acknowledged, as an advice (caaa.003, 007 or 009): exactly where there is one. It stands in every image.
    pub fn head(&self, moment: u64, repeat: u16) -> Option<Message>
        requires moment { moment ≤ 253402300799 }
        requires repeat { repeat ≤ 999 }
        ensures some { IsSome result ↔ (acked (J.entries self.now) < length (items (J.entries self.now))) }
        ensures message { IfSome result (λ message. Sends (J.entries self.now) (Head repeat) moment message) }
        ensures in_images { IsTrue (J.tells self.now) → OnSome result (EveryImage J.may_leave self.now (HasItems term_reading (items (J.entries self.now)))) }
    {
        let number = self.head_no()?;
        match self.head_item() {
            Some(item) => Some(self.message(moment, repeat, number, advice(item))),
            None => None,
        }
    }

    // The first items that are not acknowledged, at most as many as the limit.
    fn queue_front(&self, limit: usize) -> Result<Vec<Item>, Memory>
        ensures { IfOk result (λ front. front.items ≡ take limit (queue (J.entries self.now))) }
    {
        self.index.queue_front(self.alloc, limit)
    }

    /// The first items that are not acknowledged, as many as the limit, as a batch (caaa.011): exactly where there is one. Each stands in every
    /// image. The limit is 1 to 100.
    pub fn batch(&self, limit: usize, moment: u64, repeat: u16) -> Result<Option<Message>, Memory>
        requires low { 1 ≤ limit }
        requires high { limit ≤ 100 }
        requires moment { moment ≤ 253402300799 }
        requires repeat { repeat ≤ 999 }
        ensures some { IfOk result (λ batch. IsSome batch ↔ (acked (J.entries self.now) < length (items (J.entries self.now)))) }
        ensures message { IfOk result (λ batch. IfSome batch (λ message. Sends (J.entries self.now) (Batch_of limit repeat) moment message)) }
        ensures in_images { IsTrue (J.tells self.now) → IfOk result (λ batch. OnSome batch (EveryImage J.may_leave self.now (HasItems term_reading (items (J.entries self.now))))) }
    {
        let Some(number) = self.head_no() else {
            return Ok(None);
        };
        match Items::new(self.queue_front(limit)?) {
            Some(items) => {
                let body = Body::Batch(BatchBody::Batch(items));
                Ok(Some(self.message(moment, repeat, number, body)))
            }
            None => Ok(None),
        }
    }

    /// The question whether a pending sale is approved (caaa.001). The token is live.
    pub fn ask(&self, begun: &Begun, moment: u64) -> Message
        requires moment { moment ≤ 253402300799 }
        requires live { IsLive (J.entries self.now) begun.now.n begun.now.amount begun.now.account }
        ensures { Sends (J.entries self.now) (Ask begun.now.n) moment result }
    {
        let body = SaleBody::AuthRequest {
            amount: begun.amount(),
            account: begun.account(),
        };
        self.message(moment, 0, begun.n(), Body::Sale(body))
    }

    /// The question whether sale n may be cancelled (caaa.005). `NoSale` comes exactly where no sale n was begun, `NotCompleted` exactly where it
    /// was not completed, `AlreadyCancelled` exactly where it was cancelled.
    pub fn ask_cancel(&self, n: u64, moment: u64) -> Result<Message, AskFault>
        requires { moment ≤ 253402300799 }
        ensures message { IfOk result (λ message. Sends (J.entries self.now) (Ask_cancel n) moment message) }
        ensures refused { IfErr result (IsAskCause (J.entries self.now) n) }
    {
        match self.cancellable(n) {
            Ok(amount) => {
                let body = SaleBody::CancelRequest { amount };
                Ok(self.message(moment, 0, n, Body::Sale(body)))
            }
            Err(fault) => Err(fault),
        }
    }

    /// The question how far the host is, with the number of the last item acknowledged (caaa.013).
    pub fn diagnose(&self, moment: u64) -> Message
        requires { moment ≤ 253402300799 }
        ensures { Sends (J.entries self.now) Diagnose moment result }
    {
        let body = BatchBody::Diagnostic { last: self.acked() };
        self.message(moment, 0, 0, Body::Batch(body))
    }

    // The version whose parts are coming; 0 where none came.
    fn staged_version(&self) -> u64
        ensures { result ≡ staged_version (staged_from None (J.entries self.now)) }
    {
        version(self.index.sets.staged)
    }

    // How many of its parts are there.
    fn staged_parts(&self) -> u64
        ensures { result ≡ staged_count (staged_from None (J.entries self.now)) }
    {
        part_number(self.index.sets.staged)
    }

    /// The terminal's versions, asking for a set of data (catm.001): acquirer parameters or the management plan.
    pub fn status_report(&self, wanted: DataSet, moment: u64) -> Message
        requires moment { moment ≤ 253402300799 }
        requires wanted { may_be_wanted wanted ≡ true }
        ensures { Sends (J.entries self.now) (Report_status wanted) moment result }
    {
        let body = MgmtBody::Status {
            wanted,
            in_force: self.in_force(),
            staged: self.staged_version(),
            parts: self.staged_parts(),
        };
        self.message(moment, 0, 0, Body::Management(body))
    }
}
