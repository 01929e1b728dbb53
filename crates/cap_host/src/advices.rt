// What a host is to do about an item that a terminal reports.
ghost use Rattle.std.specs.Prelude.{◌≡◌, ◌<◌, ◌≤◌, ◌+◌, ◌++◌, ◌∷◌, [], List, true, false, length, IfOk};
ghost use Rattle.cap_base.specs.declared.item.Item.{Item};
ghost use Rattle.cap_base.specs.Item.{is_any_close};
ghost use Rattle.cap_base.specs.Fits.{fits};
ghost use Rattle.cap_entries.specs.Log.{log, setup_of};
ghost use Rattle.cap_host_answers.specs.Answer.{answer_advice, answer_of_item};
ghost use Rattle.cap_host_answers.specs.Plain.{advice_again, advice_next, is_closed_there};
ghost use Rattle.cap_host.specs.Decision.{decided, IsSound};
ghost use Rattle.cap_host.specs.Reply.{reconciled_with};
ghost use Rattle.cap_host.specs.Host.{entries_of, fetched_of, fault_of, Reads};

use crate::decision::Decision;
use crate::host::Host;
use cap_answering::HostFault;
use cap_base::{Item, Response, Totals};
use cap_batch_msgs::BatchBody;
use cap_entries::HostEntry;
use cap_host_answers::{approved, differs, expects, replies, same_totals};
use cap_journal::Journal;
use cap_msgs::Body;
use cap_sale_msgs::SaleBody;

// The answer of a closing, by the host's totals of its period.
fn reconciled(p: u64, totals: Totals, own: Totals) -> Body
    ensures { result ≡ reconciled_with p totals own }
{
    Body::Batch(BatchBody::ReconcileAnswer {
        response: approved(same_totals(own, totals), Response::Decl),
        period: p,
        totals: own,
    })
}

// The answer of an item that is no closing.
fn taken(item: &Item) -> Body
    ensures { (log : List Item) → is_any_close item.now ≡ false → result ≡ answer_of_item log item.now }
{
    match item {
        Item::Cancel { .. } => Body::Sale(SaleBody::CancelAdviceAnswer {
            response: Response::Appr,
        }),
        _ => Body::Sale(SaleBody::CompletionAnswer {
            response: Response::Appr,
        }),
    }
}

impl<J: Journal<HostEntry> + Drop> Host<J> {
    // The answer of an item that stands in the log.
    fn answer_there(&self, terminal: u8, item: &Item) -> Body
        requires within { terminal < length (setup_of (entries_of self.now)).terminals }
        requires there { is_closed_there (log (entries_of self.now) terminal) item.now ≡ true }
        ensures { result ≡ answer_of_item (log (entries_of self.now) terminal) item.now }
    {
        match item {
            Item::Close { p, totals } => match self.totals(terminal, *p) {
                Some(own) => reconciled(*p, *totals, own),
                None => unreachable!(),
            },
            _ => taken(item),
        }
    }

    // The answer of an item that is to be added to the log.
    fn answer_next(&self, terminal: u8, item: &Item) -> Body
        requires within { terminal < length (setup_of (entries_of self.now)).terminals }
        requires fits { fits (log (entries_of self.now) terminal) item.now ≡ true }
        ensures { result ≡ answer_of_item (log (entries_of self.now) terminal ++ item.now ∷ []) item.now }
    {
        match item {
            Item::Close { p, totals } => reconciled(*p, *totals, self.running(terminal)),
            _ => taken(item),
        }
    }

    // An item with a number of the log: item m, counted from 0.
    fn advise_again(&mut self, terminal: u8, m: u64, item: &Item) -> Result<Decision, HostFault>
        requires { terminal < length (setup_of (entries_of self.old)).terminals }
        ensures told { IfOk result (λ decision. decided decision ≡ advice_again (log (entries_of self.old) terminal) (m + 1) item.now) }
        ensures sound { IfOk result (λ decision. IsSound (entries_of self.old) decision) }
        ensures reads { Reads self.old self.new (fault_of result) }
        ensures entries { entries_of self.new ≡ entries_of self.old }
        ensures fetched { fetched_of self.new ≤ fetched_of self.old + 1 }
    {
        if self.is_item(terminal, m, item)? {
            let body = self.answer_there(terminal, item);
            Ok(self.tells(replies(self.alloc, body)))
        } else {
            Ok(self.tells(differs(self.alloc)))
        }
    }

    // The next item.
    fn advise_next(&mut self, terminal: u8, item: &Item) -> Result<Decision, HostFault>
        requires { terminal < length (setup_of (entries_of self.old)).terminals }
        ensures told { IfOk result (λ decision. decided decision ≡ advice_next terminal (log (entries_of self.old) terminal) item.now) }
        ensures sound { IfOk result (λ decision. IsSound (entries_of self.old) decision) }
        ensures reads { Reads self.old self.new (fault_of result) }
        ensures entries { entries_of self.new ≡ entries_of self.old }
        ensures fetched { fetched_of self.new ≤ fetched_of self.old + 1 }
    {
        self.idle();
        let items = vec![in self.alloc; *item]?;
        if self.may_follow(terminal, &[], item)? {
            let body = self.answer_next(terminal, item);
            Ok(Decision::Takes {
                terminal,
                items,
                body,
            })
        } else {
            Ok(self.tells(expects(self.alloc, self.log_len(terminal) + 1)))
        }
    }

    // An item that the terminal reports under this number.
    pub(crate) fn advise(
        &mut self,
        terminal: u8,
        number: u64,
        item: &Item,
    ) -> Result<Decision, HostFault>
        requires { terminal < length (setup_of (entries_of self.old)).terminals }
        ensures told { IfOk result (λ decision. decided decision ≡ answer_advice terminal (log (entries_of self.old) terminal) number item.now) }
        ensures sound { IfOk result (λ decision. IsSound (entries_of self.old) decision) }
        ensures reads { Reads self.old self.new (fault_of result) }
        ensures entries { entries_of self.new ≡ entries_of self.old }
        ensures fetched { fetched_of self.new ≤ fetched_of self.old + 1 }
    {
        self.idle();
        let known = self.log_len(terminal);
        if number == 0 || known + 1 < number {
            return Ok(self.tells(expects(self.alloc, known + 1)));
        }
        if number <= known {
            self.advise_again(terminal, number - 1, item)
        } else {
            self.advise_next(terminal, item)
        }
    }
}
