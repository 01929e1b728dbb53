// What a host is to do about each message.
ghost use Rattle.std.specs.Prelude.{◌≡◌, ◌<◌, ◌≤◌, ◌+◌, length, IfOk, IfErr, ℕ, List};
ghost use Rattle.cap_msgs.specs.declared.message.Body.TheVariants.{Sale as Of_sale, Batch as Of_batch, Management as Of_management};
ghost use Rattle.cap_msgs.specs.Received.{Read};
ghost use Rattle.cap_entries.specs.declared.host.HostEntry.{HostEntry};
ghost use Rattle.cap_entries.specs.Log.{log, published, setup_of};
ghost use Rattle.cap_manager.specs.Manager.{answer_status};
ghost use Rattle.cap_answering.specs.declared.fault.HostFault.TheVariants.{Memory};
ghost use Rattle.cap_host_answers.specs.Answer.{answer_cancel_request, answer_data, answer_of};
ghost use Rattle.cap_host_answers.specs.Received.{answer_received, answer_from, place_of};
ghost use Rattle.cap_host.specs.Decision.{decided, IsSound};
ghost use Rattle.cap_host.specs.Host.{entries_of, fetched_of, fault_of, readings, Reads};

use crate::decision::Decision;
use crate::host::Host;
use cap_answering::HostFault;
use cap_base::{Amount, DataSet, Item, Reason};
use cap_batch_msgs::BatchBody;
use cap_entries::HostEntry;
use cap_host_answers::{
    cancel_answer, cancellation, decide, given, is_of_host, item_of, needs_no_answer, plan_setup,
    quiet, rejected, tell_state,
};
use cap_journal::Journal;
use cap_manager::answer_status;
use cap_mgmt_msgs::MgmtBody;
use cap_msgs::{Body, Message};
use cap_sale_msgs::SaleBody;

impl<J: Journal<HostEntry> + Drop> Host<J> {
    // A question on the cancellation of a sale.
    fn decide_cancel(
        &mut self,
        terminal: u8,
        number: u64,
        amount: Amount,
    ) -> Result<Decision, HostFault>
        requires { terminal < length (setup_of (entries_of self.old)).terminals }
        ensures told { IfOk result (λ decision. decided decision ≡ answer_cancel_request (log (entries_of self.old) terminal) number amount) }
        ensures sound { IfOk result (λ decision. IsSound (entries_of self.old) decision) }
        ensures reads { Reads self.old self.new (fault_of result) }
        ensures entries { entries_of self.new ≡ entries_of self.old }
        ensures fetched { fetched_of self.new ≤ fetched_of self.old + 1 }
    {
        let captured = self.is_captured(terminal, number, amount.hundredths())?;
        Ok(self.tells(cancel_answer(self.alloc, captured)))
    }

    // A message on one sale of the terminal at this place.
    fn decide_sale(
        &mut self,
        terminal: u8,
        number: u64,
        body: &SaleBody,
    ) -> Result<Decision, HostFault>
        requires { terminal < length (setup_of (entries_of self.old)).terminals }
        ensures told { IfOk result (λ decision. decided decision ≡ answer_of (entries_of self.old) terminal number (Of_sale body.now)) }
        ensures sound { IfOk result (λ decision. IsSound (entries_of self.old) decision) }
        ensures reads { Reads self.old self.new (fault_of result) }
        ensures entries { entries_of self.new ≡ entries_of self.old }
        ensures fetched { fetched_of self.new ≤ fetched_of self.old + 1 }
    {
        self.idle();
        match body {
            SaleBody::AuthRequest { amount, account } => Ok(self.tells(decide(
                self.alloc,
                self.setup(),
                number,
                *amount,
                account,
            ))),
            SaleBody::CancelRequest { amount } => self.decide_cancel(terminal, number, *amount),
            SaleBody::Completion(ended) => self.advise(terminal, number, &item_of(ended)),
            SaleBody::CancelAdvice { n, amount } => {
                self.advise(terminal, number, &cancellation(*n, *amount))
            }
            _ => Ok(self.tells(quiet(self.alloc))),
        }
    }

    // A message on a period or a batch of the terminal at this place, or a question.
    fn decide_rows(
        &mut self,
        terminal: u8,
        number: u64,
        body: &BatchBody,
    ) -> Result<Decision, HostFault>
        requires { terminal < length (setup_of (entries_of self.old)).terminals }
        ensures told { IfOk result (λ decision. decided decision ≡ answer_of (entries_of self.old) terminal number (Of_batch body.now)) }
        ensures sound { IfOk result (λ decision. IsSound (entries_of self.old) decision) }
        ensures reads { Reads self.old self.new (fault_of result) }
        ensures entries { entries_of self.new ≡ entries_of self.old }
        ensures fetched { fetched_of self.new ≤ fetched_of self.old + readings (Of_batch body.now) }
    {
        self.idle();
        match body {
            BatchBody::Diagnostic { .. } => {
                Ok(self.tells(tell_state(self.alloc, self.log_len(terminal))))
            }
            BatchBody::Reconcile { period, totals } => {
                let item = Item::Close {
                    p: *period,
                    totals: *totals,
                };
                self.advise(terminal, number, &item)
            }
            BatchBody::Batch(items) => self.advise_many(terminal, number, items.as_slice()),
            _ => Ok(self.tells(quiet(self.alloc))),
        }
    }

    // A status report.
    fn decide_status(
        &self,
        wanted: DataSet,
        in_force: u64,
        staged: u64,
        parts: u64,
    ) -> Result<Decision, HostFault>
        ensures told { IfOk result (λ decision. decided decision ≡ answer_data (answer_status (published (entries_of self.now)) (setup_of (entries_of self.now)).start (setup_of (entries_of self.now)).poll wanted in_force staged parts)) }
        ensures sound { IfOk result (λ decision. IsSound (entries_of self.now) decision) }
        ensures memory { IfErr result (λ fault. fault ≡ Memory) }
    {
        let plan = plan_setup(self.setup());
        let reply = answer_status(
            self.alloc, &self.sets, &plan, wanted, in_force, staged, parts,
        )?;
        Ok(self.tells(given(self.alloc, reply)))
    }

    // A message of terminal management.
    fn decide_management(
        &self,
        terminal: u8,
        number: u64,
        body: &MgmtBody,
    ) -> Result<Decision, HostFault>
        ensures told { IfOk result (λ decision. decided decision ≡ answer_of (entries_of self.now) terminal number (Of_management body.now)) }
        ensures sound { IfOk result (λ decision. IsSound (entries_of self.now) decision) }
        ensures memory { IfErr result (λ fault. fault ≡ Memory) }
    {
        match body {
            MgmtBody::Status {
                wanted,
                in_force,
                staged,
                parts,
            } => self.decide_status(*wanted, *in_force, *staged, *parts),
            _ => Ok(self.tells(quiet(self.alloc))),
        }
    }

    // A message of the terminal at this place, to this host.
    fn decide_at(&mut self, terminal: u8, number: u64, body: &Body) -> Result<Decision, HostFault>
        requires { terminal < length (setup_of (entries_of self.old)).terminals }
        ensures told { IfOk result (λ decision. decided decision ≡ answer_of (entries_of self.old) terminal number body.now) }
        ensures sound { IfOk result (λ decision. IsSound (entries_of self.old) decision) }
        ensures reads { Reads self.old self.new (fault_of result) }
        ensures entries { entries_of self.new ≡ entries_of self.old }
        ensures fetched { fetched_of self.new ≤ fetched_of self.old + readings body.now }
    {
        self.idle();
        match body {
            Body::Sale(body) => self.decide_sale(terminal, number, body),
            Body::Batch(body) => self.decide_rows(terminal, number, body),
            Body::Management(body) => match self.decide_management(terminal, number, body) {
                Ok(decision) => Ok(decision),
                Err(_) => Err(HostFault::Memory),
            },
        }
    }

    // A message to this host.
    fn decide_sent(&mut self, message: &Message) -> Result<Decision, HostFault>
        ensures told { IfOk result (λ decision. decided decision ≡ answer_from (entries_of self.old) (place_of (entries_of self.old) message.now.header.from) message.now.header.exchange message.now.body) }
        ensures sound { IfOk result (λ decision. IsSound (entries_of self.old) decision) }
        ensures reads { Reads self.old self.new (fault_of result) }
        ensures entries { entries_of self.new ≡ entries_of self.old }
        ensures fetched { fetched_of self.new ≤ fetched_of self.old + readings message.now.body }
    {
        self.idle();
        match self.place_of(&message.header.from) {
            Some(terminal) => self.decide_at(terminal, message.header.exchange, &message.body),
            None => Ok(self.tells(rejected(self.alloc, &message.body, Reason::Intp))),
        }
    }

    // A message of anyone, to anyone.
    pub(crate) fn decide_message(&mut self, message: &Message) -> Result<Decision, HostFault>
        ensures told { IfOk result (λ decision. decided decision ≡ answer_received (entries_of self.old) (Read message.now)) }
        ensures sound { IfOk result (λ decision. IsSound (entries_of self.old) decision) }
        ensures reads { Reads self.old self.new (fault_of result) }
        ensures entries { entries_of self.new ≡ entries_of self.old }
        ensures fetched { fetched_of self.new ≤ fetched_of self.old + readings message.now.body }
    {
        self.idle();
        if needs_no_answer(&message.body) {
            return Ok(self.tells(quiet(self.alloc)));
        }
        if is_of_host(&message.body) {
            return Ok(self.tells(rejected(self.alloc, &message.body, Reason::Msgt)));
        }
        if message.header.to != self.setup().host() {
            return Ok(self.tells(rejected(self.alloc, &message.body, Reason::Rcpp)));
        }
        self.decide_sent(message)
    }
}
