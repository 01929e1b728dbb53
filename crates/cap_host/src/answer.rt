// What a host answers to bytes.
ghost use Rattle.std.specs.Prelude.{◌≡◌, ◌<◌, ◌≤◌, ◌+◌, false, map, Some, List, length, IfOk, IfErr};
ghost use Rattle.cap_msgs.specs.Received.{Received, Read, Unread};
ghost use Rattle.cap_msgs.specs.Reads.{Reads as Reads_as};
ghost use Rattle.cap_entries.specs.declared.host.HostEntry.TheVariants.{Took};
ghost use Rattle.cap_answering.specs.declared.fault.HostFault.TheVariants.{Memory};
ghost use Rattle.cap_host_answers.specs.Received.{number_of, name_or, sender_of, answer_received};
ghost use Rattle.cap_host.specs.Decision.{decided, IsSound, MayTake};
ghost use Rattle.cap_host.specs.Reply.{IsReply};
ghost use Rattle.cap_host.specs.Host.{entries_of, fetched_of, fault_of, Adds};
ghost use Rattle.cap_host.specs.Answers.{Answers};

use crate::decision::Decision;
use crate::host::Host;
use cap_answering::{HostFault, Reply};
use cap_base::{Ident, Item};
use cap_entries::HostEntry;
use cap_host_answers::answer_fault;
use cap_journal::Journal;
use cap_leaf::Fault;
use cap_msgs::{Body, DecodeError, Message, decode};

// The name of a sender, where none was told too.
fn name(told: Option<Ident>) -> Ident
    ensures { result ≡ name_or told }
{
    match told {
        Some(name) => name,
        None => match Ident::read(b"UNKNOWN") {
            Some(name) => name,
            None => unreachable!(),
        },
    }
}

impl<J: Journal<HostEntry> + Drop> Host<J> {
    // A reply alone.
    fn say(
        &self,
        moment: u64,
        number: u64,
        to: &Ident,
        reply: Option<Body>,
    ) -> Result<Reply, HostFault>
        requires { moment ≤ 253402300799 }
        ensures told { (received : Received) → number ≡ number_of received → to.now ≡ name_or (sender_of received) → IfOk result (λ given. IsReply (entries_of self.now) moment received reply given) }
        ensures memory { IfErr result (λ fault. fault ≡ Memory) }
    {
        match reply {
            Some(body) => {
                let text = self.written(moment, number, to, body)?;
                Ok(Reply::Bytes(text))
            }
            None => Ok(Reply::Silent),
        }
    }

    // Items that are taken, and the reply. Its text is made before anything is added.
    fn take(
        &mut self,
        moment: u64,
        number: u64,
        to: &Ident,
        terminal: u8,
        items: &[Item],
        body: Body,
    ) -> Result<Reply, HostFault>
        requires moment { moment ≤ 253402300799 }
        requires may { MayTake (entries_of self.old) terminal items.now }
        ensures told { (received : Received) → number ≡ number_of received → to.now ≡ name_or (sender_of received) → IfOk result (λ given. IsReply (entries_of self.old) moment received (Some body) given) }
        ensures adds { Adds self.old self.new (map (Took terminal) items.now) (fault_of result) }
        ensures fetched { fetched_of self.new ≡ fetched_of self.old }
    {
        self.idle();
        if self.ledger.has_failed() {
            return Err(self.refuse());
        }
        let text = self.written(moment, number, to, body)?;
        self.add_items(terminal, items)?;
        Ok(Reply::Bytes(text))
    }

    // Does what was decided.
    fn carry_out(
        &mut self,
        moment: u64,
        number: u64,
        to: &Ident,
        decision: Decision,
    ) -> Result<Reply, HostFault>
        requires moment { moment ≤ 253402300799 }
        requires sound { IsSound (entries_of self.old) decision }
        ensures told { (received : Received) → number ≡ number_of received → to.now ≡ name_or (sender_of received) → IfOk result (λ given. IsReply (entries_of self.old) moment received (decided decision).reply given) }
        ensures adds { Adds self.old self.new (decided decision).added (fault_of result) }
        ensures fetched { fetched_of self.new ≡ fetched_of self.old }
    {
        self.idle();
        match decision {
            Decision::Tells(reply) => match self.say(moment, number, to, reply) {
                Ok(given) => Ok(given),
                Err(_) => Err(HostFault::Memory),
            },
            Decision::Takes {
                terminal,
                items,
                body,
            } => self.take(moment, number, to, terminal, &items, body),
        }
    }

    // The answer to a message.
    fn answer_message(&mut self, moment: u64, message: &Message) -> Result<Reply, HostFault>
        requires { moment ≤ 253402300799 }
        ensures { Answers self.old self.new moment (Read message.now) result }
    {
        let decision = self.decide_message(message)?;
        self.carry_out(
            moment,
            message.header.exchange,
            &message.header.from,
            decision,
        )
    }

    // The answer to what is no document.
    fn answer_unread(&mut self, moment: u64, fault: &Fault) -> Result<Reply, HostFault>
        requires { moment ≤ 253402300799 }
        ensures { Answers self.old self.new moment (Unread fault.now) result }
    {
        let decision = self.tells(answer_fault(self.alloc, fault));
        self.carry_out(moment, fault.exchange, &name(fault.from), decision)
    }

    /// Answers whatever arrives at this moment, in seconds since 1970, at most the end of the year 9999: adds what the rules of a host's answers
    /// say, as one group, and gives the reply. Where bytes read as a message or as a fault, the answer is exactly that of it.
    ///
    /// `Disk` comes where a call of the journal's disk failed: all that was to be added stands, or nothing of it. `Failed` comes exactly where
    /// something is to be added and an earlier call answered `Disk`. After `Memory` the journal is as before.
    pub fn answer(&mut self, bytes: &[u8], moment: u64) -> Result<Reply, HostFault>
        requires { moment ≤ 253402300799 }
        ensures { (received : Received) → Reads_as bytes.now received → Answers self.old self.new moment received result }
    {
        self.idle();
        cap_msgs::reading_is_exact();
        match decode(self.alloc, bytes) {
            Ok(message) => self.answer_message(moment, &message),
            Err(DecodeError::Fault(fault)) => self.answer_unread(moment, &fault),
            Err(DecodeError::Memory) => Err(HostFault::Memory),
        }
    }
}
