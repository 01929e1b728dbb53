ghost use Rattle.std.specs.Prelude.{◌≡◌, ◌≤◌, ◌<◌, ◌∷◌, [], true, false, IfOk, IfErr, OnOk, length, bytes_eq, ◌&&◌};
ghost use Rattle.cap_entries.specs.Allowed.{part_allowed};
ghost use Rattle.cap_entries.specs.Items.{items};
ghost use Rattle.cap_entries.specs.Acked.{acked};
ghost use Rattle.cap_entries.specs.RecordField.{is_count};
ghost use Rattle.cap_entries.specs.declared.terminal.TermEntry.TheVariants.{Acked, Part};
ghost use Rattle.cap_msgs.specs.declared.message.Body.TheVariants.{Management as Of_management};
ghost use Rattle.cap_msgs.specs.Ranges.{is_message};
ghost use Rattle.cap_msgs.specs.Received.{Read};
ghost use Rattle.cap_msgs.specs.Reply.{reply_of};
ghost use Rattle.cap_terminal_answers.specs.Takes.{take_reply, is_for_us, takes};
ghost use Rattle.cap_terminal_answers.specs.Plain.{queue_view, IsTakenFine};
ghost use Rattle.cap_terminal.specs.Adding.{Adds, Stays, ending, take_as};
ghost use Rattle.cap_terminal.specs.Causes.{IsAnswered, IsTakenCause};
ghost use Rattle.cap_terminal.specs.Handles.{Handles, HandlesBytes, HandlesMessage};

use crate::add::{RoomFault, reserve_and_add, reserve_rows_and_add};
use crate::terminal::Terminal;
use cap_base::{ConfigPart, Memory};
use cap_entries::{TermEntry, TermSetup};
use cap_journal::Journal;
use cap_mgmt_msgs::MgmtBody;
use cap_msgs::{Body, DecodeError, Message, decode, reading_is_exact};
use cap_terminal_answers::{
    Handled, QueueView, Taking, TermFault, allows, refused, take_batch, take_config, take_plan,
    take_sale,
};

// Whether a message is from a set-up's host and to its terminal.
fn is_between(message: &Message, setup: &TermSetup) -> bool
    ensures { result ≡ (bytes_eq message.now.header.to setup.now.terminal && bytes_eq message.now.header.from setup.now.host) }
{
    message.header.to == setup.terminal() && message.header.from == setup.host()
}

impl<J: Journal<TermEntry>> Terminal<J> {
    // What is to be known of the queue.
    fn queue(&self) -> QueueView
        ensures { result ≡ queue_view (J.entries self.now) }
    {
        QueueView {
            acked: self.acked(),
            len: self.items_len(),
            head: self.head_item(),
        }
    }

    // Whether a message is from the terminal's host and to it.
    fn is_ours(&self, message: &Message) -> bool
        ensures { result ≡ is_for_us (J.entries self.now) message.now }
    {
        is_between(message, &self.setup)
    }

    // Whether a part of a parameter set may be added.
    fn may_add(&self, part: &ConfigPart) -> bool
        ensures { result ≡ part_allowed (J.entries self.now) part.now }
    {
        allows(self.index.sets.in_force, self.index.sets.staged, part)
    }

    // What the terminal makes of a message of terminal management.
    fn taking_management(&self, number: u64, body: &MgmtBody) -> Result<Taking, Memory>
        ensures { IfOk result (λ t. t ≡ take_reply (J.entries self.now) number (reply_of (Of_management body.now))) }
    {
        match body {
            MgmtBody::ManagementRejection(refusal) => {
                Ok(refused(TermFault::Rejected(refusal.reason)))
            }
            MgmtBody::Plan(actions) => take_plan(actions),
            MgmtBody::Part(part) => take_config(self.may_add(part), part),
            MgmtBody::Status { .. } => Ok(refused(TermFault::NotAwaited)),
        }
    }

    // What the terminal makes of a message of anyone, to anyone.
    fn taking(&self, message: &Message) -> Result<Taking, Memory>
        ensures { IfOk result (λ t. t ≡ takes (J.entries self.now) (Read message.now)) }
    {
        if !self.is_ours(message) {
            return Ok(refused(TermFault::NotForUs));
        }
        let number = message.header.exchange;
        match &message.body {
            Body::Sale(body) => Ok(take_sale(&self.queue(), number, body)),
            Body::Batch(body) => Ok(take_batch(&self.queue(), number, body)),
            Body::Management(body) => self.taking_management(number, body),
        }
    }

    // The same. What is to be added may be, and the answer is no fault of the disk or of memory.
    fn fine_taking(&self, message: &Message) -> Result<Taking, Memory>
        requires { is_message message.now ≡ true }
        ensures takes { IfOk result (λ t. t ≡ takes (J.entries self.now) (Read message.now)) }
        ensures fine { IfOk result (λ t. IsTakenFine (J.entries self.now) t.added × IsAnswered t.added t.answer) }
    {
        self.taking(message)
    }

    // Adds an acknowledgement of the items up to m.
    fn add_acked(&mut self, m: u64) -> Result<(), TermFault>
        requires above { acked (J.entries self.old) < m }
        requires within { m ≤ length (items (J.entries self.old)) }
        ensures adds { Adds J.Journal self.old self.new (Acked m ∷ []) (ending take_as result) }
        ensures answers { OnOk result (J.has_failed self.old ≡ false) }
        ensures refused { IfErr result (IsTakenCause (J.has_failed self.old)) }
        ensures fetched { J.fetched self.new ≡ J.fetched self.old }
    {
        if self.failed {
            return Err(TermFault::Failed);
        }
        match reserve_and_add(
            &mut self.journal,
            &mut self.index,
            &mut self.failed,
            1,
            TermEntry::Acked { m },
        ) {
            Ok(()) => {}
            Err(RoomFault::Memory) => return Err(TermFault::Memory),
            Err(RoomFault::Disk) => return Err(TermFault::Disk),
        }
        Ok(())
    }

    // Adds a part of a parameter set.
    fn add_part(&mut self, part: ConfigPart) -> Result<(), TermFault>
        requires allowed { part_allowed (J.entries self.old) part ≡ true }
        requires version { is_count part.version ≡ true }
        ensures adds { Adds J.Journal self.old self.new (Part part ∷ []) (ending take_as result) }
        ensures answers { OnOk result (J.has_failed self.old ≡ false) }
        ensures refused { IfErr result (IsTakenCause (J.has_failed self.old)) }
        ensures fetched { J.fetched self.new ≡ J.fetched self.old }
    {
        if self.failed {
            return Err(TermFault::Failed);
        }
        match reserve_rows_and_add(&mut self.journal, &mut self.index, &mut self.failed, part) {
            Ok(()) => {}
            Err(RoomFault::Memory) => return Err(TermFault::Memory),
            Err(RoomFault::Disk) => return Err(TermFault::Disk),
        }
        Ok(())
    }

    // Adds an acknowledgement or a part.
    fn add_taken(&mut self, entry: TermEntry) -> Result<(), TermFault>
        requires { IsTakenFine (J.entries self.old) (entry ∷ []) }
        ensures adds { Adds J.Journal self.old self.new (entry ∷ []) (ending take_as result) }
        ensures answers { OnOk result (J.has_failed self.old ≡ false) }
        ensures refused { IfErr result (IsTakenCause (J.has_failed self.old)) }
        ensures fetched { J.fetched self.new ≡ J.fetched self.old }
    {
        match entry {
            TermEntry::Acked { m } => self.add_acked(m),
            TermEntry::Part(part) => self.add_part(part),
            _ => unreachable!(),
        }
    }

    // Adds what is to be added, and answers.
    fn follow(&mut self, taking: Taking) -> Result<Handled, TermFault>
        requires fine { IsTakenFine (J.entries self.old) taking.added }
        requires answered { IsAnswered taking.added taking.answer }
        ensures handles { Handles J.Journal self.old self.new result taking }
        ensures fetched { J.fetched self.new ≡ J.fetched self.old }
    {
        let Taking { added, answer } = taking;
        match added {
            None => answer,
            Some(entry) => match answer {
                Ok(handled) => match self.add_taken(entry) {
                    Ok(()) => Ok(handled),
                    Err(fault) => Err(fault),
                },
                Err(_) => unreachable!(),
            },
        }
    }

    /// Takes a message of anyone, to anyone, whose numbers fit their digits. Where it adds an entry, `Failed` comes exactly after an earlier
    /// `Disk`, and `Memory` or `Disk` may come; each other refusal comes exactly as `takes` says.
    pub fn handle_message(&mut self, message: &Message) -> Result<Handled, TermFault>
        requires range { is_message message.now ≡ true }
        ensures handles { HandlesMessage J.Journal self.old self.new message.now result }
        ensures fetched { J.fetched self.new ≡ J.fetched self.old }
    {
        match self.fine_taking(message) {
            Ok(taking) => self.follow(taking),
            Err(_) => Err(TermFault::Memory),
        }
    }

    /// Takes bytes of anyone, to anyone, as what they read as. Where they add an entry, `Failed` comes exactly after an earlier `Disk`, and
    /// `Memory` or `Disk` may come; each other refusal comes exactly as `takes` says. `Memory` may also come from reading.
    pub fn handle(&mut self, bytes: &[u8]) -> Result<Handled, TermFault>
        ensures takes { HandlesBytes J.Journal self.old self.new bytes.now result }
        ensures stays { Stays J.Journal self.old self.new (ending take_as result) }
        ensures fetched { J.fetched self.new ≡ J.fetched self.old }
    {
        reading_is_exact();
        match decode(self.alloc, bytes) {
            Ok(message) => self.handle_message(&message),
            Err(DecodeError::Fault(fault)) => Err(TermFault::Unread(fault)),
            Err(DecodeError::Memory) => Err(TermFault::Memory),
        }
    }
}
