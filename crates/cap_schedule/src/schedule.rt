ghost use Rattle.cap_schedule.specs.declared.schedule.ScheduleFault.TheVariants.{Memory};
ghost use Rattle.std.specs.Prelude.{◌≡◌};

use cap_base::{Account, Amount, DataSet, Ident};
use cap_disk::Fill;
use cap_entries::{Blocks, HostSetup, RowSet, TermSetup};
use sqlite_items::Items;
use std::alloc::AllocError;
use std::marker::Model;

/// The end at which a line acts: the host, or the terminal at a place, from 0.
#[derive(Clone, Copy)]
pub enum End {
    Host,
    Terminal(u64),
}

/// What may stand before an action. Calls are those of the acting end's disk in the line, but those of `read_at`, from 1.
#[derive(Clone, Copy)]
pub enum Prefix {
    /// The power goes at this call.
    Cut { call: u64, fill: Fill },
    /// This call fails, once.
    Fail { call: u64, fill: Fill },
    /// The power goes when all calls have ended; what would be sent or answered is not.
    CutAfter,
}

/// Bytes of nobody's, as a line of noise has them. Contracts see a list.
#[derive(Drop)]
pub struct Bytes {
    bytes: Vec<u8>,
}

impl Model for Bytes {
    ghost use Rattle.std.specs.Prelude.{ℕ, List};

    ghost Value = { List ℕ };

    ghost view = { λ b. b.bytes.items };
}

impl Bytes {
    /// These bytes.
    pub fn new(bytes: Vec<u8>) -> Bytes
        ensures { result ≡ bytes.items }
    {
        Bytes { bytes }
    }

    /// The bytes.
    pub fn as_slice(&self) -> &[u8]
        ensures { result.now ≡ self.now }
    {
        &self.bytes
    }
}

/// What a line asks of a terminal. Sales, messages and answers are named by their numbers, from 1.
#[derive(Drop)]
pub enum Order {
    /// Begins a sale.
    Begin { amount: Amount, account: Account },
    /// Completes a pending sale offline, within the floor.
    Offline(u64),
    /// Begins a sale, and completes it offline where it is within the floor.
    Sale { amount: Amount, account: Account },
    /// Gives up a pending sale.
    Void(u64),
    /// Cancels a completed sale.
    Cancel(u64),
    /// Closes the period.
    Close,
    /// Sends the first item of the queue.
    Push,
    /// Sends at most so many items of the queue, 1 to 100.
    Batch(u64),
    /// Asks whether a pending sale is approved.
    Ask(u64),
    /// Asks whether a completed sale may be cancelled.
    AskCancel(u64),
    /// Asks how far the host is.
    Diagnose,
    /// Reports its versions, and asks for parameters or the plan.
    Status(DataSet),
    /// Takes an answer of the host.
    Down(u64),
    /// Takes an answer of the host, and gives an approved sale up.
    Walkout(u64),
    /// Takes bytes that are no message of its host's to it.
    Hear(Bytes),
}

/// What a line asks of the host.
#[derive(Drop)]
pub enum HostOrder {
    /// Takes a message that the terminal at a place sent.
    Up { terminal: u64, which: u64 },
    /// Publishes a parameter set.
    Publish(RowSet),
    /// Takes bytes that are no message of its terminals' to it.
    Listen(Bytes),
}

/// What a line asks for.
#[derive(Drop)]
pub enum Action {
    AtTerminal { place: u64, order: Order },
    AtHost(HostOrder),
    /// Opens an end again from its disk.
    Reopen(End),
}

/// An action line: its number, what stands before the action, and the action.
#[derive(Drop)]
pub struct Line {
    pub number: u64,
    pub prefix: Option<Prefix>,
    pub action: Action,
}

/// The host line.
#[derive(Drop)]
pub struct HostLine {
    pub id: Ident,
    pub limit: Amount,
    pub blocked: Blocks,
    /// Minutes between two polls.
    pub poll: u64,
}

/// A whole schedule: how the ends are set up, and the action lines.
#[derive(Drop)]
pub struct Schedule {
    pub host: HostSetup,
    /// In the order of the host's set-up.
    pub terminals: Items<TermSetup>,
    pub lines: Items<Line>,
}

/// A schedule as far as it was read.
#[derive(Drop)]
pub enum Draft {
    Empty,
    /// The host line and terminal lines.
    Hosted {
        host: HostLine,
        terminals: Items<TermSetup>,
    },
    /// Action lines too.
    Acting(Schedule),
}

/// Why no schedule was read.
#[derive(Clone, Copy, Debug, PartialEq, Eq)]
pub enum ScheduleFault {
    /// The first line that isn't in the language.
    Line(u64),
    /// Memory ran out.
    Memory,
}

impl From<AllocError> for ScheduleFault {
    ghost from_gives = { λ _ e. e ≡ Memory };

    fn from(_: AllocError) -> ScheduleFault {
        ScheduleFault::Memory
    }
}
