ghost use Rattle.std.specs.Prelude.{◌≡◌};
ghost use Rattle.cap_terminal.specs.declared.faults.BeginFault.TheVariants.{Memory as NoMemory};
ghost use Rattle.cap_terminal.specs.declared.faults.CloseFault.TheVariants.{Memory as NoPeriodMemory};
ghost use Rattle.cap_terminal.specs.declared.faults.TermOpenCause.TheVariants.{Memory as NoOpenMemory};

use cap_base::Memory;

/// Why no sale was begun.
#[derive(Clone, Copy, Debug, PartialEq, Eq)]
pub enum BeginFault {
    /// The disk failed before, and the terminal must be opened again.
    Failed,
    /// As many sales were begun as the set-up allows, which is this many.
    SaleLimit(u64),
    /// Memory ran out.
    Memory,
    /// The disk failed; the entry may or may not stand.
    Disk,
}

impl From<Memory> for BeginFault {
    ghost from_gives = { λ _ e. e ≡ NoMemory };

    fn from(_: Memory) -> Self {
        BeginFault::Memory
    }
}

/// Why the end of a sale was not added.
#[derive(Clone, Copy, Debug, PartialEq, Eq)]
pub enum EntryFault {
    /// The disk failed; the entry may or may not stand.
    Disk,
    /// The disk failed before, and the terminal must be opened again.
    Failed,
}

/// Why a sale was not cancelled.
#[derive(Clone, Copy, Debug, PartialEq, Eq)]
pub enum CancelFault {
    /// The disk failed before, and the terminal must be opened again.
    Failed,
    /// No sale with this number was begun.
    NoSale(u64),
    /// This sale was not completed.
    NotCompleted(u64),
    /// This sale is cancelled already.
    AlreadyCancelled(u64),
    /// The disk failed; the entry may or may not stand.
    Disk,
}

/// Why a period was not closed.
#[derive(Clone, Copy, Debug, PartialEq, Eq)]
pub enum CloseFault {
    /// The disk failed before, and the terminal must be opened again.
    Failed,
    /// 250,000 periods were closed.
    PeriodLimit,
    /// Memory ran out.
    Memory,
    /// The disk failed; the entry may or may not stand.
    Disk,
}

impl From<Memory> for CloseFault {
    ghost from_gives = { λ _ e. e ≡ NoPeriodMemory };

    fn from(_: Memory) -> Self {
        CloseFault::Memory
    }
}

/// Why a cancellation may not be asked for.
#[derive(Clone, Copy, Debug, PartialEq, Eq)]
pub enum AskFault {
    /// No sale with this number was begun.
    NoSale(u64),
    /// This sale was not completed.
    NotCompleted(u64),
    /// This sale is cancelled already.
    AlreadyCancelled(u64),
}

/// Why a terminal was not opened.
#[derive(Clone, Copy, Debug, PartialEq, Eq)]
pub enum TermOpenCause {
    /// This entry, counted from 0, is the first that is not allowed after those before it; of an empty journal it is entry 0.
    NotAllowed(u64),
    /// The disk failed.
    Disk,
    /// Memory ran out.
    Memory,
}

impl From<Memory> for TermOpenCause {
    ghost from_gives = { λ _ e. e ≡ NoOpenMemory };

    fn from(_: Memory) -> Self {
        TermOpenCause::Memory
    }
}

/// A journal over which no terminal was opened, and why.
#[derive(Drop)]
pub struct TermOpenError<J> {
    pub back: J,
    pub cause: TermOpenCause,
}
