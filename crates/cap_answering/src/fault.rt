ghost use Rattle.std.specs.Prelude.{◌≡◌};
ghost use Rattle.cap_answering.specs.declared.fault.HostFault.TheVariants.{Memory as NoMemory};

use cap_base::Memory;
use std::alloc::{AllocError, AllocFailed};

/// Why an end does not answer.
#[derive(Clone, Copy, Debug, PartialEq, Eq)]
pub enum HostFault {
    /// A call of the journal's disk failed. What was to be added stands or not: the end has to be opened again.
    Disk,
    /// An earlier call since the end was opened answered `Disk`, and this one would add an entry.
    Failed,
    Memory,
}

impl From<Memory> for HostFault {
    ghost from_gives = { λ _ e. e ≡ NoMemory };

    fn from(_: Memory) -> Self {
        HostFault::Memory
    }
}

impl From<AllocError> for HostFault {
    ghost from_gives = { λ _ e. e ≡ NoMemory };

    fn from(_: AllocError) -> Self {
        HostFault::Memory
    }
}

impl<T: Drop> From<AllocFailed<T>> for HostFault {
    ghost from_gives = { λ _ e. e ≡ NoMemory };

    fn from(_: AllocFailed<T>) -> Self {
        HostFault::Memory
    }
}

/// Why an end was not opened again.
#[derive(Clone, Copy, Debug, PartialEq, Eq)]
pub enum ReopenFault {
    /// A call of the disk failed.
    Disk,
    /// The file has no bytes.
    NotFormatted,
    /// The group behind the open gate at this place isn't whole.
    Damaged(u64),
    /// The entry with this number, counted from 0, is the first that is not allowed, or the journal is empty and it is 0.
    NotAllowed(u64),
    Memory,
}
