use cap_base::{Reason, Response, Totals};
use cap_leaf::Fault;
use cap_mgmt_msgs::Actions;
use cap_sale::AuthResponse;

/// What a message of the host was to a terminal.
#[derive(Debug, Drop)]
pub enum Handled {
    /// The decision on a sale.
    Authorisation(AuthResponse),
    /// The decision whether sale n may be cancelled.
    CancelAnswer { n: u64, response: Response },
    /// The host has so many items.
    Diagnosed(u64),
    /// The plan of management.
    Plan(Actions),
    /// A part of a parameter set, which was added.
    Part { version: u64, part: u64, parts: u64 },
    /// The host has the items up to this one.
    Acked(u64),
    /// The host has the items up to m, a closing, and these are its totals of that period; whether they are the terminal's.
    Reconciled { m: u64, totals: Totals, agree: bool },
}

/// Why a terminal didn't take what it got.
#[derive(Clone, Copy, Debug, PartialEq, Eq)]
pub enum TermFault {
    /// It is no document; this is its first fault.
    Unread(Fault),
    /// It is to another party, or from another one than the host.
    NotForUs,
    /// It rejects a message of the terminal, for this reason.
    Rejected(Reason),
    /// It is no answer that the terminal waits for.
    NotAwaited,
    /// It acknowledges the items up to m, which were acknowledged before, up to `acked`.
    Stale { m: u64, acked: u64 },
    /// It acknowledges the items up to m, and there are only `len`.
    Beyond { m: u64, len: u64 },
    /// The disk failed; the entry may or may not stand.
    Disk,
    /// The disk failed before, and the terminal must be opened again.
    Failed,
    /// Memory ran out.
    Memory,
}
