use cap_base::{Ident, Reason};

/// The first fault of bytes that are no document: its place in bytes, the reason, and what was read before it: the exchange (0 where
/// it wasn't read), the sender, and whether the document is one of terminal management.
#[derive(Clone, Copy, Debug, PartialEq, Eq)]
pub struct Fault {
    pub place: u64,
    pub reason: Reason,
    pub exchange: u64,
    pub from: Option<Ident>,
    pub management: bool,
}
