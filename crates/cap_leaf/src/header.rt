use crate::date::DateTime;
use cap_base::{Ident, Reason};

/// What every message has: the exchange that it belongs to, how often it was repeated (0 to 999, where that is told), when it was made,
/// and its parties.
#[derive(Clone, Copy, Debug, PartialEq, Eq)]
pub struct Header {
    pub exchange: u64,
    pub repeat: Option<u16>,
    pub created: DateTime,
    pub from: Ident,
    pub to: Ident,
}

/// Why a message was rejected, with the number of the item that was expected and the place of the fault, where these are told.
#[derive(Clone, Copy, Debug, PartialEq, Eq)]
pub struct Refused {
    pub reason: Reason,
    pub expected: Option<u64>,
    pub place: Option<u64>,
}
