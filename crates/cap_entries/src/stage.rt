/// How far a sale is that was begun.
#[derive(Clone, Copy, Debug, PartialEq, Eq)]
pub enum Stage {
    Pending,
    Declined,
    Completed,
    Voided,
    Cancelled,
}

/// The part of a parameter set that came last: the set's version, the part's number, and the number of parts.
#[derive(Clone, Copy, Debug, PartialEq, Eq)]
pub struct Staged {
    pub version: u64,
    pub part: u64,
    pub parts: u64,
}
