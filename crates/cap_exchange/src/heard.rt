/// Why an exchange has no answer.
#[derive(Clone, Copy, Debug, PartialEq, Eq)]
pub enum NoAnswer {
    /// The connection was not opened.
    Port,
    /// There are no more connections.
    Connection,
    /// Bytes were not put, or not taken.
    Line,
    /// The connection ended before a whole frame.
    Early,
    /// The frame states a length that none has.
    BadLength(u64),
}
