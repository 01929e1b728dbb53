use cap_leaf::Fault;

/// Why bytes were not read as a message.
#[derive(Clone, Copy, Debug, PartialEq, Eq)]
pub enum DecodeError {
    /// They are no document: their first fault.
    Fault(Fault),
    Memory,
}
