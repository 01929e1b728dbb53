use cap_leaf::Fault;

/// Why bytes were not read.
#[derive(Clone, Copy, Debug, PartialEq, Eq)]
pub enum ReadError {
    /// They are no document: their first fault.
    Fault(Fault),
    Memory,
}
