/// Why a line of an end was not done to its end.
#[derive(Clone, Copy, Debug, PartialEq, Eq)]
pub enum LineFault {
    /// A device call failed.
    Disk,
    /// Memory ran out.
    Memory,
}
