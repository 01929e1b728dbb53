// How a connection ends.

/// Why a connection is served no longer.
#[derive(Clone, Copy, Debug, PartialEq, Eq)]
pub enum Closing {
    End,
    /// Taking or putting failed.
    Fault,
    BadLength(u64),
    Disk,
    FrameLimit,
    Memory,
}

/// The frames of a connection that were answered, and the replies that were put.
#[derive(Clone, Copy, Debug, PartialEq, Eq)]
pub struct Tally {
    pub frames: u64,
    pub replies: u64,
}
