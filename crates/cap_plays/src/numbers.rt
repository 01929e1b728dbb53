/// The numbers of a terminal's line in a report.
#[derive(Clone, Copy)]
pub struct TerminalNumbers {
    /// Sales that were begun, with or without an end.
    pub sales: u64,
    /// Sales that were completed, also those cancelled later.
    pub completed: u64,
    pub cancelled: u64,
    pub voided: u64,
    /// Periods that were closed.
    pub periods: u64,
    pub items: u64,
    /// The last item that the host acknowledged, or 0.
    pub acked: u64,
    /// The version of the parameter set in force, or 0.
    pub version: u64,
}
