use cap_base::{Account, Amount};

/// A line of a till. Sales are named by their numbers.
#[derive(Clone, Copy, Debug, PartialEq, Eq)]
pub enum TillLine {
    Sale { amount: Amount, account: Account },
    Void(u64),
    Cancel(u64),
    /// Asks the host whether a sale may be cancelled.
    AskCancel(u64),
    /// Closes the period that is open.
    Close,
    /// Sends what waits.
    Flush,
    Diagnose,
    /// Fetches what there is of the newest parameter set.
    Config,
    /// Fetches the plan.
    Plan,
    /// Tells the terminal's numbers.
    Status,
}
