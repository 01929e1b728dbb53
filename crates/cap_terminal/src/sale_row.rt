use cap_base::{Account, Amount};

/// What became of a sale.
#[derive(Clone, Copy, Debug, PartialEq, Eq)]
pub(crate) enum Stage {
    Pending,
    Declined,
    Completed,
    Voided,
    Cancelled,
}

/// What is kept of a sale.
#[derive(Clone, Copy)]
pub(crate) struct SaleRow {
    pub amount: Amount,
    pub account: Account,
    pub stage: Stage,
}
