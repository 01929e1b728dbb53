use cap_base::Amount;

/// How a sale number stands in a log.
#[derive(Clone, Copy, Debug, PartialEq, Eq)]
pub enum SaleEnd {
    /// No Sale and no Void has it.
    Free,
    /// A Void has it.
    Voided,
    /// A Sale of this amount has it, and no Cancel.
    Sold { amount: Amount },
    /// A Sale of this amount has it, and a Cancel.
    Cancelled { amount: Amount },
}
