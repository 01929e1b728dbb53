use crate::amount::Amount;
use crate::text::{Account, Code6};

/// Counts and sums of a period. Sums are in hundredths.
#[derive(Clone, Copy, Debug, PartialEq, Eq)]
pub struct Totals {
    pub sales: u64,
    pub sales_sum: u64,
    pub cancels: u64,
    pub cancels_sum: u64,
}

/// What a terminal reports to its host, and the host keeps of it. Sales count from 1, and so do periods.
#[derive(Clone, Copy, Debug, PartialEq, Eq)]
pub enum Item {
    /// Sale n was completed.
    Sale {
        n: u64,
        amount: Amount,
        account: Account,
        code: Code6,
    },
    /// Sale n was given up.
    Void {
        n: u64,
    },
    /// The completed sale n was cancelled.
    Cancel {
        n: u64,
        amount: Amount,
    },
    /// Period p was closed, with its totals.
    Close {
        p: u64,
        totals: Totals,
    },
}
