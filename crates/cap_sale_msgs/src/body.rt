use cap_base::{Account, Amount, Code6, Response};

/// How a sale ended, as a completion advice reports it.
#[derive(Clone, Copy, Debug, PartialEq, Eq)]
pub enum Ended {
    /// It was completed.
    Sale {
        n: u64,
        amount: Amount,
        account: Account,
        code: Code6,
    },
    /// It was given up.
    Void {
        n: u64,
    },
}

/// The body of a message on one sale.
#[derive(Clone, Copy, Debug, PartialEq, Eq)]
pub enum SaleBody {
    /// caaa.001: a terminal asks for approval of a sale.
    AuthRequest { amount: Amount, account: Account },
    /// caaa.002: the host's decision.
    AuthAnswer { response: Response, code: Code6 },
    /// caaa.003: a sale ended.
    Completion(Ended),
    /// caaa.004: the answer to that advice.
    CompletionAnswer { response: Response },
    /// caaa.005: a terminal asks whether a sale may be cancelled.
    CancelRequest { amount: Amount },
    /// caaa.006: the host's decision.
    CancelAnswer { response: Response },
    /// caaa.007: a sale was cancelled.
    CancelAdvice { n: u64, amount: Amount },
    /// caaa.008: the answer to that advice.
    CancelAdviceAnswer { response: Response },
}
