/// The messages: acceptor to acquirer `caaa.001` to `caaa.015`, terminal management `catm.001` to `catm.004`.
#[derive(Clone, Copy, Debug, PartialEq, Eq)]
pub enum Kind {
    Caaa001,
    Caaa002,
    Caaa003,
    Caaa004,
    Caaa005,
    Caaa006,
    Caaa007,
    Caaa008,
    Caaa009,
    Caaa010,
    Caaa011,
    Caaa012,
    Caaa013,
    Caaa014,
    Caaa015,
    Catm001,
    Catm002,
    Catm003,
    Catm004,
}

/// A list of codes.
#[derive(Clone, Copy, Debug, PartialEq, Eq)]
pub enum CodeList {
    /// Answers: `APPR`, `DECL`, `PART`, `TECH`.
    Response,
    /// Reasons of a rejection: `UNPR`, `IMSG`, `PARS`, `SECU`, `INTP`, `RCPP`, `DPMG`, `VERS`, `MSGT`.
    Reason,
    /// What a status report may ask for: `AQPR`, `MGTP`.
    Wanted,
    /// Sets of data: `AQPR`, `MGTP`, `STRP`.
    AnySet,
    /// What a planned action does: `DWNL`, `UPLD`.
    Act,
    /// One digit alone, 0 to 9: the version of the protocol.
    Protocol(u8),
    /// The function of a message, one code. A `catm` message has none.
    Function(Kind),
}

/// What a leaf's text may be.
#[derive(Clone, Copy, Debug, PartialEq, Eq)]
pub enum LeafKind {
    /// At most so many digits, 1 to 10.
    Num(u8),
    Amount,
    Sum,
    Ident,
    Account,
    Code6,
    DateTime,
    Code(CodeList),
}
