/// The answer to an advice, a request or a batch.
#[derive(Clone, Copy, Debug, PartialEq, Eq)]
pub enum Response {
    /// Approved: `APPR`.
    Appr,
    /// Declined: `DECL`.
    Decl,
    /// Approved in part: `PART`.
    Part,
    /// Technical problem: `TECH`.
    Tech,
}

/// Why a message is rejected.
#[derive(Clone, Copy, Debug, PartialEq, Eq)]
pub enum Reason {
    /// Unable to process: `UNPR`.
    Unpr,
    /// Invalid message: `IMSG`.
    Imsg,
    /// Parsing error: `PARS`.
    Pars,
    /// Security error: `SECU`.
    Secu,
    /// Unknown initiating party: `INTP`.
    Intp,
    /// Unknown recipient party: `RCPP`.
    Rcpp,
    /// Duplicate message with another content: `DPMG`.
    Dpmg,
    /// Unsupported version: `VERS`.
    Vers,
    /// Unsupported message type: `MSGT`.
    Msgt,
}

/// A set of data of terminal management.
#[derive(Clone, Copy, Debug, PartialEq, Eq)]
pub enum DataSet {
    /// Acquirer parameters: `AQPR`.
    Aqpr,
    /// Management plan: `MGTP`.
    Mgtp,
    /// Status report: `STRP`.
    Strp,
}

/// What a planned action does.
#[derive(Clone, Copy, Debug, PartialEq, Eq)]
pub enum PlanAct {
    /// Download: `DWNL`.
    Dwnl,
    /// Upload: `UPLD`.
    Upld,
}
