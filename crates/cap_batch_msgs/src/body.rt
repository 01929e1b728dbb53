use crate::items::Items;
use cap_base::{Response, Totals};
use cap_leaf::Refused;

/// The body of a message on periods or batches, of a diagnostic message, or of a rejection.
#[derive(Clone, Debug, Drop)]
pub enum BatchBody {
    /// caaa.009: a period was closed, with these totals.
    Reconcile {
        period: u64,
        totals: Totals,
    },
    /// caaa.010: the host's totals of that period.
    ReconcileAnswer {
        response: Response,
        period: u64,
        totals: Totals,
    },
    /// caaa.011: items in a row.
    Batch(Items),
    /// caaa.012: how far the host has them.
    BatchAnswer {
        response: Response,
        last: u64,
    },
    /// caaa.013: a terminal tells the last item that was acknowledged.
    Diagnostic {
        last: u64,
    },
    /// caaa.014: the host tells how many items it has.
    DiagnosticAnswer {
        response: Response,
        last: u64,
    },
    /// caaa.015: a message was rejected.
    Rejection(Refused),
}
