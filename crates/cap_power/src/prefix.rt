// What a prefix does to the power.
ghost use Rattle.std.specs.Prelude.{◌≡◌};
ghost use Rattle.cap_power.specs.Counting.{cuts as spec_cuts, cuts_after as spec_cuts_after, outcome_of_fault};

use cap_schedule::{Outcome, Prefix};

/// The power goes at a call.
pub fn cuts(prefix: Option<Prefix>) -> bool
    ensures { result ≡ spec_cuts prefix }
{
    match prefix {
        Some(Prefix::Cut { .. }) => true,
        Some(Prefix::Fail { .. }) => false,
        Some(Prefix::CutAfter) => false,
        None => false,
    }
}

/// The power goes after all calls.
pub fn cuts_after(prefix: Option<Prefix>) -> bool
    ensures { result ≡ spec_cuts_after prefix }
{
    match prefix {
        Some(Prefix::Cut { .. }) => false,
        Some(Prefix::Fail { .. }) => false,
        Some(Prefix::CutAfter) => true,
        None => false,
    }
}

/// What a line says that a device call has ended.
pub fn outcome_of(cut: bool) -> Outcome
    ensures { result ≡ outcome_of_fault cut }
{
    if cut {
        Outcome::WasCut
    } else {
        Outcome::DiskFailed
    }
}
