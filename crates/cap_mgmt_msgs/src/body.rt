use crate::actions::Actions;
use cap_base::{ConfigPart, DataSet};
use cap_leaf::Refused;

/// The body of a message of terminal management.
#[derive(Clone, Debug, Drop)]
pub enum MgmtBody {
    /// catm.001: a terminal tells its versions and asks for a set of data.
    Status {
        wanted: DataSet,
        in_force: u64,
        staged: u64,
        parts: u64,
    },
    /// catm.002: the management plan.
    Plan(Actions),
    /// catm.003: a part of a parameter set.
    Part(ConfigPart),
    /// catm.004: a message of terminal management was rejected.
    ManagementRejection(Refused),
}
