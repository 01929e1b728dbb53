use cap_base::ConfigPart;
use cap_leaf::DateTime;
use cap_mgmt_msgs::Actions;

/// How the plan was set up: its start, and the minutes between two times (0: each action is done once).
#[derive(Clone, Copy, Debug)]
pub struct PlanSetup {
    pub poll: u64,
    pub start: DateTime,
}

/// What a status report gets.
#[derive(Debug, Drop)]
pub enum ManagerReply {
    /// The plan.
    Plan(Actions),
    /// A part of the newest parameter set.
    Part(ConfigPart),
    /// There is nothing for it.
    Nothing,
}
