//! What a terminal that reports its status gets from the manager: a part of the newest parameter set, or the plan.
#![tactic(auto)]

mod answer;
mod reply;

pub use answer::answer_status;
pub use reply::{ManagerReply, PlanSetup};
