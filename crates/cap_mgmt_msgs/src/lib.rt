//! Bodies of the messages of terminal management: catm.001 to catm.004, as types and as trees.
#![tactic(auto)]

mod actions;
mod body;
mod laws;
mod reading;
mod writing;

pub use actions::{Action, Actions};
pub use body::MgmtBody;
pub use laws::bodies_are_whole;
