//! When a planned action is due: the moments of its plan, in seconds since 1970.
#![tactic(auto)]

mod moment;
mod planned;

pub use moment::moment_of;
pub use planned::{due, next_due};
