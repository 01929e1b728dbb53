//! The host that serves the connections of a link.
#![tactic(auto)]

mod serving;

pub use cap_drive::ServeEnd;
pub use serving::serve;
