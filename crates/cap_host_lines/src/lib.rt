//! What a line of a schedule makes of a host over any journal, with the texts of its replies, and a host's part of a report.
#![tactic(auto)]

mod answer;
mod calls;
mod lines;
mod report;
mod said;

pub use cap_plays::LineFault;
pub use lines::{deliver, listen, missing, publish};
pub use report::put_log;
pub use said::HostSaid;
