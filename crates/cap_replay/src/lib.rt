//! Schedules over both ends, each over a journal on a disk in memory: the run of a schedule, its text, and the disks; and the schedules that are made
//! by rule.
#![tactic(auto)]

mod ends;
mod generator;
mod making;
mod makings;
mod replaying;
mod terminal_line;

pub use ends::Ends;
pub use generator::{Tally, made};
pub use making::make_over;
pub use replaying::{ReplayFault, replay_over};
pub use terminal_line::put_terminal_line;
