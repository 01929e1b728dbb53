//! The host as it ships, over a journal on a disk in memory, with its power.
#![tactic(auto)]

mod reporting;
mod side;
mod starting;

pub use reporting::put_log;
pub use side::{DiskHost, Done, act, reopen};
pub use starting::{disk_in, set_up};
