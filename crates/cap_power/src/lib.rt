//! An end with its power: on, over a journal on its disk in memory, or off, with the disk alone. A line's prefix cuts the power or lets a device call
//! fail, and an opening brings the end back.
#![tactic(auto)]

mod arming;
mod host;
mod opening;
mod over_disk;
mod power;
mod prefix;
mod reopening;
mod set_up;
mod settling;
mod terminal;

pub use arming::{armed, disarmed};
pub use over_disk::OverDisk;
pub use power::{Power, Settled};
pub use reopening::reopen;
pub use set_up::journal_of;
pub use settling::{disk_of, settle};
