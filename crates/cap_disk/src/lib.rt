//! Disks: what a read gives, what a crash may leave at any moment, and a disk in memory that a test can let fail.
#![tactic(auto)]

mod arming;
mod disk;
mod laying;
mod memory;
mod recorded;
mod surviving;

pub use arming::{Counted, Fill};
pub use disk::Disk;
pub use memory::MemoryDisk;
pub use recorded::Call;
