//! A terminal as it ships, over a journal on a disk in memory, with its power, and the texts of what it sent and of the answers that count.
#![tactic(auto)]

mod keeping;
mod side;

pub use side::{DiskTerminal, Side};
