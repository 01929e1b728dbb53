//! The network of both ends as they ship, each over a journal on a disk in memory, with the texts of all that was sent between them; and what is run over
//! it: a schedule, and a schedule that is made by rule.
#![tactic(auto)]

mod at_host;
mod at_terminals;
mod network;
mod opening;
mod report;
mod running;

pub use network::Network;
pub use running::{make, replay};
