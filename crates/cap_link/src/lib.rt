//! Links: connections one after the other, in memory or over TCP.
#![tactic(auto)]

mod lines;
mod link;
mod memory;
mod naming;
mod pieces;
mod tcp;

pub use link::Link;
pub use memory::MemLink;
pub use tcp::TcpLink;
