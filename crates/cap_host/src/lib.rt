//! The acquirer's host over any journal.
#![tactic(auto)]

mod adding;
mod advices;
mod answer;
mod answering;
mod batches;
mod capture;
mod deciding;
mod decision;
mod find;
mod fitting;
mod host;
mod opening;
mod publishing;
mod spelt;
mod tables;
mod terminal_name;
mod writing;

pub use cap_answering::{ByteText, HostFault, Reply};
pub use capture::Captured;
pub use host::Host;
pub use opening::{HostOpenCause, HostOpenError};
pub use publishing::PublishFault;
