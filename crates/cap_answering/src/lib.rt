//! Ends as their drivers see them: the steps of one end, and the trait of an end that answers what arrives, whatever it keeps.
#![tactic(auto)]

mod answering;
mod fault;
mod reply;

pub use answering::Answering;
pub use fault::{HostFault, ReopenFault};
pub use reply::{ByteText, Reply};
