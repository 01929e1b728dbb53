//! Bodies of the messages on periods and batches, of the diagnostic messages and of the rejection: caaa.009 to caaa.015, as types and as trees.
#![tactic(auto)]

mod body;
mod items;
mod laws;
mod reading;
mod writing;

pub use body::BatchBody;
pub use items::Items;
pub use laws::bodies_are_whole;
