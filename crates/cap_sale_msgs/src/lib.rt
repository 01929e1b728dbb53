//! Bodies of the messages on one sale: caaa.001 to caaa.008, as types and as trees.
#![tactic(auto)]

mod body;
mod laws;
mod reading;
mod writing;

pub use body::{Ended, SaleBody};
pub use laws::bodies_are_whole;
