//! One exchange of a till: a message is put on the next connection of a link, and one frame is taken.
#![tactic(auto)]

mod exchanging;
mod heard;

pub use exchanging::exchange;
pub use heard::NoAnswer;
