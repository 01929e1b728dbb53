//! What a line of a schedule makes at a terminal over any journal, with the texts of the messages that it sends.
#![tactic(auto)]

mod acting;
mod digits;
mod ends;
mod hears;
mod said;
mod sales;
mod sends;

pub use acting::act;
pub use cap_plays::LineFault;
pub use said::Said;
