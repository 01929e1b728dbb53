//! The lines of an input, one after the other, within the limits.
#![tactic(auto)]

mod held;
mod reader;

pub use reader::{InputFault, LineReader, MOST_BYTES, MOST_LINES, Next};
