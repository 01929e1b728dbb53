//! The till: the lines that a register speaks to a terminal, and what it prints for each.
#![tactic(auto)]

mod line;
mod printed;
mod reading;

pub use line::TillLine;
pub use printed::{Printed, put_printed};
pub use reading::read_line;
