//! The terminal.
#![tactic(auto)]

mod add;
mod adding;
mod change;
mod changing;
mod faults;
mod follow;
mod handling;
mod index;
mod opening;
mod pending;
mod queries;
mod sale_row;
mod sending;
mod sets;
mod steps;
mod terminal;

pub use cap_terminal_answers::{AuthResponse, Counts, Handled, TermFault};
pub use faults::{
    AskFault, BeginFault, CancelFault, CloseFault, EntryFault, TermOpenCause, TermOpenError,
};
pub use terminal::Terminal;
