//! The runs that a schedule names: what each of its lines does, also where a power cut or a fault ends it; the text of a run; the laws over
//! all runs of a schedule; and the loop over its lines.
#![tactic(auto)]

mod fault;
pub mod laws;
mod moments;
mod numbers;
mod report;
mod session;

pub use fault::LineFault;
pub use moments::{LAST_LINE, date_of, moment_of};
pub use numbers::TerminalNumbers;
pub use report::{put_host, put_numbers, put_outcome, put_period, put_terminal, put_verdict};
pub use session::{Network, play};
