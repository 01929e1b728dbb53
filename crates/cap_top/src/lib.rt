//! The program as a call: words and an input in, an output and a status out.
#![tactic(auto)]

mod input;
pub mod run;
mod show;
pub mod status;
mod tally;
pub mod words;
