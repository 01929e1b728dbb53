//! Journals tried out: a small record type, and an end over any journal.
#![tactic(auto)]

mod ledger;
mod sample;

pub use ledger::{Ledger, add_and_reopen};
pub use sample::Sample;
