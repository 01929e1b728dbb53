//! A journal that knows whether a call of it failed, and what its calls say of the images that a crash may leave.
#![tactic(auto)]

mod ledger;

pub use ledger::Ledger;
