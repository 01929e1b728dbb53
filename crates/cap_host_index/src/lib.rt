//! What a host keeps of each terminal's log beside its journal: numbers, places and totals, and no item.
#![tactic(auto)]

mod index;

pub use index::LogIndex;
