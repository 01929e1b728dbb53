//! A disk over a file, the trusted edge: it keeps the count of faults, and tells nothing of content. What a device must do stands in `docs/JOURNAL.md`.
#![tactic(auto)]

mod file;

pub use file::FileDisk;
