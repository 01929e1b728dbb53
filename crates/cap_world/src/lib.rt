//! The model of a host and its terminals: worlds, steps, runs; and the laws over every run.
#![tactic(auto)]

pub mod laws;
