//! The schedule language: the lines of a schedule, their outcomes, and the reader of a whole schedule.
#![tactic(auto)]

mod actions;
mod blocks;
mod ends;
mod hex;
mod lines;
mod noise;
mod outcome;
mod prefixes;
mod reader;
mod rows;
mod schedule;
mod setups;

pub use lines::{first_line, pieces_of};
pub use outcome::{Outcome, reason_letters};
pub use reader::read;
pub use schedule::{
    Action, Bytes, Draft, End, HostLine, HostOrder, Line, Order, Prefix, Schedule, ScheduleFault,
};
