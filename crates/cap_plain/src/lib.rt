//! The items, the capture and the totals of a journal, computed as they are defined, and laws of them.
#![tactic(auto)]

mod capture;
mod items;
mod laws;
mod period;

pub use capture::capture_of;
pub use items::items_of;
pub use laws::{capture_is_kept, fronts_agree, items_fit, items_grow, logs_fit, sums_are_bounded};
pub use period::totals_of;
