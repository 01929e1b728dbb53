//! What a host answers to whatever arrives: definitions, the plain call that computes them from all entries, and the answers' parts.
#![tactic(auto)]

mod advice;
mod entries;
mod fit;
mod plain;
mod request;
mod status;

pub use advice::{approved, differs, expects, took_all};
pub use fit::{count_closes, has_cancel, has_end, has_sale, is_sale_number, same, same_totals};
pub use plain::{
    Answer, answer_fault, answer_message, cancellation, is_of_host, item_of, needs_no_answer,
    quiet, rejected, replies, tell_state,
};
pub use request::{cancel_answer, decide};
pub use status::{given, plan_setup};
