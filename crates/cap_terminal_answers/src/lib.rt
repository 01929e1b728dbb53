//! What a terminal makes of what arrives, what its calls add and what it sends: definitions, and the plain call that computes what it takes from all entries.
#![tactic(auto)]

mod counts;
mod handled;
mod part;
mod queue;
mod taken;

pub use cap_sale::AuthResponse;
pub use counts::Counts;
pub use handled::{Handled, TermFault};
pub use part::{PartNumbers, allows, may_add, part_number, version};
pub use queue::{QueueView, cancels_sale, closes, ends_sale};
pub use taken::{
    Taking, refused, take_batch, take_config, take_fault, take_message, take_plan, take_sale,
};
