//! The steps of a sale as tokens that must be spent.
#![tactic(auto)]

mod response;
mod tokens;

pub use response::AuthResponse;
pub use tokens::{AboveFloor, Approved, AuthRefused, Begun, Receipt};
