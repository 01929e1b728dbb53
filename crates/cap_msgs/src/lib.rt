//! The nineteen messages as one type: read from bytes and written as bytes.
#![tactic(auto)]

mod bodies;
mod error;
mod family;
mod header;
mod laws;
mod message;
mod reading;
mod writing;

pub use error::DecodeError;
pub use laws::{
    faults_are_within, messages_are_whole, reading_is_exact, shapes_fit, texts_read_again,
};
pub use message::{Body, Message};
pub use reading::decode;
pub use writing::encode;
