//! The texts of messages: documents are read to trees and trees written as documents, for all nineteen messages.
#![tactic(auto)]

mod document;
mod ending;
mod error;
mod finding;
mod frames;
mod held;
mod known;
mod laws;
mod open;
mod reader;
mod reading;
mod reason;
mod rows;
mod skipping;
mod write;

pub use document::read_document;
pub use error::ReadError;
pub use laws::{reading_is_exact, writing_is_stable};
pub use reader::PieceReader;
pub use write::{message_number, write_document};
