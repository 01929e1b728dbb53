//! What the texts of messages are made of: leaves with their spellings, dates and times among them, the tables and trees of structures,
//! the header that every message has, and the first fault of bytes that are no document.
#![tactic(auto)]

mod codes;
mod date;
mod date_text;
mod fault;
mod header;
mod kinds;
mod leaf;
mod moment;
mod schema;
mod spelling;
mod tree;
mod writing;
mod zone;

pub use date::DateTime;
pub use fault::Fault;
pub use header::{Header, Refused};
pub use kinds::{CodeList, Kind, LeafKind};
pub use leaf::Leaf;
pub use schema::{Node, Shape};
pub use spelling::leaf_read;
pub use tree::{Child, Children, Tree};
pub use writing::leaf_write;
pub use zone::Zone;
