//! Journals: lists of entries that a crash leaves whole.
#![tactic(auto)]

mod append;
mod disk_journal;
mod group;
mod journal;
mod open;
mod record;
mod settling;
mod spare;
mod vec_journal;

pub use append::write_added;
pub use disk_journal::{DiskJournal, OpenCause, OpenError};
pub use group::OPEN;
pub use journal::{Journal, JournalError, OpenFault, Reopen};
pub use open::{MOST, read_group};
pub use record::Record;
pub use settling::{format_disk, settle};
pub use spare::Spare;
pub use vec_journal::VecJournal;
