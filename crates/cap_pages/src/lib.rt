//! Pages: the bytes of a disk that were read last, and a journal that keeps the places of its records and reads its entries back through pages.
#![tactic(auto)]

mod cache;
mod marks;
mod paged_journal;
mod paged_open;

pub use cache::{PageCache, PageError};
pub use paged_journal::PagedJournal;
