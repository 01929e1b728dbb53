//! The entries of both ends' journals, how an end is set up, parameter sets, and the rules of what may stand after what.
#![tactic(auto)]

mod fields;
mod first;
mod floor;
mod host;
mod host_judge;
mod host_record;
mod judge;
mod lists;
mod log_judge;
mod record_fits;
mod record_laws;
mod rows;
mod sale_end;
mod stage;
mod term_record;
mod terminal;

pub use first::{first_host_not_allowed, first_not_allowed};
pub use floor::floor_row;
pub use host::{HostEntry, HostSetup};
pub use host_judge::HostJudge;
pub use judge::TermJudge;
pub use lists::{Blocks, Idents};
pub use record_laws::{allowed_entries_fit, batches_are_groups, records_are_bounded};
pub use rows::{RowFault, RowSet};
pub use terminal::{TermEntry, TermSetup};
