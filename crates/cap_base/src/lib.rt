//! What every crate speaks of: the protocol's base types, the items of a log, parameter rows, and the outside (a source and a sink of
//! bytes, a clock), each with a count of its faults.
#![tactic(auto)]

mod amount;
mod clock;
mod codes;
mod failure;
mod item;
mod number;
mod parameters;
mod sink;
mod source;
mod text;

pub use amount::{Amount, Money, read_decimal};
pub use clock::{Clock, FixedClock, StdClock};
pub use codes::{DataSet, PlanAct, Reason, Response};
pub use failure::{Failed, Memory};
pub use item::{Item, Totals};
pub use number::read_number;
pub use parameters::{ConfigPart, Row, Rows};
pub use sink::{MemSink, PutError, Sink, StdSink};
pub use source::{MemSource, Source, StdSource};
pub use text::{Account, Code6, Ident};
