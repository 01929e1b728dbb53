//! A terminal tried out: each row of the input is a step, and is printed again with what it gives. A row that begins with `#` is a heading.
#![tactic(auto)]

mod acts;
mod disks;
mod documents;
mod fault;
mod journals;
mod long;
mod opening;
mod plain;
mod queries;
mod row;
mod sales;
mod sending;
mod state;
mod steps;
mod tokens;

use fault::Fault;
use state::At;

fn main(rt: HostRuntime) -> Result<(), Fault> {
    let mut at = At::Nothing;
    for line in rt.lines(rt.alloc()) {
        let line = line?;
        let (next, text) = steps::step(rt.alloc(), at, &line)?;
        at = next;
        println!(rt; "{line}{text}")?;
    }
    Ok(())
}
