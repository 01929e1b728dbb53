//! A host tried out beside the plain answer of its definition: each row of the input is a step, and is printed again with what it gives. A row that
//! begins with `#` is a heading.
#![tactic(auto)]

mod documents;
mod fault;
mod indexes;
mod long;
mod manager;
mod opening;
mod plain;
mod publishing;
mod queries;
mod row;
mod sent;
mod start;
mod steps;
mod taking;
mod trial;

use fault::Fault;

fn main(rt: HostRuntime) -> Result<(), Fault> {
    let mut at = None;
    for line in rt.lines(rt.alloc()) {
        let line = line?;
        let (next, text) = steps::step(rt.alloc(), at, &line)?;
        at = next;
        println!(rt; "{line}{text}")?;
    }
    Ok(())
}
