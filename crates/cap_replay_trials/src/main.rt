//! Schedules tried out: each row of the input is a verb with a text behind it, and is answered by one line, or by one for each line of a schedule. A row that begins with `#` is a
//! heading.
#![tactic(auto)]

mod disks;
mod lines;
mod made;

use std::alloc::Global;
use std::io;

fn answer(alloc: Global, row: &str) -> io::Result<String> {
    let answer = match row.split_once(' ') {
        Some(("line", text)) => lines::read_as(alloc, text)?,
        Some(("made", sales)) => made::lines_of(alloc, sales)?,
        Some(("counts", sales)) => made::counts_of(alloc, sales)?,
        Some(("disks", text)) => disks::entries_of(alloc, text)?,
        _ => String::from_str(alloc, "no verb")?,
    };
    Ok(answer)
}

fn main(rt: HostRuntime) -> io::Result<()> {
    for row in rt.lines(rt.alloc()) {
        let row = row?;
        if row.starts_with('#') {
            println!(rt; "{row}")?;
        } else {
            let told = answer(rt.alloc(), row.as_str())?;
            println!(rt; "{told}")?;
        }
    }
    Ok(())
}
