//! The texts of messages tried out: each line of the input is a case in words, and is answered by one line. An empty line and one that
//! begins with `#` are passed on. In a text a backslash and two hexadecimal digits stand for one byte.
#![tactic(auto)]

mod documents;
mod frames;
mod leaves;
mod messages;
mod names;
mod plans;
mod rows;
mod tables;
mod words;

use std::io;

fn main(rt: HostRuntime) -> io::Result<()> {
    let mut given = Vec::new(rt.alloc());
    for line in rt.lines(rt.alloc()) {
        let line = line?;
        let row = line.as_str();
        if let Some(text) = row.strip_prefix("given ") {
            given = words::spelt(rt.alloc(), text)?;
        }
        let text = rows::printed(rt.alloc(), &given, row)?;
        println!(rt; "{text}")?;
    }
    Ok(())
}
