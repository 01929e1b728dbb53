//! Entries, what is made of them, the tokens of a sale and journals tried out: each line of the input is a case in words, and is answered
//! by one line. An empty line and one that begins with `#` are passed on.
#![tactic(auto)]

mod caches;
mod counting;
mod ends;
mod entries;
mod faults;
mod files;
mod hosts;
mod items;
mod journals;
mod pages;
mod records;
mod rows;
mod sales;
mod sets;
mod words;

use std::io;

fn main(rt: HostRuntime) -> io::Result<()> {
    for line in rt.lines(rt.alloc()) {
        let line = line?;
        let text = rows::printed(rt.alloc(), line.as_str())?;
        println!(rt; "{text}")?;
    }
    Ok(())
}
