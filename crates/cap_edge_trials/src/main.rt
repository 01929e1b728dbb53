//! The outside tried out: sources, sinks and clocks, disks in memory and over a file, links in memory and over TCP. Each line of the
//! input is one call, or one case, in words, and is answered by one line.
#![tactic(auto)]

mod clocks;
mod disks;
mod files;
mod lines;
mod links;
mod rows;
mod show;
mod sockets;
mod streams;

use std::io;

fn main(rt: HostRuntime) -> io::Result<()> {
    let mut desk = rows::Desk::new(&rt);
    for line in rt.lines(rt.alloc()) {
        let line = line?;
        let text = rows::answered(&mut desk, line.as_str())?;
        println!(rt; "{line}: {text}")?;
    }
    Ok(())
}
