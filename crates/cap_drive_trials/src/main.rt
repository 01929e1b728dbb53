//! The driver that serves connections tried out, over an end that says back what it hears, or a host, and connections in memory: each row of the input is a run. It is printed again with
//! how the run ended, how many connections were opened, whether the end came back on, and what was put on each connection; then come the lines that the driver wrote.
#![tactic(auto)]

mod echo;
mod host;
mod row;
mod serving;

use std::io;

fn main(rt: HostRuntime) -> io::Result<()> {
    let alloc = rt.alloc();
    for line in rt.lines(alloc) {
        let line = line?;
        let row = line.as_str();
        if row.starts_with('#') || row.is_empty() {
            println!(rt; "{row}")?;
        } else {
            let mut words = Vec::new(alloc);
            for word in row.split(' ') {
                words.push(word)?;
            }
            let text = match words.as_slice() {
                ["host", rest @ ..] => serving::serve_by_host(alloc, rest)?,
                words => serving::serve(alloc, words)?,
            };
            println!(rt; "{row}: {text}")?;
        }
    }
    Ok(())
}
