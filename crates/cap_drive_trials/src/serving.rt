// A run of the driver over connections in memory.
ghost use Rattle.std.specs.Prelude.{◌≡◌, ◌<◌, ◌+◌, ◌^◌, false};

use crate::echo::Echo;
use crate::host::host_failing_at;
use crate::row::{connection, number, numbers};
use cap_answering::Answering;
use cap_base::{FixedClock, MemSink};
use cap_drive::serve_any;
use cap_link::MemLink;
use std::alloc::{AllocError, Global};
use std::str;

// How many bytes of what was put are shown.
const MOST_SHOWN: usize = 400;

fn text_of(bytes: &[u8]) -> &str {
    match str::from_utf8(bytes) {
        Ok(text) => text,
        Err(_) => "no text",
    }
}

// What was put on each connection, in hexadecimal digits, or its length where it is long.
fn puts(alloc: Global, link: &MemLink, connections: usize) -> Result<String, AllocError> {
    let mut text = String::new(alloc);
    for i in 0..connections {
        if let Some(bytes) = link.bytes(i) {
            if bytes.len() > MOST_SHOWN {
                let length = format!(in alloc; " put {} bytes", bytes.len())?;
                text.push_str(&length)?;
            } else {
                text.push_str(" put ")?;
                for byte in bytes {
                    let digits = format!(in alloc; "{byte:02x}")?;
                    text.push_str(&digits)?;
                }
            }
        }
    }
    Ok(text)
}

// Serves connections with an end, and tells all that is seen of it.
fn served<A: Answering + Drop>(
    alloc: Global,
    end: A,
    most: u64,
    first: u64,
    named: &[u64],
    connections: Vec<Vec<u8>>,
) -> Result<String, AllocError>
where
    A::Journal: Drop,
    requires works { A.has_failed end ≡ false }
    requires numbers { first + most < 2 ^ 64 }
{
    let count = connections.len();
    let mut link = MemLink::new(alloc, connections);
    let mut clock = FixedClock::new(1_700_000_005);
    let mut out = MemSink::new(alloc);
    if link.fail_at(named).is_err() {
        return Err(AllocError);
    }
    let (why, opened, back) = serve_any(alloc, end, &mut link, &mut clock, &mut out, most, first);
    let back = if back.is_ok() { "on" } else { "shut" };
    let puts = puts(alloc, &link, count)?;
    format!(in alloc;
        "{why:?}, opened {opened}, {back},{puts}\n{}",
        text_of(out.bytes())
    )
}

// The connections that come.
fn connections_of(alloc: Global, words: &[&str]) -> Result<Vec<Vec<u8>>, AllocError> {
    let mut connections = Vec::new(alloc);
    for words in words {
        connections.push(connection(alloc, words)?)?;
    }
    Ok(connections)
}

// How many connections are served at most, or the number of the first line.
fn few(word: &str) -> u64
    ensures { result < 2 ^ 32 }
{
    number(word) % 1_000_001
}

/// `MOST FIRST OPENINGS FAILING CONNECTION ..`: at most so many connections, numbered from the first, an end that can be opened again so many times, the calls of the
/// link that fail, and the connections that come.
pub fn serve(alloc: Global, words: &[&str]) -> Result<String, AllocError> {
    let [most, first, openings, named, bytes @ ..] = words else {
        return format!(in alloc; "no such row\n");
    };
    let named = numbers(alloc, named)?;
    let connections = connections_of(alloc, bytes)?;
    let end = Echo::new(alloc, number(openings));
    served(alloc, end, few(most), few(first), &named, connections)
}

/// The same with a host, where a call of its disk fails, in place of the end and its openings.
pub fn serve_by_host(alloc: Global, words: &[&str]) -> Result<String, AllocError> {
    let [most, first, call, named, bytes @ ..] = words else {
        return format!(in alloc; "no such row\n");
    };
    let named = numbers(alloc, named)?;
    let connections = connections_of(alloc, bytes)?;
    match host_failing_at(alloc, number(call)) {
        Some(host) => served(alloc, host, few(most), few(first), &named, connections),
        None => format!(in alloc; "no host\n"),
    }
}
