// Sources and sinks, in memory and over std.
ghost use Rattle.std.specs.Prelude.{◌<◌, ◌^◌};

use crate::show::{number, said, taken, text_of};
use cap_base::{MemSink, MemSource, Sink, Source, StdSink, StdSource};
use std::alloc::{AllocError, Global};

/// A source and a sink of each kind.
#[derive(Drop)]
pub struct Streams {
    source: MemSource,
    reader: StdSource<&'static [u8]>,
    sink: MemSink,
    writer: StdSink<Vec<u8>>,
}

impl Streams {
    pub fn new(alloc: Global) -> Streams {
        Streams {
            source: MemSource::new(alloc, Vec::new(alloc)),
            reader: StdSource::new(b"abcdef".as_slice()),
            sink: MemSink::new(alloc),
            writer: StdSink::new(Vec::new(alloc)),
        }
    }
}

// Takes at most so many bytes.
fn take<S: Source>(alloc: Global, source: &mut S, room: u64) -> Result<String, AllocError> {
    let mut buf = [0u8; 16];
    if room == 0 || room > 16 {
        return said(alloc, "none");
    }
    let answer = source.take(&mut buf[..room as usize]);
    taken(alloc, answer, &buf)
}

fn put<S: Sink>(alloc: Global, sink: &mut S, text: &str) -> Result<String, AllocError> {
    let answer = sink.put(text.as_bytes());
    format!(in alloc; "{answer:?}")
}

fn new_source(alloc: Global, streams: &mut Streams, text: &str) -> Result<String, AllocError> {
    streams.source = MemSource::new(alloc, text.as_bytes().to_vec(alloc)?);
    said(alloc, "new")
}

/// Calls of a source in memory: `new TEXT`, `fail CALL ..`, `take ROOM`.
pub fn source(
    alloc: Global,
    streams: &mut Streams,
    words: &[&str],
    calls: &[u64],
) -> Result<String, AllocError> {
    match words {
        ["new", text] => new_source(alloc, streams, text),
        ["fail", ..] => {
            let answer = streams.source.fail_at(calls);
            format!(in alloc; "{answer:?}")
        }
        ["take", room] => take(alloc, &mut streams.source, number(room)),
        _ => said(alloc, "none"),
    }
}

/// Calls of a sink in memory: `fail CALL ..`, `put TEXT`, `bytes`.
pub fn sink(
    alloc: Global,
    streams: &mut Streams,
    words: &[&str],
    calls: &[u64],
) -> Result<String, AllocError> {
    match words {
        ["fail", ..] => {
            let answer = streams.sink.fail_at(calls);
            format!(in alloc; "{answer:?}")
        }
        ["put", text] => put(alloc, &mut streams.sink, text),
        ["bytes"] => said(alloc, text_of(streams.sink.bytes())),
        _ => said(alloc, "none"),
    }
}

/// Calls of a source and a sink over std: `take ROOM`, `put TEXT`.
pub fn over_std(
    alloc: Global,
    streams: &mut Streams,
    words: &[&str],
) -> Result<String, AllocError> {
    match words {
        ["take", room] => take(alloc, &mut streams.reader, number(room)),
        ["put", text] => put(alloc, &mut streams.writer, text),
        _ => said(alloc, "none"),
    }
}
