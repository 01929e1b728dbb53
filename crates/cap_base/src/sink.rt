ghost use Rattle.std.specs.Prelude.{◌≡◌, ℕ, List, [], Option, Some, OnOk, OnErr};
ghost use Rattle.std.specs.Bool.{OnTrue, OnFalse};
ghost use Rattle.std.specs.Io.KnownBytes.{Appends};
ghost use Rattle.cap_base.specs.Causes.{HasPutCause};
ghost use Rattle.cap_base.specs.Streams.{PutAppends, AppendsSome};

use crate::failure::Memory;
use std::alloc::Global;
use std::io::{ErrorKind, Write};

/// How often a call tries again after an interruption.
const MOST_TRIES: u32 = 1000;

/// Why a piece was not put whole.
#[derive(Clone, Copy, Debug, PartialEq, Eq)]
pub enum PutError {
    Failed,
    Memory,
}

/// Bytes that are put piece by piece.
pub trait Sink {
    /// The bytes that were put, where the sink tells them.
    ghost contents: { Self → Option (List ℕ) };

    /// How often a call has failed.
    ghost faults: { Self → ℕ };

    /// Appends the bytes, or at an error a front of them.
    fn put(&mut self, bytes: &[u8]) -> Result<(), PutError>
        ensures bytes { PutAppends (contents self.old) (contents self.new) result bytes.now }
        ensures cause { HasPutCause (faults self.old) (faults self.new) result };
}

/// A sink over a writer of std. It tells what the writer tells.
#[derive(Drop)]
pub struct StdSink<W> {
    writer: W,
    faults: u64,
}

impl<W: Write> StdSink<W> {
    pub fn new(writer: W) -> StdSink<W> {
        StdSink { writer, faults: 0 }
    }
}

// Writes the bytes, or a front of them, and says whether it wrote all.
fn write_whole<W: Write>(writer: &mut W, bytes: &[u8]) -> bool
    ensures all { OnTrue result (Appends (W.contents writer.old) (W.contents writer.new) bytes.now) }
    ensures some { OnFalse result (AppendsSome (W.contents writer.old) (W.contents writer.new) bytes.now) }
{
    let mut rest = bytes;
    let mut tries = MOST_TRIES;
    'pieces: while !rest.is_empty() {
        match writer.write(rest) {
            Ok(0) => return false,
            Ok(count) => rest = rest.split_at(count).1,
            Err(error) => {
                if error.kind() != ErrorKind::Interrupted || tries == 0 {
                    return false;
                }
                tries -= 1;
            }
        }
    }
    true
}

impl<W: Write> Sink for StdSink<W> {
    ghost contents = { λ s. W.contents s.writer };

    ghost faults = { λ s. s.faults };

    fn put(&mut self, bytes: &[u8]) -> Result<(), PutError> {
        if write_whole(&mut self.writer, bytes) {
            return Ok(());
        }
        self.faults = self.faults.saturating_add(1);
        Err(PutError::Failed)
    }
}

/// Bytes in memory. It answers `Failed` at exactly the calls that are named to it.
#[derive(Drop)]
pub struct MemSink {
    bytes: Vec<u8>,
    calls: u64,
    named: Vec<u64>,
    faults: u64,
}

impl MemSink {
    ghost use Rattle.cap_base.specs.Memory.{put_of, sink_named_of, sink_calls_after};

    /// A sink that holds nothing.
    pub fn new(alloc: Global) -> MemSink
        ensures bytes { put_of result ≡ [] }
        ensures named { sink_named_of result ≡ [] }
    {
        MemSink {
            bytes: Vec::new(alloc),
            calls: 0,
            named: Vec::new(alloc),
            faults: 0,
        }
    }

    /// What was put.
    pub fn bytes(&self) -> &[u8]
        ensures { result.now ≡ put_of self.now }
    {
        &self.bytes
    }

    /// Lets these calls fail, counted from 1 since this call, in place of those that were named before. Without memory nothing changes.
    pub fn fail_at(&mut self, calls: &[u64]) -> Result<(), Memory>
        ensures named { OnOk result (sink_named_of self.new ≡ calls.now) }
        ensures counted { OnOk result (sink_calls_after self.new ≡ 1) }
        ensures bytes { put_of self.new ≡ put_of self.old }
        ensures faults { self.new.faults ≡ self.old.faults }
        ensures refused { OnErr result (self.new ≡ self.old) }
    {
        let Ok(named) = Vec::from_slice(*self.named.allocator(), calls) else {
            return Err(Memory);
        };
        self.named = named;
        self.calls = 0;
        Ok(())
    }
}

impl Sink for MemSink {
    ghost use Rattle.std.specs.Prelude.{◌≡◌, ◌+◌, ◌-◌, ◌^◌, ◌↔◌, min, [], Some, IsErrOf, Contains};
    ghost use Rattle.cap_base.specs.declared.sink.PutError.TheVariants.{Failed};
    ghost use Rattle.cap_base.specs.Causes.{HasPutCause};
    ghost use Rattle.cap_base.specs.Streams.{PutAppends};
    ghost use Rattle.cap_base.specs.Memory.{put_of, sink_named_of, sink_calls_after};

    ghost contents = { λ s. Some s.bytes.items };

    ghost faults = { λ s. s.faults };

    fn put(&mut self, bytes: &[u8]) -> Result<(), PutError>
        ensures bytes { PutAppends (Some (put_of self.old)) (Some (put_of self.new)) result bytes.now }
        ensures cause { HasPutCause self.old.faults self.new.faults result }
        ensures named { IsErrOf result Failed ↔ Contains (sink_named_of self.old) (sink_calls_after self.old) }
        ensures same_named { sink_named_of self.new ≡ sink_named_of self.old }
        ensures counted { sink_calls_after self.new ≡ min (sink_calls_after self.old + 1) (2 ^ 64 - 1) }
        ensures quiet { (sink_named_of self.old ≡ []) → self.new.faults ≡ self.old.faults }
    {
        self.calls = self.calls.saturating_add(1);
        if self.named.contains(&self.calls) {
            self.faults = self.faults.saturating_add(1);
            return Err(PutError::Failed);
        }
        if self.bytes.extend_from_slice(bytes).is_err() {
            return Err(PutError::Memory);
        }
        Ok(())
    }
}
