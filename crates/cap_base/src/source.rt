ghost use Rattle.std.specs.Prelude.{◌≡◌, ◌<◌, ◌≤◌, ◌↔◌, ℕ, List, [], length, Option, Some, IsErr, OnOk, OnErr, Contains, drop, take, min};
ghost use Rattle.std.specs.Io.{ReadsAtMost};
ghost use Rattle.std.specs.Io.KnownBytes.{ReadConsumes};
ghost use Rattle.cap_base.specs.Causes.{HasCause};

use crate::failure::{Failed, Memory};
use std::alloc::Global;
use std::io::{ErrorKind, Read};

/// How often a call tries again after an interruption.
const MOST_TRIES: u32 = 1000;

/// Bytes that are taken piece by piece.
pub trait Source {
    /// The bytes that are left, where the source tells them.
    ghost left: { Self → Option (List ℕ) };

    /// How often a call has failed.
    ghost faults: { Self → ℕ };

    /// Takes the next bytes, and tells how many. 0 means the end, and comes exactly where nothing is left, for a source that tells what is
    /// left. After `Failed` what is left is as before.
    fn take(&mut self, buf: &mut [u8]) -> Result<usize, Failed>
        requires { 0 < length buf.old }
        ensures bound { ReadsAtMost result buf.new }
        ensures bytes { ReadConsumes (left self.old) (left self.new) result buf.new }
        ensures cause { HasCause (faults self.old) (faults self.new) result };
}

/// A source over a reader of std. It tells what the reader tells.
#[derive(Drop)]
pub struct StdSource<R> {
    reader: R,
    faults: u64,
}

impl<R: Read> StdSource<R> {
    pub fn new(reader: R) -> StdSource<R> {
        StdSource { reader, faults: 0 }
    }
}

impl<R: Read> Source for StdSource<R> {
    ghost left = { λ s. R.remaining s.reader };

    ghost faults = { λ s. s.faults };

    fn take(&mut self, buf: &mut [u8]) -> Result<usize, Failed> {
        for _ in 0..MOST_TRIES {
            match self.reader.read(buf) {
                Ok(count) => return Ok(count),
                Err(error) => {
                    if error.kind() != ErrorKind::Interrupted {
                        break;
                    }
                }
            }
        }
        self.faults = self.faults.saturating_add(1);
        Err(Failed)
    }
}

// Copies as many bytes as there are, or as there is room for, and says how many.
fn copy_front(bytes: &[u8], buf: &mut [u8]) -> usize
    ensures count { result ≡ min (length bytes.now) (length buf.old) }
    ensures front { take result buf.new ≡ take result bytes.now }
{
    let count = bytes.len().min(buf.len());
    buf[..count].copy_from_slice(&bytes[..count]);
    count
}

/// Bytes in memory. It fails at exactly the calls that are named to it.
#[derive(Drop)]
pub struct MemSource {
    bytes: Vec<u8>,
    at: usize,
    calls: u64,
    named: Vec<u64>,
    faults: u64,
    ghost within: { at ≤ length bytes.items },
}

impl MemSource {
    ghost use Rattle.cap_base.specs.Memory.{left_of, named_of, calls_after};

    /// A source of these bytes.
    pub fn new(alloc: Global, bytes: Vec<u8>) -> MemSource
        ensures left { left_of result ≡ bytes.items }
        ensures named { named_of result ≡ [] }
    {
        MemSource {
            bytes,
            at: 0,
            calls: 0,
            named: Vec::new(alloc),
            faults: 0,
        }
    }

    /// Lets these calls fail, counted from 1 since this call, in place of those that were named before. Without memory nothing changes.
    pub fn fail_at(&mut self, calls: &[u64]) -> Result<(), Memory>
        ensures named { OnOk result (named_of self.new ≡ calls.now) }
        ensures counted { OnOk result (calls_after self.new ≡ 1) }
        ensures left { left_of self.new ≡ left_of self.old }
        ensures faults { self.new.faults ≡ self.old.faults }
        ensures refused { OnErr result (self.new ≡ self.old) }
    {
        let Ok(named) = Vec::from_slice(*self.named.allocator(), calls) else {
            return Err(Memory);
        };
        self.named = named;
        self.calls = 0;
        Ok(())
    }
}

impl Source for MemSource {
    ghost use Rattle.std.specs.Prelude.{◌≡◌, ◌<◌, ◌+◌, ◌-◌, ◌^◌, ◌↔◌, min, [], length, drop, Some, IsErr, Contains};
    ghost use Rattle.std.specs.Io.{ReadsAtMost};
    ghost use Rattle.std.specs.Io.KnownBytes.{ReadConsumes};
    ghost use Rattle.cap_base.specs.Causes.{HasCause};
    ghost use Rattle.cap_base.specs.Memory.{left_of, named_of, calls_after};

    ghost left = { λ s. Some (drop s.at s.bytes.items) };

    ghost faults = { λ s. s.faults };

    fn take(&mut self, buf: &mut [u8]) -> Result<usize, Failed>
        requires { 0 < length buf.old }
        ensures bound { ReadsAtMost result buf.new }
        ensures bytes { ReadConsumes (Some (left_of self.old)) (Some (left_of self.new)) result buf.new }
        ensures cause { HasCause self.old.faults self.new.faults result }
        ensures named { IsErr result ↔ Contains self.old.named.items (calls_after self.old) }
        ensures same_named { named_of self.new ≡ named_of self.old }
        ensures counted { calls_after self.new ≡ min (calls_after self.old + 1) (2 ^ 64 - 1) }
        ensures quiet { (self.old.named.items ≡ []) → self.new.faults ≡ self.old.faults }
    {
        self.calls = self.calls.saturating_add(1);
        if self.named.contains(&self.calls) {
            self.faults = self.faults.saturating_add(1);
            return Err(Failed);
        }
        let left = self.bytes.as_slice().split_at(self.at).1;
        let count = copy_front(left, buf);
        self.at += count;
        Ok(count)
    }
}
