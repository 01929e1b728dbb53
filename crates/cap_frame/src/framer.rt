// Frames out of a stream.
ghost use Rattle.std.specs.Prelude.{◌≡◌, ◌≤◌, ◌<◌, ◌+◌, ◌-◌, ◌⊎◌, ◌↔◌, ℕ, min, max, List, [], ◌++◌, length, take, IfOk, IfErr, IfSome, IsErr, IsOk, IsSome, MatchOption, ⊤};
ghost use Rattle.std.specs.Borrow.{sem, follows_so};
ghost use mathlib.Core.Option.{none};
ghost use Rattle.cap_frame.specs.Frame.{IsBody, IsWhole, BeginsBad, frame_of, stated_length, held_of};

use crate::frames::length_in;
use cap_base::Memory;
use std::alloc::Global;
use std::marker::Model;

/// The bytes of a length and of the longest body.
const SIZE: usize = 65_540;

/// The bytes of the longest body.
const MOST: usize = 65_536;

/// A length that no frame has.
#[derive(Clone, Copy, Debug, PartialEq, Eq)]
pub struct BadLength(pub u64);

/// Cuts a stream into frames. Contracts see the bytes that it holds.
#[derive(Drop)]
pub struct Framer {
    buffer: Vec<u8>,
    len: usize,
}

impl Model for Framer {
    ghost use Rattle.std.specs.Prelude.{◌≡◌, ◌≤◌, ℕ, List, length, take};
    ghost use Rattle.cap_frame.specs.Frame.{end_of};

    ghost Value = { List ℕ };

    ghost view = { λ f. take f.len f.buffer.items };

    ghost invariant = { λ f. (length f.buffer.items ≡ 65540) × (f.len ≤ end_of (take f.len f.buffer.items)) };
}

// Writes these bytes at a place.
fn write_at(buffer: &mut Vec<u8>, at: usize, bytes: &[u8])
    requires { at + length bytes.now ≤ length buffer.old.items }
    ensures front { take (at + length bytes.now) buffer.new.items ≡ take at buffer.old.items ++ bytes.now }
    ensures size { length buffer.new.items ≡ length buffer.old.items }
{
    let count = bytes.len();
    buffer[at..at + count].copy_from_slice(bytes);
}

// Writes bytes behind the first `len` of the buffer, until `most` stand there, and tells how many.
fn fill(buffer: &mut Vec<u8>, len: usize, most: usize, bytes: &[u8]) -> usize
    requires len { len ≤ length buffer.old.items }
    requires most { most ≤ length buffer.old.items }
    ensures count { result ≡ min (most - len) (length bytes.now) }
    ensures front { take (len + result) buffer.new.items ≡ take len buffer.old.items ++ take result bytes.now }
    ensures size { length buffer.new.items ≡ length buffer.old.items }
{
    let count = most.saturating_sub(len).min(bytes.len());
    write_at(buffer, len, bytes.split_at(count).0);
    count
}

impl Framer {
    ghost use Rattle.cap_frame.specs.contracts.framer.Framer.{the_row};

    /// A framer that holds nothing. It takes all the memory that it will ever need.
    pub fn new(alloc: Global) -> Result<Framer, Memory>
        ensures { IfOk result (λ framer. framer ≡ []) }
    {
        let Ok(buffer) = Vec::from_elem(alloc, 0u8, SIZE) else {
            return Err(Memory);
        };
        Ok(Framer { buffer, len: 0 })
    }

    /// Takes bytes up to the end of the frame that is begun, and tells how many; it takes none exactly where a whole frame waits or there are
    /// none. `BadLength` comes exactly where the four bytes of a length are there and no frame has it, and at every later call.
    pub fn feed(&mut self, bytes: &[u8]) -> Result<usize, BadLength>
        ensures held { self.new ≡ held_of (self.old ++ bytes.now) }
        ensures size { length self.new ≤ 65540 }
        ensures took { IfOk result (λ n. (n ≤ length bytes.now) × (self.new ≡ self.old ++ take n bytes.now)) }
        ensures none { IfOk result (λ n. n ≡ 0 ↔ (IsWhole self.old ⊎ (bytes.now ≡ []))) }
        // The length is bad exactly where the bytes that were offered since the last frame begin with it.
        ensures bad { IsErr result ↔ BeginsBad (self.old ++ bytes.now) }
        ensures stated { IfErr result (λ error. error.0 ≡ stated_length self.new) }
        ensures from_then_on { IsErr result → BeginsBad self.new }
        ensures good { IsOk result → BeginsBad self.new → ⊥ }
        ensures begun { (n : ℕ) × (n ≤ length bytes.now) × (self.new ≡ self.old ++ take n bytes.now) }
    {
        let head = fill(&mut self.buffer, self.len, 4, bytes);
        self.len += head;
        if self.len < 4 {
            return Ok(head);
        }
        let length = length_in(self.buffer.as_slice().split_at(self.len).0) as usize;
        if length == 0 || length > MOST {
            return Err(BadLength(length as u64));
        }
        let rest = bytes.split_at(head).1;
        let body = fill(&mut self.buffer, self.len, 4 + length, rest);
        self.len += body;
        Ok(head + body)
    }

    /// The frame that waits. The framer then holds nothing.
    pub fn next(&mut self) -> Option<&[u8]>
        ensures* after { sem 𝓛 (follows_so the_row the_row self.entry.ghost_name none (λ _ _. ⊤) (λ held. MatchOption result (held ≡ self.old) (λ _. held ≡ []))) }
        ensures some { IfSome result (λ body. (self.old ≡ frame_of body.now) × IsBody body.now) }
        ensures waits { IsSome result ↔ IsWhole self.old }
    {
        if self.len < 4 {
            return None;
        }
        let length = length_in(self.buffer.as_slice().split_at(self.len).0) as usize;
        if length == 0 || length > MOST || self.len < 4 + length {
            return None;
        }
        self.len = 0;
        Some(self.buffer.as_slice().split_at(4 + length).0.split_at(4).1)
    }
}
