// The bytes that are held of an input.
ghost use Rattle.std.specs.Prelude.{◌≡◌, ◌≤◌, ◌<◌, ℕ, true, false, [], ◌++◌, length, take, position, OnOk};
ghost use Rattle.std.specs.Str.Lines.{strip_carriage_return};
ghost use Rattle.cap_lines.specs.Lines.{is_feed};
ghost use Rattle.cap_lines.specs.Holding.{HasNoFeed, SplitsLine};

use cap_base::Memory;
use std::alloc::Global;
use std::marker::Model;

/// The line at hand, and the bytes behind it. Contracts see these two, and for how many bytes there is room.
#[derive(Drop)]
pub struct Held {
    buffer: Vec<u8>,
    // Where the line at hand stands.
    from: usize,
    to: usize,
    // Where the bytes behind it begin, and up to where they were searched for a line feed.
    start: usize,
    searched: usize,
}

impl Model for Held {
    ghost use Rattle.std.specs.Prelude.{ℕ, List, ◌-◌, drop, vec_len, vec_capacity};
    ghost use Rattle.cap_lines.specs.Holding.{between, IsHolding};

    ghost Value = { List ℕ × List ℕ × ℕ };

    ghost view = { λ h. (between h.from h.to h.buffer.items, drop h.start h.buffer.items, vec_capacity h.buffer - vec_len h.buffer) };

    ghost invariant = { λ h. IsHolding h.buffer.items h.from h.to h.start h.searched };
}

// The place of the first line feed.
fn line_feed(bytes: &[u8]) -> Option<usize>
    ensures { result ≡ position is_feed bytes.now }
{
    bytes.iter().position(|b| *b == b'\n')
}

// How long the line is without the carriage return at its end.
fn stripped_len(line: &[u8]) -> usize
    ensures bytes { take result line.now ≡ strip_carriage_return line.now }
    ensures fits { result ≤ length line.now }
{
    if !line.is_empty() && line[line.len() - 1] == b'\r' {
        line.len() - 1
    } else {
        line.len()
    }
}

impl Held {
    /// Holds nothing.
    pub fn new(alloc: Global) -> Held
        ensures { result.1 ≡ [] }
    {
        Held {
            buffer: Vec::new(alloc),
            from: 0,
            to: 0,
            start: 0,
            searched: 0,
        }
    }

    /// The line at hand.
    pub fn line(&self) -> &[u8]
        ensures { result.now ≡ self.now.0 }
    {
        &self.buffer[self.from..self.to]
    }

    /// Whether no bytes stand behind the line at hand.
    pub fn is_empty(&self) -> bool
        ensures empty { result ≡ true → self.now.1 ≡ [] }
        ensures some { result ≡ false → 0 < length self.now.1 }
    {
        self.start == self.buffer.len()
    }

    /// Takes the next line that has ended to hand, and tells whether there is one.
    pub fn split_line(&mut self) -> bool
        ensures some { result ≡ true → SplitsLine self.old.1 self.new.0 self.new.1 }
        ensures none { result ≡ false → HasNoFeed self.new.1 × (self.new.1 ≡ self.old.1) }
    {
        let place = line_feed(&self.buffer[self.searched..]);
        let Some(at) = place else {
            self.searched = self.buffer.len();
            return false;
        };
        let end = self.searched + at;
        self.from = self.start;
        self.to = self.start + stripped_len(&self.buffer[self.start..end]);
        self.start = end + 1;
        self.searched = end + 1;
        true
    }

    /// Takes all the bytes to hand, as one line.
    pub fn split_rest(&mut self)
        ensures line { self.new.0 ≡ self.old.1 }
        ensures rest { self.new.1 ≡ [] }
    {
        self.from = self.start;
        self.to = self.buffer.len();
        self.start = self.buffer.len();
        self.searched = self.buffer.len();
    }

    /// Lets go of the line at hand, and makes room for so many bytes.
    pub fn make_room(&mut self, count: usize) -> Result<(), Memory>
        ensures rest { self.new.1 ≡ self.old.1 }
        ensures room { OnOk result (count ≤ self.new.2) }
    {
        let len = self.buffer.len() - self.start;
        if self.start > 0 {
            self.buffer.copy_within(self.start.., 0);
            self.buffer.truncate(len);
        }
        self.from = 0;
        self.to = 0;
        self.searched -= self.start;
        self.start = 0;
        self.buffer.reserve(count)?;
        Ok(())
    }

    /// Takes these bytes behind those that are held.
    pub fn push(&mut self, bytes: &[u8])
        requires { length bytes.now ≤ self.old.2 }
        ensures { self.new.1 ≡ self.old.1 ++ bytes.now }
    {
        let _ = self.buffer.extend_from_slice(bytes);
    }
}
