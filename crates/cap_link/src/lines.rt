// Connections in memory, one after the other.
ghost use Rattle.std.specs.Prelude.{◌≡◌, ◌≢◌, ◌≤◌, ◌<◌, ◌+◌, ◌^◌, ◌↔◌, ℕ, [], length, take, min, true, is_some, slice_get, Some, None, OnOk, OnErr, MatchOption, MatchBool};
ghost use Rattle.cap_link.specs.Lines.{Opens, Exchanges, HasNoneLeft, talks, puts_of};
ghost use Rattle.cap_link.specs.Pieces.{lists_of, one_if};

use crate::pieces::{cut_at, piece_at, put_at};
use cap_base::Memory;
use std::alloc::Global;
use std::marker::Model;

/// The connections with their bytes, and what was put on each that was opened. Of one that has ended only the bytes taken are kept.
#[derive(Drop)]
pub(crate) struct MemLines {
    connections: Vec<Vec<u8>>,
    puts: Vec<Vec<u8>>,
    ended: usize,
    is_open: bool,
    at: usize,
}

impl Model for MemLines {
    ghost use Rattle.std.specs.Prelude.{◌≤◌, ◌+◌, length};
    ghost use Rattle.cap_link.specs.Lines.{Lines};
    ghost use Rattle.cap_link.specs.Pieces.{lists_of, piece, one_if, told_of};

    ghost Value = { Lines };

    ghost view = { λ l. told_of (lists_of l.connections.items) (lists_of l.puts.items) l.ended l.is_open l.at };

    ghost invariant = { λ l. (l.ended + one_if l.is_open ≤ length l.connections.items) × (length l.puts.items ≤ l.ended + one_if l.is_open) × (l.at ≤ length (piece (lists_of l.connections.items) l.ended)) };
}

// How many connections were opened.
fn count_of(ended: usize, is_open: bool) -> usize
    requires { ended + one_if is_open < 2 ^ 64 }
    ensures { result ≡ ended + one_if is_open }
{
    if is_open { ended + 1 } else { ended }
}

// Copies as many bytes as there are, or as there is room for, and says how many.
fn copy_front(bytes: &[u8], buf: &mut [u8]) -> usize
    ensures count { result ≡ min (length bytes.now) (length buf.old) }
    ensures front { take result buf.new ≡ take result bytes.now }
{
    let count = bytes.len().min(buf.len());
    buf[..count].copy_from_slice(&bytes[..count]);
    count
}

impl MemLines {
    /// No connection is open yet.
    pub(crate) fn new(alloc: Global, connections: Vec<Vec<u8>>) -> MemLines
        ensures { result ≡ record { waiting = lists_of connections.items; ended = []; current = None } }
    {
        MemLines {
            connections,
            puts: Vec::new(alloc),
            ended: 0,
            is_open: false,
            at: 0,
        }
    }

    // Lets the open connection end.
    fn leave(&mut self)
        requires { is_some self.old.current ≡ true }
        ensures { self.new ≡ record { waiting = self.old.waiting; ended = talks self.old; current = None } }
    {
        cut_at(&mut self.connections, self.ended, self.at);
        self.ended += 1;
        self.is_open = false;
        self.at = 0;
    }

    // Opens the first connection left, where none is open.
    fn enter(&mut self)
        requires left { self.old.waiting ≢ [] }
        requires none { self.old.current ≡ None }
        ensures { Opens self.old self.new }
    {
        self.is_open = true;
        self.at = 0;
    }

    /// Opens the next connection, where one is left.
    pub(crate) fn open(&mut self) -> bool
        ensures { MatchBool result (Opens self.old self.new) ((self.old.waiting ≡ []) × (self.new ≡ self.old)) }
    {
        if self.connections.len() <= count_of(self.ended, self.is_open) {
            return false;
        }
        if self.is_open {
            self.leave();
        }
        self.enter();
        true
    }

    /// Takes the next bytes of the open connection, and tells how many.
    pub(crate) fn take(&mut self, buf: &mut [u8]) -> usize
        requires open { is_some self.old.current ≡ true }
        requires buf { 0 < length buf.old }
        ensures bound { result ≤ length buf.new }
        ensures bytes { Exchanges (take result buf.new) [] self.old self.new }
        ensures end { result ≡ 0 ↔ HasNoneLeft self.old }
    {
        let left = piece_at(&self.connections, self.ended).split_at(self.at).1;
        let count = copy_front(left, buf);
        self.at += count;
        count
    }

    /// Puts bytes on the open connection. Without memory nothing is put.
    pub(crate) fn put(&mut self, bytes: &[u8]) -> Result<(), Memory>
        requires { is_some self.old.current ≡ true }
        ensures ok { OnOk result (Exchanges [] bytes.now self.old self.new) }
        ensures err { OnErr result (self.new ≡ self.old) }
    {
        put_at(&mut self.puts, self.ended, bytes)
    }

    /// What was put on a connection, from 0, where it was opened.
    pub(crate) fn put_on(&self, i: usize) -> Option<&[u8]>
        ensures { MatchOption result (length (puts_of self.now) ≤ i) (λ bytes. slice_get (puts_of self.now) i ≡ Some bytes.now) }
    {
        if i < count_of(self.ended, self.is_open) {
            Some(piece_at(&self.puts, i))
        } else {
            None
        }
    }
}
