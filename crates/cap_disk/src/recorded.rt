// What a disk in memory holds, with a record of all that was written.
ghost use Rattle.std.specs.Prelude.{◌≡◌, ◌≤◌, ◌+◌, ◌++◌, ℕ, List, [], ◌∷◌, length, take, drop, vec_len, vec_capacity};
ghost use Rattle.cap_disk.specs.History.{start, after, all_taken, lens};

use crate::arming::Fill;
use crate::laying::{append, append_byte, fill_over, lay_over};
use crate::surviving::survive;
use cap_base::Memory;
use std::alloc::Global;

/// A call that a disk in memory recorded.
#[derive(Clone, Copy, Debug, PartialEq, Eq)]
pub enum Call {
    /// A write that a read gives.
    Write { place: u64, len: u64 },
    /// A write that failed and left the bytes as they were.
    Blank { place: u64, len: u64 },
    /// A write that failed because the power was cut before.
    Late { place: u64, len: u64 },
    /// A sync that succeeded.
    Sync,
}

const MOST: u64 = 1 << 60;

/// The bytes at the start, those that a read gives, and all calls between with their bytes. It has room for further calls, and for what
/// a restart makes of them.
#[derive(Drop)]
pub struct Recorded {
    pub first: Vec<u8>,
    pub shown: Vec<u8>,
    pub log: Vec<Call>,
    pub bytes: Vec<u8>,
    /// How many bytes all writes have.
    pub written: u64,
    pub room_bytes: u64,
    pub room_calls: u64,
    ghost agrees: { shown.items ≡ (after (start first.items) log.items bytes.items).shown },
    ghost kept_bytes: { all_taken log.items ≡ length bytes.items },
    ghost all_written: { written ≡ lens log.items },
    ghost short: { length shown.items ≤ length first.items + written },
    ghost log_room: { vec_len log + room_calls ≤ vec_capacity log },
    ghost bytes_room: { vec_len bytes + room_bytes ≤ vec_capacity bytes },
    ghost shown_room: { length first.items + written + room_bytes ≤ vec_capacity shown },
    ghost first_room: { length first.items + written + room_bytes ≤ vec_capacity first },
}

impl Recorded {
    ghost use Rattle.std.specs.Prelude.{◌≡◌, ◌≤◌, ◌+◌, ◌-◌, ℕ, [], length, OnOk, OnErr, replicate};
    ghost use Rattle.cap_disk.specs.Disk.{MayLeave, Elapses, HasRoom, Uses};
    ghost use Rattle.cap_disk.specs.History.{start, step, len_of, IsNoWrite};
    ghost use Rattle.cap_disk.specs.Recorded.{contents_in, moment_in, left_in, room_in, history_in, restarted};
    ghost use Rattle.cap_disk.specs.declared.recorded.Call.TheVariants.{Write};

    pub fn new(alloc: Global) -> Recorded
        ensures contents { contents_in result ≡ start [] }
        ensures room { room_in result ≡ record { bytes = 0; calls = 0 } }
    {
        Recorded {
            first: Vec::new(alloc),
            shown: Vec::new(alloc),
            log: Vec::new(alloc),
            bytes: Vec::new(alloc),
            written: 0,
            room_bytes: 0,
            room_calls: 0,
        }
    }

    /// Records a write that a read gives.
    pub fn lay(&mut self, place: u64, bytes: &[u8])
        requires { HasRoom (length bytes.now) 1 (room_in self.old) }
        ensures contents { contents_in self.new ≡ step (contents_in self.old) (Write place (length bytes.now)) bytes.now }
        ensures time { Elapses (moment_in self.old) (moment_in self.new) (left_in self.old) (left_in self.new) (MayLeave (contents_in self.new)) }
        ensures room { Uses (length bytes.now) 1 (room_in self.old) (room_in self.new) }
    {
        let len = bytes.len() as u64;
        self.room_calls -= 1;
        self.room_bytes -= len;
        self.log.push_reserved(Call::Write { place, len });
        append(&mut self.bytes, bytes);
        lay_over(&mut self.shown, place, bytes);
        self.written += len;
    }

    /// Records a write of one byte throughout, which a read gives.
    pub fn fill(&mut self, place: u64, len: u64, byte: u8)
        requires { HasRoom len 1 (room_in self.old) }
        ensures contents { contents_in self.new ≡ step (contents_in self.old) (Write place len) (replicate len byte) }
        ensures time { Elapses (moment_in self.old) (moment_in self.new) (left_in self.old) (left_in self.new) (MayLeave (contents_in self.new)) }
        ensures room { Uses len 1 (room_in self.old) (room_in self.new) }
    {
        self.room_calls -= 1;
        self.room_bytes -= len;
        self.log.push_reserved(Call::Write { place, len });
        append_byte(&mut self.bytes, len, byte);
        fill_over(&mut self.shown, place, len, byte);
        self.written += len;
    }

    /// Records a call that changes nothing that a read gives.
    pub fn note(&mut self, call: Call, len: u64)
        requires quiet { IsNoWrite call }
        requires len { len ≡ len_of call }
        requires room { HasRoom len 1 (room_in self.old) }
        ensures contents { contents_in self.new ≡ step (contents_in self.old) call [] }
        ensures time { Elapses (moment_in self.old) (moment_in self.new) (left_in self.old) (left_in self.new) (MayLeave (contents_in self.new)) }
        ensures room { Uses len 1 (room_in self.old) (room_in self.new) }
    {
        self.room_calls -= 1;
        self.room_bytes -= len;
        self.log.push_reserved(call);
        self.written += len;
    }

    /// Makes the room at least so large.
    pub fn make_room(&mut self, bytes: u64, calls: u64) -> Result<(), Memory>
        ensures ok { OnOk result (HasRoom bytes calls (room_in self.new)) }
        ensures room { Uses 0 0 (room_in self.old) (room_in self.new) }
        ensures history { history_in self.new ≡ history_in self.old }
    {
        if bytes > MOST || calls > MOST || self.written > MOST {
            return Err(Memory);
        }
        self.log.reserve(calls as usize)?;
        self.bytes.reserve(bytes as usize)?;
        let all = (self.written + bytes) as usize;
        self.first.reserve(all)?;
        let more = self.first.len() + all - self.shown.len();
        self.shown.reserve(more)?;
        self.room_bytes = self.room_bytes.max(bytes);
        self.room_calls = self.room_calls.max(calls);
        Ok(())
    }

    /// The disk after a cut with this fill, or with no cut: the bytes that survived, and nothing recorded.
    pub fn restart(self, cut: Option<Fill>) -> Recorded
        ensures contents { contents_in result ≡ start (restarted cut self) }
        ensures room { room_in result ≡ record { bytes = 0; calls = 0 } }
    {
        let Recorded {
            mut first,
            mut shown,
            mut log,
            mut bytes,
            ..
        } = self;
        survive(
            &mut first,
            &mut shown,
            log.as_slice(),
            bytes.as_slice(),
            cut,
        );
        log.clear();
        bytes.clear();
        Recorded {
            first,
            shown,
            log,
            bytes,
            written: 0,
            room_bytes: 0,
            room_calls: 0,
        }
    }
}
