ghost use Rattle.std.specs.Prelude.{◌≡◌, ◌<◌, ◌≤◌, ◌+◌, ◌++◌, ◌∷◌, [], length, take, not, nat_lt, ◌||◌, true, false};
ghost use Rattle.std.specs.List.{list_any};
ghost use Rattle.cap_text.specs.Faults.{is_end};
ghost use Rattle.cap_text.specs.Room.{IsRoomy};

use arrayvec::ArrayVec;

/// The front of what was not read yet.
#[derive(Drop)]
pub(crate) struct Held {
    pub bytes: ArrayVec<u8, 128>,
    /// Whether it can't be read any more.
    pub stuck: bool,
    /// Whether a `>` stands in what was not read.
    pub ends: bool,
    ghost room: { IsRoomy bytes.items stuck ends },
}

// Whether a `>` stands in bytes.
fn has_end(bytes: &[u8]) -> bool
    ensures { result ≡ list_any is_end bytes.now }
{
    bytes.iter().any(|b| *b == b'>')
}

// Puts bytes behind others.
fn extend(held: &mut ArrayVec<u8, 128>, bytes: &[u8])
    requires { length held.old.items + length bytes.now ≤ 128 }
    ensures { held.new.items ≡ held.old.items ++ bytes.now }
{
    let _ = held.try_extend_from_slice(bytes);
}

impl Held {
    /// All before is read.
    pub fn nothing() -> Held
        ensures bytes { result.bytes.items ≡ [] }
        ensures stuck { result.stuck ≡ false }
        ensures ends { result.ends ≡ false }
    {
        Held {
            bytes: ArrayVec::new(),
            stuck: false,
            ends: false,
        }
    }

    /// Lets go what was a piece.
    pub fn clear(&mut self)
        requires { self.old.stuck ≡ false }
        ensures bytes { self.new.bytes.items ≡ [] }
        ensures stuck { self.new.stuck ≡ false }
        ensures ends { self.new.ends ≡ false }
    {
        self.bytes.clear();
    }

    /// What is held, with a `>` at its end, can't be read.
    pub fn bar(&mut self)
        requires { self.old.stuck ≡ false }
        ensures bytes { self.new.bytes.items ≡ self.old.bytes.items ++ 62 ∷ [] }
        ensures stuck { self.new.stuck ≡ true }
        ensures ends { self.new.ends ≡ true }
    {
        self.bytes.push(b'>');
        self.stuck = true;
        self.ends = true;
    }

    /// Keeps bytes that can't be read, while there is room.
    pub fn keep(&mut self, bytes: &[u8])
        requires { self.old.stuck ≡ true }
        ensures bytes { self.new.bytes.items ≡ take 128 (self.old.bytes.items ++ bytes.now) }
        ensures stuck { self.new.stuck ≡ true }
        ensures ends { self.new.ends ≡ (self.old.ends || list_any is_end bytes.now) }
    {
        let room = 128 - self.bytes.len();
        extend(&mut self.bytes, &bytes[..room.min(bytes.len())]);
        self.ends = self.ends || has_end(bytes);
    }

    /// Holds bytes that end no piece.
    pub fn hold(&mut self, bytes: &[u8])
        requires free { self.old.stuck ≡ false }
        requires room { length self.old.bytes.items + length bytes.now ≤ 128 }
        ensures bytes { self.new.bytes.items ≡ self.old.bytes.items ++ bytes.now }
        ensures stuck { self.new.stuck ≡ not (nat_lt (length self.old.bytes.items + length bytes.now) 128) }
        ensures ends { self.new.ends ≡ false }
    {
        extend(&mut self.bytes, bytes);
        self.stuck = !(self.bytes.len() < 128);
    }
}
