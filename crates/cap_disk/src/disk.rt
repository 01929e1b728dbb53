// A disk as a journal sees it.
ghost use Rattle.std.specs.Prelude.{◌≡◌, ◌≤◌, ◌<◌, ◌+◌, ◌^◌, ℕ, List, [], ◌∷◌, length, take, drop, Bool, Option, IsTrue, IfOk, OnOk, OnErr};
ghost use Rattle.cap_base.specs.Causes.{HasCause};
ghost use Rattle.cap_disk.specs.Disk.{Contents, MayLeave, Writes, all_synced, Elapses, Room, Uses, HasRoom, Counts, IsCounted, IsUncounted, StaysCounted};

use cap_base::{Failed, Memory};

/// Bytes that outlive a crash, as far as they were synced.
///
/// Between two syncs a crash may leave any bytes in each range that was written, and in all that lies past the old end; all other bytes
/// stay. A write that fails counts as written. After a sync that succeeds a crash leaves exactly what a read gives.
pub trait Disk: Drop {
    /// Whether contracts see its contents. A disk that tells them is honest.
    ghost tells: { Self → Bool };

    /// What it holds.
    ghost contents: { Self → Contents };

    /// The moment, as a number that doesn't fall.
    ghost moment: { Self → ℕ };

    /// The images that a crash at some moment from that one on might have left.
    ghost left_since: { Self → ℕ → List ℕ → Type 0 };

    /// The room for further writes and syncs.
    ghost room: { Self → Room };

    /// How often it has failed.
    ghost faults: { Self → ℕ };

    /// The calls of `len`, `write_at` and `sync` that it has answered, and the next that fails, where it tells these.
    ghost counts: { Self → Option Counts };

    /// The number of bytes.
    fn len(&mut self) -> Result<u64, Failed>
        ensures length { IsTrue (tells self.old) → IfOk result (λ n. n ≡ length (contents self.old).shown) }
        ensures tells { tells self.new ≡ tells self.old }
        ensures contents { IsTrue (tells self.old) → contents self.new ≡ contents self.old }
        ensures time { IsTrue (tells self.old) → Elapses (moment self.old) (moment self.new) (left_since self.old) (left_since self.new) (MayLeave (contents self.new)) }
        ensures room { room self.new ≡ room self.old }
        ensures cause { HasCause (faults self.old) (faults self.new) result }
        ensures counts { IsCounted (counts self.old) (counts self.new) result };

    /// Reads the bytes at a place. The range lies within the length.
    fn read_at(&mut self, place: u64, buf: &mut [u8]) -> Result<(), Failed>
        requires { IsTrue (tells self.old) → place + length buf.old ≤ length (contents self.old).shown }
        ensures bytes { IsTrue (tells self.old) → OnOk result (buf.new ≡ take (length buf.old) (drop place (contents self.old).shown)) }
        ensures tells { tells self.new ≡ tells self.old }
        ensures contents { IsTrue (tells self.old) → contents self.new ≡ contents self.old }
        ensures time { IsTrue (tells self.old) → Elapses (moment self.old) (moment self.new) (left_since self.old) (left_since self.new) (MayLeave (contents self.new)) }
        ensures room { room self.new ≡ room self.old }
        ensures cause { HasCause (faults self.old) (faults self.new) result }
        ensures counts { IsUncounted (counts self.old) (counts self.new) result };

    /// Writes over what is there, and past the end. Until a sync, a crash may leave any bytes in the range.
    fn write_at(&mut self, place: u64, bytes: &[u8]) -> Result<(), Failed>
        requires place { IsTrue (tells self.old) → place ≤ length (contents self.old).shown }
        requires fits { place + length bytes.now < 2 ^ 63 }
        requires room { HasRoom (length bytes.now) 1 (room self.old) }
        ensures written { IsTrue (tells self.old) → Writes place bytes.now result (contents self.old) (contents self.new) }
        ensures tells { tells self.new ≡ tells self.old }
        ensures time { IsTrue (tells self.old) → Elapses (moment self.old) (moment self.new) (left_since self.old) (left_since self.new) (MayLeave (contents self.new)) }
        ensures room { Uses (length bytes.now) 1 (room self.old) (room self.new) }
        ensures cause { HasCause (faults self.old) (faults self.new) result }
        ensures counts { IsCounted (counts self.old) (counts self.new) result };

    /// After it, a crash leaves what a read gives.
    fn sync(&mut self) -> Result<(), Failed>
        requires { HasRoom 0 1 (room self.old) }
        ensures synced { IsTrue (tells self.old) → OnOk result (contents self.new ≡ all_synced (contents self.old)) }
        ensures failed { IsTrue (tells self.old) → OnErr result (contents self.new ≡ contents self.old) }
        ensures tells { tells self.new ≡ tells self.old }
        ensures time { IsTrue (tells self.old) → Elapses (moment self.old) (moment self.new) (left_since self.old) (left_since self.new) (MayLeave (contents self.new)) }
        ensures room { Uses 0 1 (room self.old) (room self.new) }
        ensures cause { HasCause (faults self.old) (faults self.new) result }
        ensures counts { IsCounted (counts self.old) (counts self.new) result };

    /// Makes the room at least so large.
    fn make_room(&mut self, bytes: u64, calls: u64) -> Result<(), Memory>
        ensures ok { OnOk result (HasRoom bytes calls (room self.new)) }
        ensures room { Uses 0 0 (room self.old) (room self.new) }
        ensures tells { tells self.new ≡ tells self.old }
        ensures contents { IsTrue (tells self.old) → contents self.new ≡ contents self.old }
        ensures time { IsTrue (tells self.old) → Elapses (moment self.old) (moment self.new) (left_since self.old) (left_since self.new) (MayLeave (contents self.new)) }
        ensures faults { faults self.new ≡ faults self.old }
        ensures counts { StaysCounted (counts self.old) (counts self.new) };

    /// This moment is one of those since an earlier one.
    ghost counts_now: { (disk : Self) (t : ℕ) (image : List ℕ) → IsTrue (tells disk) → t ≤ moment disk → MayLeave (contents disk) image → left_since disk t image };

    /// Since this moment there is no other.
    ghost only_now: { (disk : Self) (image : List ℕ) → IsTrue (tells disk) → left_since disk (moment disk) image → MayLeave (contents disk) image };

    /// What a read gives is an image that a crash may leave.
    ghost shows_one: { (disk : Self) → IsTrue (tells disk) → MayLeave (contents disk) (contents disk).shown };
}
