// Journals as their callers see them.
ghost use Rattle.std.specs.Prelude.{◌≡◌, ◌≤◌, ◌<◌, ◌+◌, ◌-◌, ◌^◌, ◌++◌, min, ℕ, List, [], ◌∷◌, length, map, All, sum, Bool, true, false, Option, Some, IsTrue, IsOk, IfOk, OnOk, OnErr, IsErrOf, slice_get};
ghost use Rattle.cap_base.specs.Causes.{Rose};
ghost use Rattle.cap_disk.specs.Disk.{Counts, LeavesOnly, StaysCounted};
ghost use Rattle.cap_journal.specs.Kept.{HasFront};
ghost use Rattle.cap_journal.specs.File.{journal_of, Found, NotFormatted, Damaged, Has, HasEither};
ghost use Rattle.cap_journal.specs.Spare.{Suffices, Takes, NoLower};
ghost use Rattle.cap_journal.specs.declared.spare.Spare.{Spare};
ghost use Rattle.cap_journal.specs.declared.journal.OpenFault.TheVariants.{Disk as DiskFault, Memory as NoMemory};
ghost use Rattle.cap_journal.specs.Told.{IsCountedBy, HasAppendCause, IsQuiet};
ghost use Rattle.cap_journal.specs.Opening.{IsOpening, StopsAtLength};

use crate::Record;
use cap_base::{Failed, Memory};
use std::alloc::AllocError;

/// Why a journal refuses.
#[derive(Clone, Copy, Debug, PartialEq, Eq)]
pub enum JournalError {
    /// A call of its disk failed. Of an append the entries may stand or not.
    Disk,
    /// An earlier append, group or opening of this journal answered `Disk`, and it was not opened again since.
    Failed,
    Memory,
}

/// Why a journal was not opened again.
#[derive(Clone, Copy, Debug, PartialEq, Eq)]
pub enum OpenFault {
    Disk,
    /// The file has no bytes.
    NotFormatted,
    /// The group behind the open gate at this place isn't whole.
    Damaged(u64),
    Memory,
}

impl From<Failed> for OpenFault {
    ghost from_gives = { λ _ e. e ≡ DiskFault };

    fn from(_: Failed) -> Self {
        OpenFault::Disk
    }
}

impl From<Memory> for OpenFault {
    ghost from_gives = { λ _ e. e ≡ NoMemory };

    fn from(_: Memory) -> Self {
        OpenFault::Memory
    }
}

impl From<AllocError> for OpenFault {
    ghost from_gives = { λ _ e. e ≡ NoMemory };

    fn from(_: AllocError) -> Self {
        OpenFault::Memory
    }
}

/// A list of entries that a crash leaves whole.
///
/// An append or a group that answers Ok stands in every image that a crash may leave; at every moment of the call, and after its `Disk`,
/// every image has the entries from before it, or those with all the new ones.
pub trait Journal<E: Record> {
    /// The list of entries. What a call says of it counts where `is_readable` holds: a journal that keeps no entries in memory, over a disk that
    /// tells nothing, has no list to speak of.
    ghost entries: { Self → List E };

    /// How many entries there are, over any disk.
    ghost len: { Self → ℕ };

    /// The room for further entries.
    ghost spare: { Self → Spare };

    /// How often `entry` was called, up to the last u64.
    ghost fetched: { Self → ℕ };

    /// The faults of its disk.
    ghost faults: { Self → ℕ };

    /// The calls of its disk, and the next that fails, where the disk tells these.
    ghost counts: { Self → Option Counts };

    /// Whether `append` would now answer `Failed`.
    ghost has_failed: { Self → Bool };

    /// Whether `entry` gives the entries of the list: the journal keeps them in memory, or it is over an honest disk that tells its contents. No
    /// call changes this.
    ghost is_readable: { Self → Bool };

    /// Whether contracts see its images: it is over an honest disk.
    ghost tells: { Self → Bool };

    /// The image that a read of its file gives now.
    ghost shown: { Self → List ℕ };

    /// The images that a crash may leave now.
    ghost may_leave: { Self → List ℕ → Type 0 };

    /// The moment, as a number that doesn't fall.
    ghost moment: { Self → ℕ };

    /// The images that a crash at some moment from that one on might have left.
    ghost left_since: { Self → ℕ → List ℕ → Type 0 };

    /// How many entries there are.
    fn count(&self) -> u64
        ensures { result ≡ len self.now };

    /// Gives an entry; they count from 0. Where the entries aren't readable, `Memory` also comes where the bytes at its place are no record.
    fn entry(&mut self, i: u64) -> Result<E, JournalError>
        requires { i < len self.old }
        ensures value { IsTrue (is_readable self.old) → IfOk result (λ e. slice_get (entries self.old) i ≡ Some e) }
        ensures fetched { fetched self.new ≡ min (fetched self.old + 1) (2 ^ 64 - 1) }
        ensures disk { IsErrOf result JournalError.Disk → Rose (faults self.old) (faults self.new) }
        ensures never_failed { IsErrOf result JournalError.Failed → ⊥ }
        ensures counts { StaysCounted (counts self.old) (counts self.new) }
        ensures quiet { IsQuiet (counts self.old) (IsErrOf result JournalError.Disk) }
        ensures entries { entries self.new ≡ entries self.old }
        ensures len { len self.new ≡ len self.old }
        ensures spare { spare self.new ≡ spare self.old }
        ensures faults { faults self.old ≤ faults self.new }
        ensures has_failed { has_failed self.new ≡ has_failed self.old }
        ensures is_readable { is_readable self.new ≡ is_readable self.old }
        ensures tells { tells self.new ≡ tells self.old }
        ensures shown { IsTrue (tells self.old) → shown self.new ≡ shown self.old }
        ensures images { IsTrue (tells self.old) → LeavesOnly moment left_since self.old self.new (may_leave self.old) };

    /// Makes room for n more entries whose record has at most 72 bytes.
    fn reserve(&mut self, n: usize) -> Result<(), Memory>
        ensures ok { OnOk result (n ≤ (spare self.new).small) }
        ensures spare { NoLower (spare self.old) (spare self.new) }
        ensures entries { entries self.new ≡ entries self.old }
        ensures len { len self.new ≡ len self.old }
        ensures fetched { fetched self.new ≡ fetched self.old }
        ensures faults { faults self.new ≡ faults self.old }
        ensures counts { StaysCounted (counts self.old) (counts self.new) }
        ensures has_failed { has_failed self.new ≡ has_failed self.old }
        ensures is_readable { is_readable self.new ≡ is_readable self.old }
        ensures tells { tells self.new ≡ tells self.old }
        ensures shown { IsTrue (tells self.old) → shown self.new ≡ shown self.old }
        ensures images { IsTrue (tells self.old) → LeavesOnly moment left_since self.old self.new (may_leave self.old) };

    /// Makes room for one more entry of any size.
    fn reserve_rows(&mut self) -> Result<(), Memory>
        ensures ok { OnOk result (1 ≤ (spare self.new).rows) }
        ensures spare { NoLower (spare self.old) (spare self.new) }
        ensures entries { entries self.new ≡ entries self.old }
        ensures len { len self.new ≡ len self.old }
        ensures fetched { fetched self.new ≡ fetched self.old }
        ensures faults { faults self.new ≡ faults self.old }
        ensures counts { StaysCounted (counts self.old) (counts self.new) }
        ensures has_failed { has_failed self.new ≡ has_failed self.old }
        ensures is_readable { is_readable self.new ≡ is_readable self.old }
        ensures tells { tells self.new ≡ tells self.old }
        ensures shown { IsTrue (tells self.old) → shown self.new ≡ shown self.old }
        ensures images { IsTrue (tells self.old) → LeavesOnly moment left_since self.old self.new (may_leave self.old) };

    /// Adds an entry. At `Ok` every image has it; a crash in the call leaves the entries from before it, with the new one or without.
    fn append(&mut self, entry: E) -> Result<(), JournalError>
        requires fits { IsTrue (E.fits entry) }
        requires spare { Suffices (length (E.bytes_of entry) ∷ []) (spare self.old) }
        ensures ok { IsTrue (is_readable self.old) → OnOk result (entries self.new ≡ entries self.old ++ entry ∷ []) }
        ensures err { OnErr result (entries self.new ≡ entries self.old) }
        ensures len { OnOk result (len self.new ≡ len self.old + 1) }
        ensures err_len { OnErr result (len self.new ≡ len self.old) }
        ensures spare { OnOk result (Takes (length (E.bytes_of entry) ∷ []) (spare self.old) (spare self.new)) }
        ensures unspent { IsErrOf result JournalError.Failed → spare self.new ≡ spare self.old }
        ensures cause { HasAppendCause (has_failed self.old) (has_failed self.new) (faults self.old) (faults self.new) result }
        ensures counts { IsCountedBy 4 (has_failed self.old) (counts self.old) (counts self.new) result }
        ensures fetched { fetched self.new ≡ fetched self.old }
        ensures is_readable { is_readable self.new ≡ is_readable self.old }
        ensures tells { tells self.new ≡ tells self.old }
        ensures any_moment { IsTrue (tells self.old) → has_failed self.old ≡ false → LeavesOnly moment left_since self.old self.new (HasEither E.reading (entries self.old) (entries self.old ++ entry ∷ [])) }
        ensures refused { IsTrue (tells self.old) → IsErrOf result JournalError.Failed → LeavesOnly moment left_since self.old self.new (may_leave self.old) };

    /// Adds entries as one group: after a crash all stand or none does.
    fn append_group(&mut self, added: Vec<E>) -> Result<(), JournalError>
        requires some { 0 < length added.items }
        requires fits { All (λ entry. IsTrue (E.fits entry)) added.items }
        requires size { sum (map (λ entry. length (E.bytes_of entry)) added.items) ≤ 65536 }
        requires spare { Suffices (map (λ entry. length (E.bytes_of entry)) added.items) (spare self.old) }
        ensures ok { IsTrue (is_readable self.old) → OnOk result (entries self.new ≡ entries self.old ++ added.items) }
        ensures err { OnErr result (entries self.new ≡ entries self.old) }
        ensures len { OnOk result (len self.new ≡ len self.old + length added.items) }
        ensures err_len { OnErr result (len self.new ≡ len self.old) }
        ensures spare { OnOk result (Takes (map (λ entry. length (E.bytes_of entry)) added.items) (spare self.old) (spare self.new)) }
        ensures unspent { IsErrOf result JournalError.Failed → spare self.new ≡ spare self.old }
        ensures cause { HasAppendCause (has_failed self.old) (has_failed self.new) (faults self.old) (faults self.new) result }
        ensures counts { IsCountedBy 4 (has_failed self.old) (counts self.old) (counts self.new) result }
        ensures fetched { fetched self.new ≡ fetched self.old }
        ensures is_readable { is_readable self.new ≡ is_readable self.old }
        ensures tells { tells self.new ≡ tells self.old }
        ensures any_moment { IsTrue (tells self.old) → has_failed self.old ≡ false → LeavesOnly moment left_since self.old self.new (HasEither E.reading (entries self.old) (entries self.old ++ added.items)) }
        ensures refused { IsTrue (tells self.old) → IsErrOf result JournalError.Failed → LeavesOnly moment left_since self.old self.new (may_leave self.old) };

    /// Where the entries are readable, they are so many.
    ghost counted: { (journal : Self) → IsTrue (is_readable journal) → len journal ≡ length (entries journal) };

    /// A journal whose images contracts see is readable.
    ghost told_is_readable: { (journal : Self) → IsTrue (tells journal) → IsTrue (is_readable journal) };

    /// Where no call has failed, a crash leaves what a read gives.
    ghost settled: { (journal : Self) (image : List ℕ) → IsTrue (tells journal) → has_failed journal ≡ false → may_leave journal image → image ≡ shown journal };

    /// Where no call has failed, every image has exactly the entries.
    ghost kept: { (journal : Self) (image : List ℕ) → IsTrue (tells journal) → has_failed journal ≡ false → may_leave journal image → Has E.reading image (entries journal) };

    /// Every image has the entries at its head, whether a call has failed or not.
    ghost stands: { (journal : Self) (image : List ℕ) → IsTrue (tells journal) → may_leave journal image → HasFront E.reading (entries journal) image };

    /// This moment is one of those since an earlier one.
    ghost counts_now: { (journal : Self) (t : ℕ) (image : List ℕ) → IsTrue (tells journal) → t ≤ moment journal → may_leave journal image → left_since journal t image };

    /// Since this moment there is no other.
    ghost only_now: { (journal : Self) (image : List ℕ) → IsTrue (tells journal) → left_since journal (moment journal) image → may_leave journal image };

    /// What a read gives is an image that a crash may leave.
    ghost shows_one: { (journal : Self) → IsTrue (tells journal) → may_leave journal (shown journal) };
}

/// A journal whose file can be opened again after a fault.
pub trait Reopen<E: Record>: Journal<E> {
    /// Opens the file again. Every image during it is one that a crash could leave before it. After Ok no earlier failure counts; after a
    /// refusal the entries are as they were.
    fn reopen(&mut self) -> Result<(), OpenFault>
        ensures ok { OnOk result (Self.has_failed self.new ≡ false) }
        ensures entries { IsTrue (Self.tells self.old) → OnOk result (Has E.reading (Self.shown self.old) (Self.entries self.new)) }
        ensures refused { OnErr result (Self.entries self.new ≡ Self.entries self.old) }
        ensures len { OnErr result (Self.len self.new ≡ Self.len self.old) }
        ensures empty { IsTrue (Self.tells self.old) → IsErrOf result OpenFault.NotFormatted → Self.shown self.old ≡ [] }
        ensures not_formatted { IsTrue (Self.tells self.old) → IsErrOf result OpenFault.NotFormatted → journal_of E.reading (Self.shown self.old) ≡ NotFormatted }
        ensures damaged { IsTrue (Self.tells self.old) → (place : ℕ) → IsErrOf result (OpenFault.Damaged place) → journal_of E.reading (Self.shown self.old) ≡ Damaged place }
        ensures faults { Self.faults self.old ≤ Self.faults self.new }
        ensures disk { IsErrOf result OpenFault.Disk → Rose (Self.faults self.old) (Self.faults self.new) }
        ensures failed { IsErrOf result OpenFault.Disk → Self.has_failed self.new ≡ true }
        ensures still { OnErr result ((IsErrOf result OpenFault.Disk → ⊥) → Self.has_failed self.new ≡ Self.has_failed self.old) }
        ensures counts { IsOpening (Self.counts self.old) (Self.counts self.new) (IsOk result) (IsErrOf result OpenFault.Disk) (IsErrOf result OpenFault.Memory) }
        ensures fetched { Self.fetched self.new ≡ Self.fetched self.old }
        ensures is_readable { Self.is_readable self.new ≡ Self.is_readable self.old }
        ensures tells { Self.tells self.new ≡ Self.tells self.old }
        ensures shown { IsTrue (Self.tells self.old) → Self.shown self.new ≡ Self.shown self.old }
        ensures any_moment { IsTrue (Self.tells self.old) → LeavesOnly Self.moment Self.left_since self.old self.new (Self.may_leave self.old) }
        // the sync went well where the length failed: one image is left
        ensures one_left { IsTrue (Self.tells self.old) → StopsAtLength (Self.counts self.old) → IsErrOf result OpenFault.Disk → (image : List ℕ) → Self.may_leave self.new image → image ≡ Self.shown self.old };
}
