// Marks: the places of the records of a journal that keeps no entries.
ghost use Rattle.std.specs.Prelude.{◌≡◌, ◌≤◌, ◌<◌, ◌+◌, ◌-◌, ◌^◌, ◌++◌, ℕ, List, [], ◌∷◌, length, take, drop, replicate, map, sum, All, Bool, Some, slice_get, slice_index, IsTrue, IfOk, OnOk, OnErr, IsErrOf, vec_len, vec_capacity};
ghost use Rattle.cap_base.specs.Causes.{HasCause, Rose};
ghost use Rattle.cap_disk.specs.Disk.{LeavesOnly, HasRoom, Uses, IsQuiet};
ghost use Rattle.cap_pages.specs.Reading.{OnlyReads};
ghost use Rattle.cap_pages.specs.Pages.{Page, ArePages};
ghost use Rattle.cap_pages.specs.Cache.{pages_of};
ghost use Rattle.cap_journal.specs.File.{journal_of, Whole, HasEither};
ghost use Rattle.cap_journal.specs.Group.{IsSettled, IsRun};
ghost use Rattle.cap_pages.specs.Paged.{marks_of, gate_in, place_in, listed};

use crate::cache::{PageCache, PageError};
use cap_base::Failed;
use cap_disk::Disk;
use cap_journal::{JournalError, Record, write_added};
use std::alloc::Global;

// A mark is the gate of the record's group times this, and how many bytes of the group's body stand before the record.
const STEP: u64 = 65_536;

// The most bytes of a record.
const LARGEST: u64 = 65_536;

/// The gate of the group of a record.
pub fn gate_of(mark: u64) -> u64
    ensures { result ≡ gate_in mark }
{
    mark / STEP
}

/// The place of a record.
pub fn place_of(mark: u64) -> u64
    ensures { result ≡ place_in mark }
{
    mark / STEP + 5 + mark % STEP
}

/// Notes a mark for the record of each of these entries, which are a group behind a gate. There is room.
pub fn note_marks<E: Record>(marks: &mut Vec<u64>, gate: u64, added: &[E])
    requires fits { All (λ entry. IsTrue (E.fits entry)) added.now }
    requires size { sum (map (λ entry. length (E.bytes_of entry)) added.now) ≤ 65536 }
    requires near { gate < 2 ^ 47 }
    requires room { vec_len marks.old + length added.now ≤ vec_capacity marks.old }
    ensures items { marks.new.items ≡ marks.old.items ++ marks_of E.bytes_of gate 0 added.now }
    ensures capacity { vec_capacity marks.new ≡ vec_capacity marks.old }
{
    let mut before = 0;
    for entry in added {
        marks.push_reserved(gate * STEP + before);
        before += entry.size() as u64;
    }
}

/// Writes entries as one group behind the last gate, notes their marks, and gives the place of the new last gate.
pub fn write_marked<E: Record, D: Disk>(
    disk: &mut D,
    buffer: &mut Vec<u8>,
    marks: &mut Vec<u64>,
    end: u64,
    added: &[E],
) -> Result<u64, Failed>
    requires some { 0 < length added.now }
    requires fits { All (λ entry. IsTrue (E.fits entry)) added.now }
    requires size { sum (map (λ entry. length (E.bytes_of entry)) added.now) ≤ 65536 }
    requires buffer { 65541 ≤ vec_capacity buffer.old }
    requires marks_room { vec_len marks.old + length added.now ≤ vec_capacity marks.old }
    requires room { HasRoom (sum (map (λ entry. length (E.bytes_of entry)) added.now) + 6) 4 (D.room disk.old) }
    requires near { end < 2 ^ 46 }
    requires settled { IsTrue (D.tells disk.old) → IsSettled (D.contents disk.old) }
    requires whole { IsTrue (D.tells disk.old) → journal_of E.reading (D.contents disk.old).shown ≡ Whole (listed E.reading (take end (D.contents disk.old).shown) marks.old.items) (map gate_in marks.old.items) end }
    requires all_read { IsTrue (D.tells disk.old) → length (listed E.reading (take end (D.contents disk.old).shown) marks.old.items) ≡ length marks.old.items }
    ensures end { IfOk result (λ now. now ≡ end + 5 + sum (map (λ entry. length (E.bytes_of entry)) added.now)) }
    ensures whole { IsTrue (D.tells disk.old) → IfOk result (λ now. journal_of E.reading (D.contents disk.new).shown ≡ Whole (listed E.reading (take now (D.contents disk.new).shown) marks.new.items) (map gate_in marks.new.items) now) }
    ensures list { IsTrue (D.tells disk.old) → IfOk result (λ now. listed E.reading (take now (D.contents disk.new).shown) marks.new.items ≡ listed E.reading (take end (D.contents disk.old).shown) marks.old.items ++ added.now) }
    ensures all_read { IsTrue (D.tells disk.old) → IfOk result (λ now. length (listed E.reading (take now (D.contents disk.new).shown) marks.new.items) ≡ length marks.new.items) }
    ensures many { OnOk result (length marks.new.items ≡ length marks.old.items + length added.now) }
    ensures err { OnErr result (marks.new.items ≡ marks.old.items) }
    ensures front { IsTrue (D.tells disk.old) → take end (D.contents disk.new).shown ≡ take end (D.contents disk.old).shown }
    ensures held { (pages : List Page) → IsTrue (D.tells disk.old) → ArePages pages (take end (D.contents disk.old).shown) → IfOk result (λ now. ArePages pages (take now (D.contents disk.new).shown)) }
    ensures below { IsTrue (D.tells disk.old) → IfOk result (λ now. now < length (D.contents disk.new).shown) }
    ensures long { IsTrue (D.tells disk.old) → length (D.contents disk.old).shown ≤ length (D.contents disk.new).shown }
    ensures any_moment { IsTrue (D.tells disk.old) → LeavesOnly D.moment D.left_since disk.old disk.new (HasEither E.reading (listed E.reading (take end (D.contents disk.old).shown) marks.old.items) (listed E.reading (take end (D.contents disk.old).shown) marks.old.items ++ added.now)) }
    ensures settled { IsTrue (D.tells disk.old) → OnOk result (IsSettled (D.contents disk.new)) }
    ensures tells { D.tells disk.new ≡ D.tells disk.old }
    ensures room { Uses (sum (map (λ entry. length (E.bytes_of entry)) added.now) + 6) 4 (D.room disk.old) (D.room disk.new) }
    ensures cause { HasCause (D.faults disk.old) (D.faults disk.new) result }
    ensures counts { IsRun 4 (D.counts disk.old) (D.counts disk.new) result }
    ensures buffer_capacity { vec_capacity buffer.new ≡ vec_capacity buffer.old }
    ensures marks_capacity { vec_capacity marks.new ≡ vec_capacity marks.old }
{
    let now = write_added(disk, buffer, end, added)?;
    note_marks(marks, end, added);
    Ok(now)
}

/// The same for one entry, for which there is room in an empty list.
pub fn write_one<E: Record, D: Disk>(
    disk: &mut D,
    buffer: &mut Vec<u8>,
    marks: &mut Vec<u64>,
    end: u64,
    one: &mut Vec<E>,
    entry: E,
) -> Result<u64, Failed>
    requires fits { IsTrue (E.fits entry) }
    requires none { one.old.items ≡ [] }
    requires one_room { 1 ≤ vec_capacity one.old }
    requires buffer { 65541 ≤ vec_capacity buffer.old }
    requires marks_room { vec_len marks.old + 1 ≤ vec_capacity marks.old }
    requires room { HasRoom (length (E.bytes_of entry) + 6) 4 (D.room disk.old) }
    requires near { end < 2 ^ 46 }
    requires settled { IsTrue (D.tells disk.old) → IsSettled (D.contents disk.old) }
    requires whole { IsTrue (D.tells disk.old) → journal_of E.reading (D.contents disk.old).shown ≡ Whole (listed E.reading (take end (D.contents disk.old).shown) marks.old.items) (map gate_in marks.old.items) end }
    requires all_read { IsTrue (D.tells disk.old) → length (listed E.reading (take end (D.contents disk.old).shown) marks.old.items) ≡ length marks.old.items }
    ensures end { IfOk result (λ now. now ≡ end + 5 + length (E.bytes_of entry)) }
    ensures whole { IsTrue (D.tells disk.old) → IfOk result (λ now. journal_of E.reading (D.contents disk.new).shown ≡ Whole (listed E.reading (take now (D.contents disk.new).shown) marks.new.items) (map gate_in marks.new.items) now) }
    ensures list { IsTrue (D.tells disk.old) → IfOk result (λ now. listed E.reading (take now (D.contents disk.new).shown) marks.new.items ≡ listed E.reading (take end (D.contents disk.old).shown) marks.old.items ++ entry ∷ []) }
    ensures all_read { IsTrue (D.tells disk.old) → IfOk result (λ now. length (listed E.reading (take now (D.contents disk.new).shown) marks.new.items) ≡ length marks.new.items) }
    ensures many { OnOk result (length marks.new.items ≡ length marks.old.items + 1) }
    ensures err { OnErr result (marks.new.items ≡ marks.old.items) }
    ensures front { IsTrue (D.tells disk.old) → take end (D.contents disk.new).shown ≡ take end (D.contents disk.old).shown }
    ensures held { (pages : List Page) → IsTrue (D.tells disk.old) → ArePages pages (take end (D.contents disk.old).shown) → IfOk result (λ now. ArePages pages (take now (D.contents disk.new).shown)) }
    ensures below { IsTrue (D.tells disk.old) → IfOk result (λ now. now < length (D.contents disk.new).shown) }
    ensures long { IsTrue (D.tells disk.old) → length (D.contents disk.old).shown ≤ length (D.contents disk.new).shown }
    ensures any_moment { IsTrue (D.tells disk.old) → LeavesOnly D.moment D.left_since disk.old disk.new (HasEither E.reading (listed E.reading (take end (D.contents disk.old).shown) marks.old.items) (listed E.reading (take end (D.contents disk.old).shown) marks.old.items ++ entry ∷ [])) }
    ensures settled { IsTrue (D.tells disk.old) → OnOk result (IsSettled (D.contents disk.new)) }
    ensures tells { D.tells disk.new ≡ D.tells disk.old }
    ensures room { Uses (length (E.bytes_of entry) + 6) 4 (D.room disk.old) (D.room disk.new) }
    ensures cause { HasCause (D.faults disk.old) (D.faults disk.new) result }
    ensures counts { IsRun 4 (D.counts disk.old) (D.counts disk.new) result }
    ensures buffer_capacity { vec_capacity buffer.new ≡ vec_capacity buffer.old }
    ensures marks_capacity { vec_capacity marks.new ≡ vec_capacity marks.old }
    ensures emptied { one.new.items ≡ [] }
    ensures one_capacity { vec_capacity one.new ≡ vec_capacity one.old }
{
    one.push_reserved(entry);
    let now = write_marked(disk, buffer, marks, end, one.as_slice());
    one.clear();
    now
}

// A place that stands behind a record, and before the next one of its group.
fn limit_of(marks: &[u64], i: usize, end: u64) -> u64
    requires { i < length marks.now }
{
    if i + 1 >= marks.len() {
        return end;
    }
    let next = marks[i + 1];
    if gate_of(next) == gate_of(marks[i]) {
        place_of(next)
    } else {
        gate_of(next)
    }
}

// Reads the bytes between two places below the last gate.
fn read_between<D: Disk>(
    alloc: Global,
    pages: &mut PageCache,
    disk: &mut D,
    end: u64,
    place: u64,
    limit: u64,
) -> Result<Vec<u8>, JournalError>
    requires short { end < 2 ^ 62 }
    requires long { IsTrue (D.tells disk.old) → end < length (D.contents disk.old).shown }
    requires pages { IsTrue (D.tells disk.old) → ArePages (pages_of pages.old) (take end (D.contents disk.old).shown) }
    ensures bytes { IsTrue (D.tells disk.old) → IfOk result (λ bytes. bytes.items ≡ take (length bytes.items) (drop place (take end (D.contents disk.old).shown))) }
    ensures pages { IsTrue (D.tells disk.old) → ArePages (pages_of pages.new) (take end (D.contents disk.old).shown) }
    ensures reads { OnlyReads D.tells D.contents D.moment D.left_since D.room D.faults D.counts disk.old disk.new }
    ensures disk { IsErrOf result JournalError.Disk → Rose (D.faults disk.old) (D.faults disk.new) }
    ensures quiet { IsQuiet (D.counts disk.old) (IsErrOf result JournalError.Disk) }
    ensures not_failed { IsErrOf result JournalError.Failed → ⊥ }
{
    untouched(disk);
    if limit <= place || limit > end || limit - place > LARGEST {
        return Err(JournalError::Memory);
    }
    let mut bytes = match vec![in alloc; 0; (limit - place) as usize] {
        Ok(bytes) => bytes,
        Err(_) => return Err(JournalError::Memory),
    };
    match pages.read(disk, end, place, bytes.as_mut_slice()) {
        Ok(()) => Ok(bytes),
        Err(PageError::Disk) => Err(JournalError::Disk),
        Err(PageError::Memory) => Err(JournalError::Memory),
    }
}

/// Does nothing.
pub fn untouched<D: Disk>(disk: &D)
    ensures { OnlyReads D.tells D.contents D.moment D.left_since D.room D.faults D.counts disk.now disk.now }
{}

/// Reads the record at a mark. `Memory` also comes where the bytes there are none.
pub fn read_marked<E: Record, D: Disk>(
    alloc: Global,
    pages: &mut PageCache,
    disk: &mut D,
    end: u64,
    marks: &[u64],
    i: usize,
) -> Result<E, JournalError>
    requires there { i < length marks.now }
    requires short { end < 2 ^ 62 }
    requires long { IsTrue (D.tells disk.old) → end < length (D.contents disk.old).shown }
    requires pages { IsTrue (D.tells disk.old) → ArePages (pages_of pages.old) (take end (D.contents disk.old).shown) }
    requires all_read { IsTrue (D.tells disk.old) → length (listed E.reading (take end (D.contents disk.old).shown) marks.now) ≡ length marks.now }
    ensures value { IsTrue (D.tells disk.old) → IfOk result (λ entry. slice_get (listed E.reading (take end (D.contents disk.old).shown) marks.now) i ≡ Some entry) }
    ensures pages { IsTrue (D.tells disk.old) → ArePages (pages_of pages.new) (take end (D.contents disk.old).shown) }
    ensures reads { OnlyReads D.tells D.contents D.moment D.left_since D.room D.faults D.counts disk.old disk.new }
    ensures disk { IsErrOf result JournalError.Disk → Rose (D.faults disk.old) (D.faults disk.new) }
    ensures quiet { IsQuiet (D.counts disk.old) (IsErrOf result JournalError.Disk) }
    ensures not_failed { IsErrOf result JournalError.Failed → ⊥ }
{
    let place = place_of(marks[i]);
    let bytes = read_between(alloc, pages, disk, end, place, limit_of(marks, i, end))?;
    match E::read(alloc, bytes.as_slice()) {
        Ok(Some((entry, _))) => Ok(entry),
        Ok(None) => Err(JournalError::Memory),
        Err(_) => Err(JournalError::Memory),
    }
}
