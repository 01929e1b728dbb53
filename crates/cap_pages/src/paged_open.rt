// Opening a file whose entries are not kept: it is read page by page, one group after the other.
ghost use Rattle.std.specs.Prelude.{◌≡◌, ◌≤◌, ◌<◌, ◌+◌, ◌^◌, ℕ, List, [], length, take, drop, map, slice_index, ◌==◌, false, Ok, None, IsTrue, IsOk, IfOk, OnOk, IsErrOf, IfSome};
ghost use Rattle.cap_base.specs.Causes.{Rose};
ghost use Rattle.cap_disk.specs.Disk.{MayLeave, HasRoom, LeavesOnly, IsQuiet};
ghost use Rattle.cap_pages.specs.Reading.{OnlyReads};
ghost use Rattle.cap_pages.specs.Pages.{ArePages};
ghost use Rattle.cap_pages.specs.Cache.{pages_of, most_of};
ghost use Rattle.cap_journal.specs.File.{journal_of, behind, Whole, Damaged, group_length, fits_group, group_of};
ghost use Rattle.cap_journal.specs.Reading.{groups_from};
ghost use Rattle.cap_journal.specs.Group.{IsSettled};
ghost use Rattle.cap_journal.specs.Opening.{IsOpening, StopsAtLength};
ghost use Rattle.cap_pages.specs.Paged.{gate_in, listed, IsNoted};

use crate::cache::{PageCache, PageError};
use crate::marks::{note_marks, untouched};
use byteorder::{BigEndian, ByteOrder};
use cap_disk::Disk;
use cap_journal::{MOST, OPEN, OpenFault, Record, read_group, settle};
use std::alloc::Global;

// A longer file is not read.
const FAR: u64 = 1 << 45;

/// What opening found on a disk: the marks of the records, and the last gate.
#[derive(Drop)]
pub struct Marked {
    pub marks: Vec<u64>,
    pub end: u64,
}

// Reads so many bytes of a file of this length.
fn read_range<D: Disk>(
    alloc: Global,
    pages: &mut PageCache,
    disk: &mut D,
    len: u64,
    place: u64,
    size: usize,
) -> Result<Vec<u8>, OpenFault>
    requires within { place + size ≤ len }
    requires short { len < 2 ^ 45 }
    requires long { IsTrue (D.tells disk.old) → len ≡ length (D.contents disk.old).shown }
    requires pages { IsTrue (D.tells disk.old) → ArePages (pages_of pages.old) (take len (D.contents disk.old).shown) }
    ensures bytes { IsTrue (D.tells disk.old) → IfOk result (λ bytes. bytes.items ≡ take size (drop place (D.contents disk.old).shown)) }
    ensures len { IfOk result (λ bytes. length bytes.items ≡ size) }
    ensures pages { IsTrue (D.tells disk.old) → ArePages (pages_of pages.new) (take len (D.contents disk.old).shown) }
    ensures most { most_of pages.new ≡ most_of pages.old }
    ensures reads { OnlyReads D.tells D.contents D.moment D.left_since D.room D.faults D.counts disk.old disk.new }
    ensures disk { IsErrOf result OpenFault.Disk → Rose (D.faults disk.old) (D.faults disk.new) }
    ensures quiet { IsQuiet (D.counts disk.old) (IsErrOf result OpenFault.Disk) }
    ensures not_damaged { (at : ℕ) → IsErrOf result (OpenFault.Damaged at) → ⊥ }
    ensures formatted { IsErrOf result OpenFault.NotFormatted → ⊥ }
{
    untouched(disk);
    let mut bytes = match vec![in alloc; 0; size] {
        Ok(bytes) => bytes,
        Err(_) => return Err(OpenFault::Memory),
    };
    match pages.read(disk, len, place, bytes.as_mut_slice()) {
        Ok(()) => Ok(bytes),
        Err(PageError::Disk) => Err(OpenFault::Disk),
        Err(PageError::Memory) => Err(OpenFault::Memory),
    }
}

// Whether the gate at a place is open.
fn is_open<D: Disk>(
    alloc: Global,
    pages: &mut PageCache,
    disk: &mut D,
    len: u64,
    place: u64,
) -> Result<bool, OpenFault>
    requires within { place < len }
    requires short { len < 2 ^ 45 }
    requires long { IsTrue (D.tells disk.old) → len ≡ length (D.contents disk.old).shown }
    requires pages { IsTrue (D.tells disk.old) → ArePages (pages_of pages.old) (take len (D.contents disk.old).shown) }
    ensures open { IsTrue (D.tells disk.old) → IfOk result (λ going. going ≡ (slice_index (D.contents disk.old).shown place == 165)) }
    ensures pages { IsTrue (D.tells disk.old) → ArePages (pages_of pages.new) (take len (D.contents disk.old).shown) }
    ensures most { most_of pages.new ≡ most_of pages.old }
    ensures reads { OnlyReads D.tells D.contents D.moment D.left_since D.room D.faults D.counts disk.old disk.new }
    ensures disk { IsErrOf result OpenFault.Disk → Rose (D.faults disk.old) (D.faults disk.new) }
    ensures quiet { IsQuiet (D.counts disk.old) (IsErrOf result OpenFault.Disk) }
    ensures not_damaged { (at : ℕ) → IsErrOf result (OpenFault.Damaged at) → ⊥ }
    ensures formatted { IsErrOf result OpenFault.NotFormatted → ⊥ }
{
    let gate = read_range(alloc, pages, disk, len, place, 1)?;
    Ok(gate[0] == OPEN)
}

// The bytes of a group, from its length up to the gate behind it; None where it doesn't fit.
fn read_whole<D: Disk>(
    alloc: Global,
    pages: &mut PageCache,
    disk: &mut D,
    len: u64,
    at: u64,
) -> Result<Option<Vec<u8>>, OpenFault>
    requires within { at ≤ len }
    requires short { len < 2 ^ 45 }
    requires long { IsTrue (D.tells disk.old) → len ≡ length (D.contents disk.old).shown }
    requires pages { IsTrue (D.tells disk.old) → ArePages (pages_of pages.old) (take len (D.contents disk.old).shown) }
    ensures some { IsTrue (D.tells disk.old) → IfOk result (λ found. IfSome found (λ bytes. IsTrue (fits_group (drop at (D.contents disk.old).shown)) × (bytes.items ≡ take (5 + group_length (drop at (D.contents disk.old).shown)) (drop at (D.contents disk.old).shown)))) }
    ensures none { IsTrue (D.tells disk.old) → result ≡ Ok None → fits_group (drop at (D.contents disk.old).shown) ≡ false }
    ensures within { IfOk result (λ found. IfSome found (λ bytes. (at + length bytes.items ≤ len) × (6 ≤ length bytes.items) × (length bytes.items ≤ 65541))) }
    ensures pages { IsTrue (D.tells disk.old) → ArePages (pages_of pages.new) (take len (D.contents disk.old).shown) }
    ensures most { most_of pages.new ≡ most_of pages.old }
    ensures reads { OnlyReads D.tells D.contents D.moment D.left_since D.room D.faults D.counts disk.old disk.new }
    ensures disk { IsErrOf result OpenFault.Disk → Rose (D.faults disk.old) (D.faults disk.new) }
    ensures quiet { IsQuiet (D.counts disk.old) (IsErrOf result OpenFault.Disk) }
    ensures not_damaged { (place : ℕ) → IsErrOf result (OpenFault.Damaged place) → ⊥ }
    ensures formatted { IsErrOf result OpenFault.NotFormatted → ⊥ }
{
    untouched(disk);
    if len - at < 4 {
        return Ok(None);
    }
    let head = read_range(alloc, pages, disk, len, at, 4)?;
    let size = BigEndian::read_u32(head.as_slice()) as usize;
    if size < 1 || size > MOST || 4 + size as u64 >= len - at {
        return Ok(None);
    }
    let bytes = read_range(alloc, pages, disk, len, at, 5 + size)?;
    Ok(Some(bytes))
}

// Notes the marks of the group with these bytes, which go from its length up to the gate behind it. It gives the place of that gate.
fn note_group<E: Record>(
    alloc: Global,
    bytes: &[u8],
    place: u64,
    marks: &mut Vec<u64>,
) -> Result<u64, OpenFault>
    requires few { length bytes.now ≤ 65541 }
    requires near { place < 2 ^ 45 }
    ensures noted { IfOk result (IsNoted E.reading E.bytes_of E.fits bytes.now place marks.old.items marks.new.items) }
    ensures damaged { (at : ℕ) → IsErrOf result (OpenFault.Damaged at) → (at ≡ place) × (group_of E.reading bytes.now ≡ None) }
    ensures not_disk { IsErrOf result OpenFault.Disk → ⊥ }
    ensures formatted { IsErrOf result OpenFault.NotFormatted → ⊥ }
{
    let mut added = Vec::new(alloc);
    let size = match read_group::<E>(alloc, bytes, 0, &mut added) {
        Ok(Some(size)) => size,
        Ok(None) => return Err(OpenFault::Damaged(place)),
        Err(_) => return Err(OpenFault::Memory),
    };
    if marks.reserve(added.len()).is_err() {
        return Err(OpenFault::Memory);
    }
    note_marks(marks, place, added.as_slice());
    Ok(place + 5 + size as u64)
}

// Reads the group behind the open gate at a place, and notes its marks. It gives the place of the next gate.
fn next_group<E: Record, D: Disk>(
    alloc: Global,
    pages: &mut PageCache,
    disk: &mut D,
    len: u64,
    place: u64,
    marks: &mut Vec<u64>,
) -> Result<u64, OpenFault>
    requires within { place < len }
    requires short { len < 2 ^ 45 }
    requires long { IsTrue (D.tells disk.old) → len ≡ length (D.contents disk.old).shown }
    requires pages { IsTrue (D.tells disk.old) → ArePages (pages_of pages.old) (take len (D.contents disk.old).shown) }
    requires gate { IsTrue (D.tells disk.old) → slice_index (D.contents disk.old).shown place ≡ 165 }
    requires all_read { IsTrue (D.tells disk.old) → length (listed E.reading (take place (D.contents disk.old).shown) marks.old.items) ≡ length marks.old.items }
    ensures within { IfOk result (λ next. (place < next) × (next < len)) }
    ensures all_read { IsTrue (D.tells disk.old) → IfOk result (λ next. length (listed E.reading (take next (D.contents disk.old).shown) marks.new.items) ≡ length marks.new.items) }
    ensures ok { IsTrue (D.tells disk.old) → IfOk result (λ next. behind (listed E.reading (take place (D.contents disk.old).shown) marks.old.items) (map gate_in marks.old.items) (groups_from E.reading place (drop place (D.contents disk.old).shown))
        ≡ behind (listed E.reading (take next (D.contents disk.old).shown) marks.new.items) (map gate_in marks.new.items) (groups_from E.reading next (drop next (D.contents disk.old).shown))) }
    ensures damaged { IsTrue (D.tells disk.old) → (at : ℕ) → IsErrOf result (OpenFault.Damaged at) → behind (listed E.reading (take place (D.contents disk.old).shown) marks.old.items) (map gate_in marks.old.items) (groups_from E.reading place (drop place (D.contents disk.old).shown)) ≡ Damaged at }
    ensures formatted { IsErrOf result OpenFault.NotFormatted → ⊥ }
    ensures pages { IsTrue (D.tells disk.old) → ArePages (pages_of pages.new) (take len (D.contents disk.old).shown) }
    ensures most { most_of pages.new ≡ most_of pages.old }
    ensures reads { OnlyReads D.tells D.contents D.moment D.left_since D.room D.faults D.counts disk.old disk.new }
    ensures disk { IsErrOf result OpenFault.Disk → Rose (D.faults disk.old) (D.faults disk.new) }
    ensures quiet { IsQuiet (D.counts disk.old) (IsErrOf result OpenFault.Disk) }
{
    match read_whole(alloc, pages, disk, len, place + 1) {
        Ok(Some(bytes)) => note_group::<E>(alloc, bytes.as_slice(), place, marks),
        Ok(None) => Err(OpenFault::Damaged(place)),
        Err(OpenFault::Disk) => Err(OpenFault::Disk),
        Err(_) => Err(OpenFault::Memory),
    }
}

// Reads a file of this length through the pages, of which none is held at first.
fn read_marks<E: Record, D: Disk>(
    alloc: Global,
    pages: &mut PageCache,
    disk: &mut D,
    len: u64,
) -> Result<Marked, OpenFault>
    requires long { IsTrue (D.tells disk.old) → len ≡ length (D.contents disk.old).shown }
    requires none { pages_of pages.old ≡ [] }
    ensures whole { IsTrue (D.tells disk.old) → IfOk result (λ found. journal_of E.reading (D.contents disk.old).shown ≡ Whole (listed E.reading (take found.end (D.contents disk.old).shown) found.marks.items) (map gate_in found.marks.items) found.end) }
    ensures all_read { IsTrue (D.tells disk.old) → IfOk result (λ found. length (listed E.reading (take found.end (D.contents disk.old).shown) found.marks.items) ≡ length found.marks.items) }
    ensures below { IsTrue (D.tells disk.old) → IfOk result (λ found. found.end < length (D.contents disk.old).shown) }
    ensures empty { IsTrue (D.tells disk.old) → IsErrOf result OpenFault.NotFormatted → (D.contents disk.old).shown ≡ [] }
    ensures damaged { IsTrue (D.tells disk.old) → (place : ℕ) → IsErrOf result (OpenFault.Damaged place) → journal_of E.reading (D.contents disk.old).shown ≡ Damaged place }
    ensures short { IfOk result (λ found. found.end < 2 ^ 45) }
    ensures most { most_of pages.new ≡ most_of pages.old }
    ensures reads { OnlyReads D.tells D.contents D.moment D.left_since D.room D.faults D.counts disk.old disk.new }
    ensures disk { IsErrOf result OpenFault.Disk → Rose (D.faults disk.old) (D.faults disk.new) }
    ensures quiet { IsQuiet (D.counts disk.old) (IsErrOf result OpenFault.Disk) }
    ensures any_moment { IsTrue (D.tells disk.old) → LeavesOnly D.moment D.left_since disk.old disk.new (MayLeave (D.contents disk.old)) }
{
    untouched(disk);
    if len == 0 {
        return Err(OpenFault::NotFormatted);
    }
    if len >= FAR {
        return Err(OpenFault::Memory);
    }
    let mut marks = Vec::new(alloc);
    let mut place = 0;
    let mut more = is_open(alloc, pages, disk, len, place)?;
    'groups: while more {
        place = next_group::<E, D>(alloc, pages, disk, len, place, &mut marks)?;
        more = is_open(alloc, pages, disk, len, place)?;
    }
    Ok(Marked { marks, end: place })
}

/// Opens a disk: one sync, one length, then reads alone, one page after the other. It keeps this room, and holds no page then.
pub fn open_marked<E: Record, D: Disk>(
    alloc: Global,
    pages: &mut PageCache,
    disk: &mut D,
    bytes: u64,
    calls: u64,
) -> Result<Marked, OpenFault>
    requires { calls < 2 ^ 63 }
    ensures whole { IsTrue (D.tells disk.old) → IfOk result (λ found. journal_of E.reading (D.contents disk.old).shown ≡ Whole (listed E.reading (take found.end (D.contents disk.old).shown) found.marks.items) (map gate_in found.marks.items) found.end) }
    ensures all_read { IsTrue (D.tells disk.old) → IfOk result (λ found. length (listed E.reading (take found.end (D.contents disk.old).shown) found.marks.items) ≡ length found.marks.items) }
    ensures below { IsTrue (D.tells disk.old) → IfOk result (λ found. found.end < length (D.contents disk.old).shown) }
    ensures empty { IsTrue (D.tells disk.old) → IsErrOf result OpenFault.NotFormatted → (D.contents disk.old).shown ≡ [] }
    ensures damaged { IsTrue (D.tells disk.old) → (place : ℕ) → IsErrOf result (OpenFault.Damaged place) → journal_of E.reading (D.contents disk.old).shown ≡ Damaged place }
    ensures settled { IsTrue (D.tells disk.old) → OnOk result (IsSettled (D.contents disk.new)) }
    ensures shown { IsTrue (D.tells disk.old) → (D.contents disk.new).shown ≡ (D.contents disk.old).shown }
    ensures still { IsTrue (D.tells disk.old) → IsSettled (D.contents disk.old) → IsSettled (D.contents disk.new) }
    ensures one_left { IsTrue (D.tells disk.old) → StopsAtLength (D.counts disk.old) → IsErrOf result OpenFault.Disk → IsSettled (D.contents disk.new) }
    ensures room { HasRoom bytes calls (D.room disk.old) → HasRoom bytes calls (D.room disk.new) }
    ensures tells { D.tells disk.new ≡ D.tells disk.old }
    ensures faults { D.faults disk.old ≤ D.faults disk.new }
    ensures disk { IsErrOf result OpenFault.Disk → Rose (D.faults disk.old) (D.faults disk.new) }
    ensures counts { IsOpening (D.counts disk.old) (D.counts disk.new) (IsOk result) (IsErrOf result OpenFault.Disk) (IsErrOf result OpenFault.Memory) }
    ensures any_moment { IsTrue (D.tells disk.old) → LeavesOnly D.moment D.left_since disk.old disk.new (MayLeave (D.contents disk.old)) }
    ensures short { IfOk result (λ found. found.end < 2 ^ 45) }
    ensures none { pages_of pages.new ≡ [] }
    ensures most { most_of pages.new ≡ most_of pages.old }
{
    pages.clear();
    match settle(disk, bytes, calls) {
        Ok(len) => {
            let found = read_marks::<E, D>(alloc, pages, disk, len);
            pages.clear();
            found
        }
        Err(OpenFault::Disk) => Err(OpenFault::Disk),
        Err(_) => Err(OpenFault::Memory),
    }
}
