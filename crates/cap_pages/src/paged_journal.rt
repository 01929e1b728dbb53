// A journal over a disk, which keeps the places of its records instead of the entries.
ghost use Rattle.std.specs.Prelude.{◌≡◌, ◌≤◌, ◌<◌, ◌+◌, ◌*◌, ◌^◌, ℕ, List, [], length, take, map, Bool, false, Option, Some, IsTrue, vec_len, vec_capacity};
ghost use Rattle.std.specs.Coded.{Coded-set, coded_option, coded_list, coded_ℕ, Π_prop};
ghost use Rattle.cap_disk.specs.Disk.{HasRoom, MayLeave};
ghost use Rattle.cap_journal.specs.Kept.{EveryOne, HasFront};
ghost use Rattle.cap_pages.specs.Pages.{ArePages};
ghost use Rattle.cap_pages.specs.Cache.{pages_of};
ghost use Rattle.cap_journal.specs.File.{entries_found, gates_found, end_found, journal_of};
ghost use Rattle.cap_journal.specs.Spare.{bytes_for, entries_for};
ghost use Rattle.cap_pages.specs.Paged.{gate_in, listed};

use crate::cache::PageCache;
use crate::marks::{gate_of, read_marked, write_marked, write_one};
use crate::paged_open::{Marked, open_marked};
use cap_base::Memory;
use cap_disk::{Counted, Disk, Fill, MemoryDisk};
use cap_journal::{
    Journal, JournalError, OpenCause, OpenError, OpenFault, Record, Reopen, Spare, format_disk,
};
use std::alloc::Global;

// More entries are not reserved.
const MOST: u64 = 1 << 24;

// Behind this place nothing is reserved.
const FAR: u64 = 1 << 45;

// The bytes of the largest group with the gate behind it.
const LARGEST: usize = 65_541;

/// A journal over a disk, which keeps the place of each record, in eight bytes, and reads an entry back through pages that it holds.
#[derive(Drop)]
pub struct PagedJournal<E: Record, D: Disk> {
    alloc: Global,
    disk: D,
    pages: PageCache,
    /// The mark of the record of each entry.
    marks: Vec<u64>,
    /// The last gate.
    end: u64,
    buffer: Vec<u8>,
    spare: Spare,
    fetched: u64,
    failed: bool,
    /// Room for the entry that is being added.
    one: Vec<E>,
    ghost written: { IsTrue (D.tells disk) → failed ≡ false → (D.contents disk).written ≡ [] },
    ghost synced: { IsTrue (D.tells disk) → failed ≡ false → (D.contents disk).synced ≡ (D.contents disk).shown },
    ghost parsed: { IsTrue (D.tells disk) → failed ≡ false → entries_found (journal_of E.reading (D.contents disk).shown) ≡ Some (listed E.reading (take end (D.contents disk).shown) marks.items) } by { Π_prop (λ _. Π_prop (λ _. Coded-set (coded_option (coded_list E.code)) _ _)) },
    ghost placed: { IsTrue (D.tells disk) → failed ≡ false → gates_found (journal_of E.reading (D.contents disk).shown) ≡ Some (map gate_in marks.items) } by { Π_prop (λ _. Π_prop (λ _. Coded-set (coded_option (coded_list coded_ℕ)) _ _)) },
    ghost last_gate: { IsTrue (D.tells disk) → failed ≡ false → end_found (journal_of E.reading (D.contents disk).shown) ≡ Some end },
    ghost all_read: { IsTrue (D.tells disk) → length (listed E.reading (take end (D.contents disk).shown) marks.items) ≡ length marks.items },
    ghost long: { IsTrue (D.tells disk) → end < length (D.contents disk).shown },
    ghost held: { IsTrue (D.tells disk) → ArePages (pages_of pages) (take end (D.contents disk).shown) } by { Π_prop (λ _. Π_prop (λ _. Π_prop (λ _. Coded-set (coded_list coded_ℕ) _ _))) },
    ghost stands: { IsTrue (D.tells disk) → EveryOne (MayLeave (D.contents disk)) (HasFront E.reading (listed E.reading (take end (D.contents disk).shown) marks.items)) } by { Π_prop (λ _. Π_prop (λ _. Π_prop (λ _. Coded-set (coded_option (coded_list E.code)) _ _))) },
    ghost room: { HasRoom (bytes_for spare) (4 * entries_for spare) (D.room disk) },
    ghost marks_room: { vec_len marks + entries_for spare ≤ vec_capacity marks },
    ghost buffer_room: { 0 < entries_for spare → 65541 ≤ vec_capacity buffer },
    ghost one_empty: { one.items ≡ [] } by { Coded-set (coded_list E.code) _ _ },
    ghost one_room: { 0 < entries_for spare → 1 ≤ vec_capacity one },
    ghost short: { end + bytes_for spare < 2 ^ 46 },
}

impl<E: Record, D: Disk> PagedJournal<E, D> {
    ghost use Rattle.std.specs.Prelude.{◌≡◌, ◌≤◌, List, IsTrue, OnOk, OnErr};
    ghost use Rattle.cap_disk.specs.Disk.{MayLeave, LeavesOnly, StaysCounted};

    // Makes room for so many further entries.
    fn make_spare(&mut self, spare: Spare) -> Result<(), Memory>
        requires small { self.old.spare.small ≤ spare.small }
        requires rows { self.old.spare.rows ≤ spare.rows }
        ensures ok { OnOk result (self.new.spare ≡ spare) }
        ensures err { OnErr result (self.new.spare ≡ self.old.spare) }
        ensures marks { self.new.marks.items ≡ self.old.marks.items }
        ensures end { self.new.end ≡ self.old.end }
        ensures fetched { self.new.fetched ≡ self.old.fetched }
        ensures failed { self.new.failed ≡ self.old.failed }
        ensures faults { D.faults self.new.disk ≡ D.faults self.old.disk }
        ensures counts { StaysCounted (D.counts self.old.disk) (D.counts self.new.disk) }
        ensures tells { D.tells self.new.disk ≡ D.tells self.old.disk }
        ensures contents { IsTrue (D.tells self.old.disk) → D.contents self.new.disk ≡ D.contents self.old.disk }
        ensures images { IsTrue (D.tells self.old.disk) → LeavesOnly D.moment D.left_since self.old.disk self.new.disk (MayLeave (D.contents self.old.disk)) }
    {
        if spare.small >= MOST || spare.rows >= MOST || self.end >= FAR {
            return Err(Memory);
        }
        let entries = spare.small + spare.rows;
        if self.marks.reserve(entries as usize).is_err() || self.one.reserve(1).is_err() {
            return Err(Memory);
        }
        self.buffer.clear();
        if self.buffer.reserve(LARGEST).is_err() {
            return Err(Memory);
        }
        self.disk
            .make_room(78 * spare.small + 65_542 * spare.rows, 4 * entries)?;
        self.spare = spare;
        Ok(())
    }
}

impl<E: Record, D: Disk> Journal<E> for PagedJournal<E, D> {
    ghost use Rattle.std.specs.Prelude.{◌≡◌, ◌<◌, ◌≤◌, ◌+◌, ◌++◌, ◌∷◌, List, [], length, take, map, sum, All, true, false, OnOk, OnErr, IsErrOf, IsTrue};
    ghost use Rattle.std.proofs.Common.{refl, ◌∙◌};
    ghost use Rattle.cap_disk.specs.Moments.{leaves_none};
    ghost use Rattle.cap_disk.specs.Disk.{MayLeave, LeavesOnly};
    ghost use Rattle.cap_journal.specs.Spare.{Suffices, Takes};
    ghost use Rattle.cap_journal.specs.Told.{IsCountedBy, HasAppendCause};
    ghost use Rattle.cap_journal.specs.File.{HasEither};
    ghost use Rattle.cap_journal.specs.Kept.{kept_by};
    ghost use Rattle.cap_pages.specs.Paged.{listed, entries_told, told_many, told_has, told_front};

    ghost entries = { λ journal. entries_told (D.tells journal.disk) E.reading (take journal.end (D.contents journal.disk).shown) journal.marks.items };

    ghost len = { λ journal. length journal.marks.items };

    ghost spare = { λ journal. journal.spare };

    ghost fetched = { λ journal. journal.fetched };

    ghost faults = { λ journal. D.faults journal.disk };

    ghost counts = { λ journal. D.counts journal.disk };

    ghost has_failed = { λ journal. journal.failed };

    ghost is_readable = { λ journal. D.tells journal.disk };

    ghost tells = { λ journal. D.tells journal.disk };

    ghost shown = { λ journal. (D.contents journal.disk).shown };

    ghost may_leave = { λ journal. MayLeave (D.contents journal.disk) };

    ghost moment = { λ journal. D.moment journal.disk };

    ghost left_since = { λ journal. D.left_since journal.disk };

    ghost counted = { λ journal readable. told_many (D.tells journal.disk) E.reading (take journal.end (D.contents journal.disk).shown) journal.marks.items readable (journal.all_read readable) };

    ghost told_is_readable = { λ journal told. told };

    ghost settled = { λ journal image tells works left. leaves_none (D.contents journal.disk) image (journal.written tells works) left ∙ journal.synced tells works };

    ghost kept = { λ journal image tells works left. told_has (D.tells journal.disk) E.reading (take journal.end (D.contents journal.disk).shown) journal.marks.items image tells
        (kept_by E.reading (D.contents journal.disk) (listed E.reading (take journal.end (D.contents journal.disk).shown) journal.marks.items) image (journal.written tells works) (journal.synced tells works) (journal.parsed tells works) left) };

    ghost stands = { λ journal image tells left. told_front (D.tells journal.disk) E.reading (take journal.end (D.contents journal.disk).shown) journal.marks.items image tells (journal.stands tells image left) };

    ghost counts_now = { λ journal t image tells le left. D.counts_now journal.disk t image tells le left };

    ghost only_now = { λ journal image tells left. D.only_now journal.disk image tells left };

    ghost shows_one = { λ journal tells. D.shows_one journal.disk tells };

    fn count(&self) -> u64 {
        self.marks.len() as u64
    }

    fn entry(&mut self, i: u64) -> Result<E, JournalError> {
        self.fetched = self.fetched.saturating_add(1);
        read_marked(
            self.alloc,
            &mut self.pages,
            &mut self.disk,
            self.end,
            self.marks.as_slice(),
            i as usize,
        )
    }

    fn reserve(&mut self, n: usize) -> Result<(), Memory> {
        if n as u64 <= self.spare.small {
            return Ok(());
        }
        self.make_spare(Spare {
            small: n as u64,
            rows: self.spare.rows,
        })
    }

    fn reserve_rows(&mut self) -> Result<(), Memory> {
        if self.spare.rows >= 1 {
            return Ok(());
        }
        self.make_spare(Spare {
            small: self.spare.small,
            rows: 1,
        })
    }

    fn append(&mut self, entry: E) -> Result<(), JournalError> {
        if self.failed {
            return Err(JournalError::Failed);
        }
        self.spare = self.spare.less_one(entry.size());
        match write_one(
            &mut self.disk,
            &mut self.buffer,
            &mut self.marks,
            self.end,
            &mut self.one,
            entry,
        ) {
            Ok(end) => {
                self.end = end;
                Ok(())
            }
            Err(_) => {
                self.failed = true;
                Err(JournalError::Disk)
            }
        }
    }

    fn append_group(&mut self, added: Vec<E>) -> Result<(), JournalError>
        requires some { 0 < length added.items }
        requires fits { All (λ entry. IsTrue (E.fits entry)) added.items }
        requires size { sum (map (λ entry. length (E.bytes_of entry)) added.items) ≤ 65536 }
        requires spare { Suffices (map (λ entry. length (E.bytes_of entry)) added.items) self.old.spare }
        ensures ok { IsTrue (D.tells self.old.disk) → OnOk result (entries_told (D.tells self.new.disk) E.reading (take self.new.end (D.contents self.new.disk).shown) self.new.marks.items ≡ entries_told (D.tells self.old.disk) E.reading (take self.old.end (D.contents self.old.disk).shown) self.old.marks.items ++ added.items) }
        ensures err { OnErr result (entries_told (D.tells self.new.disk) E.reading (take self.new.end (D.contents self.new.disk).shown) self.new.marks.items ≡ entries_told (D.tells self.old.disk) E.reading (take self.old.end (D.contents self.old.disk).shown) self.old.marks.items) }
        ensures len { OnOk result (length self.new.marks.items ≡ length self.old.marks.items + length added.items) }
        ensures err_len { OnErr result (length self.new.marks.items ≡ length self.old.marks.items) }
        ensures spare { OnOk result (Takes (map (λ entry. length (E.bytes_of entry)) added.items) self.old.spare self.new.spare) }
        ensures unspent { IsErrOf result JournalError.Failed → self.new.spare ≡ self.old.spare }
        ensures cause { HasAppendCause self.old.failed self.new.failed (D.faults self.old.disk) (D.faults self.new.disk) result }
        ensures counts { IsCountedBy 4 self.old.failed (D.counts self.old.disk) (D.counts self.new.disk) result }
        ensures fetched { self.new.fetched ≡ self.old.fetched }
        ensures tells { D.tells self.new.disk ≡ D.tells self.old.disk }
        ensures any_moment { IsTrue (D.tells self.old.disk) → self.old.failed ≡ false → LeavesOnly D.moment D.left_since self.old.disk self.new.disk (HasEither E.reading (entries_told (D.tells self.old.disk) E.reading (take self.old.end (D.contents self.old.disk).shown) self.old.marks.items) (entries_told (D.tells self.old.disk) E.reading (take self.old.end (D.contents self.old.disk).shown) self.old.marks.items ++ added.items)) }
        ensures refused { IsTrue (D.tells self.old.disk) → IsErrOf result JournalError.Failed → LeavesOnly D.moment D.left_since self.old.disk self.new.disk (MayLeave (D.contents self.old.disk)) }
    {
        if self.failed {
            return Err(JournalError::Failed);
        }
        self.spare = self.spare.less(added.as_slice());
        match write_marked(
            &mut self.disk,
            &mut self.buffer,
            &mut self.marks,
            self.end,
            added.as_slice(),
        ) {
            Ok(end) => {
                self.end = end;
                Ok(())
            }
            Err(_) => {
                self.failed = true;
                Err(JournalError::Disk)
            }
        }
    }
}

impl<E: Record, D: Disk> Reopen<E> for PagedJournal<E, D> {
    fn reopen(&mut self) -> Result<(), OpenFault> {
        let bytes = 78 * self.spare.small + 65_542 * self.spare.rows;
        let calls = 4 * (self.spare.small + self.spare.rows);
        match open_marked::<E, D>(self.alloc, &mut self.pages, &mut self.disk, bytes, calls) {
            Ok(Marked { marks, end }) => {
                self.marks = marks;
                self.end = end;
                self.spare = Spare::NONE;
                self.failed = false;
                Ok(())
            }
            Err(OpenFault::Disk) => {
                self.failed = true;
                Err(OpenFault::Disk)
            }
            Err(fault) => Err(fault),
        }
    }
}

impl<E: Record, D: Disk> PagedJournal<E, D> {
    ghost use Rattle.cap_pages.specs.OfPages.{counts_of, disk_of, entries_of, failed_of, faults_of, fetched_of, len_of, shown_of, spare_of, tells_of};
    ghost use Rattle.std.specs.Prelude.{◌≡◌, ◌≤◌, ◌<◌, ℕ, List, [], ◌∷◌, length, ⊤, IsTrue, IfOk, IfErr, Some, false};
    ghost use Rattle.cap_base.specs.Causes.{Rose};
    ghost use Rattle.cap_disk.specs.Disk.{MayLeave, LeavesOnly};
    ghost use Rattle.cap_journal.specs.File.{journal_of, Damaged, Has, IsFormatted, place_found};
    ghost use Rattle.cap_journal.specs.Opening.{IsOpening, IsFormatting, StopsAtLength};

    /// Formats an empty disk: one closed gate, and a sync. There is room for one entry of any size then. It holds at most so many pages.
    pub fn init(alloc: Global, disk: D, pages: usize) -> Result<PagedJournal<E, D>, OpenError<D>>
        requires some { 0 < pages }
        requires few { pages ≤ 1024 }
        ensures entries { IfOk result (λ journal. entries_of journal ≡ []) }
        ensures len { IfOk result (λ journal. len_of journal ≡ 0) }
        ensures spare { IfOk result (λ journal. 1 ≤ (spare_of journal).rows) }
        ensures works { IfOk result (λ journal. failed_of journal ≡ false) }
        ensures fetched { IfOk result (λ journal. fetched_of journal ≡ 0) }
        ensures tells { IfOk result (λ journal. tells_of journal ≡ D.tells disk) }
        ensures shown { IsTrue (D.tells disk) → IfOk result (λ journal. shown_of journal ≡ 0 ∷ []) }
        ensures counts { IfOk result (λ journal. IsFormatting (D.counts disk) (counts_of journal) ⊤ ⊥) }
        ensures faults { IfOk result (λ journal. D.faults disk ≤ faults_of journal) }
        ensures empty { IsTrue (D.tells disk) → IfOk result (λ journal. (D.contents disk).shown ≡ []) }
        ensures not_empty { IsTrue (D.tells disk) → (n : ℕ) → IfErr result (λ error. error.cause ≡ OpenCause.NotEmpty n → (n ≡ length (D.contents disk).shown) × (0 < n)) }
        ensures never_read { (place : ℕ) → IfErr result (λ error. error.cause ≡ OpenCause.Damaged place → ⊥) }
        ensures never_unformatted { IfErr result (λ error. error.cause ≡ OpenCause.NotFormatted → ⊥) }
        ensures disk { IfErr result (λ error. error.cause ≡ OpenCause.Disk → Rose (D.faults disk) (D.faults error.back)) }
        ensures back_faults { IfErr result (λ error. D.faults disk ≤ D.faults error.back) }
        ensures back_tells { IfErr result (λ error. D.tells error.back ≡ D.tells disk) }
        ensures back_contents { IsTrue (D.tells disk) → IfErr result (λ error. (error.cause ≡ OpenCause.Disk → ⊥) → D.contents error.back ≡ D.contents disk) }
        ensures back_counts { IfErr result (λ error. IsFormatting (D.counts disk) (D.counts error.back) ⊥ (error.cause ≡ OpenCause.Disk)) }
        ensures back_any_moment { IsTrue (D.tells disk) → IfErr result (λ error. (error.cause ≡ OpenCause.Disk → ⊥) → LeavesOnly D.moment D.left_since disk error.back (MayLeave (D.contents disk))) }
    {
        let mut disk = disk;
        let mut marks = Vec::new(alloc);
        let mut buffer = Vec::new(alloc);
        let mut one = Vec::new(alloc);
        if marks.reserve(1).is_err()
            || buffer.reserve(LARGEST).is_err()
            || one.reserve(1).is_err()
        {
            return Err(OpenError {
                back: disk,
                cause: OpenCause::Memory,
            });
        }
        let pages = match PageCache::new(alloc, pages) {
            Ok(pages) => pages,
            Err(_) => {
                return Err(OpenError {
                    back: disk,
                    cause: OpenCause::Memory,
                });
            }
        };
        match format_disk(&mut disk, 65_542, 4) {
            Ok(()) => Ok(PagedJournal {
                alloc,
                disk,
                pages,
                marks,
                end: 0,
                buffer,
                spare: Spare { small: 0, rows: 1 },
                fetched: 0,
                failed: false,
                one,
            }),
            Err(cause) => Err(OpenError { back: disk, cause }),
        }
    }

    /// Opens a disk that holds a journal's file: one sync, one length, then reads alone. It holds at most so many pages.
    pub fn open(alloc: Global, disk: D, pages: usize) -> Result<PagedJournal<E, D>, OpenError<D>>
        requires some { 0 < pages }
        requires few { pages ≤ 1024 }
        ensures entries { IsTrue (D.tells disk) → IfOk result (λ journal. Has E.reading (D.contents disk).shown (entries_of journal)) }
        ensures works { IfOk result (λ journal. failed_of journal ≡ false) }
        ensures fetched { IfOk result (λ journal. fetched_of journal ≡ 0) }
        ensures tells { IfOk result (λ journal. tells_of journal ≡ D.tells disk) }
        ensures shown { IsTrue (D.tells disk) → IfOk result (λ journal. shown_of journal ≡ (D.contents disk).shown) }
        ensures counts { IfOk result (λ journal. IsOpening (D.counts disk) (counts_of journal) ⊤ ⊥ ⊥) }
        ensures faults { IfOk result (λ journal. D.faults disk ≤ faults_of journal) }
        ensures any_moment { IsTrue (D.tells disk) → IfOk result (λ journal. LeavesOnly D.moment D.left_since disk (disk_of journal) (MayLeave (D.contents disk))) }
        ensures empty { IsTrue (D.tells disk) → IfErr result (λ error. error.cause ≡ OpenCause.NotFormatted → (D.contents disk).shown ≡ []) }
        ensures damaged { IsTrue (D.tells disk) → (place : ℕ) → IfErr result (λ error. error.cause ≡ OpenCause.Damaged place → journal_of E.reading (D.contents disk).shown ≡ Damaged place) }
        ensures never_full { (n : ℕ) → IfErr result (λ error. error.cause ≡ OpenCause.NotEmpty n → ⊥) }
        ensures disk { IfErr result (λ error. error.cause ≡ OpenCause.Disk → Rose (D.faults disk) (D.faults error.back)) }
        ensures back_faults { IfErr result (λ error. D.faults disk ≤ D.faults error.back) }
        ensures back_tells { IfErr result (λ error. D.tells error.back ≡ D.tells disk) }
        ensures back_shown { IsTrue (D.tells disk) → IfErr result (λ error. (D.contents error.back).shown ≡ (D.contents disk).shown) }
        ensures back_counts { IfErr result (λ error. IsOpening (D.counts disk) (D.counts error.back) ⊥ (error.cause ≡ OpenCause.Disk) (error.cause ≡ OpenCause.Memory)) }
        ensures back_any_moment { IsTrue (D.tells disk) → IfErr result (λ error. LeavesOnly D.moment D.left_since disk error.back (MayLeave (D.contents disk))) }
        // on a disk whose every image is a whole file
        ensures formatted { IsTrue (D.tells disk) → ((image : List ℕ) → MayLeave (D.contents disk) image → IsFormatted E.reading image) → IfErr result (λ error. error.cause ≡ OpenCause.NotFormatted → ⊥) }
        ensures whole { IsTrue (D.tells disk) → ((image : List ℕ) → MayLeave (D.contents disk) image → IsFormatted E.reading image) → (place : ℕ) → IfErr result (λ error. error.cause ≡ OpenCause.Damaged place → ⊥) }
        // the sync went well where the length failed: one image is left
        ensures one_left { IsTrue (D.tells disk) → StopsAtLength (D.counts disk) → IfErr result (λ error. error.cause ≡ OpenCause.Disk → (image : List ℕ) → MayLeave (D.contents error.back) image → image ≡ (D.contents disk).shown) }
    {
        let mut disk = disk;
        let mut pages = match PageCache::new(alloc, pages) {
            Ok(pages) => pages,
            Err(_) => {
                return Err(OpenError {
                    back: disk,
                    cause: OpenCause::Memory,
                });
            }
        };
        match open_marked::<E, D>(alloc, &mut pages, &mut disk, 0, 0) {
            Ok(Marked { marks, end }) => Ok(PagedJournal {
                alloc,
                disk,
                pages,
                marks,
                end,
                buffer: Vec::new(alloc),
                spare: Spare::NONE,
                fetched: 0,
                failed: false,
                one: Vec::new(alloc),
            }),
            Err(OpenFault::Disk) => Err(OpenError {
                back: disk,
                cause: OpenCause::Disk,
            }),
            Err(OpenFault::NotFormatted) => Err(OpenError {
                back: disk,
                cause: OpenCause::NotFormatted,
            }),
            Err(OpenFault::Damaged(place)) => Err(OpenError {
                back: disk,
                cause: OpenCause::Damaged(place),
            }),
            Err(OpenFault::Memory) => Err(OpenError {
                back: disk,
                cause: OpenCause::Memory,
            }),
        }
    }

    /// The place of the gate of the group that holds an entry, or of the last gate where the number is the count.
    pub fn place_of(&self, i: u64) -> u64
        requires { i ≤ len_of self.now }
        ensures { IsTrue (tells_of self.now) → failed_of self.now ≡ false → place_found i (journal_of E.reading (shown_of self.now)) ≡ Some result }
    {
        let at = i as usize;
        if at < self.marks.len() {
            gate_of(self.marks[at])
        } else {
            self.end
        }
    }

    /// Gives the disk back.
    pub fn into_disk(self) -> D
        ensures { result ≡ disk_of self }
    {
        self.disk
    }
}

impl<E: Record> PagedJournal<E, MemoryDisk> {
    ghost use Rattle.cap_pages.specs.OfPages.{counts_of, disk_of, entries_of, failed_of, faults_of, fetched_of, spare_of};
    ghost use Rattle.std.specs.Prelude.{◌≡◌, true, false};
    ghost use Rattle.cap_disk.specs.MemoryDisk.{plan_of, history_of, cut_of, armed};

    /// Lets the power be cut at a call of its disk, as the disk's own call does, and changes nothing else.
    pub fn arm_cut(&mut self, call: u64, fill: Fill, counted: Counted)
        ensures history { history_of (disk_of self.new) ≡ history_of (disk_of self.old) }
        ensures cut { cut_of (disk_of self.new) ≡ cut_of (disk_of self.old) }
        ensures plan { plan_of (disk_of self.new) ≡ record { left = call; cuts = true; fill = fill; counted = counted } }
        ensures counts { counts_of self.new ≡ armed (disk_of self.old) counted call }
        ensures faults { faults_of self.new ≡ faults_of self.old }
        ensures entries { entries_of self.new ≡ entries_of self.old }
        ensures spare { spare_of self.new ≡ spare_of self.old }
        ensures fetched { fetched_of self.new ≡ fetched_of self.old }
        ensures has_failed { failed_of self.new ≡ failed_of self.old }
    {
        self.disk.arm_cut(call, fill, counted);
    }

    /// Lets one call of its disk fail, as the disk's own call does, and changes nothing else.
    pub fn arm_fail(&mut self, call: u64, fill: Fill, counted: Counted)
        ensures history { history_of (disk_of self.new) ≡ history_of (disk_of self.old) }
        ensures cut { cut_of (disk_of self.new) ≡ cut_of (disk_of self.old) }
        ensures plan { plan_of (disk_of self.new) ≡ record { left = call; cuts = false; fill = fill; counted = counted } }
        ensures counts { counts_of self.new ≡ armed (disk_of self.old) counted call }
        ensures faults { faults_of self.new ≡ faults_of self.old }
        ensures entries { entries_of self.new ≡ entries_of self.old }
        ensures spare { spare_of self.new ≡ spare_of self.old }
        ensures fetched { fetched_of self.new ≡ fetched_of self.old }
        ensures has_failed { failed_of self.new ≡ failed_of self.old }
    {
        self.disk.arm_fail(call, fill, counted);
    }
}
