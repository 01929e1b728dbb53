// Journals over a disk in memory.
ghost use Rattle.std.specs.Prelude.{◌≡◌, false, IsTrue, IfSome};

use cap_disk::{Disk, MemoryDisk};
use cap_journal::{DiskJournal, Journal, Record};
use std::alloc::Global;

/// A journal over a disk in memory.
pub(crate) type Trial<E> = DiskJournal<E, MemoryDisk>;

/// A new journal.
pub(crate) fn new_journal<E: Record>(alloc: Global) -> Option<Trial<E>>
    ensures { IfSome result (λ journal. ⟦<DiskJournal<E, MemoryDisk> as Journal<E>>⟧.has_failed journal ≡ false) }
{
    let disk = MemoryDisk::new(alloc).ok()?;
    match Trial::init(alloc, disk) {
        Ok(journal) => Some(journal),
        Err(_) => None,
    }
}

/// Adds an entry.
#[tactic(auto, using(crate::proofs::Room::one_row))]
pub(crate) fn add_to<E: Record, J: Journal<E>>(journal: &mut J, entry: E) -> Option<()>
    requires { IsTrue (E.fits entry) }
{
    journal.reserve_rows().ok()?;
    journal.append(entry).ok()
}

/// Adds an entry to a journal in memory.
pub(crate) fn add<E: Record>(journal: &mut Trial<E>, entry: E) -> Option<()>
    requires { IsTrue (E.fits entry) }
{
    add_to(journal, entry)
}

/// All bytes of a disk.
pub(crate) fn bytes_of(alloc: Global, disk: &mut MemoryDisk) -> Option<Vec<u8>> {
    let len = disk.len().ok()?;
    let mut bytes = Vec::from_elem(alloc, 0, len as usize).ok()?;
    disk.read_at(0, bytes.as_mut_slice()).ok()?;
    Some(bytes)
}

// Writes and syncs bytes on a new disk.
fn fill(disk: &mut MemoryDisk, bytes: &[u8]) -> Option<()> {
    disk.make_room(bytes.len() as u64, 2).ok()?;
    disk.write_at(0, bytes).ok()?;
    disk.sync().ok()
}

/// A disk with these bytes, synced.
pub(crate) fn disk_with(alloc: Global, bytes: &[u8]) -> Option<MemoryDisk> {
    let mut disk = MemoryDisk::new(alloc).ok()?;
    fill(&mut disk, bytes)?;
    Some(disk)
}
