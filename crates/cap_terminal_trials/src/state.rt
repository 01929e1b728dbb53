use cap_disk::MemoryDisk;
use cap_entries::TermEntry;
use cap_journal::{DiskJournal, VecJournal};
use cap_terminal::Terminal;

/// A terminal over a journal in memory.
pub(crate) type Trial = Terminal<VecJournal<TermEntry>>;

/// A journal on a disk in memory, of which a call may fail.
pub(crate) type Disk = DiskJournal<TermEntry, MemoryDisk>;

/// What the rows are about.
#[derive(Drop)]
pub(crate) enum At {
    Nothing,
    /// A journal over which no terminal is open yet.
    Journal(VecJournal<TermEntry>),
    Open(Trial),
    OnDisk(Terminal<Disk>),
}
