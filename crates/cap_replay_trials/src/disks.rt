// The disks that a run gives back, opened again.
use cap_base::MemSink;
use cap_disk::MemoryDisk;
use cap_entries::{HostEntry, TermEntry};
use cap_host::Host;
use cap_journal::DiskJournal;
use cap_network::replay;
use cap_terminal::Terminal;
use std::alloc::{AllocError, Global};

// How many sales the terminal of a disk has begun, given up and completed.
fn sales_on(alloc: Global, disk: MemoryDisk) -> Result<String, AllocError> {
    let journal: Result<DiskJournal<TermEntry, MemoryDisk>, _> = DiskJournal::open(alloc, disk);
    let Ok(journal) = journal else {
        return String::from_str(alloc, "no journal");
    };
    match Terminal::open(alloc, journal) {
        Ok(terminal) => {
            let counts = terminal.counts();
            let (sales, voided, completed) = (counts.sales, counts.voided, counts.completed);
            format!(in alloc; "sales {sales} voided {voided} completed {completed}")
        }
        Err(_) => String::from_str(alloc, "no terminal"),
    }
}

// How many sets the host of a disk has published, and how many items its first terminal's log has.
fn log_on(alloc: Global, disk: MemoryDisk) -> Result<String, AllocError> {
    let journal: Result<DiskJournal<HostEntry, MemoryDisk>, _> = DiskJournal::open(alloc, disk);
    let Ok(journal) = journal else {
        return String::from_str(alloc, "no journal");
    };
    match Host::open(alloc, journal) {
        Ok(host) => {
            if host.setup().terminals().as_slice().is_empty() {
                return String::from_str(alloc, "no terminal of the host");
            }
            let (sets, items) = (host.newest(), host.log_len(0));
            format!(in alloc; "sets {sets} log {items}")
        }
        Err(_) => String::from_str(alloc, "no host"),
    }
}

fn both(alloc: Global, host: MemoryDisk, terminal: MemoryDisk) -> Result<String, AllocError> {
    let first = log_on(alloc, host)?;
    let second = sales_on(alloc, terminal)?;
    format!(in alloc; "{first}, {second}")
}

/// What stands on the disks of the host and of its one terminal once a schedule was run. A `|` stands for the end of a line.
pub fn entries_of(alloc: Global, text: &str) -> Result<String, AllocError> {
    let schedule = text.replace(alloc, "|", "\n")?;
    let mut out = MemSink::new(alloc);
    match replay(alloc, schedule.as_bytes(), &mut out) {
        Ok(mut disks) => match (disks.pop(), disks.pop()) {
            (Some(terminal), Some(host)) => both(alloc, host, terminal),
            _ => String::from_str(alloc, "no disk"),
        },
        Err(_) => String::from_str(alloc, "not replayed"),
    }
}
