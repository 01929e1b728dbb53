// Disks in memory that fail at each call in turn.
use crate::show::{number, said, text_of};
use cap_disk::{Counted, Disk, Fill, MemoryDisk};
use std::alloc::{AllocError, Global};

// All bytes of a disk.
fn bytes_of(alloc: Global, disk: &mut MemoryDisk) -> Option<Vec<u8>> {
    let len = disk.len().ok()?;
    let mut bytes = vec![in alloc; 0; len as usize].ok()?;
    disk.read_at(0, bytes.as_mut_slice()).ok()?;
    Some(bytes)
}

// A disk with the bytes `abcd`, synced.
fn formatted(alloc: Global) -> Option<MemoryDisk> {
    let mut disk = MemoryDisk::new(alloc).ok()?;
    disk.make_room(16, 8).ok()?;
    if disk.write_at(0, b"abcd").is_err() || disk.sync().is_err() {
        return None;
    }
    Some(disk)
}

// What a word says of a range that was not synced.
fn fill_of(word: &str) -> Fill {
    match word.as_bytes() {
        b"old" => Fill::Old,
        b"new" => Fill::New,
        [byte, ..] => Fill::Byte(*byte),
        [] => Fill::Byte(0),
    }
}

// Arms a call, writes `efg` at the end and `xy` over the front, and syncs. It says whether all three calls worked.
fn work(disk: &mut MemoryDisk, call: u64, fill: Fill, cuts: bool) -> Option<bool> {
    disk.make_room(16, 8).ok()?;
    let end = disk.len().ok()?;
    if cuts {
        disk.arm_cut(call, fill, Counted::NoReads);
    } else {
        disk.arm_fail(call, fill, Counted::NoReads);
    }
    Some(
        disk.write_at(end, b"efg").is_ok()
            && disk.write_at(0, b"xy").is_ok()
            && disk.sync().is_ok(),
    )
}

fn shown(alloc: Global, disk: &mut MemoryDisk) -> Result<String, AllocError> {
    match bytes_of(alloc, disk) {
        Some(bytes) => said(alloc, text_of(bytes.as_slice())),
        None => said(alloc, "nothing"),
    }
}

// The bytes after a restart, and whether the power is cut still.
fn restarted(alloc: Global, disk: MemoryDisk) -> Result<String, AllocError> {
    let mut disk = disk.restart();
    let text = shown(alloc, &mut disk)?;
    let is_cut = disk.is_cut();
    format!(in alloc; "restarted {text}, cut {is_cut}")
}

// The power is cut at a call.
fn cut(alloc: Global, call: u64, fill: Fill) -> Result<String, AllocError> {
    let Some(mut disk) = formatted(alloc) else {
        return said(alloc, "no disk");
    };
    let worked = work(&mut disk, call, fill, true);
    let is_cut = disk.is_cut();
    let after = restarted(alloc, disk)?;
    format!(in alloc; "worked {worked:?}, cut {is_cut}, {after}")
}

// A call fails.
fn fail(alloc: Global, call: u64, fill: Fill) -> Result<String, AllocError> {
    let Some(mut disk) = formatted(alloc) else {
        return said(alloc, "no disk");
    };
    let worked = work(&mut disk, call, fill, false);
    let is_cut = disk.is_cut();
    let text = shown(alloc, &mut disk)?;
    let after = restarted(alloc, disk)?;
    format!(in alloc; "worked {worked:?}, cut {is_cut}, reads {text}, {after}")
}

// Each call of a disk once, on a disk that has room for them.
fn calls(disk: &mut MemoryDisk) -> [bool; 4] {
    if disk.make_room(16, 8).is_err() {
        return [true; 4];
    }
    let synced = disk.sync().is_ok();
    let written = disk.write_at(0, b"xy").is_ok();
    let read = disk.read_at(0, &mut []).is_ok();
    let measured = disk.len().is_ok();
    [synced, written, read, measured]
}

// All calls after a cut, twice.
fn after(alloc: Global) -> Result<String, AllocError> {
    let Some(mut disk) = formatted(alloc) else {
        return said(alloc, "no disk");
    };
    disk.arm_cut(1, Fill::Byte(b'-'), Counted::NoReads);
    let first = calls(&mut disk);
    let second = calls(&mut disk);
    let is_cut = disk.is_cut();
    let after = restarted(alloc, disk)?;
    format!(in alloc; "worked {first:?} {second:?}, cut {is_cut}, {after}")
}

// The second of three reads fails, where reads are counted.
fn reads(alloc: Global) -> Result<String, AllocError> {
    let Some(mut disk) = formatted(alloc) else {
        return said(alloc, "no disk");
    };
    disk.arm_fail(2, Fill::Old, Counted::All);
    let first = disk.read_at(0, &mut []).is_ok();
    let second = disk.read_at(0, &mut []).is_ok();
    let third = disk.read_at(0, &mut []).is_ok();
    let reads = disk.reads();
    let record = disk.record();
    format!(in alloc; "worked {first} {second} {third}, reads {reads}, {record:?}")
}

/// A case of a disk in memory: `cut CALL FILL`, `fail CALL FILL`, `after`, `reads`.
pub fn disk(alloc: Global, words: &[&str]) -> Result<String, AllocError> {
    match words {
        ["cut", call, fill] => cut(alloc, number(call), fill_of(fill)),
        ["fail", call, fill] => fail(alloc, number(call), fill_of(fill)),
        ["after"] => after(alloc),
        ["reads"] => reads(alloc),
        _ => said(alloc, "none"),
    }
}
