// Disks over a file.
ghost use Rattle.std.specs.Prelude.{◌<◌, ◌^◌};

use crate::show::{number, said, text_of};
use cap_disk::Disk;
use cap_file_disk::FileDisk;
use std::alloc::{AllocError, Global};
use std::fs;
use std::fs::{File, Files};

/// A disk over a file, and another one.
#[derive(Drop)]
pub struct TwoDisks<R: Files<File = File> + Drop> {
    one: Option<FileDisk<R>>,
    other: Option<FileDisk<R>>,
}

impl<R: Files<File = File> + Drop> TwoDisks<R> {
    pub fn new() -> TwoDisks<R> {
        TwoDisks {
            one: None,
            other: None,
        }
    }
}

fn read<R: Files<File = File> + Drop>(
    alloc: Global,
    disk: &mut FileDisk<R>,
    place: u64,
    count: u64,
) -> Result<String, AllocError> {
    let mut buf = [0u8; 16];
    if count > 16 {
        return said(alloc, "none");
    }
    let answer = disk.read_at(place, &mut buf[..count as usize]);
    if answer.is_err() {
        return format!(in alloc; "{answer:?}");
    }
    format!(in alloc; "Ok {}", text_of(&buf[..count as usize]))
}

fn write<R: Files<File = File> + Drop>(
    alloc: Global,
    disk: &mut FileDisk<R>,
    place: u64,
    text: &str,
) -> Result<String, AllocError> {
    let bytes = text.as_bytes();
    if place >= 1 << 34 || bytes.len() > 1 << 34 {
        return said(alloc, "none");
    }
    let answer = disk.write_at(place, bytes);
    format!(in alloc; "{answer:?}")
}

fn len<R: Files<File = File> + Drop>(
    alloc: Global,
    disk: &mut FileDisk<R>,
) -> Result<String, AllocError> {
    let answer = disk.len();
    format!(in alloc; "{answer:?}")
}

fn sync<R: Files<File = File> + Drop>(
    alloc: Global,
    disk: &mut FileDisk<R>,
) -> Result<String, AllocError> {
    let answer = disk.sync();
    format!(in alloc; "{answer:?}")
}

fn call<R: Files<File = File> + Drop>(
    alloc: Global,
    disk: &mut FileDisk<R>,
    words: &[&str],
) -> Result<String, AllocError> {
    match words {
        ["len"] => len(alloc, disk),
        ["read", place, count] => read(alloc, disk, number(place), number(count)),
        ["write", place, text] => write(alloc, disk, number(place), text),
        ["sync"] => sync(alloc, disk),
        _ => said(alloc, "none"),
    }
}

// A call of a disk: `at PATH`, `drop`, and those of any disk.
fn on<R: Files<File = File> + Drop>(
    alloc: Global,
    rt: R,
    disk: &mut Option<FileDisk<R>>,
    words: &[&str],
) -> Result<String, AllocError> {
    match words {
        ["at", path] => {
            *disk = Some(FileDisk::at(rt, format!(in alloc; "{path}")?));
            return said(alloc, "here");
        }
        ["drop"] => {
            *disk = None;
            return said(alloc, "dropped");
        }
        _ => {}
    }
    match disk {
        Some(disk) => call(alloc, disk, words),
        None => said(alloc, "none"),
    }
}

/// A call of the one disk.
pub fn one<R: Files<File = File> + Drop>(
    alloc: Global,
    rt: R,
    disks: &mut TwoDisks<R>,
    words: &[&str],
) -> Result<String, AllocError> {
    on(alloc, rt, &mut disks.one, words)
}

/// A call of the other disk.
pub fn other<R: Files<File = File> + Drop>(
    alloc: Global,
    rt: R,
    disks: &mut TwoDisks<R>,
    words: &[&str],
) -> Result<String, AllocError> {
    on(alloc, rt, &mut disks.other, words)
}

fn is_there<R: Files>(alloc: Global, rt: &R, path: &str) -> Result<String, AllocError> {
    match fs::exists(rt, path) {
        Ok(is_there) => format!(in alloc; "{is_there}"),
        Err(_) => said(alloc, "unknown"),
    }
}

/// What lies at a path: `is PATH` says whether a file does, `remove PATH` removes it.
pub fn path<R: Files>(alloc: Global, rt: &R, words: &[&str]) -> Result<String, AllocError> {
    match words {
        ["is", path] => is_there(alloc, rt, path),
        ["remove", path] => {
            let _ = fs::remove_file(rt, path);
            said(alloc, "removed")
        }
        _ => said(alloc, "none"),
    }
}
