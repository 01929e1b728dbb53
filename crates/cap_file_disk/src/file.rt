// A disk over a file: the trusted edge. It tells nothing of content.
ghost use Rattle.std.specs.Prelude.{◌≡◌, ◌<◌, ◌≤◌, ◌+◌, ◌^◌, ℕ, List, [], length, Bool, true, false, None, IsErr, IsSome};
ghost use Rattle.std.proofs.lemmas.Bool.{false≢true};
ghost use Rattle.cap_base.specs.Causes.{HasCause};

use cap_base::{Failed, Memory};
use cap_disk::Disk;
use std::fs::{File, Files, OpenOptions};
use std::io::{self, ErrorKind, Read, Seek, SeekFrom, Write};
use std::os::fd::AsRawFd;
use std::os::unix::fs::OpenOptionsExt;

/// How often a call tries again after an interruption.
const MOST_TRIES: u32 = 1000;

/// A new file is read and written by its owner alone: it holds account numbers.
const OWNER_ALONE: u32 = 0o600;

/// A disk over a file, which is opened by the first call that needs it, and locked from then on for as long as the disk is there. Its
/// room never ends. A sync that fails is final: every later call fails.
#[derive(Drop)]
pub struct FileDisk<R: Files<File = File> + Drop> {
    rt: R,
    path: String,
    file: Option<File>,
    /// Whether a sync has failed.
    is_lost: bool,
    faults: u64,
    ghost shut: { is_lost ≡ true → file ≡ None },
}

impl<R: Files<File = File> + Drop> FileDisk<R> {
    /// A disk over the file at a path. The first call of `len`, `read_at`, `write_at` or `sync` opens the file, or makes an empty one;
    /// where it can't, or where someone else has the file, the call fails and the next one tries again.
    pub fn at(rt: R, path: String) -> FileDisk<R>
        ensures { result.faults ≡ 0 }
    {
        FileDisk {
            rt,
            path,
            file: None,
            is_lost: false,
            faults: 0,
        }
    }

    // Opens the file, or makes an empty one, where it isn't open yet.
    fn open(&mut self)
        ensures faults { self.new.faults ≡ self.old.faults }
        ensures lost { self.old.is_lost ≡ true → self.new ≡ self.old }
        ensures opened { IsSome self.old.file → IsSome self.new.file }
    {
        if self.is_lost {
            return;
        }
        if self.file.is_some() {
            return;
        }
        if let Ok(file) = open_locked(&self.rt, self.path.as_str()) {
            if settle(&self.rt, self.path.as_str(), &file).is_ok() {
                self.file = Some(file);
            } else {
                self.is_lost = true;
            }
        }
    }

    // Counts a fault.
    fn fault<T>(&mut self) -> Result<T, Failed>
        ensures err { IsErr result }
        ensures cause { HasCause self.old.faults self.new.faults result }
        ensures lost { self.new.is_lost ≡ self.old.is_lost }
    {
        self.faults = self.faults.saturating_add(1);
        Err(Failed)
    }
}

// Opens the file, or makes an empty one, whose name is then no link.
fn open_or_make<R: Files<File = File>>(rt: &R, path: &str) -> io::Result<File> {
    let mut options = OpenOptions::new();
    options.read(true).write(true);
    match options.open(rt, path) {
        Err(error) if error.kind() == ErrorKind::NotFound => {
            options.create_new(true).mode(OWNER_ALONE);
            options.open(rt, path)
        }
        found => found,
    }
}

// Opens the file, and locks it: of two processes on one file one fails.
fn open_locked<R: Files<File = File>>(rt: &R, path: &str) -> io::Result<File> {
    let mut file = open_or_make(rt, path)?;
    // What is meant for a standard stream that was closed must not land in the file.
    if file.as_raw_fd() <= 2 {
        file = file.try_clone()?;
    }
    if !file.metadata()?.is_file() {
        return Err(ErrorKind::Unsupported.into());
    }
    file.try_lock()?;
    Ok(file)
}

// The folder that holds the file at a path.
fn folder_of(path: &str) -> &str {
    match path.rsplit_once('/') {
        Some(("", _)) => "/",
        Some((folder, _)) => folder,
        None => ".",
    }
}

// Lets a read give what the device has: a failed sync of an earlier process may have left other bytes in memory, as if they were clean.
// The folder is synced each time, since that process may have ended before it was.
fn settle<R: Files<File = File>>(rt: &R, path: &str, file: &File) -> io::Result<()> {
    file.sync_all()?;
    let advised = libc::posix_fadvise(file.as_raw_fd(), 0, 0, libc::POSIX_FADV_DONTNEED);
    if advised != 0 {
        return Err(io::Error::from_raw_os_error(advised));
    }
    File::open(rt, folder_of(path))?.sync_all()
}

// Fills the buffer, and says whether it did.
fn read_whole<S: Read>(stream: &mut S, buf: &mut [u8]) -> bool {
    let mut done = 0;
    let mut tries = MOST_TRIES;
    'pieces: while done < buf.len() {
        match stream.read(&mut buf[done..]) {
            Ok(0) => return false,
            Ok(count) => done += count,
            Err(error) => {
                if error.kind() != ErrorKind::Interrupted || tries == 0 {
                    return false;
                }
                tries -= 1;
            }
        }
    }
    true
}

// Writes the bytes, and says whether it wrote all.
fn write_whole<S: Write>(stream: &mut S, bytes: &[u8]) -> bool {
    let mut rest = bytes;
    let mut tries = MOST_TRIES;
    'pieces: while !rest.is_empty() {
        match stream.write(rest) {
            Ok(0) => return false,
            Ok(count) => rest = rest.split_at(count).1,
            Err(error) => {
                if error.kind() != ErrorKind::Interrupted || tries == 0 {
                    return false;
                }
                tries -= 1;
            }
        }
    }
    true
}

impl<R: Files<File = File> + Drop> Disk for FileDisk<R> {
    ghost tells = { λ _. false };

    ghost contents = { λ _. record { synced = []; written = []; shown = [] } };

    ghost moment = { λ _. 0 };

    ghost left_since = { λ _ _ _. Unit {0} };

    ghost room = { λ _. record { bytes = 2 ^ 64; calls = 2 ^ 64 } };

    ghost faults = { λ disk. disk.faults };

    ghost counts = { λ _. None };

    ghost counts_now = { λ _ _ _ told. absurd (false≢true told) };

    ghost only_now = { λ _ _ told. absurd (false≢true told) };

    ghost shows_one = { λ _ told. absurd (false≢true told) };

    fn len(&mut self) -> Result<u64, Failed>
        ensures cause { HasCause self.old.faults self.new.faults result }
        ensures lost { self.old.is_lost ≡ true → IsErr result × (self.new.is_lost ≡ true) }
    {
        self.open();
        if let Some(file) = &self.file {
            if let Ok(metadata) = file.metadata() {
                return Ok(metadata.len());
            }
        }
        self.fault()
    }

    fn read_at(&mut self, place: u64, buf: &mut [u8]) -> Result<(), Failed>
        ensures cause { HasCause self.old.faults self.new.faults result }
        ensures lost { self.old.is_lost ≡ true → IsErr result × (self.new.is_lost ≡ true) }
    {
        self.open();
        if let Some(file) = &mut self.file {
            if file.seek(SeekFrom::Start(place)).is_ok() && read_whole(file, buf) {
                return Ok(());
            }
        }
        self.fault()
    }

    fn write_at(&mut self, place: u64, bytes: &[u8]) -> Result<(), Failed>
        requires fits { place + length bytes.now < 2 ^ 63 }
        ensures cause { HasCause self.old.faults self.new.faults result }
        ensures lost { self.old.is_lost ≡ true → IsErr result × (self.new.is_lost ≡ true) }
    {
        self.open();
        if let Some(file) = &mut self.file {
            if file.seek(SeekFrom::Start(place)).is_ok() && write_whole(file, bytes) {
                return Ok(());
            }
        }
        self.fault()
    }

    fn sync(&mut self) -> Result<(), Failed>
        ensures cause { HasCause self.old.faults self.new.faults result }
        ensures lost { self.old.is_lost ≡ true → IsErr result × (self.new.is_lost ≡ true) }
        ensures last { IsSome self.old.file → IsErr result → self.new.is_lost ≡ true }
    {
        self.open();
        if let Some(file) = self.file.take() {
            if file.sync_all().is_ok() {
                self.file = Some(file);
                return Ok(());
            }
            // The system tells of lost bytes once, and may call them clean from then on.
            self.is_lost = true;
        }
        self.fault()
    }

    fn make_room(&mut self, _bytes: u64, _calls: u64) -> Result<(), Memory> {
        Ok(())
    }
}
