// A journal that keeps places, and reads its entries back through pages.
ghost use Rattle.std.specs.Prelude.{◌≤◌, ◌<◌};

use crate::faults::{fill_of, three};
use crate::journals::{add_to, disk_with};
use crate::words::{cut, number, text};
use cap_base::Memory;
use cap_disk::{Counted, MemoryDisk};
use cap_journal::{Journal, OpenCause, Reopen};
use cap_journal_trials::Sample;
use cap_pages::PagedJournal;
use std::alloc::Global;
use std::fmt::Write;

// A journal of samples that is read through pages.
type Paged = PagedJournal<Sample, MemoryDisk>;

// A journal with a set-up.
fn started(alloc: Global, pages: usize) -> Option<Paged>
    requires some { 0 < pages }
    requires few { pages ≤ 1024 }
{
    let disk = MemoryDisk::new(alloc).ok()?;
    let Ok(mut journal) = Paged::init(alloc, disk, pages) else {
        return None;
    };
    add_to(&mut journal, Sample::Setup)?;
    Some(journal)
}

// Adds a group of three, and says what was answered.
fn add_group(alloc: Global, journal: &mut Paged, out: &mut String) -> Option<()> {
    let group = three(alloc).ok()?;
    journal.reserve(3).ok()?;
    let answer = journal.append_group(group);
    write!(out, "{answer:?}, ").ok()
}

// Adds so many groups of three, each of which is answered Ok.
fn add_groups(alloc: Global, journal: &mut Paged, count: u64) -> Option<()> {
    for _ in 0..count {
        let group = three(alloc).ok()?;
        journal.reserve(3).ok()?;
        journal.append_group(group).ok()?;
    }
    Some(())
}

// Lets a call of the disk fail.
fn arm_fail(journal: &mut Paged, words: &str) -> Option<()> {
    let (call, fill) = cut(words, ',');
    journal.arm_fail(number(call), fill_of(fill), Counted::NoReads);
    Some(())
}

// Lets the power be cut at a call of the disk.
fn arm_cut(journal: &mut Paged, words: &str) -> Option<()> {
    let (call, fill) = cut(words, ',');
    journal.arm_cut(number(call), fill_of(fill), Counted::NoReads);
    Some(())
}

// The entry with a number, where there is one.
fn entry_of(journal: &mut Paged, i: u64) -> Option<Sample> {
    if i < journal.count() {
        journal.entry(i).ok()
    } else {
        None
    }
}

// What an entry must be: a set-up stands before the groups of three.
fn wanted(i: u64) -> Sample {
    match i % 3 {
        2 => Sample::Completed,
        0 if i == 0 => Sample::Setup,
        _ => Sample::Begin,
    }
}

// How many entries are right, read in order.
fn count_right(journal: &mut Paged) -> u64 {
    let mut right: u64 = 0;
    for i in 0..journal.count() {
        if entry_of(journal, i) == Some(wanted(i)) {
            right = right.saturating_add(1);
        }
    }
    right
}

// How often an entry is right, read so many times.
fn count_again(journal: &mut Paged, words: &str) -> u64 {
    let (i, times) = cut(words, ',');
    let mut right: u64 = 0;
    for _ in 0..number(times) {
        if entry_of(journal, number(i)) == Some(wanted(number(i))) {
            right = right.saturating_add(1);
        }
    }
    right
}

// A step that reads, and says what came.
fn read(journal: &mut Paged, verb: &str, words: &str, out: &mut String) -> Option<()> {
    match verb {
        "entry" => {
            let entry = entry_of(journal, number(words))?;
            write!(out, "{entry:?}, ").ok()
        }
        "again" => write!(out, "{} right, ", count_again(journal, words)).ok(),
        _ => write!(out, "{} right, ", count_right(journal)).ok(),
    }
}

// A step of a journal that stays open.
fn step(alloc: Global, journal: &mut Paged, word: &str, out: &mut String) -> Option<()> {
    let (verb, words) = cut(word, ',');
    match verb {
        "group" => add_group(alloc, journal, out),
        "groups" => add_groups(alloc, journal, number(words)),
        "fail" => arm_fail(journal, words),
        "cut" => arm_cut(journal, words),
        "reopen" => journal.reopen().ok(),
        _ => read(journal, verb, words, out),
    }
}

// The journal opened from its disk once the power is back.
fn restarted(alloc: Global, journal: Paged, pages: usize) -> Option<Paged>
    requires some { 0 < pages }
    requires few { pages ≤ 1024 }
{
    let disk = journal.into_disk();
    match Paged::open(alloc, disk.restart(), pages) {
        Ok(journal) => Some(journal),
        Err(_) => None,
    }
}

// The journal after a step.
fn stepped(
    alloc: Global,
    journal: Paged,
    pages: usize,
    word: &str,
    out: &mut String,
) -> Option<Paged>
    requires some { 0 < pages }
    requires few { pages ≤ 1024 }
{
    if word == "restart" {
        return restarted(alloc, journal, pages);
    }
    let mut journal = journal;
    step(alloc, &mut journal, word, out)?;
    Some(journal)
}

fn steps(alloc: Global, pages: usize, words: &str, out: &mut String) -> Option<()>
    requires some { 0 < pages }
    requires few { pages ≤ 1024 }
{
    let mut journal = started(alloc, pages)?;
    for word in words.split(' ') {
        journal = stepped(alloc, journal, pages, word, out)?;
    }
    let count = journal.count();
    let reads = journal.into_disk().reads();
    write!(out, "{count} entries, reads {reads}").ok()
}

/// A journal of one set-up that holds so many pages, and steps: groups of three, calls that fail or cut the power, openings, and entries that
/// are read. Last comes how often its disk was read, since the power came back.
pub(crate) fn journal(alloc: Global, words: &str) -> Result<String, Memory> {
    let (pages, words) = cut(words, ' ');
    let pages = number(pages);
    if pages == 0 || pages > 1024 {
        return text(alloc, "no pages");
    }
    let mut out = String::new(alloc);
    match steps(alloc, pages as usize, words, &mut out) {
        Some(()) => Ok(out),
        None => text(alloc, "no journal"),
    }
}

/// A file of samples, opened with three pages: how many entries there are, or why not.
pub(crate) fn opened(alloc: Global, bytes: &[u8]) -> Option<Result<u64, OpenCause>> {
    let disk = disk_with(alloc, bytes)?;
    match Paged::open(alloc, disk, 3) {
        Ok(journal) => Some(Ok(journal.count())),
        Err(error) => Some(Err(error.cause)),
    }
}
