// Pages of a disk in memory.
ghost use Rattle.std.specs.Prelude.{◌≡◌, ◌≤◌, ◌<◌, ◌^◌, length, take};
ghost use Rattle.std.specs.Coded.{Coded-set, coded_list, coded_ℕ, Π_prop};
ghost use Rattle.cap_pages.specs.Cache.{pages_of};
ghost use Rattle.cap_disk.specs.MemoryDisk.{contents_of};
ghost use Rattle.cap_pages.specs.Pages.{ArePages};

use crate::journals::disk_with;
use crate::words::{cut, hex, number, text};
use cap_base::Memory;
use cap_disk::{Disk, MemoryDisk};
use cap_pages::PageCache;
use std::alloc::{AllocError, Global};
use std::fmt::Write;

// A disk, and pages of it that are held.
#[derive(Drop)]
struct Shelf {
    disk: MemoryDisk,
    pages: PageCache,
    len: u64,
    ghost long: { len ≤ length (contents_of disk).shown },
    ghost short: { len < 2 ^ 63 },
    ghost held: { ArePages (pages_of pages) (take len (contents_of disk).shown) } by { Π_prop (λ _. Π_prop (λ _. Coded-set (coded_list coded_ℕ) _ _)) },
}

// So many bytes, each its place modulo 251, so that no two pages are alike.
fn pattern(alloc: Global, count: u64) -> Result<Vec<u8>, AllocError> {
    let mut bytes = Vec::new(alloc);
    for i in 0..count {
        bytes.push((i % 251) as u8)?;
    }
    Ok(bytes)
}

impl Shelf {
    // A disk of 10,000 bytes.
    fn new(alloc: Global, pages: usize) -> Option<Shelf>
        requires some { 0 < pages }
        requires few { pages ≤ 1024 }
    {
        let bytes = pattern(alloc, 10_000).ok()?;
        let disk = disk_with(alloc, &bytes)?;
        let pages = PageCache::new(alloc, pages).ok()?;
        Shelf::over(disk, pages)
    }

    fn over(mut disk: MemoryDisk, mut pages: PageCache) -> Option<Shelf> {
        pages.clear();
        let len = disk.len().ok()?;
        if len > 10_000 {
            return None;
        }
        Some(Shelf { disk, pages, len })
    }

    // Ten bytes from a place on.
    fn ten(&mut self, place: u64) -> Option<[u8; 10]> {
        if self.len < 10 || place > self.len - 10 {
            return None;
        }
        let mut ten = [0; 10];
        self.pages
            .read(&mut self.disk, self.len, place, &mut ten)
            .ok()?;
        Some(ten)
    }
}

// Forgets the pages, or reads ten bytes.
fn step(alloc: Global, shelf: &mut Shelf, word: &str, out: &mut String) -> Option<()> {
    if word == "clear" {
        shelf.pages.clear();
        return Some(());
    }
    let ten = shelf.ten(number(word))?;
    let hex = hex(alloc, &ten).ok()?;
    write!(out, "{hex}, ").ok()
}

fn steps(alloc: Global, pages: usize, words: &str, out: &mut String) -> Option<()>
    requires some { 0 < pages }
    requires few { pages ≤ 1024 }
{
    let mut shelf = Shelf::new(alloc, pages)?;
    for word in words.split(' ') {
        step(alloc, &mut shelf, word, out)?;
    }
    write!(out, "reads {}", shelf.disk.reads()).ok()
}

/// A disk of 10,000 bytes of which so many pages are held, and steps: places from which ten bytes are read, or that the pages are forgotten.
/// Last comes how often the disk was read.
pub(crate) fn cache(alloc: Global, words: &str) -> Result<String, Memory> {
    let (pages, words) = cut(words, ' ');
    let pages = number(pages);
    if pages == 0 || pages > 1024 {
        return text(alloc, "no pages");
    }
    let mut out = String::new(alloc);
    match steps(alloc, pages as usize, words, &mut out) {
        Some(()) => Ok(out),
        None => text(alloc, "no disk"),
    }
}
