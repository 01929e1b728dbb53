// Pages of a disk's bytes, of which the last used are held in memory.
ghost use Rattle.std.specs.Prelude.{◌≡◌, ◌≤◌, ◌<◌, ◌+◌, ◌*◌, ◌^◌, ◌++◌, ℕ, List, [], length, take, drop, Bool, true, IsTrue, IfOk, OnOk, IsErrOf};
ghost use Rattle.cap_base.specs.Causes.{Rose};
ghost use Rattle.cap_disk.specs.Disk.{IsQuiet};
ghost use Rattle.cap_pages.specs.Pages.{ArePages};
ghost use Rattle.cap_pages.specs.Reading.{OnlyReads};
ghost use Rattle.cap_pages.specs.Cache.{pages_of, most_of};

use cap_base::Memory;
use cap_disk::Disk;
use lru::LruCache;
use std::alloc::Global;
use std::num::NonZeroUsize;

// The bytes of a page.
const PAGE: u64 = 4096;

/// Why bytes were not read.
#[derive(Clone, Copy, Debug, PartialEq, Eq)]
pub enum PageError {
    /// A call of the disk failed.
    Disk,
    Memory,
}

/// The pages of a disk that were used last. A page is 4,096 bytes of the disk.
#[derive(Drop)]
pub struct PageCache {
    alloc: Global,
    pages: LruCache<u64, Vec<u8>>,
}

// Copies bytes to a place of a buffer.
fn lay(buf: &mut [u8], at: usize, bytes: &[u8])
    requires { at + length bytes.now ≤ length buf.old }
    ensures front { take (at + length bytes.now) buf.new ≡ take at buf.old ++ bytes.now }
    ensures len { length buf.new ≡ length buf.old }
{
    buf[at..at + bytes.len()].copy_from_slice(bytes);
}

// Reads the first bytes of a page.
fn fetch<D: Disk>(
    alloc: Global,
    disk: &mut D,
    number: u64,
    size: usize,
) -> Result<Vec<u8>, PageError>
    requires short { 4096 * number + size < 2 ^ 63 }
    requires within { IsTrue (D.tells disk.old) → 4096 * number + size ≤ length (D.contents disk.old).shown }
    ensures bytes { IsTrue (D.tells disk.old) → IfOk result (λ page. page.items ≡ take size (drop (4096 * number) (D.contents disk.old).shown)) }
    ensures size { IfOk result (λ page. length page.items ≡ size) }
    ensures reads { OnlyReads D.tells D.contents D.moment D.left_since D.room D.faults D.counts disk.old disk.new }
    ensures disk { IsErrOf result PageError.Disk → Rose (D.faults disk.old) (D.faults disk.new) }
    ensures quiet { IsQuiet (D.counts disk.old) (IsErrOf result PageError.Disk) }
{
    untouched(disk);
    let mut page = match vec![in alloc; 0; size] {
        Ok(page) => page,
        Err(_) => return Err(PageError::Memory),
    };
    match disk.read_at(number * PAGE, page.as_mut_slice()) {
        Ok(()) => Ok(page),
        Err(_) => Err(PageError::Disk),
    }
}

// Does nothing.
fn untouched<D: Disk>(disk: &D)
    ensures { OnlyReads D.tells D.contents D.moment D.left_since D.room D.faults D.counts disk.now disk.now }
{}

impl PageCache {
    /// No pages yet, and at most so many later.
    pub fn new(alloc: Global, pages: usize) -> Result<PageCache, Memory>
        requires some { 0 < pages }
        requires few { pages ≤ 1024 }
        ensures empty { IfOk result (λ cache. pages_of cache ≡ []) }
        ensures most { IfOk result (λ cache. most_of cache ≡ pages) }
    {
        match NonZeroUsize::new(pages) {
            Some(most) => Ok(PageCache {
                alloc,
                pages: LruCache::new(alloc, most)?,
            }),
            None => unreachable!(),
        }
    }

    /// How many pages it holds.
    pub fn held(&self) -> usize
        ensures held { result ≡ length (pages_of self.now) }
        ensures most { result ≤ most_of self.now }
    {
        self.pages.len()
    }

    /// Forgets all pages.
    pub fn clear(&mut self)
        ensures empty { pages_of self.new ≡ [] }
        ensures most { most_of self.new ≡ most_of self.old }
    {
        self.pages.clear();
    }

    // Copies bytes of a page that is held, where so many of its bytes were read.
    fn copy_held(
        &mut self,
        number: u64,
        size: usize,
        from: usize,
        count: usize,
        buf: &mut [u8],
        done: usize,
    ) -> bool
        requires within { from + count ≤ size }
        requires fits { done + count ≤ length buf.old }
        ensures bytes { (image : List ℕ) → ArePages (pages_of self.old) image → IsTrue result → take (done + count) buf.new ≡ take done buf.old ++ take count (drop (4096 * number + from) image) }
        ensures len { length buf.new ≡ length buf.old }
        ensures same { (result ≡ true → ⊥) → buf.new ≡ buf.old }
        ensures pages { (image : List ℕ) → ArePages (pages_of self.old) image → ArePages (pages_of self.new) image }
        ensures most { most_of self.new ≡ most_of self.old }
    {
        match self.pages.get(&number) {
            Some(page) => {
                if page.len() >= size {
                    lay(buf, done, &page[from..from + count]);
                    true
                } else {
                    false
                }
            }
            None => false,
        }
    }

    // Holds a page.
    fn keep(&mut self, number: u64, page: Vec<u8>) -> Result<(), PageError>
        ensures pages { (image : List ℕ) → ArePages (pages_of self.old) image → page.items ≡ take (length page.items) (drop (4096 * number) image) → ArePages (pages_of self.new) image }
        ensures most { most_of self.new ≡ most_of self.old }
        ensures memory { IsErrOf result PageError.Disk → ⊥ }
    {
        match self.pages.put(number, page) {
            Ok(_) => Ok(()),
            Err(_) => Err(PageError::Memory),
        }
    }

    // Reads bytes of one page, from a place on, behind those of the buffer that are done; it gives how many.
    fn read_piece<D: Disk>(
        &mut self,
        disk: &mut D,
        stable: u64,
        at: u64,
        buf: &mut [u8],
        done: usize,
    ) -> Result<usize, PageError>
        requires at { at < stable }
        requires done { done < length buf.old }
        requires short { stable < 2 ^ 63 }
        requires stable { IsTrue (D.tells disk.old) → stable ≤ length (D.contents disk.old).shown }
        requires pages { IsTrue (D.tells disk.old) → ArePages (pages_of self.old) (take stable (D.contents disk.old).shown) }
        ensures bytes { IsTrue (D.tells disk.old) → IfOk result (λ count. take (done + count) buf.new ≡ take done buf.old ++ take count (drop at (D.contents disk.old).shown)) }
        ensures some { IfOk result (λ count. (0 < count) × (done + count ≤ length buf.new)) }
        ensures len { length buf.new ≡ length buf.old }
        ensures pages { IsTrue (D.tells disk.old) → ArePages (pages_of self.new) (take stable (D.contents disk.old).shown) }
        ensures most { most_of self.new ≡ most_of self.old }
        ensures reads { OnlyReads D.tells D.contents D.moment D.left_since D.room D.faults D.counts disk.old disk.new }
        ensures disk { IsErrOf result PageError.Disk → Rose (D.faults disk.old) (D.faults disk.new) }
        ensures quiet { IsQuiet (D.counts disk.old) (IsErrOf result PageError.Disk) }
    {
        untouched(disk);
        let number = at / PAGE;
        let first = number * PAGE;
        let from = (at - first) as usize;
        let size = PAGE.min(stable - first) as usize;
        let count = (size - from).min(buf.len() - done);
        if self.copy_held(number, size, from, count, buf, done) {
            return Ok(count);
        }
        let page = fetch(self.alloc, disk, number, size)?;
        lay(buf, done, &page[from..from + count]);
        self.keep(number, page)?;
        Ok(count)
    }

    /// Reads bytes of a disk. The range lies below `stable`, which lies within the disk and below which its bytes stay as at the earlier reads. A
    /// page that `stable` cuts is read up to there, and again once `stable` is larger.
    pub fn read<D: Disk>(
        &mut self,
        disk: &mut D,
        stable: u64,
        place: u64,
        buf: &mut [u8],
    ) -> Result<(), PageError>
        requires range { place + length buf.old ≤ stable }
        requires short { stable < 2 ^ 63 }
        requires stable { IsTrue (D.tells disk.old) → stable ≤ length (D.contents disk.old).shown }
        requires pages { IsTrue (D.tells disk.old) → ArePages (pages_of self.old) (take stable (D.contents disk.old).shown) }
        ensures bytes { IsTrue (D.tells disk.old) → OnOk result (buf.new ≡ take (length buf.old) (drop place (D.contents disk.old).shown)) }
        ensures len { length buf.new ≡ length buf.old }
        ensures pages { IsTrue (D.tells disk.old) → ArePages (pages_of self.new) (take stable (D.contents disk.old).shown) }
        ensures most { most_of self.new ≡ most_of self.old }
        ensures reads { OnlyReads D.tells D.contents D.moment D.left_since D.room D.faults D.counts disk.old disk.new }
        ensures disk { IsErrOf result PageError.Disk → Rose (D.faults disk.old) (D.faults disk.new) }
        ensures quiet { IsQuiet (D.counts disk.old) (IsErrOf result PageError.Disk) }
    {
        untouched(disk);
        let mut done = 0;
        'pieces: while done < buf.len() {
            done += self.read_piece(disk, stable, place + done as u64, buf, done)?;
        }
        Ok(())
    }
}
