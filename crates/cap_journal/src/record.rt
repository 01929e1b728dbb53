// Entries as bytes.
ghost use Rattle.std.specs.Prelude.{◌≡◌, ◌≤◌, ◌<◌, ◌+◌, ◌++◌, ℕ, List, length, take, Bool, Option, Some, IsTrue, IfOk, vec_len, vec_capacity};

use cap_base::Memory;
use std::alloc::Global;

pub trait Record: Clone {
    /// Whether a value has a record.
    ghost fits: { Self → Bool };

    /// The record of a value.
    ghost bytes_of: { Self → List ℕ };

    /// The value of the record at the head of some bytes, and its number of bytes, exactly where these begin with one.
    ghost reading: { List ℕ → Option (Self × ℕ) };

    fn read(alloc: Global, bytes: &[u8]) -> Result<Option<(Self, usize)>, Memory>
        ensures { IfOk result (λ found. found ≡ reading bytes.now) };

    fn write(&self, out: &mut Vec<u8>)
        requires fits { IsTrue (fits self.now) }
        requires room { vec_len out.old + length (bytes_of self.now) ≤ vec_capacity out.old }
        ensures bytes { out.new.items ≡ out.old.items ++ bytes_of self.now }
        ensures capacity { vec_capacity out.new ≡ vec_capacity out.old };

    fn size(&self) -> usize
        requires { IsTrue (fits self.now) }
        ensures { result ≡ length (bytes_of self.now) };

    /// What was written reads back, whatever stands behind it.
    ghost reads_back: { (value : Self) (rest : List ℕ) → IsTrue (fits value) → reading (bytes_of value ++ rest) ≡ Some (value, length (bytes_of value)) };

    /// A record has 1 to 65,536 bytes.
    ghost size_low: { (value : Self) → IsTrue (fits value) → 1 ≤ length (bytes_of value) };

    ghost size_high: { (value : Self) → IsTrue (fits value) → length (bytes_of value) ≤ 65536 };

    /// What reads is the record of a value that fits.
    ghost reads_only: { (value : Self) (size : ℕ) (bytes : List ℕ) → reading bytes ≡ Some (value, size) → IsTrue (fits value) × (size ≡ length (bytes_of value)) × (take size bytes ≡ bytes_of value) };

    /// A clone is the value.
    ghost clones: { (value clone : Self) → Self.is_clone value clone → clone ≡ value };
}
