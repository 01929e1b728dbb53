// How many further entries there is room for.
ghost use Rattle.std.specs.Prelude.{◌≡◌, ◌≤◌, ◌+◌, ◌*◌, List, length, map, sum, All, Some, IsSome, IsTrue};
ghost use Rattle.cap_journal.specs.Spare.{less_one, less, Suffices, bytes_for, entries_for};

use crate::Record;

/// How many further entries there is room for.
#[derive(Clone, Copy, Debug, PartialEq, Eq)]
pub struct Spare {
    /// Entries whose record has at most 72 bytes.
    pub small: u64,
    /// Entries of any size.
    pub rows: u64,
}

impl Spare {
    /// None at all.
    pub const NONE: Spare = Spare { small: 0, rows: 0 };

    /// What is left after an entry whose record has so many bytes.
    pub fn less_one(self, size: usize) -> Spare
        requires suffices { IsSome (less_one size self) }
        requires size { size ≤ 65536 }
        ensures left { less_one size self ≡ Some result }
        ensures entries { entries_for result + 1 ≡ entries_for self }
        ensures bytes { bytes_for result + size + 6 ≤ bytes_for self }
    {
        if size <= 72 && self.small > 0 {
            Spare {
                small: self.small - 1,
                rows: self.rows,
            }
        } else {
            Spare {
                small: self.small,
                rows: self.rows - 1,
            }
        }
    }

    /// What is left after these entries.
    pub fn less<E: Record>(self, added: &[E]) -> Spare
        requires fits { All (λ entry. IsTrue (E.fits entry)) added.now }
        requires suffices { Suffices (map (λ entry. length (E.bytes_of entry)) added.now) self }
        ensures left { less (map (λ entry. length (E.bytes_of entry)) added.now) self ≡ Some result }
        ensures entries { entries_for result + length added.now ≡ entries_for self }
        ensures bytes { bytes_for result + sum (map (λ entry. length (E.bytes_of entry)) added.now) + 6 * length added.now ≤ bytes_for self }
    {
        let mut spare = self;
        for entry in added {
            spare = spare.less_one(entry.size());
        }
        spare
    }
}
