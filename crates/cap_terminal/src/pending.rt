ghost use Rattle.std.specs.Prelude.{◌≡◌, ◌==◌, ◌&&◌, ◌||◌, ℕ, not, true, false, OnOk, OnErr, MatchOption};
ghost use Rattle.cap_terminal.specs.Pending.{notes, NotesNoneFrom, IsLeastNoted};

use cap_base::Memory;
use std::alloc::Global;
use std::collections::BTreeSet;

/// Numbers of sales in order: of the pending ones, and perhaps that of the sale which begins next.
#[derive(Drop)]
pub(crate) struct Pending {
    numbers: BTreeSet<u64>,
}

impl Pending {
    /// No numbers.
    pub fn new(alloc: Global) -> Self
        ensures { (k : ℕ) → notes result k ≡ false }
    {
        Pending {
            numbers: BTreeSet::new(alloc),
        }
    }

    /// Notes a number.
    pub fn note(&mut self, n: u64) -> Result<(), Memory>
        ensures noted { OnOk result ((k : ℕ) → notes self.new k ≡ (notes self.old k || (n == k))) }
        ensures same { OnErr result ((k : ℕ) → notes self.new k ≡ notes self.old k) }
    {
        self.numbers.insert(n)?;
        Ok(())
    }

    /// Forgets a number. It takes no memory.
    pub fn forget(&mut self, n: u64)
        ensures { (k : ℕ) → notes self.new k ≡ (notes self.old k && not (n == k)) }
    {
        let _ = self.numbers.remove(&n);
    }

    /// The least number not below n; None exactly where there is none.
    pub fn first_from(&self, n: u64) -> Option<u64>
        ensures { MatchOption result (NotesNoneFrom self.now n) (λ k. IsLeastNoted self.now n k) }
    {
        self.numbers.range(n..).next().copied()
    }
}
