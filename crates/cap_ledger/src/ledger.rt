ghost use Rattle.std.specs.Prelude.{◌≡◌, false, IsTrue};

use cap_answering::HostFault;
use cap_journal::{Journal, JournalError, Record};
use std::marker::PhantomData;

/// A journal, and whether a call of it answered `Disk` since it was opened.
#[derive(Drop)]
pub struct Ledger<E: Record, J: Journal<E> + Drop> {
    journal: J,
    failed: bool,
    of: PhantomData<E>,
    ghost works: { failed ≡ false → J.has_failed journal ≡ false },
}

impl<E: Record, J: Journal<E> + Drop> Ledger<E, J> {
    ghost use Rattle.std.specs.Prelude.{◌≤◌, ◌<◌, ◌+◌, true, ◌++◌, ◌∷◌, [], length, map, sum, All, OnOk, IfOk, IfErr, slice_get, Ok, Err, Some, List};
    ghost use Rattle.cap_journal.specs.Spare.{Suffices};
    ghost use Rattle.cap_answering.specs.declared.fault.HostFault.TheVariants.{Disk, Failed, Memory};
    ghost use Rattle.cap_ledger.specs.Ledger.{journal_in, has_failed, entries_in, len_in, spare_in, fetched_in, is_readable, OnlyReads, Adds};

    /// A journal that has not failed.
    pub fn new(journal: J) -> Self
        requires { J.has_failed journal ≡ false }
        ensures journal { journal_in result ≡ journal }
        ensures works { has_failed result ≡ false }
    {
        Ledger {
            journal,
            failed: false,
            of: PhantomData,
        }
    }

    /// The journal.
    pub fn into_journal(self) -> J
        ensures { result ≡ journal_in self }
    {
        self.journal
    }

    /// Whether a call answered `Disk`.
    pub fn has_failed(&self) -> bool
        ensures { result ≡ has_failed self.now }
    {
        self.failed
    }

    /// How many entries there are.
    pub fn count(&self) -> u64
        ensures len { result ≡ len_in self.now }
        ensures listed { IsTrue (is_readable self.now) → result ≡ length (entries_in self.now) }
    {
        self.journal.count()
    }

    /// Gives a value, and does nothing.
    pub fn give<T>(&self, value: T) -> Result<T, HostFault>
        ensures value { result ≡ Ok value }
        ensures reads { OnlyReads self.now self.now result }
    {
        Ok(value)
    }

    /// Answers want of memory, and does nothing.
    pub fn lack<T>(&self) -> Result<T, HostFault>
        ensures value { result ≡ Err Memory }
        ensures reads { OnlyReads self.now self.now result }
    {
        Err(HostFault::Memory)
    }

    /// Refuses to add anything, where a call answered `Disk`.
    pub fn refuse<T>(&self) -> Result<T, HostFault>
        requires { has_failed self.now ≡ true }
        ensures value { result ≡ Err Failed }
        ensures adds { (added : List E) → (added ≡ [] → ⊥) → Adds self.now self.now added result }
    {
        Err(HostFault::Failed)
    }

    /// Gives an entry; they count from 0. `Memory` also comes where the journal no longer reads what was written.
    pub fn fetch(&mut self, number: u64) -> Result<E, HostFault>
        ensures value { IsTrue (is_readable self.old) → IfOk result (λ entry. slice_get (entries_in self.old) number ≡ Some entry) }
        ensures reads { OnlyReads self.old self.new result }
        ensures fetched { fetched_in self.new ≤ fetched_in self.old + 1 }
    {
        if self.journal.count() <= number {
            return Err(HostFault::Memory);
        }
        match self.journal.entry(number) {
            Ok(entry) => Ok(entry),
            Err(JournalError::Memory) => Err(HostFault::Memory),
            Err(_) => {
                self.failed = true;
                Err(HostFault::Disk)
            }
        }
    }

    /// Makes room for n more entries whose record has at most 72 bytes.
    pub fn reserve(&mut self, n: usize) -> Result<(), HostFault>
        ensures room { OnOk result (n ≤ (spare_in self.new).small) }
        ensures reads { OnlyReads self.old self.new result }
        ensures memory { IfErr result (λ fault. fault ≡ Memory) }
        ensures fetched { fetched_in self.new ≡ fetched_in self.old }
    {
        self.journal.reserve(n)?;
        Ok(())
    }

    /// Makes room for one more entry of any size.
    pub fn reserve_rows(&mut self) -> Result<(), HostFault>
        ensures room { OnOk result (1 ≤ (spare_in self.new).rows) }
        ensures reads { OnlyReads self.old self.new result }
        ensures memory { IfErr result (λ fault. fault ≡ Memory) }
        ensures fetched { fetched_in self.new ≡ fetched_in self.old }
    {
        self.journal.reserve_rows()?;
        Ok(())
    }

    /// Adds an entry, where no call failed.
    pub fn add(&mut self, entry: E) -> Result<(), HostFault>
        requires works { has_failed self.old ≡ false }
        requires fits { IsTrue (E.fits entry) }
        requires spare { Suffices (length (E.bytes_of entry) ∷ []) (spare_in self.old) }
        ensures adds { Adds self.old self.new (entry ∷ []) result }
        ensures disk { IfErr result (λ fault. fault ≡ Disk) }
        ensures fetched { fetched_in self.new ≡ fetched_in self.old }
    {
        match self.journal.append(entry) {
            Ok(()) => Ok(()),
            Err(_) => {
                self.failed = true;
                Err(HostFault::Disk)
            }
        }
    }

    /// Adds entries as one group, where no call failed.
    pub fn add_group(&mut self, added: Vec<E>) -> Result<(), HostFault>
        requires works { has_failed self.old ≡ false }
        requires some { 0 < length added.items }
        requires fits { All (λ entry. IsTrue (E.fits entry)) added.items }
        requires size { sum (map (λ entry. length (E.bytes_of entry)) added.items) ≤ 65536 }
        requires spare { Suffices (map (λ entry. length (E.bytes_of entry)) added.items) (spare_in self.old) }
        ensures adds { Adds self.old self.new added.items result }
        ensures disk { IfErr result (λ fault. fault ≡ Disk) }
        ensures fetched { fetched_in self.new ≡ fetched_in self.old }
    {
        match self.journal.append_group(added) {
            Ok(()) => Ok(()),
            Err(_) => {
                self.failed = true;
                Err(HostFault::Disk)
            }
        }
    }
}
