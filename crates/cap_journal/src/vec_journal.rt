// A journal in memory, which never fails and tells no images.
ghost use Rattle.std.specs.Prelude.{◌≡◌, ◌+◌, ◌≤◌, vec_len, vec_capacity};

use crate::{Journal, JournalError, Record, Spare};
use cap_base::Memory;
use std::alloc::Global;

const MOST: u64 = 1 << 40;

/// A journal in memory. It never fails.
#[derive(Drop)]
pub struct VecJournal<E: Record> {
    items: Vec<E>,
    spare: Spare,
    fetched: u64,
    ghost room: { vec_len items + spare.small + spare.rows ≤ vec_capacity items },
}

impl<E: Record> VecJournal<E> {
    ghost use Rattle.std.specs.Prelude.{◌≡◌, ◌≤◌, [], IfOk, OnOk, OnErr};

    /// An empty journal.
    pub fn new(alloc: Global) -> Result<VecJournal<E>, Memory>
        ensures entries { IfOk result (λ journal. ⟦<VecJournal<E> as Journal<E>>⟧.entries journal ≡ []) }
        ensures len { IfOk result (λ journal. ⟦<VecJournal<E> as Journal<E>>⟧.len journal ≡ 0) }
        ensures fetched { IfOk result (λ journal. ⟦<VecJournal<E> as Journal<E>>⟧.fetched journal ≡ 0) }
    {
        Ok(VecJournal {
            items: Vec::new(alloc),
            spare: Spare::NONE,
            fetched: 0,
        })
    }

    // Makes room for so many further entries.
    fn make_spare(&mut self, spare: Spare) -> Result<(), Memory>
        requires small { self.old.spare.small ≤ spare.small }
        requires rows { self.old.spare.rows ≤ spare.rows }
        ensures ok { OnOk result (self.new.spare ≡ spare) }
        ensures err { OnErr result (self.new.spare ≡ self.old.spare) }
        ensures entries { self.new.items.items ≡ self.old.items.items }
        ensures fetched { self.new.fetched ≡ self.old.fetched }
    {
        if spare.small >= MOST || spare.rows >= MOST {
            return Err(Memory);
        }
        self.items.reserve((spare.small + spare.rows) as usize)?;
        self.spare = spare;
        Ok(())
    }
}

impl<E: Record> Journal<E> for VecJournal<E> {
    ghost use Rattle.std.specs.Prelude.{◌≡◌, ◌<◌, ◌≤◌, ◌+◌, ◌++◌, [], length, map, sum, All, true, false, None, OnOk, OnErr, IsErrOf, IsTrue};
    ghost use Rattle.cap_journal.specs.Spare.{Suffices, Takes};
    ghost use Rattle.std.proofs.Common.{refl};
    ghost use Rattle.cap_journal.specs.Kept.{untold};

    ghost entries = { λ journal. journal.items.items };

    ghost len = { λ journal. length journal.items.items };

    ghost spare = { λ journal. journal.spare };

    ghost fetched = { λ journal. journal.fetched };

    ghost faults = { λ _. 0 };

    ghost counts = { λ _. None };

    ghost has_failed = { λ _. false };

    ghost is_readable = { λ _. true };

    ghost tells = { λ _. false };

    ghost shown = { λ _. [] };

    ghost may_leave = { λ _ _. ⊥ };

    ghost moment = { λ _. 0 };

    ghost left_since = { λ _ _ _. ⊥ };

    ghost counted = { λ journal readable. refl };

    ghost told_is_readable = { λ journal tells. refl };

    ghost settled = { λ journal image tells works left. absurd left };

    ghost kept = { λ journal image tells works left. absurd left };

    ghost stands = { λ journal image tells left. absurd left };

    ghost counts_now = { λ journal t image tells le left. left };

    ghost only_now = { λ journal image tells left. left };

    ghost shows_one = { λ journal tells. untold tells };

    fn count(&self) -> u64 {
        self.items.len() as u64
    }

    fn entry(&mut self, i: u64) -> Result<E, JournalError> {
        self.fetched = self.fetched.saturating_add(1);
        match self.items[i as usize].clone() {
            Ok(entry) => Ok(entry),
            Err(_) => Err(JournalError::Memory),
        }
    }

    fn reserve(&mut self, n: usize) -> Result<(), Memory> {
        if n as u64 <= self.spare.small {
            return Ok(());
        }
        self.make_spare(Spare {
            small: n as u64,
            rows: self.spare.rows,
        })
    }

    fn reserve_rows(&mut self) -> Result<(), Memory> {
        if self.spare.rows >= 1 {
            return Ok(());
        }
        self.make_spare(Spare {
            small: self.spare.small,
            rows: 1,
        })
    }

    fn append(&mut self, entry: E) -> Result<(), JournalError> {
        self.spare = self.spare.less_one(entry.size());
        self.items.push_reserved(entry);
        Ok(())
    }

    fn append_group(&mut self, added: Vec<E>) -> Result<(), JournalError>
        requires some { 0 < length added.items }
        requires fits { All (λ entry. IsTrue (E.fits entry)) added.items }
        requires size { sum (map (λ entry. length (E.bytes_of entry)) added.items) ≤ 65536 }
        requires spare { Suffices (map (λ entry. length (E.bytes_of entry)) added.items) self.old.spare }
        ensures ok { OnOk result (self.new.items.items ≡ self.old.items.items ++ added.items) }
        ensures len { OnOk result (length self.new.items.items ≡ length self.old.items.items + length added.items) }
        ensures works { OnErr result ⊥ }
        ensures spare { OnOk result (Takes (map (λ entry. length (E.bytes_of entry)) added.items) self.old.spare self.new.spare) }
        ensures fetched { self.new.fetched ≡ self.old.fetched }
    {
        let mut added = added;
        let spare = self.spare.less(added.as_slice());
        self.spare = spare;
        match self.items.append(&mut added) {
            Ok(()) => Ok(()),
            Err(_) => unreachable!(),
        }
    }
}
