ghost use Rattle.std.specs.Prelude.{◌≡◌, ◌∷◌, [], true, false, IsTrue, IfErr, OnOk};
ghost use Rattle.cap_journal.specs.Kept.{HasFront};
ghost use Rattle.cap_journal.specs.Seen.{EveryImage};
ghost use Rattle.cap_entries.specs.TermRecord.{has_version, term_reading};
ghost use Rattle.cap_entries.specs.Allowed.{allowed};
ghost use Rattle.cap_terminal.specs.Adding.{Adds, ending, entry_as};
ghost use Rattle.cap_terminal.specs.Causes.{IsEntryCause};
ghost use Rattle.cap_terminal.specs.Room.{HasRoomSinceBegin};

use crate::add::add_entry;
use crate::faults::EntryFault;
use crate::index::Index;
use cap_entries::{TermEntry, TermSetup};
use cap_journal::Journal;
use std::alloc::Global;
use std::marker::Model;

/// A terminal over a journal. Contracts see it as its journal.
#[derive(Drop)]
pub struct Terminal<J: Journal<TermEntry>> {
    pub(crate) alloc: Global,
    pub(crate) journal: J,
    pub(crate) setup: TermSetup,
    pub(crate) index: Index,
    /// An earlier call answered `Disk`.
    pub(crate) failed: bool,
}

impl<J: Journal<TermEntry>> Model for Terminal<J> {
    ghost use Rattle.std.specs.Prelude.{◌≡◌};
    ghost use Rattle.cap_entries.specs.Entry.{term_setup_of};
    ghost use Rattle.cap_terminal.specs.Stands.{Stands};

    ghost Value = { J };

    ghost view = { λ t. t.journal };

    ghost invariant = { λ t. Stands J.Journal t.journal t.index t.failed × (t.setup ≡ term_setup_of (J.entries t.journal)) };
}

impl<J: Journal<TermEntry>> Terminal<J> {
    /// Every image that a crash may leave has the entries at its head.
    pub fn stands(&self)
        ensures { IsTrue (J.tells self.now) → EveryImage J.may_leave self.now (HasFront term_reading (J.entries self.now)) }
    {
        let _ = self.failed;
    }

    /// Adds the end or the cancellation of a sale, which is allowed. There is room for it since the sale began.
    pub(crate) fn add(&mut self, entry: TermEntry) -> Result<(), EntryFault>
        requires allowed { allowed (J.entries self.old) entry ≡ true }
        requires version { has_version entry ≡ true }
        requires room { HasRoomSinceBegin entry }
        ensures adds { Adds J.Journal self.old self.new (entry ∷ []) (ending entry_as result) }
        ensures answers { OnOk result (J.has_failed self.old ≡ false) }
        ensures refused { IfErr result (IsEntryCause (J.has_failed self.old)) }
        ensures fetched { J.fetched self.new ≡ J.fetched self.old }
    {
        add_entry(&mut self.journal, &mut self.index, &mut self.failed, entry)
    }
}
