ghost use Rattle.std.specs.Prelude.{◌≡◌, length, IsTrue};
ghost use Rattle.cap_ledger.specs.Ledger.{is_readable, entries_in};
ghost use Rattle.cap_host.specs.Ties.{HostTies, ties_prop};

use crate::terminal_name::TerminalName;
use cap_base::{Ident, Totals};
use cap_entries::{HostEntry, HostSetup, RowSet};
use cap_host_index::LogIndex;
use cap_journal::Journal;
use cap_ledger::Ledger;
use indexmap::IndexSet;
use std::alloc::Global;

/// An acquirer's host over a journal. Of each terminal's log it keeps an index; an item itself is read back from the journal.
#[derive(Drop)]
pub struct Host<J: Journal<HostEntry> + Drop> {
    pub(crate) alloc: Global,
    pub(crate) ledger: Ledger<HostEntry, J>,
    pub(crate) setup: HostSetup,
    // The terminals in the order of the set-up, and the index of each one's log.
    pub(crate) names: IndexSet<TerminalName>,
    pub(crate) logs: Vec<LogIndex>,
    // The parameter sets that were published, oldest first.
    pub(crate) sets: Vec<RowSet>,
    ghost named: { names.keys ≡ setup.terminals },
    ghost wide: { length logs.items ≡ length setup.terminals },
    ghost readable: { IsTrue (is_readable ledger) },
    ghost ties: { HostTies (entries_in ledger) setup sets.items logs.items } by { ties_prop _ _ _ _ },
}

impl<J: Journal<HostEntry> + Drop> Host<J> {
    ghost use Rattle.std.specs.Prelude.{◌<◌, ◌+◌, ◌^◌, count_by, false, IfSome, None};
    ghost use Rattle.cap_host_answers.specs.Received.{place_of};
    ghost use Rattle.cap_base.specs.Captured.{period_totals, totals};
    ghost use Rattle.cap_base.specs.Item.{is_any_close};
    ghost use Rattle.cap_entries.specs.HostAllowed.{LegalHost};
    ghost use Rattle.cap_entries.specs.Log.{log, published, setup_of};
    ghost use Rattle.cap_host_index.specs.Noted.{IsIndex};
    ghost use Rattle.cap_host.specs.Host.{journal_of, entries_of, has_failed, tells, StandsInAll, IsInAll, Reads};

    /// Its journal.
    pub fn into_journal(self) -> J
        ensures { result ≡ journal_of self }
    {
        self.ledger.into_journal()
    }

    /// How it was set up. Its journal is a legal one.
    pub fn setup(&self) -> &HostSetup
        ensures setup { result.now ≡ setup_of (entries_of self.now) }
        ensures legal { LegalHost (entries_of self.now) }
    {
        &self.setup
    }

    // The place of a terminal's name in the set-up.
    pub(crate) fn place_of(&self, name: &Ident) -> Option<u8>
        ensures place { result ≡ place_of (entries_of self.now) name.now }
        ensures within { IfSome result (λ place. place < length (setup_of (entries_of self.now)).terminals) }
    {
        match self.names.get_index_of(&TerminalName::new(*name)) {
            Some(place) => Some(place as u8),
            None => None,
        }
    }

    // The index of the log of the terminal at this place.
    pub(crate) fn log(&self, terminal: u8) -> &LogIndex
        requires { terminal < length (setup_of (entries_of self.now)).terminals }
        ensures { IsIndex (entries_of self.now) terminal result.now }
    {
        &self.logs[terminal as usize]
    }

    /// How many items the log of the terminal at this place of the set-up has.
    pub fn log_len(&self, terminal: u8) -> u64
        requires { terminal < length (setup_of (entries_of self.now)).terminals }
        ensures value { result ≡ length (log (entries_of self.now) terminal) }
        ensures small { result < 2 ^ 63 }
    {
        self.log(terminal).len()
    }

    /// The totals of period p of the terminal at this place; None exactly where it is not closed.
    pub fn totals(&self, terminal: u8, p: u64) -> Option<Totals>
        requires { terminal < length (setup_of (entries_of self.now)).terminals }
        ensures { result ≡ totals (log (entries_of self.now) terminal) p }
    {
        self.log(terminal).totals(p)
    }

    // The totals of the period that is open.
    pub(crate) fn running(&self, terminal: u8) -> Totals
        requires { terminal < length (setup_of (entries_of self.now)).terminals }
        ensures { result ≡ period_totals (log (entries_of self.now) terminal) (count_by is_any_close (log (entries_of self.now) terminal) + 1) }
    {
        self.log(terminal).running()
    }

    /// The version of the newest parameter set; 0 where there is none.
    pub fn newest(&self) -> u64
        ensures { result ≡ length (published (entries_of self.now)) }
    {
        self.sets.len() as u64
    }

    /// At any time, so at each reply and after `Disk` too, every image that a crash may leave has the entries at its head; where no call answered
    /// `Disk`, it has these and no more.
    pub fn stands(&self)
        ensures in_images { IsTrue (tells self.now) → StandsInAll self.now }
        ensures in_all { has_failed self.now ≡ false → IsTrue (tells self.now) → IsInAll self.now }
    {
        self.idle();
    }

    // Reads nothing back.
    pub(crate) fn idle(&self)
        ensures { Reads self.now self.now None }
    {
        let _ = self.ledger.give(());
    }
}
