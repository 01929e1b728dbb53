ghost use Rattle.std.specs.Prelude.{◌≡◌, ◌≤◌, ◌<◌, ◌+◌, true, false, [], None, Some, IsTrue, IfOk, IfErr, OnOk, MatchResult, length, slice_get};
ghost use Rattle.cap_base.specs.Causes.{Rose};
ghost use Rattle.cap_disk.specs.Disk.{StaysCounted, IsQuiet};
ghost use Rattle.cap_entries.specs.Allowed.{Legal, all_allowed};
ghost use Rattle.cap_entries.specs.Entry.{term_setup_of};
ghost use Rattle.cap_terminal.specs.Index.{index_of};
ghost use Rattle.cap_terminal.specs.View.{index_view};
ghost use Rattle.cap_terminal.specs.Opening.{LeavesNoOthers, IsOpenCause, IsReadCause, setup_in, setup_from, HasRoomFor};

use crate::changing::change;
use crate::faults::{TermOpenCause, TermOpenError};
use crate::index::Index;
use crate::terminal::Terminal;
use cap_base::Memory;
use cap_entries::{TermEntry, TermJudge, TermSetup};
use cap_journal::{Journal, JournalError};
use std::alloc::Global;

// The set-up that stands first, with one entry more.
fn setup_with(so_far: Option<TermSetup>, entry: &TermEntry) -> Option<TermSetup>
    ensures { result ≡ setup_from so_far entry.now }
{
    match entry {
        TermEntry::Setup(setup) => Some(*setup),
        _ => so_far,
    }
}

// Makes room in the index for an entry.
fn make_room(index: &mut Index, entry: &TermEntry) -> Result<(), Memory>
    ensures view { index_view index.new ≡ index_view index.old }
    ensures owed { index.new.owed ≡ index.old.owed }
    ensures room { OnOk result (HasRoomFor index.new entry.now) }
{
    match entry {
        TermEntry::Begin { .. } => index.make_sale_room(),
        TermEntry::Closed { .. } => index.make_period_room(),
        _ => Ok(()),
    }
}

fn entry_at<J: Journal<TermEntry>>(journal: &mut J, i: u64) -> Result<TermEntry, TermOpenCause>
    requires within { i < J.len journal.old }
    requires readable { IsTrue (J.is_readable journal.old) }
    ensures value { IfOk result (λ entry. slice_get (J.entries journal.old) i ≡ Some entry) }
    ensures refused { IfErr result (IsReadCause (J.faults journal.old) (J.faults journal.new)) }
    ensures entries { J.entries journal.new ≡ J.entries journal.old }
    ensures len { J.len journal.new ≡ J.len journal.old }
    ensures spare { J.spare journal.new ≡ J.spare journal.old }
    ensures has_failed { J.has_failed journal.new ≡ J.has_failed journal.old }
    ensures is_readable { J.is_readable journal.new ≡ J.is_readable journal.old }
    ensures faults { J.faults journal.old ≤ J.faults journal.new }
    ensures counts { StaysCounted (J.counts journal.old) (J.counts journal.new) }
    ensures quiet { IfErr result (λ cause. IsQuiet (J.counts journal.old) (cause ≡ TermOpenCause.Disk)) }
    ensures tells { J.tells journal.new ≡ J.tells journal.old }
    ensures images { IsTrue (J.tells journal.old) → LeavesNoOthers J.Journal journal.old journal.new }
{
    match journal.entry(i) {
        Ok(entry) => Ok(entry),
        Err(JournalError::Disk) => Err(TermOpenCause::Disk),
        Err(JournalError::Failed) => unreachable!(),
        Err(JournalError::Memory) => Err(TermOpenCause::Memory),
    }
}

// Reads the entries one after the other, as far as they are allowed.
fn read_entries<J: Journal<TermEntry>>(
    alloc: Global,
    journal: &mut J,
) -> Result<(Index, Option<TermSetup>), TermOpenCause>
    requires readable { IsTrue (J.is_readable journal.old) }
    ensures legal { OnOk result (all_allowed [] (J.entries journal.old) ≡ true) }
    ensures index { IfOk result (λ read. index_view read.0 ≡ index_of (J.entries journal.old)) }
    ensures setup { IfOk result (λ read. read.1 ≡ setup_in (J.entries journal.old)) }
    ensures refused { IfErr result (IsOpenCause (J.entries journal.old) (J.faults journal.old) (J.faults journal.new)) }
    ensures entries { J.entries journal.new ≡ J.entries journal.old }
    ensures faults { J.faults journal.old ≤ J.faults journal.new }
    ensures counts { StaysCounted (J.counts journal.old) (J.counts journal.new) }
    ensures quiet { IfErr result (λ cause. IsQuiet (J.counts journal.old) (cause ≡ TermOpenCause.Disk)) }
    ensures has_failed { J.has_failed journal.new ≡ J.has_failed journal.old }
    ensures is_readable { J.is_readable journal.new ≡ J.is_readable journal.old }
    ensures tells { J.tells journal.new ≡ J.tells journal.old }
    ensures images { IsTrue (J.tells journal.old) → LeavesNoOthers J.Journal journal.old journal.new }
{
    let mut judge = TermJudge::new(alloc);
    let mut index = Index::new(alloc);
    let mut setup = None;
    for i in 0..journal.count() {
        let entry = entry_at(journal, i)?;
        if !judge.allows(&entry) {
            return Err(TermOpenCause::NotAllowed(i));
        }
        judge.add(&entry)?;
        make_room(&mut index, &entry)?;
        index.apply(change(&entry));
        setup = setup_with(setup, &entry);
    }
    Ok((index, setup))
}

// Reads the entries of a terminal, and makes room for what its sales may still need.
fn read_terminal<J: Journal<TermEntry>>(
    alloc: Global,
    journal: &mut J,
) -> Result<(Index, TermSetup), TermOpenCause>
    requires readable { IsTrue (J.is_readable journal.old) }
    ensures legal { OnOk result (Legal (J.entries journal.old)) }
    ensures index { IfOk result (λ read. index_view read.0 ≡ index_of (J.entries journal.old)) }
    ensures setup { IfOk result (λ read. read.1 ≡ term_setup_of (J.entries journal.old)) }
    ensures room { IfOk result (λ read. read.0.owed ≤ (J.spare journal.new).small) }
    ensures refused { IfErr result (IsOpenCause (J.entries journal.old) (J.faults journal.old) (J.faults journal.new)) }
    ensures entries { J.entries journal.new ≡ J.entries journal.old }
    ensures faults { J.faults journal.old ≤ J.faults journal.new }
    ensures counts { StaysCounted (J.counts journal.old) (J.counts journal.new) }
    ensures quiet { IfErr result (λ cause. IsQuiet (J.counts journal.old) (cause ≡ TermOpenCause.Disk)) }
    ensures has_failed { J.has_failed journal.new ≡ J.has_failed journal.old }
    ensures is_readable { J.is_readable journal.new ≡ J.is_readable journal.old }
    ensures tells { J.tells journal.new ≡ J.tells journal.old }
    ensures images { IsTrue (J.tells journal.old) → LeavesNoOthers J.Journal journal.old journal.new }
{
    let (index, setup) = read_entries(alloc, journal)?;
    match setup {
        Some(setup) => match journal.reserve(index.owed as usize) {
            Ok(()) => Ok((index, setup)),
            Err(_) => Err(TermOpenCause::Memory),
        },
        None => Err(TermOpenCause::NotAllowed(0)),
    }
}

impl<J: Journal<TermEntry>> Terminal<J> {
    /// Opens a terminal over a journal that has not failed. `NotAllowed(i)` comes exactly where entry i, counted from 0, is the first that is not
    /// allowed, or the journal is empty and i is 0. It makes no counted call of the disk; after Ok there is room for what the sales may still need.
    pub fn open(alloc: Global, journal: J) -> Result<Terminal<J>, TermOpenError<J>>
        requires works { J.has_failed journal ≡ false }
        requires readable { IsTrue (J.is_readable journal) }
        ensures legal { OnOk result (Legal (J.entries journal)) }
        ensures refused { IfErr result (λ error. IsOpenCause (J.entries journal) (J.faults journal) (J.faults error.back) error.cause) }
        ensures entries { MatchResult result (λ now. J.entries now ≡ J.entries journal) (λ error. J.entries error.back ≡ J.entries journal) }
        ensures faults { MatchResult result (λ now. J.faults journal ≤ J.faults now) (λ error. J.faults journal ≤ J.faults error.back) }
        ensures counts { MatchResult result (λ now. StaysCounted (J.counts journal) (J.counts now)) (λ error. StaysCounted (J.counts journal) (J.counts error.back)) }
        ensures quiet { IfErr result (λ error. IsQuiet (J.counts journal) (error.cause ≡ TermOpenCause.Disk)) }
        ensures has_failed { MatchResult result (λ now. J.has_failed now ≡ false) (λ error. J.has_failed error.back ≡ false) }
        ensures is_readable { MatchResult result (λ now. J.is_readable now ≡ J.is_readable journal) (λ error. J.is_readable error.back ≡ J.is_readable journal) }
        ensures tells { MatchResult result (λ now. J.tells now ≡ J.tells journal) (λ error. J.tells error.back ≡ J.tells journal) }
        ensures images { IsTrue (J.tells journal) → MatchResult result (λ now. LeavesNoOthers J.Journal journal now) (λ error. LeavesNoOthers J.Journal journal error.back) }
    {
        let mut journal = journal;
        match read_terminal(alloc, &mut journal) {
            Ok((index, setup)) => Ok(Terminal {
                alloc,
                journal,
                setup,
                index,
                failed: false,
            }),
            Err(cause) => Err(TermOpenError {
                back: journal,
                cause,
            }),
        }
    }

    /// Gives the journal back.
    pub fn into_journal(self) -> J
        ensures { result ≡ self }
    {
        let Terminal {
            alloc: _,
            journal,
            setup: _,
            index: _,
            failed: _,
        } = self;
        journal
    }

    /// How the terminal was set up. Its journal is a legal one.
    pub fn setup(&self) -> &TermSetup
        ensures setup { result.now ≡ term_setup_of (J.entries self.now) }
        ensures legal { Legal (J.entries self.now) }
    {
        &self.setup
    }
}
