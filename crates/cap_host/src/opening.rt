// Opening a host: the entries of its journal are read and judged one after another.
ghost use Rattle.std.specs.Prelude.{◌≡◌, ◌≤◌, true, false, List, [], slice_get, Some, None, IsTrue, IfOk, IfErr, OnOk, MatchResult};
ghost use Rattle.cap_entries.specs.declared.host.HostEntry.{HostEntry};
ghost use Rattle.cap_disk.specs.Disk.{LeavesOnly, StaysCounted};
ghost use Rattle.cap_entries.specs.HostAllowed.{LegalHost, all_host_allowed};
ghost use Rattle.cap_ledger.specs.Ledger.{entries_in, is_readable, OnlyReads};
ghost use Rattle.cap_host.specs.Tables.{TablesTie};
ghost use Rattle.cap_host.specs.Opening.{IsHostOpenCause, IsOpened, IsStart, IsFound, IsRefusal, open_fault_of};
ghost use Rattle.cap_host.specs.Host.{entries_of, journal_of, has_failed, ending, fault_of};

use crate::host::Host;
use crate::tables::Tables;
use crate::terminal_name::TerminalName;
use cap_answering::HostFault;
use cap_base::Memory;
use cap_entries::{HostEntry, HostJudge, HostSetup, RowSet};
use cap_host_index::LogIndex;
use cap_journal::Journal;
use cap_ledger::Ledger;
use indexmap::IndexSet;
use std::alloc::Global;

/// Why a host was not opened.
#[derive(Clone, Copy, Debug, PartialEq, Eq)]
pub enum HostOpenCause {
    /// The entry with this number, counted from 0, is the first that is not allowed, or the journal is empty and it is 0.
    NotAllowed(u64),
    /// A call of the journal's disk failed.
    Disk,
    Memory,
}

/// A journal over which no host was opened, and why.
#[derive(Drop)]
pub struct HostOpenError<J: Drop> {
    pub back: J,
    pub cause: HostOpenCause,
}

// What reading a journal gives: what its entries say, or the first that is not allowed.
#[derive(Drop)]
pub(crate) enum Opened {
    Legal(Tables),
    Stops(u64),
}

// What a host keeps beside its journal.
#[derive(Drop)]
pub(crate) struct Start {
    pub(crate) setup: HostSetup,
    pub(crate) names: IndexSet<TerminalName>,
    pub(crate) logs: Vec<LogIndex>,
    pub(crate) sets: Vec<RowSet>,
}

fn entry_at<J: Journal<HostEntry> + Drop>(
    ledger: &mut Ledger<HostEntry, J>,
    number: u64,
) -> Result<HostEntry, HostFault>
    requires { IsTrue (is_readable ledger.old) }
    ensures value { IfOk result (λ entry. slice_get (entries_in ledger.old) number ≡ Some entry) }
    ensures reads { OnlyReads ledger.old ledger.new (ending (fault_of result)) }
{
    ledger.fetch(number)
}

// Does nothing.
fn rest<J: Journal<HostEntry> + Drop>(ledger: &Ledger<HostEntry, J>)
    ensures { OnlyReads ledger.now ledger.now (ending None) }
{
    let _ = ledger.give(());
}

// Reads and judges all entries.
fn read_all<J: Journal<HostEntry> + Drop>(
    alloc: Global,
    ledger: &mut Ledger<HostEntry, J>,
) -> Result<Opened, HostFault>
    requires { IsTrue (is_readable ledger.old) }
    ensures opened { IfOk result (λ opened. IsOpened (entries_in ledger.old) opened) }
    ensures reads { OnlyReads ledger.old ledger.new (ending (fault_of result)) }
{
    rest(ledger);
    let mut judge = HostJudge::new(alloc);
    let mut tables = Tables::new(alloc);
    for i in 0..ledger.count() {
        let entry = entry_at(ledger, i)?;
        if !judge.allows(&entry) {
            return Ok(Opened::Stops(i));
        }
        judge.add(&entry)?;
        tables.take(i, entry)?;
    }
    Ok(Opened::Legal(tables))
}

// The names of the terminals, in order.
fn names_of(alloc: Global, setup: &HostSetup) -> Result<IndexSet<TerminalName>, Memory>
    ensures { IfOk result (λ names. names.keys ≡ setup.now.terminals) }
{
    let mut names = IndexSet::new(alloc);
    for name in setup.terminals().as_slice() {
        names.insert(TerminalName::new(*name))?;
    }
    Ok(names)
}

// What a host keeps of entries that are allowed; None where no set-up stands first.
fn start_of(alloc: Global, tables: Tables) -> Result<Option<Start>, Memory>
    ensures { (entries : List HostEntry) → all_host_allowed [] entries ≡ true → TablesTie entries tables → IfOk result (λ found. IsFound entries found) }
{
    let Tables {
        alloc: _,
        setup,
        logs,
        sets,
    } = tables;
    match setup {
        Some(setup) => {
            let names = names_of(alloc, &setup)?;
            Ok(Some(Start {
                setup,
                names,
                logs,
                sets,
            }))
        }
        None => Ok(None),
    }
}

// Reads what a host keeps.
fn read_host<J: Journal<HostEntry> + Drop>(
    alloc: Global,
    ledger: &mut Ledger<HostEntry, J>,
) -> Result<Start, HostOpenCause>
    requires { IsTrue (is_readable ledger.old) }
    ensures start { IfOk result (λ start. IsStart (entries_in ledger.old) start) }
    ensures refused { IfErr result (IsRefusal (entries_in ledger.old)) }
    ensures reads { OnlyReads ledger.old ledger.new (ending (open_fault_of result)) }
{
    match read_all(alloc, ledger) {
        Ok(Opened::Legal(tables)) => match start_of(alloc, tables) {
            Ok(Some(start)) => Ok(start),
            Ok(None) => Err(HostOpenCause::NotAllowed(0)),
            Err(_) => Err(HostOpenCause::Memory),
        },
        Ok(Opened::Stops(i)) => Err(HostOpenCause::NotAllowed(i)),
        Err(HostFault::Disk) => Err(HostOpenCause::Disk),
        Err(HostFault::Failed) => unreachable!(),
        Err(HostFault::Memory) => Err(HostOpenCause::Memory),
    }
}

impl<J: Journal<HostEntry> + Drop> Host<J> {
    /// Opens a host over a journal that has not failed. `NotAllowed(i)` comes exactly where entry i, counted from 0, is the first that is not
    /// allowed, or the journal is empty and i is 0. It makes no counted call of the disk.
    pub fn open(alloc: Global, journal: J) -> Result<Host<J>, HostOpenError<J>>
        requires works { J.has_failed journal ≡ false }
        requires readable { IsTrue (J.is_readable journal) }
        ensures legal { OnOk result (LegalHost (J.entries journal)) }
        ensures refused { IfErr result (λ error. IsHostOpenCause (J.entries journal) (J.faults journal) (J.faults error.back) error.cause) }
        ensures entries { MatchResult result (λ host. entries_of host ≡ J.entries journal) (λ error. J.entries error.back ≡ J.entries journal) }
        ensures faults { MatchResult result (λ host. J.faults journal ≤ J.faults (journal_of host)) (λ error. J.faults journal ≤ J.faults error.back) }
        ensures counts { MatchResult result (λ host. StaysCounted (J.counts journal) (J.counts (journal_of host))) (λ error. StaysCounted (J.counts journal) (J.counts error.back)) }
        ensures works { IfOk result (λ host. has_failed host ≡ false) }
        ensures tells { MatchResult result (λ host. J.tells (journal_of host) ≡ J.tells journal) (λ error. J.tells error.back ≡ J.tells journal) }
        ensures images { IsTrue (J.tells journal) → MatchResult result (λ host. LeavesOnly J.moment J.left_since journal (journal_of host) (J.may_leave journal)) (λ error. LeavesOnly J.moment J.left_since journal error.back (J.may_leave journal)) }
    {
        let mut ledger = Ledger::new(journal);
        match read_host(alloc, &mut ledger) {
            Ok(start) => {
                let Start {
                    setup,
                    names,
                    logs,
                    sets,
                } = start;
                Ok(Host {
                    alloc,
                    ledger,
                    setup,
                    names,
                    logs,
                    sets,
                })
            }
            Err(cause) => Err(HostOpenError {
                back: ledger.into_journal(),
                cause,
            }),
        }
    }
}
