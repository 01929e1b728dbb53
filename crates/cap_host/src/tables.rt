// What a host keeps beside its journal, while the journal is read.
ghost use Rattle.std.specs.Prelude.{◌≡◌, ◌<◌, [], ℕ, List, length, IfOk, slice_get, Some};
ghost use Rattle.cap_host_index.specs.Noted.{IsIndex};
ghost use Rattle.cap_host_index.specs.declared.index.LogIndex.{LogIndex};

use cap_base::{Item, Memory};
use cap_entries::{HostEntry, HostSetup, RowSet};
use cap_host_index::LogIndex;
use std::alloc::Global;

/// What the entries so far say: how the host was set up, the index of each terminal's log, and the sets that were published.
#[derive(Drop)]
pub(crate) struct Tables {
    pub(crate) alloc: Global,
    pub(crate) setup: Option<HostSetup>,
    pub(crate) logs: Vec<LogIndex>,
    pub(crate) sets: Vec<RowSet>,
}

fn empty_logs(alloc: Global, count: usize) -> Result<Vec<LogIndex>, Memory>
    ensures len { IfOk result (λ v. length v.items ≡ count) }
    ensures empty { IfOk result (λ v. (place : ℕ) (index : LogIndex) → slice_get v.items place ≡ Some index → (terminal : ℕ) → IsIndex [] terminal index) }
{
    let mut logs = Vec::new(alloc);
    for _ in 0..count {
        logs.push(LogIndex::new(alloc))?;
    }
    Ok(logs)
}

impl Tables {
    ghost use Rattle.std.specs.Prelude.{◌∷◌, ◌++◌, true, OnOk};
    ghost use Rattle.cap_entries.specs.declared.host.HostEntry.{HostEntry};
    ghost use Rattle.cap_entries.specs.declared.host.HostEntry.TheVariants.{Took};
    ghost use Rattle.cap_entries.specs.HostAllowed.{host_allowed};
    ghost use Rattle.cap_host.specs.Tables.{TablesTie};

    /// What no entry says.
    pub(crate) fn new(alloc: Global) -> Tables
        ensures { TablesTie [] result }
    {
        Tables {
            alloc,
            setup: None,
            logs: Vec::new(alloc),
            sets: Vec::new(alloc),
        }
    }

    // Takes an item, which stands in the entry with this number.
    fn take_item(&mut self, number: u64, terminal: u8, item: &Item) -> Result<(), Memory>
        requires { number < 18446744073709551615 }
        ensures { (entries : List HostEntry) → TablesTie entries self.old → number ≡ length entries → host_allowed entries (Took terminal item.now) ≡ true → OnOk result (TablesTie (entries ++ Took terminal item.now ∷ []) self.new) }
    {
        let place = terminal as usize;
        if self.logs.len() <= place {
            return Ok(());
        }
        let one = [*item];
        self.logs[place].note(&one)?;
        self.logs[place].take_all(number, &one);
        Ok(())
    }

    /// Takes the next entry, which has this number.
    pub(crate) fn take(&mut self, number: u64, entry: HostEntry) -> Result<(), Memory>
        requires { number < 18446744073709551615 }
        ensures { (entries : List HostEntry) → TablesTie entries self.old → number ≡ length entries → host_allowed entries entry ≡ true → OnOk result (TablesTie (entries ++ entry ∷ []) self.new) }
    {
        match entry {
            HostEntry::Setup(setup) => {
                let count = setup.terminals().as_slice().len();
                self.logs = empty_logs(self.alloc, count)?;
                self.setup = Some(setup);
                Ok(())
            }
            HostEntry::Took { terminal, item } => self.take_item(number, terminal, &item),
            HostEntry::Published { rows, .. } => {
                self.sets.push(rows)?;
                Ok(())
            }
        }
    }
}
