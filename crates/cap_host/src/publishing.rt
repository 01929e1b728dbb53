// Publishing a parameter set.
ghost use Rattle.std.specs.Prelude.{◌≡◌, ◌<◌, ◌≤◌, ◌+◌, ◌∷◌, [], ⊤, true, None, Some, Err, length, IfOk, IfErr, OnOk, IsErrOf, vec_len, vec_capacity};
ghost use Rattle.cap_entries.specs.declared.host.HostEntry.TheVariants.{Published};
ghost use Rattle.cap_entries.specs.HostRecord.{are_set_rows};
ghost use Rattle.cap_entries.specs.Log.{published};
ghost use Rattle.cap_host.specs.Publishing.{MayPublish, IsPublishCause, fault_in, publish_fault_of};
ghost use Rattle.cap_host.specs.Host.{entries_of, fetched_of, fault_of, has_failed, spare_of, Adds, Reads};

use crate::host::Host;
use crate::spelt::set_is_spelt;
use cap_answering::HostFault;
use cap_entries::{HostEntry, RowSet};
use cap_journal::Journal;

/// Why a parameter set was not published.
#[derive(Clone, Copy, Debug, PartialEq, Eq)]
pub enum PublishFault {
    /// An earlier call since the host was opened answered `Disk`.
    Failed,
    /// There are 10,000 sets.
    SetLimit,
    Memory,
    /// A call of the journal's disk failed. The set is published or not: the host has to be opened again.
    Disk,
}

fn cause_of(fault: HostFault) -> PublishFault
    ensures { fault_in result ≡ Some fault }
{
    match fault {
        HostFault::Disk => PublishFault::Disk,
        HostFault::Failed => PublishFault::Failed,
        HostFault::Memory => PublishFault::Memory,
    }
}

impl<J: Journal<HostEntry> + Drop> Host<J> {
    // Makes room for one set more.
    fn reserve_set(&mut self) -> Result<(), HostFault>
        ensures room { OnOk result (1 ≤ (spare_of self.new).rows) }
        ensures more { OnOk result (vec_len self.new.sets < vec_capacity self.new.sets) }
        ensures reads { Reads self.old self.new (fault_of result) }
        ensures entries { entries_of self.new ≡ entries_of self.old }
        ensures fetched { fetched_of self.new ≡ fetched_of self.old }
    {
        self.idle();
        self.sets.reserve(1)?;
        self.ledger.reserve_rows()
    }

    // Adds a set, for which there is room; the copy is kept.
    fn append_set(&mut self, rows: RowSet, copy: RowSet) -> Result<(), HostFault>
        requires may { MayPublish (has_failed self.old) (entries_of self.old) }
        requires spelt { are_set_rows rows ≡ true }
        requires copy { copy ≡ rows }
        requires room { 1 ≤ (spare_of self.old).rows }
        requires more { vec_len self.old.sets < vec_capacity self.old.sets }
        ensures adds { Adds self.old self.new (Published (length (published (entries_of self.old)) + 1) rows ∷ []) (fault_of result) }
        ensures fetched { fetched_of self.new ≡ fetched_of self.old }
    {
        let version = self.newest() + 1;
        match self.ledger.add(HostEntry::Published { version, rows }) {
            Ok(()) => {
                self.sets.push_reserved(copy);
                Ok(())
            }
            Err(fault) => Err(fault),
        }
    }

    fn add_set(&mut self, rows: RowSet) -> Result<(), HostFault>
        requires { MayPublish (has_failed self.old) (entries_of self.old) }
        ensures adds { Adds self.old self.new (Published (length (published (entries_of self.old)) + 1) rows ∷ []) (fault_of result) }
        ensures fetched { fetched_of self.new ≡ fetched_of self.old }
    {
        self.idle();
        if !set_is_spelt(&rows) {
            return Err(HostFault::Memory);
        }
        let copy = rows.clone()?;
        self.reserve_set()?;
        self.append_set(rows, copy)
    }

    /// Publishes a parameter set, and gives its version: adds it with the next one. The first of these holds: `Failed` where an earlier call answered
    /// `Disk`, `SetLimit` where there are 10,000 sets, `Memory`, `Disk`.
    pub fn publish(&mut self, rows: RowSet) -> Result<u64, PublishFault>
        ensures version { IfOk result (λ version. version ≡ length (published (entries_of self.old)) + 1) }
        ensures answers { OnOk result (MayPublish (has_failed self.old) (entries_of self.old)) }
        ensures refused { IfErr result (IsPublishCause (has_failed self.old) (entries_of self.old)) }
        ensures adds { (IsErrOf result PublishFault.SetLimit → ⊥) → Adds self.old self.new (Published (length (published (entries_of self.old)) + 1) rows ∷ []) (publish_fault_of result) }
        ensures limit { IsErrOf result PublishFault.SetLimit → Reads self.old self.new None }
        ensures fetched { fetched_of self.new ≡ fetched_of self.old }
    {
        self.idle();
        if self.ledger.has_failed() {
            let _ = self.refuse();
            return Err(PublishFault::Failed);
        }
        if self.sets.len() >= 10_000 {
            return Err(PublishFault::SetLimit);
        }
        let version = self.newest() + 1;
        match self.add_set(rows) {
            Ok(()) => Ok(version),
            Err(fault) => Err(cause_of(fault)),
        }
    }
}
