// How items and sets are added.
ghost use Rattle.std.specs.Prelude.{◌≡◌, ◌≤◌, [], List, Some, true, false, length, map, IfOk, IfErr, OnOk};
ghost use Rattle.cap_entries.specs.declared.host.HostEntry.{HostEntry};
ghost use Rattle.std.specs.List.{list_all};
ghost use Rattle.cap_entries.specs.declared.host.HostEntry.TheVariants.{Took};
ghost use Rattle.cap_entries.specs.HostRecord.{item_fits};
ghost use Rattle.cap_answering.specs.declared.fault.HostFault.TheVariants.{Memory, Failed as Has_failed};
ghost use Rattle.cap_host.specs.Decision.{MayTake};
ghost use Rattle.cap_host.specs.Host.{entries_of, fetched_of, fault_of, has_failed, spare_of, Adds, Reads};

use crate::host::Host;
use crate::spelt::are_spelt;
use cap_answering::HostFault;
use cap_base::Item;
use cap_entries::{HostEntry, batches_are_groups, records_are_bounded};
use cap_host_answers::took_all;
use cap_journal::Journal;

impl<J: Journal<HostEntry> + Drop> Host<J> {
    // Refuses to add anything, where a call answered `Disk`.
    pub(crate) fn refuse(&self) -> HostFault
        requires { has_failed self.now ≡ true }
        ensures fault { result ≡ Has_failed }
        ensures adds { (added : List HostEntry) → (added ≡ [] → ⊥) → Adds self.now self.now added (Some Has_failed) }
    {
        let _ = self.ledger.refuse::<()>();
        HostFault::Failed
    }

    // The entries that hold items of the terminal at this place.
    fn group_of(&self, terminal: u8, items: &[Item]) -> Result<Vec<HostEntry>, HostFault>
        ensures group { IfOk result (λ group. group.items ≡ map (Took terminal) items.now) }
        ensures fits { OnOk result (list_all item_fits items.now ≡ true) }
        ensures memory { IfErr result (λ fault. fault ≡ Memory) }
    {
        if !are_spelt(items) {
            return Err(HostFault::Memory);
        }
        let group = took_all(self.alloc, terminal, items)?;
        Ok(group)
    }

    // Makes room for so many entries that hold items.
    fn reserve(&mut self, count: usize) -> Result<(), HostFault>
        ensures room { OnOk result (count ≤ (spare_of self.new).small) }
        ensures reads { Reads self.old self.new (fault_of result) }
        ensures entries { entries_of self.new ≡ entries_of self.old }
        ensures fetched { fetched_of self.new ≡ fetched_of self.old }
    {
        self.ledger.reserve(count)
    }

    // Adds the group that holds items, for which there is room.
    fn add_group(
        &mut self,
        terminal: u8,
        items: &[Item],
        group: Vec<HostEntry>,
    ) -> Result<(), HostFault>
        requires works { has_failed self.old ≡ false }
        requires may { MayTake (entries_of self.old) terminal items.now }
        requires group { group.items ≡ map (Took terminal) items.now }
        requires fits { list_all item_fits items.now ≡ true }
        requires room { length items.now ≤ (spare_of self.old).small }
        ensures adds { Adds self.old self.new (map (Took terminal) items.now) (fault_of result) }
        ensures fetched { fetched_of self.new ≡ fetched_of self.old }
    {
        self.idle();
        batches_are_groups();
        records_are_bounded();
        self.logs[terminal as usize].note(items)?;
        match self.ledger.add_group(group) {
            Ok(()) => {
                let first = self.ledger.count() - items.len() as u64;
                self.logs[terminal as usize].take_all(first, items);
                Ok(())
            }
            Err(fault) => {
                self.logs[terminal as usize].forget(items);
                Err(fault)
            }
        }
    }

    // Adds items that fit behind the log of the terminal at this place, as one group.
    pub(crate) fn add_items(&mut self, terminal: u8, items: &[Item]) -> Result<(), HostFault>
        requires works { has_failed self.old ≡ false }
        requires may { MayTake (entries_of self.old) terminal items.now }
        ensures adds { Adds self.old self.new (map (Took terminal) items.now) (fault_of result) }
        ensures fetched { fetched_of self.new ≡ fetched_of self.old }
    {
        self.idle();
        let group = self.group_of(terminal, items)?;
        self.reserve(items.len())?;
        self.add_group(terminal, items, group)
    }
}
