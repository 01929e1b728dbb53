// What is read back of a terminal's log.
ghost use Rattle.std.specs.Prelude.{◌≡◌, ◌<◌, ◌≤◌, ◌+◌, ◌==◌, ℕ, length, IfOk, Some, slice_get};
ghost use Rattle.std.specs.List.{list_any};
ghost use Rattle.cap_base.specs.declared.item.Item.{Item};
ghost use Rattle.cap_base.specs.Item.{is_sale_of};
ghost use Rattle.cap_base.specs.Captured.{captured};
ghost use Rattle.cap_entries.specs.declared.host.HostEntry.TheVariants.{Took};
ghost use Rattle.cap_entries.specs.Log.{log, setup_of};
ghost use Rattle.cap_host_index.specs.Places.{amount_in};
ghost use Rattle.cap_host_answers.specs.Answer.{same_item};
ghost use Rattle.cap_host.specs.Held.{item_held};
ghost use Rattle.cap_host.specs.Host.{entries_of, fetched_of, fault_of, Reads};

use crate::host::Host;
use cap_answering::HostFault;
use cap_base::Item;
use cap_entries::HostEntry;
use cap_host_answers::same;
use cap_journal::Journal;

// Whether an item is a sale of this amount.
fn sells_for(item: &Item, hundredths: u64) -> bool
    ensures { result ≡ (amount_in item.now == hundredths) }
{
    match item {
        Item::Sale { amount, .. } => amount.hundredths() == hundredths,
        _ => 0 == hundredths,
    }
}

// The item that an entry holds.
fn held(entry: &HostEntry) -> Option<Item>
    ensures { result ≡ item_held entry.now }
{
    match entry {
        HostEntry::Took { item, .. } => Some(*item),
        _ => None,
    }
}

impl<J: Journal<HostEntry> + Drop> Host<J> {
    // Reads an entry back.
    fn fetch(&mut self, number: u64) -> Result<HostEntry, HostFault>
        ensures value { IfOk result (λ entry. slice_get (entries_of self.old) number ≡ Some entry) }
        ensures reads { Reads self.old self.new (fault_of result) }
        ensures entries { entries_of self.new ≡ entries_of self.old }
        ensures fetched { fetched_of self.new ≤ fetched_of self.old + 1 }
    {
        self.ledger.fetch(number)
    }

    // The item that an entry holds.
    pub(crate) fn item_in(&mut self, number: u64) -> Result<Item, HostFault>
        ensures value { IfOk result (λ item. (terminal : ℕ) (other : Item) → slice_get (entries_of self.old) number ≡ Some (Took terminal other) → item ≡ other) }
        ensures reads { Reads self.old self.new (fault_of result) }
        ensures entries { entries_of self.new ≡ entries_of self.old }
        ensures fetched { fetched_of self.new ≤ fetched_of self.old + 1 }
    {
        let entry = self.fetch(number)?;
        match held(&entry) {
            Some(item) => Ok(item),
            None => Err(HostFault::Memory),
        }
    }

    // Whether item m of the log is this one, where items count from 0.
    pub(crate) fn is_item(&mut self, terminal: u8, m: u64, item: &Item) -> Result<bool, HostFault>
        requires { terminal < length (setup_of (entries_of self.old)).terminals }
        ensures value { IfOk result (λ is. is ≡ same_item (slice_get (log (entries_of self.old) terminal) m) item.now) }
        ensures reads { Reads self.old self.new (fault_of result) }
        ensures entries { entries_of self.new ≡ entries_of self.old }
        ensures fetched { fetched_of self.new ≤ fetched_of self.old + 1 }
    {
        self.idle();
        match self.log(terminal).entry_of(m) {
            Some(number) => {
                let other = self.item_in(number)?;
                Ok(same(&other, item))
            }
            None => Ok(false),
        }
    }

    // Whether a sale of this number and amount is captured.
    pub(crate) fn is_captured(
        &mut self,
        terminal: u8,
        n: u64,
        hundredths: u64,
    ) -> Result<bool, HostFault>
        requires { terminal < length (setup_of (entries_of self.old)).terminals }
        ensures value { IfOk result (λ is. is ≡ list_any (is_sale_of n hundredths) (captured (log (entries_of self.old) terminal))) }
        ensures reads { Reads self.old self.new (fault_of result) }
        ensures entries { entries_of self.new ≡ entries_of self.old }
        ensures fetched { fetched_of self.new ≤ fetched_of self.old + 1 }
    {
        self.idle();
        match self.log(terminal).sale_entry(n) {
            Some(number) => {
                let item = self.item_in(number)?;
                Ok(sells_for(&item, hundredths))
            }
            None => Ok(false),
        }
    }
}
