// Which items a log takes.
ghost use Rattle.std.specs.Prelude.{◌≡◌, ◌<◌, ◌≤◌, ◌+◌, ◌++◌, true, length, IfOk};
ghost use Rattle.std.specs.List.{list_any};
ghost use Rattle.cap_base.specs.Item.{is_sale_of};
ghost use Rattle.cap_base.specs.Captured.{captured};
ghost use Rattle.cap_base.specs.declared.item.Totals.{Totals};
ghost use Rattle.cap_base.specs.declared.item.Item.TheVariants.{Void, Close};
ghost use Rattle.cap_base.specs.Fits.{fits, all_fit};
ghost use Rattle.cap_entries.specs.Log.{log, setup_of};
ghost use Rattle.cap_host_answers.specs.Answer.{fitting};
ghost use Rattle.cap_host.specs.Host.{entries_of, fetched_of, fault_of, Reads};

use crate::host::Host;
use cap_answering::HostFault;
use cap_base::Item;
use cap_entries::HostEntry;
use cap_host_answers::{count_closes, has_cancel, has_end, has_sale, is_sale_number};
use cap_journal::Journal;

impl<J: Journal<HostEntry> + Drop> Host<J> {
    // Whether a sale may end with this number behind the log and these items.
    fn may_end(&self, terminal: u8, taken: &[Item], n: u64) -> bool
        requires { terminal < length (setup_of (entries_of self.now)).terminals }
        ensures { result ≡ fits (log (entries_of self.now) terminal ++ taken.now) (Void n) }
    {
        is_sale_number(n) && !self.log(terminal).has_end(n) && !has_end(taken, n)
    }

    // Whether a period may be closed behind the log and these items.
    fn may_close(&self, terminal: u8, taken: &[Item], p: u64) -> bool
        requires within { terminal < length (setup_of (entries_of self.now)).terminals }
        ensures { (totals : Totals) → result ≡ fits (log (entries_of self.now) terminal ++ taken.now) (Close p totals) }
    {
        p <= 250_000
            && p == self
                .log(terminal)
                .closes()
                .saturating_add(count_closes(taken) as u64)
                .saturating_add(1)
    }

    // Whether a Cancel may follow the log and these items.
    fn may_cancel(
        &mut self,
        terminal: u8,
        taken: &[Item],
        n: u64,
        hundredths: u64,
    ) -> Result<bool, HostFault>
        requires within { terminal < length (setup_of (entries_of self.old)).terminals }
        requires fit { all_fit (log (entries_of self.old) terminal) taken.now ≡ true }
        ensures value { IfOk result (λ may. may ≡ list_any (is_sale_of n hundredths) (captured (log (entries_of self.old) terminal ++ taken.now))) }
        ensures reads { Reads self.old self.new (fault_of result) }
        ensures entries { entries_of self.new ≡ entries_of self.old }
        ensures fetched { fetched_of self.new ≤ fetched_of self.old + 1 }
    {
        self.idle();
        if has_cancel(taken, n) {
            return Ok(false);
        }
        if has_sale(taken, n, hundredths) {
            return Ok(true);
        }
        self.is_captured(terminal, n, hundredths)
    }

    // Whether an item may follow the log and these items.
    pub(crate) fn may_follow(
        &mut self,
        terminal: u8,
        taken: &[Item],
        item: &Item,
    ) -> Result<bool, HostFault>
        requires within { terminal < length (setup_of (entries_of self.old)).terminals }
        requires fit { all_fit (log (entries_of self.old) terminal) taken.now ≡ true }
        ensures value { IfOk result (λ may. may ≡ fits (log (entries_of self.old) terminal ++ taken.now) item.now) }
        ensures reads { Reads self.old self.new (fault_of result) }
        ensures entries { entries_of self.new ≡ entries_of self.old }
        ensures fetched { fetched_of self.new ≤ fetched_of self.old + 1 }
    {
        self.idle();
        match item {
            Item::Sale { n, .. } => Ok(self.may_end(terminal, taken, *n)),
            Item::Void { n } => Ok(self.may_end(terminal, taken, *n)),
            Item::Cancel { n, amount } => {
                self.may_cancel(terminal, taken, *n, amount.hundredths())
            }
            Item::Close { p, .. } => Ok(self.may_close(terminal, taken, *p)),
        }
    }

    // The items up to the first that doesn't fit.
    pub(crate) fn fitting(&mut self, terminal: u8, items: &[Item]) -> Result<Vec<Item>, HostFault>
        requires { terminal < length (setup_of (entries_of self.old)).terminals }
        ensures value { IfOk result (λ taken. taken.items ≡ fitting (log (entries_of self.old) terminal) items.now) }
        ensures fit { IfOk result (λ taken. all_fit (log (entries_of self.old) terminal) taken.items ≡ true) }
        ensures few { IfOk result (λ taken. length taken.items ≤ length items.now) }
        ensures reads { Reads self.old self.new (fault_of result) }
        ensures entries { entries_of self.new ≡ entries_of self.old }
        ensures fetched { fetched_of self.new ≤ fetched_of self.old + length items.now }
    {
        self.idle();
        let mut taken = Vec::new(self.alloc);
        for item in items {
            if !self.may_follow(terminal, &taken, item)? {
                return Ok(taken);
            }
            taken.push(*item)?;
        }
        Ok(taken)
    }
}
