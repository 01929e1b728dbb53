// The captured sales of a log, as a capture file has them.
ghost use Rattle.std.specs.Prelude.{◌≡◌, ◌<◌, ◌≤◌, ◌+◌, ◌↔◌, length, IfOk, slice_get, Some, None};
ghost use Rattle.cap_base.specs.Captured.{captured};
ghost use Rattle.cap_entries.specs.Log.{log, setup_of};
ghost use Rattle.cap_host.specs.Capture.{line_of};
ghost use Rattle.cap_host.specs.Host.{entries_of, fetched_of, fault_of, Reads};

use crate::host::Host;
use cap_answering::HostFault;
use cap_base::{Account, Amount, Code6, Item};
use cap_entries::HostEntry;
use cap_journal::Journal;

/// A captured sale.
#[derive(Clone, Copy, Debug, PartialEq, Eq)]
pub struct Captured {
    pub n: u64,
    pub amount: Amount,
    pub account: Account,
    pub code: Code6,
}

// The line of a sale.
fn line(item: &Item) -> Option<Captured>
    ensures { result ≡ line_of (Some item.now) }
{
    match *item {
        Item::Sale {
            n,
            amount,
            account,
            code,
        } => Some(Captured {
            n,
            amount,
            account,
            code,
        }),
        _ => None,
    }
}

impl<J: Journal<HostEntry> + Drop> Host<J> {
    fn line_at(&mut self, terminal: u8, k: u64) -> Result<Option<Captured>, HostFault>
        requires { terminal < length (setup_of (entries_of self.old)).terminals }
        ensures line { IfOk result (λ line. line ≡ line_of (slice_get (captured (log (entries_of self.old) terminal)) k)) }
        ensures reads { Reads self.old self.new (fault_of result) }
        ensures entries { entries_of self.new ≡ entries_of self.old }
        ensures fetched { fetched_of self.new ≤ fetched_of self.old + 1 }
    {
        self.idle();
        match self.log(terminal).captured_entry(k) {
            Some(number) => {
                let item = self.item_in(number)?;
                Ok(line(&item))
            }
            None => Ok(None),
        }
    }

    /// Captured sale k of the log of the terminal at this place, in the log's order, counted from 0; None exactly past the last. Reads at most one
    /// entry, makes no counted call of the disk, and never answers `Failed`.
    pub fn capture_line(&mut self, terminal: u8, k: u64) -> Result<Option<Captured>, HostFault>
        requires { terminal < length (setup_of (entries_of self.old)).terminals }
        ensures line { IfOk result (λ line. line ≡ line_of (slice_get (captured (log (entries_of self.old) terminal)) k)) }
        ensures past { IfOk result (λ line. (line ≡ None) ↔ (length (captured (log (entries_of self.old) terminal)) ≤ k)) }
        ensures reads { Reads self.old self.new (fault_of result) }
        ensures entries { entries_of self.new ≡ entries_of self.old }
        ensures fetched { fetched_of self.new ≤ fetched_of self.old + 1 }
    {
        self.line_at(terminal, k)
    }
}
