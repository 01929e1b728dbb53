ghost use Rattle.std.specs.Prelude.{◌≡◌, ◌∷◌, [], true, false, IfOk, IfErr, OnOk};
ghost use Rattle.cap_entries.specs.declared.terminal.TermEntry.TheVariants.{Declined, Completed, Voided};
ghost use Rattle.cap_terminal.specs.Adding.{Adds, ending, entry_as};
ghost use Rattle.cap_terminal.specs.Live.{IsLive};
ghost use Rattle.cap_terminal.specs.Causes.{IsEntryCause};

use crate::faults::EntryFault;
use crate::terminal::Terminal;
use cap_entries::TermEntry;
use cap_journal::Journal;
use cap_sale::{Approved, Begun, Receipt};

// The ends of a sale. A token is live where the journal has Begin with its values and no end of that sale. `Failed` comes exactly after an
// earlier `Disk`; each fault spends the token, and after opening again the sale is pending if it has no end. None of these calls takes memory.
impl<J: Journal<TermEntry>> Terminal<J> {
    /// Completes an approved sale.
    pub fn complete(&mut self, approved: Approved) -> Result<Receipt, EntryFault>
        requires live { IsLive (J.entries self.old) approved.n approved.amount approved.account }
        ensures adds { Adds J.Journal self.old self.new (Completed approved.n approved.code ∷ []) (ending entry_as result) }
        ensures receipt { IfOk result (λ receipt. receipt ≡ record { n = approved.n; code = approved.code }) }
        ensures answers { OnOk result (J.has_failed self.old ≡ false) }
        ensures refused { IfErr result (IsEntryCause (J.has_failed self.old)) }
        ensures fetched { J.fetched self.new ≡ J.fetched self.old }
    {
        let entry = TermEntry::Completed {
            n: approved.n(),
            code: approved.code(),
        };
        let receipt = approved.receipt();
        match self.add(entry) {
            Ok(()) => Ok(receipt),
            Err(fault) => {
                let _ = receipt.number();
                Err(fault)
            }
        }
    }

    /// The host has declined the sale.
    pub fn decline(&mut self, begun: Begun) -> Result<(), EntryFault>
        requires live { IsLive (J.entries self.old) begun.n begun.amount begun.account }
        ensures adds { Adds J.Journal self.old self.new (Declined begun.n ∷ []) (ending entry_as result) }
        ensures answers { OnOk result (J.has_failed self.old ≡ false) }
        ensures refused { IfErr result (IsEntryCause (J.has_failed self.old)) }
        ensures fetched { J.fetched self.new ≡ J.fetched self.old }
    {
        let n = begun.n();
        begun.set_aside();
        self.add(TermEntry::Declined { n })
    }

    /// Gives up a sale that was not approved.
    pub fn void_begun(&mut self, begun: Begun) -> Result<(), EntryFault>
        requires live { IsLive (J.entries self.old) begun.n begun.amount begun.account }
        ensures adds { Adds J.Journal self.old self.new (Voided begun.n ∷ []) (ending entry_as result) }
        ensures answers { OnOk result (J.has_failed self.old ≡ false) }
        ensures refused { IfErr result (IsEntryCause (J.has_failed self.old)) }
        ensures fetched { J.fetched self.new ≡ J.fetched self.old }
    {
        let n = begun.n();
        begun.set_aside();
        self.add(TermEntry::Voided { n })
    }

    /// Gives up a sale that was approved.
    pub fn void_approved(&mut self, approved: Approved) -> Result<(), EntryFault>
        requires live { IsLive (J.entries self.old) approved.n approved.amount approved.account }
        ensures adds { Adds J.Journal self.old self.new (Voided approved.n ∷ []) (ending entry_as result) }
        ensures answers { OnOk result (J.has_failed self.old ≡ false) }
        ensures refused { IfErr result (IsEntryCause (J.has_failed self.old)) }
        ensures fetched { J.fetched self.new ≡ J.fetched self.old }
    {
        let n = approved.n();
        approved.set_aside();
        self.add(TermEntry::Voided { n })
    }
}
