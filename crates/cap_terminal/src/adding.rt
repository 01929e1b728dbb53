ghost use Rattle.std.specs.Prelude.{◌≡◌, ◌≤◌, ◌+◌, ◌∷◌, [], true, false, IfOk, IfErr, OnOk, OnErr, count_by};
ghost use Rattle.cap_base.specs.Captured.{period_totals};
ghost use Rattle.cap_entries.specs.declared.terminal.TermEntry.TheVariants.{Begin, Cancelled, Closed};
ghost use Rattle.cap_entries.specs.Entry.{is_any_begin, is_any_closed, is_completed, is_cancelled, amount_of, max_of};
ghost use Rattle.cap_entries.specs.Items.{items};
ghost use Rattle.cap_terminal.specs.Adding.{Adds, ending, begin_as, cancel_as, close_as};
ghost use Rattle.cap_terminal.specs.Live.{IsLive, next_sale, open_period};
ghost use Rattle.cap_terminal.specs.Says.{Says};
ghost use Rattle.cap_terminal.specs.Causes.{IsBeginCause, MayBegin, IsAskCause, IsCancelCause, MayCancel, IsCloseCause, MayClose, IsMemoryOrDisk, IsMemoryOrDiskAtClose};

use crate::add::{RoomFault, reserve_and_add};
use crate::faults::{AskFault, BeginFault, CancelFault, CloseFault};
use crate::sale_row::{SaleRow, Stage};
use crate::terminal::Terminal;
use cap_base::{Account, Amount, Totals};
use cap_entries::TermEntry;
use cap_journal::Journal;
use cap_sale::Begun;

impl<J: Journal<TermEntry>> Terminal<J> {
    // What is kept of a sale.
    pub(crate) fn sale(&self, n: u64) -> Option<SaleRow>
        ensures { Says (J.entries self.now) n result }
    {
        self.index.sale(n)
    }

    // The amount of a sale that may be cancelled, or why it may not.
    pub(crate) fn cancellable(&self, n: u64) -> Result<Amount, AskFault>
        ensures amount { IfOk result (λ amount. amount ≡ amount_of (J.entries self.now) n) }
        ensures completed { OnOk result (is_completed (J.entries self.now) n ≡ true) }
        ensures not_cancelled { OnOk result (is_cancelled (J.entries self.now) n ≡ false) }
        ensures refused { IfErr result (IsAskCause (J.entries self.now) n) }
        ensures neither { OnErr result (is_completed (J.entries self.now) n ≡ true → is_cancelled (J.entries self.now) n ≡ true) }
    {
        match self.sale(n) {
            None => Err(AskFault::NoSale(n)),
            Some(row) => match row.stage {
                Stage::Completed => Ok(row.amount),
                Stage::Cancelled => Err(AskFault::AlreadyCancelled(n)),
                Stage::Pending => Err(AskFault::NotCompleted(n)),
                Stage::Declined => Err(AskFault::NotCompleted(n)),
                Stage::Voided => Err(AskFault::NotCompleted(n)),
            },
        }
    }

    // How many sales were begun.
    fn sales_begun(&self) -> u64
        ensures { result ≡ count_by is_any_begin (J.entries self.now) }
    {
        self.index.sales.len() as u64
    }

    // How many sales may be begun.
    fn most_sales(&self) -> u64
        ensures value { result ≡ max_of (J.entries self.now) }
        ensures few { result ≤ 250000 }
    {
        self.setup.max()
    }

    // How many periods were closed.
    fn periods_closed(&self) -> u64
        ensures { result ≡ count_by is_any_closed (J.entries self.now) }
    {
        self.index.closed.len() as u64
    }

    // The totals of the period that is open.
    fn running_totals(&self) -> Totals
        ensures { result ≡ period_totals (items (J.entries self.now)) (open_period (J.entries self.now)) }
    {
        self.index.running
    }

    // Adds the next Begin, and makes room for all later entries of the sale.
    fn add_begin(&mut self, n: u64, amount: Amount, account: Account) -> Result<(), BeginFault>
        requires works { J.has_failed self.old ≡ false }
        requires next { n ≡ next_sale (J.entries self.old) }
        requires within { n ≤ max_of (J.entries self.old) }
        ensures adds { Adds J.Journal self.old self.new (Begin n amount account ∷ []) (ending begin_as result) }
        ensures live { OnOk result (IsLive (J.entries self.new) n amount account) }
        ensures kind { IfErr result IsMemoryOrDisk }
        ensures fetched { J.fetched self.new ≡ J.fetched self.old }
    {
        self.index.make_sale_room()?;
        match reserve_and_add(
            &mut self.journal,
            &mut self.index,
            &mut self.failed,
            3,
            TermEntry::Begin { n, amount, account },
        ) {
            Ok(()) => {}
            Err(RoomFault::Memory) => return Err(BeginFault::Memory),
            Err(RoomFault::Disk) => return Err(BeginFault::Disk),
        }
        Ok(())
    }

    /// Begins the next sale, and makes room for all its later entries. The first of these holds: `Failed` exactly after an earlier `Disk`,
    /// `SaleLimit` exactly where the set-up allows no further sale, `Memory`, `Disk`.
    pub fn begin(&mut self, amount: Amount, account: Account) -> Result<Begun, BeginFault>
        ensures begun { IfOk result (λ begun. begun ≡ record { n = next_sale (J.entries self.old); amount = amount; account = account }) }
        ensures adds { Adds J.Journal self.old self.new (Begin (next_sale (J.entries self.old)) amount account ∷ []) (ending begin_as result) }
        ensures live { IfOk result (λ begun. IsLive (J.entries self.new) begun.n begun.amount begun.account) }
        ensures answers { OnOk result (MayBegin (J.has_failed self.old) (J.entries self.old)) }
        ensures refused { IfErr result (IsBeginCause (J.has_failed self.old) (J.entries self.old)) }
        ensures fetched { J.fetched self.new ≡ J.fetched self.old }
    {
        if self.failed {
            return Err(BeginFault::Failed);
        }
        let sales = self.sales_begun();
        let most = self.most_sales();
        if sales >= most {
            return Err(BeginFault::SaleLimit(most));
        }
        let n = sales + 1;
        match self.add_begin(n, amount, account) {
            Ok(()) => Ok(Begun::issue(n, amount, account)),
            Err(BeginFault::Memory) => Err(BeginFault::Memory),
            Err(_) => Err(BeginFault::Disk),
        }
    }

    /// Cancels a completed sale. The first of these holds: `Failed` exactly after an earlier `Disk`, `NoSale` exactly where no sale n was begun,
    /// `NotCompleted` exactly where it was not completed, `AlreadyCancelled` exactly where it was cancelled, `Disk`. It takes no memory.
    pub fn cancel(&mut self, n: u64) -> Result<(), CancelFault>
        ensures adds { Adds J.Journal self.old self.new (Cancelled n ∷ []) (ending cancel_as result) }
        ensures answers { OnOk result (MayCancel (J.has_failed self.old) (J.entries self.old) n) }
        ensures refused { IfErr result (IsCancelCause (J.has_failed self.old) (J.entries self.old) n) }
        ensures fetched { J.fetched self.new ≡ J.fetched self.old }
    {
        if self.failed {
            return Err(CancelFault::Failed);
        }
        match self.cancellable(n) {
            Ok(_) => match self.add(TermEntry::Cancelled { n }) {
                Ok(()) => Ok(()),
                Err(_) => Err(CancelFault::Disk),
            },
            Err(AskFault::NoSale(n)) => Err(CancelFault::NoSale(n)),
            Err(AskFault::NotCompleted(n)) => Err(CancelFault::NotCompleted(n)),
            Err(AskFault::AlreadyCancelled(n)) => Err(CancelFault::AlreadyCancelled(n)),
        }
    }

    // Adds the next Closed.
    fn add_closed(&mut self, p: u64) -> Result<(), CloseFault>
        requires works { J.has_failed self.old ≡ false }
        requires next { p ≡ open_period (J.entries self.old) }
        requires within { p ≤ 250000 }
        ensures adds { Adds J.Journal self.old self.new (Closed p ∷ []) (ending close_as result) }
        ensures kind { IfErr result IsMemoryOrDiskAtClose }
        ensures fetched { J.fetched self.new ≡ J.fetched self.old }
    {
        self.index.make_period_room()?;
        match reserve_and_add(
            &mut self.journal,
            &mut self.index,
            &mut self.failed,
            1,
            TermEntry::Closed { p },
        ) {
            Ok(()) => {}
            Err(RoomFault::Memory) => return Err(CloseFault::Memory),
            Err(RoomFault::Disk) => return Err(CloseFault::Disk),
        }
        Ok(())
    }

    /// Closes the period that is open, and gives its number and totals. The first of these holds: `Failed` exactly after an earlier `Disk`,
    /// `PeriodLimit` exactly after 250,000 closings, `Memory`, `Disk`.
    pub fn close_period(&mut self) -> Result<(u64, Totals), CloseFault>
        ensures period { IfOk result (λ period. (period.0 ≡ open_period (J.entries self.old)) × (period.1 ≡ period_totals (items (J.entries self.old)) (open_period (J.entries self.old)))) }
        ensures adds { Adds J.Journal self.old self.new (Closed (open_period (J.entries self.old)) ∷ []) (ending close_as result) }
        ensures answers { OnOk result (MayClose (J.has_failed self.old) (J.entries self.old)) }
        ensures refused { IfErr result (IsCloseCause (J.has_failed self.old) (J.entries self.old)) }
        ensures fetched { J.fetched self.new ≡ J.fetched self.old }
    {
        if self.failed {
            return Err(CloseFault::Failed);
        }
        let periods = self.periods_closed();
        if periods >= 250_000 {
            return Err(CloseFault::PeriodLimit);
        }
        let totals = self.running_totals();
        let p = periods + 1;
        match self.add_closed(p) {
            Ok(()) => Ok((p, totals)),
            Err(CloseFault::Memory) => Err(CloseFault::Memory),
            Err(_) => Err(CloseFault::Disk),
        }
    }
}
