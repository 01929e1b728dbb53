ghost use Rattle.std.specs.Prelude.{◌≡◌, ◌≤◌, ◌<◌, ◌+◌, ◌↔◌, ◌∷◌, [], ℕ, true, Some, None, IsOk, IfOk, IfErr, IsSome, IfSome, MatchOption, length, take, drop, slice_get};
ghost use Rattle.cap_base.specs.declared.codes.Response.TheVariants.{Appr};
ghost use Rattle.cap_base.specs.Captured.{totals};
ghost use Rattle.cap_entries.specs.Entry.{is_pending, amount_of, account_of};
ghost use Rattle.cap_entries.specs.Items.{items};
ghost use Rattle.cap_entries.specs.Acked.{acked};
ghost use Rattle.cap_entries.specs.InForce.{version_in_force};
ghost use Rattle.cap_entries.specs.Floor.{floor};
ghost use Rattle.cap_sale.specs.Tokens.{offline_code, approved_with};
ghost use Rattle.cap_sale.specs.Refusals.{IsAuthRefusal};
ghost use Rattle.cap_terminal_answers.specs.Counts.{counts_of};
ghost use Rattle.cap_terminal.specs.Live.{IsLive, PendsNoneFrom, IsLeastPending};
ghost use Rattle.cap_terminal_answers.specs.Takes.{queue_head};

use crate::sale_row::Stage;
use crate::terminal::Terminal;
use cap_base::{Item, Totals};
use cap_entries::TermEntry;
use cap_journal::Journal;
use cap_sale::{AboveFloor, Approved, AuthRefused, AuthResponse, Begun};
use cap_terminal_answers::Counts;

// What the terminal answers of its entries, all from memory.
impl<J: Journal<TermEntry>> Terminal<J> {
    /// Whether sale n was begun and has no end yet.
    pub fn is_pending(&self, n: u64) -> bool
        ensures { result ≡ is_pending (J.entries self.now) n }
    {
        match self.sale(n) {
            Some(row) => match row.stage {
                Stage::Pending => true,
                Stage::Declined | Stage::Completed | Stage::Voided | Stage::Cancelled => false,
            },
            None => false,
        }
    }

    /// A token of sale n: exactly where it was begun and has no end yet.
    pub fn take_pending(&self, n: u64) -> Option<Begun>
        ensures exact { IsSome result ↔ (is_pending (J.entries self.now) n ≡ true) }
        ensures token { IfSome result (λ begun. begun ≡ record { n = n; amount = amount_of (J.entries self.now) n; account = account_of (J.entries self.now) n }) }
        ensures live { IfSome result (λ begun. IsLive (J.entries self.now) begun.n begun.amount begun.account) }
    {
        match self.sale(n) {
            Some(row) => match row.stage {
                Stage::Pending => Some(Begun::issue(n, row.amount, row.account)),
                Stage::Declined | Stage::Completed | Stage::Voided | Stage::Cancelled => None,
            },
            None => None,
        }
    }

    /// The least pending sale not below n; None exactly where no sale from n on is pending.
    pub fn pending_from(&self, n: u64) -> Option<u64>
        ensures { MatchOption result (PendsNoneFrom (J.entries self.now) n) (λ k. IsLeastPending (J.entries self.now) n k) }
    {
        self.index.pending_from(n)
    }

    /// The number of the last item that was acknowledged; 0 where none was.
    pub fn acked(&self) -> u64
        ensures { result ≡ acked (J.entries self.now) }
    {
        self.index.acked
    }

    /// How many items the sales and closings have made.
    pub fn items_len(&self) -> u64
        ensures { result ≡ length (items (J.entries self.now)) }
    {
        self.index.items.len() as u64
    }

    // The oldest item that is not acknowledged.
    pub(crate) fn head_item(&self) -> Option<Item>
        ensures { result ≡ queue_head (J.entries self.now) }
    {
        self.index.head()
    }

    /// The number of the oldest item that is not acknowledged. None exactly where all are.
    pub fn head_no(&self) -> Option<u64>
        ensures none { IsSome result ↔ (acked (J.entries self.now) < length (items (J.entries self.now))) }
        ensures number { IfSome result (λ m. m ≡ acked (J.entries self.now) + 1) }
    {
        let acked = self.acked();
        if acked < self.items_len() {
            Some(acked + 1)
        } else {
            None
        }
    }

    /// The version of the parameter set in force; 0 where there is none.
    pub fn in_force(&self) -> u64
        ensures { result ≡ version_in_force (J.entries self.now) }
    {
        self.index.sets.in_force
    }

    /// Up to which sum in hundredths the terminal completes a sale by itself: that of the set in force, else that of the set-up.
    pub fn floor(&self) -> u64
        ensures { result ≡ floor (J.entries self.now) }
    {
        self.index.sets.floor_or(self.setup.floor())
    }

    /// The totals of period p. None exactly where it is not closed.
    pub fn totals(&self, p: u64) -> Option<Totals>
        ensures { result ≡ totals (items (J.entries self.now)) p }
    {
        self.index.closed_totals(p)
    }

    /// How many sales of each sort there are, and how many closed periods.
    pub fn counts(&self) -> Counts
        ensures { result ≡ counts_of (J.entries self.now) }
    {
        Counts {
            sales: self.index.sales.len() as u64,
            completed: self.index.completed,
            cancelled: self.index.cancelled,
            voided: self.index.voided,
            periods: self.index.closed.len() as u64,
        }
    }

    /// Approves a sale without the host, with the code `OFFLIN`: exactly where its amount is at most the floor.
    pub fn offline(&self, begun: Begun) -> Result<Approved, AboveFloor>
        ensures exact { IsOk result ↔ (begun.amount ≤ floor (J.entries self.now)) }
        ensures approved { IfOk result (λ approved. approved ≡ approved_with begun offline_code) }
        ensures above { IfErr result (λ above. above ≡ record { begun = begun; floor = floor (J.entries self.now) }) }
    {
        begun.offline(self.floor())
    }

    /// Approves a sale with the code of the host's answer: exactly where that answer names this sale and approves it. `NotTheAnswer` comes
    /// exactly where it names another sale, `Declined` exactly where it names this one and is no approval.
    pub fn authorise(&self, begun: Begun, answer: &AuthResponse) -> Result<Approved, AuthRefused>
        ensures exact { IsOk result ↔ ((answer.now.n ≡ begun.n) × (answer.now.response ≡ Appr)) }
        ensures approved { IfOk result (λ approved. approved ≡ approved_with begun answer.now.code) }
        ensures refused { IfErr result (IsAuthRefusal begun answer.now) }
    {
        begun.authorise(answer)
    }
}
