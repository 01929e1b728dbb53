ghost use Rattle.std.specs.Prelude.{◌≡◌, ◌≤◌, ◌<◌, ◌+◌, ◌-◌, ◌*◌, ◌++◌, ◌∷◌, [], ℕ, length, vec_len, vec_capacity, OnOk, OnErr, IfOk, MatchOption, Some, None, true, take, drop, slice_get, sum_by};
ghost use Rattle.cap_base.specs.declared.item.Item.TheVariants.{Sale, Void, Cancel, Close};
ghost use Rattle.cap_terminal.specs.Index.{is_ended, row_need, done_count, back_count, given_up_count, row_of, staged, need_of, done_of, back_of, given_up_of};
ghost use Rattle.cap_terminal.specs.Pending.{Notes, notes_prop, notes, WaitsNoneFrom, IsLeastWaiting};
ghost use Rattle.cap_terminal.specs.Says.{sale_at};
ghost use Rattle.cap_terminal.specs.Running.{counted, nothing, closed_at};
ghost use Rattle.cap_terminal.specs.declared.sale_row.Stage.TheVariants.{Pending, Declined, Completed, Voided, Cancelled};

use crate::pending::Pending as PendingNumbers;
use crate::sale_row::{SaleRow, Stage};
use crate::sets::Sets;
use cap_base::{Account, Amount, Code6, Item, Memory, Totals};
use cap_terminal_answers::PartNumbers;
use std::alloc::Global;

/// What a terminal keeps of its entries in memory, so that no call reads its journal again.
#[derive(Drop)]
pub(crate) struct Index {
    /// The sales, by number from 1.
    pub sales: Vec<SaleRow>,
    /// The numbers of the pending sales.
    pub pending: PendingNumbers,
    pub items: Vec<Item>,
    /// How many items the host has acknowledged.
    pub acked: u64,
    /// The totals of the period that is open, and of the closed ones.
    pub running: Totals,
    pub closed: Vec<Totals>,
    /// How many sales were completed, cancelled and voided.
    pub completed: u64,
    pub cancelled: u64,
    pub voided: u64,
    pub sets: Sets,
    /// How many items the sales may still make.
    pub owed: u64,
    pub ghost owed_is: { owed ≡ sum_by row_need sales.items },
    pub ghost pending_are: { Notes pending sales.items } by { notes_prop _ _ },
    pub ghost room: { vec_len items + owed ≤ vec_capacity items },
    pub ghost few: { vec_len sales ≤ 250000 },
    pub ghost few_completed: { completed ≤ sum_by done_count sales.items },
    pub ghost few_cancelled: { cancelled ≤ sum_by back_count sales.items },
    pub ghost few_voided: { voided ≤ sum_by given_up_count sales.items },
    pub ghost some_sales: { running.sales ≤ sum_by done_count sales.items },
    pub ghost small_sales: { running.sales_sum ≤ 999999999999 * running.sales },
    pub ghost some_cancels: { running.cancels ≤ sum_by back_count sales.items },
    pub ghost small_cancels: { running.cancels_sum ≤ 999999999999 * running.cancels },
}

fn no_totals() -> Totals
    ensures { result ≡ nothing }
{
    Totals {
        sales: 0,
        sales_sum: 0,
        cancels: 0,
        cancels_sum: 0,
    }
}

// How many items a sale may still make.
fn need(stage: Stage) -> u64
    ensures { result ≡ need_of stage }
{
    match stage {
        Stage::Pending => 2,
        Stage::Completed => 1,
        Stage::Declined | Stage::Voided | Stage::Cancelled => 0,
    }
}

// A sale comes to its end, or is cancelled.
fn move_on(sales: &mut Vec<SaleRow>, pending: &mut PendingNumbers, n: u64, stage: Stage)
    requires notes { Notes pending.old sales.old.items }
    requires low { 1 ≤ n }
    requires high { n ≤ length sales.old.items }
    requires ends { is_ended stage ≡ true }
    ensures sales { sales.new.items ≡ staged sales.old.items n stage }
    ensures notes { Notes pending.new sales.new.items }
{
    let place = (n - 1) as usize;
    let row = sales[place];
    sales[place] = SaleRow {
        amount: row.amount,
        account: row.account,
        stage,
    };
    pending.forget(n);
}

impl Index {
    ghost use Rattle.cap_terminal.specs.View.{index_view};
    ghost use Rattle.cap_terminal.specs.Index.{no_index, changed};
    ghost use Rattle.cap_terminal.specs.declared.change.Change.TheVariants as change;

    /// The index of no entries.
    #[tactic(auto, using(crate::proofs::Waiting::notes_none))]
    pub fn new(alloc: Global) -> Self
        ensures { index_view result ≡ no_index }
    {
        Index {
            sales: Vec::new(alloc),
            pending: PendingNumbers::new(alloc),
            items: Vec::new(alloc),
            acked: 0,
            running: no_totals(),
            closed: Vec::new(alloc),
            completed: 0,
            cancelled: 0,
            voided: 0,
            sets: Sets::NONE,
            owed: 0,
        }
    }

    /// The sale with this number, if there is one.
    pub fn sale(&self, n: u64) -> Option<SaleRow>
        ensures { result ≡ sale_at self.now.sales.items n }
    {
        if 1 <= n && n <= self.sales.len() as u64 {
            Some(self.sales[(n - 1) as usize])
        } else {
            None
        }
    }

    /// The oldest item that is not acknowledged.
    pub fn head(&self) -> Option<Item>
        ensures { result ≡ slice_get self.now.items.items self.now.acked }
    {
        self.items.get(self.acked as usize).copied()
    }

    /// The totals of period p, where it is closed.
    pub fn closed_totals(&self, p: u64) -> Option<Totals>
        ensures { result ≡ closed_at self.now.closed.items p }
    {
        if 1 <= p && p <= self.closed.len() as u64 {
            Some(self.closed[(p - 1) as usize])
        } else {
            None
        }
    }

    /// The number of the least pending sale not below n; None exactly where there is none.
    #[tactic(auto, using(crate::proofs::Waiting::waiting_found, crate::proofs::Waiting::waiting_past, crate::proofs::Waiting::waiting_none))]
    pub fn pending_from(&self, n: u64) -> Option<u64>
        ensures { MatchOption result (WaitsNoneFrom self.now.sales.items n) (λ k. IsLeastWaiting self.now.sales.items n k) }
    {
        match self.pending.first_from(n) {
            Some(k) => {
                if k <= self.sales.len() as u64 {
                    Some(k)
                } else {
                    None
                }
            }
            None => None,
        }
    }

    /// The first items that are not acknowledged, at most as many as the limit.
    pub fn queue_front(&self, alloc: Global, limit: usize) -> Result<Vec<Item>, Memory>
        ensures { IfOk result (λ front. front.items ≡ take limit (drop self.now.acked self.now.items.items)) }
    {
        let mut front = Vec::new(alloc);
        if let Some(queue) = self.items.get(self.acked as usize..) {
            let count = limit.min(queue.len());
            front.extend_from_slice(&queue[..count])?;
        }
        Ok(front)
    }

    /// Makes room for a further sale and its two items.
    pub fn make_sale_room(&mut self) -> Result<(), Memory>
        ensures view { index_view self.new ≡ index_view self.old }
        ensures owed { self.new.owed ≡ self.old.owed }
        ensures room { OnOk result (vec_len self.new.items + self.new.owed + 2 ≤ vec_capacity self.new.items) }
        ensures sale_room { OnOk result (vec_len self.new.sales < vec_capacity self.new.sales) }
        ensures noted { OnOk result (notes self.new.pending (length self.new.sales.items + 1) ≡ true) }
    {
        self.items.reserve((self.owed + 2) as usize)?;
        self.sales.reserve(1)?;
        self.note_next()
    }

    // Notes the number of the sale that begins next.
    #[tactic(auto, using(crate::proofs::Waiting::noted_next))]
    fn note_next(&mut self) -> Result<(), Memory>
        ensures view { index_view self.new ≡ index_view self.old }
        ensures owed { self.new.owed ≡ self.old.owed }
        ensures items { vec_capacity self.new.items ≡ vec_capacity self.old.items }
        ensures sales { vec_capacity self.new.sales ≡ vec_capacity self.old.sales }
        ensures noted { OnOk result (notes self.new.pending (length self.new.sales.items + 1) ≡ true) }
    {
        let next = self.sales.len() as u64 + 1;
        self.pending.note(next)
    }

    /// Makes room for the item and the totals of a period.
    pub fn make_period_room(&mut self) -> Result<(), Memory>
        ensures view { index_view self.new ≡ index_view self.old }
        ensures owed { self.new.owed ≡ self.old.owed }
        ensures room { OnOk result (vec_len self.new.items + self.new.owed + 1 ≤ vec_capacity self.new.items) }
        ensures period_room { OnOk result (vec_len self.new.closed < vec_capacity self.new.closed) }
    {
        self.items.reserve((self.owed + 1) as usize)?;
        self.closed.reserve(1)?;
        Ok(())
    }

    /// A further sale.
    #[tactic(auto, using(crate::proofs::Waiting::begun))]
    pub fn begin(&mut self, amount: Amount, account: Account)
        requires few { vec_len self.old.sales < 250000 }
        requires room { vec_len self.old.items + self.old.owed + 2 ≤ vec_capacity self.old.items }
        requires sale_room { vec_len self.old.sales < vec_capacity self.old.sales }
        requires noted { notes self.old.pending (length self.old.sales.items + 1) ≡ true }
        ensures view { index_view self.new ≡ changed (index_view self.old) (change.Begin amount account) }
        ensures owed { self.new.owed ≡ self.old.owed + 2 }
    {
        self.sales.push_reserved(SaleRow {
            amount,
            account,
            stage: Stage::Pending,
        });
        self.owed += 2;
    }

    // The sale comes to a further stage.
    fn set_stage(&mut self, n: u64, stage: Stage)
        requires low { 1 ≤ n }
        requires high { n ≤ length self.old.sales.items }
        requires ends { is_ended stage ≡ true }
        requires need { need_of stage ≤ need_of (row_of self.old.sales.items n).stage }
        requires done { done_of (row_of self.old.sales.items n).stage ≤ done_of stage }
        requires back { back_of (row_of self.old.sales.items n).stage ≤ back_of stage }
        requires given_up { given_up_of (row_of self.old.sales.items n).stage ≤ given_up_of stage }
        ensures sales { self.new.sales.items ≡ staged self.old.sales.items n stage }
        ensures items { self.new.items.items ≡ self.old.items.items }
        ensures acked { self.new.acked ≡ self.old.acked }
        ensures running { self.new.running ≡ self.old.running }
        ensures closed { self.new.closed.items ≡ self.old.closed.items }
        ensures completed { self.new.completed ≡ self.old.completed }
        ensures cancelled { self.new.cancelled ≡ self.old.cancelled }
        ensures voided { self.new.voided ≡ self.old.voided }
        ensures sets { self.new.sets ≡ self.old.sets }
        ensures owed { self.new.owed + need_of (row_of self.old.sales.items n).stage ≡ self.old.owed + need_of stage }
        ensures capacity { vec_capacity self.new.items ≡ vec_capacity self.old.items }
        ensures done_sum { sum_by done_count self.new.sales.items + done_of (row_of self.old.sales.items n).stage ≡ sum_by done_count self.old.sales.items + done_of stage }
        ensures back_sum { sum_by back_count self.new.sales.items + back_of (row_of self.old.sales.items n).stage ≡ sum_by back_count self.old.sales.items + back_of stage }
        ensures given_up_sum { sum_by given_up_count self.new.sales.items + given_up_of (row_of self.old.sales.items n).stage ≡ sum_by given_up_count self.old.sales.items + given_up_of stage }
    {
        let row = self.sales[(n - 1) as usize];
        self.owed = self.owed - need(row.stage) + need(stage);
        move_on(&mut self.sales, &mut self.pending, n, stage);
    }

    /// A pending sale is declined.
    pub fn decline(&mut self, n: u64)
        requires low { 1 ≤ n }
        requires high { n ≤ length self.old.sales.items }
        requires pending { (row_of self.old.sales.items n).stage ≡ Pending }
        ensures view { index_view self.new ≡ changed (index_view self.old) (change.Decline n) }
        ensures owed { self.new.owed + 2 ≡ self.old.owed }
    {
        self.set_stage(n, Stage::Declined);
    }

    /// A pending sale is completed.
    #[tactic(auto, using(crate::specs::Sums::done_within))]
    pub fn complete(&mut self, n: u64, code: Code6)
        requires low { 1 ≤ n }
        requires high { n ≤ length self.old.sales.items }
        requires pending { (row_of self.old.sales.items n).stage ≡ Pending }
        ensures view { index_view self.new ≡ changed (index_view self.old) (change.Complete n code) }
        ensures owed { self.new.owed + 1 ≡ self.old.owed }
    {
        let row = self.sales[(n - 1) as usize];
        self.set_stage(n, Stage::Completed);
        self.completed += 1;
        self.running.sales += 1;
        self.running.sales_sum += row.amount.hundredths();
        self.items.push_reserved(Item::Sale {
            n,
            amount: row.amount,
            account: row.account,
            code,
        });
    }

    /// A pending sale is given up.
    #[tactic(auto, using(crate::specs::Sums::given_up_within))]
    pub fn give_up(&mut self, n: u64)
        requires low { 1 ≤ n }
        requires high { n ≤ length self.old.sales.items }
        requires pending { (row_of self.old.sales.items n).stage ≡ Pending }
        ensures view { index_view self.new ≡ changed (index_view self.old) (change.GiveUp n) }
        ensures owed { self.new.owed + 2 ≡ self.old.owed }
    {
        self.set_stage(n, Stage::Voided);
        self.voided += 1;
        self.items.push_reserved(Item::Void { n });
    }

    /// A completed sale is cancelled.
    #[tactic(auto, using(crate::specs::Sums::back_within))]
    pub fn cancel(&mut self, n: u64)
        requires low { 1 ≤ n }
        requires high { n ≤ length self.old.sales.items }
        requires completed { (row_of self.old.sales.items n).stage ≡ Completed }
        ensures view { index_view self.new ≡ changed (index_view self.old) (change.TakeBack n) }
        ensures owed { self.new.owed + 1 ≡ self.old.owed }
    {
        let row = self.sales[(n - 1) as usize];
        self.set_stage(n, Stage::Cancelled);
        self.cancelled += 1;
        self.running.cancels += 1;
        self.running.cancels_sum += row.amount.hundredths();
        self.items.push_reserved(Item::Cancel {
            n,
            amount: row.amount,
        });
    }

    /// The period is closed.
    pub fn close(&mut self, p: u64)
        requires room { vec_len self.old.items + self.old.owed + 1 ≤ vec_capacity self.old.items }
        requires period_room { vec_len self.old.closed < vec_capacity self.old.closed }
        ensures view { index_view self.new ≡ changed (index_view self.old) (change.Close p) }
        ensures owed { self.new.owed ≡ self.old.owed }
    {
        let totals = self.running;
        self.items.push_reserved(Item::Close { p, totals });
        self.closed.push_reserved(totals);
        self.running = no_totals();
    }

    /// A part of a set with these numbers, whose rows give this floor, is there.
    pub fn stage(&mut self, numbers: PartNumbers, floor: Option<Option<u64>>)
        ensures view { index_view self.new ≡ changed (index_view self.old) (change.Stage numbers floor) }
        ensures owed { self.new.owed ≡ self.old.owed }
    {
        self.sets = self.sets.with_part(numbers, floor);
    }
}
