ghost use Rattle.std.specs.Prelude.{◌≡◌, ◌≤◌, ◌+◌, ◌==◌, not, filter, slice_get, vec_len, vec_capacity};
ghost use Rattle.cap_plain.specs.Bounded.{IsBounded};

use cap_base::{Amount, Item, Memory, Totals};
use std::alloc::Global;
use std::collections::{BTreeMap, BTreeSet};

const NOTHING: Totals = Totals {
    sales: 0,
    sales_sum: 0,
    cancels: 0,
    cancels_sum: 0,
};

/// What a host keeps of one terminal's log: which entries of its journal hold the items, which numbers of sales have an end, where the captured
/// sales stand, and totals. The items themselves stand in the journal alone.
#[derive(Drop)]
pub struct LogIndex {
    alloc: Global,
    // The number of the entry that holds each item.
    places: Vec<u64>,
    // The numbers that Sales and Voids name.
    ended: BTreeSet<u64>,
    // The place in the log of each captured sale, by its number.
    captured: BTreeMap<u64, u64>,
    // These places, in the order of the log.
    kept: Vec<u64>,
    // Of the open period.
    running: Totals,
    closed: Vec<Totals>,
    ghost bounded: { IsBounded running },
}

// The number at this place of some, from 0.
fn number_at(numbers: &[u64], at: u64) -> Option<u64>
    ensures { result ≡ slice_get numbers.now at }
{
    numbers.get(at as usize).copied()
}

// Takes a place out of some.
fn drop_place(places: &mut Vec<u64>, place: u64)
    ensures items { places.new.items ≡ filter (λ q. not (q == place)) places.old.items }
    ensures len { vec_len places.new ≤ vec_len places.old }
    ensures capacity { vec_capacity places.new ≡ vec_capacity places.old }
{
    places.retain(|other| *other != place);
}

// The totals with one sale more.
fn with_sale(so_far: Totals, amount: Amount) -> Totals
    requires { IsBounded so_far }
    ensures value { so_far.sales ≤ 250000 → result ≡ record so_far { sales = so_far.sales + 1; sales_sum = so_far.sales_sum + amount } }
    ensures bounded { IsBounded result }
{
    Totals {
        sales: so_far.sales.saturating_add(1),
        sales_sum: so_far.sales_sum.saturating_add(amount.hundredths()),
        ..so_far
    }
}

// The totals with one cancellation more.
fn with_cancel(so_far: Totals, amount: Amount) -> Totals
    requires { IsBounded so_far }
    ensures value { so_far.cancels ≤ 250000 → result ≡ record so_far { cancels = so_far.cancels + 1; cancels_sum = so_far.cancels_sum + amount } }
    ensures bounded { IsBounded result }
{
    Totals {
        cancels: so_far.cancels.saturating_add(1),
        cancels_sum: so_far.cancels_sum.saturating_add(amount.hundredths()),
        ..so_far
    }
}

impl LogIndex {
    ghost use Rattle.std.specs.Prelude.{◌<◌, ◌++◌, ◌∷◌, ◌&&◌, ◌||◌, ◌^◌, [], ℕ, List, true, false, length, map, count_by, Option, Some, None, OnOk, OnErr, MatchOption, if◌then◌else◌};
    ghost use Rattle.std.specs.List.{list_any};
    ghost use Rattle.std.specs.Ordering.{nat_cmp};
    ghost use Rattle.std.specs.BTreeSet.{contains};
    ghost use Rattle.std.specs.BTreeMap.{get};
    ghost use Rattle.cap_base.specs.declared.item.Item.{Item};
    ghost use Rattle.cap_base.specs.Item.{is_end, is_cancel, is_any_close, is_sale_of};
    ghost use Rattle.cap_base.specs.Captured.{captured, period_totals, totals};
    ghost use Rattle.cap_base.specs.Fits.{all_fit};
    ghost use Rattle.cap_entries.specs.declared.host.HostEntry.{HostEntry};
    ghost use Rattle.cap_entries.specs.declared.host.HostEntry.TheVariants.{Took};
    ghost use Rattle.cap_entries.specs.Log.{log};
    ghost use Rattle.cap_host_index.specs.CapturedLaws.{is_sale};
    ghost use Rattle.cap_host_index.specs.Noted.{IsNoted, IsIndex, HasRoom, HoldsItem, HoldsSale, HoldsCaptured, running_after, closed_after, kept_after, without};

    /// The index of an empty log.
    pub fn new(alloc: Global) -> LogIndex
        ensures { (terminal : ℕ) → IsIndex [] terminal result }
    {
        LogIndex {
            alloc,
            places: Vec::new(alloc),
            ended: BTreeSet::new(alloc),
            captured: BTreeMap::new(alloc),
            kept: Vec::new(alloc),
            running: NOTHING,
            closed: Vec::new(alloc),
        }
    }

    /// How many items the log has.
    pub fn len(&self) -> u64
        ensures small { result < 2 ^ 63 }
        ensures value { (entries : List HostEntry) (terminal : ℕ) → IsIndex entries terminal self.now → result ≡ length (log entries terminal) }
    {
        self.places.len() as u64
    }

    /// The number of the entry that holds item m, where items count from 0; None exactly past the last.
    pub fn entry_of(&self, m: u64) -> Option<u64>
        ensures { (entries : List HostEntry) (terminal : ℕ) → IsIndex entries terminal self.now → MatchOption result (length (log entries terminal) ≤ m) (λ p. HoldsItem entries terminal m p) }
    {
        number_at(&self.places, m)
    }

    /// Whether a Sale or a Void of the log names this number.
    pub fn has_end(&self, n: u64) -> bool
        ensures { (entries : List HostEntry) (terminal : ℕ) → IsIndex entries terminal self.now → result ≡ list_any (is_end n) (log entries terminal) }
    {
        self.ended.contains(&n)
    }

    fn sale_place(&self, n: u64) -> Option<u64>
        ensures { result ≡ get nat_cmp self.now.captured n }
    {
        self.captured.get(&n).copied()
    }

    /// The number of the entry that holds the captured sale n; None exactly where none is captured.
    pub fn sale_entry(&self, n: u64) -> Option<u64>
        ensures { (entries : List HostEntry) (terminal : ℕ) → IsIndex entries terminal self.now → MatchOption result ((a : ℕ) → list_any (is_sale_of n a) (captured (log entries terminal)) ≡ false) (λ p. HoldsSale entries terminal n p) }
    {
        match self.sale_place(n) {
            Some(place) => self.entry_of(place),
            None => None,
        }
    }

    /// The number of the entry that holds captured sale k in the log's order, counted from 0; None exactly past the last.
    pub fn captured_entry(&self, k: u64) -> Option<u64>
        ensures { (entries : List HostEntry) (terminal : ℕ) → IsIndex entries terminal self.now → MatchOption result (length (captured (log entries terminal)) ≤ k) (λ p. HoldsCaptured entries terminal k p) }
    {
        match number_at(&self.kept, k) {
            Some(place) => self.entry_of(place),
            None => None,
        }
    }

    /// How many periods are closed.
    pub fn closes(&self) -> u64
        ensures { (entries : List HostEntry) (terminal : ℕ) → IsIndex entries terminal self.now → result ≡ count_by is_any_close (log entries terminal) }
    {
        self.closed.len() as u64
    }

    /// The totals of the period that is open.
    pub fn running(&self) -> Totals
        ensures { (entries : List HostEntry) (terminal : ℕ) → IsIndex entries terminal self.now → result ≡ period_totals (log entries terminal) (count_by is_any_close (log entries terminal) + 1) }
    {
        self.running
    }

    /// The totals of period p; None exactly where it is not closed.
    pub fn totals(&self, p: u64) -> Option<Totals>
        ensures { (entries : List HostEntry) (terminal : ℕ) → IsIndex entries terminal self.now → result ≡ totals (log entries terminal) p }
    {
        let at = p.checked_sub(1)?;
        self.closed.get(at as usize).copied()
    }

    // Makes room for so many more items.
    fn make_room(&mut self, count: usize) -> Result<(), Memory>
        ensures room { OnOk result (HasRoom count self.new) }
        ensures places { self.new.places.items ≡ self.old.places.items }
        ensures kept { self.new.kept.items ≡ self.old.kept.items }
        ensures closed { self.new.closed.items ≡ self.old.closed.items }
        ensures running { self.new.running ≡ self.old.running }
        ensures ended { self.new.ended ≡ self.old.ended }
        ensures captured { self.new.captured ≡ self.old.captured }
    {
        self.places.reserve(count)?;
        self.kept.reserve(count)?;
        self.closed.reserve(count)?;
        Ok(())
    }

    // Notes the numbers of an item that is to stand at this place.
    fn note_item(&mut self, place: u64, item: &Item) -> Result<(), Memory>
        ensures ended { OnOk result ((n : ℕ) → contains nat_cmp self.new.ended n ≡ (contains nat_cmp self.old.ended n || is_end n item.now)) }
        ensures captured { OnOk result ((n : ℕ) → get nat_cmp self.new.captured n ≡ (if is_sale n item.now then Some place else get nat_cmp self.old.captured n)) }
        ensures other_ends { (n : ℕ) → is_end n item.now ≡ false → contains nat_cmp self.new.ended n ≡ contains nat_cmp self.old.ended n }
        ensures other_places { (n : ℕ) → is_end n item.now ≡ false → get nat_cmp self.new.captured n ≡ get nat_cmp self.old.captured n }
        ensures places { self.new.places ≡ self.old.places }
        ensures kept { self.new.kept ≡ self.old.kept }
        ensures closed { self.new.closed ≡ self.old.closed }
        ensures running { self.new.running ≡ self.old.running }
    {
        match item {
            Item::Sale { n, .. } => {
                self.ended.insert(*n)?;
                self.captured.insert(*n, place)?;
            }
            Item::Void { n } => {
                self.ended.insert(*n)?;
            }
            _ => {}
        }
        Ok(())
    }

    // Notes the numbers of items that are to follow the log, in order.
    fn note_all(&mut self, items: &[Item]) -> Result<(), Memory>
        ensures noted { (entries : List HostEntry) (terminal : ℕ) → IsIndex entries terminal self.old → all_fit (log entries terminal) items.now ≡ true → OnOk result (IsNoted entries terminal items.now self.new) }
        ensures other_ends { (n : ℕ) → list_any (is_end n) items.now ≡ false → contains nat_cmp self.new.ended n ≡ contains nat_cmp self.old.ended n }
        ensures other_places { (n : ℕ) → list_any (is_end n) items.now ≡ false → get nat_cmp self.new.captured n ≡ get nat_cmp self.old.captured n }
        ensures places { self.new.places ≡ self.old.places }
        ensures kept { self.new.kept ≡ self.old.kept }
        ensures closed { self.new.closed ≡ self.old.closed }
        ensures running { self.new.running ≡ self.old.running }
    {
        let first = self.places.len() as u64;
        for (i, item) in items.iter().enumerate() {
            self.note_item(first + i as u64, item)?;
        }
        Ok(())
    }

    fn forget_item(&mut self, item: &Item)
        ensures ended { (n : ℕ) → contains nat_cmp self.new.ended n ≡ (contains nat_cmp self.old.ended n && not (is_end n item.now)) }
        ensures captured { (n : ℕ) → get nat_cmp self.new.captured n ≡ (if is_end n item.now then None else get nat_cmp self.old.captured n) }
        ensures places { self.new.places ≡ self.old.places }
        ensures kept { self.new.kept ≡ self.old.kept }
        ensures closed { self.new.closed ≡ self.old.closed }
        ensures running { self.new.running ≡ self.old.running }
    {
        if let Item::Sale { n, .. } | Item::Void { n } = item {
            let _ = self.ended.remove(n);
            let _ = self.captured.remove(n);
        }
    }

    fn forget_all(&mut self, items: &[Item])
        ensures ended { (n : ℕ) → contains nat_cmp self.new.ended n ≡ (contains nat_cmp self.old.ended n && not (list_any (is_end n) items.now)) }
        ensures captured { (n : ℕ) → get nat_cmp self.new.captured n ≡ (if list_any (is_end n) items.now then None else get nat_cmp self.old.captured n) }
        ensures places { self.new.places ≡ self.old.places }
        ensures kept { self.new.kept ≡ self.old.kept }
        ensures closed { self.new.closed ≡ self.old.closed }
        ensures running { self.new.running ≡ self.old.running }
    {
        for item in items {
            self.forget_item(item);
        }
    }

    /// Notes the numbers of items that fit behind the log and are to be added to it, and makes room for them: adding them takes no memory then.
    /// Want of memory leaves the index of the log.
    pub fn note(&mut self, items: &[Item]) -> Result<(), Memory>
        ensures noted { (entries : List HostEntry) (terminal : ℕ) → IsIndex entries terminal self.old → all_fit (log entries terminal) items.now ≡ true → OnOk result (IsNoted entries terminal items.now self.new) }
        ensures room { OnOk result (HasRoom (length items.now) self.new) }
        ensures unnoted { (entries : List HostEntry) (terminal : ℕ) → IsIndex entries terminal self.old → all_fit (log entries terminal) items.now ≡ true → OnErr result (IsIndex entries terminal self.new) }
    {
        self.make_room(items.len())?;
        match self.note_all(items) {
            Ok(()) => Ok(()),
            Err(memory) => {
                self.forget_all(items);
                Err(memory)
            }
        }
    }

    /// Forgets the numbers of items that were noted and are not added.
    pub fn forget(&mut self, items: &[Item])
        ensures { (entries : List HostEntry) (terminal : ℕ) → IsNoted entries terminal items.now self.old → IsIndex entries terminal self.new }
    {
        self.forget_all(items);
    }

    // Counts an item into the open period, or closes it. The sums fit their type: a log has at most 250,000 sales and as many cancellations.
    fn count_item(&mut self, item: &Item)
        requires { vec_len self.old.closed < vec_capacity self.old.closed }
        ensures running { self.old.running.sales ≤ 250000 → self.old.running.cancels ≤ 250000 → self.new.running ≡ running_after self.old.running item.now }
        ensures closed { self.new.closed.items ≡ closed_after self.old.closed.items self.old.running item.now }
        ensures len { vec_len self.new.closed ≤ vec_len self.old.closed + 1 }
        ensures capacity { vec_capacity self.new.closed ≡ vec_capacity self.old.closed }
        ensures places { self.new.places ≡ self.old.places }
        ensures kept { self.new.kept ≡ self.old.kept }
        ensures ended { self.new.ended ≡ self.old.ended }
        ensures captured { self.new.captured ≡ self.old.captured }
    {
        match item {
            Item::Sale { amount, .. } => self.running = with_sale(self.running, *amount),
            Item::Cancel { amount, .. } => self.running = with_cancel(self.running, *amount),
            Item::Close { .. } => {
                self.closed.push_reserved(self.running);
                self.running = NOTHING;
            }
            Item::Void { .. } => {}
        }
    }

    // Takes out the place of a captured sale that is cancelled.
    fn uncapture(&mut self, n: u64)
        ensures captured { (k : ℕ) → get nat_cmp self.new.captured k ≡ (if n == k then None else get nat_cmp self.old.captured k) }
        ensures kept { self.new.kept.items ≡ without (get nat_cmp self.old.captured n) self.old.kept.items }
        ensures len { vec_len self.new.kept ≤ vec_len self.old.kept }
        ensures capacity { vec_capacity self.new.kept ≡ vec_capacity self.old.kept }
        ensures places { self.new.places ≡ self.old.places }
        ensures ended { self.new.ended ≡ self.old.ended }
        ensures running { self.new.running ≡ self.old.running }
        ensures closed { self.new.closed ≡ self.old.closed }
    {
        if let Some(place) = self.captured.remove(&n) {
            drop_place(&mut self.kept, place);
        }
    }

    // Keeps the place of an item that is a sale; one that is cancelled loses its own.
    fn place_item(&mut self, item: &Item)
        requires { vec_len self.old.kept < vec_capacity self.old.kept }
        ensures captured { (n : ℕ) → get nat_cmp self.new.captured n ≡ (if is_cancel n item.now then None else get nat_cmp self.old.captured n) }
        ensures kept { self.new.kept.items ≡ kept_after (length self.old.places.items) (λ n. get nat_cmp self.old.captured n) self.old.kept.items item.now }
        ensures len { vec_len self.new.kept ≤ vec_len self.old.kept + 1 }
        ensures capacity { vec_capacity self.new.kept ≡ vec_capacity self.old.kept }
        ensures places { self.new.places ≡ self.old.places }
        ensures ended { self.new.ended ≡ self.old.ended }
        ensures running { self.new.running ≡ self.old.running }
        ensures closed { self.new.closed ≡ self.old.closed }
    {
        match item {
            Item::Sale { .. } => self.kept.push_reserved(self.places.len() as u64),
            Item::Cancel { n, .. } => self.uncapture(*n),
            _ => {}
        }
    }

    /// Takes an item that was noted, and stands in the entry with this number now.
    pub fn take(&mut self, number: u64, item: &Item)
        requires { HasRoom 1 self.old }
        ensures taken { (entries : List HostEntry) (terminal : ℕ) (rest : List Item) → number ≡ length entries → IsNoted entries terminal (item.now ∷ rest) self.old → IsNoted (entries ++ Took terminal item.now ∷ []) terminal rest self.new }
        ensures room { (n : ℕ) → HasRoom (n + 1) self.old → HasRoom n self.new }
    {
        self.place_item(item);
        self.count_item(item);
        self.places.push_reserved(number);
    }

    /// Takes items that were noted, and stand in the entries from this number on now.
    pub fn take_all(&mut self, first: u64, items: &[Item])
        requires room { HasRoom (length items.now) self.old }
        requires numbers { first + length items.now < 2 ^ 64 }
        ensures { (entries : List HostEntry) (terminal : ℕ) → first ≡ length entries → IsNoted entries terminal items.now self.old → IsIndex (entries ++ map (Took terminal) items.now) terminal self.new }
    {
        for (i, item) in items.iter().enumerate() {
            self.take(first + i as u64, item);
        }
    }
}
