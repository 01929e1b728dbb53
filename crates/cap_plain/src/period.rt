ghost use Rattle.std.specs.Prelude.{◌≡◌, ◌≤◌, [], true, Ok, sum_by};
ghost use Rattle.std.specs.List.{list_any};
ghost use Rattle.cap_base.specs.Item.{is_close, sale_count, cancel_count};
ghost use Rattle.cap_base.specs.Captured.{before_close, after_close, period_items, period_totals, sums_of, totals};
ghost use Rattle.cap_base.specs.Fits.{all_fit};
ghost use Rattle.cap_plain.specs.Bounded.{IsBounded, sums_with};

use cap_base::{Item, Memory, Totals};

fn closes(item: &Item, period: u64) -> bool
    ensures { result ≡ is_close period item.now }
{
    match item {
        Item::Close { p, .. } => *p == period,
        _ => false,
    }
}

fn is_closed(items: &[Item], p: u64) -> bool
    ensures { result ≡ list_any (is_close p) items.now }
{
    items.iter().any(|item| closes(item, p))
}

fn before(items: &[Item], p: u64) -> &[Item]
    ensures { result.now ≡ before_close p items.now }
{
    for (i, item) in items.iter().enumerate() {
        if closes(item, p) {
            return &items[..i];
        }
    }
    items
}

fn after(items: &[Item], p: u64) -> &[Item]
    ensures { result.now ≡ after_close p items.now }
{
    for (i, item) in items.iter().enumerate() {
        if closes(item, p) {
            return &items[i + 1..];
        }
    }
    &[]
}

fn in_period(items: &[Item], p: u64) -> &[Item]
    ensures { result.now ≡ period_items items.now p }
{
    let front = before(items, p);
    if p == 1 {
        front
    } else {
        after(front, p.saturating_sub(1))
    }
}

// The totals with one item more.
fn with_item(so_far: Totals, item: &Item) -> Totals
    requires bounded { IsBounded so_far }
    requires sales { so_far.sales ≤ 250000 }
    requires cancels { so_far.cancels ≤ 250000 }
    ensures value { result ≡ sums_with so_far item.now }
    ensures bounded { IsBounded result }
{
    match item {
        Item::Sale { amount, .. } => Totals {
            sales: so_far.sales + 1,
            sales_sum: so_far.sales_sum + amount.hundredths(),
            ..so_far
        },
        Item::Cancel { amount, .. } => Totals {
            cancels: so_far.cancels + 1,
            cancels_sum: so_far.cancels_sum + amount.hundredths(),
            ..so_far
        },
        _ => so_far,
    }
}

fn sums(items: &[Item]) -> Totals
    requires sales { sum_by sale_count items.now ≤ 250000 }
    requires cancels { sum_by cancel_count items.now ≤ 250000 }
    ensures { result ≡ sums_of items.now }
{
    let mut so_far = Totals {
        sales: 0,
        sales_sum: 0,
        cancels: 0,
        cancels_sum: 0,
    };
    for item in items {
        so_far = with_item(so_far, item);
    }
    so_far
}

// The totals of a period, also of one that is not closed yet.
pub(crate) fn totals_in(items: &[Item], p: u64) -> Totals
    requires { all_fit [] items.now ≡ true }
    ensures { result ≡ period_totals items.now p }
{
    sums(in_period(items, p))
}

/// The totals of period p, where it is closed. It takes no memory.
pub fn totals_of(items: &[Item], p: u64) -> Result<Option<Totals>, Memory>
    requires { all_fit [] items.now ≡ true }
    ensures { result ≡ Ok (totals items.now p) }
{
    if is_closed(items, p) {
        Ok(Some(totals_in(items, p)))
    } else {
        Ok(None)
    }
}
