ghost use Rattle.std.specs.Prelude.{◌≡◌, ◌&&◌, not, count_by};
ghost use Rattle.std.specs.List.{list_any};
ghost use Rattle.cap_base.specs.Item.{is_end, is_cancel, is_any_close, is_sale_of, totals_eq, item_eq};
ghost use Rattle.cap_base.specs.Captured.{captured};
ghost use Rattle.cap_base.specs.Fits.{is_number, fits};

use cap_base::{Item, Totals};

fn ends(item: &Item, sale: u64) -> bool
    ensures { result ≡ is_end sale item.now }
{
    match item {
        Item::Sale { n, .. } => *n == sale,
        Item::Void { n } => *n == sale,
        _ => false,
    }
}

fn cancels(item: &Item, sale: u64) -> bool
    ensures { result ≡ is_cancel sale item.now }
{
    match item {
        Item::Cancel { n, .. } => *n == sale,
        _ => false,
    }
}

fn sells(item: &Item, sale: u64, sum: u64) -> bool
    ensures { result ≡ is_sale_of sale sum item.now }
{
    match item {
        Item::Sale { n, amount, .. } => *n == sale && amount.hundredths() == sum,
        _ => false,
    }
}

fn closes(item: &Item) -> bool
    ensures { result ≡ is_any_close item.now }
{
    matches!(item, Item::Close { .. })
}

/// Whether a Sale or a Void among the items names this number.
pub fn has_end(log: &[Item], sale: u64) -> bool
    ensures { result ≡ list_any (is_end sale) log.now }
{
    log.iter().any(|item| ends(item, sale))
}

/// Whether a Cancel among the items names this number.
pub fn has_cancel(log: &[Item], sale: u64) -> bool
    ensures { result ≡ list_any (is_cancel sale) log.now }
{
    log.iter().any(|item| cancels(item, sale))
}

/// Whether a Sale of this number and amount is among the items.
pub fn has_sale(log: &[Item], sale: u64, sum: u64) -> bool
    ensures { result ≡ list_any (is_sale_of sale sum) log.now }
{
    log.iter().any(|item| sells(item, sale, sum))
}

fn is_kept(log: &[Item], sale: u64, sum: u64) -> bool
    ensures { result ≡ (list_any (is_sale_of sale sum) log.now && not (list_any (is_cancel sale) log.now)) }
{
    has_sale(log, sale, sum) && !has_cancel(log, sale)
}

// Whether a sale of this sum is captured.
pub(crate) fn is_captured(log: &[Item], sale: u64, sum: u64) -> bool
    ensures { result ≡ list_any (is_sale_of sale sum) (captured log.now) }
{
    is_kept(log, sale, sum)
}

/// How many periods the items close.
pub fn count_closes(log: &[Item]) -> usize
    ensures { result ≡ count_by is_any_close log.now }
{
    log.iter().filter(|item| closes(item)).count()
}

/// Whether a sale may have this number.
pub fn is_sale_number(n: u64) -> bool
    ensures { result ≡ is_number n }
{
    1 <= n && n <= 250_000
}

// Whether an item may stand next in the log.
pub(crate) fn may_follow(log: &[Item], item: &Item) -> bool
    ensures { result ≡ fits log.now item.now }
{
    match item {
        Item::Sale { n, .. } => is_sale_number(*n) && !has_end(log, *n),
        Item::Void { n } => is_sale_number(*n) && !has_end(log, *n),
        Item::Cancel { n, amount } => is_captured(log, *n, amount.hundredths()),
        Item::Close { p, .. } => *p == count_closes(log) as u64 + 1 && *p <= 250_000,
    }
}

/// Whether two totals are the same.
pub fn same_totals(a: Totals, b: Totals) -> bool
    ensures { result ≡ totals_eq a b }
{
    a.sales == b.sales
        && a.sales_sum == b.sales_sum
        && a.cancels == b.cancels
        && a.cancels_sum == b.cancels_sum
}

/// Whether two items are the same.
pub fn same(a: &Item, b: &Item) -> bool
    ensures { result ≡ item_eq a.now b.now }
{
    match (a, b) {
        (
            Item::Sale {
                n,
                amount,
                account,
                code,
            },
            Item::Sale {
                n: k,
                amount: sum,
                account: number,
                code: word,
            },
        ) => {
            *n == *k
                && amount.hundredths() == sum.hundredths()
                && *account == *number
                && *code == *word
        }
        (Item::Void { n }, Item::Void { n: k }) => *n == *k,
        (Item::Cancel { n, amount }, Item::Cancel { n: k, amount: sum }) => {
            *n == *k && amount.hundredths() == sum.hundredths()
        }
        (Item::Close { p, totals }, Item::Close { p: q, totals: sums }) => {
            *p == *q && same_totals(*totals, *sums)
        }
        _ => false,
    }
}
