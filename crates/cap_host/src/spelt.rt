// Which items and sets fit their records. Beside the types of the fields this asks only that a number has at most ten digits.
ghost use Rattle.std.specs.Prelude.{◌≡◌};
ghost use Rattle.std.specs.List.{list_all};
ghost use Rattle.cap_entries.specs.RecordField.{is_row};
ghost use Rattle.cap_entries.specs.RecordParts.{is_number};
ghost use Rattle.cap_entries.specs.HostRecord.{is_totals, item_fits, are_set_rows};

use cap_base::{Item, Row, Totals};
use cap_entries::RowSet;

const MOST: u64 = 9_999_999_999;

fn number_is_spelt(number: u64) -> bool
    ensures { result ≡ is_number number }
{
    number <= u64::MAX
}

fn totals_are_spelt(totals: Totals) -> bool
    ensures { result ≡ is_totals totals }
{
    number_is_spelt(totals.sales)
        && (number_is_spelt(totals.sales_sum)
            && (number_is_spelt(totals.cancels) && number_is_spelt(totals.cancels_sum)))
}

fn is_spelt(item: &Item) -> bool
    ensures { result ≡ item_fits item.now }
{
    match item {
        Item::Sale {
            n,
            amount,
            account,
            code,
        } => {
            let _ = amount.hundredths();
            let _ = account.as_bytes();
            let _ = code.as_bytes();
            *n <= MOST
        }
        Item::Void { n } => *n <= MOST,
        Item::Cancel { n, amount } => {
            let _ = amount.hundredths();
            *n <= MOST
        }
        Item::Close { p, totals } => *p <= MOST && totals_are_spelt(*totals),
    }
}

// Whether all of these items fit.
pub(crate) fn are_spelt(items: &[Item]) -> bool
    ensures { result ≡ list_all item_fits items.now }
{
    items.iter().all(|item| is_spelt(item))
}

fn row_is_spelt(row: &Row) -> bool
    ensures { result ≡ is_row row.now }
{
    let _ = row.key.as_bytes();
    let _ = row.value.as_bytes();
    true
}

fn rows_are_spelt(rows: &[Row]) -> bool
    ensures { result ≡ list_all is_row rows.now }
{
    rows.iter().all(|row| row_is_spelt(row))
}

// Whether a set fits.
pub(crate) fn set_is_spelt(set: &RowSet) -> bool
    ensures { result ≡ are_set_rows set.now }
{
    rows_are_spelt(set.as_slice())
}
