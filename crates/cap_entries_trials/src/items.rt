// What the plain calls make of a terminal's entries.
ghost use Rattle.std.specs.Prelude.{◌≡◌, [], true};
ghost use Rattle.cap_base.specs.Fits.{all_fit};
ghost use Rattle.cap_entries.specs.Allowed.{all_allowed};

use crate::entries::entries;
use crate::words::{shown, text};
use cap_base::{Item, Memory, Money, Totals};
use cap_entries::{TermEntry, first_not_allowed};
use cap_plain::{capture_of, items_of, totals_of};
use std::alloc::{AllocError, Global};
use std::fmt::Write;

fn money(hundredths: u64) -> Money {
    Money { hundredths }
}

fn add_totals(out: &mut String, totals: Totals) -> Result<(), AllocError> {
    let sales = money(totals.sales_sum);
    let cancels = money(totals.cancels_sum);
    write!(
        out,
        " {} of {sales} less {} of {cancels}",
        totals.sales, totals.cancels
    )
}

fn add_close(out: &mut String, p: u64, totals: Totals) -> Result<(), AllocError> {
    write!(out, " close {p}:")?;
    add_totals(out, totals)?;
    out.push(';')
}

fn add_item(out: &mut String, item: &Item) -> Result<(), AllocError> {
    match item {
        Item::Sale {
            n,
            amount,
            account,
            code,
        } => {
            let amount = money(amount.hundredths());
            let account = shown(account.as_bytes());
            write!(
                out,
                " sale {n} {amount} {account} {};",
                shown(code.as_bytes())
            )
        }
        Item::Void { n } => write!(out, " void {n};"),
        Item::Cancel { n, amount } => write!(out, " cancel {n} {};", money(amount.hundredths())),
        Item::Close { p, totals } => add_close(out, *p, *totals),
    }
}

fn listed(alloc: Global, items: &[Item]) -> Result<String, AllocError> {
    let mut out = String::new(alloc);
    for item in items {
        add_item(&mut out, item)?;
    }
    Ok(out)
}

fn add_period(out: &mut String, totals: Option<Totals>) -> Result<(), AllocError> {
    match totals {
        Some(totals) => add_totals(out, totals),
        None => write!(out, " none"),
    }
}

// The totals of the first three periods.
fn periods(alloc: Global, items: &[Item]) -> Result<String, Memory>
    requires { all_fit [] items.now ≡ true }
{
    let mut out = String::new(alloc);
    for p in 1..4 {
        add_period(&mut out, totals_of(items, p)?)?;
        out.push(';')?;
    }
    Ok(out)
}

fn told(alloc: Global, items: &[Item]) -> Result<String, Memory>
    requires { all_fit [] items.now ≡ true }
{
    let captured = capture_of(alloc, items)?;
    let captured = listed(alloc, &captured)?;
    let periods = periods(alloc, items)?;
    with_items(alloc, items, captured.as_str(), periods.as_str())
}

fn with_items(
    alloc: Global,
    items: &[Item],
    captured: &str,
    periods: &str,
) -> Result<String, Memory> {
    let items = listed(alloc, items)?;
    Ok(format!(in alloc; "items:{items} captured:{captured} periods:{periods}")?)
}

fn made(alloc: Global, entries: &[TermEntry]) -> Result<String, Memory>
    requires { all_allowed [] entries.now ≡ true }
{
    let items = items_of(alloc, entries)?;
    told(alloc, &items)
}

fn judged(alloc: Global, entries: &[TermEntry]) -> Result<String, Memory> {
    match first_not_allowed(alloc, entries)? {
        Some(at) => Ok(format!(in alloc; "entry {at} is not allowed")?),
        None => made(alloc, entries),
    }
}

/// The first of a terminal's entries, from 0, that is not allowed; or the items, the capture and the totals of the first three periods.
pub(crate) fn journal(alloc: Global, words: &str) -> Result<String, Memory> {
    match entries(alloc, words)? {
        Some(entries) => judged(alloc, &entries),
        None => text(alloc, "no entries"),
    }
}
