ghost use Rattle.std.specs.Prelude.{◌≡◌, ◌++◌, ℕ, [], true, false, IfOk, MatchOption};
ghost use Rattle.std.specs.Option.{option_to_list};
ghost use Rattle.std.specs.List.{list_any};
ghost use Rattle.cap_base.specs.Fits.{all_fit};
ghost use Rattle.cap_entries.specs.Entry.{is_begin, amount_of, account_of, is_completed};
ghost use Rattle.cap_entries.specs.Items.{items_after, items};
ghost use Rattle.cap_entries.specs.Allowed.{allowed, all_allowed};

use crate::period::totals_in;
use cap_base::{Account, Amount, Item, Memory};
use cap_entries::TermEntry;
use std::alloc::Global;

// The amount and the account of Begin n.
fn begun(entries: &[TermEntry], sale: u64) -> Option<(Amount, Account)>
    ensures { MatchOption result (list_any (is_begin sale) entries.now ≡ false)
        (λ b. (b.0 ≡ amount_of entries.now sale) × (b.1 ≡ account_of entries.now sale)) }
{
    for entry in entries {
        if let TermEntry::Begin { n, amount, account } = entry {
            if *n == sale {
                return Some((*amount, *account));
            }
        }
    }
    None
}

// The item that an entry makes, where some were made before.
fn next_item(before: &[TermEntry], made: &[Item], entry: &TermEntry) -> Option<Item>
    requires allowed { allowed before.now entry.now ≡ true }
    requires begun { (n : ℕ) → is_completed before.now n ≡ true → list_any (is_begin n) before.now ≡ true }
    requires fit { all_fit [] made.now ≡ true }
    ensures { made.now ++ option_to_list result ≡ items_after before.now made.now entry.now }
{
    match entry {
        TermEntry::Completed { n, code } => match begun(before, *n) {
            Some((amount, account)) => Some(Item::Sale {
                n: *n,
                amount,
                account,
                code: *code,
            }),
            None => unreachable!(),
        },
        TermEntry::Voided { n } => Some(Item::Void { n: *n }),
        TermEntry::Cancelled { n } => match begun(before, *n) {
            Some((amount, _)) => Some(Item::Cancel { n: *n, amount }),
            None => unreachable!(),
        },
        TermEntry::Closed { p } => Some(Item::Close {
            p: *p,
            totals: totals_in(made, *p),
        }),
        _ => None,
    }
}

fn make_items(alloc: Global, entries: &[TermEntry]) -> Result<Vec<Item>, Memory>
    requires { all_allowed [] entries.now ≡ true }
    ensures { IfOk result (λ v. v.items ≡ items entries.now) }
{
    let mut made = Vec::new(alloc);
    for (i, entry) in entries.iter().enumerate() {
        if let Some(item) = next_item(&entries[..i], &made, entry) {
            made.push(item)?;
        }
    }
    Ok(made)
}

/// The items that the entries make, where each entry is allowed after those before it. They fit one after another.
pub fn items_of(alloc: Global, entries: &[TermEntry]) -> Result<Vec<Item>, Memory>
    requires { all_allowed [] entries.now ≡ true }
    ensures exact { IfOk result (λ v. v.items ≡ items entries.now) }
    ensures fit { IfOk result (λ v. all_fit [] v.items ≡ true) }
{
    make_items(alloc, entries)
}
