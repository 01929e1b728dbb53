// Rows on the index of a log alone.
use crate::fault::Fault;
use crate::row::{Words, number};
use crate::trial::Trial;
use cap_base::{Account, Amount, Code6, Item};
use cap_entries::HostEntry;
use cap_host_index::LogIndex;
use std::alloc::Global;
use std::string::String;

/// The items of the terminal at this place among the entries.
pub(crate) fn items_of(
    alloc: Global,
    entries: &[HostEntry],
    place: u8,
) -> Result<Vec<Item>, Fault> {
    let mut items = Vec::new(alloc);
    for entry in entries {
        if let HostEntry::Took { terminal, item } = entry {
            if *terminal == place {
                items.push(*item)?;
            }
        }
    }
    Ok(items)
}

// An index of these items, as if they stood in the entries from 10 on.
fn index_of(alloc: Global, items: &[Item]) -> Result<LogIndex, Fault> {
    let mut index = LogIndex::new(alloc);
    index.note(items)?;
    index.take_all(10, items);
    Ok(index)
}

// An index of the log of terminal T1.
fn of_first(alloc: Global, trial: &Trial) -> Result<LogIndex, Fault> {
    index_of(alloc, &items_of(alloc, &trial.entries, 0)?)
}

/// `index`: the number of items, of closings, and what is counted in the open period.
pub(crate) fn counts(alloc: Global, trial: &Trial) -> Result<String, Fault> {
    let index = of_first(alloc, trial)?;
    let (len, closes, running) = (index.len(), index.closes(), index.running());
    Ok(format!(in alloc; "{len} items, {closes} closings, {running:?}")?)
}

/// `indexed 4`: the entry of item 4 and of captured sale 4, and the totals of period 4.
pub(crate) fn placed(alloc: Global, trial: &Trial, words: Words<'_>) -> Result<String, Fault> {
    let index = of_first(alloc, trial)?;
    let m = number(words[0]);
    let (entry, captured, totals) = (index.entry_of(m), index.captured_entry(m), index.totals(m));
    Ok(format!(in alloc; "item {entry:?}, captured {captured:?}, totals {totals:?}")?)
}

// Whether sale n has an end, and its entry where it is captured.
fn shown(alloc: Global, index: &LogIndex, n: u64) -> Result<String, Fault> {
    let (ended, entry) = (index.has_end(n), index.sale_entry(n));
    Ok(format!(in alloc; "ended {ended}, captured {entry:?}")?)
}

/// `ended 4`: what the index knows of sale 4.
pub(crate) fn ended(alloc: Global, trial: &Trial, words: Words<'_>) -> Result<String, Fault> {
    shown(alloc, &of_first(alloc, trial)?, number(words[0]))
}

// A sale and one that was given up.
fn more(n: u64) -> Option<[Item; 2]> {
    let amount = Amount::read(b"2.00")?;
    let account = Account::read(b"4000001234567899")?;
    let code = Code6::read(b"OFFLIN")?;
    let sale = Item::Sale {
        n,
        amount,
        account,
        code,
    };
    Some([
        sale,
        Item::Void {
            n: n.saturating_add(1),
        },
    ])
}

// What the index knows of two sales, and how many items it has.
fn both(alloc: Global, index: &LogIndex, n: u64) -> Result<String, Fault> {
    let first = shown(alloc, index, n)?;
    let second = shown(alloc, index, n.saturating_add(1))?;
    Ok(format!(in alloc; "{first}, {second}, {} items", index.len())?)
}

/// `forget 4`: what the index knows of a sale 4 and a sale 5 that were noted, and once they were forgotten.
pub(crate) fn forget(alloc: Global, trial: &Trial, words: Words<'_>) -> Result<String, Fault> {
    let mut index = of_first(alloc, trial)?;
    let n = number(words[0]);
    match more(n) {
        Some(items) => forgotten(alloc, &mut index, n, &items),
        None => Ok(String::from_str(alloc, "no items")?),
    }
}

fn forgotten(alloc: Global, index: &mut LogIndex, n: u64, items: &[Item]) -> Result<String, Fault> {
    index.note(items)?;
    let noted = both(alloc, index, n)?;
    index.forget(items);
    let left = both(alloc, index, n)?;
    Ok(format!(in alloc; "{noted}; {left}")?)
}
