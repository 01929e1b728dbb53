// The entries of a host's journal in words, as `sale,0,1` for sale 1 of the first terminal.
use crate::entries::{account, row};
use crate::words::{cut, number, text};
use cap_base::{Amount, Code6, Ident, Item, Memory, Row, Totals};
use cap_entries::{Blocks, HostEntry, HostSetup, Idents, RowSet, first_host_not_allowed};
use cap_leaf::{DateTime, Zone};
use std::alloc::Global;

fn start() -> DateTime {
    DateTime {
        year: 2026,
        month: 1,
        day: 2,
        hour: 3,
        minute: 4,
        second: 5,
        millis: None,
        zone: Zone::Utc,
    }
}

fn terminals(alloc: Global) -> Result<Option<Idents>, Memory> {
    let mut names = Vec::new(alloc);
    for name in [b"T1", b"T2"] {
        if let Some(name) = Ident::read(name) {
            names.push(name)?;
        }
    }
    Ok(Idents::new(names))
}

fn blocked(alloc: Global) -> Result<Option<Blocks>, Memory> {
    let prefixes = Vec::from_slice(alloc, &[*b"411111"])?;
    Ok(Blocks::new(prefixes))
}

fn set_up(host: &[u8], poll: u64, blocked: Blocks, terminals: Idents) -> Option<HostEntry> {
    let host = Ident::read(host)?;
    let limit = Amount::new(50000)?;
    match HostSetup::new(host, limit, blocked, poll, start(), terminals) {
        Some(setup) => Some(HostEntry::Setup(setup)),
        None => None,
    }
}

// A host of the terminals T1 and T2 with a limit of 500.00, which blocks 411111: its name, and the minutes between two polls.
fn setup(alloc: Global, words: &str) -> Result<Option<HostEntry>, Memory> {
    let (host, poll) = cut(words, ',');
    let blocked = blocked(alloc)?;
    let terminals = terminals(alloc)?;
    match (blocked, terminals) {
        (Some(blocked), Some(terminals)) => {
            Ok(set_up(host.as_bytes(), number(poll), blocked, terminals))
        }
        _ => Ok(None),
    }
}

fn with_row(alloc: Global, version: u64, row: Row) -> Result<Option<HostEntry>, Memory> {
    let rows = Vec::from_slice(alloc, &[row])?;
    match RowSet::new(rows) {
        Ok(rows) => Ok(Some(HostEntry::Published { version, rows })),
        Err(_) => Ok(None),
    }
}

fn published(alloc: Global, version: u64) -> Result<Option<HostEntry>, Memory> {
    match row("T1=ACQ1") {
        Some(row) => with_row(alloc, version, row),
        None => Ok(None),
    }
}

fn sale(n: u64) -> Option<Item> {
    let amount = Amount::new(1250)?;
    let account = account()?;
    Some(Item::Sale {
        n,
        amount,
        account,
        code: Code6::offline(),
    })
}

fn cancel(n: u64, amount: &str) -> Option<Item> {
    match Amount::read(amount.as_bytes()) {
        Some(amount) => Some(Item::Cancel { n, amount }),
        None => None,
    }
}

fn close(p: u64) -> Item {
    Item::Close {
        p,
        totals: Totals {
            sales: 0,
            sales_sum: 0,
            cancels: 0,
            cancels_sum: 0,
        },
    }
}

fn item(verb: &str, n: u64, amount: &str) -> Option<Item> {
    match verb {
        "sale" => sale(n),
        "void" => Some(Item::Void { n }),
        "cancel" => cancel(n, amount),
        "close" => Some(close(n)),
        _ => None,
    }
}

// An item that was taken: the terminal's place, its number and, of a cancel, its amount.
fn took(verb: &str, words: &str) -> Option<HostEntry> {
    let (terminal, words) = cut(words, ',');
    let (n, amount) = cut(words, ',');
    let terminal = terminal.parse::<u8>().unwrap_or(u8::MAX);
    match item(verb, number(n), amount) {
        Some(item) => Some(HostEntry::Took { terminal, item }),
        None => None,
    }
}

fn entry(alloc: Global, word: &str) -> Result<Option<HostEntry>, Memory> {
    let (verb, words) = cut(word, ',');
    match verb {
        "setup" => setup(alloc, words),
        "published" => published(alloc, number(words)),
        _ => Ok(took(verb, words)),
    }
}

fn entries(alloc: Global, words: &str) -> Result<Option<Vec<HostEntry>>, Memory> {
    let mut entries = Vec::new(alloc);
    for word in words.split_whitespace() {
        match entry(alloc, word)? {
            Some(entry) => entries.push(entry)?,
            None => return Ok(None),
        }
    }
    Ok(Some(entries))
}

fn judged(alloc: Global, entries: &[HostEntry]) -> Result<String, Memory> {
    match first_host_not_allowed(alloc, entries)? {
        Some(at) => Ok(format!(in alloc; "entry {at} is not allowed")?),
        None => text(alloc, "allowed"),
    }
}

/// The first of a host's entries, from 0, that is not allowed.
pub(crate) fn journal(alloc: Global, words: &str) -> Result<String, Memory> {
    match entries(alloc, words)? {
        Some(entries) => judged(alloc, &entries),
        None => text(alloc, "no entries"),
    }
}
