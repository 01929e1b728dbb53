// The entries of a terminal's journal in words, as `begin,1,12.50`.
use crate::words::{cut, number};
use cap_base::{Account, Amount, Code6, ConfigPart, Ident, Memory, Row, Rows};
use cap_entries::{TermEntry, TermSetup};
use std::alloc::Global;

// Terminal T1 of ACQ1 with a floor of 20.00, which may begin so many sales.
fn setup(max: u64) -> Option<TermEntry> {
    let terminal = Ident::read(b"T1")?;
    let host = Ident::read(b"ACQ1")?;
    match TermSetup::new(terminal, host, max, 2000) {
        Some(setup) => Some(TermEntry::Setup(setup)),
        None => None,
    }
}

/// The account that pays.
pub(crate) fn account() -> Option<Account> {
    Account::read(b"4000001234567899")
}

fn begin(n: u64, amount: &str) -> Option<TermEntry> {
    let amount = Amount::read(amount.as_bytes())?;
    let account = account()?;
    Some(TermEntry::Begin { n, amount, account })
}

/// A row of a parameter set, as `KEY=VALUE`.
pub(crate) fn row(word: &str) -> Option<Row> {
    let (key, value) = cut(word, '=');
    let key = Ident::read(key.as_bytes())?;
    let value = Ident::read(value.as_bytes())?;
    Some(Row { key, value })
}

fn with_row(alloc: Global, row: Row, share: (u64, u64, u64)) -> Result<Option<TermEntry>, Memory> {
    let rows = Vec::from_slice(alloc, &[row])?;
    let (version, part, parts) = share;
    match Rows::new(rows) {
        Some(rows) => Ok(Some(TermEntry::Part(ConfigPart {
            version,
            part,
            parts,
            rows,
        }))),
        None => Ok(None),
    }
}

// A part of a parameter set with one row: the version, the part's number and the number of parts.
fn part(alloc: Global, words: &str) -> Result<Option<TermEntry>, Memory> {
    let (version, words) = cut(words, ',');
    let (part, parts) = cut(words, ',');
    match row("T1=ACQ1") {
        Some(row) => with_row(alloc, row, (number(version), number(part), number(parts))),
        None => Ok(None),
    }
}

fn numbered(verb: &str, n: u64) -> Option<TermEntry> {
    match verb {
        "completed" => Some(TermEntry::Completed {
            n,
            code: Code6::offline(),
        }),
        "declined" => Some(TermEntry::Declined { n }),
        "voided" => Some(TermEntry::Voided { n }),
        "cancelled" => Some(TermEntry::Cancelled { n }),
        "closed" => Some(TermEntry::Closed { p: n }),
        "acked" => Some(TermEntry::Acked { m: n }),
        _ => None,
    }
}

/// One entry.
pub(crate) fn entry(alloc: Global, word: &str) -> Result<Option<TermEntry>, Memory> {
    let (verb, words) = cut(word, ',');
    match verb {
        "setup" => Ok(setup(number(words))),
        "begin" => {
            let (n, amount) = cut(words, ',');
            Ok(begin(number(n), amount))
        }
        "part" => part(alloc, words),
        _ => Ok(numbered(verb, number(words))),
    }
}

/// Entries, where each word is one.
pub(crate) fn entries(alloc: Global, words: &str) -> Result<Option<Vec<TermEntry>>, Memory> {
    let mut entries = Vec::new(alloc);
    for word in words.split_whitespace() {
        match entry(alloc, word)? {
            Some(entry) => entries.push(entry)?,
            None => return Ok(None),
        }
    }
    Ok(Some(entries))
}
