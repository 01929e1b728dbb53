// Rows that publish parameter sets.
use crate::fault::Fault;
use crate::row::{Words, number};
use crate::trial::Trial;
use cap_base::{Ident, Row};
use cap_entries::{HostEntry, RowSet};
use cap_host::PublishFault;
use std::alloc::Global;
use std::string::String;

// Publishes a set, which is an entry of the plain answers too.
fn published(trial: &mut Trial, rows: RowSet) -> Result<Result<u64, PublishFault>, Fault> {
    let copy = rows.clone()?;
    match trial.host.publish(rows) {
        Ok(version) => {
            trial.entries.push(HostEntry::Published {
                version,
                rows: copy,
            })?;
            Ok(Ok(version))
        }
        Err(fault) => Ok(Err(fault)),
    }
}

// Publishes these rows.
fn told(alloc: Global, trial: &mut Trial, rows: Vec<Row>) -> Result<String, Fault> {
    match RowSet::new(rows) {
        Ok(set) => {
            let answer = published(trial, set)?;
            Ok(format!(in alloc; "{answer:?}")?)
        }
        Err(fault) => Ok(format!(in alloc; "{fault:?}")?),
    }
}

fn row(key: &str, value: &str) -> Option<Row> {
    let key = Ident::read(key.as_bytes())?;
    let value = Ident::read(value.as_bytes())?;
    Some(Row { key, value })
}

/// `publish FLOOR 15.00`: a set of one row.
pub(crate) fn publish(alloc: Global, trial: &mut Trial, words: Words<'_>) -> Result<String, Fault> {
    match row(words[0], words[1]) {
        Some(row) => told(alloc, trial, vec![in alloc; row]?),
        None => Ok(String::from_str(alloc, "no row")?),
    }
}

// Rows with the keys K1, K2 and so on.
fn rows(alloc: Global, count: u64) -> Result<Vec<Row>, Fault> {
    let mut all = Vec::new(alloc);
    for i in 0..count {
        let key = format!(in alloc; "K{}", i.saturating_add(1))?;
        if let Some(row) = row(&key, "1") {
            all.push(row)?;
        }
    }
    Ok(all)
}

/// `rows 17`: a set of so many rows.
pub(crate) fn many_rows(
    alloc: Global,
    trial: &mut Trial,
    words: Words<'_>,
) -> Result<String, Fault> {
    told(alloc, trial, rows(alloc, number(words[0]))?)
}

// Whether the next set gets this version.
fn is_next(alloc: Global, trial: &mut Trial, version: u64) -> Result<bool, Fault> {
    match RowSet::new(rows(alloc, 1)?) {
        Ok(set) => Ok(published(trial, set)? == Ok(version)),
        Err(_) => Ok(false),
    }
}

/// `sets 3`: publishes so many sets of a new host, and tells how many got the next version.
pub(crate) fn sets(alloc: Global, trial: &mut Trial, words: Words<'_>) -> Result<String, Fault> {
    let mut next: u64 = 0;
    for _ in 0..number(words[0]) {
        if is_next(alloc, trial, next.saturating_add(1))? {
            next = next.saturating_add(1);
        }
    }
    Ok(format!(in alloc; "{next}")?)
}
