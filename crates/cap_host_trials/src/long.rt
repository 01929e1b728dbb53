// Many advices of sixteen terminals, against plain lists of what was sent.
use crate::fault::Fault;
use crate::indexes::items_of;
use crate::queries::has_terminal;
use crate::row::{Words, number};
use crate::sent::{Sent, next_document, nothing_sent};
use crate::start::new_host;
use crate::trial::{InMemory, entries_in};
use cap_base::{Item, Totals};
use cap_host::{Captured, Reply};
use cap_plain::capture_of;
use std::alloc::Global;
use std::string::String;

const MOMENT: u64 = 1_700_000_005;

const NAMES: [&str; 16] = [
    "T01", "T02", "T03", "T04", "T05", "T06", "T07", "T08", "T09", "T10", "T11", "T12", "T13",
    "T14", "T15", "T16",
];

// Whether the host approves a document.
fn approves_once(host: &mut InMemory, text: &[u8]) -> bool {
    match host.answer(text, MOMENT) {
        Ok(Reply::Bytes(reply)) => reply
            .as_slice()
            .windows(17)
            .any(|part| part == b"<Rspn>APPR</Rspn>".as_slice()),
        _ => false,
    }
}

// Whether the host approves a document, so many times the same.
fn approves(host: &mut InMemory, text: &[u8], times: u64) -> bool {
    for _ in 0..times {
        if !approves_once(host, text) {
            return false;
        }
    }
    true
}

// Turn i: the next document of the next terminal. Each third comes twice.
fn turn(alloc: Global, host: &mut InMemory, all: &mut [Sent], i: u64) -> Result<bool, Fault> {
    let place = (i % 16) as usize;
    let Some(sent) = all.get_mut(place) else {
        return Ok(false);
    };
    let text = next_document(alloc, NAMES[place], sent, i)?;
    let times = if i % 3 == 0 { 2 } else { 1 };
    Ok(approves(host, text.as_bytes(), times))
}

fn turns(alloc: Global, host: &mut InMemory, all: &mut [Sent], count: u64) -> Result<bool, Fault> {
    for i in 0..count {
        if !turn(alloc, host, all, i)? {
            return Ok(false);
        }
    }
    Ok(true)
}

// The sale of a captured line.
fn told(line: &Captured) -> Item {
    Item::Sale {
        n: line.n,
        amount: line.amount,
        account: line.account,
        code: line.code,
    }
}

// Captured sale k of the terminal at this place; None past the last one.
fn line(host: &mut InMemory, terminal: u8, k: u64) -> Result<Option<Item>, Fault> {
    if !has_terminal(host, terminal) {
        return Err(Fault::Journal);
    }
    match host.capture_line(terminal, k) {
        Ok(Some(line)) => Ok(Some(told(&line))),
        Ok(None) => Ok(None),
        Err(_) => Err(Fault::Journal),
    }
}

// Whether the captured sales of the terminal at this place are these.
fn captures(host: &mut InMemory, terminal: u8, captured: &[Item]) -> Result<bool, Fault> {
    for (k, item) in captured.iter().enumerate() {
        if line(host, terminal, k as u64)? != Some(*item) {
            return Ok(false);
        }
    }
    Ok(line(host, terminal, captured.len() as u64)?.is_none())
}

// Whether the host has these totals of the terminal's closed periods, and none of the next.
fn has_totals(host: &InMemory, terminal: u8, closed: &[Totals]) -> bool {
    if !has_terminal(host, terminal) {
        return false;
    }
    let mut p: u64 = 0;
    for totals in closed {
        p = p.saturating_add(1);
        if host.totals(terminal, p) != Some(*totals) {
            return false;
        }
    }
    host.totals(terminal, p.saturating_add(1)).is_none()
}

fn has_length(host: &InMemory, terminal: u8, len: u64) -> bool {
    has_terminal(host, terminal) && host.log_len(terminal) == len
}

// Whether the host knows of a terminal what was sent.
fn knows(alloc: Global, host: &mut InMemory, terminal: u8, sent: &Sent) -> Result<bool, Fault> {
    let captured = capture_of(alloc, &sent.items)?;
    Ok(
        has_length(host, terminal, sent.items.len() as u64)
            && has_totals(host, terminal, &sent.closed)
            && captures(host, terminal, &captured)?,
    )
}

fn knows_all(alloc: Global, host: &mut InMemory, all: &[Sent]) -> Result<bool, Fault> {
    let mut place: u8 = 0;
    for sent in all {
        if !knows(alloc, host, place, sent)? {
            return Ok(false);
        }
        place = place.saturating_add(1);
    }
    Ok(true)
}

// Whether the entries of the host's journal are the items that were sent.
fn stand(alloc: Global, host: InMemory, all: &[Sent]) -> Result<bool, Fault> {
    let mut journal = host.into_journal();
    let entries = entries_in(alloc, &mut journal)?;
    let mut place: u8 = 0;
    for sent in all {
        if items_of(alloc, &entries, place)? != sent.items {
            return Ok(false);
        }
        place = place.saturating_add(1);
    }
    Ok(true)
}

fn all_sent(alloc: Global) -> Result<Vec<Sent>, Fault> {
    let mut all = Vec::new(alloc);
    for _ in NAMES {
        all.push(nothing_sent(alloc))?;
    }
    Ok(all)
}

fn run(alloc: Global, host: InMemory, count: u64) -> Result<&'static str, Fault> {
    let mut host = host;
    let mut all = all_sent(alloc)?;
    if !turns(alloc, &mut host, &mut all, count)? {
        return Ok("not approved");
    }
    judged(alloc, host, &all)
}

fn judged(alloc: Global, host: InMemory, all: &[Sent]) -> Result<&'static str, Fault> {
    let mut host = host;
    if !knows_all(alloc, &mut host, all)? {
        return Ok("the host knows otherwise");
    }
    if stand(alloc, host, all)? {
        Ok("equal")
    } else {
        Ok("other entries")
    }
}

/// `long 10000`: so many advices of sixteen terminals, and whether the host's captured sales, totals and entries are what was sent.
pub(crate) fn long(alloc: Global, words: Words<'_>) -> Result<String, Fault> {
    let host = new_host(alloc, &NAMES)?;
    let word = run(alloc, host, number(words[0]))?;
    Ok(String::from_str(alloc, word)?)
}
