ghost use Rattle.std.specs.Prelude.{◌≡◌, IfOk, map};
ghost use Rattle.cap_entries.specs.Settings.{host_settings_if};
ghost use Rattle.cap_schedule.specs.SetUps.{are_host_words, are_terminal_words, host_more_of, host_values, terminal_values, host_line as spec_host, terminal_line as spec_terminal, is_terminal_line as spec_is_terminal, plan_start, host_of, opened as spec_opened};

use crate::blocks::blocks;
use crate::ends::is_free;
use crate::schedule::{HostLine, Schedule};
use cap_base::{Amount, Ident, read_decimal, read_number};
use cap_entries::{Blocks, HostSetup, Idents, TermSetup};
use cap_leaf::{DateTime, Zone};
use sqlite_items::Items;
use std::alloc::{AllocError, Global};

// The four fixed words of the host line.
fn host_words(a: &[u8], b: &[u8], c: &[u8], d: &[u8]) -> bool
    ensures { result ≡ are_host_words a.now b.now c.now d.now }
{
    a == b"host".as_slice()
        && b == b"limit".as_slice()
        && c == b"block".as_slice()
        && d == b"poll".as_slice()
}

// The host of these values.
fn host_line_of(
    id: Option<Ident>,
    limit: Option<Amount>,
    blocked: Option<Blocks>,
    poll: Option<u64>,
) -> Option<HostLine>
    ensures { result ≡ host_values id limit blocked poll }
{
    match (id, limit, blocked, poll) {
        (Some(id), Some(limit), Some(blocked), Some(poll)) => {
            if poll <= 525_600 {
                Some(HostLine {
                    id,
                    limit,
                    blocked,
                    poll,
                })
            } else {
                None
            }
        }
        _ => None,
    }
}

// The host line after its fourth word.
fn host_more(
    alloc: Global,
    a: &[u8],
    id: &[u8],
    b: &[u8],
    limit: &[u8],
    more: &[&[u8]],
) -> Result<Option<HostLine>, AllocError>
    ensures { IfOk result (λ o. o ≡ host_more_of a.now id.now b.now limit.now (map (λ w. w.now) more.now)) }
{
    match more {
        [c, list, d, poll] => {
            if host_words(a, b, c, d) {
                let blocked = blocks(alloc, list)?;
                Ok(host_line_of(
                    Ident::read(id),
                    Amount::read(limit),
                    blocked,
                    read_number(poll, 10),
                ))
            } else {
                Ok(None)
            }
        }
        [_, _, _, _, _, ..] => Ok(None),
        _ => Ok(None),
    }
}

/// The host line of these words: `host ID limit AMOUNT block LIST poll MINUTES`.
pub fn host_line(alloc: Global, words: &[&[u8]]) -> Result<Option<HostLine>, AllocError>
    ensures { IfOk result (λ o. o ≡ spec_host (map (λ w. w.now) words.now)) }
{
    match words {
        [a, id, b, limit, more @ ..] => host_more(alloc, a, id, b, limit, more),
        _ => Ok(None),
    }
}

// The three fixed words of a terminal line.
fn terminal_words(a: &[u8], b: &[u8], c: &[u8]) -> bool
    ensures { result ≡ are_terminal_words a.now b.now c.now }
{
    a == b"terminal".as_slice() && b == b"max".as_slice() && c == b"floor".as_slice()
}

// The terminal of these values, a terminal of this host.
fn terminal_of(
    host: &Ident,
    id: Option<Ident>,
    max: Option<u64>,
    floor: Option<u64>,
) -> Option<TermSetup>
    ensures { result ≡ terminal_values host.now id max floor }
{
    match (id, max, floor) {
        (Some(id), Some(max), Some(floor)) => TermSetup::new(id, *host, max, floor),
        _ => None,
    }
}

/// The terminal line of these words: `terminal ID max NUMBER floor MONEY`, after these terminals.
pub fn terminal_line(host: &Ident, terminals: &[TermSetup], words: &[&[u8]]) -> Option<TermSetup>
    ensures { result ≡ spec_terminal host.now terminals.now (map (λ w. w.now) words.now) }
{
    match words {
        [a, id, b, max, c, floor] => {
            if terminal_words(a, b, c) && is_free(id, terminals) {
                let (max, floor) = (read_number(max, 10), read_decimal(floor, 10));
                terminal_of(host, Ident::read(id), max, floor)
            } else {
                None
            }
        }
        [_, _, _, _, _, _, _, ..] => None,
        _ => None,
    }
}

/// Whether these words are to set up a terminal.
pub fn is_terminal_line(words: &[&[u8]]) -> bool
    ensures { result ≡ spec_is_terminal (map (λ w. w.now) words.now) }
{
    match words {
        [word, ..] => *word == b"terminal".as_slice(),
        _ => false,
    }
}

// The start of every schedule's plan.
fn start_of_plan() -> DateTime
    ensures { result ≡ plan_start }
{
    DateTime {
        year: 2023,
        month: 11,
        day: 14,
        hour: 22,
        minute: 13,
        second: 20,
        millis: None,
        zone: Zone::Utc,
    }
}

// The names of these terminals.
fn names_of(alloc: Global, terminals: &[TermSetup]) -> Result<Vec<Ident>, AllocError>
    ensures { IfOk result (λ names. names.items ≡ map (λ t. t.terminal) terminals.now) }
{
    let mut names = Vec::new(alloc);
    for t in terminals {
        names.push(t.terminal())?;
    }
    Ok(names)
}

// The host of its line and terminals of these names.
fn host_with(line: HostLine, names: Vec<Ident>) -> Option<HostSetup>
    ensures { result ≡ host_settings_if (host_of line names.items) }
{
    let terminals = Idents::new(names)?;
    let HostLine {
        id,
        limit,
        blocked,
        poll,
    } = line;
    HostSetup::new(id, limit, blocked, poll, start_of_plan(), terminals)
}

/// The schedule of this host and these terminals, before its first action line. None without a terminal.
pub fn opened(
    alloc: Global,
    line: HostLine,
    terminals: Items<TermSetup>,
) -> Result<Option<Schedule>, AllocError>
    ensures { IfOk result (λ o. o ≡ spec_opened line terminals) }
{
    let names = names_of(alloc, terminals.as_slice())?;
    match host_with(line, names) {
        Some(host) => Ok(Some(Schedule {
            host,
            terminals,
            lines: Items::new(alloc),
        })),
        None => Ok(None),
    }
}
