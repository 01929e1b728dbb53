// Which row does what.
use crate::fault::Fault;
use crate::row::{Row, row_of};
use crate::state::At;
use crate::{acts, disks, long, opening, plain, queries, sending, tokens};
use cap_entries::TermEntry;
use cap_journal::Journal;
use cap_terminal::Terminal;
use std::alloc::Global;
use std::string::String;

/// Takes one row. The text is what stands behind it: nothing for a heading.
pub(crate) fn step(alloc: Global, at: At, line: &str) -> Result<(At, String), Fault> {
    if line.is_empty() || line.starts_with('#') {
        return Ok((at, String::new(alloc)));
    }
    let (at, text) = stepped(alloc, at, &row_of(line))?;
    Ok((at, format!(in alloc; ": {text}")?))
}

// Rows that make a terminal.
fn stepped(alloc: Global, at: At, row: &Row<'_>) -> Result<(At, String), Fault> {
    match row.verb {
        "new" => opening::new(alloc, row.words),
        "disk" => disks::failing(alloc, row.words),
        _ => taken_apart(alloc, at, row),
    }
}

// Rows that take the terminal apart.
fn taken_apart(alloc: Global, at: At, row: &Row<'_>) -> Result<(At, String), Fault> {
    match row.verb {
        "entry" => opening::entry(alloc, at, row.words),
        "open" => opening::again(alloc, at),
        "plain" => plain::plain(alloc, at, row.words),
        "long" => long::long(alloc, row.words),
        _ => acted(alloc, at, row),
    }
}

fn acted(alloc: Global, at: At, row: &Row<'_>) -> Result<(At, String), Fault> {
    match at {
        At::Open(terminal) => {
            let mut terminal = terminal;
            let text = act(alloc, &mut terminal, row)?;
            Ok((At::Open(terminal), text))
        }
        At::OnDisk(terminal) => {
            let mut terminal = terminal;
            let text = act(alloc, &mut terminal, row)?;
            Ok((At::OnDisk(terminal), text))
        }
        other => Ok((other, String::from_str(alloc, "none")?)),
    }
}

fn act<J: Journal<TermEntry>>(
    alloc: Global,
    terminal: &mut Terminal<J>,
    row: &Row<'_>,
) -> Result<String, Fault> {
    match row.verb {
        "sell" => acts::sell(alloc, terminal, row.words),
        "begin" => acts::begin(alloc, terminal, row.words),
        "offline" => acts::complete(alloc, terminal, row.words),
        "void" => acts::give_up(alloc, terminal, row.words),
        _ => end(alloc, terminal, row),
    }
}

fn end<J: Journal<TermEntry>>(
    alloc: Global,
    terminal: &mut Terminal<J>,
    row: &Row<'_>,
) -> Result<String, Fault> {
    match row.verb {
        "cancel" => acts::cancel(alloc, terminal, row.words),
        "close" => acts::close(alloc, terminal),
        "closes" => acts::closes(alloc, terminal, row.words),
        _ => hear(alloc, terminal, row),
    }
}

fn hear<J: Journal<TermEntry>>(
    alloc: Global,
    terminal: &mut Terminal<J>,
    row: &Row<'_>,
) -> Result<String, Fault> {
    match row.verb {
        "told" => acts::told(alloc, terminal, row.words),
        "byte" => acts::byte(alloc, terminal, row.words),
        "decide" => tokens::follow(alloc, terminal, row.words),
        "token" => tokens::offer(alloc, terminal, row.words),
        _ => ask(alloc, terminal, row),
    }
}

fn ask<J: Journal<TermEntry>>(
    alloc: Global,
    terminal: &Terminal<J>,
    row: &Row<'_>,
) -> Result<String, Fault> {
    match row.verb {
        "counts" => queries::counts(alloc, terminal),
        "queue" => queries::queue(alloc, terminal),
        "limits" => queries::limits(alloc, terminal),
        "pending" => queries::pending(alloc, terminal, row.words),
        "totals" => queries::totals(alloc, terminal, row.words),
        _ => send(alloc, terminal, row),
    }
}

fn send<J: Journal<TermEntry>>(
    alloc: Global,
    terminal: &Terminal<J>,
    row: &Row<'_>,
) -> Result<String, Fault> {
    match row.verb {
        "head" => sending::head(alloc, terminal, row.words),
        "batch" => sending::batch(alloc, terminal, row.words),
        "ask" => sending::ask(alloc, terminal, row.words),
        _ => question(alloc, terminal, row),
    }
}

fn question<J: Journal<TermEntry>>(
    alloc: Global,
    terminal: &Terminal<J>,
    row: &Row<'_>,
) -> Result<String, Fault> {
    match row.verb {
        "askcancel" => sending::ask_cancel(alloc, terminal, row.words),
        "diagnose" => sending::diagnose(alloc, terminal),
        "status" => sending::status(alloc, terminal, row.words),
        _ => Ok(String::from_str(alloc, "no such step")?),
    }
}
