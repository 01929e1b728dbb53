// Which row does what.
use crate::fault::Fault;
use crate::row::{Row, row_of};
use crate::trial::Trial;
use crate::{indexes, long, manager, opening, publishing, queries, taking};
use std::alloc::Global;
use std::string::String;

/// Takes one row. The text is what stands behind it: nothing for a heading.
pub(crate) fn step(
    alloc: Global,
    at: Option<Trial>,
    line: &str,
) -> Result<(Option<Trial>, String), Fault> {
    if line.is_empty() || line.starts_with('#') {
        return Ok((at, String::new(alloc)));
    }
    let (at, text) = stepped(alloc, at, &row_of(line))?;
    Ok((at, format!(in alloc; ": {text}")?))
}

// Rows that make a host, or take it apart.
fn stepped(
    alloc: Global,
    at: Option<Trial>,
    row: &Row<'_>,
) -> Result<(Option<Trial>, String), Fault> {
    match row.verb {
        "new" => opening::new(alloc),
        "entries" => opening::entries(alloc, at),
        "long" => Ok((None, long::long(alloc, row.words)?)),
        _ => acted(alloc, at, row),
    }
}

fn acted(
    alloc: Global,
    at: Option<Trial>,
    row: &Row<'_>,
) -> Result<(Option<Trial>, String), Fault> {
    match at {
        Some(trial) => {
            let mut trial = trial;
            let text = act(alloc, &mut trial, row)?;
            Ok((Some(trial), text))
        }
        None => Ok((None, String::from_str(alloc, "none")?)),
    }
}

fn act(alloc: Global, trial: &mut Trial, row: &Row<'_>) -> Result<String, Fault> {
    match row.verb {
        "take" => taking::take(alloc, trial, row.words),
        "batch" => taking::send(alloc, trial, row.words),
        "status" => taking::report(alloc, trial, row.words),
        "raw" => taking::bring(alloc, trial, row.rest.as_bytes()),
        _ => publish(alloc, trial, row),
    }
}

fn publish(alloc: Global, trial: &mut Trial, row: &Row<'_>) -> Result<String, Fault> {
    match row.verb {
        "publish" => publishing::publish(alloc, trial, row.words),
        "rows" => publishing::many_rows(alloc, trial, row.words),
        "sets" => publishing::sets(alloc, trial, row.words),
        _ => ask(alloc, trial, row),
    }
}

fn ask(alloc: Global, trial: &mut Trial, row: &Row<'_>) -> Result<String, Fault> {
    match row.verb {
        "log" => queries::log(alloc, &trial.host, row.words),
        "totals" => queries::totals(alloc, &trial.host, row.words),
        "capture" => queries::capture(alloc, &mut trial.host, row.words),
        "newest" => queries::newest(alloc, &trial.host),
        _ => ask_parts(alloc, trial, row),
    }
}

fn ask_parts(alloc: Global, trial: &Trial, row: &Row<'_>) -> Result<String, Fault> {
    match row.verb {
        "manager" => manager::manager(alloc, trial, row.words),
        "index" => indexes::counts(alloc, trial),
        "indexed" => indexes::placed(alloc, trial, row.words),
        "ended" => indexes::ended(alloc, trial, row.words),
        "forget" => indexes::forget(alloc, trial, row.words),
        _ => Ok(String::from_str(alloc, "no such step")?),
    }
}
