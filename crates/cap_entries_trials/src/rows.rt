// The cases by their first words.
use crate::words::{cut, text};
use crate::{caches, counting, ends, faults, files, hosts, items, pages, records, sales, sets};
use cap_base::Memory;
use std::alloc::{AllocError, Global};

fn set(alloc: Global, verb: &str, words: &str) -> Result<String, Memory> {
    match verb {
        "set" => sets::set(alloc, words),
        "many" => sets::many(alloc, words),
        "floor" => sets::floor(alloc, words),
        "setup" => sets::setup(alloc, words),
        "names" => sets::names(alloc, words),
        _ => sets::blocks(alloc, words),
    }
}

fn journal(alloc: Global, verb: &str, words: &str) -> Result<String, Memory> {
    match verb {
        "terminal" => items::journal(alloc, words),
        "host" => hosts::journal(alloc, words),
        "record" => records::record(alloc, words),
        _ => records::read(alloc, words),
    }
}

fn sale(alloc: Global, verb: &str, words: &str) -> Result<String, Memory> {
    match verb {
        "offline" => sales::offline(alloc, words),
        "authorise" => sales::authorise(alloc, words),
        _ => sales::knows(alloc, words),
    }
}

fn file(alloc: Global, verb: &str, words: &str) -> Result<String, Memory> {
    match verb {
        "file" => files::terminal(alloc, words),
        "samples" => files::samples(alloc),
        "open" => files::open(alloc, words),
        "init" => files::begin(alloc, words),
        "fault" => faults::left(alloc, words),
        "appends" => counting::appends(alloc),
        _ => ends::ends(alloc),
    }
}

fn paged(alloc: Global, verb: &str, words: &str) -> Result<String, Memory> {
    match verb {
        "paged" => pages::journal(alloc, words),
        _ => caches::cache(alloc, words),
    }
}

fn answer(alloc: Global, verb: &str, words: &str) -> Result<String, Memory> {
    match verb {
        "set" | "many" | "floor" | "setup" | "names" | "blocks" => set(alloc, verb, words),
        "terminal" | "host" | "record" | "read" => journal(alloc, verb, words),
        "offline" | "authorise" | "knows" => sale(alloc, verb, words),
        "file" | "samples" | "open" | "init" | "fault" | "ends" | "appends" => file(
            alloc, verb, words,
        ),
        "paged" | "cache" => paged(alloc, verb, words),
        _ => text(alloc, "no such case"),
    }
}

/// A line of the input, and the answer to its case.
pub(crate) fn printed(alloc: Global, row: &str) -> Result<String, AllocError> {
    if row.is_empty() || row.starts_with('#') {
        return String::from_str(alloc, row);
    }
    let (verb, words) = cut(row, ' ');
    match answer(alloc, verb, words) {
        Ok(text) => format!(in alloc; "{row}: {text}"),
        Err(_) => format!(in alloc; "{row}: no memory"),
    }
}
