// The cases by their first words.
use crate::words::{cut, spelt};
use crate::{documents, frames, leaves, messages, names, plans, tables};
use cap_base::Memory;
use std::alloc::{AllocError, Global};

fn no_verb(alloc: Global) -> Result<String, AllocError> {
    String::from_str(alloc, "no such case")
}

fn or_memory(alloc: Global, answer: Result<String, Memory>) -> Result<String, AllocError> {
    match answer {
        Ok(text) => Ok(text),
        Err(_) => String::from_str(alloc, "no memory"),
    }
}

fn name(alloc: Global, verb: &str, words: &str) -> Result<String, AllocError> {
    let text = spelt(alloc, words)?;
    match verb {
        "ident" => names::ident(alloc, &text),
        "account" => names::account(alloc, &text),
        "code" => names::code(alloc, &text),
        _ => no_verb(alloc),
    }
}

fn number(alloc: Global, verb: &str, words: &str) -> Result<String, AllocError> {
    let text = spelt(alloc, words)?;
    match verb {
        "number" => names::number(alloc, &text),
        "decimal" => names::decimal(alloc, &text),
        "amount" => names::amount(alloc, &text),
        "money" => names::money(alloc, words),
        _ => no_verb(alloc),
    }
}

fn leaf(alloc: Global, words: &str) -> Result<String, AllocError> {
    let (kind, text) = cut(words);
    let text = spelt(alloc, text)?;
    leaves::leaf(alloc, kind, &text)
}

fn table(alloc: Global, verb: &str, words: &str) -> Result<String, AllocError> {
    match verb {
        "leaf" => leaf(alloc, words),
        "utc" => leaves::utc(alloc, words),
        "table" => tables::table(alloc, words),
        "tables" => tables::all_hold(alloc),
        "laws" => messages::laws(alloc),
        _ => no_verb(alloc),
    }
}

fn stream(alloc: Global, verb: &str, words: &str) -> Result<String, AllocError> {
    let text = spelt(alloc, words)?;
    match verb {
        "head" => or_memory(alloc, frames::head(alloc, &text)),
        "frames" => or_memory(alloc, frames::bodies(alloc, words)),
        _ => no_verb(alloc),
    }
}

fn plan(alloc: Global, verb: &str, words: &str) -> Result<String, AllocError> {
    let text = spelt(alloc, words)?;
    match verb {
        "moment" => plans::moment(alloc, &text),
        "due" => plans::is_due(alloc, words),
        "next" => plans::next(alloc, words),
        _ => no_verb(alloc),
    }
}

fn document(alloc: Global, given: &[u8], verb: &str, words: &str) -> Result<String, AllocError> {
    match verb {
        "given" => documents::document(alloc, given),
        "edited" => documents::edited(alloc, given, words),
        "fronts" => documents::fronts(alloc, given),
        "noise" => documents::noise(alloc, words),
        "values" => messages::by_values(alloc, given),
        _ => no_verb(alloc),
    }
}

fn answer(alloc: Global, given: &[u8], verb: &str, words: &str) -> Result<String, AllocError> {
    match verb {
        "ident" | "account" | "code" => name(alloc, verb, words),
        "number" | "decimal" | "amount" | "money" => number(alloc, verb, words),
        "leaf" | "utc" | "table" | "tables" | "laws" => table(alloc, verb, words),
        "head" | "frames" => stream(alloc, verb, words),
        "moment" | "due" | "next" => plan(alloc, verb, words),
        _ => document(alloc, given, verb, words),
    }
}

/// A line of the input, and the answer to its case. Of a document that is given only the verb is printed.
pub(crate) fn printed(alloc: Global, given: &[u8], row: &str) -> Result<String, AllocError> {
    if row.is_empty() || row.starts_with('#') {
        return String::from_str(alloc, row);
    }
    let (verb, words) = cut(row);
    let text = answer(alloc, given, verb, words)?;
    let shown = if verb == "given" { verb } else { row };
    format!(in alloc; "{shown}: {text}")
}
