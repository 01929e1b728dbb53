// The tables of the nineteen messages.
use crate::words::none;
use cap_leaf::{Kind, Node};
use cap_text::message_number;
use cap_trees::{schema_of, schemas_hold};
use std::alloc::{AllocError, Global};

static KINDS: [Kind; 19] = [
    Kind::Caaa001,
    Kind::Caaa002,
    Kind::Caaa003,
    Kind::Caaa004,
    Kind::Caaa005,
    Kind::Caaa006,
    Kind::Caaa007,
    Kind::Caaa008,
    Kind::Caaa009,
    Kind::Caaa010,
    Kind::Caaa011,
    Kind::Caaa012,
    Kind::Caaa013,
    Kind::Caaa014,
    Kind::Caaa015,
    Kind::Catm001,
    Kind::Catm002,
    Kind::Catm003,
    Kind::Catm004,
];

/// The message of a number, as `caaa.001`.
pub(crate) fn kind_of(number: &str) -> Option<Kind> {
    for kind in KINDS.as_slice() {
        if message_number(*kind) == number {
            return Some(*kind);
        }
    }
    None
}

// The element that a table has alone, and the two inside it.
fn elements(alloc: Global, nodes: &[Node]) -> Result<String, AllocError> {
    match nodes {
        [message] => match message.shape.table() {
            [header, body] => format!(in alloc;
                "{} of {} and {}",
                message.tag, header.tag, body.tag
            ),
            _ => String::from_str(alloc, "other than two parts"),
        },
        _ => String::from_str(alloc, "other than one element"),
    }
}

pub(crate) fn table(alloc: Global, number: &str) -> Result<String, AllocError> {
    match kind_of(number) {
        Some(kind) => elements(alloc, schema_of(kind)),
        None => none(alloc),
    }
}

pub(crate) fn all_hold(alloc: Global) -> Result<String, AllocError> {
    let hold = schemas_hold();
    format!(in alloc; "{hold}")
}
