ghost use Rattle.std.specs.Prelude.{◌≡◌, Some, None, IfOk, MatchOption, map};
ghost use Rattle.cap_schedule.specs.PublishedRows.{row_with as spec_with, row_of as spec_row, row_in as spec_in, rows_of as spec_rows, set_in as spec_set};

use crate::lines::pieces_of;
use cap_base::{Ident, Row};
use cap_entries::RowSet;
use std::alloc::{AllocError, Global};

// The row of this key and this value.
fn row_with(key: Option<Ident>, value: Option<Ident>) -> Option<Row>
    ensures { result ≡ spec_with key value }
{
    match (key, value) {
        (Some(key), Some(value)) => Some(Row { key, value }),
        _ => None,
    }
}

// The row of these words.
fn row_of(words: &[&[u8]]) -> Option<Row>
    ensures { result ≡ spec_row (map (λ w. w.now) words.now) }
{
    match words {
        [key, value] => row_with(Ident::read(key), Ident::read(value)),
        [_, _, _, ..] => None,
        _ => None,
    }
}

// The row that a text spells.
fn row_in(alloc: Global, text: &[u8]) -> Result<Option<Row>, AllocError>
    ensures { IfOk result (λ o. o ≡ spec_in text.now) }
{
    let words = pieces_of(alloc, text, b'=')?;
    Ok(row_of(&words))
}

// The rows of these texts.
fn rows_of(alloc: Global, texts: &[&[u8]]) -> Result<Option<Vec<Row>>, AllocError>
    ensures { IfOk result (λ found. MatchOption found (spec_rows (map (λ t. t.now) texts.now) ≡ None) (λ rows. spec_rows (map (λ t. t.now) texts.now) ≡ Some rows.items)) }
{
    let mut rows = Vec::new(alloc);
    for text in texts {
        let Some(row) = row_in(alloc, text)? else {
            return Ok(None);
        };
        rows.push(row)?;
    }
    Ok(Some(rows))
}

/// The parameter set that a word spells: 1 to 256 rows `KEY=VALUE` with distinct keys and a comma between two.
pub fn set_in(alloc: Global, text: &[u8]) -> Result<Option<RowSet>, AllocError>
    ensures { IfOk result (λ o. o ≡ spec_set text.now) }
{
    let texts = pieces_of(alloc, text, b',')?;
    let Some(rows) = rows_of(alloc, &texts)? else {
        return Ok(None);
    };
    match RowSet::new(rows) {
        Ok(set) => Ok(Some(set)),
        Err(_) => Ok(None),
    }
}
