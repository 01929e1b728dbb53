ghost use Rattle.std.specs.Prelude.{◌≡◌, true, Option};
ghost use Rattle.std.specs.List.{list_any};
ghost use Rattle.cap_entries.specs.Rows.{has_key, first_repeated, is_row_set};
ghost use Rattle.cap_entries.specs.RowSet.{row_set_of};

use cap_base::{Ident, Row};
use std::alloc::AllocError;
use std::marker::Model;

/// Why rows are no parameter set.
#[derive(Clone, Copy, Debug, PartialEq, Eq)]
pub enum RowFault {
    /// There is no row.
    Empty,
    /// There are so many rows, more than 256.
    TooMany(u64),
    /// The key of this row, counted from 0, stood in one before it. It is the first such row.
    Repeated(u64),
    /// Memory ran out.
    Memory,
}

/// The rows of a parameter set: 1 to 256, no two with one key.
#[derive(Debug, Drop)]
pub struct RowSet {
    rows: Vec<Row>,
}

impl Model for RowSet {
    ghost use Rattle.std.specs.Prelude.{◌≡◌, true, List};
    ghost use Rattle.cap_base.specs.declared.parameters.Row.{Row};
    ghost use Rattle.cap_entries.specs.Rows.{is_row_set};

    ghost Value = { List Row };

    ghost view = { λ s. s.rows.items };

    ghost invariant = { λ s. is_row_set s.rows.items ≡ true };
}

fn is_keyed(row: &Row, key: &Ident) -> bool
    ensures { result ≡ has_key key.now row.now }
{
    row.key == *key
}

fn key_stands_in(rows: &[Row], key: &Ident) -> bool
    ensures { result ≡ list_any (has_key key.now) rows.now }
{
    rows.iter().any(|row| is_keyed(row, key))
}

// The place of the first row whose key stands in one before it.
fn repeated(rows: &[Row]) -> Option<usize>
    ensures { result ≡ first_repeated rows.now }
{
    for (i, row) in rows.iter().enumerate() {
        if key_stands_in(&rows[..i], &row.key) {
            return Some(i);
        }
    }
    None
}

impl RowSet {
    ghost use Rattle.cap_entries.specs.RowSet.{row_set_of};

    /// A set of these rows. The first of these holds: `Empty` for no row, `TooMany` for more than 256, `Repeated` for the first row whose key
    /// stood before, else Ok. It takes no memory.
    pub fn new(rows: Vec<Row>) -> Result<RowSet, RowFault>
        ensures { result ≡ row_set_of rows.items }
    {
        if rows.is_empty() {
            return Err(RowFault::Empty);
        }
        if rows.len() > 256 {
            return Err(RowFault::TooMany(rows.len() as u64));
        }
        match repeated(&rows) {
            Some(i) => Err(RowFault::Repeated(i as u64)),
            None => Ok(RowSet { rows }),
        }
    }

    /// The rows, in order.
    pub fn as_slice(&self) -> &[Row]
        ensures rows { result.now ≡ self.now }
        ensures rule { is_row_set self.now ≡ true }
    {
        &self.rows
    }
}

impl Clone for RowSet {
    ghost is_clone = { λ a b. b ≡ a };

    fn clone(&self) -> Result<RowSet, AllocError> {
        let rows = self.rows.clone()?;
        Ok(RowSet { rows })
    }
}
