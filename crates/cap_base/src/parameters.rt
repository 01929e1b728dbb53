ghost use Rattle.std.specs.Prelude.{◌≡◌, ◌≤◌, ◌↔◌, List, IsSome, IfSome, IfOk, length};
ghost use Rattle.cap_base.specs.Rows.{IsPartRows};

use crate::text::Ident;
use std::alloc::{AllocError, Global};
use std::marker::Model;

/// A parameter: its key and its value.
#[derive(Clone, Copy, Debug, PartialEq, Eq)]
pub struct Row {
    pub key: Ident,
    pub value: Ident,
}

/// The rows of a part of a parameter set, 1 to 16.
#[derive(Debug, Drop)]
pub struct Rows {
    rows: Vec<Row>,
}

impl Model for Rows {
    ghost use Rattle.std.specs.Prelude.{List};
    ghost use Rattle.cap_base.specs.declared.parameters.Row.{Row};
    ghost use Rattle.cap_base.specs.Rows.{IsPartRows};

    ghost Value = { List Row };

    ghost view = { λ s. s.rows.items };

    ghost invariant = { λ s. IsPartRows s.rows.items };
}

impl Rows {
    /// These rows, where there are 1 to 16.
    pub fn new(rows: Vec<Row>) -> Option<Rows>
        ensures exact { IsSome result ↔ IsPartRows rows.items }
        ensures value { IfSome result (λ s. s ≡ rows.items) }
    {
        if 1 <= rows.len() && rows.len() <= 16 {
            Some(Rows { rows })
        } else {
            None
        }
    }

    /// The rows, in order.
    pub fn as_slice(&self) -> &[Row]
        ensures rows { result.now ≡ self.now }
        ensures few { IsPartRows self.now }
    {
        &self.rows
    }
}

impl Clone for Rows {
    ghost is_clone = { λ a b. b ≡ a };

    fn clone(&self) -> Result<Rows, AllocError> {
        let rows = self.rows.clone()?;
        Ok(Rows { rows })
    }
}

/// A part of a parameter set: the set's version, the part's number from 1, the number of parts, and the rows.
#[derive(Clone, Debug, Drop)]
pub struct ConfigPart {
    pub version: u64,
    pub part: u64,
    pub parts: u64,
    pub rows: Rows,
}
