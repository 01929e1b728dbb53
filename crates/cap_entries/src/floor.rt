ghost use Rattle.std.specs.Prelude.{◌≡◌, Option, bytes_eq, codes};
ghost use Rattle.cap_base.specs.Amount.{money_of};
ghost use Rattle.cap_entries.specs.Rows.{has_key};
ghost use Rattle.cap_entries.specs.Floor.{is_floor_row, floor_row, or_else};

use cap_base::{Row, read_decimal};

fn names_floor(row: &Row) -> bool
    ensures { result ≡ is_floor_row row.now }
{
    row.key.as_bytes() == b"FLOOR".as_slice()
}

/// The hundredths that the first row `FLOOR` gives, where there is one and its value is an amount or zero.
pub fn floor_row(rows: &[Row]) -> Option<u64>
    ensures { result ≡ floor_row rows.now }
{
    for row in rows {
        if names_floor(row) {
            return read_decimal(row.value.as_bytes(), 10);
        }
    }
    None
}
