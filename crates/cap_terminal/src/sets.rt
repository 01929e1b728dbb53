ghost use Rattle.std.specs.Prelude.{◌≡◌};
ghost use Rattle.cap_base.specs.declared.parameters.Row.{Row};
ghost use Rattle.std.specs.List.{list_any};
ghost use Rattle.cap_entries.specs.Floor.{is_floor_row};
ghost use Rattle.cap_terminal.specs.SetsIndex.{floor_in, floor_joined, sets_after, floor_or};

use cap_base::Row;
use cap_entries::floor_row;
use cap_terminal_answers::PartNumbers;

/// What is kept of the parts of parameter sets. A floor is none where no row `FLOOR` stands, and the first such row's money else, if it is any.
#[derive(Clone, Copy)]
pub(crate) struct Sets {
    /// The numbers of the last part.
    pub staged: Option<PartNumbers>,
    /// The floor of the parts of that set that are there.
    pub staged_floor: Option<Option<u64>>,
    /// The version in force; 0 where there is none.
    pub in_force: u64,
    /// The floor of that set.
    pub floor: Option<Option<u64>>,
}

fn names_floor(row: &Row) -> bool
    ensures { result ≡ is_floor_row row.now }
{
    row.key.as_bytes() == b"FLOOR".as_slice()
}

fn have_floor(rows: &[Row]) -> bool
    ensures { result ≡ list_any is_floor_row rows.now }
{
    rows.iter().any(names_floor)
}

/// The floor that rows give: none where there is no row `FLOOR`.
pub(crate) fn floor_of(rows: &[Row]) -> Option<Option<u64>>
    ensures { result ≡ floor_in rows.now }
{
    if have_floor(rows) {
        Some(floor_row(rows))
    } else {
        None
    }
}

impl Sets {
    /// Of no parts.
    pub const NONE: Sets = Sets {
        staged: None,
        staged_floor: None,
        in_force: 0,
        floor: None,
    };

    fn joined(self, numbers: PartNumbers, floor: Option<Option<u64>>) -> Option<Option<u64>>
        ensures { result ≡ floor_joined self numbers floor }
    {
        if numbers.part == 1 {
            return floor;
        }
        match self.staged_floor {
            Some(first) => Some(first),
            None => floor,
        }
    }

    /// With one part more.
    pub fn with_part(self, numbers: PartNumbers, floor: Option<Option<u64>>) -> Sets
        ensures { result ≡ sets_after self numbers floor }
    {
        let joined = self.joined(numbers, floor);
        let whole = numbers.part == numbers.parts;
        Sets {
            staged: Some(numbers),
            staged_floor: joined,
            in_force: if whole {
                numbers.version
            } else {
                self.in_force
            },
            floor: if whole { joined } else { self.floor },
        }
    }

    /// The floor in force, where the set-up has this one.
    pub fn floor_or(self, own: u64) -> u64
        ensures { result ≡ floor_or self.floor own }
    {
        match self.floor {
            Some(Some(floor)) => floor,
            Some(None) | None => own,
        }
    }
}
