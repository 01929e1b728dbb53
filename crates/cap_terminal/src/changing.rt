ghost use Rattle.std.specs.Prelude.{◌≡◌};
ghost use Rattle.cap_terminal.specs.Index.{change_of};
ghost use Rattle.cap_entries.specs.declared.terminal.TermEntry.TheVariants.{Part};

use crate::change::Change;
use crate::sets::floor_of;
use cap_base::ConfigPart;
use cap_entries::TermEntry;
use cap_terminal_answers::PartNumbers;

fn staging(part: &ConfigPart) -> Change
    ensures { result ≡ change_of (Part part.now) }
{
    Change::Stage {
        numbers: PartNumbers {
            version: part.version,
            part: part.part,
            parts: part.parts,
        },
        floor: floor_of(part.rows.as_slice()),
    }
}

/// What an entry changes.
pub(crate) fn change(entry: &TermEntry) -> Change
    ensures { result ≡ change_of entry.now }
{
    match entry {
        TermEntry::Setup(_) => Change::Nothing,
        TermEntry::Begin {
            amount,
            account,
            ..
        } => Change::Begin {
            amount: *amount,
            account: *account,
        },
        TermEntry::Declined { n } => Change::Decline { n: *n },
        TermEntry::Completed { n, code } => Change::Complete { n: *n, code: *code },
        TermEntry::Voided { n } => Change::GiveUp { n: *n },
        TermEntry::Cancelled { n } => Change::TakeBack { n: *n },
        TermEntry::Closed { p } => Change::Close { p: *p },
        TermEntry::Acked { m } => Change::Acknowledge { m: *m },
        TermEntry::Part(part) => staging(part),
    }
}
