// Whether an entry fits its record: a test that callers may make, and what the types of its fields say of it.
ghost use Rattle.std.specs.Prelude.{◌≡◌, true};
ghost use Rattle.std.specs.List.{list_all};
ghost use Rattle.cap_base.specs.Text.{is_ident, is_account};
ghost use Rattle.cap_entries.specs.RecordField.{is_count as count_test, is_amount, is_row, is_share as share_test};
ghost use Rattle.cap_entries.specs.TermRecord.{is_settings_field, are_part_rows, is_part as part_test, has_term_types, term_fits};

use crate::terminal::{TermEntry, TermSetup};
use cap_base::{Account, Amount, ConfigPart, Ident, Row};

fn is_count(n: u64) -> bool
    ensures { result ≡ count_test n }
{
    n <= 9_999_999_999
}

fn is_share(n: u64) -> bool
    ensures { result ≡ share_test n }
{
    1 <= n && n <= 16
}

// A value of a type keeps the rule of its type: these tests are true.

fn is_spelt(name: &Ident) -> bool
    ensures value { result ≡ is_ident name.now }
    ensures rule { result ≡ true }
{
    let _ = name.as_bytes();
    true
}

fn is_row_spelt(row: &Row) -> bool
    ensures value { result ≡ is_row row.now }
    ensures rule { result ≡ true }
{
    is_spelt(&row.key) && is_spelt(&row.value)
}

fn rows_are_spelt(rows: &[Row])
    ensures { list_all is_row rows.now ≡ true }
{
    for row in rows {
        is_row_spelt(row);
    }
}

fn is_part(part: &ConfigPart) -> bool
    ensures value { result ≡ part_test part.now }
    ensures rows { are_part_rows part.now.rows ≡ true }
{
    rows_are_spelt(part.rows.as_slice());
    is_count(part.version) && (is_share(part.part) && is_share(part.parts))
}

fn settings_are_spelt(settings: &TermSetup)
    ensures { is_settings_field settings.now ≡ true }
{
    is_spelt(&settings.terminal());
    is_spelt(&settings.host());
}

fn sale_is_spelt(amount: Amount, account: &Account)
    ensures amount { is_amount amount ≡ true }
    ensures account { is_account account.now ≡ true }
{
    let _ = amount.hundredths();
    let _ = account.as_bytes();
}

impl TermEntry {
    /// Whether the entry fits its record: its numbers have at most ten digits, and those of a part are 1 to 16. All else is the rule of
    /// its fields' types.
    pub fn fits_record(&self) -> bool
        ensures value { result ≡ term_fits self.now }
        ensures types { has_term_types self.now ≡ true }
    {
        match self {
            TermEntry::Setup(settings) => {
                settings_are_spelt(settings);
                true
            }
            TermEntry::Begin { n, amount, account } => {
                sale_is_spelt(*amount, account);
                is_count(*n)
            }
            TermEntry::Completed { n, code } => {
                let _ = code.as_bytes();
                is_count(*n)
            }
            TermEntry::Declined { n } => is_count(*n),
            TermEntry::Voided { n } => is_count(*n),
            TermEntry::Cancelled { n } => is_count(*n),
            TermEntry::Closed { p } => is_count(*p),
            TermEntry::Acked { m } => is_count(*m),
            TermEntry::Part(part) => is_part(part),
        }
    }
}
