ghost use Rattle.std.specs.Prelude.{◌≡◌, ◌≤◌, ◌∷◌, [], true, false, IfErr, OnOk};
ghost use Rattle.cap_entries.specs.Allowed.{allowed};
ghost use Rattle.cap_entries.specs.TermRecord.{has_term_types, has_version};
ghost use Rattle.std.specs.List.{list_all};
ghost use Rattle.cap_entries.specs.RecordField.{is_row};
ghost use Rattle.cap_terminal.specs.Adding.{Adds, ending, entry_as, room_as};
ghost use Rattle.cap_terminal.specs.Causes.{IsEntryCause};
ghost use Rattle.cap_terminal.specs.Room.{HasRoom, HasOtherRoom, wanted};
ghost use Rattle.cap_terminal.specs.Stands.{Stands};
ghost use Rattle.cap_entries.specs.declared.terminal.TermEntry.TheVariants.{Setup, Begin, Completed, Part};

use crate::changing::change;
use crate::faults::EntryFault;
use crate::index::Index;
use cap_base::{Account, Amount, Code6, ConfigPart, Row};
use cap_entries::{TermEntry, TermSetup};
use cap_journal::Journal;

/// Adds an entry that is allowed and for which there is room. The index follows it once every image has it.
pub(crate) fn add_entry<J: Journal<TermEntry>>(
    journal: &mut J,
    index: &mut Index,
    failed: &mut bool,
    entry: TermEntry,
) -> Result<(), EntryFault>
    requires stands { Stands J.Journal journal.old index.old failed.old }
    requires allowed { allowed (J.entries journal.old) entry ≡ true }
    requires version { has_version entry ≡ true }
    requires room { HasRoom index.old (J.spare journal.old) entry }
    ensures stands { Stands J.Journal journal.new index.new failed.new }
    ensures adds { Adds J.Journal journal.old journal.new (entry ∷ []) (ending entry_as result) }
    ensures answers { OnOk result (J.has_failed journal.old ≡ false) }
    ensures refused { IfErr result (IsEntryCause (J.has_failed journal.old)) }
    ensures fetched { J.fetched journal.new ≡ J.fetched journal.old }
{
    if *failed {
        return Err(EntryFault::Failed);
    }
    check_types(&entry);
    let follows = change(&entry);
    match journal.append(entry) {
        Ok(()) => {
            index.apply(follows);
            Ok(())
        }
        Err(_) => {
            *failed = true;
            Err(EntryFault::Disk)
        }
    }
}

/// Why an entry was not added for which room had to be made.
#[derive(Clone, Copy)]
pub(crate) enum RoomFault {
    Memory,
    Disk,
}

/// Makes room in the journal for an entry that is allowed, beside what the sales may still need, and adds it. Want of memory changes nothing.
pub(crate) fn reserve_and_add<J: Journal<TermEntry>>(
    journal: &mut J,
    index: &mut Index,
    failed: &mut bool,
    more: u64,
    entry: TermEntry,
) -> Result<(), RoomFault>
    requires stands { Stands J.Journal journal.old index.old failed.old }
    requires works { J.has_failed journal.old ≡ false }
    requires allowed { allowed (J.entries journal.old) entry ≡ true }
    requires version { has_version entry ≡ true }
    requires more { more ≡ wanted entry }
    requires few { more ≤ 3 }
    requires room { HasOtherRoom index.old (J.spare journal.old) entry }
    ensures stands { Stands J.Journal journal.new index.new failed.new }
    ensures adds { Adds J.Journal journal.old journal.new (entry ∷ []) (ending room_as result) }
    ensures fetched { J.fetched journal.new ≡ J.fetched journal.old }
{
    match journal.reserve((index.owed + more) as usize) {
        Ok(()) => match add_entry(journal, index, failed, entry) {
            Ok(()) => Ok(()),
            Err(_) => Err(RoomFault::Disk),
        },
        Err(_) => Err(RoomFault::Memory),
    }
}

/// The same for a part of a parameter set, whose record may be a large one. Want of memory changes nothing.
pub(crate) fn reserve_rows_and_add<J: Journal<TermEntry>>(
    journal: &mut J,
    index: &mut Index,
    failed: &mut bool,
    part: ConfigPart,
) -> Result<(), RoomFault>
    requires stands { Stands J.Journal journal.old index.old failed.old }
    requires works { J.has_failed journal.old ≡ false }
    requires allowed { allowed (J.entries journal.old) (Part part) ≡ true }
    requires version { has_version (Part part) ≡ true }
    ensures stands { Stands J.Journal journal.new index.new failed.new }
    ensures adds { Adds J.Journal journal.old journal.new (Part part ∷ []) (ending room_as result) }
    ensures fetched { J.fetched journal.new ≡ J.fetched journal.old }
{
    match journal.reserve_rows() {
        Ok(()) => reserve_and_add(journal, index, failed, 1, TermEntry::Part(part)),
        Err(_) => Err(RoomFault::Memory),
    }
}

// What the types of fields say of their values, their readers tell.
fn check_setup(setup: &TermSetup)
    ensures { has_term_types (Setup setup.now) ≡ true }
{
    let terminal = setup.terminal();
    let host = setup.host();
    let _ = terminal.as_bytes();
    let _ = host.as_bytes();
}

fn check_begin(n: u64, amount: Amount, account: &Account)
    ensures { has_term_types (Begin n amount account.now) ≡ true }
{
    let _ = amount.hundredths();
    let _ = account.as_bytes();
}

fn check_code(n: u64, code: &Code6)
    ensures { has_term_types (Completed n code.now) ≡ true }
{
    let _ = code.as_bytes();
}

fn check_row(row: &Row)
    ensures { is_row row.now ≡ true }
{
    let _ = row.key.as_bytes();
    let _ = row.value.as_bytes();
}

fn check_rows(rows: &[Row])
    ensures { list_all is_row rows.now ≡ true }
{
    for row in rows {
        check_row(row);
    }
}

fn check_part(part: &ConfigPart)
    ensures { has_term_types (Part part.now) ≡ true }
{
    check_rows(part.rows.as_slice());
}

fn check_types(entry: &TermEntry)
    ensures { has_term_types entry.now ≡ true }
{
    match entry {
        TermEntry::Setup(setup) => check_setup(setup),
        TermEntry::Begin { n, amount, account } => check_begin(*n, *amount, account),
        TermEntry::Completed { n, code } => check_code(*n, code),
        TermEntry::Part(part) => check_part(part),
        _ => {}
    }
}
