// What a power cut or a failed call at each call of a disk leaves of an append and of a group.
ghost use Rattle.std.specs.Prelude.{◌≡◌, ◌≤◌, [], ◌∷◌, IfOk};
ghost use Rattle.cap_journal_trials.specs.declared.sample.Sample.TheVariants.{Begin, Completed};

use crate::journals::{Trial, add, new_journal};
use crate::words::{cut, number, text};
use cap_base::Memory;
use cap_disk::{Counted, Fill, MemoryDisk};
use cap_journal::{DiskJournal, Journal, Reopen};
use cap_journal_trials::Sample;
use std::alloc::{AllocError, Global};

/// A group of three.
pub(crate) fn three(alloc: Global) -> Result<Vec<Sample>, AllocError>
    ensures { IfOk result (λ added. added.items ≡ Begin ∷ Completed ∷ Begin ∷ []) }
{
    let mut added = Vec::new(alloc);
    added.push(Sample::Begin)?;
    added.push(Sample::Completed)?;
    added.push(Sample::Begin)?;
    Ok(added)
}

// Adds one entry, or a group of three, and says whether it was answered Ok.
fn add_some(journal: &mut Trial<Sample>, alone: bool, group: Vec<Sample>) -> bool
    requires room { 3 ≤ (⟦<DiskJournal<Sample, MemoryDisk> as Journal<Sample>>⟧.spare journal.old).small }
    requires group { group.items ≡ Begin ∷ Completed ∷ Begin ∷ [] }
{
    if alone {
        return journal.append(Sample::Begin).is_ok();
    }
    journal.append_group(group).is_ok()
}

// A journal with one entry.
fn journal_of_one(alloc: Global) -> Option<Trial<Sample>> {
    let mut journal = new_journal(alloc)?;
    add(&mut journal, Sample::Setup)?;
    Some(journal)
}

// The call that fails: its number, what it leaves, and whether it cuts the power.
#[derive(Clone, Copy)]
struct Fault {
    call: u64,
    fill: Fill,
    cuts: bool,
}

// Lets the call fail, and adds.
fn add_at(
    journal: &mut Trial<Sample>,
    fault: Fault,
    alone: bool,
    group: Vec<Sample>,
) -> Option<bool>
    requires { group.items ≡ Begin ∷ Completed ∷ Begin ∷ [] }
{
    journal.reserve(3).ok()?;
    if fault.cuts {
        journal.arm_cut(fault.call, fault.fill, Counted::NoReads);
    } else {
        journal.arm_fail(fault.call, fault.fill, Counted::NoReads);
    }
    Some(add_some(journal, alone, group))
}

// How many entries there are once the power is back.
fn count_after_cut(alloc: Global, journal: Trial<Sample>) -> Option<u64> {
    let disk = journal.into_disk();
    let opened: Result<Trial<Sample>, _> = DiskJournal::open(alloc, disk.restart());
    match opened {
        Ok(journal) => Some(journal.count()),
        Err(_) => None,
    }
}

// How many entries there are once a journal that failed was opened again.
fn count_after_failure(journal: &mut Trial<Sample>, ok: bool) -> Option<u64> {
    if !ok {
        journal.reopen().ok()?;
    }
    Some(journal.count())
}

fn count_after(alloc: Global, fault: Fault, alone: bool) -> Option<(bool, u64)> {
    let mut journal = journal_of_one(alloc)?;
    let group = three(alloc).ok()?;
    let ok = add_at(&mut journal, fault, alone, group)?;
    let count = if fault.cuts {
        count_after_cut(alloc, journal)
    } else {
        count_after_failure(&mut journal, ok)
    };
    count.map(|count| (ok, count))
}

/// What a write that fails leaves in its range.
pub(crate) fn fill_of(word: &str) -> Fill {
    match word {
        "old" => Fill::Old,
        "new" => Fill::New,
        "a5" => Fill::Byte(0xa5),
        _ => Fill::Byte(0),
    }
}

/// A journal of one entry to which one is added, or a group of three, while a call fails: whether that is a cut, the number of the call, what
/// it leaves, and whether one entry is added alone.
pub(crate) fn left(alloc: Global, words: &str) -> Result<String, Memory> {
    let (kind, words) = cut(words, ' ');
    let (call, words) = cut(words, ' ');
    let (fill, added) = cut(words, ' ');
    let fault = Fault {
        call: number(call),
        fill: fill_of(fill),
        cuts: kind == "cut",
    };
    match count_after(alloc, fault, added == "alone") {
        Some((true, count)) => Ok(format!(in alloc; "answered Ok, {count} entries")?),
        Some((false, count)) => Ok(format!(in alloc; "answered Err, {count} entries")?),
        None => text(alloc, "no journal"),
    }
}
