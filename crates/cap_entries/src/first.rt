ghost use Rattle.std.specs.Prelude.{◌≡◌, ◌↔◌, [], true, None, IfOk};
ghost use Rattle.cap_entries.specs.Allowed.{Legal, all_allowed};
ghost use Rattle.cap_entries.specs.HostAllowed.{LegalHost, all_host_allowed};
ghost use Rattle.cap_entries.specs.FirstNotAllowed.{first_not_allowed, first_host_not_allowed};

use crate::host::HostEntry;
use crate::host_judge::HostJudge;
use crate::judge::TermJudge;
use crate::terminal::TermEntry;
use cap_base::Memory;
use std::alloc::Global;

fn first_of(alloc: Global, entries: &[TermEntry]) -> Result<Option<usize>, Memory>
    ensures { IfOk result (λ first. first ≡ first_not_allowed entries.now) }
{
    if entries.is_empty() {
        return Ok(Some(0));
    }
    let mut judge = TermJudge::new(alloc);
    for (i, entry) in entries.iter().enumerate() {
        if !judge.allows(entry) {
            return Ok(Some(i));
        }
        judge.add(entry)?;
    }
    Ok(None)
}

/// The first of a terminal's entries that is not allowed after those before it, counted from 0; 0 where there is no entry. None exactly where the
/// entries are a terminal's journal.
pub fn first_not_allowed(alloc: Global, entries: &[TermEntry]) -> Result<Option<usize>, Memory>
    ensures exact { IfOk result (λ first. first ≡ first_not_allowed entries.now) }
    ensures legal { IfOk result (λ first. (first ≡ None) ↔ Legal entries.now) }
    ensures allowed { IfOk result (λ first. first ≡ None → all_allowed [] entries.now ≡ true) }
{
    first_of(alloc, entries)
}

fn first_host_of(alloc: Global, entries: &[HostEntry]) -> Result<Option<usize>, Memory>
    ensures { IfOk result (λ first. first ≡ first_host_not_allowed entries.now) }
{
    if entries.is_empty() {
        return Ok(Some(0));
    }
    let mut judge = HostJudge::new(alloc);
    for (i, entry) in entries.iter().enumerate() {
        if !judge.allows(entry) {
            return Ok(Some(i));
        }
        judge.add(entry)?;
    }
    Ok(None)
}

/// The first of a host's entries that is not allowed after those before it, counted from 0; 0 where there is no entry. None exactly where the
/// entries are a host's journal.
pub fn first_host_not_allowed(alloc: Global, entries: &[HostEntry]) -> Result<Option<usize>, Memory>
    ensures exact { IfOk result (λ first. first ≡ first_host_not_allowed entries.now) }
    ensures legal { IfOk result (λ first. (first ≡ None) ↔ LegalHost entries.now) }
    ensures allowed { IfOk result (λ first. first ≡ None → all_host_allowed [] entries.now ≡ true) }
{
    first_host_of(alloc, entries)
}
