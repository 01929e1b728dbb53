ghost use Rattle.std.specs.Prelude.{◌≡◌, ◌<◌, ◌++◌, IfOk, IfSome, length};
ghost use Rattle.cap_entries.specs.Log.{log, published, setup_of};
ghost use Rattle.cap_entries.specs.HostAllowed.{LegalHost};
ghost use Rattle.cap_host_answers.specs.Received.{place_from};

use cap_base::{Ident, Item, Memory};
use cap_entries::{HostEntry, HostSetup, RowSet};
use std::alloc::Global;

// The log of the terminal at this place.
pub(crate) fn log_of(alloc: Global, entries: &[HostEntry], place: u8) -> Result<Vec<Item>, Memory>
    ensures { IfOk result (λ v. v.items ≡ log entries.now place) }
{
    let mut taken = Vec::new(alloc);
    for entry in entries {
        if let HostEntry::Took { terminal, item } = entry {
            if *terminal == place {
                taken.push(*item)?;
            }
        }
    }
    Ok(taken)
}

// The sets that were published, oldest first.
pub(crate) fn sets_of(alloc: Global, entries: &[HostEntry]) -> Result<Vec<RowSet>, Memory>
    ensures { IfOk result (λ v. v.items ≡ published entries.now) }
{
    let mut sets = Vec::new(alloc);
    for entry in entries {
        if let HostEntry::Published { rows, .. } = entry {
            sets.push(rows.clone()?)?;
        }
    }
    Ok(sets)
}

// How the host was set up.
pub(crate) fn settings(entries: &[HostEntry]) -> &HostSetup
    requires { LegalHost entries.now }
    ensures { result.now ≡ setup_of entries.now }
{
    match entries {
        [HostEntry::Setup(setup), ..] => setup,
        _ => unreachable!(),
    }
}

// The place of a name among these.
fn place_in(names: &[Ident], name: &Ident) -> Option<usize>
    ensures place { result ≡ place_from 0 names.now name.now }
    ensures there { IfSome result (λ place. place < length names.now) }
{
    for (i, other) in names.iter().enumerate() {
        if *other == *name {
            return Some(i);
        }
    }
    None
}

// The place of a terminal's name in the set-up.
pub(crate) fn place_of(setup: &HostSetup, name: &Ident) -> Option<u8>
    ensures { result ≡ place_from 0 setup.now.terminals name.now }
{
    let place = place_in(setup.terminals().as_slice(), name)?;
    Some(place as u8)
}
