ghost use Rattle.std.specs.Prelude.{◌≡◌, ◌++◌, ◌<◌, ◌+◌, ◌^◌, ℕ, true, false, length, IfOk};
ghost use Rattle.cap_entries.specs.Log.{log};
ghost use Rattle.cap_world.specs.World.{HostState};
ghost use Rattle.cap_plays.specs.Plays.{Doubt};
ghost use Rattle.cap_host.specs.Host.{entries_of};
ghost use Rattle.cap_host_lines.specs.Logs.{Keeps, log_text};
ghost use Rattle.cap_power.specs.Standing.{fails};
ghost use Rattle.cap_host_side.specs.Sides.{HostStands};

use crate::side::DiskHost;
use cap_base::{Ident, Memory};
use cap_entries::HostEntry;
use cap_host_lines::put_log as put_log_of;
use cap_power::{OverDisk, Power};
use std::alloc::Global;

// The part of a report on a log of a host that is on, and the log's length.
fn put_log_at(
    alloc: Global,
    text: &mut Vec<u8>,
    id: &Ident,
    host: &mut DiskHost,
    place: u8,
) -> Result<u64, Memory>
    ensures text { IfOk result (λ len. text.new.items ≡ text.old.items ++ log_text id.now (log (entries_of host.old) place)) }
    ensures len { IfOk result (λ len. len ≡ length (log (entries_of host.old) place)) }
    ensures keeps { IfOk result (λ len. Keeps host.old host.new) }
{
    if u64::from(place) >= host.setup().terminals().as_slice().len() as u64 {
        return Err(Memory);
    }
    let len = host.log_len(place);
    match put_log_of(alloc, text, id, host, place) {
        Ok(()) => Ok(len),
        Err(_) => Err(Memory),
    }
}

/// Appends the part of a report on the log of the terminal at a place, whose name this is, and gives the log's length. The host stands as before. The one error is
/// want of memory; then part of the text may stand. A host that is off, or has no such terminal, answers it too. After it the host is in other hands.
pub fn put_log(
    alloc: Global,
    text: &mut Vec<u8>,
    id: &Ident,
    power: &mut Power<DiskHost>,
    place: u8,
) -> Result<u64, Memory>
    requires works { fails ⟦<DiskHost as OverDisk<HostEntry>>⟧.has_failed power.old ≡ false }
    ensures works { fails ⟦<DiskHost as OverDisk<HostEntry>>⟧.has_failed power.new ≡ false }
    ensures text { (most : ℕ) (s : HostState) (doubt : Doubt) → most + 4 < 2 ^ 64 → HostStands ⟦<DiskHost as OverDisk<HostEntry>>⟧.entries ⟦<DiskHost as OverDisk<HostEntry>>⟧.disk ⟦<DiskHost as OverDisk<HostEntry>>⟧.has_failed most power.old s doubt → s.on ≡ true → IfOk result (λ len. HostStands ⟦<DiskHost as OverDisk<HostEntry>>⟧.entries ⟦<DiskHost as OverDisk<HostEntry>>⟧.disk ⟦<DiskHost as OverDisk<HostEntry>>⟧.has_failed most power.new s doubt × (text.new.items ≡ text.old.items ++ log_text id.now (log s.settled place)) × (len ≡ length (log s.settled place))) }
{
    match power.lend() {
        Power::On(host) => {
            let mut host = host;
            let len = put_log_at(alloc, text, id, &mut host, place)?;
            *power = Power::On(host);
            Ok(len)
        }
        Power::Off(_) => Err(Memory),
        Power::Lent => Err(Memory),
    }
}
