// A host as it ships, on a disk in memory.
ghost use Rattle.std.specs.Prelude.{◌≡◌, false, IfSome};
ghost use Rattle.cap_host.specs.Host.{has_failed};

use cap_disk::Fill;
use cap_host_side::{DiskHost, set_up};
use cap_power::{Power, armed};
use cap_schedule::{Prefix, read};
use std::alloc::Global;

const SET_UP: &[u8] =
    b"host ACQ1 limit 500.00 block 411111 poll 60\nterminal T1 max 1000 floor 20.00\n";

// Host ACQ1 of terminal T1, which took nothing yet.
fn new_host(alloc: Global) -> Option<DiskHost>
    ensures { IfSome result (λ host. has_failed host ≡ false) }
{
    let schedule = read(alloc, SET_UP).ok()?;
    match set_up(alloc, &schedule.host).ok()? {
        Power::On(host) => Some(host),
        _ => None,
    }
}

/// A new host. The call of its disk with this number, from 1, fails; at 0 none does.
pub fn host_failing_at(alloc: Global, call: u64) -> Option<DiskHost>
    ensures { IfSome result (λ host. has_failed host ≡ false) }
{
    let host = new_host(alloc)?;
    let prefix = if call == 0 {
        None
    } else {
        Some(Prefix::Fail {
            call,
            fill: Fill::Old,
        })
    };
    armed(alloc, host, prefix).ok()
}
