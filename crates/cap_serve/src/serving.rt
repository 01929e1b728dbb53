// A host that serves the connections of a link.
ghost use Rattle.std.specs.Prelude.{◌≡◌, ◌≤◌, ◌⊎◌, false, IsErr, MatchResult};
ghost use Rattle.cap_base.specs.Causes.{Rose};
ghost use Rattle.cap_host.specs.Host.{journal_of, has_failed, tells};
ghost use Rattle.cap_serve.specs.Serving.{HostServes, faults_left};

use cap_base::{Clock, Sink};
use cap_drive::{ServeEnd, serve_any};
use cap_entries::HostEntry;
use cap_host::Host;
use cap_journal::Reopen;
use cap_link::Link;
use cap_msgs::reading_is_exact;
use std::alloc::Global;

/// Serves the connections of a link one after the other, at most so many, with a line for each. After a disk fault the host is opened again; its journal comes
/// back exactly where that was refused.
pub fn serve<J: Reopen<HostEntry> + Drop, L: Link, C: Clock, K: Sink>(
    alloc: Global,
    host: Host<J>,
    link: &mut L,
    clock: &mut C,
    out: &mut K,
    connections: u64,
) -> (ServeEnd, Result<Host<J>, J>)
    requires works { has_failed host ≡ false }
    ensures serves { HostServes (C.told clock.old) (L.tells link.old) connections host result.0 result.1 (L.lines link.old) (L.lines link.new) (K.contents out.old) (K.contents out.new) (L.line_faults link.old) (L.line_faults link.new) }
    ensures port { result.0 ≡ ServeEnd.Port → Rose (L.port_faults link.old) (L.port_faults link.new) }
    ensures write { result.0 ≡ ServeEnd.Write → Rose (K.faults out.old) (K.faults out.new) }
    ensures disk { result.0 ≡ ServeEnd.Disk → Rose (J.faults (journal_of host)) (faults_left result.1) }
    ensures back { IsErr result.1 → (result.0 ≡ ServeEnd.Disk) ⊎ (result.0 ≡ ServeEnd.Memory) }
    ensures shut { result.0 ≡ ServeEnd.Disk → IsErr result.1 }
    ensures tells { MatchResult result.1 (λ back. tells back ≡ tells host) (λ journal. J.tells journal ≡ tells host) }
    ensures told { C.told clock.new ≡ C.told clock.old }
    ensures link_tells { L.tells link.new ≡ L.tells link.old }
    ensures disk_later { J.faults (journal_of host) ≤ faults_left result.1 }
    ensures line_later { L.line_faults link.old ≤ L.line_faults link.new }
    ensures port_later { L.port_faults link.old ≤ L.port_faults link.new }
    ensures out_later { K.faults out.old ≤ K.faults out.new }
{
    reading_is_exact();
    let (end, _, back) = serve_any(alloc, host, link, clock, out, connections, 1);
    (end, back)
}
