ghost use Rattle.std.specs.Prelude.{◌≡◌, ◌≤◌, IfOk, Err};
ghost use Rattle.cap_base.specs.Causes.{Rose};
ghost use Rattle.cap_replay.specs.Replays.{Replays, ReplaysFront, ReplaysSome, SaysFaulty};
ghost use Rattle.cap_replay.specs.Made.{Makes};

use crate::network::Network;
use cap_base::{Memory, Sink};
use cap_disk::MemoryDisk;
use cap_replay::{ReplayFault, make_over, replay_over};
use std::alloc::Global;

/// Runs a schedule over both ends, each over a journal on a disk in memory, writes its text, and gives the disks back: the host's, then those of the
/// terminals in order. `Line` is exactly the first line that isn't in the language, and then nothing is written. `Write` comes where the sink's count of
/// faults rose: a front of the text is written. `Memory` is want of memory: nothing is written, or a front of the text.
pub fn replay<K: Sink>(
    alloc: Global,
    schedule: &[u8],
    out: &mut K,
) -> Result<Vec<MemoryDisk>, ReplayFault>
    ensures ok { IfOk result (λ disks. Replays (K.contents out.old) (K.contents out.new) schedule.now disks.items) }
    ensures line { (k : _) → result ≡ Err (ReplayFault.Line k) → SaysFaulty schedule.now k × (out.new ≡ out.old) }
    ensures write { result ≡ Err ReplayFault.Write → Rose (K.faults out.old) (K.faults out.new) × ReplaysFront (K.contents out.old) (K.contents out.new) schedule.now }
    ensures memory { result ≡ Err ReplayFault.Memory → ReplaysSome (K.contents out.old) (K.contents out.new) schedule.now }
    ensures faults { K.faults out.old ≤ K.faults out.new }
{
    replay_over::<Network, K>(alloc, schedule, out)
}

/// Makes the schedule of so many sales, 1 to 10,000, and runs it: a line that tells the sales and the lines, and the report of the run. The one error is want
/// of memory.
pub fn make(alloc: Global, sales: u64) -> Result<Vec<u8>, Memory>
    requires first { 1 ≤ sales }
    requires last { sales ≤ 10000 }
    ensures { IfOk result (λ text. Makes sales text.items) }
{
    make_over::<Network>(alloc, sales)
}
