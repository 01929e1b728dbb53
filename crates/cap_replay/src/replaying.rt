ghost use Rattle.std.specs.Prelude.{◌≡◌, ◌≤◌, ℕ, List, IfOk, Err};
ghost use Rattle.cap_base.specs.Causes.{Rose};
ghost use Rattle.cap_msgs.specs.Received.{Received};
ghost use Rattle.cap_schedule.specs.Reader.{IsReader};
ghost use Rattle.cap_schedule.specs.Nobodys.{NoiseIsNobodys};
ghost use Rattle.cap_plays.specs.Laws.{InRange};
ghost use Rattle.cap_replay.specs.Replays.{IsPlayedOver, Replays, ReplaysFront, ReplaysSome, SaysFaulty};

use crate::ends::Ends;
use cap_base::{Memory, PutError, Sink};
use cap_disk::MemoryDisk;
use cap_msgs::reading_is_exact;
use cap_plays::play;
use cap_schedule::{Schedule, ScheduleFault, read};
use std::alloc::Global;

/// Why a schedule was not run to its end, or its text not written.
#[derive(Clone, Copy, Debug, PartialEq, Eq)]
pub enum ReplayFault {
    /// The first line that isn't in the language.
    Line(u64),
    /// The sink failed.
    Write,
    /// Memory ran out.
    Memory,
}

// Runs a schedule over ends of its own: its text, and the disks.
fn play_over<N: Ends>(
    alloc: Global,
    schedule: &Schedule,
) -> Result<(Vec<u8>, Vec<MemoryDisk>), Memory>
    requires { InRange schedule.now }
    ensures { IfOk result (λ over. (reads : List ℕ → Received) → IsReader reads → NoiseIsNobodys reads schedule.now → IsPlayedOver reads schedule.now over.0.items over.1.items) }
{
    let mut ends = N::set_up(alloc, schedule)?;
    let text = play(alloc, &mut ends, schedule)?;
    let disks = ends.into_disks(alloc)?;
    Ok((text, disks))
}

/// Runs a schedule over ends of its own, writes its text, and gives the disks back: the host's, then those of the terminals in order. `Line` is exactly
/// the first line that isn't in the language, and then nothing is written. `Write` comes where the sink's count of faults rose: a front of the text is
/// written. `Memory` is want of memory: nothing is written, or a front of the text.
pub fn replay_over<N: Ends, K: Sink>(
    alloc: Global,
    schedule: &[u8],
    out: &mut K,
) -> Result<Vec<MemoryDisk>, ReplayFault>
    ensures ok { IfOk result (λ disks. Replays (K.contents out.old) (K.contents out.new) schedule.now disks.items) }
    ensures line { (k : _) → result ≡ Err (ReplayFault.Line k) → SaysFaulty schedule.now k × (out.new ≡ out.old) }
    ensures write { result ≡ Err ReplayFault.Write → Rose (K.faults out.old) (K.faults out.new) × ReplaysFront (K.contents out.old) (K.contents out.new) schedule.now }
    ensures memory { result ≡ Err ReplayFault.Memory → ReplaysSome (K.contents out.old) (K.contents out.new) schedule.now }
    ensures faults { K.faults out.old ≤ K.faults out.new }
{
    reading_is_exact();
    let schedule = match read(alloc, schedule) {
        Ok(schedule) => schedule,
        Err(ScheduleFault::Line(k)) => return Err(ReplayFault::Line(k)),
        Err(ScheduleFault::Memory) => return Err(ReplayFault::Memory),
    };
    let (text, disks) = match play_over::<N>(alloc, &schedule) {
        Ok(over) => over,
        Err(Memory) => return Err(ReplayFault::Memory),
    };
    match out.put(&text) {
        Ok(()) => Ok(disks),
        Err(PutError::Failed) => Err(ReplayFault::Write),
        Err(PutError::Memory) => Err(ReplayFault::Memory),
    }
}
