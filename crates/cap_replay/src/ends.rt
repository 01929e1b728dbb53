ghost use Rattle.std.specs.Prelude.{IfOk};
ghost use Rattle.cap_plays.specs.Turns.{Scene};
ghost use Rattle.cap_plays.specs.Plays.{Doubts, first_scene, first_doubts};
ghost use Rattle.cap_plays.specs.Laws.{InRange, AllOn};
ghost use Rattle.cap_replay.specs.Disks.{DisksHold};

use cap_base::Memory;
use cap_disk::MemoryDisk;
use cap_plays::Network;
use cap_schedule::Schedule;
use std::alloc::Global;

/// A network over disks in memory, which it makes itself and gives back.
pub trait Ends: Network + Sized {
    /// The ends of a schedule in its first scene, each set up on a disk of its own. The one error is want of memory.
    fn set_up(alloc: Global, schedule: &Schedule) -> Result<Self, Memory>
        requires { InRange schedule.now }
        ensures { IfOk result (λ ends. Self.corresponds ends (first_scene schedule.now) (first_doubts schedule.now)) };

    /// The disks: the host's, then those of the terminals in order. Whatever scene it stands to, in which every end is on: each image that a crash may
    /// leave of a disk has exactly the entries of its end. The one error is want of memory.
    fn into_disks(self, alloc: Global) -> Result<Vec<MemoryDisk>, Memory>
        ensures { IfOk result (λ disks. (w : Scene) (doubts : Doubts) → Self.corresponds self w doubts → AllOn w → DisksHold disks.items w) };
}
