// A disk in memory.
use crate::Disk;
use crate::arming::{Counted, Fate, Fill, Plan, Switch};
use crate::recorded::{Call, Recorded};
use cap_base::{Failed, Memory};
use std::alloc::Global;

/// A disk in memory, which tells its contents. It fails at no call but the armed one, and at those after a cut.
#[derive(Drop)]
pub struct MemoryDisk {
    recorded: Recorded,
    switch: Switch,
}

impl MemoryDisk {
    ghost use Rattle.std.specs.Prelude.{false, ◌≡◌, ◌≤◌, ℕ, List, [], IfOk, true, Some, None, IsTrue, ◌↔◌, IsSome};
    ghost use Rattle.cap_disk.specs.Disk.{MayLeave};
    ghost use Rattle.cap_disk.specs.History.{start};
    ghost use Rattle.cap_disk.specs.MemoryDisk.{plan_of, history_of, contents_of, faults_of, room_of, told_of, cut_of, armed, restart_image, record_of, reads_of, IsIdle};

    /// An empty disk, with no room.
    pub fn new(alloc: Global) -> Result<MemoryDisk, Memory>
        ensures contents { IfOk result (λ disk. contents_of disk ≡ start []) }
        ensures counts { IfOk result (λ disk. told_of disk ≡ Some (record { calls = 0; stop = None })) }
        ensures faults { IfOk result (λ disk. faults_of disk ≡ 0) }
        ensures cut { IfOk result (λ disk. cut_of disk ≡ None) }
        ensures idle { IfOk result (λ disk. IsIdle disk) }
    {
        Ok(MemoryDisk {
            recorded: Recorded::new(alloc),
            switch: Switch::new(0),
        })
    }

    /// Lets the power be cut at a call, counted from 1 since this call: that call and all later ones fail. At 0 nothing is armed. It
    /// replaces what was armed, and changes nothing else.
    pub fn arm_cut(&mut self, call: u64, fill: Fill, counted: Counted)
        ensures history { history_of self.new ≡ history_of self.old }
        ensures room { room_of self.new ≡ room_of self.old }
        ensures faults { faults_of self.new ≡ faults_of self.old }
        ensures cut { cut_of self.new ≡ cut_of self.old }
        ensures plan { plan_of self.new ≡ record { left = call; cuts = true; fill = fill; counted = counted } }
        ensures counts { told_of self.new ≡ armed self.old counted call }
    {
        self.switch.plan = Plan {
            left: call,
            cuts: true,
            fill,
            counted,
        };
    }

    /// Lets one call fail, counted from 1 since this call; the range of a write then holds what the fill says. At 0 nothing is armed. It
    /// replaces what was armed, and changes nothing else.
    pub fn arm_fail(&mut self, call: u64, fill: Fill, counted: Counted)
        ensures history { history_of self.new ≡ history_of self.old }
        ensures room { room_of self.new ≡ room_of self.old }
        ensures faults { faults_of self.new ≡ faults_of self.old }
        ensures cut { cut_of self.new ≡ cut_of self.old }
        ensures plan { plan_of self.new ≡ record { left = call; cuts = false; fill = fill; counted = counted } }
        ensures counts { told_of self.new ≡ armed self.old counted call }
    {
        self.switch.plan = Plan {
            left: call,
            cuts: false,
            fill,
            counted,
        };
    }

    /// Whether the power was cut.
    pub fn is_cut(&self) -> bool
        ensures { IsTrue result ↔ IsSome (cut_of self.now) }
    {
        self.switch.cut.is_some()
    }

    /// The disk after the power came back: it holds the image that survived, or what a read gives where nothing was cut. Nothing is armed
    /// on it, it has no room, and its calls count from 0; the count of faults stays.
    pub fn restart(self) -> MemoryDisk
        ensures image { contents_of result ≡ start (restart_image self) }
        ensures left { MayLeave (contents_of self) (restart_image self) }
        ensures uncut { cut_of self ≡ None → restart_image self ≡ (contents_of self).shown }
        ensures counts { told_of result ≡ Some (record { calls = 0; stop = None }) }
        ensures room { room_of result ≡ record { bytes = 0; calls = 0 } }
        ensures faults { faults_of result ≡ faults_of self }
        ensures cut { cut_of result ≡ None }
        ensures idle { IsIdle result }
    {
        MemoryDisk {
            recorded: self.recorded.restart(self.switch.cut),
            switch: Switch::new(self.switch.faults),
        }
    }

    /// The writes and syncs since the last restart, in order.
    pub fn record(&self) -> &[Call]
        ensures { result.now ≡ record_of self.now }
    {
        self.recorded.log.as_slice()
    }

    /// How often `read_at` was called since the last restart.
    pub fn reads(&self) -> u64
        ensures { result ≡ reads_of self.now }
    {
        self.switch.reads
    }
}

impl Disk for MemoryDisk {
    ghost use Rattle.std.proofs.Common.{refl, true};
    ghost use Rattle.std.specs.Prelude.{◌≡◌, ◌≤◌, ◌<◌, ◌+◌, ◌^◌, length, take, drop, None, IsSome, IsTrue, IsErr, IfOk, OnOk, OnErr};
    ghost use Rattle.cap_base.specs.Causes.{HasCause};
    ghost use Rattle.cap_disk.specs.Disk.{MayLeave, Writes, all_synced, Elapses, Uses, HasRoom, IsCounted, IsUncounted};
    ghost use Rattle.cap_disk.specs.History.{start, left_now, left_last, shows_one_after};
    ghost use Rattle.cap_disk.specs.MemoryDisk.{contents_of, moment_of, left_of, room_of, faults_of, told_of, cut_of, plan_of, IsIdle};
    ghost use Rattle.cap_disk.specs.Switch.{CutsNext, one_less, less_read};
    ghost use Rattle.cap_disk.specs.declared.arming.Counted.TheVariants.{All};

    ghost tells = { λ _. true };

    ghost contents = { contents_of };

    ghost moment = { moment_of };

    ghost left_since = { left_of };

    ghost room = { room_of };

    ghost faults = { faults_of };

    ghost counts = { told_of };

    ghost counts_now = { λ disk t image tells le left. left_now (start disk.recorded.first.items) disk.recorded.log.items disk.recorded.bytes.items t image le left };

    ghost only_now = { λ disk image tells left. left_last (start disk.recorded.first.items) disk.recorded.log.items disk.recorded.bytes.items image left };

    ghost shows_one = { λ disk tells. shows_one_after (start disk.recorded.first.items) disk.recorded.log.items disk.recorded.bytes.items refl };

    fn len(&mut self) -> Result<u64, Failed>
        ensures length { IsTrue true → IfOk result (λ n. n ≡ length (contents_of self.old).shown) }
        ensures contents { IsTrue true → contents_of self.new ≡ contents_of self.old }
        ensures time { IsTrue true → Elapses (moment_of self.old) (moment_of self.new) (left_of self.old) (left_of self.new) (MayLeave (contents_of self.new)) }
        ensures room { room_of self.new ≡ room_of self.old }
        ensures cause { HasCause (faults_of self.old) (faults_of self.new) result }
        ensures counts { IsCounted (told_of self.old) (told_of self.new) result }
        ensures after_cut { IsSome (cut_of self.old) → IsErr result × (cut_of self.new ≡ cut_of self.old) }
        ensures at_cut { CutsNext (plan_of self.old) → IsErr result × IsSome (cut_of self.new) }
        ensures idle { IsIdle self.old → IsIdle self.new × (faults_of self.new ≡ faults_of self.old) }
        ensures plan { cut_of self.old ≡ None → plan_of self.new ≡ one_less (plan_of self.old) }
    {
        if self.switch.count_call().is_err() {
            return Err(Failed);
        }
        Ok(self.recorded.shown.len() as u64)
    }

    fn read_at(&mut self, place: u64, buf: &mut [u8]) -> Result<(), Failed>
        requires { IsTrue true → place + length buf.old ≤ length (contents_of self.old).shown }
        ensures bytes { IsTrue true → OnOk result (buf.new ≡ take (length buf.old) (drop place (contents_of self.old).shown)) }
        ensures contents { IsTrue true → contents_of self.new ≡ contents_of self.old }
        ensures time { IsTrue true → Elapses (moment_of self.old) (moment_of self.new) (left_of self.old) (left_of self.new) (MayLeave (contents_of self.new)) }
        ensures room { room_of self.new ≡ room_of self.old }
        ensures cause { HasCause (faults_of self.old) (faults_of self.new) result }
        ensures counts { IsUncounted (told_of self.old) (told_of self.new) result }
        ensures after_cut { IsSome (cut_of self.old) → IsErr result × (cut_of self.new ≡ cut_of self.old) }
        ensures at_cut { (plan_of self.old).counted ≡ All → CutsNext (plan_of self.old) → IsErr result × IsSome (cut_of self.new) }
        ensures idle { IsIdle self.old → IsIdle self.new × (faults_of self.new ≡ faults_of self.old) }
        ensures plan { cut_of self.old ≡ None → plan_of self.new ≡ less_read (plan_of self.old) }
    {
        if self.switch.count_read().is_err() {
            return Err(Failed);
        }
        let from = place as usize;
        buf.copy_from_slice(&self.recorded.shown[from..from + buf.len()]);
        Ok(())
    }

    fn write_at(&mut self, place: u64, bytes: &[u8]) -> Result<(), Failed>
        requires place { IsTrue true → place ≤ length (contents_of self.old).shown }
        requires fits { place + length bytes.now < 2 ^ 63 }
        requires room { HasRoom (length bytes.now) 1 (room_of self.old) }
        ensures written { IsTrue true → Writes place bytes.now result (contents_of self.old) (contents_of self.new) }
        ensures time { IsTrue true → Elapses (moment_of self.old) (moment_of self.new) (left_of self.old) (left_of self.new) (MayLeave (contents_of self.new)) }
        ensures room { Uses (length bytes.now) 1 (room_of self.old) (room_of self.new) }
        ensures cause { HasCause (faults_of self.old) (faults_of self.new) result }
        ensures counts { IsCounted (told_of self.old) (told_of self.new) result }
        ensures after_cut { IsSome (cut_of self.old) → IsErr result × (cut_of self.new ≡ cut_of self.old) }
        ensures at_cut { CutsNext (plan_of self.old) → IsErr result × IsSome (cut_of self.new) }
        ensures idle { IsIdle self.old → IsIdle self.new × (faults_of self.new ≡ faults_of self.old) }
        ensures plan { cut_of self.old ≡ None → plan_of self.new ≡ one_less (plan_of self.old) }
    {
        let len = bytes.len() as u64;
        match self.switch.count_call() {
            Ok(()) => {
                self.recorded.lay(place, bytes);
                Ok(())
            }
            Err(Fate::Armed(Fill::New)) => {
                self.recorded.lay(place, bytes);
                Err(Failed)
            }
            Err(Fate::Armed(Fill::Byte(byte))) => {
                self.recorded.fill(place, len, byte);
                Err(Failed)
            }
            Err(Fate::Armed(Fill::Old)) => {
                self.recorded.note(Call::Blank { place, len }, len);
                Err(Failed)
            }
            Err(Fate::Off) => {
                self.recorded.note(Call::Late { place, len }, len);
                Err(Failed)
            }
        }
    }

    fn sync(&mut self) -> Result<(), Failed>
        requires { HasRoom 0 1 (room_of self.old) }
        ensures synced { IsTrue true → OnOk result (contents_of self.new ≡ all_synced (contents_of self.old)) }
        ensures failed { IsTrue true → OnErr result (contents_of self.new ≡ contents_of self.old) }
        ensures time { IsTrue true → Elapses (moment_of self.old) (moment_of self.new) (left_of self.old) (left_of self.new) (MayLeave (contents_of self.new)) }
        ensures room { Uses 0 1 (room_of self.old) (room_of self.new) }
        ensures cause { HasCause (faults_of self.old) (faults_of self.new) result }
        ensures counts { IsCounted (told_of self.old) (told_of self.new) result }
        ensures after_cut { IsSome (cut_of self.old) → IsErr result × (cut_of self.new ≡ cut_of self.old) }
        ensures at_cut { CutsNext (plan_of self.old) → IsErr result × IsSome (cut_of self.new) }
        ensures idle { IsIdle self.old → IsIdle self.new × (faults_of self.new ≡ faults_of self.old) }
        ensures plan { cut_of self.old ≡ None → plan_of self.new ≡ one_less (plan_of self.old) }
    {
        if self.switch.count_call().is_err() {
            return Err(Failed);
        }
        self.recorded.note(Call::Sync, 0);
        Ok(())
    }

    fn make_room(&mut self, bytes: u64, calls: u64) -> Result<(), Memory> {
        self.recorded.make_room(bytes, calls)
    }
}
