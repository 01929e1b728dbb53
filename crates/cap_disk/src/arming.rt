// Which calls of a disk in memory fail, and what is counted of them.
ghost use Rattle.std.specs.Prelude.{◌≡◌, ◌≤◌, ◌<◌, ◌+◌, ◌-◌, ◌^◌, ℕ, true, false, Some, None, IsSome, IsTrue, IsErr, OnOk, OnErr, if◌then◌else◌};
ghost use Rattle.cap_base.specs.Causes.{Rose, HasCause};
ghost use Rattle.cap_disk.specs.Disk.{IsCounted, IsUncounted};

/// What a range that was not synced holds where a call fails.
#[derive(Clone, Copy, Debug, PartialEq, Eq)]
pub enum Fill {
    /// Its old bytes; the length is the old one.
    Old,
    /// What a read gives; the range of a write at the armed call holds what it was to write.
    New,
    /// This byte throughout.
    Byte(u8),
}

/// Which calls are counted down to the armed one.
#[derive(Clone, Copy, Debug, PartialEq, Eq)]
pub enum Counted {
    /// `len`, `read_at`, `write_at` and `sync`.
    All,
    /// `len`, `write_at` and `sync`.
    NoReads,
}

/// The call that is armed.
#[derive(Clone, Copy, Debug, PartialEq, Eq)]
pub struct Plan {
    /// How many calls are left up to the armed one and with it; at 0 nothing is armed.
    pub left: u64,
    pub cuts: bool,
    pub fill: Fill,
    pub counted: Counted,
}

/// Why a call fails.
#[derive(Clone, Copy, Debug, PartialEq, Eq)]
pub enum Fate {
    /// It is the armed one.
    Armed(Fill),
    /// The power was cut before.
    Off,
}

/// Counts calls, and lets the armed one fail.
#[derive(Drop)]
pub struct Switch {
    pub calls: u64,
    pub reads: u64,
    pub faults: u64,
    pub plan: Plan,
    /// The fill of the cut, once the power was cut.
    pub cut: Option<Fill>,
}

impl Switch {
    ghost use Rattle.cap_disk.specs.Switch.{told, IsIdle, CutsNext, one_less, less_read};
    ghost use Rattle.cap_disk.specs.declared.arming.Counted.TheVariants.{All};

    /// Nothing is armed and nothing was counted but faults.
    pub fn new(faults: u64) -> Switch
        ensures told { told result ≡ Some (record { calls = 0; stop = None }) }
        ensures faults { result.faults ≡ faults }
        ensures cut { result.cut ≡ None }
        ensures idle { IsIdle result }
    {
        Switch {
            calls: 0,
            reads: 0,
            faults,
            plan: Plan {
                left: 0,
                cuts: false,
                fill: Fill::Old,
                counted: Counted::NoReads,
            },
            cut: None,
        }
    }

    // Counts a call down, and says whether it is the armed one.
    fn hits(&mut self) -> bool
        ensures calls { self.new.calls ≡ self.old.calls }
        ensures faults { self.new.faults ≡ self.old.faults }
        ensures cut { self.new.cut ≡ self.old.cut }
        ensures plan { self.new.plan ≡ record self.old.plan { left = self.old.plan.left - 1 } }
        ensures hit { IsTrue result → self.old.plan.left ≡ 1 }
        ensures not_hit { result ≡ false → self.old.plan.left ≡ 1 → ⊥ }
    {
        if self.plan.left == 0 {
            return false;
        }
        self.plan.left -= 1;
        self.plan.left == 0
    }

    // The armed call fails.
    fn fail(&mut self) -> Fate
        ensures calls { self.new.calls ≡ self.old.calls }
        ensures later { self.old.faults ≤ self.new.faults }
        ensures rose { Rose self.old.faults self.new.faults }
        ensures cut { self.new.cut ≡ (if self.old.plan.cuts then Some self.old.plan.fill else self.old.cut) }
        ensures plan { self.new.plan ≡ self.old.plan }
    {
        self.faults = self.faults.saturating_add(1);
        if self.plan.cuts {
            self.cut = Some(self.plan.fill);
        }
        Fate::Armed(self.plan.fill)
    }

    /// Counts a call of `len`, `write_at` or `sync`. Err says that it fails.
    pub fn count_call(&mut self) -> Result<(), Fate>
        ensures cause { HasCause self.old.faults self.new.faults result }
        ensures counts { IsCounted (told self.old) (told self.new) result }
        ensures after_cut { IsSome self.old.cut → IsErr result × (self.new.cut ≡ self.old.cut) }
        ensures at_cut { CutsNext self.old.plan → IsErr result × IsSome self.new.cut }
        ensures idle { IsIdle self.old → IsIdle self.new × (self.new.faults ≡ self.old.faults) }
        ensures plan { self.old.cut ≡ None → self.new.plan ≡ one_less self.old.plan }
    {
        self.calls = self.calls.saturating_add(1);
        if self.cut.is_some() {
            self.faults = self.faults.saturating_add(1);
            return Err(Fate::Off);
        }
        if self.hits() {
            Err(self.fail())
        } else {
            Ok(())
        }
    }

    /// Counts a call of `read_at`. Err says that it fails.
    pub fn count_read(&mut self) -> Result<(), Fate>
        ensures cause { HasCause self.old.faults self.new.faults result }
        ensures counts { IsUncounted (told self.old) (told self.new) result }
        ensures after_cut { IsSome self.old.cut → IsErr result × (self.new.cut ≡ self.old.cut) }
        ensures at_cut { self.old.plan.counted ≡ All → CutsNext self.old.plan → IsErr result × IsSome self.new.cut }
        ensures idle { IsIdle self.old → IsIdle self.new × (self.new.faults ≡ self.old.faults) }
        ensures plan { self.old.cut ≡ None → self.new.plan ≡ less_read self.old.plan }
    {
        self.reads = self.reads.saturating_add(1);
        if self.cut.is_some() {
            self.faults = self.faults.saturating_add(1);
            return Err(Fate::Off);
        }
        if self.plan.counted == Counted::NoReads {
            return Ok(());
        }
        if self.hits() {
            Err(self.fail())
        } else {
            Ok(())
        }
    }
}
