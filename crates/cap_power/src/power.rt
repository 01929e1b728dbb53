use cap_disk::MemoryDisk;
use cap_schedule::Outcome;
use std::mem::replace;

/// An end with its power.
#[derive(Drop)]
pub enum Power<T: Drop> {
    On(T),
    /// Off, or refused by its disk: the disk alone.
    Off(MemoryDisk),
    /// In other hands.
    Lent,
}

impl<T: Drop> Power<T> {
    ghost use Rattle.std.specs.Prelude.{◌≡◌};

    /// Takes the end.
    pub fn lend(&mut self) -> Power<T>
        ensures taken { result ≡ self.old }
        ensures lent { self.new ≡ Power.Lent }
    {
        replace(self, Power::Lent)
    }
}

/// What became of an end in a line, and what the line says.
#[derive(Drop)]
pub struct Settled<T: Drop> {
    pub power: Power<T>,
    pub outcome: Outcome,
}
