ghost use Rattle.std.specs.Prelude.{◌≡◌, ◌≤◌, ◌<◌, ◌+◌, ◌∷◌, ◌^◌, ℕ, List, [], true, false, IsOk, IfOk, OnOk};
ghost use Rattle.cap_leaf.specs.Date.{DateParts};
ghost use Rattle.cap_msgs.specs.declared.message.Message.{Message};
ghost use Rattle.cap_msgs.specs.Moment.{IsMoment};
ghost use Rattle.cap_msgs.specs.Received.{Received};
ghost use Rattle.cap_journal.specs.File.{Has};
ghost use Rattle.cap_entries.specs.TermRecord.{term_reading};
ghost use Rattle.cap_world.specs.World.{TerminalState, started};
ghost use Rattle.cap_plays.specs.Turns.{turn_of};
ghost use Rattle.cap_plays.specs.Plays.{Doubt, no_doubt};
ghost use Rattle.cap_plays.specs.Corresponds.{EachHas, end_fate, answered, places_after};
ghost use Rattle.cap_plays.specs.Texts.{IsTextOf};
ghost use Rattle.cap_schedule.specs.Reader.{IsReader};
ghost use Rattle.cap_schedule.specs.Ranges.{OrderInRange};
ghost use Rattle.cap_power.specs.Images.{images_of};
ghost use Rattle.cap_power.specs.Standing.{fails};
ghost use Rattle.cap_power.specs.declared.power.Power.TheVariants.{On as IsOn};
ghost use Rattle.cap_terminal_lines.specs.Acts.{IsNoiseTo};
ghost use Rattle.cap_terminal_side.specs.Sides.{SideStands, SideMeets, Passes, Does, Reopens};

use crate::keeping::{keep, parted};
use cap_base::Memory;
use cap_disk::MemoryDisk;
use cap_entries::{TermEntry, TermSetup};
use cap_journal::DiskJournal;
use cap_plays::moment_of;
use cap_power::{OverDisk, Power, armed, disk_of, journal_of, reopen, settle};
use cap_schedule::{Order, Outcome, Prefix};
use cap_terminal::Terminal;
use cap_terminal_lines::act;
use std::alloc::Global;

/// A terminal over a journal on a disk in memory.
pub type DiskTerminal = Terminal<DiskJournal<TermEntry, MemoryDisk>>;

/// A terminal with its power, and the texts of all messages that it sent and of the answers that count.
#[derive(Drop)]
pub struct Side {
    pub power: Power<DiskTerminal>,
    pub sent: Vec<Vec<u8>>,
    pub answers: Vec<Vec<u8>>,
    /// Where it is on, no call of its disk has failed.
    ghost works: { fails ⟦<DiskTerminal as OverDisk<TermEntry>>⟧.has_failed power ≡ false },
}

impl Side {
    /// A terminal of its set-up alone: it is on, has sent nothing and heard nothing. The one error is want of memory.
    pub fn set_up(alloc: Global, setup: &TermSetup) -> Result<Side, Memory>
        ensures { IfOk result (λ side. SideStands ⟦<DiskTerminal as OverDisk<TermEntry>>⟧.entries ⟦<DiskTerminal as OverDisk<TermEntry>>⟧.disk ⟦<DiskTerminal as OverDisk<TermEntry>>⟧.has_failed 7 side.power side.sent side.answers (started setup.now) [] (no_doubt 0)) }
    {
        let entry = TermEntry::Setup(*setup);
        // a set-up always fits its record
        let _ = entry.fits_record();
        let journal = journal_of(alloc, entry)?;
        match Terminal::open(alloc, journal) {
            Ok(terminal) => Ok(Side {
                power: Power::On(terminal),
                sent: Vec::new(alloc),
                answers: Vec::new(alloc),
            }),
            Err(_) => Err(Memory),
        }
    }

    // Does what a line asks of a terminal that is on.
    fn act_on(
        &mut self,
        alloc: Global,
        terminal: DiskTerminal,
        moment: u64,
        prefix: Option<Prefix>,
        order: &Order,
    ) -> Result<Outcome, Memory>
        requires moment { moment ≤ 253402300799 }
        requires range { OrderInRange order.now }
        requires works { ⟦<DiskTerminal as OverDisk<TermEntry>>⟧.has_failed terminal ≡ false }
        ensures { (reads : List ℕ → Received) (most : ℕ) (s : TerminalState) (places : List ℕ) (doubt : Doubt) → IsReader reads → most + 8 < 2 ^ 64 → IsNoiseTo reads s.settled order.now → SideStands ⟦<DiskTerminal as OverDisk<TermEntry>>⟧.entries ⟦<DiskTerminal as OverDisk<TermEntry>>⟧.disk ⟦<DiskTerminal as OverDisk<TermEntry>>⟧.has_failed most (IsOn terminal) self.old.sent self.old.answers s places doubt → IfOk result (λ outcome. (created : DateParts) × IsMoment moment created × SideMeets ⟦<DiskTerminal as OverDisk<TermEntry>>⟧.entries ⟦<DiskTerminal as OverDisk<TermEntry>>⟧.disk ⟦<DiskTerminal as OverDisk<TermEntry>>⟧.has_failed (most + 8) self.new.power self.new.sent self.new.answers places outcome (end_fate prefix s (turn_of reads s places moment created order.now))) }
    {
        let mut terminal = armed(alloc, terminal, prefix)?;
        let sent = self.sent.len() as u64;
        let said = act(alloc, &mut terminal, sent, &self.answers, moment, order);
        let (said, text) = parted(said);
        let settled = settle(alloc, terminal, prefix, said)?;
        self.power = settled.power;
        keep(&mut self.sent, prefix, text)?;
        Ok(settled.outcome)
    }

    /// Does what a line asks of the terminal; one that is off is passed over. The one error is want of memory.
    pub fn act(
        &mut self,
        alloc: Global,
        number: u64,
        prefix: Option<Prefix>,
        order: &Order,
    ) -> Result<Outcome, Memory>
        requires number { number ≤ 251702300799 }
        requires range { OrderInRange order.now }
        ensures on { (reads : List ℕ → Received) (most : ℕ) (s : TerminalState) (places : List ℕ) (doubt : Doubt) → IsReader reads → most + 8 < 2 ^ 64 → IsNoiseTo reads s.settled order.now → SideStands ⟦<DiskTerminal as OverDisk<TermEntry>>⟧.entries ⟦<DiskTerminal as OverDisk<TermEntry>>⟧.disk ⟦<DiskTerminal as OverDisk<TermEntry>>⟧.has_failed most self.old.power self.old.sent self.old.answers s places doubt → s.on ≡ true → IfOk result (λ outcome. Does ⟦<DiskTerminal as OverDisk<TermEntry>>⟧.entries ⟦<DiskTerminal as OverDisk<TermEntry>>⟧.disk ⟦<DiskTerminal as OverDisk<TermEntry>>⟧.has_failed reads (most + 8) self.new.power self.new.sent self.new.answers s places number prefix order.now outcome) }
        ensures off { (most : ℕ) (s : TerminalState) (places : List ℕ) (doubt : Doubt) → SideStands ⟦<DiskTerminal as OverDisk<TermEntry>>⟧.entries ⟦<DiskTerminal as OverDisk<TermEntry>>⟧.disk ⟦<DiskTerminal as OverDisk<TermEntry>>⟧.has_failed most self.old.power self.old.sent self.old.answers s places doubt → s.on ≡ false → IfOk result (λ outcome. Passes ⟦<DiskTerminal as OverDisk<TermEntry>>⟧.entries ⟦<DiskTerminal as OverDisk<TermEntry>>⟧.disk ⟦<DiskTerminal as OverDisk<TermEntry>>⟧.has_failed most self.new.power self.new.sent self.new.answers s places doubt outcome) }
    {
        match self.power.lend() {
            Power::On(terminal) => self.act_on(alloc, terminal, moment_of(number), prefix, order),
            Power::Off(disk) => {
                self.power = Power::Off(disk);
                Ok(Outcome::IsOff)
            }
            Power::Lent => Err(Memory),
        }
    }

    /// Opens the terminal again from its disk. The one error is want of memory.
    pub fn reopen(&mut self, alloc: Global, prefix: Option<Prefix>) -> Result<Outcome, Memory>
        ensures { (most : ℕ) (s : TerminalState) (places : List ℕ) (doubt : Doubt) → 2 ≤ most → SideStands ⟦<DiskTerminal as OverDisk<TermEntry>>⟧.entries ⟦<DiskTerminal as OverDisk<TermEntry>>⟧.disk ⟦<DiskTerminal as OverDisk<TermEntry>>⟧.has_failed most self.old.power self.old.sent self.old.answers s places doubt → IfOk result (λ outcome. Reopens ⟦<DiskTerminal as OverDisk<TermEntry>>⟧.entries ⟦<DiskTerminal as OverDisk<TermEntry>>⟧.disk ⟦<DiskTerminal as OverDisk<TermEntry>>⟧.has_failed most self.new.power self.new.sent self.new.answers s places doubt prefix outcome) }
    {
        let opened = reopen(alloc, self.power.lend(), prefix)?;
        self.power = opened.power;
        Ok(opened.outcome)
    }

    /// Keeps the text of an answer that counts. The one error is want of memory.
    pub fn heard(&mut self, text: Vec<u8>) -> Result<(), Memory>
        ensures { (most : ℕ) (s : TerminalState) (places : List ℕ) (doubt : Doubt) (message : Message) → IsTextOf message text.items → SideStands ⟦<DiskTerminal as OverDisk<TermEntry>>⟧.entries ⟦<DiskTerminal as OverDisk<TermEntry>>⟧.disk ⟦<DiskTerminal as OverDisk<TermEntry>>⟧.has_failed most self.old.power self.old.sent self.old.answers s places doubt → OnOk result (SideStands ⟦<DiskTerminal as OverDisk<TermEntry>>⟧.entries ⟦<DiskTerminal as OverDisk<TermEntry>>⟧.disk ⟦<DiskTerminal as OverDisk<TermEntry>>⟧.has_failed most self.new.power self.new.sent self.new.answers (answered s (message ∷ [])) (places_after places s (message ∷ []) true) doubt) }
    {
        self.answers.push(text)?;
        Ok(())
    }

    /// Gives its disk; a terminal in other hands has none.
    pub fn disk(self) -> Result<MemoryDisk, Memory>
        ensures has { (most : ℕ) (s : TerminalState) (places : List ℕ) (doubt : Doubt) → SideStands ⟦<DiskTerminal as OverDisk<TermEntry>>⟧.entries ⟦<DiskTerminal as OverDisk<TermEntry>>⟧.disk ⟦<DiskTerminal as OverDisk<TermEntry>>⟧.has_failed most self.power self.sent self.answers s places doubt → s.on ≡ true → IfOk result (λ disk. EachHas (Has term_reading) (images_of disk) s.settled) }
        ensures given { (most : ℕ) (s : TerminalState) (places : List ℕ) (doubt : Doubt) → SideStands ⟦<DiskTerminal as OverDisk<TermEntry>>⟧.entries ⟦<DiskTerminal as OverDisk<TermEntry>>⟧.disk ⟦<DiskTerminal as OverDisk<TermEntry>>⟧.has_failed most self.power self.sent self.answers s places doubt → IsOk result }
    {
        let Side {
            power,
            sent: _,
            answers: _,
        } = self;
        match power {
            Power::On(terminal) => Ok(disk_of(terminal, false)),
            Power::Off(disk) => Ok(disk),
            Power::Lent => Err(Memory),
        }
    }
}
