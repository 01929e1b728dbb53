ghost use Rattle.std.specs.Prelude.{◌≡◌, ℕ, List, [], length, IfOk, OnOk};
ghost use Rattle.cap_msgs.specs.Received.{Received};
ghost use Rattle.cap_plays.specs.Turns.{Scene};
ghost use Rattle.cap_plays.specs.Plays.{Doubts, first_scene, first_doubts};
ghost use Rattle.cap_schedule.specs.Reader.{IsReader};
ghost use Rattle.cap_schedule.specs.Nobodys.{NoiseIsNobodys};
ghost use Rattle.cap_schedule.specs.Ranges.{ActionInRange};
ghost use Rattle.cap_plays.specs.Laws.{InRange};
ghost use Rattle.cap_plays.specs.Session.{ActsSo, ReopensSo, ReportsSo, ActedAll, ReopenedAll, IsPlayed};

use crate::laws;
use crate::report::put_outcome;
use cap_schedule::{End, Line, Outcome, Schedule};
use std::alloc::{AllocError, Global};

/// The ends of a schedule over their disks, and all that was sent between them.
pub trait Network: Drop {
    /// It stands to this scene, where the disks leave open what this says.
    ghost corresponds: { Self → Scene → Doubts → Type 0 };

    /// How many terminals there are.
    fn terminals(&self) -> u64
        ensures { (w : Scene) (doubts : Doubts) → corresponds self.now w doubts → result ≡ length w.terminals };

    /// Does what a line asks for.
    fn act(&mut self, line: &Line) -> Result<Outcome, AllocError>
        requires { ActionInRange line.now.action }
        ensures { IfOk result (λ outcome. ActsSo (corresponds self.old) (corresponds self.new) line.now outcome) };

    /// Opens an end again where it is off.
    fn reopen(&mut self, end: End) -> Result<(), AllocError>
        ensures { OnOk result (ReopensSo (corresponds self.old) (corresponds self.new) end) };

    /// Appends the report on each terminal, where every end is on. What a host has captured is read from its disk.
    fn put_report(&mut self, text: &mut Vec<u8>, schedule: &Schedule) -> Result<(), AllocError>
        requires { InRange schedule.now }
        ensures { OnOk result (ReportsSo (corresponds self.old) (corresponds self.new) schedule.now text.old.items text.new.items) };
}

// Does the lines of a schedule, and appends an outcome for each.
fn act_all<N: Network>(
    alloc: Global,
    network: &mut N,
    schedule: &Schedule,
    text: &mut Vec<u8>,
) -> Result<(), AllocError>
    requires first { N.corresponds network.old (first_scene schedule.now) (first_doubts schedule.now) }
    requires range { InRange schedule.now }
    ensures { OnOk result (ActedAll (N.corresponds network.new) schedule.now [] text.old.items text.new.items) }
{
    for line in schedule.lines.as_slice() {
        let outcome = network.act(line)?;
        put_outcome(alloc, text, line.number, &outcome)?;
    }
    Ok(())
}

// Opens each end that is off.
fn reopen_all<N: Network>(network: &mut N) -> Result<(), AllocError>
    ensures { OnOk result (ReopenedAll (N.corresponds network.old) (N.corresponds network.new)) }
{
    let count = network.terminals();
    network.reopen(End::Host)?;
    for place in 0..count {
        network.reopen(End::Terminal(place))?;
    }
    Ok(())
}

/// Runs a schedule over a network that is in its first scene: the text of a play of the schedule, at whose end the ends agree and are on. The one
/// error is want of memory.
pub fn play<N: Network>(
    alloc: Global,
    network: &mut N,
    schedule: &Schedule,
) -> Result<Vec<u8>, AllocError>
    requires first { N.corresponds network.old (first_scene schedule.now) (first_doubts schedule.now) }
    requires range { InRange schedule.now }
    ensures { IfOk result (λ text. (reads : List ℕ → Received) → IsReader reads → NoiseIsNobodys reads schedule.now → IsPlayed reads (N.corresponds network.new) schedule.now text.items) }
{
    let mut text = Vec::new(alloc);
    act_all(alloc, network, schedule, &mut text)?;
    reopen_all(network)?;
    network.put_report(&mut text, schedule)?;
    laws::every_play_agrees();
    laws::every_play_ends_on();
    Ok(text)
}
