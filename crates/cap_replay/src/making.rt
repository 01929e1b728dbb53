ghost use Rattle.std.specs.Prelude.{◌≡◌, ◌≤◌, ℕ, List, IfOk, string_bytes};
ghost use Rattle.cap_msgs.specs.Received.{Received};
ghost use Rattle.cap_schedule.specs.Reader.{IsReader};
ghost use Rattle.cap_schedule.specs.Nobodys.{NoiseIsNobodys};
ghost use Rattle.cap_plays.specs.Laws.{InRange};
ghost use Rattle.cap_replay.specs.Generator.{made_schedule};
ghost use Rattle.cap_replay.specs.Made.{IsReported, Makes, lines_of, first_line as spec_first_line};

use crate::ends::Ends;
use crate::generator::made;
use cap_base::Memory;
use cap_msgs::reading_is_exact;
use cap_plays::play;
use cap_schedule::Schedule;
use std::alloc::{AllocError, Global};

// Runs a schedule over ends of its own: the report on them, without the outcomes of the lines.
fn report_over<N: Ends>(alloc: Global, schedule: &Schedule) -> Result<Vec<u8>, Memory>
    requires { InRange schedule.now }
    ensures { IfOk result (λ text. (reads : List ℕ → Received) → IsReader reads → NoiseIsNobodys reads schedule.now → IsReported reads schedule.now text.items) }
{
    let mut ends = N::set_up(alloc, schedule)?;
    play(alloc, &mut ends, schedule)?;
    let mut report = Vec::new(alloc);
    ends.put_report(&mut report, schedule)?;
    Ok(report)
}

// The line before the report.
#[tactic(auto, unfolding(crate::specs::Made::first_line))]
fn first_line(alloc: Global, sales: u64, lines: u64) -> Result<String, AllocError>
    ensures { IfOk result (λ t. string_bytes t ≡ spec_first_line sales lines) }
{
    format!(in alloc; "made {sales} lines {lines}\n")
}

// How many lines a made schedule has, with those that set the ends up.
#[tactic(auto, using(crate::proofs::Adding::length_numbered))]
fn count_of(schedule: &Schedule, sales: u64) -> u64
    requires { schedule.now ≡ made_schedule sales }
    ensures { result ≡ lines_of sales }
{
    schedule.lines.as_slice().len() as u64 + 5
}

/// Makes the schedule of so many sales, 1 to 10,000, and runs it over ends of its own: a line that tells the sales and the lines, and the report of the
/// run. The one error is want of memory.
pub fn make_over<N: Ends>(alloc: Global, sales: u64) -> Result<Vec<u8>, Memory>
    requires first { 1 ≤ sales }
    requires last { sales ≤ 10000 }
    ensures { IfOk result (λ text. Makes sales text.items) }
{
    reading_is_exact();
    let schedule = made(alloc, sales)?;
    let report = report_over::<N>(alloc, &schedule)?;
    let first = first_line(alloc, sales, count_of(&schedule, sales))?;
    let mut text = Vec::new(alloc);
    text.extend_from_slice(first.as_bytes())?;
    text.extend_from_slice(&report)?;
    Ok(text)
}
