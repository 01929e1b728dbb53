ghost use Rattle.std.specs.Prelude.{◌≡◌, ℕ, List, None, Some, Err, IfOk, map};
ghost use Rattle.cap_msgs.specs.Received.{Received};
ghost use Rattle.cap_schedule.specs.Reader.{IsReader};
ghost use Rattle.cap_schedule.specs.Language.{line_with as spec_line_with, line_of as spec_line_of, with_line as spec_with_line, acting as spec_acting, hosted as spec_hosted, with_terminal as spec_with_terminal, read_words as spec_words, read_line as spec_line, read_end, reading, Reads, Faulty};
ghost use Rattle.cap_schedule.specs.SetUps.{host_line as spec_host, terminal_line as spec_terminal};
ghost use Rattle.cap_schedule.specs.Matching.{Matching};
ghost use Rattle.cap_schedule.specs.Nobodys.{NoiseIsNobodys};
ghost use Rattle.cap_schedule.specs.Ranges.{InRange};

use crate::actions::action_of;
use crate::lines::{first_line, pieces_of};
use crate::noise::is_allowed;
use crate::prefixes::{after_prefix, prefix_in};
use crate::schedule::{Action, Draft, HostLine, Line, Prefix, Schedule, ScheduleFault};
use crate::setups::{host_line, is_terminal_line, opened, terminal_line};
use cap_base::{Ident, Memory};
use cap_entries::TermSetup;
use cap_msgs::reading_is_exact;
use sqlite_items::Items;
use std::alloc::{AllocError, Global};

// The line of these parts.
fn line_with(number: u64, prefix: Option<Option<Prefix>>, action: Option<Action>) -> Option<Line>
    ensures { result ≡ spec_line_with number prefix action }
{
    match (prefix, action) {
        (Some(prefix), Some(action)) => Some(Line {
            number,
            prefix,
            action,
        }),
        _ => None,
    }
}

// An action line.
fn line_of(
    alloc: Global,
    host: &Ident,
    terminals: &[TermSetup],
    number: u64,
    words: &[&[u8]],
) -> Result<Option<Line>, AllocError>
    ensures { IfOk result (λ o. o ≡ spec_line_of host.now terminals.now number (map (λ w. w.now) words.now)) }
{
    let action = action_of(alloc, host, terminals, after_prefix(words))?;
    Ok(line_with(number, prefix_in(words), action))
}

// A line more, unless it passes a message between the parties off as noise.
fn with_line(alloc: Global, schedule: Schedule, line: Line) -> Result<Option<Draft>, Memory>
    ensures { (reads : List ℕ → Received) → IsReader reads → IfOk result (λ o. o ≡ spec_with_line reads schedule (Some line)) }
{
    let Schedule {
        host,
        terminals,
        mut lines,
    } = schedule;
    if !is_allowed(alloc, &host.host(), terminals.as_slice(), &line.action)? {
        return Ok(None);
    }
    lines.push(line)?;
    Ok(Some(Draft::Acting(Schedule {
        host,
        terminals,
        lines,
    })))
}

// The first action line, or one more.
fn acting(
    alloc: Global,
    schedule: Schedule,
    number: u64,
    words: &[&[u8]],
) -> Result<Option<Draft>, Memory>
    ensures { (reads : List ℕ → Received) → IsReader reads → IfOk result (λ o. o ≡ spec_acting reads (Some schedule) number (map (λ w. w.now) words.now)) }
{
    let host = schedule.host.host();
    match line_of(alloc, &host, schedule.terminals.as_slice(), number, words)? {
        Some(line) => with_line(alloc, schedule, line),
        None => Ok(None),
    }
}

// The draft of a host line.
fn hosted(alloc: Global, words: &[&[u8]]) -> Result<Option<Draft>, Memory>
    ensures { IfOk result (λ o. o ≡ spec_hosted (spec_host (map (λ w. w.now) words.now))) }
{
    match host_line(alloc, words)? {
        Some(host) => Ok(Some(Draft::Hosted {
            host,
            terminals: Items::new(alloc),
        })),
        None => Ok(None),
    }
}

// One terminal more.
fn with_terminal(
    host: HostLine,
    terminals: Items<TermSetup>,
    words: &[&[u8]],
) -> Result<Option<Draft>, Memory>
    ensures { IfOk result (λ o. o ≡ spec_with_terminal host terminals (spec_terminal host.id terminals (map (λ w. w.now) words.now))) }
{
    let mut terminals = terminals;
    match terminal_line(&host.id, terminals.as_slice(), words) {
        Some(terminal) => {
            terminals.push(terminal)?;
            Ok(Some(Draft::Hosted { host, terminals }))
        }
        None => Ok(None),
    }
}

// The draft after a line.
fn read_words(
    alloc: Global,
    draft: Draft,
    number: u64,
    words: &[&[u8]],
) -> Result<Option<Draft>, Memory>
    ensures { (reads : List ℕ → Received) → IsReader reads → IfOk result (λ o. o ≡ spec_words reads draft number (map (λ w. w.now) words.now)) }
{
    match draft {
        Draft::Empty => hosted(alloc, words),
        Draft::Hosted { host, terminals } => {
            if is_terminal_line(words) {
                return with_terminal(host, terminals, words);
            }
            match opened(alloc, host, terminals)? {
                Some(schedule) => acting(alloc, schedule, number, words),
                None => Ok(None),
            }
        }
        Draft::Acting(schedule) => acting(alloc, schedule, number, words),
    }
}

// The draft after a line, which may be skipped.
fn read_line(alloc: Global, draft: Draft, number: u64, line: &[u8]) -> Result<Draft, ScheduleFault>
    ensures ok { (reads : List ℕ → Received) → IsReader reads → IfOk result (λ d. spec_line reads draft number line.now ≡ Some d) }
    ensures line { (k : _) → result ≡ Err (ScheduleFault.Line k) → (reads : List ℕ → Received) → IsReader reads → (k ≡ number) × (spec_line reads draft number line.now ≡ None) }
{
    if line.is_empty() || line[0] == b'#' {
        return Ok(draft);
    }
    let words = pieces_of(alloc, line, b' ')?;
    match read_words(alloc, draft, number, &words) {
        Ok(Some(draft)) => Ok(draft),
        Ok(None) => Err(ScheduleFault::Line(number)),
        Err(Memory) => Err(ScheduleFault::Memory),
    }
}

// The schedule of all lines, where none is missing; the number is one more than that of the last line.
fn whole(alloc: Global, draft: Draft, number: u64) -> Result<Schedule, ScheduleFault>
    ensures ok { IfOk result (λ s. read_end draft number ≡ Reads s) }
    ensures line { (k : _) → result ≡ Err (ScheduleFault.Line k) → read_end draft number ≡ Faulty k }
{
    match draft {
        Draft::Empty => Err(ScheduleFault::Line(number)),
        Draft::Hosted { host, terminals } => match opened(alloc, host, terminals)? {
            Some(schedule) => Ok(schedule),
            None => Err(ScheduleFault::Line(number)),
        },
        Draft::Acting(schedule) => Ok(schedule),
    }
}

/// Reads a schedule. Its set-ups name each other and keep their rules, and its numbers are in range. `Line` is the first line that isn't in the
/// language: a line of noise whose bytes read as a message between parties of the schedule is one. Where a needed line is missing, it is one more
/// than the number of lines. `Memory` is want of memory.
pub fn read(alloc: Global, text: &[u8]) -> Result<Schedule, ScheduleFault>
    ensures ok { (reads : List ℕ → Received) → IsReader reads → IfOk result (λ s. reading reads text.now ≡ Reads s) }
    ensures matching { IfOk result Matching }
    ensures range { IfOk result InRange }
    ensures noise { (reads : List ℕ → Received) → IsReader reads → IfOk result (NoiseIsNobodys reads) }
    ensures line { (k : _) → result ≡ Err (ScheduleFault.Line k) → (reads : List ℕ → Received) → IsReader reads → reading reads text.now ≡ Faulty k }
{
    reading_is_exact();
    let mut draft = Draft::Empty;
    let mut rest = text;
    let mut number = 1;
    'lines: while !rest.is_empty() {
        let (line, after) = first_line(rest);
        draft = match read_line(alloc, draft, number, line) {
            Ok(next) => next,
            Err(fault) => return Err(fault),
        };
        rest = after;
        number += 1;
    }
    whole(alloc, draft, number)
}
