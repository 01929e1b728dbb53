// The moments of a plan.
ghost use Rattle.std.specs.Prelude.{IsTrue};
ghost use Rattle.cap_plan.specs.Due.{IsNear};

use crate::words::{cut, none};
use cap_base::{DataSet, PlanAct};
use cap_leaf::{DateTime, Leaf, LeafKind, leaf_read};
use cap_mgmt_msgs::Action;
use cap_plan::{due, moment_of, next_due};
use std::alloc::{AllocError, Global};

fn date_in(text: &[u8]) -> Option<DateTime> {
    match leaf_read(LeafKind::DateTime, text)? {
        Leaf::DateTime(date) => Some(date),
        _ => None,
    }
}

fn moment_text(alloc: Global, date: DateTime) -> Result<String, AllocError> {
    format!(in alloc; "{}", moment_of(&date))
}

/// The moment of a date and time.
pub(crate) fn moment(alloc: Global, text: &[u8]) -> Result<String, AllocError> {
    match date_in(text) {
        Some(date) => moment_text(alloc, date),
        None => none(alloc),
    }
}

// An action that starts 100 seconds after the start of 1970.
fn action(minutes: u64) -> Action {
    Action {
        act: PlanAct::Dwnl,
        set: DataSet::Aqpr,
        start: DateTime::utc(100),
        minutes,
    }
}

fn is_near(moment: i64) -> bool
    ensures { IsTrue result → IsNear moment }
{
    -1_000_000_000_000 <= moment && moment <= 1_000_000_000_000
}

fn moment_in(word: &str) -> i64 {
    word.parse::<i64>().unwrap_or(i64::MAX)
}

/// Whether an action of so many minutes is due: the minutes, the last moment that was looked at, and the present one.
pub(crate) fn is_due(alloc: Global, words: &str) -> Result<String, AllocError> {
    let (minutes, words) = cut(words);
    let (last, now) = cut(words);
    let minutes = minutes.parse::<u64>().unwrap_or(0);
    let last = moment_in(last);
    let now = moment_in(now);
    if is_near(last) && is_near(now) {
        format!(in alloc; "{}", due(&action(minutes), last, now))
    } else {
        String::from_str(alloc, "too far")
    }
}

/// When an action of so many minutes is due next: the minutes, and the present moment.
pub(crate) fn next(alloc: Global, words: &str) -> Result<String, AllocError> {
    let (minutes, now) = cut(words);
    let now = moment_in(now);
    if !is_near(now) {
        return String::from_str(alloc, "too far");
    }
    match next_due(&action(minutes.parse::<u64>().unwrap_or(0)), now) {
        Some(moment) => format!(in alloc; "{moment}"),
        None => none(alloc),
    }
}
