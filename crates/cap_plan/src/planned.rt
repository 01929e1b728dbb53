// When an action is due.
ghost use Rattle.std.specs.Prelude.{◌≡◌, ◌≤◌, ◌<◌, ◌+◌, ◌*◌, ◌/◌, ◌↔◌, pos, ◌+ℤ◌, ◌-ℤ◌, ◌≤ℤ◌, ◌<ℤ◌, IsTrue, IsNone, IfSome, ℤ};
ghost use Rattle.std.specs.Int.{w64, saturate_signed};
ghost use Rattle.cap_plan.specs.Due.{IsMoment, IsDue, IsNext, IsOver, IsNear};

use crate::moment::moment_of;
use cap_mgmt_msgs::Action;

// How many whole periods of so many minutes lie between two moments.
fn periods(start: i64, moment: i64, minutes: u64) -> u64
    requires start { IsNear start }
    requires moment { IsNear moment }
    requires later { start ≤ℤ moment }
    requires minutes { 0 < minutes }
    ensures whole { (start +ℤ pos (60 * minutes * result)) ≤ℤ moment }
    ensures rest { moment <ℤ (start +ℤ pos (60 * minutes * (result + 1))) }
    ensures few { result ≤ 2000000000000 }
{
    (moment - start) as u64 / 60 / minutes
}

// The moment so many periods after the start, or the last one that an i64 can tell.
fn moment_after(start: i64, minutes: u64, times: u64) -> i64
    requires { IsNear start }
    ensures { result ≡ saturate_signed w64 (start +ℤ pos (60 * minutes * times)) }
{
    start.saturating_add_unsigned(minutes.saturating_mul(60).saturating_mul(times))
}

/// Whether one of the action's moments is above `last` and at most `now`.
pub fn due(action: &Action, last: i64, now: i64) -> bool
    requires last { IsNear last }
    requires now { IsNear now }
    ensures { IsTrue result ↔ IsDue action.now last now }
{
    let start = moment_of(&action.start);
    if now < start {
        return false;
    }
    if last < start {
        return true;
    }
    if action.minutes == 0 {
        return false;
    }
    periods(start, last, action.minutes) < periods(start, now, action.minutes)
}

/// The least of the action's moments above `now`, or None exactly where there is none. One past the last i64 is told as that number; none is
/// where the minutes are at most 10^12.
pub fn next_due(action: &Action, now: i64) -> Option<i64>
    requires now { IsNear now }
    ensures none { IsNone result ↔ IsOver action.now now }
    ensures next { IfSome result (λ told. (moment : ℤ) × IsNext action.now now moment × (told ≡ saturate_signed w64 moment)) }
    ensures exact { action.now.minutes ≤ 1000000000000 → IfSome result (IsNext action.now now) }
{
    let start = moment_of(&action.start);
    if now < start {
        return Some(start);
    }
    if action.minutes == 0 {
        return None;
    }
    let times = periods(start, now, action.minutes) + 1;
    Some(moment_after(start, action.minutes, times))
}
