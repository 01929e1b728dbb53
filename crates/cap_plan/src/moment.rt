// The moment that a date and time names.
ghost use Rattle.std.specs.Prelude.{◌≡◌, ◌≤◌, ◌*◌, ◌+◌, ◌≤ℤ◌, ◌+ℤ◌, ◌-ℤ◌, ◌*ℤ◌, neg_ℤ, pos, true};
ghost use Rattle.jiff_core.specs.Calendar.{days_from_civil, IsEpochDay};
ghost use Rattle.cap_leaf.specs.Date.{is_day};
ghost use Rattle.cap_plan.specs.Due.{offset_of, moment_of_parts, IsNear};

use cap_leaf::{DateTime, Zone};
use jiff_core::civil::Date;

// The number of a day, counted from 1970.
fn day_number(year: u16, month: u8, day: u8) -> i64
    requires years { year ≤ 9999 }
    requires months { month ≤ 99 }
    requires days { day ≤ 99 }
    requires calendar { is_day year month day ≡ true }
    ensures value { result ≡ days_from_civil (pos year) month day }
    ensures range { IsEpochDay result }
{
    let date = Date::new(year as i16, month as i8, day as i8).unwrap();
    date.to_unix_epoch_day() as i64
}

// The seconds of days and a clock, less those by which the clock is ahead.
fn seconds(days: i64, clock: u32, ahead: i64) -> i64
    requires days { IsEpochDay days }
    requires clock { clock ≤ 86400 }
    requires low { neg_ℤ (pos 1000000) ≤ℤ ahead }
    requires high { ahead ≤ℤ pos 1000000 }
    ensures value { result ≡ days *ℤ pos 86400 +ℤ pos clock -ℤ ahead }
    ensures range { IsNear result }
{
    days * 86_400 + clock as i64 - ahead
}

// The seconds by which the clocks of a zone are ahead of UTC.
fn ahead_of(zone: Zone) -> i64
    ensures value { result ≡ offset_of zone }
    ensures low { neg_ℤ (pos 1000000) ≤ℤ result }
    ensures high { result ≤ℤ pos 1000000 }
{
    match zone {
        Zone::Local | Zone::Utc => 0,
        Zone::Offset {
            minus,
            hours,
            minutes,
        } => {
            let seconds = hours as i64 * 3600 + minutes as i64 * 60;
            if minus { -seconds } else { seconds }
        }
    }
}

/// Seconds since 1970-01-01T00:00:00Z. A time without a zone counts as UTC, and milliseconds are dropped.
pub fn moment_of(at: &DateTime) -> i64
    ensures value { result ≡ moment_of_parts at.now }
    ensures range { IsNear result }
{
    let days = day_number(at.year, at.month, at.day);
    let clock = at.hour as u32 * 3600 + at.minute as u32 * 60 + at.second as u32;
    seconds(days, clock, ahead_of(at.zone))
}
