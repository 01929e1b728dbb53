ghost use Rattle.std.specs.Prelude.{◌≡◌, ◌≤◌, ◌≤ℤ◌, pos, None};
ghost use Rattle.jiff_core.specs.Date.{epoch_day};
ghost use Rattle.cap_leaf.specs.Moment.{utc_seconds};
ghost use Rattle.cap_leaf.specs.declared.zone.Zone.TheVariants.{Utc};

use crate::date::DateTime;
use crate::zone::Zone;
use jiff_core::civil::Date;

// The day so many days after 1970-01-01.
fn day_at(days: u64) -> Date
    requires { days ≤ 2932896 }
    ensures { epoch_day result ≡ pos days }
{
    Date::from_unix_epoch_day(days as i64).unwrap()
}

// A year that is no negative number.
fn year_of(year: i16) -> u16
    requires { pos 0 ≤ℤ year }
    ensures { pos result ≡ year }
{
    year as u16
}

impl DateTime {
    /// A moment, in seconds since 1970, as a date and time in UTC without milliseconds. The last one is the end of the year 9999.
    pub fn utc(moment: u64) -> DateTime
        requires { moment ≤ 253402300799 }
        ensures moment { utc_seconds result ≡ pos moment }
        ensures millis { result.millis ≡ None }
        ensures zone { result.zone ≡ Utc }
    {
        let day = day_at(moment / 86400);
        let clock = moment % 86400;
        DateTime {
            year: year_of(day.year),
            month: day.month,
            day: day.day,
            hour: (clock / 3600) as u8,
            minute: (clock / 60 % 60) as u8,
            second: (clock % 60) as u8,
            millis: None,
            zone: Zone::Utc,
        }
    }
}
