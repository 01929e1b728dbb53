ghost use Rattle.std.specs.Prelude.{◌≡◌, ◌≤◌};
ghost use Rattle.cap_leaf.specs.Date.{DateParts};
ghost use Rattle.cap_msgs.specs.Moment.{IsMoment};
ghost use Rattle.cap_plays.specs.Plays.{moment_of as spec_moment};

use cap_leaf::DateTime;

/// The last line of a schedule whose moment has a date: it falls into the last second of the year 9999.
pub const LAST_LINE: u64 = 251_702_300_799;

/// The moment of a line, in seconds since 1970.
pub fn moment_of(number: u64) -> u64
    requires { number ≤ 251702300799 }
    ensures moment { result ≡ spec_moment number }
    ensures dated { result ≤ 253402300799 }
{
    1_700_000_000 + number
}

/// Each moment, in seconds since 1970, has its date and time.
pub fn date_of(moment: u64)
    requires { moment ≤ 253402300799 }
    ensures { (created : DateParts) × IsMoment moment created }
{
    let _ = DateTime::utc(moment);
}
