ghost use Rattle.std.specs.Prelude.{◌≡◌, ◌≤◌, ◌<◌, ◌^◌, ◌&&◌, true, length, take, drop, Some, None};
ghost use Rattle.std.specs.List.{list_all};
ghost use Rattle.std.specs.Char.{is_ascii_digit};
ghost use Rattle.std.specs.Str.Parse.{digits_value};
ghost use Rattle.cap_leaf.specs.Date.{is_day, is_millis as millis_test, is_zone as zone_test};
ghost use Rattle.cap_leaf.specs.DateText.{part as part_of, are_digits as digits_test, number_at as number_of, has_digits as digits_in, has_marks as marks_in, has_ranges as ranges_in, fraction_of as fraction_part, is_fraction as fraction_test, millis_of, is_moment as moment_test, is_offset as offset_test, is_zone_text as zone_text_test, zone_of, offset_in, date_time_of};

use crate::date::DateTime;
use crate::zone::Zone;
use cap_base::read_number;
use jiff_core::civil::Date;

// The bytes of a text from a place on, at most so many.
fn part(text: &[u8], from: usize, count: usize) -> &[u8]
    ensures { result.now ≡ part_of from count text.now }
{
    let rest = &text[from.min(text.len())..];
    &rest[..count.min(rest.len())]
}

fn all_digits(text: &[u8]) -> bool
    ensures { result ≡ list_all is_ascii_digit text.now }
{
    text.iter().all(|b| b.is_ascii_digit())
}

fn are_digits(text: &[u8], count: usize) -> bool
    ensures { result ≡ digits_test count text.now }
{
    text.len() == count && all_digits(text)
}

fn has_digits(text: &[u8]) -> bool
    ensures { result ≡ digits_in text.now }
{
    are_digits(part(text, 0, 4), 4)
        && (are_digits(part(text, 5, 2), 2)
            && (are_digits(part(text, 8, 2), 2)
                && (are_digits(part(text, 11, 2), 2)
                    && (are_digits(part(text, 14, 2), 2) && are_digits(part(text, 17, 2), 2)))))
}

fn has_marks(text: &[u8]) -> bool
    ensures { result ≡ marks_in text.now }
{
    part(text, 4, 1) == b"-".as_slice()
        && (part(text, 7, 1) == b"-".as_slice()
            && (part(text, 10, 1) == b"T".as_slice()
                && (part(text, 13, 1) == b":".as_slice() && part(text, 16, 1) == b":".as_slice())))
}

// The number that digits write.
fn number(text: &[u8], count: usize) -> u16
    requires digits { digits_test count text.now ≡ true }
    requires some { 1 ≤ count }
    requires few { count ≤ 4 }
    ensures value { result ≡ digits_value 10 text.now }
    ensures small { result < 10 ^ count }
{
    match read_number(text, count) {
        Some(n) => n as u16,
        None => 0,
    }
}

// The number that digits at a place write.
fn number_at(text: &[u8], from: usize, count: usize) -> u16
    requires digits { digits_test count (part_of from count text.now) ≡ true }
    requires some { 1 ≤ count }
    requires few { count ≤ 4 }
    ensures value { result ≡ number_of from count text.now }
    ensures small { result < 10 ^ count }
{
    number(part(text, from, count), count)
}

// Whether the calendar has a day.
fn has_day(year: u16, month: u16, day: u16) -> bool
    requires years { year ≤ 9999 }
    requires months { month ≤ 99 }
    requires days { day ≤ 99 }
    ensures { result ≡ is_day year month day }
{
    Date::new(year as i16, month as i8, day as i8).is_ok()
}

fn has_ranges(text: &[u8]) -> bool
    requires { digits_in text.now ≡ true }
    ensures { result ≡ ranges_in text.now }
{
    let year = number_at(text, 0, 4);
    let month = number_at(text, 5, 2);
    let day = number_at(text, 8, 2);
    let hour = number_at(text, 11, 2);
    let minute = number_at(text, 14, 2);
    let second = number_at(text, 17, 2);
    has_day(year, month, day) && (hour < 24 && (minute < 60 && second < 60))
}

// The point and the digits after it, where a point stands first.
fn fraction_of(text: &[u8]) -> &[u8]
    ensures { result.now ≡ fraction_part text.now }
{
    if part(text, 0, 1) == b".".as_slice() {
        part(text, 0, 4)
    } else {
        &[]
    }
}

fn is_fraction(text: &[u8]) -> bool
    ensures { result ≡ fraction_test text.now }
{
    text == b"".as_slice() || are_digits(part(text, 1, text.len()), 3)
}

fn is_offset(text: &[u8]) -> bool
    ensures { result ≡ offset_test text.now }
{
    text.len() == 6
        && ((part(text, 0, 1) == b"+".as_slice() || part(text, 0, 1) == b"-".as_slice())
            && ((are_digits(part(text, 1, 2), 2)
                && (part(text, 3, 1) == b":".as_slice() && are_digits(part(text, 4, 2), 2)))
                && (number_at(text, 1, 2) < 24 && number_at(text, 4, 2) < 60)))
}

fn is_zone(text: &[u8]) -> bool
    ensures { result ≡ zone_text_test text.now }
{
    text == b"".as_slice() || (text == b"Z".as_slice() || is_offset(text))
}

fn is_moment(text: &[u8]) -> bool
    ensures { result ≡ moment_test text.now }
{
    has_digits(text) && (has_marks(text) && has_ranges(text))
}

// The milliseconds of a fraction.
fn millis(text: &[u8]) -> Option<u16>
    requires { fraction_test text.now ≡ true }
    ensures value { result ≡ millis_of text.now }
    ensures small { millis_test result ≡ true }
{
    match text {
        [] => None,
        [_, digits @ ..] => Some(number(digits, 3)),
    }
}

// The offset that a text spells.
fn offset(text: &[u8]) -> Zone
    requires { offset_test text.now ≡ true }
    ensures value { result ≡ offset_in text.now }
    ensures small { zone_test result ≡ true }
{
    Zone::Offset {
        minus: part(text, 0, 1) == b"-".as_slice(),
        hours: number_at(text, 1, 2) as u8,
        minutes: number_at(text, 4, 2) as u8,
    }
}

// The zone that a text spells.
fn zone(text: &[u8]) -> Zone
    requires { zone_text_test text.now ≡ true }
    ensures value { result ≡ zone_of text.now }
    ensures small { zone_test result ≡ true }
{
    if text == b"".as_slice() {
        Zone::Local
    } else if text == b"Z".as_slice() {
        Zone::Utc
    } else {
        offset(text)
    }
}

// The date and time that a text spells, from the text of its fraction and that of its zone.
fn parts(text: &[u8], fraction: &[u8], place: &[u8]) -> DateTime
    requires moment { moment_test text.now ≡ true }
    requires fraction { fraction_test fraction.now ≡ true }
    requires place { zone_text_test place.now ≡ true }
    ensures { result ≡ record {
      year = number_of 0 4 text.now;
      month = number_of 5 2 text.now;
      day = number_of 8 2 text.now;
      hour = number_of 11 2 text.now;
      minute = number_of 14 2 text.now;
      second = number_of 17 2 text.now;
      millis = millis_of fraction.now;
      zone = zone_of place.now;
    } }
{
    DateTime {
        year: number_at(text, 0, 4),
        month: number_at(text, 5, 2) as u8,
        day: number_at(text, 8, 2) as u8,
        hour: number_at(text, 11, 2) as u8,
        minute: number_at(text, 14, 2) as u8,
        second: number_at(text, 17, 2) as u8,
        millis: millis(fraction),
        zone: zone(place),
    }
}

// A text from a place on.
fn rest(text: &[u8], from: usize) -> &[u8]
    ensures { result.now ≡ drop from text.now }
{
    &text[from.min(text.len())..]
}

/// The date and time that a text spells, with all its parts. None for every other text.
pub(crate) fn read_date_time(text: &[u8]) -> Option<DateTime>
    ensures { result ≡ date_time_of text.now }
{
    let fraction = fraction_of(rest(text, 19));
    let place = rest(text, 19 + fraction.len());
    if is_moment(text) && (is_fraction(fraction) && is_zone(place)) {
        Some(parts(text, fraction, place))
    } else {
        None
    }
}
