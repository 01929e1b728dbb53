use crate::zone::Zone;
use std::marker::Model;

/// A date of the calendar and a time of day, with all parts of its spelling. Years are 0 to 9999.
#[derive(Clone, Copy, Debug, PartialEq, Eq)]
pub struct DateTime {
    pub year: u16,
    pub month: u8,
    pub day: u8,
    pub hour: u8,
    pub minute: u8,
    pub second: u8,
    pub millis: Option<u16>,
    pub zone: Zone,
}

impl Model for DateTime {
    ghost use Rattle.std.specs.Prelude.{◌≡◌, true};
    ghost use Rattle.cap_leaf.specs.Date.{DateParts, is_date_time};

    ghost Value = { DateParts };

    ghost view = { λ d. record { year = d.year; month = d.month; day = d.day; hour = d.hour; minute = d.minute; second = d.second; millis = d.millis; zone = d.zone } };

    ghost invariant = { λ d. is_date_time (record { year = d.year; month = d.month; day = d.day; hour = d.hour; minute = d.minute; second = d.second; millis = d.millis; zone = d.zone }) ≡ true };

    ghost inverse = { λ p. record { year = p.year; month = p.month; day = p.day; hour = p.hour; minute = p.minute; second = p.second; millis = p.millis; zone = p.zone } };
}
