/// How a moment's place in the world is told.
#[derive(Clone, Copy, Debug, PartialEq, Eq)]
pub enum Zone {
    /// It isn't told. Where a moment is needed, it counts as UTC.
    Local,
    /// `Z`.
    Utc,
    /// `+hh:mm` or `-hh:mm`, hours 0 to 23, minutes 0 to 59.
    Offset { minus: bool, hours: u8, minutes: u8 },
}
