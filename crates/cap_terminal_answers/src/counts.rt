/// How many sales of a terminal were begun, completed (also where they were cancelled then), cancelled and voided, and how many periods it closed.
#[derive(Clone, Copy, Debug, PartialEq, Eq)]
pub struct Counts {
    pub sales: u64,
    pub completed: u64,
    pub cancelled: u64,
    pub voided: u64,
    pub periods: u64,
}
