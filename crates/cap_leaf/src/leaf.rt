use crate::date::DateTime;
use crate::kinds::CodeList;
use cap_base::{Account, Amount, Code6, Ident};

/// A leaf's value.
#[derive(Clone, Copy, Debug, PartialEq, Eq)]
pub enum Leaf {
    /// At most 9,999,999,999.
    Num(u64),
    Amount(Amount),
    /// Hundredths, below 10^19.
    Sum(u64),
    Ident(Ident),
    Account(Account),
    Code6(Code6),
    DateTime(DateTime),
    /// A code by its place in its list, from 0.
    Code { list: CodeList, at: u8 },
}
