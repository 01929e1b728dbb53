// Names, accounts, codes, numbers and amounts.
use crate::words::{none, shown};
use cap_base::{Account, Amount, Code6, Ident, Money, read_decimal, read_number};
use std::alloc::{AllocError, Global};

pub(crate) fn ident(alloc: Global, text: &[u8]) -> Result<String, AllocError> {
    match Ident::read(text) {
        Some(ident) => shown(alloc, ident.as_bytes()),
        None => none(alloc),
    }
}

pub(crate) fn account(alloc: Global, text: &[u8]) -> Result<String, AllocError> {
    match Account::read(text) {
        Some(account) => shown(alloc, account.as_bytes()),
        None => none(alloc),
    }
}

/// A code, and whether it is the one of a sale without the host.
pub(crate) fn code(alloc: Global, text: &[u8]) -> Result<String, AllocError> {
    match Code6::read(text) {
        Some(code) if code == Code6::offline() => String::from_str(alloc, "without the host"),
        Some(code) => shown(alloc, code.as_bytes()),
        None => none(alloc),
    }
}

fn number_or_none(alloc: Global, number: Option<u64>) -> Result<String, AllocError> {
    match number {
        Some(number) => format!(in alloc; "{number}"),
        None => none(alloc),
    }
}

/// A number of at most ten digits.
pub(crate) fn number(alloc: Global, text: &[u8]) -> Result<String, AllocError> {
    number_or_none(alloc, read_number(text, 10))
}

/// The hundredths of a decimal of at most 17 digits before its point.
pub(crate) fn decimal(alloc: Global, text: &[u8]) -> Result<String, AllocError> {
    number_or_none(alloc, read_decimal(text, 17))
}

/// The hundredths of an amount.
pub(crate) fn amount(alloc: Global, text: &[u8]) -> Result<String, AllocError> {
    number_or_none(alloc, Amount::read(text).map(|amount| amount.hundredths()))
}

/// Hundredths as an amount is written, and as a sum of money is printed.
pub(crate) fn money(alloc: Global, text: &str) -> Result<String, AllocError> {
    let hundredths = text.parse::<u64>().unwrap_or(0);
    match Amount::new(hundredths) {
        Some(amount) => {
            let mut out = [0; 13];
            let len = amount.write(&mut out);
            let written = shown(alloc, &out[..len])?;
            format!(in alloc; "{written}, printed {}", Money { hundredths })
        }
        None => none(alloc),
    }
}
