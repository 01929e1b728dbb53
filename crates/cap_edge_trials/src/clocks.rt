// Clocks.
use crate::show::{number, said};
use cap_base::{Clock, FixedClock, StdClock};
use std::alloc::{AllocError, Global};
use std::time::Clock as Time;

fn fixed(alloc: Global, moment: u64) -> Result<String, AllocError> {
    if moment > 253_402_300_799 {
        return said(alloc, "none");
    }
    let mut clock = FixedClock::new(moment);
    let told = clock.moment();
    format!(in alloc; "{told}")
}

fn machine<R: Time + Drop>(alloc: Global, rt: R) -> Result<String, AllocError> {
    let mut clock = StdClock::new(rt);
    let is_later = clock.moment() > 1_700_000_000;
    format!(in alloc; "after 1700000000: {is_later}")
}

/// What a clock tells: `fixed MOMENT`, `machine`.
pub fn clock<R: Time + Drop>(alloc: Global, rt: R, words: &[&str]) -> Result<String, AllocError> {
    match words {
        ["fixed", moment] => fixed(alloc, number(moment)),
        ["machine"] => machine(alloc, rt),
        _ => said(alloc, "none"),
    }
}
