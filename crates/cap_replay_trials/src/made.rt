// The schedules that are made by rule.
use crate::lines::line_of;
use cap_base::read_number;
use cap_replay::made;
use cap_schedule::{Action, Order, Schedule};
use std::alloc::{AllocError, Global};

fn schedule_of(alloc: Global, sales: &str) -> Result<Option<Schedule>, AllocError> {
    match read_number(sales.as_bytes(), 10) {
        Some(count) => {
            if 1 <= count && count <= 10_000 {
                match made(alloc, count) {
                    Ok(schedule) => Ok(Some(schedule)),
                    Err(_) => Err(AllocError),
                }
            } else {
                Ok(None)
            }
        }
        None => Ok(None),
    }
}

fn all_lines(alloc: Global, schedule: &Schedule) -> Result<String, AllocError> {
    let mut text = String::new(alloc);
    for line in schedule.lines.as_slice() {
        let told = line_of(alloc, line)?;
        text.push_str(told.as_str())?;
        text.push('\n')?;
    }
    Ok(text)
}

/// Each line of the schedule of so many sales.
pub fn lines_of(alloc: Global, sales: &str) -> Result<String, AllocError> {
    match schedule_of(alloc, sales)? {
        Some(schedule) => all_lines(alloc, &schedule),
        None => String::from_str(alloc, "no schedule"),
    }
}

fn account_of<'a>(schedule: &'a Schedule) -> &'a [u8] {
    match schedule.lines.get(0) {
        Some(line) => match &line.action {
            Action::AtTerminal {
                order: Order::Sale { account, .. },
                ..
            } => account.as_bytes(),
            _ => b"none",
        },
        None => b"none",
    }
}

fn last_of(schedule: &Schedule) -> u64 {
    match schedule.lines.as_slice().last() {
        Some(line) => line.number,
        None => 0,
    }
}

/// How many lines and terminals it has, the number of its last line, and the account of its first sale.
pub fn counts_of(alloc: Global, sales: &str) -> Result<String, AllocError> {
    match schedule_of(alloc, sales)? {
        Some(schedule) => {
            let lines = schedule.lines.as_slice().len();
            let terminals = schedule.terminals.as_slice().len();
            let last = last_of(&schedule);
            let account = String::from_utf8_lossy(alloc, account_of(&schedule))?;
            format!(in alloc; "lines {lines} terminals {terminals} last {last} account {account}")
        }
        None => String::from_str(alloc, "no schedule"),
    }
}
