// Rows that add entries by a call.
use crate::documents::document;
use crate::fault::Fault;
use crate::journals::card;
use crate::row::number;
use crate::sales::{offline, sale, void};
use cap_entries::TermEntry;
use cap_journal::Journal;
use cap_terminal::{BeginFault, Terminal};
use std::alloc::Global;
use std::string::String;

/// `sell 1250`: begins a sale of this many hundredths, and completes it where it is at most the floor.
pub(crate) fn sell<J: Journal<TermEntry>>(
    alloc: Global,
    terminal: &mut Terminal<J>,
    words: [&str; 6],
) -> Result<String, Fault> {
    let Some((amount, account)) = card(number(words[0])) else {
        return Ok(String::from_str(alloc, "no sum")?);
    };
    let outcome = sale(terminal, amount, account);
    Ok(format!(in alloc; "{outcome:?}")?)
}

// Begins a sale, and leaves it pending.
fn begun<J: Journal<TermEntry>>(
    terminal: &mut Terminal<J>,
    hundredths: u64,
) -> Option<Result<u64, BeginFault>> {
    let (amount, account) = card(hundredths)?;
    match terminal.begin(amount, account) {
        Ok(begun) => {
            let n = begun.n();
            begun.set_aside();
            Some(Ok(n))
        }
        Err(fault) => Some(Err(fault)),
    }
}

/// `begin 1250`: begins a sale, and leaves it pending.
pub(crate) fn begin<J: Journal<TermEntry>>(
    alloc: Global,
    terminal: &mut Terminal<J>,
    words: [&str; 6],
) -> Result<String, Fault> {
    match begun(terminal, number(words[0])) {
        Some(answer) => Ok(format!(in alloc; "{answer:?}")?),
        None => Ok(String::from_str(alloc, "no sum")?),
    }
}

/// `offline 1`: completes a pending sale where it is at most the floor.
pub(crate) fn complete<J: Journal<TermEntry>>(
    alloc: Global,
    terminal: &mut Terminal<J>,
    words: [&str; 6],
) -> Result<String, Fault> {
    let outcome = offline(terminal, number(words[0]));
    Ok(format!(in alloc; "{outcome:?}")?)
}

/// `void 1`: gives up a pending sale.
pub(crate) fn give_up<J: Journal<TermEntry>>(
    alloc: Global,
    terminal: &mut Terminal<J>,
    words: [&str; 6],
) -> Result<String, Fault> {
    let outcome = void(terminal, number(words[0]));
    Ok(format!(in alloc; "{outcome:?}")?)
}

/// `cancel 1`: cancels a completed sale.
pub(crate) fn cancel<J: Journal<TermEntry>>(
    alloc: Global,
    terminal: &mut Terminal<J>,
    words: [&str; 6],
) -> Result<String, Fault> {
    let answer = terminal.cancel(number(words[0]));
    Ok(format!(in alloc; "{answer:?}")?)
}

/// `close`: closes the period.
pub(crate) fn close<J: Journal<TermEntry>>(
    alloc: Global,
    terminal: &mut Terminal<J>,
) -> Result<String, Fault> {
    let answer = terminal.close_period();
    Ok(format!(in alloc; "{answer:?}")?)
}

// How many periods were closed in the order of their numbers, of so many that were to be.
fn closed<J: Journal<TermEntry>>(terminal: &mut Terminal<J>, count: u64) -> u64 {
    for p in 0..count {
        match terminal.close_period() {
            Ok((number, _)) => {
                if number != p.saturating_add(1) {
                    return p;
                }
            }
            Err(_) => return p,
        }
    }
    count
}

/// `closes 3`: closes so many periods of a new terminal.
pub(crate) fn closes<J: Journal<TermEntry>>(
    alloc: Global,
    terminal: &mut Terminal<J>,
    words: [&str; 6],
) -> Result<String, Fault> {
    let count = closed(terminal, number(words[0]));
    Ok(format!(in alloc; "{count}")?)
}

/// `told ACQ1 caaa.004 AccptrCmpltnAdvcRspn CMPK 1 <..>`: what the terminal makes of a document.
pub(crate) fn told<J: Journal<TermEntry>>(
    alloc: Global,
    terminal: &mut Terminal<J>,
    words: [&str; 6],
) -> Result<String, Fault> {
    let text = document(alloc, words)?;
    let answer = terminal.handle(text.as_bytes());
    Ok(format!(in alloc; "{answer:?}")?)
}

/// `byte 0`: what the terminal makes of this one byte.
pub(crate) fn byte<J: Journal<TermEntry>>(
    alloc: Global,
    terminal: &mut Terminal<J>,
    words: [&str; 6],
) -> Result<String, Fault> {
    let answer = terminal.handle(&[words[0].parse::<u8>().unwrap_or(0)]);
    Ok(format!(in alloc; "{answer:?}")?)
}
