// Rows that ask what the host knows.
ghost use Rattle.std.specs.Prelude.{◌≡◌, ◌<◌, true, length};
ghost use Rattle.cap_entries.specs.Log.{setup_of};
ghost use Rattle.cap_host.specs.Host.{entries_of};

use crate::fault::Fault;
use crate::row::{Words, number};
use crate::trial::InMemory;
use std::alloc::Global;
use std::string::String;

/// Whether there is a terminal at this place of the set-up, counted from 0.
pub(crate) fn has_terminal(host: &InMemory, terminal: u8) -> bool
    ensures { result ≡ true → terminal < length (setup_of (entries_of host.now)).terminals }
{
    (terminal as usize) < host.setup().terminals().as_slice().len()
}

// The place that a word tells.
fn place(word: &str) -> u8 {
    word.parse::<u8>().unwrap_or(0)
}

/// `log 0`: the number of items of the terminal at this place.
pub(crate) fn log(alloc: Global, host: &InMemory, words: Words<'_>) -> Result<String, Fault> {
    let terminal = place(words[0]);
    if !has_terminal(host, terminal) {
        return Ok(String::from_str(alloc, "no terminal")?);
    }
    Ok(format!(in alloc; "{}", host.log_len(terminal))?)
}

/// `totals 0 1`: the totals of a period of the terminal at this place.
pub(crate) fn totals(alloc: Global, host: &InMemory, words: Words<'_>) -> Result<String, Fault> {
    let terminal = place(words[0]);
    if !has_terminal(host, terminal) {
        return Ok(String::from_str(alloc, "no terminal")?);
    }
    let totals = host.totals(terminal, number(words[1]));
    Ok(format!(in alloc; "{totals:?}")?)
}

/// `capture 0 99`: a captured sale of the terminal at this place, counted from 0, and its sum in hundredths.
pub(crate) fn capture(
    alloc: Global,
    host: &mut InMemory,
    words: Words<'_>,
) -> Result<String, Fault> {
    let terminal = place(words[0]);
    if !has_terminal(host, terminal) {
        return Ok(String::from_str(alloc, "no terminal")?);
    }
    match host.capture_line(terminal, number(words[1])) {
        Ok(Some(line)) => Ok(format!(in alloc; "{} {}", line.n, line.amount.hundredths())?),
        Ok(None) => Ok(String::from_str(alloc, "none")?),
        Err(fault) => Ok(format!(in alloc; "{fault:?}")?),
    }
}

/// `newest`: the newest parameter set's version.
pub(crate) fn newest(alloc: Global, host: &InMemory) -> Result<String, Fault> {
    Ok(format!(in alloc; "{}", host.newest())?)
}
