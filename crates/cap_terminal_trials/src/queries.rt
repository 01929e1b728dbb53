// Rows that ask what the terminal knows.
use crate::fault::Fault;
use crate::row::number;
use cap_entries::TermEntry;
use cap_journal::Journal;
use cap_terminal::Terminal;
use std::alloc::Global;
use std::string::String;

/// `counts`: how many sales were begun and how they ended, and how many periods were closed.
pub(crate) fn counts<J: Journal<TermEntry>>(
    alloc: Global,
    terminal: &Terminal<J>,
) -> Result<String, Fault> {
    let counts = terminal.counts();
    Ok(format!(in alloc; "{counts:?}")?)
}

/// `queue`: the number of items, of those acknowledged, and the first that is not.
pub(crate) fn queue<J: Journal<TermEntry>>(
    alloc: Global,
    terminal: &Terminal<J>,
) -> Result<String, Fault> {
    let (len, acked, head) = (terminal.items_len(), terminal.acked(), terminal.head_no());
    Ok(format!(in alloc; "{len} items, {acked} acknowledged, head {head:?}")?)
}

/// `limits`: the set-up's, and the parameter set and the floor in force.
pub(crate) fn limits<J: Journal<TermEntry>>(
    alloc: Global,
    terminal: &Terminal<J>,
) -> Result<String, Fault> {
    let (max, own) = (terminal.setup().max(), terminal.setup().floor());
    let (version, floor) = (terminal.in_force(), terminal.floor());
    Ok(format!(in alloc; "{max} {own}, version {version}, floor {floor}")?)
}

/// `pending 1`: whether the sale is pending, and the first pending one from there on.
pub(crate) fn pending<J: Journal<TermEntry>>(
    alloc: Global,
    terminal: &Terminal<J>,
    words: [&str; 6],
) -> Result<String, Fault> {
    let n = number(words[0]);
    let (is, from) = (terminal.is_pending(n), terminal.pending_from(n));
    Ok(format!(in alloc; "{is} {from:?}")?)
}

/// `totals 1`: a period's totals.
pub(crate) fn totals<J: Journal<TermEntry>>(
    alloc: Global,
    terminal: &Terminal<J>,
    words: [&str; 6],
) -> Result<String, Fault> {
    let totals = terminal.totals(number(words[0]));
    Ok(format!(in alloc; "{totals:?}")?)
}
