// Many sales, cancellations, batches and closings, against the plain calls.
ghost use Rattle.std.specs.Prelude.{◌≡◌, [], true, IfOk, IfSome};
ghost use Rattle.cap_base.specs.Fits.{all_fit};

use crate::documents::document;
use crate::fault::Fault;
use crate::journals::{add, card, entries_in, setup};
use crate::opening::opened;
use crate::row::number;
use crate::sales::{Outcome, sale};
use crate::state::{At, Trial};
use cap_base::{Item, Totals};
use cap_batch_msgs::BatchBody;
use cap_entries::{TermEntry, first_not_allowed};
use cap_journal::VecJournal;
use cap_msgs::{Body, Message};
use cap_plain::{items_of, totals_of};
use cap_terminal::Handled;
use std::alloc::Global;
use std::string::String;

const MOMENT: u64 = 1_700_000_005;

// The items of a message.
fn items_in(message: &Message) -> &[Item] {
    match &message.body {
        Body::Batch(BatchBody::Batch(items)) => items.as_slice(),
        _ => &[],
    }
}

// Whether the terminal takes the host's word that it has all items up to this one.
fn acknowledged(
    alloc: Global,
    terminal: &mut Trial,
    exchange: u64,
    last: u64,
) -> Result<bool, Fault> {
    let number = format!(in alloc; "{exchange}")?;
    let body = format!(in alloc;
        "<BtchTrfRspn><Rspn>APPR</Rspn><LastItm>{last}</LastItm></BtchTrfRspn>"
    )?;
    let text = document(
        alloc,
        [
            "ACQ1",
            "caaa.012",
            "AccptrBtchTrfRspn",
            "BTCP",
            &number,
            &body,
        ],
    )?;
    match terminal.handle(text.as_bytes()) {
        Ok(Handled::Acked(m)) => Ok(m == last),
        _ => Ok(false),
    }
}

// Sends a batch, and acknowledges all of it. Its items go to those that were sent.
fn exchange(alloc: Global, terminal: &mut Trial, sent: &mut Vec<Item>) -> Result<bool, Fault> {
    let Some(message) = terminal.batch(100, MOMENT, 0)? else {
        return Ok(true);
    };
    let items = items_in(&message);
    let first = message.header.exchange;
    let last = first.saturating_add(items.len() as u64).saturating_sub(1);
    sent.extend_from_slice(items)?;
    acknowledged(alloc, terminal, first, last)
}

// Sale i.
fn sold(terminal: &mut Trial, i: u64) -> bool {
    match card(1 + i.wrapping_mul(7919) % 1999) {
        Some((amount, account)) => sale(terminal, amount, account) == Outcome::Sale(i),
        None => false,
    }
}

// Sale i, of which each fifth is cancelled.
fn step(terminal: &mut Trial, i: u64) -> bool {
    sold(terminal, i) && (i % 5 != 0 || terminal.cancel(i).is_ok())
}

// What follows sale i: after each fiftieth a batch is sent, and after each thousandth the period is closed.
fn follow(
    alloc: Global,
    terminal: &mut Trial,
    sent: &mut Vec<Item>,
    i: u64,
) -> Result<bool, Fault> {
    if i % 50 == 0 && !exchange(alloc, terminal, sent)? {
        return Ok(false);
    }
    Ok(i % 1000 != 0 || terminal.close_period().is_ok())
}

// Whether so many sales went as they should, with all that follows them.
fn sales(
    alloc: Global,
    terminal: &mut Trial,
    sent: &mut Vec<Item>,
    count: u64,
) -> Result<bool, Fault> {
    for before in 0..count {
        let i = before.saturating_add(1);
        if !step(terminal, i) || !follow(alloc, terminal, sent, i)? {
            return Ok(false);
        }
    }
    Ok(true)
}

// Sends what is left, in at most 200 batches.
fn rest(alloc: Global, terminal: &mut Trial, sent: &mut Vec<Item>) -> Result<bool, Fault> {
    for _ in 0..200 {
        if !exchange(alloc, terminal, sent)? {
            return Ok(false);
        }
    }
    Ok(terminal.head_no().is_none())
}

// The items that the entries make, by the plain call. None where the entries are not allowed.
fn plain_items(alloc: Global, entries: &[TermEntry]) -> Result<Option<Vec<Item>>, Fault>
    ensures { IfOk result (λ found. IfSome found (λ items. all_fit [] items.items ≡ true)) }
{
    if first_not_allowed(alloc, entries)?.is_some() {
        return Ok(None);
    }
    Ok(Some(items_of(alloc, entries)?))
}

// Whether these totals, from period 0 on, are those that the plain call gives for the items.
fn are_totals(items: &[Item], totals: &[Option<Totals>]) -> Result<bool, Fault>
    requires { all_fit [] items.now ≡ true }
{
    for (p, given) in totals.iter().enumerate() {
        if totals_of(items, p as u64)? != *given {
            return Ok(false);
        }
    }
    Ok(true)
}

// Whether the plain calls make of the entries what was sent, and these totals.
fn agree(
    alloc: Global,
    entries: &[TermEntry],
    sent: &[Item],
    totals: &[Option<Totals>],
) -> Result<bool, Fault> {
    match plain_items(alloc, entries)? {
        Some(items) => Ok(items.as_slice() == sent && are_totals(items.as_slice(), totals)?),
        None => Ok(false),
    }
}

// The totals that the terminal tells of the first periods, from 0 on.
fn told_totals(alloc: Global, terminal: &Trial) -> Result<Vec<Option<Totals>>, Fault> {
    let mut totals = Vec::new(alloc);
    for p in 0..12 {
        totals.push(terminal.totals(p))?;
    }
    Ok(totals)
}

// What the terminal says of its entries, and whether the plain calls agree.
fn told(alloc: Global, terminal: Trial, sent: &[Item]) -> Result<String, Fault> {
    let (len, acked, counts) = (terminal.items_len(), terminal.acked(), terminal.counts());
    let totals = told_totals(alloc, &terminal)?;
    let mut journal = terminal.into_journal();
    let entries = entries_in(alloc, &mut journal)?;
    let word = if agree(alloc, &entries, sent, &totals)? {
        "equal"
    } else {
        "not equal"
    };
    let count = sent.len();
    Ok(format!(in alloc; "{len} items, {acked} acknowledged, {count} sent, {counts:?}, {word}")?)
}

// Sells so often, and sends all.
fn run(alloc: Global, terminal: Trial, count: u64) -> Result<String, Fault> {
    let mut terminal = terminal;
    let mut sent = Vec::new(alloc);
    if sales(alloc, &mut terminal, &mut sent, count)? && rest(alloc, &mut terminal, &mut sent)? {
        told(alloc, terminal, &sent)
    } else {
        Ok(String::from_str(alloc, "a step failed")?)
    }
}

/// `long 10000`: sells so often, with cancellations, batches and closings between, and tells whether the plain calls make the same of the entries.
pub(crate) fn long(alloc: Global, words: [&str; 6]) -> Result<(At, String), Fault> {
    let mut journal = VecJournal::new(alloc)?;
    add(&mut journal, setup(250_000, 2000))?;
    match opened(alloc, journal) {
        Ok(terminal) => Ok((At::Nothing, run(alloc, terminal, number(words[0]))?)),
        Err(_) => Err(Fault::Journal),
    }
}
