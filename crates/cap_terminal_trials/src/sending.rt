// Rows on what the terminal sends.
use crate::fault::Fault;
use crate::row::number;
use cap_base::DataSet;
use cap_batch_msgs::BatchBody;
use cap_entries::TermEntry;
use cap_journal::Journal;
use cap_mgmt_msgs::MgmtBody;
use cap_msgs::{Body, Message};
use cap_sale_msgs::SaleBody;
use cap_terminal::Terminal;
use std::alloc::Global;
use std::string::String;

// 2023-11-14T22:13:25Z.
const MOMENT: u64 = 1_700_000_005;

// The sort of a message on one sale, and its sum in hundredths.
fn sale_body(body: &SaleBody) -> (&'static str, u64) {
    match body {
        SaleBody::AuthRequest { amount, .. } => ("question", amount.hundredths()),
        SaleBody::Completion(_) => ("completion", 0),
        SaleBody::CancelRequest { amount } => ("cancel question", amount.hundredths()),
        SaleBody::CancelAdvice { amount, .. } => ("cancel advice", amount.hundredths()),
        _ => ("other", 0),
    }
}

// The sort of a message on more than one, and its number: of items, of the last item acknowledged, of a period.
fn batch_body(body: &BatchBody) -> (&'static str, u64) {
    match body {
        BatchBody::Batch(items) => ("batch", items.as_slice().len() as u64),
        BatchBody::Diagnostic { last } => ("diagnostic", *last),
        BatchBody::Reconcile { period, .. } => ("closing", *period),
        _ => ("other", 0),
    }
}

fn sort_of(body: &Body) -> (&'static str, u64) {
    match body {
        Body::Sale(body) => sale_body(body),
        Body::Batch(body) => batch_body(body),
        Body::Management(_) => ("management", 0),
    }
}

// A message in short: its exchange, how often it was sent before, and what it is about.
fn short(alloc: Global, message: &Message) -> Result<String, Fault> {
    let (sort, count) = sort_of(&message.body);
    let exchange = message.header.exchange;
    let repeat = message.header.repeat;
    Ok(format!(in alloc; "{exchange} {repeat:?} {sort} {count}")?)
}

fn short_or_none(alloc: Global, message: &Option<Message>) -> Result<String, Fault> {
    match message {
        Some(message) => short(alloc, message),
        None => Ok(String::from_str(alloc, "none")?),
    }
}

/// `head 2`: the first item that is not acknowledged, sent so often before.
pub(crate) fn head<J: Journal<TermEntry>>(
    alloc: Global,
    terminal: &Terminal<J>,
    words: [&str; 6],
) -> Result<String, Fault> {
    let repeat = words[0].parse::<u16>().unwrap_or(0).min(999);
    short_or_none(alloc, &terminal.head(MOMENT, repeat))
}

/// `batch 100`: a batch of at most so many items.
pub(crate) fn batch<J: Journal<TermEntry>>(
    alloc: Global,
    terminal: &Terminal<J>,
    words: [&str; 6],
) -> Result<String, Fault> {
    let limit = number(words[0]);
    if limit < 1 || limit > 100 {
        return Ok(String::from_str(alloc, "no limit")?);
    }
    let message = terminal.batch(limit as usize, MOMENT, 0)?;
    short_or_none(alloc, &message)
}

// The question on a pending sale.
fn asked<J: Journal<TermEntry>>(terminal: &Terminal<J>, n: u64) -> Option<Message> {
    let begun = terminal.take_pending(n)?;
    let message = terminal.ask(&begun, MOMENT);
    begun.set_aside();
    Some(message)
}

/// `ask 1`: the question on a pending sale.
pub(crate) fn ask<J: Journal<TermEntry>>(
    alloc: Global,
    terminal: &Terminal<J>,
    words: [&str; 6],
) -> Result<String, Fault> {
    short_or_none(alloc, &asked(terminal, number(words[0])))
}

/// `askcancel 1`: the question whether a sale may be cancelled.
pub(crate) fn ask_cancel<J: Journal<TermEntry>>(
    alloc: Global,
    terminal: &Terminal<J>,
    words: [&str; 6],
) -> Result<String, Fault> {
    match terminal.ask_cancel(number(words[0]), MOMENT) {
        Ok(message) => short(alloc, &message),
        Err(fault) => Ok(format!(in alloc; "{fault:?}")?),
    }
}

/// `diagnose`: the question how far the host is.
pub(crate) fn diagnose<J: Journal<TermEntry>>(
    alloc: Global,
    terminal: &Terminal<J>,
) -> Result<String, Fault> {
    short(alloc, &terminal.diagnose(MOMENT))
}

// The numbers of a status report.
fn versions(message: &Message) -> Option<(DataSet, u64, u64, u64)> {
    match &message.body {
        Body::Management(
            MgmtBody::Status {
                wanted,
                in_force,
                staged,
                parts,
            },
        ) => Some((*wanted, *in_force, *staged, *parts)),
        _ => None,
    }
}

/// `status AQPR`: the report that asks for parameters, or for the plan.
pub(crate) fn status<J: Journal<TermEntry>>(
    alloc: Global,
    terminal: &Terminal<J>,
    words: [&str; 6],
) -> Result<String, Fault> {
    let message = if words[0] == "AQPR" {
        terminal.status_report(DataSet::Aqpr, MOMENT)
    } else {
        terminal.status_report(DataSet::Mgtp, MOMENT)
    };
    let told = versions(&message);
    Ok(format!(in alloc; "{told:?}")?)
}
