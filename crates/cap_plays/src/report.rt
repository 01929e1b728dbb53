ghost use Rattle.std.specs.Prelude.{◌≡◌, ◌++◌, OnOk, IfOk, string_bytes};
ghost use Rattle.cap_schedule.specs.Outcomes.{outcome_line};
ghost use Rattle.cap_plays.specs.Report.{sales_text, items_text, numbers_line, terminal_line, host_numbers, host_line, sold_text, cancelled_text, period_text, verdict_of};

use crate::numbers::TerminalNumbers;
use cap_base::{Ident, Totals};
use cap_schedule::Outcome;
use std::alloc::{AllocError, Global};

// Appends a piece of text.
fn put(text: &mut Vec<u8>, piece: &str) -> Result<(), AllocError>
    ensures { OnOk result (text.new.items ≡ text.old.items ++ piece.now) }
{
    text.extend_from_slice(piece.as_bytes())
}

// Appends bytes.
fn put_bytes(text: &mut Vec<u8>, piece: &[u8]) -> Result<(), AllocError>
    ensures { OnOk result (text.new.items ≡ text.old.items ++ piece.now) }
{
    text.extend_from_slice(piece)
}

/// Appends the line of an outcome. The one error is want of memory, here and below.
pub fn put_outcome(
    alloc: Global,
    text: &mut Vec<u8>,
    number: u64,
    outcome: &Outcome,
) -> Result<(), AllocError>
    ensures { OnOk result (text.new.items ≡ text.old.items ++ outcome_line number outcome.now) }
{
    let piece = format!(in alloc; "{number} {outcome}\n")?;
    put(text, piece.as_str())
}

// The first numbers of a terminal's line.
#[tactic(auto, unfolding(crate::specs::Report::sales_text))]
fn sales_piece(alloc: Global, numbers: TerminalNumbers) -> Result<String, AllocError>
    ensures { IfOk result (λ t. string_bytes t ≡ sales_text numbers) }
{
    let sales = numbers.sales;
    let completed = numbers.completed;
    let cancelled = numbers.cancelled;
    let voided = numbers.voided;
    format!(in alloc;
        "sales {sales} completed {completed} cancelled {cancelled} voided {voided} periods "
    )
}

// The last numbers of a terminal's line.
#[tactic(auto, unfolding(crate::specs::Report::items_text))]
fn items_piece(alloc: Global, numbers: TerminalNumbers) -> Result<String, AllocError>
    ensures { IfOk result (λ t. string_bytes t ≡ items_text numbers) }
{
    let periods = numbers.periods;
    let items = numbers.items;
    let acked = numbers.acked;
    let version = numbers.version;
    format!(in alloc; "{periods} items {items} acked {acked} set {version}")
}

/// Appends the numbers of a terminal, as a line without its name.
pub fn put_numbers(
    alloc: Global,
    text: &mut Vec<u8>,
    numbers: TerminalNumbers,
) -> Result<(), AllocError>
    ensures { OnOk result (text.new.items ≡ text.old.items ++ numbers_line numbers) }
{
    let sales = sales_piece(alloc, numbers)?;
    let items = items_piece(alloc, numbers)?;
    put(text, sales.as_str())?;
    put(text, items.as_str())?;
    put(text, "\n")
}

/// Appends the line of a terminal.
pub fn put_terminal(
    alloc: Global,
    text: &mut Vec<u8>,
    id: &Ident,
    numbers: TerminalNumbers,
) -> Result<(), AllocError>
    ensures { OnOk result (text.new.items ≡ text.old.items ++ terminal_line id.now numbers) }
{
    put(text, "terminal ")?;
    put_bytes(text, id.as_bytes())?;
    put(text, " ")?;
    put_numbers(alloc, text, numbers)
}

// The numbers of a log's line.
#[tactic(auto, unfolding(crate::specs::Report::host_numbers))]
fn host_piece(alloc: Global, len: u64, captured: u64, sum: u128) -> Result<String, AllocError>
    ensures { IfOk result (λ t. string_bytes t ≡ host_numbers len captured sum) }
{
    let whole = sum / 100;
    let tenths = sum / 10 % 10;
    let hundredths = sum % 10;
    format!(in alloc; " log {len} captured {captured} {whole}.{tenths}{hundredths}\n")
}

/// Appends the line of a terminal's log at the host: its length, how many sales are captured, and their sum in hundredths.
pub fn put_host(
    alloc: Global,
    text: &mut Vec<u8>,
    id: &Ident,
    len: u64,
    captured: u64,
    sum: u128,
) -> Result<(), AllocError>
    ensures { OnOk result (text.new.items ≡ text.old.items ++ host_line id.now len captured sum) }
{
    let piece = host_piece(alloc, len, captured, sum)?;
    put(text, "host ")?;
    put_bytes(text, id.as_bytes())?;
    put(text, piece.as_str())
}

// What a period sold.
#[tactic(auto, unfolding(crate::specs::Report::sold_text))]
fn sold_piece(alloc: Global, p: u64, totals: Totals) -> Result<String, AllocError>
    ensures { IfOk result (λ t. string_bytes t ≡ sold_text p totals) }
{
    let sales = totals.sales;
    let whole = totals.sales_sum / 100;
    let tenths = totals.sales_sum / 10 % 10;
    let hundredths = totals.sales_sum % 10;
    format!(in alloc; " {p} sales {sales} {whole}.{tenths}{hundredths} cancels ")
}

// What was cancelled in a period.
#[tactic(auto, unfolding(crate::specs::Report::cancelled_text))]
fn cancelled_piece(alloc: Global, totals: Totals) -> Result<String, AllocError>
    ensures { IfOk result (λ t. string_bytes t ≡ cancelled_text totals) }
{
    let cancels = totals.cancels;
    let whole = totals.cancels_sum / 100;
    let tenths = totals.cancels_sum / 10 % 10;
    let hundredths = totals.cancels_sum % 10;
    format!(in alloc; "{cancels} {whole}.{tenths}{hundredths}\n")
}

/// Appends the line of a period that a log has closed, with its totals.
pub fn put_period(
    alloc: Global,
    text: &mut Vec<u8>,
    id: &Ident,
    p: u64,
    totals: Totals,
) -> Result<(), AllocError>
    ensures { OnOk result (text.new.items ≡ text.old.items ++ period_text id.now p totals) }
{
    let sold = sold_piece(alloc, p, totals)?;
    let cancelled = cancelled_piece(alloc, totals)?;
    put(text, "period ")?;
    put_bytes(text, id.as_bytes())?;
    put(text, sold.as_str())?;
    put(text, cancelled.as_str())
}

/// Appends the verdict on a terminal that has so many items, of which the host has taken so many.
pub fn put_verdict(
    alloc: Global,
    text: &mut Vec<u8>,
    id: &Ident,
    items: u64,
    taken: u64,
) -> Result<(), AllocError>
    ensures { OnOk result (text.new.items ≡ text.old.items ++ verdict_of id.now items taken) }
{
    put(text, "verdict ")?;
    put_bytes(text, id.as_bytes())?;
    if items <= taken {
        return put(text, " agree\n");
    }
    let behind = items - taken;
    let piece = format!(in alloc; " behind {behind}\n")?;
    put(text, piece.as_str())
}
