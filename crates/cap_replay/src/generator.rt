// A schedule of many sales at four terminals, made by rule.
ghost use Rattle.std.specs.Prelude.{◌≡◌, ◌≤◌, ◌<◌, ◌+◌, [], ◌∷◌, ◌++◌, IfOk, OnOk};
ghost use Rattle.cap_schedule.specs.declared.schedule.HostOrder.TheVariants as H;
ghost use Rattle.cap_schedule.specs.declared.schedule.Action.TheVariants.{AtTerminal, AtHost};
ghost use Rattle.cap_replay.specs.Generator.{deliveries as spec_deliveries, is_cancelled as spec_cancelled, is_repeated as spec_repeated, ups, exchange as spec_exchange, cancellation, sale_at, sales_actions, closing_at, made_actions, made_schedule};
ghost use Rattle.cap_replay.specs.Tallies.{Adds, tally_after, tallies_at};

use crate::makings::{account_of, amount_of, set_up};
use cap_base::Memory;
use cap_schedule::{Action, HostOrder, Line, Order, Schedule};
use sqlite_items::Items;
use std::alloc::Global;

/// What is known of a terminal while its lines are made: how many sales it has made, for each of which it sent a message, and how many answers it has.
#[derive(Clone, Copy)]
pub struct Tally {
    pub sales: u64,
    pub answers: u64,
}

const NOTHING: Tally = Tally {
    sales: 0,
    answers: 0,
};

// Adds a line. Five lines before the first set the ends up.
#[tactic(auto, using(crate::proofs::Adding::adds_one))]
fn put(lines: &mut Items<Line>, action: Action) -> Result<(), Memory>
    ensures { OnOk result (Adds lines.old lines.new (action ∷ [])) }
{
    let number = lines.as_slice().len() as u64 + 6;
    lines.push(Line {
        number,
        prefix: None,
        action,
    })?;
    Ok(())
}

// A line of a terminal.
fn put_order(lines: &mut Items<Line>, place: u64, order: Order) -> Result<(), Memory>
    ensures { OnOk result (Adds lines.old lines.new (AtTerminal place order ∷ [])) }
{
    put(lines, Action::AtTerminal { place, order })
}

// A message is delivered.
fn put_up(lines: &mut Items<Line>, place: u64, message: u64) -> Result<(), Memory>
    ensures { OnOk result (Adds lines.old lines.new (AtHost (H.Up place message) ∷ [])) }
{
    put(
        lines,
        Action::AtHost(HostOrder::Up {
            terminal: place,
            which: message,
        }),
    )
}

// A message is delivered, once or twice.
#[tactic(auto, using(crate::proofs::Adding::ups_once, crate::proofs::Adding::ups_twice))]
fn put_ups(lines: &mut Items<Line>, place: u64, message: u64, again: bool) -> Result<(), Memory>
    ensures { OnOk result (Adds lines.old lines.new (ups place message again)) }
{
    put_up(lines, place, message)?;
    if again {
        put_up(lines, place, message)?;
        return Ok(());
    }
    Ok(())
}

// A batch, its way up, and the way of the first answer down.
fn exchange(
    lines: &mut Items<Line>,
    place: u64,
    message: u64,
    answer: u64,
    again: bool,
) -> Result<(), Memory>
    ensures { OnOk result (Adds lines.old lines.new (spec_exchange place message answer again)) }
{
    put_order(lines, place, Order::Batch(100))?;
    put_ups(lines, place, message, again)?;
    put_order(lines, place, Order::Down(answer))?;
    Ok(())
}

// A cancellation, where the i-th sale is cancelled.
#[tactic(auto, using(crate::proofs::Adding::cancelled_is, crate::proofs::Adding::not_cancelled))]
fn put_cancellation(lines: &mut Items<Line>, i: u64, place: u64, number: u64) -> Result<(), Memory>
    ensures { OnOk result (Adds lines.old lines.new (cancellation i place number)) }
{
    if is_cancelled(i) {
        put_order(lines, place, Order::Cancel(number))?;
        return Ok(());
    }
    Ok(())
}

// Whether the i-th sale is cancelled.
fn is_cancelled(i: u64) -> bool
    ensures { result ≡ spec_cancelled i }
{
    i % 5 == 0
}

// Whether the message of the i-th sale is delivered twice.
fn is_repeated(i: u64) -> bool
    ensures { result ≡ spec_repeated i }
{
    i % 3 == 0
}

// How often the message of the i-th sale is delivered.
fn deliveries(i: u64) -> u64
    ensures count { result ≡ spec_deliveries i }
    ensures few { result ≤ 2 }
{
    if is_repeated(i) { 2 } else { 1 }
}

// The lines of the i-th sale of all.
fn put_lines_of_sale(
    lines: &mut Items<Line>,
    i: u64,
    place: u64,
    number: u64,
    answer: u64,
) -> Result<(), Memory>
    requires first { 1 ≤ i }
    requires last { i ≤ 10000 }
    ensures { OnOk result (Adds lines.old lines.new (sale_at i place number answer)) }
{
    let order = Order::Sale {
        amount: amount_of(i),
        account: account_of(i),
    };
    put_order(lines, place, order)?;
    put_cancellation(lines, i, place, number)?;
    exchange(lines, place, number, answer, is_repeated(i))?;
    Ok(())
}

// The i-th sale of all, at a terminal of which this is known before: what is known of it after that.
fn put_sale(lines: &mut Items<Line>, i: u64, place: u64, tally: Tally) -> Result<Tally, Memory>
    requires first { 1 ≤ i }
    requires last { i ≤ 10000 }
    requires sales { tally.sales ≤ 10000 }
    requires answers { tally.answers ≤ 20000 }
    ensures tally { IfOk result (λ now. now ≡ tally_after i tally) }
    ensures lines { OnOk result (Adds lines.old lines.new (sale_at i place (tally.sales + 1) (tally.answers + 1))) }
{
    let number = tally.sales + 1;
    put_lines_of_sale(lines, i, place, number, tally.answers + 1)?;
    Ok(Tally {
        sales: number,
        answers: tally.answers + deliveries(i),
    })
}

// All sales: what is known of each terminal after them.
fn put_sales(lines: &mut Items<Line>, sales: u64) -> Result<[Tally; 4], Memory>
    requires { sales ≤ 10000 }
    ensures tallies { IfOk result (λ tallies. tallies ≡ tallies_at sales) }
    ensures lines { OnOk result (Adds lines.old lines.new (sales_actions sales)) }
{
    let mut tallies = [NOTHING; 4];
    for n in 0..sales {
        let place = n % 4;
        let tally = tallies[place as usize];
        tallies[place as usize] = put_sale(lines, n + 1, place, tally)?;
    }
    Ok(tallies)
}

// The closing of a terminal.
fn put_closing(lines: &mut Items<Line>, place: u64, tally: Tally) -> Result<(), Memory>
    requires sales { tally.sales ≤ 10000 }
    requires answers { tally.answers ≤ 20000 }
    ensures { OnOk result (Adds lines.old lines.new (closing_at place (tally.sales + 1) (tally.answers + 1))) }
{
    put_order(lines, place, Order::Close)?;
    exchange(lines, place, tally.sales + 1, tally.answers + 1, false)?;
    Ok(())
}

// The closing of each terminal.
fn put_closings(
    lines: &mut Items<Line>,
    first: Tally,
    second: Tally,
    third: Tally,
    fourth: Tally,
) -> Result<(), Memory>
    requires first { (first.sales ≤ 10000) × (first.answers ≤ 20000) }
    requires second { (second.sales ≤ 10000) × (second.answers ≤ 20000) }
    requires third { (third.sales ≤ 10000) × (third.answers ≤ 20000) }
    requires fourth { (fourth.sales ≤ 10000) × (fourth.answers ≤ 20000) }
    ensures { OnOk result (Adds lines.old lines.new (closing_at 0 (first.sales + 1) (first.answers + 1) ++ (closing_at 1 (second.sales + 1) (second.answers + 1) ++ (closing_at 2 (third.sales + 1) (third.answers + 1) ++ closing_at 3 (fourth.sales + 1) (fourth.answers + 1))))) }
{
    put_closing(lines, 0, first)?;
    put_closing(lines, 1, second)?;
    put_closing(lines, 2, third)?;
    put_closing(lines, 3, fourth)?;
    Ok(())
}

// All lines.
fn put_all(lines: &mut Items<Line>, sales: u64) -> Result<(), Memory>
    requires { sales ≤ 10000 }
    ensures { OnOk result (Adds lines.old lines.new (made_actions sales)) }
{
    let tallies = put_sales(lines, sales)?;
    put_closings(lines, tallies[0], tallies[1], tallies[2], tallies[3])?;
    Ok(())
}

/// The schedule of so many sales, 1 to 10,000. The one error is want of memory.
pub fn made(alloc: Global, sales: u64) -> Result<Schedule, Memory>
    requires first { 1 ≤ sales }
    requires last { sales ≤ 10000 }
    ensures { IfOk result (λ schedule. schedule ≡ made_schedule sales) }
{
    let mut lines = Items::new(alloc);
    put_all(&mut lines, sales)?;
    let schedule = set_up(alloc, sales, lines)?;
    Ok(schedule)
}
