// What a made schedule is made of: its set-ups, and the amounts and accounts of its sales.
ghost use Rattle.std.specs.Prelude.{◌≡◌, ◌≤◌, ◌<◌, [], ◌∷◌, true, false, bytes_eq, codes, IfOk};
ghost use Rattle.cap_base.specs.Text.{is_ident};
ghost use Rattle.cap_replay.specs.Generator.{host_name as spec_host_name, terminal_names, terminal_of, terminals_of, made_host, amount_of_sale, digit_at, account_of_sale};
ghost use Rattle.cap_schedule.specs.SetUps.{plan_start as spec_start};

use cap_base::{Account, Amount, Ident, Memory};
use cap_entries::{Blocks, HostSetup, Idents, TermSetup};
use cap_leaf::{DateTime, Zone};
use cap_schedule::{Line, Schedule};
use sqlite_items::Items;
use std::alloc::Global;

/// The amount of the i-th sale.
pub(crate) fn amount_of(i: u64) -> Amount
    requires { i ≤ 10000 }
    ensures { result ≡ amount_of_sale i }
{
    match Amount::new(1 + i * 7919 % 1999) {
        Some(amount) => amount,
        None => unreachable!(),
    }
}

// The digit of a number at a power of ten.
fn digit(i: u64, power: u64) -> u8
    requires { 1 ≤ power }
    ensures { result ≡ digit_at i power }
{
    b'0' + (i / power % 10) as u8
}

// The text of the account.
fn account_text(i: u64) -> [u8; 16]
    ensures { result ≡ account_of_sale i }
{
    [
        b'4',
        b'0',
        b'0',
        b'0',
        b'0',
        b'0',
        digit(i, 1_000_000_000),
        digit(i, 100_000_000),
        digit(i, 10_000_000),
        digit(i, 1_000_000),
        digit(i, 100_000),
        digit(i, 10_000),
        digit(i, 1_000),
        digit(i, 100),
        digit(i, 10),
        digit(i, 1),
    ]
}

/// The account of the i-th sale.
pub(crate) fn account_of(i: u64) -> Account
    ensures { result ≡ account_of_sale i }
{
    match Account::read(&account_text(i)) {
        Some(account) => account,
        None => unreachable!(),
    }
}

// The name with this spelling.
fn named(text: &[u8]) -> Ident
    requires { is_ident text.now ≡ true }
    ensures { result ≡ text.now }
{
    match Ident::read(text) {
        Some(id) => id,
        None => unreachable!(),
    }
}

// A terminal of the host.
fn terminal(text: &[u8], sales: u64) -> TermSetup
    requires spelling { is_ident text.now ≡ true }
    requires other { bytes_eq text.now (codes "ACQ1") ≡ false }
    requires first { 1 ≤ sales }
    requires last { sales ≤ 10000 }
    ensures { result ≡ terminal_of sales text.now }
{
    match TermSetup::new(named(text), named(b"ACQ1"), sales, 2_000) {
        Some(setup) => setup,
        None => unreachable!(),
    }
}

// The terminals.
fn terminals(alloc: Global, sales: u64) -> Result<Items<TermSetup>, Memory>
    requires first { 1 ≤ sales }
    requires last { sales ≤ 10000 }
    ensures { IfOk result (λ terminals. terminals ≡ terminals_of sales) }
{
    let mut terminals = Items::new(alloc);
    terminals.push(terminal(b"T1", sales))?;
    terminals.push(terminal(b"T2", sales))?;
    terminals.push(terminal(b"T3", sales))?;
    terminals.push(terminal(b"T4", sales))?;
    Ok(terminals)
}

// The names of the terminals.
fn names(alloc: Global) -> Result<Idents, Memory>
    ensures { IfOk result (λ names. names ≡ terminal_names) }
{
    let names = vec![in alloc; named(b"T1"), named(b"T2"), named(b"T3"), named(b"T4")]?;
    match Idents::new(names) {
        Some(names) => Ok(names),
        None => unreachable!(),
    }
}

// The start of every schedule's plan.
fn plan_start() -> DateTime
    ensures { result ≡ spec_start }
{
    DateTime {
        year: 2023,
        month: 11,
        day: 14,
        hour: 22,
        minute: 13,
        second: 20,
        millis: None,
        zone: Zone::Utc,
    }
}

// The amount up to which the host approves.
fn limit() -> Amount
    ensures { result ≡ 50000 }
{
    match Amount::new(50_000) {
        Some(limit) => limit,
        None => unreachable!(),
    }
}

// No prefix is blocked.
fn no_blocks(alloc: Global) -> Blocks
    ensures { result ≡ [] }
{
    match Blocks::new(Vec::new(alloc)) {
        Some(blocks) => blocks,
        None => unreachable!(),
    }
}

// The host.
fn host(alloc: Global) -> Result<HostSetup, Memory>
    ensures { IfOk result (λ host. host ≡ made_host) }
{
    let names = names(alloc)?;
    match HostSetup::new(
        named(b"ACQ1"),
        limit(),
        no_blocks(alloc),
        60,
        plan_start(),
        names,
    ) {
        Some(host) => Ok(host),
        None => unreachable!(),
    }
}

/// The schedule of these lines, with terminals that may begin so many sales.
pub(crate) fn set_up(alloc: Global, sales: u64, lines: Items<Line>) -> Result<Schedule, Memory>
    requires first { 1 ≤ sales }
    requires last { sales ≤ 10000 }
    ensures { IfOk result (λ schedule. schedule ≡ record { host = made_host; terminals = terminals_of sales; lines = lines }) }
{
    let host = host(alloc)?;
    let terminals = terminals(alloc, sales)?;
    Ok(Schedule {
        host,
        terminals,
        lines,
    })
}
