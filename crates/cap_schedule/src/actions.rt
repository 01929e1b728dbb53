ghost use Rattle.std.specs.Prelude.{◌≡◌, IfOk, map};
ghost use Rattle.cap_schedule.specs.Actions.{at_place as spec_at, bare_order as spec_bare, batch_of as spec_batch, numbered_order as spec_numbered, numbered_if as spec_numbered_if, paid_order as spec_paid, status_order as spec_status, up_of as spec_up, noise_at as spec_noise_at, noise_of as spec_noise, publish_of as spec_publish, restart_of as spec_restart, short_action as spec_short, valued_action as spec_valued, action_of as spec_action};

use crate::ends::{end_of, place_of};
use crate::hex::hex_bytes;
use crate::rows::set_in;
use crate::schedule::{Action, Bytes, End, HostOrder, Order};
use cap_base::{Account, Amount, DataSet, Ident, read_number};
use cap_entries::{RowSet, TermSetup};
use std::alloc::{AllocError, Global};

// What a terminal is asked, where both are there.
fn at_place(place: Option<u64>, order: Option<Order>) -> Option<Action>
    ensures { result ≡ spec_at place order }
{
    match (place, order) {
        (Some(place), Some(order)) => Some(Action::AtTerminal { place, order }),
        _ => None,
    }
}

// An order of a verb alone.
fn bare_order(verb: &[u8]) -> Option<Order>
    ensures { result ≡ spec_bare verb.now }
{
    if verb == b"close".as_slice() {
        Some(Order::Close)
    } else if verb == b"push".as_slice() {
        Some(Order::Push)
    } else if verb == b"diagnose".as_slice() {
        Some(Order::Diagnose)
    } else {
        None
    }
}

// A batch of at most so many items.
fn batch_of(n: u64) -> Option<Order>
    ensures { result ≡ spec_batch n }
{
    if 1 <= n && n <= 100 {
        Some(Order::Batch(n))
    } else {
        None
    }
}

// An order of a verb and a number.
fn numbered_order(verb: &[u8], n: u64) -> Option<Order>
    ensures { result ≡ spec_numbered verb.now n }
{
    if verb == b"offline".as_slice() {
        Some(Order::Offline(n))
    } else if verb == b"void".as_slice() {
        Some(Order::Void(n))
    } else if verb == b"cancel".as_slice() {
        Some(Order::Cancel(n))
    } else if verb == b"batch".as_slice() {
        batch_of(n)
    } else if verb == b"ask".as_slice() {
        Some(Order::Ask(n))
    } else if verb == b"askcancel".as_slice() {
        Some(Order::AskCancel(n))
    } else if verb == b"down".as_slice() {
        Some(Order::Down(n))
    } else if verb == b"walkout".as_slice() {
        Some(Order::Walkout(n))
    } else {
        None
    }
}

// The same, where there is a number.
fn numbered_if(verb: &[u8], n: Option<u64>) -> Option<Order>
    ensures { result ≡ spec_numbered_if verb.now n }
{
    match n {
        Some(n) => numbered_order(verb, n),
        None => None,
    }
}

// An order of a verb, an amount and an account.
fn paid_order(verb: &[u8], amount: Option<Amount>, account: Option<Account>) -> Option<Order>
    ensures { result ≡ spec_paid verb.now amount account }
{
    match (amount, account) {
        (Some(amount), Some(account)) => {
            if verb == b"begin".as_slice() {
                Some(Order::Begin { amount, account })
            } else if verb == b"sale".as_slice() {
                Some(Order::Sale { amount, account })
            } else {
                None
            }
        }
        _ => None,
    }
}

// A report of the versions, which asks for the set that a word names.
fn status_order(word: &[u8]) -> Option<Order>
    ensures { result ≡ spec_status word.now }
{
    if word == b"AQPR".as_slice() {
        Some(Order::Status(DataSet::Aqpr))
    } else if word == b"MGTP".as_slice() {
        Some(Order::Status(DataSet::Mgtp))
    } else {
        None
    }
}

// The host takes a message of the terminal at this place.
fn up_of(place: Option<u64>, which: Option<u64>) -> Option<Action>
    ensures { result ≡ spec_up place which }
{
    match (place, which) {
        (Some(terminal), Some(which)) => { Some(Action::AtHost(HostOrder::Up { terminal, which })) }
        _ => None,
    }
}

// The end takes bytes of nobody's.
fn noise_at(end: Option<End>, bytes: Bytes) -> Option<Action>
    ensures { result ≡ spec_noise_at end bytes }
{
    match end {
        None => None,
        Some(End::Host) => Some(Action::AtHost(HostOrder::Listen(bytes))),
        Some(End::Terminal(place)) => Some(Action::AtTerminal {
            place,
            order: Order::Hear(bytes),
        }),
    }
}

// The same, where there are 1 to 65,536 bytes.
fn noise_of(end: Option<End>, bytes: Option<Bytes>) -> Option<Action>
    ensures { result ≡ spec_noise end bytes }
{
    let bytes = bytes?;
    let len = bytes.as_slice().len();
    if 1 <= len && len <= 65_536 {
        noise_at(end, bytes)
    } else {
        None
    }
}

// The host publishes a set.
fn publish_of(rows: Option<RowSet>) -> Option<Action>
    ensures { result ≡ spec_publish rows }
{
    match rows {
        Some(rows) => Some(Action::AtHost(HostOrder::Publish(rows))),
        None => None,
    }
}

// The end is opened again.
fn restart_of(end: Option<End>) -> Option<Action>
    ensures { result ≡ spec_restart end }
{
    match end {
        Some(end) => Some(Action::Reopen(end)),
        None => None,
    }
}

// An action of two words.
fn short_action(
    alloc: Global,
    host: &Ident,
    terminals: &[TermSetup],
    verb: &[u8],
    word: &[u8],
) -> Result<Option<Action>, AllocError>
    ensures { IfOk result (λ o. o ≡ spec_short host.now terminals.now verb.now word.now) }
{
    if verb == b"publish".as_slice() {
        let rows = set_in(alloc, word)?;
        Ok(publish_of(rows))
    } else if verb == b"restart".as_slice() {
        Ok(restart_of(end_of(host, terminals, word)))
    } else {
        Ok(at_place(place_of(terminals, word), bare_order(verb)))
    }
}

// An action of three words.
fn valued_action(
    alloc: Global,
    host: &Ident,
    terminals: &[TermSetup],
    verb: &[u8],
    word: &[u8],
    value: &[u8],
) -> Result<Option<Action>, AllocError>
    ensures { IfOk result (λ o. o ≡ spec_valued host.now terminals.now verb.now word.now value.now) }
{
    if verb == b"noise".as_slice() {
        let bytes = hex_bytes(alloc, value)?;
        Ok(noise_of(end_of(host, terminals, word), bytes))
    } else if verb == b"up".as_slice() {
        Ok(up_of(place_of(terminals, word), read_number(value, 10)))
    } else if verb == b"status".as_slice() {
        Ok(at_place(place_of(terminals, word), status_order(value)))
    } else {
        let order = numbered_if(verb, read_number(value, 10));
        Ok(at_place(place_of(terminals, word), order))
    }
}

/// The action of these words, in a schedule of this host and these terminals.
pub fn action_of(
    alloc: Global,
    host: &Ident,
    terminals: &[TermSetup],
    words: &[&[u8]],
) -> Result<Option<Action>, AllocError>
    ensures { IfOk result (λ o. o ≡ spec_action host.now terminals.now (map (λ w. w.now) words.now)) }
{
    match words {
        [verb, word] => short_action(alloc, host, terminals, verb, word),
        [verb, word, value] => valued_action(alloc, host, terminals, verb, word, value),
        [verb, word, amount, account] => {
            let order = paid_order(verb, Amount::read(amount), Account::read(account));
            Ok(at_place(place_of(terminals, word), order))
        }
        [_, _, _, _, _, ..] => Ok(None),
        _ => Ok(None),
    }
}
