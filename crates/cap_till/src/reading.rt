// Lines from their bytes.
ghost use Rattle.std.specs.Prelude.{◌≡◌, IfOk, map};
ghost use Rattle.cap_till.specs.Language.{bare_line as spec_bare, numbered_line as spec_numbered, paid_line as spec_paid, line_of_words, till_line};

use crate::line::TillLine;
use cap_base::{Account, Amount, read_number};
use cap_schedule::pieces_of;
use std::alloc::{AllocError, Global};

// A line of a verb alone.
fn bare_line(verb: &[u8]) -> Option<TillLine>
    ensures { result ≡ spec_bare verb.now }
{
    if verb == b"close".as_slice() {
        Some(TillLine::Close)
    } else if verb == b"flush".as_slice() {
        Some(TillLine::Flush)
    } else if verb == b"diagnose".as_slice() {
        Some(TillLine::Diagnose)
    } else if verb == b"config".as_slice() {
        Some(TillLine::Config)
    } else if verb == b"plan".as_slice() {
        Some(TillLine::Plan)
    } else if verb == b"status".as_slice() {
        Some(TillLine::Status)
    } else {
        None
    }
}

// A line of a verb and a number.
fn numbered_line(verb: &[u8], number: Option<u64>) -> Option<TillLine>
    ensures { result ≡ spec_numbered verb.now number }
{
    let n = number?;
    if verb == b"void".as_slice() {
        Some(TillLine::Void(n))
    } else if verb == b"cancel".as_slice() {
        Some(TillLine::Cancel(n))
    } else if verb == b"askcancel".as_slice() {
        Some(TillLine::AskCancel(n))
    } else {
        None
    }
}

// A line of a verb, an amount and an account.
fn paid_line(verb: &[u8], amount: Option<Amount>, account: Option<Account>) -> Option<TillLine>
    ensures { result ≡ spec_paid verb.now amount account }
{
    match (amount, account) {
        (Some(amount), Some(account)) => {
            if verb == b"sale".as_slice() {
                Some(TillLine::Sale { amount, account })
            } else {
                None
            }
        }
        _ => None,
    }
}

// The line that these words are.
fn line_of(words: &[&[u8]]) -> Option<TillLine>
    ensures { result ≡ line_of_words (map (λ w. w.now) words.now) }
{
    match words {
        [verb] => bare_line(verb),
        [verb, number] => numbered_line(verb, read_number(number, 10)),
        [verb, amount, account] => paid_line(verb, Amount::read(amount), Account::read(account)),
        [_, _, _, _, ..] => None,
        _ => None,
    }
}

/// The line that these bytes are, without a line feed; None where they are none. An empty line and a comment are none.
pub fn read_line(alloc: Global, line: &[u8]) -> Result<Option<TillLine>, AllocError>
    ensures { IfOk result (λ read. read ≡ till_line line.now) }
{
    let words = pieces_of(alloc, line, b' ')?;
    Ok(line_of(words.as_slice()))
}
