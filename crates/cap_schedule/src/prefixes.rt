ghost use Rattle.std.specs.Prelude.{◌≡◌, ◌≤◌, length, map};
ghost use Rattle.cap_schedule.specs.Prefixes.{digits_fill as spec_digits, fill_of as spec_fill, call_of as spec_call, armed_as as spec_armed_as, armed as spec_armed, is_cut_after as spec_cut_after, is_arming as spec_arming, prefix_in as spec_prefix, prefix_len as spec_len, after_prefix as spec_after};

use crate::hex::hex_byte;
use crate::schedule::Prefix;
use cap_base::read_number;
use cap_disk::Fill;

// The filling of two hexadecimal digits.
fn digits_fill(word: &[u8]) -> Option<Fill>
    ensures { result ≡ spec_digits word.now }
{
    match word {
        [high, low] => match hex_byte(*high, *low) {
            Some(b) => Some(Fill::Byte(b)),
            None => None,
        },
        [_, _, _, ..] => None,
        _ => None,
    }
}

// The filling that a word names.
fn fill_of(word: &[u8]) -> Option<Fill>
    ensures { result ≡ spec_fill word.now }
{
    if word == b"old".as_slice() {
        Some(Fill::Old)
    } else if word == b"new".as_slice() {
        Some(Fill::New)
    } else {
        digits_fill(word)
    }
}

// The number of a call: 1 to 1,000,000.
fn call_of(word: &[u8]) -> Option<u64>
    ensures { result ≡ spec_call word.now }
{
    let n = read_number(word, 10)?;
    if 1 <= n && n <= 1_000_000 {
        Some(n)
    } else {
        None
    }
}

// What `cut` or `fail` arms.
fn armed_as(word: &[u8], call: u64, fill: Fill) -> Prefix
    ensures { result ≡ spec_armed_as word.now call fill }
{
    if word == b"cut".as_slice() {
        Prefix::Cut { call, fill }
    } else {
        Prefix::Fail { call, fill }
    }
}

// The same, where both values are there.
fn armed(word: &[u8], call: Option<u64>, fill: Option<Fill>) -> Option<Option<Prefix>>
    ensures { result ≡ spec_armed word.now call fill }
{
    match (call, fill) {
        (Some(call), Some(fill)) => Some(Some(armed_as(word, call, fill))),
        _ => None,
    }
}

fn is_cut_after(a: &[u8], b: &[u8]) -> bool
    ensures { result ≡ spec_cut_after a.now b.now }
{
    a == b"cut".as_slice() && b == b"after".as_slice()
}

fn is_arming(a: &[u8]) -> bool
    ensures { result ≡ spec_arming a.now }
{
    a == b"cut".as_slice() || a == b"fail".as_slice()
}

/// What stands before the action: `Some(None)` where nothing does, None where it is no prefix.
pub fn prefix_in(words: &[&[u8]]) -> Option<Option<Prefix>>
    ensures { result ≡ spec_prefix (map (λ w. w.now) words.now) }
{
    match words {
        [a, b, c, ..] => {
            if is_cut_after(a, b) {
                Some(Some(Prefix::CutAfter))
            } else if is_arming(a) {
                armed(a, call_of(b), fill_of(c))
            } else {
                Some(None)
            }
        }
        _ => Some(None),
    }
}

// How many words stand before those of the action.
fn prefix_len(words: &[&[u8]]) -> usize
    ensures value { result ≡ spec_len (map (λ w. w.now) words.now) }
    ensures within { result ≤ length words.now }
{
    match words {
        [a, b, _, ..] => {
            if is_cut_after(a, b) {
                2
            } else if is_arming(a) {
                3
            } else {
                0
            }
        }
        _ => 0,
    }
}

/// The words of the action.
pub fn after_prefix<'a>(words: &'a [&'a [u8]]) -> &'a [&'a [u8]]
    ensures { map (λ w. w.now) result.now ≡ spec_after (map (λ w. w.now) words.now) }
{
    words.split_at(prefix_len(words)).1
}
