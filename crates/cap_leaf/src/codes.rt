ghost use Rattle.std.specs.Prelude.{◌≡◌, ◌<◌, ◌≤◌, true, length, IfSome, Some, slice_get};
ghost use Rattle.cap_leaf.specs.Codes.{codes_of, texts, function_codes, protocol_codes, code_at, is_list};
ghost use Rattle.cap_leaf.specs.Spelling.{place_in};

use crate::kinds::{CodeList, Kind};

static RESPONSES: [&str; 4] = ["APPR", "DECL", "PART", "TECH"];

static REASONS: [&str; 9] = [
    "UNPR", "IMSG", "PARS", "SECU", "INTP", "RCPP", "DPMG", "VERS", "MSGT",
];

static WANTED: [&str; 2] = ["AQPR", "MGTP"];

static SETS: [&str; 3] = ["AQPR", "MGTP", "STRP"];

static ACTS: [&str; 2] = ["DWNL", "UPLD"];

static FUNCTIONS: [&str; 15] = [
    "AUTQ", "AUTP", "CMPV", "CMPK", "CCAQ", "CCAP", "CCAV", "CCAK", "RCLQ", "RCLP", "BTCQ", "BTCP",
    "DGNQ", "DGNP", "RJCT",
];

static DIGITS: [&str; 10] = ["0", "1", "2", "3", "4", "5", "6", "7", "8", "9"];

// The code of a message's function. A `catm` message has none.
fn function(kind: Kind) -> &'static [&'static str]
    ensures texts { texts result.now ≡ function_codes kind }
    ensures few { length result.now ≤ 9 }
{
    match kind {
        Kind::Caaa001 => &FUNCTIONS[0..1],
        Kind::Caaa002 => &FUNCTIONS[1..2],
        Kind::Caaa003 => &FUNCTIONS[2..3],
        Kind::Caaa004 => &FUNCTIONS[3..4],
        Kind::Caaa005 => &FUNCTIONS[4..5],
        Kind::Caaa006 => &FUNCTIONS[5..6],
        Kind::Caaa007 => &FUNCTIONS[6..7],
        Kind::Caaa008 => &FUNCTIONS[7..8],
        Kind::Caaa009 => &FUNCTIONS[8..9],
        Kind::Caaa010 => &FUNCTIONS[9..10],
        Kind::Caaa011 => &FUNCTIONS[10..11],
        Kind::Caaa012 => &FUNCTIONS[11..12],
        Kind::Caaa013 => &FUNCTIONS[12..13],
        Kind::Caaa014 => &FUNCTIONS[13..14],
        Kind::Caaa015 => &FUNCTIONS[14..15],
        Kind::Catm001 | Kind::Catm002 | Kind::Catm003 | Kind::Catm004 => &[],
    }
}

// The version of the protocol: one digit.
fn protocol(digit: u8) -> &'static [&'static str]
    requires { digit < 10 }
    ensures texts { texts result.now ≡ protocol_codes digit }
    ensures few { length result.now ≤ 9 }
{
    match digit {
        0 => &DIGITS[0..1],
        1 => &DIGITS[1..2],
        2 => &DIGITS[2..3],
        3 => &DIGITS[3..4],
        4 => &DIGITS[4..5],
        5 => &DIGITS[5..6],
        6 => &DIGITS[6..7],
        7 => &DIGITS[7..8],
        8 => &DIGITS[8..9],
        _ => &DIGITS[9..10],
    }
}

/// The codes of a list, in their order.
pub(crate) fn codes(list: CodeList) -> &'static [&'static str]
    requires { is_list list ≡ true }
    ensures texts { texts result.now ≡ codes_of list }
    ensures few { length result.now ≤ 9 }
{
    match list {
        CodeList::Response => &RESPONSES,
        CodeList::Reason => &REASONS,
        CodeList::Wanted => &WANTED,
        CodeList::AnySet => &SETS,
        CodeList::Act => &ACTS,
        CodeList::Protocol(digit) => protocol(digit),
        CodeList::Function(kind) => function(kind),
    }
}

/// The place of a text among codes, from 0. None where it isn't one of them.
pub(crate) fn place(codes: &[&str], text: &[u8]) -> Option<usize>
    ensures value { result ≡ place_in (texts codes.now) 0 text.now }
    ensures within { IfSome result (λ at. at < length codes.now) }
{
    for (at, code) in codes.iter().enumerate() {
        if code.as_bytes() == text {
            return Some(at);
        }
    }
    None
}

/// The code of a list at a place.
pub(crate) fn code_text(list: CodeList, at: u8) -> &'static [u8]
    requires list { is_list list ≡ true }
    requires within { at < length (codes_of list) }
    ensures text { result.now ≡ code_at list at }
    ensures len { length result.now ≤ 4 }
{
    codes(list)[at as usize].as_bytes()
}
