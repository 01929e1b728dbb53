ghost use Rattle.std.specs.Prelude.{◌≡◌, drop};
ghost use Rattle.cap_text.specs.Faults.{begins_with as begins_test, version_ends as version_test, first_is_digit as digit_test, other_version as other_test, is_management as management_test, last_reason as last_by, leaf_reason as leaf_by, reason_by, fault_by};
ghost use Rattle.cap_text.specs.SeenKnown.{known_of};

use crate::known::Known;
use cap_base::Reason;
use cap_leaf::{Fault, Kind};

fn begins_with(front: &[u8], bytes: &[u8]) -> bool
    ensures { result ≡ begins_test front.now bytes.now }
{
    front == &bytes[..front.len().min(bytes.len())]
}

fn first_is_digit(bytes: &[u8]) -> bool
    ensures { result ≡ digit_test bytes.now }
{
    match bytes {
        [] => false,
        [first, ..] => first.is_ascii_digit(),
    }
}

// Whether at most so many digits and then a colon stand first.
fn version_ends(most: u8, bytes: &[u8]) -> bool
    ensures { result ≡ version_test most bytes.now }
{
    match bytes {
        [] => false,
        [first, rest @ ..] => {
            if most == 0 {
                *first == b':'
            } else {
                *first == b':' || (first.is_ascii_digit() && version_ends(most - 1, rest))
            }
        }
    }
}

// Whether a version other than 1 and a colon stand first.
fn other_version(bytes: &[u8]) -> bool
    ensures { result ≡ other_test bytes.now }
{
    (first_is_digit(bytes) && version_ends(3, bytes)) && !begins_with(b"1:", bytes)
}

fn is_management(named: Option<Kind>) -> bool
    ensures { result ≡ management_test named }
{
    matches!(
        named,
        Some(Kind::Catm001 | Kind::Catm002 | Kind::Catm003 | Kind::Catm004)
    )
}

fn last_reason(known: &Known, rest: &[u8]) -> Reason
    ensures { result ≡ last_by (known_of known.now) rest.now }
{
    let body_ended = known.depth == 2 && known.closed;
    if body_ended && begins_with(b"<SctyTrlr>", rest) {
        Reason::Secu
    } else if begins_with(b"<", rest) {
        Reason::Imsg
    } else {
        Reason::Pars
    }
}

fn leaf_reason(known: &Known, rest: &[u8]) -> Reason
    ensures { result ≡ leaf_by (known_of known.now) rest.now }
{
    if known.open_leaf {
        if known.version && first_is_digit(rest) {
            Reason::Vers
        } else {
            Reason::Imsg
        }
    } else {
        last_reason(known, rest)
    }
}

// A text from a place on.
fn after(bytes: &[u8], from: usize) -> &[u8]
    ensures { result.now ≡ drop from bytes.now }
{
    &bytes[from.min(bytes.len())..]
}

// Why the rest can't be read, where it is told whether a `>` stands in it.
fn reason(known: &Known, ends: bool, rest: &[u8]) -> Reason
    ensures { result ≡ reason_by (known_of known.now) ends rest.now }
{
    let unnamed = known.named.is_none();
    if !ends {
        Reason::Pars
    } else if unnamed
        && (begins_with(b"<Document xmlns=\"urn:x-cap20:", rest)
            && other_version(after(rest, 29)))
    {
        Reason::Vers
    } else if unnamed && begins_with(b"<Document xmlns=\"", rest) {
        Reason::Msgt
    } else {
        leaf_reason(known, rest)
    }
}

/// The fault of the rest, by what was read before it.
pub(crate) fn fault(known: &Known, ends: bool, rest: &[u8]) -> Fault
    ensures { result ≡ fault_by (known_of known.now) (reason_by (known_of known.now) ends rest.now) }
{
    Fault {
        place: known.place,
        reason: reason(known, ends, rest),
        exchange: known.exchange,
        from: known.from,
        management: is_management(known.named),
    }
}
