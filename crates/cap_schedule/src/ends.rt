ghost use Rattle.std.specs.Prelude.{◌≡◌};
ghost use Rattle.std.specs.List.{list_any};
ghost use Rattle.cap_schedule.specs.SetUps.{is_named as spec_named, place_of as spec_place, end_of as spec_end, is_party as spec_party, is_free as spec_free};

use crate::schedule::End;
use cap_base::Ident;
use cap_entries::TermSetup;

fn is_named(t: &TermSetup, id: &[u8]) -> bool
    ensures { result ≡ spec_named id.now t.now }
{
    t.terminal().as_bytes() == id
}

// Whether a terminal has this name.
fn names_terminal(terminals: &[TermSetup], id: &[u8]) -> bool
    ensures { result ≡ list_any (spec_named id.now) terminals.now }
{
    terminals.iter().any(|t| is_named(t, id))
}

// The place of the terminal of this name.
fn position_of(terminals: &[TermSetup], id: &[u8]) -> Option<usize>
    ensures { result ≡ spec_place terminals.now id.now }
{
    terminals.iter().position(|t| is_named(t, id))
}

/// The place of the terminal of this name, from 0.
pub fn place_of(terminals: &[TermSetup], id: &[u8]) -> Option<u64>
    ensures { result ≡ spec_place terminals.now id.now }
{
    match position_of(terminals, id) {
        Some(place) => Some(place as u64),
        None => None,
    }
}

/// The end of this name.
pub fn end_of(host: &Ident, terminals: &[TermSetup], id: &[u8]) -> Option<End>
    ensures { result ≡ spec_end host.now terminals.now id.now }
{
    if id == host.as_bytes() {
        return Some(End::Host);
    }
    match place_of(terminals, id) {
        Some(place) => Some(End::Terminal(place)),
        None => None,
    }
}

/// Whether an end has this name.
pub fn is_party(host: &Ident, terminals: &[TermSetup], id: &[u8]) -> bool
    ensures { result ≡ spec_party host.now terminals.now id.now }
{
    if id == host.as_bytes() {
        true
    } else {
        names_terminal(terminals, id)
    }
}

/// Whether one more terminal may have this name.
pub fn is_free(id: &[u8], terminals: &[TermSetup]) -> bool
    ensures { result ≡ spec_free id.now terminals.now }
{
    terminals.len() < 16 && !names_terminal(terminals, id)
}
