ghost use Rattle.std.specs.Prelude.{◌≡◌, bytes_eq};
ghost use Rattle.std.specs.Hash as fed;
ghost use Rattle.std.specs.Cmp.{partial_equiv_from_equiv};
ghost use Rattle.std.specs.Cmp.Lexicographic.{nat_list_eq_equiv};
ghost use Rattle.std.specs.Cmp.Rules.{hashing};
ghost use Rattle.std.proofs.Common.{rules};

use cap_base::Ident;
use std::hash::{Hash, Hasher};
use std::marker::Model;

/// The name of a terminal, as a key of the host's table.
#[derive(Debug, Drop)]
pub(crate) struct TerminalName {
    name: Ident,
}

impl Model for TerminalName {
    ghost use Rattle.std.specs.Prelude.{List, ℕ};

    ghost Value = { List ℕ };

    ghost view = { λ s. s.name };
}

impl TerminalName {
    pub(crate) fn new(name: Ident) -> TerminalName
        ensures { result ≡ name }
    {
        TerminalName { name }
    }
}

impl PartialEq for TerminalName {
    ghost eq = { bytes_eq };

    ghost laws = { partial_equiv_from_equiv nat_list_eq_equiv };

    fn eq(&self, other: &TerminalName) -> bool {
        self.name == other.name
    }
}

impl Eq for TerminalName {
    ghost laws = { nat_list_eq_equiv };
}

impl Hash for TerminalName {
    ghost hash_input = { λ name. fed.slice fed.u8 name };

    ghost respects_eq = { Prim.search (hashing, rules) };

    fn hash<H: Hasher>(&self, state: &mut H) {
        self.name.as_bytes().hash(state);
    }
}
