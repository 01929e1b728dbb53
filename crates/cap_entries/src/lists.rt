ghost use Rattle.std.specs.Prelude.{◌≡◌, true, bytes_eq};
ghost use Rattle.std.specs.List.{list_any, list_all};
ghost use Rattle.cap_entries.specs.Lists.{are_distinct, is_idents, idents_of, is_prefix, is_blocks, blocks_of};

use cap_base::Ident;
use std::alloc::AllocError;
use std::marker::Model;

/// The names of a host's terminals: 1 to 16, no two equal.
#[derive(Debug, Drop)]
pub struct Idents {
    names: Vec<Ident>,
}

impl Model for Idents {
    ghost use Rattle.std.specs.Prelude.{◌≡◌, true, ℕ, List};
    ghost use Rattle.cap_entries.specs.Lists.{is_idents};

    ghost Value = { List (List ℕ) };

    ghost view = { λ s. s.names.items };

    ghost invariant = { λ s. is_idents s.names.items ≡ true };
}

/// The beginnings of accounts that a host blocks: up to 64 prefixes of six digits.
#[derive(Debug, Drop)]
pub struct Blocks {
    prefixes: Vec<[u8; 6]>,
}

impl Model for Blocks {
    ghost use Rattle.std.specs.Prelude.{◌≡◌, true, ℕ, List};
    ghost use Rattle.cap_entries.specs.Lists.{is_blocks};

    ghost Value = { List (List ℕ) };

    ghost view = { λ s. s.prefixes.items };

    ghost invariant = { λ s. is_blocks s.prefixes.items ≡ true };
}

// Whether a name stands in a list.
pub(crate) fn stands_in(names: &[Ident], name: &Ident) -> bool
    ensures { result ≡ list_any (bytes_eq name.now) names.now }
{
    names.iter().any(|other| *name == *other)
}

// Whether no name stands twice.
fn distinct(names: &[Ident]) -> bool
    ensures { result ≡ are_distinct names.now }
{
    match names {
        [] => true,
        [first, rest @ ..] => !stands_in(rest, first) && distinct(rest),
    }
}

impl Idents {
    /// These names, where there are 1 to 16 and no two are equal. None exactly for every other list.
    pub fn new(names: Vec<Ident>) -> Option<Idents>
        ensures { result ≡ idents_of names.items }
    {
        if (1 <= names.len() && names.len() <= 16) && distinct(&names) {
            Some(Idents { names })
        } else {
            None
        }
    }

    /// The names, in order.
    pub fn as_slice(&self) -> &[Ident]
        ensures names { result.now ≡ self.now }
        ensures rule { is_idents self.now ≡ true }
    {
        &self.names
    }
}

impl Clone for Idents {
    ghost is_clone = { λ a b. b ≡ a };

    fn clone(&self) -> Result<Idents, AllocError> {
        let names = self.names.clone()?;
        Ok(Idents { names })
    }
}

fn spells_prefix(prefix: &[u8; 6]) -> bool
    ensures { result ≡ is_prefix prefix.now }
{
    prefix.iter().all(|b| b.is_ascii_digit())
}

fn spell_prefixes(prefixes: &[[u8; 6]]) -> bool
    ensures { result ≡ list_all is_prefix prefixes.now }
{
    prefixes.iter().all(|prefix| spells_prefix(prefix))
}

impl Blocks {
    /// These prefixes, where there are at most 64 and each is six digits. None exactly for every other list.
    pub fn new(prefixes: Vec<[u8; 6]>) -> Option<Blocks>
        ensures { result ≡ blocks_of prefixes.items }
    {
        if prefixes.len() <= 64 && spell_prefixes(&prefixes) {
            Some(Blocks { prefixes })
        } else {
            None
        }
    }

    /// The prefixes, in order.
    pub fn as_slice(&self) -> &[[u8; 6]]
        ensures prefixes { result.now ≡ self.now }
        ensures rule { is_blocks self.now ≡ true }
    {
        &self.prefixes
    }
}

impl Clone for Blocks {
    ghost is_clone = { λ a b. b ≡ a };

    fn clone(&self) -> Result<Blocks, AllocError> {
        let prefixes = self.prefixes.clone()?;
        Ok(Blocks { prefixes })
    }
}
