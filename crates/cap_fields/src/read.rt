ghost use Rattle.std.specs.Prelude.{◌≡◌, MatchOption, None, Some};
ghost use Rattle.std.specs.Option.{option_copied};
ghost use Rattle.cap_leaf.specs.Trees.{data_of, children_view};
ghost use Rattle.cap_fields.specs.Fields.{inside, child_among, child_in, as_leaf, leaf_in, num_in, amount_in, sum_in, ident_in, account_in, code6_in, date_in, code_in};

use cap_base::{Account, Amount, Code6, Ident};
use cap_leaf::{Child, DateTime, Leaf, Tree};

fn tree_among(children: &[Child], at: u8) -> Option<&Tree>
    ensures { MatchOption result (child_among (children_view children.now) at ≡ None) (λ t. child_among (children_view children.now) at ≡ Some (data_of t.now)) }
{
    for child in children {
        if child.at == at {
            return Some(&child.tree);
        }
    }
    None
}

/// The first child of a structure at a place. None where there is none; a leaf has none.
pub fn tree_at(tree: &Tree, at: u8) -> Option<&Tree>
    ensures { MatchOption result (child_in (data_of tree.now) at ≡ None) (λ t. child_in (data_of tree.now) at ≡ Some (data_of t.now)) }
{
    match tree {
        Tree::Leaf(_) => None,
        Tree::Branch(children) => tree_among(children.as_slice(), at),
    }
}

/// The children of a structure. A leaf has none.
pub fn children_of(tree: &Tree) -> &[Child]
    ensures { children_view result.now ≡ inside (data_of tree.now) }
{
    match tree {
        Tree::Leaf(_) => &[],
        Tree::Branch(children) => children.as_slice(),
    }
}

fn leaf_of(tree: &Tree) -> Option<&Leaf>
    ensures { option_copied result ≡ as_leaf (Some (data_of tree.now)) }
{
    match tree {
        Tree::Leaf(leaf) => Some(leaf),
        Tree::Branch(_) => None,
    }
}

/// The leaf at a place of a structure. None where none stands there.
pub fn leaf_at(tree: &Tree, at: u8) -> Option<&Leaf>
    ensures { option_copied result ≡ leaf_in (data_of tree.now) at }
{
    match tree_at(tree, at) {
        Some(child) => leaf_of(child),
        None => None,
    }
}

/// The number at a place. None where no number stands there.
pub fn num_at(tree: &Tree, at: u8) -> Option<u64>
    ensures { result ≡ num_in (data_of tree.now) at }
{
    match leaf_at(tree, at) {
        Some(Leaf::Num(n)) => Some(*n),
        _ => None,
    }
}

/// The amount at a place. None where no amount stands there.
pub fn amount_at(tree: &Tree, at: u8) -> Option<Amount>
    ensures { result ≡ amount_in (data_of tree.now) at }
{
    match leaf_at(tree, at) {
        Some(Leaf::Amount(amount)) => Some(*amount),
        _ => None,
    }
}

/// The sum at a place, in hundredths. None where no sum stands there.
pub fn sum_at(tree: &Tree, at: u8) -> Option<u64>
    ensures { result ≡ sum_in (data_of tree.now) at }
{
    match leaf_at(tree, at) {
        Some(Leaf::Sum(hundredths)) => Some(*hundredths),
        _ => None,
    }
}

/// The name at a place. None where no name stands there.
pub fn ident_at(tree: &Tree, at: u8) -> Option<Ident>
    ensures { result ≡ ident_in (data_of tree.now) at }
{
    match leaf_at(tree, at) {
        Some(Leaf::Ident(ident)) => Some(*ident),
        _ => None,
    }
}

/// The account at a place. None where no account stands there.
pub fn account_at(tree: &Tree, at: u8) -> Option<Account>
    ensures { result ≡ account_in (data_of tree.now) at }
{
    match leaf_at(tree, at) {
        Some(Leaf::Account(account)) => Some(*account),
        _ => None,
    }
}

/// The approval code at a place. None where none stands there.
pub fn code6_at(tree: &Tree, at: u8) -> Option<Code6>
    ensures { result ≡ code6_in (data_of tree.now) at }
{
    match leaf_at(tree, at) {
        Some(Leaf::Code6(code)) => Some(*code),
        _ => None,
    }
}

/// The date and time at a place. None where none stands there.
pub fn date_at(tree: &Tree, at: u8) -> Option<DateTime>
    ensures { result ≡ date_in (data_of tree.now) at }
{
    match leaf_at(tree, at) {
        Some(Leaf::DateTime(date)) => Some(*date),
        _ => None,
    }
}

/// The code at a place, by its place in its list. None where no code stands there.
pub fn code_at(tree: &Tree, at: u8) -> Option<u8>
    ensures { result ≡ code_in (data_of tree.now) at }
{
    match leaf_at(tree, at) {
        Some(Leaf::Code { at, .. }) => Some(*at),
        _ => None,
    }
}
