ghost use Rattle.std.specs.Prelude.{◌≡◌, ◌≤◌, ◌+◌, true, IfOk};
ghost use Rattle.cap_leaf.specs.Trees.{data_of, children_view};
ghost use Rattle.cap_fields.specs.Fields.{followed_by, num_in};
ghost use Rattle.cap_fields.specs.Refused.{in_digits_if};
ghost use Rattle.cap_msgs.specs.Trees.{party_tree as tree_of_party, is_bare as bare_test, first_of as first_place, function_child as child_of_function, header_from as children_of_header, header_tree as tree_of_header};
ghost use Rattle.cap_msgs.specs.Reading.{party_in, header_in};

use cap_base::{Ident, Memory};
use cap_fields::{
    date_at, ident_at, leaf_tree, leaves, num_at, record, structure, tree_at, with, with_num,
};
use cap_leaf::{Children, CodeList, Header, Kind, Leaf, Tree};
use std::alloc::Global;

fn is_bare(kind: Kind) -> bool
    ensures { result ≡ bare_test kind }
{
    match kind {
        Kind::Catm001 => true,
        Kind::Catm002 => true,
        Kind::Catm003 => true,
        Kind::Catm004 => true,
        _ => false,
    }
}

// The place of the protocol's version.
fn first_of(kind: Kind) -> u8
    ensures place { result ≡ first_place kind }
    ensures small { result ≤ 1 }
{
    if is_bare(kind) { 0 } else { 1 }
}

fn function_child(alloc: Global, kind: Kind) -> Result<Children, Memory>
    ensures { IfOk result (λ cs. children_view cs ≡ child_of_function kind) }
{
    if is_bare(kind) {
        Ok(Children::new(alloc))
    } else {
        leaves(
            alloc,
            &[Leaf::Code {
                list: CodeList::Function(kind),
                at: 0,
            }],
        )
    }
}

fn party_tree(alloc: Global, name: &Ident) -> Result<Tree, Memory>
    ensures { IfOk result (λ t. data_of t ≡ tree_of_party name.now) }
{
    record(alloc, &[Leaf::Ident(*name)])
}

fn wider(repeat: Option<u16>) -> Option<u64>
    ensures { result ≡ repeat }
{
    match repeat {
        Some(n) => Some(u64::from(n)),
        None => None,
    }
}

// The header from the protocol's version on, after these children.
fn header_from(alloc: Global, before: Children, at: u8, header: &Header) -> Result<Children, Memory>
    requires { at ≤ 1 }
    ensures { IfOk result (λ cs. children_view cs ≡ followed_by (children_view before) (children_of_header at header.now)) }
{
    let from = party_tree(alloc, &header.from)?;
    let to = party_tree(alloc, &header.to)?;
    let version = leaf_tree(Leaf::Code {
        list: CodeList::Protocol(1),
        at: 0,
    });
    let children = with(before, at, version)?;
    let children = with(children, at + 1, leaf_tree(Leaf::Num(header.exchange)))?;
    let children = with_num(children, at + 2, wider(header.repeat))?;
    let children = with(children, at + 3, leaf_tree(Leaf::DateTime(header.created)))?;
    let children = with(children, at + 4, from)?;
    let children = with(children, at + 5, to)?;
    Ok(children)
}

/// The header of a message as a structure.
pub(crate) fn header_tree(alloc: Global, kind: Kind, header: &Header) -> Result<Tree, Memory>
    ensures { IfOk result (λ t. data_of t ≡ tree_of_header kind header.now) }
{
    let function = function_child(alloc, kind)?;
    let children = header_from(alloc, function, first_of(kind), header)?;
    Ok(structure(children))
}

fn party_at(tree: &Tree, at: u8) -> Option<Ident>
    ensures { result ≡ party_in (data_of tree.now) at }
{
    match tree_at(tree, at) {
        Some(party) => ident_at(party, 0),
        None => None,
    }
}

// The counter of repeats at a place.
fn repeat_at(tree: &Tree, at: u8) -> Option<u16>
    requires { in_digits_if 3 (num_in (data_of tree.now) at) ≡ true }
    ensures { result ≡ num_in (data_of tree.now) at }
{
    match num_at(tree, at) {
        Some(n) => Some(n as u16),
        None => None,
    }
}

fn header_at(tree: &Tree, at: u8) -> Option<Header>
    requires place { at ≤ 1 }
    requires small { in_digits_if 3 (num_in (data_of tree.now) (at + 2)) ≡ true }
    ensures { result ≡ header_in at (data_of tree.now) }
{
    let exchange = num_at(tree, at + 1)?;
    let created = date_at(tree, at + 3)?;
    let from = party_at(tree, at + 4)?;
    let to = party_at(tree, at + 5)?;
    Some(Header {
        exchange,
        repeat: repeat_at(tree, at + 2),
        created,
        from,
        to,
    })
}

/// The header that a structure tells. None where it tells none.
pub(crate) fn read_header(kind: Kind, tree: &Tree) -> Option<Header>
    requires { in_digits_if 3 (num_in (data_of tree.now) (first_place kind + 2)) ≡ true }
    ensures { result ≡ header_in (first_place kind) (data_of tree.now) }
{
    header_at(tree, first_of(kind))
}
