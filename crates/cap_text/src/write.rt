ghost use Rattle.std.specs.Prelude.{◌≡◌, ◌++◌, ◌∷◌, [], true, OnOk, IfOk, ℕ, codes};
ghost use Rattle.cap_leaf.specs.Trees.{data_of, children_view};
ghost use Rattle.cap_leaf.specs.View.{row_of, table_view, content_view};
ghost use Rattle.cap_leaf.specs.Spelling.{is_leaf, is_kind, IsLeafOf, leaf_of};
ghost use Rattle.cap_leaf.specs.Canonical.{leaf_text};
ghost use Rattle.cap_leaf.specs.declared.kinds.LeafKind.{LeafKind};
ghost use Rattle.cap_trees.specs.Fits.{Fits, FitsKind};
ghost use Rattle.cap_text.specs.Pieces.{Spells, text_of, opening_text, closing_text, number_of, document_text};
ghost use Rattle.cap_text.specs.Canon.{element, children as pieces_of, canonical_text};
ghost use Rattle.cap_text.specs.Written.{EachFits, AreSpelt, EachSpelt};

use cap_base::Memory;
use cap_leaf::{Child, Kind, Leaf, Node, Tree, leaf_write};
use cap_trees::schema_of;
use std::alloc::{AllocError, Global};

fn put_opening(tag: &str, out: &mut Vec<u8>) -> Result<(), AllocError>
    ensures { OnOk result (out.new.items ≡ out.old.items ++ opening_text tag.now) }
{
    out.push(b'<')?;
    out.extend_from_slice(tag.as_bytes())?;
    out.push(b'>')?;
    Ok(())
}

fn put_closing(tag: &str, out: &mut Vec<u8>) -> Result<(), AllocError>
    ensures { OnOk result (out.new.items ≡ out.old.items ++ closing_text tag.now) }
{
    out.extend_from_slice(b"</")?;
    out.extend_from_slice(tag.as_bytes())?;
    out.push(b'>')?;
    Ok(())
}

fn put_leaf(leaf: &Leaf, out: &mut Vec<u8>) -> Result<(), AllocError>
    requires { is_leaf leaf.now ≡ true }
    ensures text { OnOk result (out.new.items ≡ out.old.items ++ leaf_text leaf.now) }
    ensures reads { (k : LeafKind) → is_kind k ≡ true → IsLeafOf k leaf.now → leaf_of k (leaf_text leaf.now) ≡ Some leaf.now }
{
    let mut text = [0; 40];
    let len = leaf_write(leaf, &mut text);
    out.extend_from_slice(&text[..len])?;
    Ok(())
}

fn put_leaf_element(tag: &str, leaf: &Leaf, out: &mut Vec<u8>) -> Result<(), AllocError>
    requires { is_leaf leaf.now ≡ true }
    ensures text { OnOk result (out.new.items ≡ out.old.items ++ (opening_text tag.now ++ leaf_text leaf.now ++ closing_text tag.now)) }
    ensures reads { OnOk result ((k : LeafKind) → is_kind k ≡ true → IsLeafOf k leaf.now → leaf_of k (leaf_text leaf.now) ≡ Some leaf.now) }
{
    put_opening(tag, out)?;
    put_leaf(leaf, out)?;
    put_closing(tag, out)
}

#[cycle(put)]
fn put_structure(
    tag: &str,
    children: &[Child],
    nodes: &[Node],
    out: &mut Vec<u8>,
) -> Result<(), AllocError>
    requires { EachFits (children_view children.now) (table_view nodes.now) }
    ensures text { OnOk result (out.new.items ≡ out.old.items
        ++ (opening_text tag.now ++ text_of (pieces_of (children_view children.now) (table_view nodes.now)) ++ closing_text tag.now)) }
    ensures spelt { OnOk result (EachSpelt (children_view children.now) (table_view nodes.now)) }
{
    put_opening(tag, out)?;
    put_children(children, nodes, out)?;
    put_closing(tag, out)
}

// Writes an element.
#[cycle(put)]
fn put_element(tree: &Tree, node: &Node, out: &mut Vec<u8>) -> Result<(), AllocError>
    requires { Fits (content_view node.now.shape) (data_of tree.now) }
    ensures text { OnOk result (out.new.items ≡ out.old.items ++ text_of (element (data_of tree.now) (row_of node.now))) }
    ensures spelt { OnOk result (AreSpelt (data_of tree.now) (row_of node.now)) }
{
    match tree {
        Tree::Leaf(leaf) => put_leaf_element(node.tag, leaf, out),
        Tree::Branch(children) => put_structure(
            node.tag,
            children.as_slice(),
            node.shape.table(),
            out,
        ),
    }
}

// Writes the elements of a structure.
#[cycle(put)]
fn put_children(children: &[Child], nodes: &[Node], out: &mut Vec<u8>) -> Result<(), AllocError>
    requires { EachFits (children_view children.now) (table_view nodes.now) }
    ensures text { OnOk result (out.new.items ≡ out.old.items ++ text_of (pieces_of (children_view children.now) (table_view nodes.now))) }
    ensures spelt { OnOk result (EachSpelt (children_view children.now) (table_view nodes.now)) }
{
    for child in children {
        put_element(&child.tree, &nodes[child.at as usize], out)?;
    }
    Ok(())
}

/// The number of a message.
pub fn message_number(kind: Kind) -> &'static str
    ensures { result.now ≡ number_of kind }
{
    match kind {
        Kind::Caaa001 => "caaa.001",
        Kind::Caaa002 => "caaa.002",
        Kind::Caaa003 => "caaa.003",
        Kind::Caaa004 => "caaa.004",
        Kind::Caaa005 => "caaa.005",
        Kind::Caaa006 => "caaa.006",
        Kind::Caaa007 => "caaa.007",
        Kind::Caaa008 => "caaa.008",
        Kind::Caaa009 => "caaa.009",
        Kind::Caaa010 => "caaa.010",
        Kind::Caaa011 => "caaa.011",
        Kind::Caaa012 => "caaa.012",
        Kind::Caaa013 => "caaa.013",
        Kind::Caaa014 => "caaa.014",
        Kind::Caaa015 => "caaa.015",
        Kind::Catm001 => "catm.001",
        Kind::Catm002 => "catm.002",
        Kind::Catm003 => "catm.003",
        Kind::Catm004 => "catm.004",
    }
}

/// The opening of a message's `Document`, up to its `>`.
pub(crate) fn document_front(kind: Kind) -> &'static str
    ensures { result.now ++ 62 ∷ [] ≡ document_text kind }
{
    match kind {
        Kind::Caaa001 => "<Document xmlns=\"urn:x-cap20:1:caaa.001\"",
        Kind::Caaa002 => "<Document xmlns=\"urn:x-cap20:1:caaa.002\"",
        Kind::Caaa003 => "<Document xmlns=\"urn:x-cap20:1:caaa.003\"",
        Kind::Caaa004 => "<Document xmlns=\"urn:x-cap20:1:caaa.004\"",
        Kind::Caaa005 => "<Document xmlns=\"urn:x-cap20:1:caaa.005\"",
        Kind::Caaa006 => "<Document xmlns=\"urn:x-cap20:1:caaa.006\"",
        Kind::Caaa007 => "<Document xmlns=\"urn:x-cap20:1:caaa.007\"",
        Kind::Caaa008 => "<Document xmlns=\"urn:x-cap20:1:caaa.008\"",
        Kind::Caaa009 => "<Document xmlns=\"urn:x-cap20:1:caaa.009\"",
        Kind::Caaa010 => "<Document xmlns=\"urn:x-cap20:1:caaa.010\"",
        Kind::Caaa011 => "<Document xmlns=\"urn:x-cap20:1:caaa.011\"",
        Kind::Caaa012 => "<Document xmlns=\"urn:x-cap20:1:caaa.012\"",
        Kind::Caaa013 => "<Document xmlns=\"urn:x-cap20:1:caaa.013\"",
        Kind::Caaa014 => "<Document xmlns=\"urn:x-cap20:1:caaa.014\"",
        Kind::Caaa015 => "<Document xmlns=\"urn:x-cap20:1:caaa.015\"",
        Kind::Catm001 => "<Document xmlns=\"urn:x-cap20:1:catm.001\"",
        Kind::Catm002 => "<Document xmlns=\"urn:x-cap20:1:catm.002\"",
        Kind::Catm003 => "<Document xmlns=\"urn:x-cap20:1:catm.003\"",
        Kind::Catm004 => "<Document xmlns=\"urn:x-cap20:1:catm.004\"",
    }
}

fn put_document_opening(kind: Kind, out: &mut Vec<u8>) -> Result<(), AllocError>
    ensures { OnOk result (out.new.items ≡ out.old.items ++ document_text kind) }
{
    out.extend_from_slice(document_front(kind).as_bytes())?;
    out.push(b'>')?;
    Ok(())
}

// Writes the text of a document at the end.
fn put_document(kind: Kind, tree: &Tree, out: &mut Vec<u8>) -> Result<(), AllocError>
    requires { FitsKind kind (data_of tree.now) }
    ensures text { OnOk result (out.new.items ≡ out.old.items ++ canonical_text kind (data_of tree.now)) }
    ensures spells { OnOk result (Spells kind (data_of tree.now) (canonical_text kind (data_of tree.now))) }
{
    put_document_opening(kind, out)?;
    put_element(tree, &schema_of(kind)[0], out)?;
    put_closing("Document", out)
}

/// Writes the tree of a message element that fits its kind as a document: its canonical text, which has no declaration and no white space.
/// It spells the tree. The one refusal is want of memory.
pub fn write_document(alloc: Global, kind: Kind, tree: &Tree) -> Result<Vec<u8>, Memory>
    requires { FitsKind kind (data_of tree.now) }
    ensures text { IfOk result (λ text. text.items ≡ canonical_text kind (data_of tree.now)) }
    ensures spells { IfOk result (λ text. Spells kind (data_of tree.now) text.items) }
{
    let mut out = Vec::new(alloc);
    put_document(kind, tree, &mut out)?;
    Ok(out)
}
