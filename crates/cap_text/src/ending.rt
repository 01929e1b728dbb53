ghost use Rattle.std.specs.Prelude.{◌≡◌, ◌<◌, ◌≤◌, ◌+◌, ◌^◌, ◌++◌, ◌∷◌, ◌||◌, [], Some, None, IfOk, OnOk, IfSome, MatchOption, true, false, length, option_map, List, ℕ};
ghost use Rattle.std.specs.Str.{bytes_eq};
ghost use Rattle.cap_leaf.specs.View.{content_view, table_view};
ghost use Rattle.cap_leaf.specs.Trees.{value};
ghost use Rattle.cap_leaf.specs.Schema.{table_in};
ghost use Rattle.cap_leaf.specs.declared.schema.Node.{Node};
ghost use Rattle.cap_trees.specs.Tests.{bounded_in};
ghost use Rattle.cap_text.specs.Pieces.{document, opening, closing, declaration_text, ending};
ghost use Rattle.cap_text.specs.Faults.{told_by};
ghost use Rattle.cap_text.specs.Machine.{Doc as DocView, close, inside, in_leaf, within, first, fresh};
ghost use Rattle.cap_text.specs.Bytes.{kinds, document_in as document_by, ended, piece_of, standing};
ghost use Rattle.cap_text.specs.Inner.{closes as closes_tag, name_in as name_of, sought, entered, begun_by, opened_by};
ghost use Rattle.cap_text.specs.Places.{place_in};
ghost use Rattle.cap_text.specs.SeenFrames.{frame_of, frames_of, branch_of, start_of};
ghost use Rattle.cap_text.specs.SeenRows.{found_of};
ghost use Rattle.cap_text.specs.SeenDocs.{open_of, state_of, doc_in, doc_of, led_to, held_after};
ghost use Rattle.cap_text.specs.SeenKnown.{known_of};

use crate::frames::{Frame, Left};
use crate::known::Known;
use crate::open::{Doc, Open, OpenLeaf, Outcome};
use crate::rows::{Found, look, ready};
use crate::write::document_front;
use cap_base::Memory;
use cap_leaf::{Kind, Leaf, Node, Shape, Tree, leaf_read};
use std::alloc::Global;

static KINDS: [Kind; 19] = [
    Kind::Caaa001,
    Kind::Caaa002,
    Kind::Caaa003,
    Kind::Caaa004,
    Kind::Caaa005,
    Kind::Caaa006,
    Kind::Caaa007,
    Kind::Caaa008,
    Kind::Caaa009,
    Kind::Caaa010,
    Kind::Caaa011,
    Kind::Caaa012,
    Kind::Caaa013,
    Kind::Caaa014,
    Kind::Caaa015,
    Kind::Catm001,
    Kind::Catm002,
    Kind::Catm003,
    Kind::Catm004,
];

// The message, of these, whose opening of `Document` a text is, up to its `>`.
fn document_among(messages: &[Kind], front: &[u8]) -> Option<Kind>
    ensures { option_map document result ≡ document_by messages.now (front.now ++ 62 ∷ []) }
{
    for kind in messages {
        if document_front(*kind).as_bytes() == front {
            return Some(*kind);
        }
    }
    None
}

// The message whose opening of `Document` a text is, up to its `>`.
fn document_in(front: &[u8]) -> Option<Kind>
    ensures { option_map document result ≡ document_by kinds (front.now ++ 62 ∷ []) }
{
    document_among(&KINDS, front)
}

// Whether two texts are one, up to their `>`.
fn is_same(own: &[u8], front: &[u8]) -> bool
    ensures { result ≡ bytes_eq (own.now ++ 62 ∷ []) (front.now ++ 62 ∷ []) }
{
    own == front
}

// Whether a text is a declaration, up to its `>`.
fn is_declaration(front: &[u8]) -> bool
    ensures { result ≡ (bytes_eq (declaration_text false) (front.now ++ 62 ∷ []) || bytes_eq (declaration_text true) (front.now ++ 62 ∷ [])) }
{
    is_same(b"<?xml version=\"1.0\" encoding=\"UTF-8\"?", front)
        || is_same(
            b"<?xml version=\"1.0\" encoding=\"UTF-8\" standalone=\"yes\"?",
            front,
        )
}

// Whether a text is the closing of a tag, up to its `>`.
fn closes(front: &[u8], tag: &str) -> bool
    ensures { result ≡ closes_tag tag.now front.now }
{
    match front {
        [first, second, name @ ..] => b'<' == *first && (b'/' == *second && tag.as_bytes() == name),
        _ => false,
    }
}

// What stands after the `<` of a text.
fn name_in(front: &[u8]) -> Option<&[u8]>
    ensures { MatchOption result (name_of front.now ≡ None) (λ name. name_of front.now ≡ Some name.now) }
{
    match front {
        [first, name @ ..] => { if b'<' == *first { Some(name) } else { None } }
        [] => None,
    }
}

// The child that a text opens, where it may stand.
fn found(front: &[u8], frame: &Frame) -> Option<Found>
    ensures row { MatchOption result (sought (frame_of frame.now).left front.now ≡ None)
        (λ f. sought (frame_of frame.now).left front.now ≡ Some (f.node.now.tag.now, found_of frame.now.nodes.now f)) }
    ensures bounded { IfSome result (λ f. bounded_in (content_view f.node.now.shape) ≡ true) }
    ensures within { IfSome result (λ f. place_in f.left ≤ length frame.now.nodes.now) }
{
    match name_in(front) {
        Some(name) => look(frame.nodes, frame.left, name),
        None => None,
    }
}

// What may stand in a structure that is opened: one row, or all of them.
fn start(one: bool) -> Left
    ensures { result ≡ start_of one }
{
    if one {
        Left::Choice
    } else {
        Left::Rows { at: 0, count: 0 }
    }
}

// Opens a structure.
fn open_structure(
    stack: &mut Open,
    node: &'static Node,
    one: bool,
    alloc: Global,
) -> Result<(), Memory>
    requires { bounded_in (content_view node.now.shape) ≡ true }
    ensures opened { OnOk result (open_of stack.new ≡ fresh node.entry.now.tag.now (begun_by one (table_in (content_view node.entry.now.shape))) ∷ open_of stack.old) }
    ensures leaf { stack.new.leaf ≡ stack.old.leaf }
    ensures kind { stack.new.kind ≡ stack.old.kind }
{
    let inner = Frame::fresh(alloc, node.tag, node.shape.table(), start(one));
    stack.push(inner)?;
    Ok(())
}

// Opens a child.
fn enter(
    stack: &mut Open,
    found: Found,
    known: &mut Known,
    bytes: u64,
    alloc: Global,
) -> Result<(), Memory>
    requires some { 1 ≤ bytes }
    requires bounded { bounded_in (content_view found.node.now.shape) ≡ true }
    requires within { place_in found.left ≤ length stack.old.current.nodes.now }
    requires leaf { stack.old.leaf ≡ None }
    ensures read { known.old.place + bytes < 2 ^ 64
        → OnOk result (standing (doc_in stack.new) (known_of known.new) [] ≡ entered stack.old.kind (frame_of stack.old.current) (frames_of stack.old.outer.items) (known_of known.old) found.node.now.tag.now (found_of stack.old.current.nodes.now found) bytes) }
    ensures few { known.new.place ≤ known.old.place + bytes }
{
    let Found { node, left, at } = found;
    stack.current.enter(left, at);
    match node.shape {
        Shape::Leaf(kind) => {
            let tag = node.tag;
            stack.leaf = Some(OpenLeaf { tag, kind });
            known.open_a_leaf(tag, bytes);
            Ok(())
        }
        Shape::All(_) => {
            known.open(node.tag, bytes);
            open_structure(stack, node, false, alloc)
        }
        Shape::OneOf(_) => {
            known.open(node.tag, bytes);
            open_structure(stack, node, true, alloc)
        }
    }
}

// Closes the innermost structure.
fn close_structure(
    stack: &mut Open,
    known: &mut Known,
    bytes: u64,
    alloc: Global,
) -> Result<Outcome, Memory>
    requires { stack.old.leaf ≡ None }
    ensures read { known.old.place + bytes < 2 ^ 64
        → IfOk result (λ o. (text : List ℕ) → led_to o (doc_in stack.new) (known_of known.new) text
        ≡ standing (within stack.old.kind (close (frames_of stack.old.outer.items) (branch_of (frame_of stack.old.current)))) (told_by (known_of known.old) (closing stack.old.current.tag.now) bytes) []) }
    ensures few { IfOk result (λ o. known.new.place + held_after o bytes ≤ known.old.place + bytes) }
{
    known.close(stack.current.tag, bytes);
    match stack.pop(alloc)? {
        Some(tree) => Ok(Outcome::Moved(Doc::Whole(stack.kind, tree))),
        None => Ok(Outcome::Read),
    }
}

// Closes a leaf.
fn fill(stack: &mut Open, read: Leaf) -> Result<(), Memory>
    ensures filled { OnOk result (state_of stack.new ≡ close (open_of stack.old) (value read)) }
    ensures kind { stack.new.kind ≡ stack.old.kind }
{
    stack.leaf = None;
    stack.keep(Tree::Leaf(read))?;
    Ok(())
}

// Ends a piece inside a structure.
fn end_in_structure(
    stack: &mut Open,
    known: &mut Known,
    front: &[u8],
    alloc: Global,
) -> Result<Outcome, Memory>
    requires { stack.old.leaf ≡ None }
    ensures read { known.old.place + (length front.now + 1) < 2 ^ 64
        → IfOk result (λ o. led_to o (doc_in stack.new) (known_of known.new) (front.now ++ 62 ∷ [])
        ≡ ended (within stack.old.kind (inside (open_of stack.old))) (known_of known.old) (front.now ++ 62 ∷ []) (piece_of (within stack.old.kind (inside (open_of stack.old))) (front.now ++ 62 ∷ []))) }
    ensures few { IfOk result (λ o. known.new.place + held_after o (length front.now + 1) ≤ known.old.place + (length front.now + 1)) }
{
    let bytes = front.len() as u64 + 1;
    if closes(front, stack.current.tag) {
        if ready(stack.current.nodes, stack.current.left) {
            return close_structure(stack, known, bytes, alloc);
        }
        return Ok(Outcome::Barred);
    }
    match found(front, &stack.current) {
        Some(child) => {
            enter(stack, child, known, bytes, alloc)?;
            Ok(Outcome::Read)
        }
        None => Ok(Outcome::Barred),
    }
}

// Ends a leaf.
fn end_leaf(
    leaf: OpenLeaf,
    stack: &mut Open,
    known: &mut Known,
    front: &[u8],
) -> Result<Outcome, Memory>
    requires { stack.old.leaf ≡ Some leaf }
    ensures read { known.old.place + (length front.now + 1) < 2 ^ 64
        → IfOk result (λ o. led_to o (doc_in stack.new) (known_of known.new) (front.now ++ 62 ∷ [])
        ≡ ended (within stack.old.kind (in_leaf leaf.tag.now leaf.kind (open_of stack.old))) (known_of known.old) (front.now ++ 62 ∷ []) (piece_of (within stack.old.kind (in_leaf leaf.tag.now leaf.kind (open_of stack.old))) (front.now ++ 62 ∷ []))) }
    ensures few { IfOk result (λ o. known.new.place + held_after o (length front.now + 1) ≤ known.old.place + (length front.now + 1)) }
{
    let at = front.len().saturating_sub(leaf.tag.len() + 2);
    let content = &front[..at];
    if !closes(&front[at..], leaf.tag) {
        return Ok(Outcome::Barred);
    }
    match leaf_read(leaf.kind, content) {
        Some(read) => {
            known.end_a_leaf(leaf.tag, content, front.len() as u64 + 1);
            fill(stack, read)?;
            Ok(Outcome::Read)
        }
        None => Ok(Outcome::Barred),
    }
}

// Ends a piece inside `Document`.
fn end_inside(
    stack: &mut Open,
    known: &mut Known,
    front: &[u8],
    alloc: Global,
) -> Result<Outcome, Memory>
    ensures read { known.old.place + (length front.now + 1) < 2 ^ 64
        → IfOk result (λ o. led_to o (doc_in stack.new) (known_of known.new) (front.now ++ 62 ∷ [])
        ≡ ended (doc_in stack.old) (known_of known.old) (front.now ++ 62 ∷ []) (piece_of (doc_in stack.old) (front.now ++ 62 ∷ []))) }
    ensures few { IfOk result (λ o. known.new.place + held_after o (length front.now + 1) ≤ known.old.place + (length front.now + 1)) }
{
    match stack.leaf {
        Some(leaf) => end_leaf(leaf, stack, known, front),
        None => end_in_structure(stack, known, front, alloc),
    }
}

// Ends a piece before `Document` is open, other than a declaration.
fn end_prolog(known: &mut Known, front: &[u8], alloc: Global) -> Outcome
    ensures read { known.old.place + (length front.now + 1) < 2 ^ 64
        → (d : DocView) → led_to result d (known_of known.new) (front.now ++ 62 ∷ []) ≡ opened_by d (known_of known.old) (front.now ++ 62 ∷ []) (length front.now + 1) (document_by kinds (front.now ++ 62 ∷ [])) }
    ensures few { known.new.place + held_after result (length front.now + 1) ≤ known.old.place + (length front.now + 1) }
{
    match document_in(front) {
        Some(kind) => {
            known.name(kind, front.len() as u64 + 1);
            Outcome::Moved(Doc::root(alloc, kind))
        }
        None => Outcome::Barred,
    }
}

// Ends the first piece.
fn end_first(known: &mut Known, front: &[u8], alloc: Global) -> Outcome
    ensures read { known.old.place + (length front.now + 1) < 2 ^ 64
        → led_to result first (known_of known.new) (front.now ++ 62 ∷ []) ≡ ended first (known_of known.old) (front.now ++ 62 ∷ []) (piece_of first (front.now ++ 62 ∷ [])) }
    ensures few { known.new.place + held_after result (length front.now + 1) ≤ known.old.place + (length front.now + 1) }
{
    if is_declaration(front) {
        known.pass(front.len() as u64 + 1);
        return Outcome::Moved(Doc::Prolog);
    }
    end_prolog(known, front, alloc)
}

/// Ends a piece: what stood before its `>` and the `>` are one, or can't be read.
pub(crate) fn end(
    doc: &mut Doc,
    known: &mut Known,
    front: &[u8],
    alloc: Global,
) -> Result<Outcome, Memory>
    ensures read { known.old.place + (length front.now + 1) < 2 ^ 64
        → IfOk result (λ o. led_to o (doc_of doc.new) (known_of known.new) (front.now ++ 62 ∷ [])
        ≡ ended (doc_of doc.old) (known_of known.old) (front.now ++ 62 ∷ []) (piece_of (doc_of doc.old) (front.now ++ 62 ∷ []))) }
    ensures few { IfOk result (λ o. known.new.place + held_after o (length front.now + 1) ≤ known.old.place + (length front.now + 1)) }
{
    match doc {
        Doc::First => Ok(end_first(known, front, alloc)),
        Doc::Prolog => Ok(end_prolog(known, front, alloc)),
        Doc::Inside(stack) => end_inside(stack, known, front, alloc),
        Doc::Whole(..) => Ok(Outcome::Barred),
    }
}
