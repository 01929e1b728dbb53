ghost use Rattle.std.specs.Prelude.{◌≡◌, true, Some, IsSome, IfOk, MatchResult};
ghost use Rattle.cap_leaf.specs.Trees.{data_of};
ghost use Rattle.cap_fields.specs.Fields.{child_in};
ghost use Rattle.cap_trees.specs.Fits.{FitsKind};
ghost use Rattle.cap_msgs.specs.Trees.{message_kind, message_tree};
ghost use Rattle.cap_msgs.specs.Ranges.{is_message};
ghost use Rattle.cap_msgs.specs.Received.{Read};
ghost use Rattle.cap_msgs.specs.Reads.{Reads};
ghost use Rattle.cap_msgs.specs.Unread.{IsUnread};

use crate::error::DecodeError;
use crate::header::read_header;
use crate::message::{Body, Message};
use cap_base::Memory;
use cap_fields::tree_at;
use cap_leaf::{Kind, Tree};
use cap_text::{ReadError, read_document};
use std::alloc::Global;

// The child of a structure at a place.
fn part(tree: &Tree, at: u8) -> &Tree
    requires { IsSome (child_in (data_of tree.now) at) }
    ensures { child_in (data_of tree.now) at ≡ Some (data_of result.now) }
{
    match tree_at(tree, at) {
        Some(child) => child,
        None => unreachable!(),
    }
}

// The message of a message element.
fn message_of(alloc: Global, kind: Kind, tree: &Tree) -> Result<Message, Memory>
    requires { FitsKind kind (data_of tree.now) }
    ensures kind { IfOk result (λ m. message_kind m ≡ kind) }
    ensures tree { IfOk result (λ m. data_of tree.now ≡ message_tree m) }
    ensures range { IfOk result (λ m. is_message m ≡ true) }
{
    let head = part(tree, 0);
    let inside = part(tree, 1);
    let header = read_header(kind, head).unwrap();
    let body = Body::from_tree(alloc, kind, inside)?;
    Ok(Message { header, body })
}

/// Reads bytes as a message, or gives their first fault, or answers want of memory.
pub fn decode(alloc: Global, bytes: &[u8]) -> Result<Message, DecodeError>
    ensures read { MatchResult result (λ m. Reads bytes.now (Read m)) (λ e. IsUnread bytes.now e) }
    ensures range { IfOk result (λ m. is_message m ≡ true) }
{
    match read_document(alloc, bytes) {
        Ok((kind, tree)) => match message_of(alloc, kind, &tree) {
            Ok(message) => Ok(message),
            Err(_) => Err(DecodeError::Memory),
        },
        Err(ReadError::Fault(fault)) => Err(DecodeError::Fault(fault)),
        Err(ReadError::Memory) => Err(DecodeError::Memory),
    }
}
