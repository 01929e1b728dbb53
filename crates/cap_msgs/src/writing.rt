ghost use Rattle.std.specs.Prelude.{◌≡◌, ◌≤◌, true, IfOk, OnOk, length};
ghost use Rattle.cap_leaf.specs.Trees.{data_of};
ghost use Rattle.cap_msgs.specs.Trees.{message_kind, message_tree as tree_of_message, text_of};
ghost use Rattle.cap_msgs.specs.Ranges.{is_message, HasFew};
ghost use Rattle.cap_msgs.specs.Received.{Read};
ghost use Rattle.cap_msgs.specs.Reads.{Reads};

use crate::header::header_tree;
use crate::message::Message;
use cap_base::Memory;
use cap_fields::{structure, with};
use cap_leaf::{Children, Kind, Tree};
use cap_text::write_document;
use std::alloc::Global;

// The message element.
fn message_tree(alloc: Global, kind: Kind, message: &Message) -> Result<Tree, Memory>
    requires { kind ≡ message_kind message.now }
    ensures tree { IfOk result (λ t. data_of t ≡ tree_of_message message.now) }
    ensures few { OnOk result (HasFew message.now.body) }
{
    let header = header_tree(alloc, kind, &message.header)?;
    let body = message.body.to_tree(alloc)?;
    let children = with(Children::new(alloc), 0, header)?;
    let children = with(children, 1, body)?;
    Ok(structure(children))
}

/// Writes a message, whose numbers fit their digits, as its canonical text. The text reads as the message, and has 1 to 32,768 bytes.
/// The one refusal is want of memory.
pub fn encode(alloc: Global, message: &Message) -> Result<Vec<u8>, Memory>
    requires { is_message message.now ≡ true }
    ensures text { IfOk result (λ text. text.items ≡ text_of message.now) }
    ensures reads { IfOk result (λ text. Reads text.items (Read message.now)) }
    ensures some { IfOk result (λ text. 1 ≤ length text.items) }
    ensures few { IfOk result (λ text. length text.items ≤ 32768) }
{
    let kind = message.body.kind();
    let tree = message_tree(alloc, kind, message)?;
    let text = write_document(alloc, kind, &tree)?;
    Ok(text)
}
