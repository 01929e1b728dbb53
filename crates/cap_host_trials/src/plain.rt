// What the plain answer, as its definition says, makes of bytes.
use crate::fault::Fault;
use cap_entries::{HostEntry, first_host_not_allowed};
use cap_host::Reply;
use cap_host_answers::{Answer, answer_fault, answer_message};
use cap_msgs::{Body, DecodeError, Message, decode};
use std::alloc::Global;

// The plain answer to a message. None where the entries are not allowed.
fn answer_to(
    alloc: Global,
    entries: &[HostEntry],
    message: &Message,
) -> Result<Option<Answer>, Fault> {
    if first_host_not_allowed(alloc, entries)?.is_some() {
        return Ok(None);
    }
    Ok(Some(answer_message(alloc, entries, message)?))
}

/// The plain answer to bytes. None where the entries are not allowed.
pub(crate) fn plain_answer(
    alloc: Global,
    entries: &[HostEntry],
    bytes: &[u8],
) -> Result<Option<Answer>, Fault> {
    match decode(alloc, bytes) {
        Ok(message) => answer_to(alloc, entries, &message),
        Err(DecodeError::Fault(fault)) => Ok(Some(answer_fault(alloc, &fault))),
        Err(DecodeError::Memory) => Err(Fault::Memory),
    }
}

// Whether a text is a message with this body.
fn says(alloc: Global, text: &[u8], body: &Body) -> Result<bool, Fault> {
    let Ok(message) = decode(alloc, text) else {
        return Ok(false);
    };
    let told = format!(in alloc; "{:?}", message.body)?;
    let wanted = format!(in alloc; "{body:?}")?;
    Ok(told == wanted)
}

/// Whether a host's reply is the one of the plain answer.
pub(crate) fn is_same(alloc: Global, reply: &Reply, body: &Option<Body>) -> Result<bool, Fault> {
    match (reply, body) {
        (Reply::Bytes(text), Some(body)) => says(alloc, text.as_slice(), body),
        (Reply::Silent, None) => Ok(true),
        _ => Ok(false),
    }
}
