// What a host replies, read back from the reply's text.
ghost use Rattle.std.specs.Prelude.{◌≡◌, IfOk, IfErr, IsSomeAnd};
ghost use Rattle.cap_plays.specs.Turns.{reason_of as spec_reason};
ghost use Rattle.cap_plays.specs.declared.fault.LineFault.TheVariants.{Memory};
ghost use Rattle.cap_host_lines.specs.Texts.{IsMade, IsRead};
ghost use Rattle.cap_host_lines.specs.Says.{ReadAs};

use cap_base::Reason;
use cap_batch_msgs::BatchBody;
use cap_host::{HostFault, Reply};
use cap_leaf::Kind;
use cap_mgmt_msgs::MgmtBody;
use cap_msgs::{Body, Message, decode};
use cap_plays::LineFault;
use std::alloc::{AllocError, Global};

/// The text of a reply, its kind, and why it rejects.
#[derive(Drop)]
pub(crate) struct Answer {
    pub(crate) kind: Kind,
    pub(crate) reason: Option<Reason>,
    pub(crate) text: Vec<u8>,
}

// Why a message was rejected, where this is a rejection.
fn reason_of(body: &Body) -> Option<Reason>
    ensures { result ≡ spec_reason body.now }
{
    match body {
        Body::Batch(BatchBody::Rejection(refused)) => Some(refused.reason),
        Body::Management(MgmtBody::ManagementRejection(refused)) => Some(refused.reason),
        _ => None,
    }
}

fn copy(alloc: Global, bytes: &[u8]) -> Result<Vec<u8>, AllocError>
    ensures { IfOk result (λ text. text.items ≡ bytes.now) }
{
    let mut text = Vec::new(alloc);
    text.extend_from_slice(bytes)?;
    Ok(text)
}

// The answer with this text, which is this message.
fn made(alloc: Global, bytes: &[u8], message: &Message) -> Result<Option<Answer>, LineFault>
    ensures answer { IfOk result (λ given. IsSomeAnd given (λ answer. IsMade bytes.now message.now answer)) }
    ensures memory { IfErr result (λ fault. fault ≡ Memory) }
{
    match copy(alloc, bytes) {
        Ok(text) => Ok(Some(Answer {
            kind: message.body.kind(),
            reason: reason_of(&message.body),
            text,
        })),
        Err(_) => Err(LineFault::Memory),
    }
}

// The answer with this text.
fn read(alloc: Global, bytes: &[u8]) -> Result<Option<Answer>, LineFault>
    ensures answer { IfOk result (λ given. IsSomeAnd given (λ answer. IsRead bytes.now answer)) }
    ensures memory { IfErr result (λ fault. fault ≡ Memory) }
{
    cap_msgs::reading_is_exact();
    match decode(alloc, bytes) {
        Ok(message) => made(alloc, bytes, &message),
        Err(_) => Err(LineFault::Memory),
    }
}

/// What a host replied.
pub(crate) fn read_reply(
    alloc: Global,
    given: &Result<Reply, HostFault>,
) -> Result<Option<Answer>, LineFault>
    ensures { ReadAs given.now result }
{
    match given {
        Ok(Reply::Silent) => Ok(None),
        Ok(Reply::Bytes(text)) => read(alloc, text.as_slice()),
        Err(HostFault::Memory) => Err(LineFault::Memory),
        Err(HostFault::Disk) => Err(LineFault::Disk),
        Err(HostFault::Failed) => Err(LineFault::Disk),
    }
}
