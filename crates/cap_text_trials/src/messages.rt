// Messages: decoded, and encoded again.
ghost use Rattle.std.specs.Prelude.{◌≡◌, true, IfSome};
ghost use Rattle.cap_msgs.specs.Ranges.{is_message};

use crate::documents::{beside, fault_text};
use cap_base::{Account, Amount, Code6, Ident};
use cap_leaf::{DateTime, Header};
use cap_msgs::{
    Body, DecodeError, Message, decode, encode, faults_are_within, messages_are_whole,
    reading_is_exact, shapes_fit, texts_read_again,
};
use cap_sale_msgs::{Ended, SaleBody};
use std::alloc::{AllocError, Global};

fn encoded(alloc: Global, message: &Message, bytes: &[u8]) -> Result<String, AllocError>
    requires { is_message message.now ≡ true }
{
    match encode(alloc, message) {
        Ok(text) => beside(alloc, message.body.kind(), &text, bytes),
        Err(_) => String::from_str(alloc, "no memory"),
    }
}

/// Bytes decoded as a message, and what that message is encoded to.
pub(crate) fn again(alloc: Global, bytes: &[u8]) -> Result<String, AllocError> {
    match decode(alloc, bytes) {
        Ok(message) => encoded(alloc, &message, bytes),
        Err(DecodeError::Fault(fault)) => fault_text(alloc, &fault),
        Err(DecodeError::Memory) => String::from_str(alloc, "no memory"),
    }
}

// Sale 1 of T1 at ACQ1: 12.50 on 4000001234567899, completed without the host on 2023-11-14 at 22:13:20 in exchange 1.
fn completion() -> Option<Message>
    ensures { IfSome result (λ m. is_message m ≡ true) }
{
    let from = Ident::read(b"T1")?;
    let to = Ident::read(b"ACQ1")?;
    let amount = Amount::new(1250)?;
    let account = Account::read(b"4000001234567899")?;
    Some(Message {
        header: Header {
            exchange: 1,
            repeat: None,
            created: DateTime::utc(1_700_000_000),
            from,
            to,
        },
        body: Body::Sale(SaleBody::Completion(Ended::Sale {
            n: 1,
            amount,
            account,
            code: Code6::offline(),
        })),
    })
}

fn have_one_body(one: &Message, other: &Message) -> bool {
    match (&one.body, &other.body) {
        (Body::Sale(one), Body::Sale(other)) => *one == *other,
        _ => false,
    }
}

// Whether bytes are a message with these values.
fn has_values(alloc: Global, bytes: &[u8], message: &Message) -> bool {
    match decode(alloc, bytes) {
        Ok(read) => read.header == message.header && have_one_body(&read, message),
        Err(_) => false,
    }
}

/// A completion by its values: encoded, and the given document decoded to them.
pub(crate) fn by_values(alloc: Global, given: &[u8]) -> Result<String, AllocError> {
    match completion() {
        Some(message) => {
            let text = encoded(alloc, &message, given)?;
            let equal = has_values(alloc, given, &message);
            format!(in alloc; "{text}; decoded to the same values: {equal}")
        }
        None => String::from_str(alloc, "no values"),
    }
}

/// The laws of reading and writing, each of which is a call without a value.
pub(crate) fn laws(alloc: Global) -> Result<String, AllocError> {
    reading_is_exact();
    texts_read_again();
    faults_are_within();
    shapes_fit();
    messages_are_whole();
    String::from_str(alloc, "five")
}
