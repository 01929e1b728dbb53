ghost use Rattle.std.specs.Prelude.{◌≡◌, ℕ, List, IfOk};
ghost use Rattle.std.specs.Option.{option_copied};
ghost use Rattle.cap_msgs.specs.Received.{Received, Read};
ghost use Rattle.cap_msgs.specs.Reads.{Reads};
ghost use Rattle.cap_schedule.specs.Reader.{IsReader};
ghost use Rattle.cap_schedule.specs.Noise.{is_foreign as spec_foreign, order_noise as spec_order, host_noise as spec_host, noise_in as spec_noise, is_allowed as spec_allowed};

use crate::ends::is_party;
use crate::schedule::{Action, Bytes, HostOrder, Order};
use cap_base::{Ident, Memory};
use cap_entries::TermSetup;
use cap_msgs::{DecodeError, Message, decode, reading_is_exact};
use std::alloc::Global;

// Whether a message has a party that the schedule has not.
fn is_foreign(host: &Ident, terminals: &[TermSetup], message: &Message) -> bool
    ensures { result ≡ spec_foreign host.now terminals.now (Read message.now) }
{
    !(is_party(host, terminals, message.header.from.as_bytes())
        && is_party(host, terminals, message.header.to.as_bytes()))
}

// Whether bytes read as no message between parties of the schedule.
fn are_foreign(
    alloc: Global,
    host: &Ident,
    terminals: &[TermSetup],
    bytes: &[u8],
) -> Result<bool, Memory>
    ensures { (r : Received) → Reads bytes.now r → IfOk result (λ b. b ≡ spec_foreign host.now terminals.now r) }
{
    reading_is_exact();
    match decode(alloc, bytes) {
        Ok(message) => Ok(is_foreign(host, terminals, &message)),
        Err(DecodeError::Fault(_)) => Ok(true),
        Err(DecodeError::Memory) => Err(Memory),
    }
}

// The bytes of noise that a terminal is to take.
fn order_noise(order: &Order) -> Option<&Bytes>
    ensures { option_copied result ≡ spec_order order.now }
{
    match order {
        Order::Hear(bytes) => Some(bytes),
        _ => None,
    }
}

// The bytes of noise that the host is to take.
fn host_noise(order: &HostOrder) -> Option<&Bytes>
    ensures { option_copied result ≡ spec_host order.now }
{
    match order {
        HostOrder::Listen(bytes) => Some(bytes),
        _ => None,
    }
}

// The bytes of noise that an action delivers.
fn noise_in(action: &Action) -> Option<&Bytes>
    ensures { option_copied result ≡ spec_noise action.now }
{
    match action {
        Action::AtTerminal { order, .. } => order_noise(order),
        Action::AtHost(order) => host_noise(order),
        Action::Reopen(_) => None,
    }
}

/// Whether the bytes of noise that an action delivers, where it delivers some, are no message between parties of the schedule.
pub fn is_allowed(
    alloc: Global,
    host: &Ident,
    terminals: &[TermSetup],
    action: &Action,
) -> Result<bool, Memory>
    ensures { (reads : List ℕ → Received) → IsReader reads → IfOk result (λ b. b ≡ spec_allowed reads host.now terminals.now action.now) }
{
    match noise_in(action) {
        Some(bytes) => are_foreign(alloc, host, terminals, bytes.as_slice()),
        None => Ok(true),
    }
}
