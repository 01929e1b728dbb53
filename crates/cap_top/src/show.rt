ghost use Rattle.std.specs.Prelude.{◌≡◌, ◌≢◌, ◌≤◌, ◌⊎◌, ℕ, List, IfOk};
ghost use Rattle.cap_base.specs.Causes.{Rose};
ghost use Rattle.cap_leaf.specs.Trees.{data_of};
ghost use Rattle.cap_trees.specs.Fits.{FitsKind};
ghost use Rattle.cap_text.specs.Reads.{HasRead};
ghost use Rattle.cap_top.specs.Limits.{IsPastLimit, IsWithin};
ghost use Rattle.cap_top.specs.Shown.{message_text, fault_text, IsShown, Shows, ShowsSome};
ghost use Rattle.cap_top.specs.Top.{Took, TookAll};

use crate::input::{InputFault, feed_all};
use crate::status::Status;
use cap_base::{Memory, PutError, Sink, Source};
use cap_leaf::{Fault, Kind, Tree};
use cap_schedule::reason_letters;
use cap_text::{PieceReader, ReadError, message_number, write_document};
use std::alloc::Global;

// The number of a message and its canonical text, a line each.
fn write_message(alloc: Global, kind: Kind, tree: &Tree) -> Result<Vec<u8>, Memory>
    requires { FitsKind kind (data_of tree.now) }
    ensures { IfOk result (λ text. text.items ≡ message_text kind (data_of tree.now)) }
{
    let document = write_document(alloc, kind, tree)?;
    let mut text = Vec::new(alloc);
    text.extend_from_slice(b"message ")?;
    text.extend_from_slice(message_number(kind).as_bytes())?;
    text.push(b'\n')?;
    text.extend_from_slice(&document)?;
    text.push(b'\n')?;
    Ok(text)
}

// The line of a fault.
#[tactic(auto, unfolding(crate::specs::Shown::fault_text))]
fn write_fault(alloc: Global, fault: &Fault) -> Result<Vec<u8>, Memory>
    ensures { IfOk result (λ text. text.items ≡ fault_text fault.now) }
{
    let reason = reason_letters(fault.reason);
    let place = fault.place;
    let exchange = fault.exchange;
    let line = format!(in alloc; "fault {reason} at {place} exchange {exchange}\n")?;
    Ok(line.into_bytes())
}

// The text of what the reader has read.
fn write_read(alloc: Global, reader: PieceReader) -> Result<Vec<u8>, Memory>
    requires { (bytes : List ℕ) × HasRead reader bytes }
    ensures { (bytes : List ℕ) → HasRead reader bytes → IfOk result (λ text. IsShown bytes text.items) }
{
    match reader.finish() {
        Ok((kind, tree)) => write_message(alloc, kind, &tree),
        Err(ReadError::Fault(fault)) => write_fault(alloc, &fault),
        Err(ReadError::Memory) => Err(Memory),
    }
}

/// Reads the document on the input, piece by piece, and writes its message or its first fault.
pub fn run_show<S: Source, K: Sink>(alloc: Global, input: &mut S, out: &mut K) -> Status
    ensures done { result ≡ Status.Done → TookAll (S.left input.old) (S.left input.new) (λ bytes. Shows (K.contents out.old) (K.contents out.new) bytes × IsWithin bytes) }
    ensures not_words { result ≢ Status.Words }
    ensures not_line { (k : _) → result ≢ Status.Line k }
    ensures read { result ≡ Status.Read → Rose (S.faults input.old) (S.faults input.new) × (out.new ≡ out.old) }
    ensures write { result ≡ Status.Write → Rose (K.faults out.old) (K.faults out.new) × TookAll (S.left input.old) (S.left input.new) (λ bytes. ShowsSome (K.contents out.old) (K.contents out.new) bytes × IsWithin bytes) }
    ensures limit { result ≡ Status.InputLimit → Took (S.left input.old) (S.left input.new) IsPastLimit × (out.new ≡ out.old) }
    ensures memory { result ≡ Status.Memory → (out.new ≡ out.old) ⊎ TookAll (S.left input.old) (S.left input.new) (λ bytes. ShowsSome (K.contents out.old) (K.contents out.new) bytes × IsWithin bytes) }
    ensures input_later { S.faults input.old ≤ S.faults input.new }
    ensures out_later { K.faults out.old ≤ K.faults out.new }
{
    let reader = match feed_all(alloc, input) {
        Ok(reader) => reader,
        Err(InputFault::Read) => return Status::Read,
        Err(InputFault::Limit) => return Status::InputLimit,
        Err(InputFault::Memory) => return Status::Memory,
    };
    let Ok(text) = write_read(alloc, reader) else {
        return Status::Memory;
    };
    match out.put(&text) {
        Ok(()) => Status::Done,
        Err(PutError::Failed) => Status::Write,
        Err(PutError::Memory) => Status::Memory,
    }
}
