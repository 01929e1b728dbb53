// What a till prints.
ghost use Rattle.std.specs.Prelude.{◌≡◌, [], ◌∷◌, ◌++◌, IfOk, codes};
ghost use Rattle.std.specs.Fmt.{decimal};
ghost use Rattle.cap_base.specs.Causes.{HasPutCause};
ghost use Rattle.cap_base.specs.Streams.{PutAppends};
ghost use Rattle.cap_plays.specs.Report.{numbers_line};
ghost use Rattle.cap_schedule.specs.Outcomes.{outcome_text};
ghost use Rattle.cap_till.specs.Printed.{next_text, printed_line};

use cap_base::{PutError, Sink};
use cap_plays::{TerminalNumbers, put_numbers};
use cap_schedule::Outcome;
use std::alloc::{AllocError, Global};

/// What a till prints for a line.
#[derive(Clone, Copy)]
pub enum Printed {
    /// What became of it, in the words of a schedule's outcomes.
    Told(Outcome),
    NoAnswer,
    /// The answer began with this length, which no frame has.
    BadLength(u64),
    /// The line is not in the language.
    BadLine,
    /// So many items wait for the host.
    Queue(u64),
    /// The version of the parameter set in force, or 0.
    InForce(u64),
    /// A plan of so many actions, and the next moment of any, in seconds since 1970, where there is one.
    Planned { actions: u64, next: Option<u64> },
    Numbers(TerminalNumbers),
}

// A line of words. The one error is want of memory, here and below.
fn worded(alloc: Global, words: &str) -> Result<Vec<u8>, AllocError>
    ensures { IfOk result (λ line. line.items ≡ words.now ++ 10 ∷ []) }
{
    Ok(format!(in alloc; "{words}\n")?.into_bytes())
}

// A line of words and a number.
fn numbered(alloc: Global, words: &str, number: u64) -> Result<Vec<u8>, AllocError>
    ensures { IfOk result (λ line. line.items ≡ words.now ++ decimal number ++ 10 ∷ []) }
{
    Ok(format!(in alloc; "{words}{number}\n")?.into_bytes())
}

// The line of an outcome.
fn told(alloc: Global, outcome: &Outcome) -> Result<Vec<u8>, AllocError>
    ensures { IfOk result (λ line. line.items ≡ outcome_text outcome.now ++ 10 ∷ []) }
{
    Ok(format!(in alloc; "{outcome}\n")?.into_bytes())
}

// The line of a plan.
fn planned(alloc: Global, actions: u64, next: Option<u64>) -> Result<Vec<u8>, AllocError>
    ensures { IfOk result (λ line. line.items ≡ codes "plan " ++ decimal actions ++ codes " next " ++ next_text next ++ 10 ∷ []) }
{
    let line = match next {
        Some(moment) => format!(in alloc; "plan {actions} next {moment}\n")?,
        None => format!(in alloc; "plan {actions} next never\n")?,
    };
    Ok(line.into_bytes())
}

// The line of a terminal's numbers.
fn numbers_of(alloc: Global, numbers: TerminalNumbers) -> Result<Vec<u8>, AllocError>
    ensures { IfOk result (λ line. line.items ≡ numbers_line numbers) }
{
    let mut line = Vec::new(alloc);
    put_numbers(alloc, &mut line, numbers)?;
    Ok(line)
}

// The line of all that is printed.
fn line_of(alloc: Global, printed: &Printed) -> Result<Vec<u8>, AllocError>
    ensures { IfOk result (λ line. line.items ≡ printed_line printed.now) }
{
    match printed {
        Printed::Told(outcome) => told(alloc, outcome),
        Printed::NoAnswer => worded(alloc, "no answer"),
        Printed::BadLength(length) => numbered(alloc, "bad length ", *length),
        Printed::BadLine => worded(alloc, "bad line"),
        Printed::Queue(items) => numbered(alloc, "queue ", *items),
        Printed::InForce(version) => numbered(alloc, "set ", *version),
        Printed::Planned { actions, next } => planned(alloc, *actions, *next),
        Printed::Numbers(numbers) => numbers_of(alloc, *numbers),
    }
}

/// Puts the line of what is printed, in one call of the sink.
pub fn put_printed<K: Sink>(alloc: Global, out: &mut K, printed: &Printed) -> Result<(), PutError>
    ensures line { PutAppends (K.contents out.old) (K.contents out.new) result (printed_line printed.now) }
    ensures cause { HasPutCause (K.faults out.old) (K.faults out.new) result }
{
    let Ok(line) = line_of(alloc, printed) else {
        return Err(PutError::Memory);
    };
    out.put(line.as_slice())
}
