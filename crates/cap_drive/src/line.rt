// The line of a connection.
ghost use Rattle.std.specs.Prelude.{◌≡◌, ◌++◌, IfOk, string_bytes, codes};
ghost use Rattle.std.specs.Fmt.{decimal};
ghost use Rattle.cap_base.specs.Causes.{HasPutCause};
ghost use Rattle.cap_base.specs.Streams.{PutAppends};
ghost use Rattle.cap_drive.specs.Lines.{line_with};
ghost use Rattle.cap_drive.specs.Closings.{closing_line};

use crate::closing::Closing;
use cap_base::{PutError, Sink};
use std::alloc::{AllocError, Global};

// The text of a line that ends so. The one error is want of memory, here and below.
fn line_text(alloc: Global, number: u64, replied: u64, ending: &str) -> Result<String, AllocError>
    ensures { IfOk result (λ text. string_bytes text ≡ line_with number replied ending.now) }
{
    format!(in alloc; "connection {number} frames {replied}{ending}\n")
}

// The text of the line after a bad length.
fn bad_length_text(
    alloc: Global,
    number: u64,
    replied: u64,
    length: u64,
) -> Result<String, AllocError>
    ensures { IfOk result (λ text. string_bytes text ≡ line_with number replied (codes " bad length " ++ decimal length)) }
{
    format!(in alloc; "connection {number} frames {replied} bad length {length}\n")
}

// The text of the line.
fn text_of(alloc: Global, number: u64, replied: u64, closing: Closing) -> Result<String, AllocError>
    ensures { IfOk result (λ text. string_bytes text ≡ closing_line number replied closing) }
{
    match closing {
        Closing::End => line_text(alloc, number, replied, " end"),
        Closing::Fault => line_text(alloc, number, replied, " fault"),
        Closing::BadLength(length) => bad_length_text(alloc, number, replied, length),
        Closing::Disk => line_text(alloc, number, replied, " disk"),
        Closing::FrameLimit => line_text(alloc, number, replied, " frame limit"),
        Closing::Memory => Ok(String::new(alloc)),
    }
}

/// Writes the line of a connection; none where memory lacked within it.
pub(crate) fn put_line<K: Sink>(
    alloc: Global,
    out: &mut K,
    number: u64,
    replied: u64,
    closing: Closing,
) -> Result<(), PutError>
    ensures line { PutAppends (K.contents out.old) (K.contents out.new) result (closing_line number replied closing) }
    ensures cause { HasPutCause (K.faults out.old) (K.faults out.new) result }
{
    let Ok(text) = text_of(alloc, number, replied, closing) else {
        return Err(PutError::Memory);
    };
    out.put(text.as_bytes())
}
