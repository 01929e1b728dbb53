// What a line says, and which of the texts that it sends are kept.
ghost use Rattle.std.specs.Prelude.{◌≡◌, ◌++◌, option_to_list, OnOk};
ghost use Rattle.cap_terminal_side.specs.Keeping.{outcome_in, text_in, kept_of};

use cap_base::Memory;
use cap_plays::LineFault;
use cap_schedule::{Outcome, Prefix};
use cap_terminal_lines::Said;

/// What a line says, and the text that it sends.
pub(crate) fn parted(said: Result<Said, LineFault>) -> (Result<Outcome, LineFault>, Option<Vec<u8>>)
    ensures { result ≡ (outcome_in said, text_in said) }
{
    match said {
        Ok(Said { outcome, sent }) => (Ok(outcome), sent),
        Err(fault) => (Err(fault), None),
    }
}

// Keeps a text, where there is one.
fn keep_text(texts: &mut Vec<Vec<u8>>, text: Option<Vec<u8>>) -> Result<(), Memory>
    ensures { OnOk result (texts.new.items ≡ texts.old.items ++ option_to_list text) }
{
    match text {
        Some(text) => {
            texts.push(text)?;
            Ok(())
        }
        None => Ok(()),
    }
}

/// Keeps a text, unless the power has gone before it was sent. The one error is want of memory.
pub(crate) fn keep(
    texts: &mut Vec<Vec<u8>>,
    prefix: Option<Prefix>,
    text: Option<Vec<u8>>,
) -> Result<(), Memory>
    ensures { OnOk result (texts.new.items ≡ texts.old.items ++ kept_of prefix text) }
{
    match prefix {
        Some(Prefix::Cut { .. }) => keep_text(texts, text),
        Some(Prefix::Fail { .. }) => keep_text(texts, text),
        Some(Prefix::CutAfter) => Ok(()),
        None => keep_text(texts, text),
    }
}
