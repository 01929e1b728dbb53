ghost use Rattle.std.specs.Prelude.{◌≡◌, ◌++◌, OnOk};
ghost use Rattle.cap_plays.specs.Report.{numbers_of as spec_numbers, terminal_text};

use cap_base::Ident;
use cap_entries::TermEntry;
use cap_journal::Journal;
use cap_plays::{TerminalNumbers, put_terminal};
use cap_terminal::Terminal;
use std::alloc::{AllocError, Global};

// The numbers of a terminal's line.
fn numbers_of<J: Journal<TermEntry>>(terminal: &Terminal<J>) -> TerminalNumbers
    ensures { result ≡ spec_numbers (J.entries terminal.now) }
{
    let counts = terminal.counts();
    TerminalNumbers {
        sales: counts.sales,
        completed: counts.completed,
        cancelled: counts.cancelled,
        voided: counts.voided,
        periods: counts.periods,
        items: terminal.items_len(),
        acked: terminal.acked(),
        version: terminal.in_force(),
    }
}

/// Appends the line of a terminal of this name. The one error is want of memory.
pub fn put_terminal_line<J: Journal<TermEntry>>(
    alloc: Global,
    text: &mut Vec<u8>,
    id: &Ident,
    terminal: &Terminal<J>,
) -> Result<(), AllocError>
    ensures { OnOk result (text.new.items ≡ text.old.items ++ terminal_text id.now (J.entries terminal.now)) }
{
    put_terminal(alloc, text, id, numbers_of(terminal))
}
