ghost use Rattle.std.specs.Prelude.{◌≡◌, ◌≤◌, ◌<◌, ◌+◌, ◌^◌, OnOk};
ghost use Rattle.cap_schedule.specs.Ranges.{OrderInRange};
ghost use Rattle.cap_plays.specs.Texts.{texts_in};
ghost use Rattle.cap_terminal_lines.specs.Acts.{ActsAs};

use crate::hears::{down, hear};
use crate::said::Said;
use crate::sales::{begin, cancel, close, offline, sale, void};
use crate::sends::{ask, ask_cancel, batch, diagnose, push, status};
use cap_entries::TermEntry;
use cap_journal::Journal;
use cap_plays::{LineFault, date_of};
use cap_schedule::Order;
use cap_terminal::Terminal;
use std::alloc::Global;

/// What a line makes at a terminal that has sent so many messages, where these are the texts of the answers that count. The moment is in seconds
/// since 1970, at most the end of the year 9999. `Disk` comes exactly where the device call that is armed is one of the line's, of a terminal
/// whose calls have not failed before; `Memory` where memory ran out, or a message could not be written.
pub fn act<J: Journal<TermEntry>>(
    alloc: Global,
    terminal: &mut Terminal<J>,
    sent: u64,
    answers: &[Vec<u8>],
    moment: u64,
    order: &Order,
) -> Result<Said, LineFault>
    requires moment { moment ≤ 253402300799 }
    requires sent { sent + 1 < 2 ^ 64 }
    requires range { OrderInRange order.now }
    ensures acts { ActsAs J.Journal terminal.old terminal.new sent (texts_in answers.now) moment order.now result }
    ensures works { OnOk result (J.has_failed terminal.new ≡ J.has_failed terminal.old) }
{
    date_of(moment);
    match order {
        Order::Begin { amount, account } => begin(terminal, *amount, *account),
        Order::Offline(n) => offline(terminal, *n),
        Order::Sale { amount, account } => sale(terminal, *amount, *account),
        Order::Void(n) => void(terminal, *n),
        Order::Cancel(n) => cancel(terminal, *n),
        Order::Close => close(terminal),
        Order::Push => push(alloc, terminal, moment, sent),
        Order::Batch(limit) => batch(alloc, terminal, *limit, moment, sent),
        Order::Ask(n) => ask(alloc, terminal, *n, moment, sent),
        Order::AskCancel(n) => ask_cancel(alloc, terminal, *n, moment, sent),
        Order::Diagnose => diagnose(alloc, terminal, moment, sent),
        Order::Status(wanted) => status(alloc, terminal, *wanted, moment, sent),
        Order::Down(j) => down(terminal, false, answers, *j),
        Order::Walkout(j) => down(terminal, true, answers, *j),
        Order::Hear(bytes) => hear(terminal, false, bytes.as_slice()),
    }
}
