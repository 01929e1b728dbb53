// Lines of a host that is on.
ghost use Rattle.std.specs.Prelude.{◌≡◌, ◌≤◌, Ok, OnOk};
ghost use Rattle.cap_schedule.specs.declared.schedule.HostOrder.TheVariants as W;
ghost use Rattle.cap_host.specs.Host.{has_failed};
ghost use Rattle.cap_host_lines.specs.Acts.{ActsAs, Delivers, FindsNone};

use crate::calls::{answer, publish_set, rest};
use crate::said::{HostSaid, counted, dropped, published};
use cap_entries::{HostEntry, RowSet};
use cap_host::Host;
use cap_journal::Journal;
use cap_plays::{LineFault, date_of};
use cap_schedule::Outcome;
use std::alloc::Global;

/// Delivers a message that a terminal sent, at a moment in seconds since 1970: its text, and the place that an answer to it would have among the
/// answers of this terminal that count. `Disk` comes where a call of the disk failed: then nothing is replied.
pub fn deliver<J: Journal<HostEntry> + Drop>(
    alloc: Global,
    host: &mut Host<J>,
    moment: u64,
    text: &[u8],
    place: u64,
) -> Result<HostSaid, LineFault>
    requires { moment ≤ 253402300799 }
    ensures delivers { Delivers host.old host.new moment text.now place result }
    ensures works { OnOk result (has_failed host.new ≡ has_failed host.old) }
{
    cap_msgs::texts_read_again();
    date_of(moment);
    let given = answer(alloc, host, moment, text);
    counted(place, given)
}

/// Says that the terminal sent no message with this number, and does nothing.
pub fn missing<J: Journal<HostEntry> + Drop>(host: &Host<J>, moment: u64, which: u64) -> HostSaid
    requires { moment ≤ 253402300799 }
    ensures { FindsNone host.now moment which (Ok result) }
{
    rest(host);
    date_of(moment);
    HostSaid {
        outcome: Outcome::NoMessage(which),
        reply: None,
    }
}

/// Publishes a parameter set. `Disk` comes where a call of the disk failed: the set is published or not.
pub fn publish<J: Journal<HostEntry> + Drop>(
    host: &mut Host<J>,
    moment: u64,
    rows: &RowSet,
) -> Result<HostSaid, LineFault>
    requires { moment ≤ 253402300799 }
    ensures acts { ActsAs host.old host.new moment (W.Publish rows.now) result }
    ensures works { OnOk result (has_failed host.new ≡ has_failed host.old) }
{
    date_of(moment);
    let given = publish_set(host, rows);
    published(given)
}

/// Delivers bytes that no terminal sent: the reply is told, and dropped. `Disk` is as for a message.
pub fn listen<J: Journal<HostEntry> + Drop>(
    alloc: Global,
    host: &mut Host<J>,
    moment: u64,
    bytes: &[u8],
) -> Result<HostSaid, LineFault>
    requires { moment ≤ 253402300799 }
    ensures acts { ActsAs host.old host.new moment (W.Listen bytes.now) result }
    ensures works { OnOk result (has_failed host.new ≡ has_failed host.old) }
{
    date_of(moment);
    let given = answer(alloc, host, moment, bytes);
    dropped(given)
}
