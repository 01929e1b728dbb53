// Calls of a host that is on, and what they leave of it.
ghost use Rattle.std.specs.Prelude.{◌≡◌, ◌≤◌, ◌+◌, ℕ, [], ◌∷◌, length, IfOk, OnOk};
ghost use Rattle.cap_disk.specs.Disk.{Counts};
ghost use Rattle.cap_msgs.specs.Received.{Received};
ghost use Rattle.cap_msgs.specs.Reads.{Reads as Reads_as};
ghost use Rattle.cap_host_answers.specs.Received.{answer_received};
ghost use Rattle.cap_host.specs.Reply.{IsReply};
ghost use Rattle.cap_host.specs.Host.{entries_of, fault_of, has_failed};
ghost use Rattle.cap_host_lines.specs.Acts.{Changes, Hears, IsWorking, Grew, Publishes_so};
ghost use Rattle.cap_host_lines.specs.Says.{said_published};

use crate::answer::{Answer, read_reply};
use cap_entries::{HostEntry, RowSet};
use cap_host::{Host, HostFault, PublishFault, Reply};
use cap_journal::Journal;
use cap_plays::LineFault;
use std::alloc::Global;

/// Nothing is done to the host.
pub(crate) fn rest<J: Journal<HostEntry> + Drop>(host: &Host<J>)
    ensures { (before : Counts) → IsWorking host.now before → Grew host.now host.now [] before }
{
    host.stands();
}

// Bytes arrive at the host.
fn hear<J: Journal<HostEntry> + Drop>(
    host: &mut Host<J>,
    moment: u64,
    text: &[u8],
) -> Result<Reply, HostFault>
    requires { moment ≤ 253402300799 }
    ensures told { (received : Received) → Reads_as text.now received → IfOk result (λ reply. IsReply (entries_of host.old) moment received (answer_received (entries_of host.old) received).reply reply) }
    ensures changes { (received : Received) → Reads_as text.now received → Changes host.old host.new (answer_received (entries_of host.old) received).added (fault_of result) }
    ensures works { OnOk result (has_failed host.new ≡ has_failed host.old) }
{
    cap_msgs::reading_is_exact();
    host.stands();
    let given = host.answer(text, moment);
    host.stands();
    given
}

/// The answer of the host to bytes that arrive.
pub(crate) fn answer<J: Journal<HostEntry> + Drop>(
    alloc: Global,
    host: &mut Host<J>,
    moment: u64,
    text: &[u8],
) -> Result<Option<Answer>, LineFault>
    requires { moment ≤ 253402300799 }
    ensures hears { (received : Received) → Reads_as text.now received → Hears host.old host.new moment received result }
    ensures works { OnOk result (has_failed host.new ≡ has_failed host.old) }
{
    cap_msgs::texts_read_again();
    let given = hear(host, moment, text);
    read_reply(alloc, &given)
}

// Publishes a set.
fn publish_copy<J: Journal<HostEntry> + Drop>(
    host: &mut Host<J>,
    rows: RowSet,
) -> Result<u64, PublishFault>
    ensures publishes { Publishes_so host.old host.new rows result }
    ensures works { OnOk (said_published result) (has_failed host.new ≡ has_failed host.old) }
{
    host.stands();
    let given = host.publish(rows);
    host.stands();
    given
}

/// Publishes a set; the line keeps its own.
pub(crate) fn publish_set<J: Journal<HostEntry> + Drop>(
    host: &mut Host<J>,
    rows: &RowSet,
) -> Result<u64, PublishFault>
    ensures publishes { Publishes_so host.old host.new rows.now result }
    ensures works { OnOk (said_published result) (has_failed host.new ≡ has_failed host.old) }
{
    match rows.clone() {
        Ok(copy) => publish_copy(host, copy),
        Err(_) => Err(PublishFault::Memory),
    }
}
