ghost use Rattle.std.specs.Prelude.{◌≡◌, ◌≤◌, ◌<◌, ◌+◌, ◌^◌, ℕ, List, true, false, Some, None, IfOk, OnOk, OnErr, MatchOption};
ghost use Rattle.cap_msgs.specs.Received.{Received};
ghost use Rattle.cap_schedule.specs.Reader.{IsReader};
ghost use Rattle.cap_world.specs.World.{HostState};
ghost use Rattle.cap_plays.specs.Turns.{Scene, nth};
ghost use Rattle.cap_plays.specs.Plays.{Doubt};
ghost use Rattle.cap_plays.specs.Texts.{texts_in};
ghost use Rattle.cap_host.specs.Host.{has_failed};
ghost use Rattle.cap_power.specs.Standing.{fails};
ghost use Rattle.cap_host_side.specs.Sides.{HostStands, IsGiven, Passes, Does, DoesAt, Reopens};
ghost use Rattle.cap_host_side.specs.Lines.{ActsOn, DeliversOf, outcome_said, reply_said, reply_kept};

use cap_base::Memory;
use cap_disk::MemoryDisk;
use cap_entries::HostEntry;
use cap_host::Host;
use cap_host_lines::{HostSaid, deliver, listen, missing, publish};
use cap_journal::DiskJournal;
use cap_plays::{LineFault, moment_of};
use cap_power::{OverDisk, Power, armed, reopen as open_again, settle};
use cap_schedule::{HostOrder, Outcome, Prefix};
use std::alloc::Global;

/// A host over a journal on a disk in memory.
pub type DiskHost = Host<DiskJournal<HostEntry, MemoryDisk>>;

/// What a line did at the host: what it says, and the text of the reply that goes to the answers of a terminal.
#[derive(Drop)]
pub struct Done {
    pub outcome: Outcome,
    pub reply: Option<Vec<u8>>,
}

// The text with this number, from 1.
fn nth_of(texts: &[Vec<u8>], k: u64) -> Option<&[u8]>
    ensures { MatchOption result (nth (texts_in texts.now) k ≡ None) (λ text. nth (texts_in texts.now) k ≡ Some text.now) }
{
    if k == 0 {
        return None;
    }
    let i = (k - 1) as usize;
    if i < texts.len() {
        Some(texts[i].as_slice())
    } else {
        None
    }
}

// Delivers a message of a terminal, where there is one with this number.
fn deliver_of(
    alloc: Global,
    host: &mut DiskHost,
    moment: u64,
    sent: &[Vec<u8>],
    which: u64,
    place: u64,
) -> Result<HostSaid, LineFault>
    requires { moment ≤ 253402300799 }
    ensures delivers { DeliversOf host.old host.new moment which (texts_in sent.now) place result }
    ensures works { OnOk result (has_failed host.new ≡ has_failed host.old) }
{
    match nth_of(sent, which) {
        Some(text) => deliver(alloc, host, moment, text, place),
        None => Ok(missing(host, moment, which)),
    }
}

// What a line makes at a host that is on.
fn act_on(
    alloc: Global,
    host: &mut DiskHost,
    moment: u64,
    order: &HostOrder,
    sent: &[Vec<u8>],
    place: u64,
) -> Result<HostSaid, LineFault>
    requires { moment ≤ 253402300799 }
    ensures acts { ActsOn host.old host.new moment order.now (texts_in sent.now) place result }
    ensures works { OnOk result (has_failed host.new ≡ has_failed host.old) }
{
    match order {
        HostOrder::Up { which, .. } => deliver_of(alloc, host, moment, sent, *which, place),
        HostOrder::Publish(rows) => publish(host, moment, rows),
        HostOrder::Listen(bytes) => listen(alloc, host, moment, bytes.as_slice()),
    }
}

// What a line says, and the text of its reply.
fn parted(said: Result<HostSaid, LineFault>) -> (Result<Outcome, LineFault>, Option<Vec<u8>>)
    ensures outcome { result.0 ≡ outcome_said said }
    ensures reply { result.1 ≡ reply_said said }
{
    match said {
        Ok(HostSaid { outcome, reply }) => (Ok(outcome), reply),
        Err(LineFault::Disk) => (Err(LineFault::Disk), None),
        Err(LineFault::Memory) => (Err(LineFault::Memory), None),
    }
}

// A reply, unless the power has gone before it was sent.
fn kept(prefix: Option<Prefix>, reply: Option<Vec<u8>>) -> Option<Vec<u8>>
    ensures { result ≡ reply_kept prefix reply }
{
    match prefix {
        Some(Prefix::CutAfter) => None,
        _ => reply,
    }
}

// Does what a line asks of a host that is on. The power keeps what becomes of it.
fn act_at(
    alloc: Global,
    power: &mut Power<DiskHost>,
    host: DiskHost,
    moment: u64,
    prefix: Option<Prefix>,
    order: &HostOrder,
    sent: &[Vec<u8>],
    place: u64,
) -> Result<Done, Memory>
    requires moment { moment ≤ 253402300799 }
    requires works { ⟦<DiskHost as OverDisk<HostEntry>>⟧.has_failed host ≡ false }
    ensures acts { (reads : List ℕ → Received) (most : ℕ) (w : Scene) (doubt : Doubt) → IsReader reads → most + 4 < 2 ^ 64 → IsGiven w order.now (texts_in sent.now) place → HostStands ⟦<DiskHost as OverDisk<HostEntry>>⟧.entries ⟦<DiskHost as OverDisk<HostEntry>>⟧.disk ⟦<DiskHost as OverDisk<HostEntry>>⟧.has_failed most (Power.On host) w.host doubt → IfOk result (λ done. DoesAt ⟦<DiskHost as OverDisk<HostEntry>>⟧.entries ⟦<DiskHost as OverDisk<HostEntry>>⟧.disk ⟦<DiskHost as OverDisk<HostEntry>>⟧.has_failed reads (most + 4) power.new w moment prefix order.now done) }
    ensures works { OnOk result (fails ⟦<DiskHost as OverDisk<HostEntry>>⟧.has_failed power.new ≡ false) }
    ensures lent { OnErr result (power.new ≡ power.old) }
{
    let mut host = armed(alloc, host, prefix)?;
    let given = act_on(alloc, &mut host, moment, order, sent, place);
    let (said, reply) = parted(given);
    let settled = settle(alloc, host, prefix, said)?;
    *power = settled.power;
    Ok(Done {
        outcome: settled.outcome,
        reply: kept(prefix, reply),
    })
}

/// Does what a line asks of the host; one that is off is passed over. For a message of a terminal these are the texts of all that this terminal sent, and the
/// place that the next of its answers that count has. The one error is want of memory.
pub fn act(
    alloc: Global,
    power: &mut Power<DiskHost>,
    number: u64,
    prefix: Option<Prefix>,
    order: &HostOrder,
    sent: &[Vec<u8>],
    place: u64,
) -> Result<Done, Memory>
    requires number { number ≤ 251702300799 }
    requires works { fails ⟦<DiskHost as OverDisk<HostEntry>>⟧.has_failed power.old ≡ false }
    ensures on { (reads : List ℕ → Received) (most : ℕ) (w : Scene) (doubt : Doubt) → IsReader reads → most + 4 < 2 ^ 64 → IsGiven w order.now (texts_in sent.now) place → HostStands ⟦<DiskHost as OverDisk<HostEntry>>⟧.entries ⟦<DiskHost as OverDisk<HostEntry>>⟧.disk ⟦<DiskHost as OverDisk<HostEntry>>⟧.has_failed most power.old w.host doubt → w.host.on ≡ true → IfOk result (λ done. Does ⟦<DiskHost as OverDisk<HostEntry>>⟧.entries ⟦<DiskHost as OverDisk<HostEntry>>⟧.disk ⟦<DiskHost as OverDisk<HostEntry>>⟧.has_failed reads (most + 4) power.new w number prefix order.now done) }
    ensures off { (most : ℕ) (s : HostState) (doubt : Doubt) → HostStands ⟦<DiskHost as OverDisk<HostEntry>>⟧.entries ⟦<DiskHost as OverDisk<HostEntry>>⟧.disk ⟦<DiskHost as OverDisk<HostEntry>>⟧.has_failed most power.old s doubt → s.on ≡ false → IfOk result (λ done. Passes ⟦<DiskHost as OverDisk<HostEntry>>⟧.entries ⟦<DiskHost as OverDisk<HostEntry>>⟧.disk ⟦<DiskHost as OverDisk<HostEntry>>⟧.has_failed most power.new s doubt done) }
    ensures works { fails ⟦<DiskHost as OverDisk<HostEntry>>⟧.has_failed power.new ≡ false }
{
    match power.lend() {
        Power::On(host) => act_at(
            alloc,
            power,
            host,
            moment_of(number),
            prefix,
            order,
            sent,
            place,
        ),
        Power::Off(disk) => {
            *power = Power::Off(disk);
            Ok(Done {
                outcome: Outcome::IsOff,
                reply: None,
            })
        }
        Power::Lent => Err(Memory),
    }
}

/// Opens the host again from its disk. The one error is want of memory.
pub fn reopen(
    alloc: Global,
    power: &mut Power<DiskHost>,
    prefix: Option<Prefix>,
) -> Result<Outcome, Memory>
    ensures opens { (most : ℕ) (s : HostState) (doubt : Doubt) → 2 ≤ most → HostStands ⟦<DiskHost as OverDisk<HostEntry>>⟧.entries ⟦<DiskHost as OverDisk<HostEntry>>⟧.disk ⟦<DiskHost as OverDisk<HostEntry>>⟧.has_failed most power.old s doubt → IfOk result (λ outcome. Reopens ⟦<DiskHost as OverDisk<HostEntry>>⟧.entries ⟦<DiskHost as OverDisk<HostEntry>>⟧.disk ⟦<DiskHost as OverDisk<HostEntry>>⟧.has_failed most power.new s doubt prefix outcome) }
    ensures works { fails ⟦<DiskHost as OverDisk<HostEntry>>⟧.has_failed power.new ≡ false }
{
    let settled = open_again(alloc, power.lend(), prefix)?;
    *power = settled.power;
    Ok(settled.outcome)
}
