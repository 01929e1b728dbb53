// A host's part of a report.
ghost use Rattle.std.specs.Prelude.{◌≡◌, ◌≢◌, ◌<◌, ◌≤◌, ◌++◌, length, IfOk, OnOk, IsOk, Err, slice_get};
ghost use Rattle.cap_base.specs.Causes.{Rose};
ghost use Rattle.cap_base.specs.Captured.{captured};
ghost use Rattle.cap_entries.specs.Log.{log, setup_of};
ghost use Rattle.cap_host.specs.Capture.{line_of};
ghost use Rattle.cap_host.specs.Host.{entries_of};
ghost use Rattle.cap_plays.specs.Report.{amounts, host_line, period_lines};
ghost use Rattle.cap_host_lines.specs.Logs.{Keeps, Blames, faults_of, log_text};

use cap_base::Ident;
use cap_entries::HostEntry;
use cap_host::{Captured, Host, HostFault};
use cap_journal::Journal;
use cap_plays::{LineFault, put_host, put_period};
use std::alloc::{AllocError, Global};

// How many sales are captured, and their sum in hundredths.
#[derive(Clone, Copy)]
struct CapturedSum {
    count: u64,
    sum: u128,
}

fn amount_of(line: &Captured) -> u128
    ensures value { result ≡ line.now.amount }
    ensures small { result ≤ 999999999999 }
{
    u128::from(line.amount.hundredths())
}

// Captured sale k of the log of the terminal at a place.
fn captured_line<J: Journal<HostEntry> + Drop>(
    host: &mut Host<J>,
    place: u8,
    k: u64,
) -> Result<Option<Captured>, HostFault>
    requires { place < length (setup_of (entries_of host.old)).terminals }
    ensures line { IfOk result (λ line. line ≡ line_of (slice_get (captured (log (entries_of host.old) place)) k)) }
    ensures keeps { OnOk result (Keeps host.old host.new) }
    ensures blames { Blames host.old host.new result }
{
    host.capture_line(place, k)
}

// The sum over the captured sales of a log. Each is read once.
fn captured_sum<J: Journal<HostEntry> + Drop>(
    host: &mut Host<J>,
    place: u8,
) -> Result<CapturedSum, HostFault>
    requires { place < length (setup_of (entries_of host.old)).terminals }
    ensures count { IfOk result (λ sums. sums.count ≡ length (captured (log (entries_of host.old) place))) }
    ensures sum { IfOk result (λ sums. sums.sum ≡ amounts (captured (log (entries_of host.old) place))) }
    ensures keeps { OnOk result (Keeps host.old host.new) }
    ensures blames { Blames host.old host.new result }
{
    let len = host.log_len(place);
    let mut sum: u128 = 0;
    for k in 0..len {
        match captured_line(host, place, k)? {
            Some(line) => sum += amount_of(&line),
            None => return Ok(CapturedSum { count: k, sum }),
        }
    }
    Ok(CapturedSum { count: len, sum })
}

// A line for each period that is closed in a log.
fn put_periods<J: Journal<HostEntry> + Drop>(
    alloc: Global,
    text: &mut Vec<u8>,
    id: &Ident,
    host: &Host<J>,
    place: u8,
) -> Result<(), AllocError>
    requires { place < length (setup_of (entries_of host.now)).terminals }
    ensures { OnOk result (text.new.items ≡ text.old.items ++ period_lines id.now (log (entries_of host.now) place) (log (entries_of host.now) place)) }
{
    let _ = host.setup();
    let len = host.log_len(place);
    for q in 0..len {
        match host.totals(place, q + 1) {
            Some(totals) => put_period(alloc, text, id, q + 1, totals)?,
            None => return Ok(()),
        }
    }
    Ok(())
}

// The lines of a log whose captured sales have this sum.
fn put_lines<J: Journal<HostEntry> + Drop>(
    alloc: Global,
    text: &mut Vec<u8>,
    id: &Ident,
    host: &Host<J>,
    place: u8,
    sums: CapturedSum,
) -> Result<(), AllocError>
    requires { place < length (setup_of (entries_of host.now)).terminals }
    ensures { OnOk result (text.new.items ≡ text.old.items ++ (host_line id.now (length (log (entries_of host.now) place)) sums.count sums.sum ++ period_lines id.now (log (entries_of host.now) place) (log (entries_of host.now) place))) }
{
    let len = host.log_len(place);
    put_host(alloc, text, id, len, sums.count, sums.sum)?;
    put_periods(alloc, text, id, host, place)
}

fn or_memory(given: Result<(), AllocError>) -> Result<(), LineFault>
    ensures ok { OnOk result (IsOk given) }
    ensures no_disk { result ≢ Err LineFault.Disk }
{
    match given {
        Ok(()) => Ok(()),
        Err(_) => Err(LineFault::Memory),
    }
}

/// Appends the part of a report on the log of the terminal at a place, whose name this is: the log's length, how many sales are captured and
/// their sum, and a line for each closed period. The host stands as before. `Disk` comes where a call of its disk failed, `Memory` too where the
/// journal no longer reads what was written; then part of the text may stand.
pub fn put_log<J: Journal<HostEntry> + Drop>(
    alloc: Global,
    text: &mut Vec<u8>,
    id: &Ident,
    host: &mut Host<J>,
    place: u8,
) -> Result<(), LineFault>
    requires { place < length (setup_of (entries_of host.old)).terminals }
    ensures text { OnOk result (text.new.items ≡ text.old.items ++ log_text id.now (log (entries_of host.old) place)) }
    ensures keeps { OnOk result (Keeps host.old host.new) }
    ensures disk { result ≡ Err LineFault.Disk → Rose (faults_of host.old) (faults_of host.new) }
{
    match captured_sum(host, place) {
        Ok(sums) => or_memory(put_lines(alloc, text, id, host, place, sums)),
        Err(HostFault::Memory) => Err(LineFault::Memory),
        Err(HostFault::Disk) => Err(LineFault::Disk),
        Err(HostFault::Failed) => Err(LineFault::Disk),
    }
}
