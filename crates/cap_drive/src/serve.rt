// The driver of an end that answers.
ghost use Rattle.std.specs.Prelude.{◌≡◌, ◌≤◌, ◌<◌, ◌+◌, ◌-◌, ◌^◌, ◌⊎◌, ℕ, List, length, true, false, IsTrue, IsErr, IfOk, IfErr, MatchResult};
ghost use Rattle.cap_base.specs.Causes.{Rose};
ghost use Rattle.cap_answering.specs.Steps.{EndState, Holds};
ghost use Rattle.cap_drive.specs.Connections.{Connection};
ghost use Rattle.cap_drive.specs.Driver.{Serves, ComesBack, images_of, faults_of};
ghost use Rattle.cap_drive.specs.Passing.{end_by, GoesOn, BreaksIn};

use crate::closing::{Closing, Tally};
use crate::connection::serve_connection;
use crate::line::put_line;
use cap_answering::{Answering, ReopenFault};
use cap_base::{Clock, PutError, Sink};
use cap_link::Link;
use std::alloc::Global;

/// How serving ends.
#[derive(Clone, Copy, Debug, PartialEq, Eq)]
pub enum ServeEnd {
    /// The stated number of connections was served, or no more were left.
    Done,
    /// The next connection was not opened.
    Port,
    /// A line was not written.
    Write,
    /// A call of the disk failed, and the end was not opened again.
    Disk,
    Memory,
}

// How serving ends where opening again is refused.
fn end_for(fault: ReopenFault) -> ServeEnd
    ensures { result ≡ end_by fault }
{
    match fault {
        ReopenFault::Memory => ServeEnd::Memory,
        _ => ServeEnd::Disk,
    }
}

// Opens the end again. Where it is refused, serving ends.
fn open_again<A: Answering>(host: A) -> Result<A, (ServeEnd, A::Journal)>
    ensures entries { IsTrue (A.tells host) → IfOk result (λ end. (image : List ℕ) × A.may_leave host image × A.has image (A.entries end)) }
    ensures works { IfOk result (λ end. A.has_failed end ≡ false) }
    ensures is_readable { IfOk result (λ end. A.is_readable end ≡ A.is_readable host) }
    ensures tells { IfOk result (λ end. A.tells end ≡ A.tells host) }
    ensures faults { IfOk result (λ end. A.faults host ≤ A.faults end) }
    ensures refused { IsTrue (A.tells host) → IfErr result (λ error. (image : List ℕ) → A.journal_may_leave error.1 image → A.may_leave host image) }
    ensures back_faults { IfErr result (λ error. A.faults host ≤ A.journal_faults error.1) }
    ensures back_tells { IfErr result (λ error. A.journal_tells error.1 ≡ A.tells host) }
    ensures which { IfErr result (λ error. (error.0 ≡ ServeEnd.Disk) ⊎ (error.0 ≡ ServeEnd.Memory)) }
    // Where each image has entries that are allowed, a second fault of the disk shows.
    ensures disk { IsTrue (A.tells host) → ((image : List ℕ) → A.may_leave host image → (list : List A.Entry) × A.has image list × A.is_allowed list) → IfErr result (λ error. error.0 ≡ ServeEnd.Disk → Rose (A.faults host) (A.journal_faults error.1)) }
{
    match host.reopen() {
        Ok(end) => Ok(end),
        Err((fault, journal)) => Err((end_for(fault), journal)),
    }
}

// Serves the open connection, and opens the end again after a disk fault. It tells how the connection ended and how many replies were put; or how serving ends.
fn serve_one<A: Answering, L: Link, C: Clock>(
    alloc: Global,
    host: A,
    link: &mut L,
    clock: &mut C,
) -> Result<(A, Closing, u64), (ServeEnd, Result<A, A::Journal>)>
    requires open { L.is_open link.old ≡ true }
    requires works { A.has_failed host ≡ false }
    ensures goes { IfOk result (λ one. GoesOn (A.tells host) (A.is_readable host) A.adds A.replies (C.told clock.old) (L.tells link.old) one.1 one.2 (A.entries host) (A.entries one.0) (L.lines link.old) (L.lines link.new) (L.line_faults link.old) (L.line_faults link.new) (A.faults host) (A.faults one.0)) }
    ensures works { IfOk result (λ one. A.has_failed one.0 ≡ false) }
    ensures is_readable { IfOk result (λ one. A.is_readable one.0 ≡ A.is_readable host) }
    ensures host_tells { IfOk result (λ one. A.tells one.0 ≡ A.tells host) }
    ensures faults { IfOk result (λ one. A.faults host ≤ A.faults one.0) }
    ensures breaks { IfErr result (λ end. BreaksIn (A.tells host) (A.is_readable host) A.adds A.replies (C.told clock.old) (L.tells link.old) A.entries A.has_failed A.has A.may_leave A.journal_may_leave end.0 end.1 (A.entries host) (L.lines link.old) (L.lines link.new) (L.line_faults link.old) (L.line_faults link.new) (A.faults host) (faults_of A.faults A.journal_faults end.1)) }
    ensures which { IfErr result (λ end. (end.0 ≡ ServeEnd.Disk) ⊎ (end.0 ≡ ServeEnd.Memory)) }
    ensures shut { IfErr result (λ end. end.0 ≡ ServeEnd.Disk → IsErr end.1) }
    ensures disk { IfErr result (λ end. end.0 ≡ ServeEnd.Disk → Rose (A.faults host) (faults_of A.faults A.journal_faults end.1)) }
    ensures back_faults { IfErr result (λ end. A.faults host ≤ faults_of A.faults A.journal_faults end.1) }
    ensures back_tells { IfErr result (λ end. MatchResult end.1 (λ back. A.tells back ≡ A.tells host) (λ journal. A.journal_tells journal ≡ A.tells host)) }
    ensures told { C.told clock.new ≡ C.told clock.old }
    ensures line_later { L.line_faults link.old ≤ L.line_faults link.new }
    ensures tells { L.tells link.new ≡ L.tells link.old }
    ensures port { L.port_faults link.new ≡ L.port_faults link.old }
{
    let mut host = host;
    let mut tally = Tally {
        frames: 0,
        replies: 0,
    };
    let closing = serve_connection(alloc, &mut host, link, clock, &mut tally);
    link.close();
    match closing {
        Closing::Memory => Err((ServeEnd::Memory, Ok(host))),
        Closing::Disk => match open_again(host) {
            Ok(end) => Ok((end, Closing::Disk, tally.replies)),
            Err((why, journal)) => Err((why, Err(journal))),
        },
        _ => Ok((host, closing, tally.replies)),
    }
}

/// Serves the connections of a link one after the other, with lines numbered from `first`, and tells how many it opened. Each frame is answered by a frame,
/// and `Silent` by nothing. After a disk fault the end is opened again. The journal comes back exactly where that was refused.
pub fn serve_any<A: Answering, L: Link, C: Clock, K: Sink>(
    alloc: Global,
    host: A,
    link: &mut L,
    clock: &mut C,
    out: &mut K,
    connections: u64,
    first: u64,
) -> (ServeEnd, u64, Result<A, A::Journal>)
    requires works { A.has_failed host ≡ false }
    requires numbers { (connections ≡ 0) ⊎ (first + connections - 1 < 2 ^ 64) }
    // One run of the end: of its connections these lines were written, and what it stands at is what comes back, in every image that a crash may leave.
    ensures serves { (served : List Connection) × (stands : EndState A.Entry)
        × Serves (A.tells host) (A.is_readable host) A.adds A.replies (C.told clock.old) (L.tells link.old) result.0 first connections (A.entries host) served stands (L.lines link.old) (L.lines link.new) (K.contents out.old) (K.contents out.new) (L.line_faults link.old) (L.line_faults link.new) (A.faults host) (faults_of A.faults A.journal_faults result.2)
        × (length served ≡ result.1) × ComesBack A.entries A.has_failed stands result.2
        × (IsTrue (A.tells host) → Holds A.has (images_of A.may_leave A.journal_may_leave result.2) stands) }
    ensures port { result.0 ≡ ServeEnd.Port → Rose (L.port_faults link.old) (L.port_faults link.new) }
    ensures write { result.0 ≡ ServeEnd.Write → Rose (K.faults out.old) (K.faults out.new) }
    ensures disk { result.0 ≡ ServeEnd.Disk → Rose (A.faults host) (faults_of A.faults A.journal_faults result.2) }
    ensures back { IsErr result.2 → (result.0 ≡ ServeEnd.Disk) ⊎ (result.0 ≡ ServeEnd.Memory) }
    ensures shut { result.0 ≡ ServeEnd.Disk → IsErr result.2 }
    ensures link_tells { L.tells link.new ≡ L.tells link.old }
    ensures told { C.told clock.new ≡ C.told clock.old }
    ensures tells { MatchResult result.2 (λ end. A.tells end ≡ A.tells host) (λ journal. A.journal_tells journal ≡ A.tells host) }
    ensures disk_later { A.faults host ≤ faults_of A.faults A.journal_faults result.2 }
    ensures line_later { L.line_faults link.old ≤ L.line_faults link.new }
    ensures port_later { L.port_faults link.old ≤ L.port_faults link.new }
    ensures out_later { K.faults out.old ≤ K.faults out.new }
{
    let mut host = host;
    for i in 0..connections {
        match link.next() {
            Err(_) => return (ServeEnd::Port, i, Ok(host)),
            Ok(false) => return (ServeEnd::Done, i, Ok(host)),
            Ok(true) => {}
        }
        let (end, closing, replied) = match serve_one(alloc, host, link, clock) {
            Ok(one) => one,
            Err((why, back)) => return (why, i + 1, back),
        };
        host = end;
        match put_line(alloc, out, first + i, replied, closing) {
            Ok(()) => {}
            Err(PutError::Failed) => return (ServeEnd::Write, i + 1, Ok(host)),
            Err(PutError::Memory) => return (ServeEnd::Memory, i + 1, Ok(host)),
        }
    }
    (ServeEnd::Done, connections, Ok(host))
}
