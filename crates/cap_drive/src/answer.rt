// One frame: its answer, and the frame of the reply.
ghost use Rattle.std.specs.Prelude.{◌≡◌, ◌≤◌, ◌<◌, [], ◌∷◌, true, false, IsTrue, IfOk, IfErr, MatchResult};
ghost use Rattle.cap_base.specs.Causes.{HasPutCause};
ghost use Rattle.cap_frame.specs.Frame.{IsBody, frames_of};
ghost use Rattle.cap_link.specs.Lines.{Puts};
ghost use Rattle.cap_drive.specs.Going.{ServesFrame, FrameBreaks, HasRisen, StillWorks};

use crate::closing::Closing;
use cap_answering::{Answering, HostFault, Reply};
use cap_base::{Clock, PutError};
use cap_frame::frame;
use cap_link::Link;
use std::alloc::Global;

// Puts the frame of a reply.
fn put_reply<L: Link>(alloc: Global, link: &mut L, reply: &[u8]) -> Result<(), PutError>
    requires body { IsBody reply.now }
    requires open { L.is_open link.old ≡ true }
    ensures bytes { IsTrue (L.tells link.old) → Puts (frames_of (reply.now ∷ [])) (L.lines link.old) (L.lines link.new) result }
    ensures cause { HasPutCause (L.line_faults link.old) (L.line_faults link.new) result }
    ensures open { L.is_open link.new ≡ true }
    ensures tells { L.tells link.new ≡ L.tells link.old }
    ensures port { L.port_faults link.new ≡ L.port_faults link.old }
{
    let Ok(framed) = frame(alloc, reply) else {
        return Err(PutError::Memory);
    };
    link.put(framed.as_slice())
}

/// Answers a frame at one moment of the clock, and puts the frame of the reply. It tells how many replies were put.
pub(crate) fn serve_frame<A: Answering, L: Link, C: Clock>(
    alloc: Global,
    host: &mut A,
    link: &mut L,
    clock: &mut C,
    body: &[u8],
) -> Result<u64, Closing>
    requires body { IsBody body.now }
    requires open { L.is_open link.old ≡ true }
    requires works { A.has_failed host.old ≡ false }
    ensures ok { IfOk result (λ count. ServesFrame (A.tells host.old) (A.is_readable host.old) A.adds A.replies (C.told clock.old) (L.tells link.old) body.now (A.entries host.old) (A.entries host.new) (L.lines link.old) (L.lines link.new) count) }
    ensures most { IfOk result (λ count. count ≤ 1) }
    ensures err { IfErr result (λ closing. FrameBreaks (A.tells host.old) (A.is_readable host.old) A.adds A.replies (C.told clock.old) (L.tells link.old) A.has A.is_allowed closing (A.may_leave host.new) body.now (A.entries host.old) (A.entries host.new) (L.lines link.old) (L.lines link.new)) }
    ensures risen { IfErr result (λ closing. HasRisen closing (L.line_faults link.old) (L.line_faults link.new) (A.faults host.old) (A.faults host.new)) }
    ensures works { MatchResult result (λ _. A.has_failed host.new ≡ false) (λ closing. StillWorks closing (A.has_failed host.new)) }
    ensures faults { A.faults host.old ≤ A.faults host.new }
    ensures is_readable { A.is_readable host.new ≡ A.is_readable host.old }
    ensures host_tells { A.tells host.new ≡ A.tells host.old }
    ensures told { C.told clock.new ≡ C.told clock.old }
    ensures line_later { L.line_faults link.old ≤ L.line_faults link.new }
    ensures open { L.is_open link.new ≡ true }
    ensures tells { L.tells link.new ≡ L.tells link.old }
    ensures port { L.port_faults link.new ≡ L.port_faults link.old }
{
    let moment = clock.moment();
    match host.answer(body, moment) {
        Ok(Reply::Silent) => Ok(0),
        Ok(Reply::Bytes(text)) => match put_reply(alloc, link, text.as_slice()) {
            Ok(()) => Ok(1),
            Err(PutError::Failed) => Err(Closing::Fault),
            Err(PutError::Memory) => Err(Closing::Memory),
        },
        Err(HostFault::Memory) => Err(Closing::Memory),
        Err(HostFault::Disk) => Err(Closing::Disk),
        Err(HostFault::Failed) => Err(Closing::Disk),
    }
}
