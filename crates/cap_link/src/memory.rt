// Connections in memory.
use crate::lines::MemLines;
use crate::link::Link;
use crate::naming::Naming;
use cap_base::{Failed, Memory, PutError};
use std::alloc::Global;

/// Connections in memory, one after the other. It answers `Failed` at exactly the calls that are named to it.
#[derive(Drop)]
pub struct MemLink {
    lines: MemLines,
    naming: Naming,
    port_faults: u64,
    line_faults: u64,
}

impl MemLink {
    ghost use Rattle.std.specs.Prelude.{◌≡◌, ◌≤◌, [], length, OnOk, OnErr, MatchOption, slice_get, Some, None};
    ghost use Rattle.cap_link.specs.Lines.{puts_of};
    ghost use Rattle.cap_link.specs.Pieces.{lists_of};
    ghost use Rattle.cap_link.specs.MemLink.{lines_of, named_of, call_of, port_faults_of, line_faults_of};

    /// A link with these connections, of which none is open yet.
    pub fn new(alloc: Global, connections: Vec<Vec<u8>>) -> MemLink
        ensures lines { lines_of result ≡ record { waiting = lists_of connections.items; ended = []; current = None } }
        ensures named { named_of result ≡ [] }
        ensures port { port_faults_of result ≡ 0 }
        ensures line { line_faults_of result ≡ 0 }
    {
        MemLink {
            lines: MemLines::new(alloc, connections),
            naming: Naming::new(alloc),
            port_faults: 0,
            line_faults: 0,
        }
    }

    /// What was put on a connection, from 0. None where at most so many were opened.
    pub fn bytes(&self, i: usize) -> Option<&[u8]>
        ensures { MatchOption result (length (puts_of (lines_of self.now)) ≤ i) (λ bytes. slice_get (puts_of (lines_of self.now)) i ≡ Some bytes.now) }
    {
        self.lines.put_on(i)
    }

    /// Lets these calls fail, counted from 1 since this call over `next`, `take` and `put`, in place of those that were named before. Without
    /// memory nothing changes.
    pub fn fail_at(&mut self, calls: &[u64]) -> Result<(), Memory>
        ensures named { OnOk result (named_of self.new ≡ calls.now) }
        ensures counted { OnOk result (call_of self.new ≡ 1) }
        ensures lines { lines_of self.new ≡ lines_of self.old }
        ensures port { port_faults_of self.new ≡ port_faults_of self.old }
        ensures line { line_faults_of self.new ≡ line_faults_of self.old }
        ensures refused { OnErr result (self.new ≡ self.old) }
    {
        self.naming.name(calls)
    }
}

impl Link for MemLink {
    ghost use Rattle.std.specs.Prelude.{◌≡◌, ◌<◌, ◌+◌, ◌-◌, ◌^◌, ◌↔◌, min, [], length, take, true, false, is_some, Some, IsTrue, IsErr, IfOk, OnErr, IsErrOf, Contains};
    ghost use Rattle.std.specs.Io.{ReadsAtMost};
    ghost use Rattle.cap_base.specs.declared.sink.PutError.TheVariants.{Failed as Failed_to_put};
    ghost use Rattle.cap_base.specs.Causes.{HasCause, HasPutCause};
    ghost use Rattle.cap_link.specs.Lines.{Opens, Exchanges, Puts, HasNoneLeft, open_one};
    ghost use Rattle.cap_link.specs.MemLink.{lines_of, named_of, call_of, port_faults_of, line_faults_of};

    ghost tells = { λ _. true };

    ghost lines = { lines_of };

    ghost is_open = { λ link. is_some link.lines.current };

    ghost port_faults = { port_faults_of };

    ghost line_faults = { line_faults_of };

    ghost shows_open = { λ link told opened. open_one link.lines.current opened };

    fn next(&mut self) -> Result<bool, Failed>
        ensures opens { IsTrue true → result ≡ Ok true → Opens (lines_of self.old) (lines_of self.new) }
        ensures none { IsTrue true → result ≡ Ok false → (lines_of self.old).waiting ≡ [] }
        ensures stays { IsTrue true → (result ≡ Ok true → ⊥) → lines_of self.new ≡ lines_of self.old }
        ensures open { result ≡ Ok true → is_some self.new.lines.current ≡ true }
        ensures still_open { is_some self.old.lines.current ≡ true → is_some self.new.lines.current ≡ true }
        ensures cause { HasCause (port_faults_of self.old) (port_faults_of self.new) result }
        ensures line { line_faults_of self.new ≡ line_faults_of self.old }
        ensures fails { IsErr result ↔ Contains (named_of self.old) (call_of self.old) }
        ensures named { named_of self.new ≡ named_of self.old }
        ensures counted { call_of self.new ≡ min (call_of self.old + 1) (2 ^ 64 - 1) }
        ensures quiet { (named_of self.old ≡ []) → port_faults_of self.new ≡ port_faults_of self.old }
    {
        if self.naming.fails() {
            self.port_faults = self.port_faults.saturating_add(1);
            return Err(Failed);
        }
        Ok(self.lines.open())
    }

    fn take(&mut self, buf: &mut [u8]) -> Result<usize, Failed>
        requires open { is_some self.old.lines.current ≡ true }
        requires buf { 0 < length buf.old }
        ensures bound { ReadsAtMost result buf.new }
        ensures bytes { IsTrue true → IfOk result (λ n. Exchanges (take n buf.new) [] (lines_of self.old) (lines_of self.new)) }
        ensures end { IsTrue true → IfOk result (λ n. n ≡ 0 ↔ HasNoneLeft (lines_of self.old)) }
        ensures stays { IsTrue true → OnErr result (lines_of self.new ≡ lines_of self.old) }
        ensures open { is_some self.new.lines.current ≡ true }
        ensures cause { HasCause (line_faults_of self.old) (line_faults_of self.new) result }
        ensures port { port_faults_of self.new ≡ port_faults_of self.old }
        ensures fails { IsErr result ↔ Contains (named_of self.old) (call_of self.old) }
        ensures named { named_of self.new ≡ named_of self.old }
        ensures counted { call_of self.new ≡ min (call_of self.old + 1) (2 ^ 64 - 1) }
        ensures quiet { (named_of self.old ≡ []) → line_faults_of self.new ≡ line_faults_of self.old }
    {
        if self.naming.fails() {
            self.line_faults = self.line_faults.saturating_add(1);
            return Err(Failed);
        }
        Ok(self.lines.take(buf))
    }

    fn put(&mut self, bytes: &[u8]) -> Result<(), PutError>
        requires open { is_some self.old.lines.current ≡ true }
        ensures bytes { IsTrue true → Puts bytes.now (lines_of self.old) (lines_of self.new) result }
        ensures open { is_some self.new.lines.current ≡ true }
        ensures cause { HasPutCause (line_faults_of self.old) (line_faults_of self.new) result }
        ensures port { port_faults_of self.new ≡ port_faults_of self.old }
        ensures fails { IsErrOf result Failed_to_put ↔ Contains (named_of self.old) (call_of self.old) }
        // A call that fails appends nothing, and neither does one without memory.
        ensures nothing { OnErr result (lines_of self.new ≡ lines_of self.old) }
        ensures named { named_of self.new ≡ named_of self.old }
        ensures counted { call_of self.new ≡ min (call_of self.old + 1) (2 ^ 64 - 1) }
        ensures quiet { (named_of self.old ≡ []) → line_faults_of self.new ≡ line_faults_of self.old }
    {
        if self.naming.fails() {
            self.line_faults = self.line_faults.saturating_add(1);
            return Err(PutError::Failed);
        }
        if self.lines.put(bytes).is_err() {
            return Err(PutError::Memory);
        }
        Ok(())
    }
}
