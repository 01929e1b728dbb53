// Calls that are named to fail.
ghost use Rattle.std.specs.Prelude.{◌≡◌, ◌↔◌, ◌+◌, ◌-◌, ◌^◌, min, [], IsTrue, OnOk, OnErr, Contains};

use cap_base::Memory;
use std::alloc::Global;

/// The calls that were answered, and the numbers of those that fail.
#[derive(Drop)]
pub(crate) struct Naming {
    calls: u64,
    named: Vec<u64>,
}

impl Naming {
    ghost use Rattle.cap_link.specs.Naming.{named_in, call_in};

    /// No call fails.
    pub(crate) fn new(alloc: Global) -> Naming
        ensures named { named_in result ≡ [] }
        ensures next { call_in result ≡ 1 }
    {
        Naming {
            calls: 0,
            named: Vec::new(alloc),
        }
    }

    /// Names other calls, counted from 1 since now. Without memory nothing changes.
    pub(crate) fn name(&mut self, calls: &[u64]) -> Result<(), Memory>
        ensures named { OnOk result (named_in self.new ≡ calls.now) }
        ensures next { OnOk result (call_in self.new ≡ 1) }
        ensures refused { OnErr result (self.new ≡ self.old) }
    {
        let Ok(named) = Vec::from_slice(*self.named.allocator(), calls) else {
            return Err(Memory);
        };
        self.named = named;
        self.calls = 0;
        Ok(())
    }

    /// Counts a call, and says whether it fails.
    pub(crate) fn fails(&mut self) -> bool
        ensures fails { IsTrue result ↔ Contains (named_in self.old) (call_in self.old) }
        ensures named { named_in self.new ≡ named_in self.old }
        ensures next { call_in self.new ≡ min (call_in self.old + 1) (2 ^ 64 - 1) }
    {
        self.calls = self.calls.saturating_add(1);
        self.named.contains(&self.calls)
    }
}
