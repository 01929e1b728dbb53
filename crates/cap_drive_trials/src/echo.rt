// An end that says back what it hears, and keeps nothing.
ghost use Rattle.std.specs.Prelude.{◌≡◌, ◌≤◌, ◌<◌, ◌+◌, ℕ, List, [], false, true};
ghost use Rattle.std.proofs.lemmas.Bool.{false≢true};

use cap_answering::{Answering, ByteText, HostFault, ReopenFault, Reply};
use std::alloc::Global;

/// What is left of an end that was not opened again.
#[derive(Drop)]
pub struct Rest {
    pub faults: u64,
}

/// An end that says back what it hears. It is silent at what begins with `q`, lacks memory at what begins with `m`, and at what begins with `d` its disk
/// fails; it can be opened again so many times.
#[derive(Drop)]
pub struct Echo {
    alloc: Global,
    failed: bool,
    faults: u64,
    openings: u64,
}

impl Echo {
    /// An end that can be opened again so many times.
    pub fn new(alloc: Global, openings: u64) -> Echo
        ensures { result.failed ≡ false }
    {
        Echo {
            alloc,
            failed: false,
            faults: 0,
            openings,
        }
    }
}

impl Answering for Echo {
    type Journal = Rest;

    ghost Entry = { Unit {0} };

    ghost entries = { λ _. [] };

    ghost is_allowed = { λ _. Unit {0} };

    ghost adds = { λ _ _ _ added. added ≡ [] };

    ghost replies = { λ _ _ _ _. Unit {0} };

    ghost tells = { λ _. false };

    ghost is_readable = { λ _. true };

    ghost faults = { λ echo. echo.faults };

    ghost has_failed = { λ echo. echo.failed };

    ghost may_leave = { λ _ _. Unit {0} };

    ghost tick = { λ _. 0 };

    ghost left_since = { λ _ _ _. Unit {0} };

    ghost has = { λ _ list. list ≡ [] };

    ghost journal_may_leave = { λ _ _. Unit {0} };

    ghost journal_faults = { λ rest. rest.faults };

    ghost journal_tells = { λ _. false };

    ghost allowed = { λ _. tt };

    ghost stays_allowed = { λ _ _ _ _ _ _ _. tt };

    ghost kept = { λ _ _ told. absurd (false≢true told) };

    ghost stands = { λ _ _ told. absurd (false≢true told) };

    ghost has_one = { λ _ list other is also. cc (is, also) };

    ghost counts_now = { λ _ _ _ told. absurd (false≢true told) };

    fn answer(&mut self, bytes: &[u8], _moment: u64) -> Result<Reply, HostFault> {
        match bytes.first() {
            None => Ok(Reply::Silent),
            Some(b'q') => Ok(Reply::Silent),
            Some(b'm') => Err(HostFault::Memory),
            Some(b'd') => {
                self.failed = true;
                self.faults = self.faults.saturating_add(1);
                Err(HostFault::Disk)
            }
            Some(_) => match Vec::from_slice(self.alloc, bytes) {
                Ok(text) => Ok(Reply::Bytes(ByteText::new(text))),
                Err(_) => Err(HostFault::Memory),
            },
        }
    }

    fn reopen(self) -> Result<Self, (ReopenFault, Rest)> {
        let Echo {
            alloc,
            failed: _,
            faults,
            openings,
        } = self;
        if openings == 0 {
            let rest = Rest {
                faults: faults.saturating_add(1),
            };
            return Err((ReopenFault::Disk, rest));
        }
        Ok(Echo {
            alloc,
            failed: false,
            faults,
            openings: openings - 1,
        })
    }
}
