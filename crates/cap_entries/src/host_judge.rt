ghost use Rattle.std.specs.Prelude.{◌≡◌, replicate, OnOk, IfOk};
ghost use Rattle.cap_entries.specs.HostAllowed.{is_host_setup};
ghost use Rattle.cap_entries.specs.LogSummary.{no_log};

use crate::host::HostEntry;
use crate::log_judge::LogJudge;
use cap_base::{Item, Memory};
use std::alloc::Global;
use std::marker::Model;

/// Judges the entries of a host's journal one after the other. It keeps what is to be known of the entries so far: of each terminal's log how each
/// sale number stands and how many periods are closed, and how many sets are published. An entry takes constant time, but for the room of a sale
/// number above all before it, of which there are at most 250,000 a terminal.
#[derive(Debug, Drop)]
pub struct HostJudge {
    started: bool,
    logs: Vec<LogJudge>,
    published: u64,
}

impl Model for HostJudge {
    ghost use Rattle.cap_entries.specs.HostSummary.{HostSummary, IsHostSummary};

    ghost Value = { HostSummary };

    ghost view = { λ s. record { started = s.started; logs = s.logs.items; published = s.published } };

    ghost invariant = { λ s. IsHostSummary (record { started = s.started; logs = s.logs.items; published = s.published }) };
}

// Whether an entry is a Setup; each set-up is in range.
fn sets_up(entry: &HostEntry) -> bool
    ensures { result ≡ is_host_setup entry.now }
{
    match entry {
        HostEntry::Setup(setup) => setup.poll() <= 525_600,
        _ => false,
    }
}

fn empty_logs(alloc: Global, count: usize) -> Result<Vec<LogJudge>, Memory>
    ensures { IfOk result (λ v. v.items ≡ replicate count no_log) }
{
    let mut logs = Vec::new(alloc);
    for _ in 0..count {
        logs.push(LogJudge::new(alloc))?;
    }
    Ok(logs)
}

impl HostJudge {
    ghost use Rattle.std.specs.Prelude.{◌≡◌, ◌∷◌, ◌++◌, [], List, true, OnOk, OnErr};
    ghost use Rattle.cap_entries.specs.declared.host.HostEntry.{HostEntry};
    ghost use Rattle.cap_entries.specs.HostAllowed.{host_allowed, all_host_allowed};
    ghost use Rattle.cap_entries.specs.HostSummary.{host_follows, host_may_follow, host_summary_after, host_summary};

    /// A judge of no entries yet.
    pub fn new(alloc: Global) -> HostJudge
        ensures { result ≡ host_summary [] }
    {
        HostJudge {
            started: false,
            logs: Vec::new(alloc),
            published: 0,
        }
    }

    fn may_follow_setup(&self, entry: &HostEntry) -> bool
        ensures { result ≡ host_follows self.now entry.now }
    {
        match entry {
            HostEntry::Setup(_) => false,
            HostEntry::Took { terminal, item } => match self.logs.get(*terminal as usize) {
                Some(log) => log.fits(item),
                None => false,
            },
            HostEntry::Published { version, .. } => {
                *version == self.published + 1 && *version <= 10_000
            }
        }
    }

    fn may_follow(&self, entry: &HostEntry) -> bool
        ensures { result ≡ host_may_follow self.now entry.now }
    {
        if self.started {
            self.may_follow_setup(entry)
        } else {
            sets_up(entry)
        }
    }

    /// Whether the entry is allowed after those that were added.
    pub fn allows(&self, entry: &HostEntry) -> bool
        ensures step { result ≡ host_may_follow self.now entry.now }
        ensures exact { (entries : List HostEntry) → self.now ≡ host_summary entries → all_host_allowed [] entries ≡ true → result ≡ host_allowed entries entry.now }
    {
        self.may_follow(entry)
    }

    /// Adds an entry that it allows. Want of memory changes nothing.
    pub fn add(&mut self, entry: &HostEntry) -> Result<(), Memory>
        requires { host_may_follow self.old entry.now ≡ true }
        ensures step { OnOk result (self.new ≡ host_summary_after self.old entry.now) }
        ensures added { (entries : List HostEntry) → self.old ≡ host_summary entries → OnOk result (self.new ≡ host_summary (entries ++ entry.now ∷ [])) }
        ensures same { OnErr result (self.new ≡ self.old) }
    {
        match entry {
            HostEntry::Setup(setup) => {
                let count = setup.terminals().as_slice().len();
                self.logs = empty_logs(*self.logs.allocator(), count)?;
                self.started = true;
            }
            HostEntry::Took { terminal, item } => {
                let log = &mut self.logs[*terminal as usize];
                log.add(item)?;
            }
            HostEntry::Published { version, .. } => self.published = *version,
        }
        Ok(())
    }
}
