ghost use Rattle.std.specs.Prelude.{◌≡◌, ◌∷◌, ◌++◌, [], ℕ, List, true, OnOk, OnErr, IsSome};
ghost use Rattle.cap_entries.specs.Entry.{is_setup};
ghost use Rattle.cap_entries.specs.Stage.{stage_of, set_stage, may_end, may_cancel};

use crate::stage::{Stage, Staged};
use crate::terminal::TermEntry;
use cap_base::{ConfigPart, Memory};
use std::alloc::Global;
use std::marker::Model;

/// Judges the entries of a terminal's journal one after the other, each in constant time. It keeps what is to be known of the entries so far.
#[derive(Debug, Drop)]
pub struct TermJudge {
    started: bool,
    max: u64,
    sales: Vec<Stage>,
    closes: u64,
    acked: u64,
    items: u64,
    in_force: u64,
    staged: Option<Staged>,
}

impl Model for TermJudge {
    ghost use Rattle.cap_entries.specs.Summary.{Summary, IsSummary};

    ghost Value = { Summary };

    ghost view = { λ s. record { started = s.started; max = s.max; sales = s.sales.items; closes = s.closes; acked = s.acked; items = s.items; in_force = s.in_force; staged = s.staged } };

    ghost invariant = { λ s. IsSummary (record { started = s.started; max = s.max; sales = s.sales.items; closes = s.closes; acked = s.acked; items = s.items; in_force = s.in_force; staged = s.staged }) };
}

// Whether an entry is a Setup; each set-up is in range.
fn sets_up(entry: &TermEntry) -> bool
    ensures { result ≡ is_setup entry.now }
{
    match entry {
        TermEntry::Setup(setup) => 1 <= setup.max(),
        _ => false,
    }
}

fn stage(sales: &[Stage], n: u64) -> Option<Stage>
    ensures { result ≡ stage_of sales.now n }
{
    let at = n.checked_sub(1)?;
    sales.get(at as usize).copied()
}

fn can_end(sales: &[Stage], n: u64) -> bool
    ensures { result ≡ may_end (stage_of sales.now n) }
{
    matches!(stage(sales, n), Some(Stage::Pending))
}

fn can_cancel(sales: &[Stage], n: u64) -> bool
    ensures { result ≡ may_cancel (stage_of sales.now n) }
{
    matches!(stage(sales, n), Some(Stage::Completed))
}

fn put_stage(sales: &mut Vec<Stage>, n: u64, stage: Stage)
    requires { IsSome (stage_of sales.old.items n) }
    ensures { sales.new.items ≡ set_stage sales.old.items n stage }
{
    sales[(n - 1) as usize] = stage;
}

impl TermJudge {
    ghost use Rattle.std.specs.Prelude.{◌≡◌, ◌∷◌, ◌++◌, [], ℕ, List, true, OnOk, OnErr};
    ghost use Rattle.cap_entries.specs.declared.terminal.TermEntry.{TermEntry};
    ghost use Rattle.cap_entries.specs.Allowed.{allowed, all_allowed};
    ghost use Rattle.cap_entries.specs.Summary.{no_summary, part_follows, follows, may_follow, summary_after, summary};

    /// A judge of no entries yet.
    pub fn new(alloc: Global) -> TermJudge
        ensures { result ≡ summary [] }
    {
        TermJudge {
            started: false,
            max: 0,
            sales: Vec::new(alloc),
            closes: 0,
            acked: 0,
            items: 0,
            in_force: 0,
            staged: None,
        }
    }

    fn part_may_follow(&self, part: &ConfigPart) -> bool
        ensures { result ≡ part_follows self.now.in_force self.now.staged part.now }
    {
        let (version, next) = match self.staged {
            Some(staged) => (
                staged.version,
                part.version == staged.version
                    && part.parts == staged.parts
                    && part.part.checked_sub(1) == Some(staged.part),
            ),
            None => (0, false),
        };
        (1 <= part.part && part.part <= part.parts && part.parts <= 16)
            && ((part.part == 1 && self.in_force < part.version && version < part.version) || next)
    }

    fn may_follow_setup(&self, entry: &TermEntry) -> bool
        ensures { result ≡ follows self.now entry.now }
    {
        match entry {
            TermEntry::Setup(_) => false,
            TermEntry::Begin { n, .. } => *n == self.sales.len() as u64 + 1 && *n <= self.max,
            TermEntry::Declined { n } => can_end(&self.sales, *n),
            TermEntry::Completed { n, .. } => can_end(&self.sales, *n),
            TermEntry::Voided { n } => can_end(&self.sales, *n),
            TermEntry::Cancelled { n } => can_cancel(&self.sales, *n),
            TermEntry::Closed { p } => *p == self.closes + 1 && *p <= 250_000,
            TermEntry::Acked { m } => self.acked < *m && *m <= self.items,
            TermEntry::Part(part) => self.part_may_follow(part),
        }
    }

    fn may_follow(&self, entry: &TermEntry) -> bool
        ensures { result ≡ may_follow self.now entry.now }
    {
        if self.started {
            self.may_follow_setup(entry)
        } else {
            sets_up(entry)
        }
    }

    /// Whether the entry is allowed after those that were added.
    pub fn allows(&self, entry: &TermEntry) -> bool
        ensures step { result ≡ may_follow self.now entry.now }
        ensures exact { (entries : List TermEntry) → self.now ≡ summary entries → all_allowed [] entries ≡ true → result ≡ allowed entries entry.now }
    {
        self.may_follow(entry)
    }

    /// Adds an entry that it allows. Want of memory changes nothing, and comes at a Begin alone.
    pub fn add(&mut self, entry: &TermEntry) -> Result<(), Memory>
        requires { may_follow self.old entry.now ≡ true }
        ensures step { OnOk result (self.new ≡ summary_after self.old entry.now) }
        ensures added { (entries : List TermEntry) → self.old ≡ summary entries → OnOk result (self.new ≡ summary (entries ++ entry.now ∷ [])) }
        ensures same { OnErr result (self.new ≡ self.old) }
    {
        match entry {
            TermEntry::Setup(setup) => {
                self.started = true;
                self.max = setup.max();
            }
            TermEntry::Begin { .. } => self.sales.push(Stage::Pending)?,
            TermEntry::Declined { n } => put_stage(&mut self.sales, *n, Stage::Declined),
            TermEntry::Completed { n, .. } => {
                put_stage(&mut self.sales, *n, Stage::Completed);
                self.items += 1;
            }
            TermEntry::Voided { n } => {
                put_stage(&mut self.sales, *n, Stage::Voided);
                self.items += 1;
            }
            TermEntry::Cancelled { n } => {
                put_stage(&mut self.sales, *n, Stage::Cancelled);
                self.items += 1;
            }
            TermEntry::Closed { p } => {
                self.closes = *p;
                self.items += 1;
            }
            TermEntry::Acked { m } => self.acked = *m,
            TermEntry::Part(part) => {
                if part.part == part.parts {
                    self.in_force = part.version;
                }
                self.staged = Some(Staged {
                    version: part.version,
                    part: part.part,
                    parts: part.parts,
                });
            }
        }
        Ok(())
    }
}
