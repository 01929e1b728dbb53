ghost use Rattle.std.specs.Prelude.{◌≡◌, ◌≤◌, OnOk, OnErr};
ghost use Rattle.cap_base.specs.Fits.{is_number};
ghost use Rattle.cap_entries.specs.LogSummary.{end_of, padded, set_end};

use crate::sale_end::SaleEnd;
use cap_base::{Item, Memory};
use std::alloc::Global;
use std::marker::Model;

/// Judges the items of a log one after the other. It keeps how each sale number stands, and how many periods are closed.
#[derive(Debug, Drop)]
pub(crate) struct LogJudge {
    ends: Vec<SaleEnd>,
    closes: u64,
}

impl Model for LogJudge {
    ghost use Rattle.cap_entries.specs.LogSummary.{LogSummary, IsLogSummary};

    ghost Value = { LogSummary };

    ghost view = { λ s. record { ends = s.ends.items; closes = s.closes } };

    ghost invariant = { λ s. IsLogSummary (record { ends = s.ends.items; closes = s.closes }) };
}

fn end(ends: &[SaleEnd], n: u64) -> SaleEnd
    ensures { result ≡ end_of ends.now n }
{
    match n.checked_sub(1) {
        Some(at) => ends.get(at as usize).copied().unwrap_or(SaleEnd::Free),
        None => SaleEnd::Free,
    }
}

// Makes the list at least so long.
fn pad(ends: &mut Vec<SaleEnd>, len: usize) -> Result<(), Memory>
    ensures ok { OnOk result (ends.new.items ≡ padded ends.old.items len) }
    ensures err { OnErr result (ends.new.items ≡ ends.old.items) }
{
    if ends.len() < len {
        ends.resize(len, SaleEnd::Free)?;
    }
    Ok(())
}

// Says how number n stands. The list grows as far as n.
fn put_end(ends: &mut Vec<SaleEnd>, n: u64, end: SaleEnd) -> Result<(), Memory>
    requires { 1 ≤ n }
    ensures ok { OnOk result (ends.new.items ≡ set_end ends.old.items n end) }
    ensures err { OnErr result (ends.new.items ≡ ends.old.items) }
{
    pad(ends, n as usize)?;
    ends[(n - 1) as usize] = end;
    Ok(())
}

fn is_number(n: u64) -> bool
    ensures { result ≡ is_number n }
{
    1 <= n && n <= 250_000
}

impl LogJudge {
    ghost use Rattle.std.specs.Prelude.{◌≡◌, true, OnOk, OnErr};
    ghost use Rattle.cap_entries.specs.LogSummary.{no_log, log_after, log_fits};

    pub(crate) fn new(alloc: Global) -> LogJudge
        ensures { result ≡ no_log }
    {
        LogJudge {
            ends: Vec::new(alloc),
            closes: 0,
        }
    }

    /// Whether the item fits those that were added.
    pub(crate) fn fits(&self, item: &Item) -> bool
        ensures { result ≡ log_fits self.now item.now }
    {
        match item {
            Item::Sale { n, .. } => is_number(*n) && end(&self.ends, *n) == SaleEnd::Free,
            Item::Void { n } => is_number(*n) && end(&self.ends, *n) == SaleEnd::Free,
            Item::Cancel { n, amount } => end(&self.ends, *n) == SaleEnd::Sold { amount: *amount },
            Item::Close { p, .. } => *p == self.closes + 1 && *p <= 250_000,
        }
    }

    /// Adds an item that fits. Want of memory changes nothing.
    pub(crate) fn add(&mut self, item: &Item) -> Result<(), Memory>
        requires { log_fits self.old item.now ≡ true }
        ensures ok { OnOk result (self.new ≡ log_after self.old item.now) }
        ensures err { OnErr result (self.new ≡ self.old) }
    {
        match item {
            Item::Sale { n, amount, .. } => {
                put_end(&mut self.ends, *n, SaleEnd::Sold { amount: *amount })
            }
            Item::Void { n } => put_end(&mut self.ends, *n, SaleEnd::Voided),
            Item::Cancel { n, amount } => {
                put_end(&mut self.ends, *n, SaleEnd::Cancelled { amount: *amount })
            }
            Item::Close { p, .. } => {
                self.closes = *p;
                Ok(())
            }
        }
    }
}
