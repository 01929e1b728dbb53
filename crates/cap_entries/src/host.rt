ghost use Rattle.std.specs.Prelude.{◌≡◌, true};
ghost use Rattle.cap_base.specs.Amount.{IsAmount};
ghost use Rattle.cap_entries.specs.Settings.{HostSettings, is_host_settings, host_settings_if};

use crate::lists::{Blocks, Idents, stands_in};
use crate::rows::RowSet;
use cap_base::{Amount, Ident, Item};
use cap_leaf::DateTime;
use std::alloc::AllocError;
use std::marker::Model;

/// How a host was set up: its name, up to which amount it approves a request, which accounts it blocks, the minutes between two polls (at most
/// 525,600), the start of its plan, and the names of its terminals, of which none is its own.
#[derive(Debug, Drop)]
pub struct HostSetup {
    host: Ident,
    limit: Amount,
    blocked: Blocks,
    poll: u64,
    start: DateTime,
    terminals: Idents,
}

impl Model for HostSetup {
    ghost use Rattle.std.specs.Prelude.{◌≡◌, true};
    ghost use Rattle.cap_entries.specs.Settings.{HostSettings, is_host_settings};

    ghost Value = { HostSettings };

    ghost view = { λ s. record { host = s.host; limit = s.limit; blocked = s.blocked; poll = s.poll; start = s.start; terminals = s.terminals } };

    ghost invariant = { λ s. is_host_settings (record { host = s.host; limit = s.limit; blocked = s.blocked; poll = s.poll; start = s.start; terminals = s.terminals }) ≡ true };
}

impl HostSetup {
    /// A set-up. None exactly where the minutes are out of range or the host's name is one of its terminals'.
    pub fn new(
        host: Ident,
        limit: Amount,
        blocked: Blocks,
        poll: u64,
        start: DateTime,
        terminals: Idents,
    ) -> Option<HostSetup>
        ensures { result ≡ host_settings_if (record { host = host; limit = limit; blocked = blocked; poll = poll; start = start; terminals = terminals }) }
    {
        let _ = blocked.as_slice();
        if poll <= 525_600 && !stands_in(terminals.as_slice(), &host) {
            Some(HostSetup {
                host,
                limit,
                blocked,
                poll,
                start,
                terminals,
            })
        } else {
            None
        }
    }

    /// The host's name.
    pub fn host(&self) -> Ident
        ensures value { result ≡ self.now.host }
        ensures rule { is_host_settings self.now ≡ true }
    {
        self.host
    }

    /// Up to which amount it approves a request.
    pub fn limit(&self) -> Amount
        ensures value { result ≡ self.now.limit }
        ensures rule { is_host_settings self.now ≡ true }
    {
        self.limit
    }

    /// The beginnings of the accounts that it blocks.
    pub fn blocked(&self) -> &Blocks
        ensures value { result.now ≡ self.now.blocked }
        ensures rule { is_host_settings self.now ≡ true }
    {
        &self.blocked
    }

    /// The minutes between two polls.
    pub fn poll(&self) -> u64
        ensures value { result ≡ self.now.poll }
        ensures rule { is_host_settings self.now ≡ true }
    {
        self.poll
    }

    /// The start of its plan.
    pub fn start(&self) -> DateTime
        ensures value { result ≡ self.now.start }
        ensures rule { is_host_settings self.now ≡ true }
    {
        self.start
    }

    /// The names of its terminals.
    pub fn terminals(&self) -> &Idents
        ensures value { result.now ≡ self.now.terminals }
        ensures rule { is_host_settings self.now ≡ true }
    {
        &self.terminals
    }
}

impl Clone for HostSetup {
    ghost is_clone = { λ a b. b ≡ a };

    fn clone(&self) -> Result<HostSetup, AllocError> {
        let blocked = self.blocked.clone()?;
        let terminals = self.terminals.clone()?;
        Ok(HostSetup {
            host: self.host,
            limit: self.limit,
            blocked,
            poll: self.poll,
            start: self.start,
            terminals,
        })
    }
}

/// An entry of a host's journal.
#[derive(Debug, Drop)]
pub enum HostEntry {
    /// The host was set up.
    Setup(HostSetup),
    /// An item of the terminal at this place of the set-up, counted from 0, was taken into its log.
    Took { terminal: u8, item: Item },
    /// A parameter set was published.
    Published { version: u64, rows: RowSet },
}

impl Clone for HostEntry {
    ghost is_clone = { λ a b. b ≡ a };

    fn clone(&self) -> Result<HostEntry, AllocError> {
        Ok(match self {
            HostEntry::Setup(settings) => HostEntry::Setup(settings.clone()?),
            HostEntry::Took { terminal, item } => HostEntry::Took {
                terminal: *terminal,
                item: *item,
            },
            HostEntry::Published { version, rows } => HostEntry::Published {
                version: *version,
                rows: rows.clone()?,
            },
        })
    }
}
