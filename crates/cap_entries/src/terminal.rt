ghost use Rattle.std.specs.Prelude.{◌≡◌, true};
ghost use Rattle.cap_entries.specs.Settings.{TerminalSettings, is_terminal_settings, terminal_settings_of};

use cap_base::{Account, Amount, Code6, ConfigPart, Ident};
use std::alloc::AllocError;
use std::marker::Model;

/// How a terminal was set up: its name, its host's name, how many sales it may begin (1 to 250,000), and up to which sum in hundredths (at most
/// 999,999,999,999) it may complete a sale by itself. The two names differ.
#[derive(Clone, Copy, Debug, PartialEq, Eq)]
pub struct TermSetup {
    terminal: Ident,
    host: Ident,
    max: u64,
    floor: u64,
}

impl Model for TermSetup {
    ghost use Rattle.std.specs.Prelude.{◌≡◌, true};
    ghost use Rattle.cap_entries.specs.Settings.{TerminalSettings, is_terminal_settings};

    ghost Value = { TerminalSettings };

    ghost view = { λ s. record { terminal = s.terminal; host = s.host; max = s.max; floor = s.floor } };

    ghost invariant = { λ s. is_terminal_settings (record { terminal = s.terminal; host = s.host; max = s.max; floor = s.floor }) ≡ true };

    ghost inverse = { λ d. record { terminal = d.terminal; host = d.host; max = d.max; floor = d.floor } };
}

impl TermSetup {
    /// A set-up. None exactly where a number is out of range or the two names are equal.
    pub fn new(terminal: Ident, host: Ident, max: u64, floor: u64) -> Option<TermSetup>
        ensures { result ≡ terminal_settings_of terminal host max floor }
    {
        if (1 <= max && max <= 250_000) && (floor <= 999_999_999_999 && terminal != host) {
            Some(TermSetup {
                terminal,
                host,
                max,
                floor,
            })
        } else {
            None
        }
    }

    /// The terminal's name.
    pub fn terminal(&self) -> Ident
        ensures value { result ≡ self.now.terminal }
        ensures rule { is_terminal_settings self.now ≡ true }
    {
        self.terminal
    }

    /// Its host's name.
    pub fn host(&self) -> Ident
        ensures value { result ≡ self.now.host }
        ensures rule { is_terminal_settings self.now ≡ true }
    {
        self.host
    }

    /// How many sales it may begin.
    pub fn max(&self) -> u64
        ensures value { result ≡ self.now.max }
        ensures rule { is_terminal_settings self.now ≡ true }
    {
        self.max
    }

    /// Up to which sum it may complete a sale by itself, in hundredths.
    pub fn floor(&self) -> u64
        ensures value { result ≡ self.now.floor }
        ensures rule { is_terminal_settings self.now ≡ true }
    {
        self.floor
    }
}

/// An entry of a terminal's journal. Sales count from 1, and so do periods and items.
#[derive(Debug, Drop)]
pub enum TermEntry {
    /// The terminal was set up.
    Setup(TermSetup),
    /// Sale n was begun.
    Begin {
        n: u64,
        amount: Amount,
        account: Account,
    },
    /// Sale n was declined.
    Declined {
        n: u64,
    },
    /// Sale n was completed, with its approval code.
    Completed {
        n: u64,
        code: Code6,
    },
    /// Sale n was given up.
    Voided {
        n: u64,
    },
    /// The completed sale n was cancelled.
    Cancelled {
        n: u64,
    },
    /// Period p was closed.
    Closed {
        p: u64,
    },
    /// The host has the items up to m.
    Acked {
        m: u64,
    },
    /// A part of a parameter set came.
    Part(ConfigPart),
}

impl Clone for TermEntry {
    ghost is_clone = { λ a b. b ≡ a };

    fn clone(&self) -> Result<TermEntry, AllocError> {
        Ok(match self {
            TermEntry::Setup(settings) => TermEntry::Setup(*settings),
            TermEntry::Begin { n, amount, account } => TermEntry::Begin {
                n: *n,
                amount: *amount,
                account: *account,
            },
            TermEntry::Declined { n } => TermEntry::Declined { n: *n },
            TermEntry::Completed { n, code } => TermEntry::Completed { n: *n, code: *code },
            TermEntry::Voided { n } => TermEntry::Voided { n: *n },
            TermEntry::Cancelled { n } => TermEntry::Cancelled { n: *n },
            TermEntry::Closed { p } => TermEntry::Closed { p: *p },
            TermEntry::Acked { m } => TermEntry::Acked { m: *m },
            TermEntry::Part(part) => TermEntry::Part(ConfigPart {
                version: part.version,
                part: part.part,
                parts: part.parts,
                rows: part.rows.clone()?,
            }),
        })
    }
}
