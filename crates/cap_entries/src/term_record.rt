// The record of each entry of a terminal's journal.
ghost use Rattle.std.specs.Prelude.{◌≡◌, ◌≤◌, ◌+◌, ◌++◌, true, ◌∷◌, length, IfOk, IfSome, vec_len, vec_capacity};
ghost use Rattle.cap_entries.specs.RecordParts.{number_bytes};
ghost use Rattle.cap_entries.specs.TermRecord.{setup_at, begin_at, completed_at, part_at, term_behind, term_fits, term_record, is_part, is_settings_field};
ghost use Rattle.cap_entries.specs.declared.terminal.TermEntry.TheVariants.{Setup, Begin, Completed, Part};

use crate::fields::{
    account, amount, code, count, ident, list, list_size, number, put, put_list, put_number,
    put_small, put_text, share, small,
};
use crate::terminal::{TermEntry, TermSetup};
use cap_base::{Account, Amount, Code6, ConfigPart, Memory, Row, Rows};
use cap_journal::Record;
use std::alloc::Global;

fn setup(bytes: &[u8], at: usize) -> Option<(TermEntry, usize)>
    requires at { at ≤ length bytes.now }
    ensures { result ≡ setup_at bytes.now at }
{
    let (terminal, at) = ident(bytes, at)?;
    let (host, at) = ident(bytes, at)?;
    let (max, at) = number(bytes, at)?;
    let (floor, at) = number(bytes, at)?;
    match TermSetup::new(terminal, host, max, floor) {
        Some(settings) => Some((TermEntry::Setup(settings), at)),
        None => None,
    }
}

fn begin(bytes: &[u8], at: usize) -> Option<(TermEntry, usize)>
    requires at { at ≤ length bytes.now }
    ensures { result ≡ begin_at bytes.now at }
{
    let (n, at) = count(bytes, at)?;
    let (amount, at) = amount(bytes, at)?;
    let (account, at) = account(bytes, at)?;
    Some((TermEntry::Begin { n, amount, account }, at))
}

fn completed(bytes: &[u8], at: usize) -> Option<(TermEntry, usize)>
    requires at { at ≤ length bytes.now }
    ensures { result ≡ completed_at bytes.now at }
{
    let (n, at) = count(bytes, at)?;
    let (code, at) = code(bytes, at)?;
    Some((TermEntry::Completed { n, code }, at))
}

fn part(alloc: Global, bytes: &[u8], at: usize) -> Result<Option<(TermEntry, usize)>, Memory>
    requires at { at ≤ length bytes.now }
    ensures { IfOk result (λ found. found ≡ part_at bytes.now at) }
{
    let Some((version, at)) = count(bytes, at) else {
        return Ok(None);
    };
    let Some((part, at)) = share(bytes, at) else {
        return Ok(None);
    };
    let Some((parts, at)) = share(bytes, at) else {
        return Ok(None);
    };
    let Some((rows, at)) = list::<Row>(alloc, bytes, at, 0)? else {
        return Ok(None);
    };
    match Rows::new(rows) {
        Some(rows) => {
            let part = ConfigPart {
                version,
                part,
                parts,
                rows,
            };
            Ok(Some((TermEntry::Part(part), at)))
        }
        None => Ok(None),
    }
}

// What stands behind a first byte.
fn behind(
    alloc: Global,
    first: u8,
    bytes: &[u8],
    at: usize,
) -> Result<Option<(TermEntry, usize)>, Memory>
    requires at { at ≤ length bytes.now }
    ensures { IfOk result (λ found. found ≡ term_behind first bytes.now at) }
{
    match first {
        1 => Ok(setup(bytes, at)),
        2 => Ok(begin(bytes, at)),
        3 => Ok(count(bytes, at).map(|(n, at)| (TermEntry::Declined { n }, at))),
        4 => Ok(completed(bytes, at)),
        5 => Ok(count(bytes, at).map(|(n, at)| (TermEntry::Voided { n }, at))),
        6 => Ok(count(bytes, at).map(|(n, at)| (TermEntry::Cancelled { n }, at))),
        7 => Ok(count(bytes, at).map(|(p, at)| (TermEntry::Closed { p }, at))),
        8 => Ok(count(bytes, at).map(|(m, at)| (TermEntry::Acked { m }, at))),
        9 => part(alloc, bytes, at),
        _ => Ok(None),
    }
}

fn put_setup(out: &mut Vec<u8>, settings: &TermSetup)
    requires fits { term_fits (Setup settings.now) ≡ true }
    requires room { vec_len out.old + length (term_record (Setup settings.now)) ≤ vec_capacity out.old }
    ensures items { out.new.items ≡ out.old.items ++ term_record (Setup settings.now) }
    ensures capacity { vec_capacity out.new ≡ vec_capacity out.old }
{
    let terminal = settings.terminal();
    let host = settings.host();
    put_small(out, 1);
    put_text(out, terminal.as_bytes());
    put_text(out, host.as_bytes());
    put_number(out, settings.max());
    put_number(out, settings.floor());
}

fn put_begin(out: &mut Vec<u8>, n: u64, amount: Amount, account: &Account)
    requires room { vec_len out.old + length (term_record (Begin n amount account.now)) ≤ vec_capacity out.old }
    ensures items { out.new.items ≡ out.old.items ++ term_record (Begin n amount account.now) }
    ensures capacity { vec_capacity out.new ≡ vec_capacity out.old }
{
    put_small(out, 2);
    put_number(out, n);
    put_number(out, amount.hundredths());
    put_text(out, account.as_bytes());
}

// A first byte and a number.
fn put_numbered(out: &mut Vec<u8>, first: u8, n: u64)
    requires room { vec_len out.old + 1 + length (number_bytes n) ≤ vec_capacity out.old }
    ensures items { out.new.items ≡ out.old.items ++ first ∷ number_bytes n }
    ensures len { vec_len out.new ≡ vec_len out.old + 1 + length (number_bytes n) }
    ensures capacity { vec_capacity out.new ≡ vec_capacity out.old }
{
    put_small(out, first);
    put_number(out, n);
}

fn put_completed(out: &mut Vec<u8>, n: u64, code: &Code6)
    requires room { vec_len out.old + length (term_record (Completed n code.now)) ≤ vec_capacity out.old }
    ensures items { out.new.items ≡ out.old.items ++ term_record (Completed n code.now) }
    ensures capacity { vec_capacity out.new ≡ vec_capacity out.old }
{
    put_numbered(out, 4, n);
    put(out, code.as_bytes());
}

fn put_part(out: &mut Vec<u8>, part: &ConfigPart)
    requires fits { is_part part.now ≡ true }
    requires room { vec_len out.old + length (term_record (Part part.now)) ≤ vec_capacity out.old }
    ensures items { out.new.items ≡ out.old.items ++ term_record (Part part.now) }
    ensures capacity { vec_capacity out.new ≡ vec_capacity out.old }
{
    put_numbered(out, 9, part.version);
    put_small(out, part.part as u8);
    put_small(out, part.parts as u8);
    put_list(out, part.rows.as_slice(), 0);
}

#[tactic(auto, using(crate::proofs::Places::terminal_size, crate::specs::RecordPartsLaws::number_length))]
fn setup_size(settings: &TermSetup) -> usize
    ensures { result ≡ length (term_record (Setup settings.now)) }
{
    let terminal = settings.terminal();
    let host = settings.host();
    19 + terminal.as_bytes().len() + host.as_bytes().len()
}

impl Record for TermEntry {
    ghost use Rattle.cap_entries.specs.TermRecord.{term_fits, term_record, term_reading};
    ghost use Rattle.cap_entries.specs.TermRecordLaws.{term_reads_back, term_reads_only, term_record_low, term_record_high};

    ghost fits = { term_fits };

    ghost bytes_of = { term_record };

    ghost reading = { term_reading };

    ghost reads_back = { term_reads_back };

    ghost size_low = { λ value fits. term_record_low value };

    ghost size_high = { term_record_high };

    ghost reads_only = { term_reads_only };

    ghost clones = { λ value clone is. is };

    fn read(alloc: Global, bytes: &[u8]) -> Result<Option<(TermEntry, usize)>, Memory> {
        match small(bytes, 0) {
            Some((first, at)) => behind(alloc, first, bytes, at),
            None => Ok(None),
        }
    }

    fn write(&self, out: &mut Vec<u8>) {
        match self {
            TermEntry::Setup(settings) => put_setup(out, settings),
            TermEntry::Begin { n, amount, account } => put_begin(out, *n, *amount, account),
            TermEntry::Declined { n } => put_numbered(out, 3, *n),
            TermEntry::Completed { n, code } => put_completed(out, *n, code),
            TermEntry::Voided { n } => put_numbered(out, 5, *n),
            TermEntry::Cancelled { n } => put_numbered(out, 6, *n),
            TermEntry::Closed { p } => put_numbered(out, 7, *p),
            TermEntry::Acked { m } => put_numbered(out, 8, *m),
            TermEntry::Part(part) => put_part(out, part),
        }
    }

    #[tactic(auto, using(crate::proofs::Places::begin_size, crate::specs::RecordPartsLaws::number_length))]
    fn size(&self) -> usize {
        match self {
            TermEntry::Setup(settings) => setup_size(settings),
            TermEntry::Begin { account, .. } => 18 + account.as_bytes().len(),
            TermEntry::Declined { .. } => 9,
            TermEntry::Completed { code, .. } => 9 + code.as_bytes().len(),
            TermEntry::Voided { .. } => 9,
            TermEntry::Cancelled { .. } => 9,
            TermEntry::Closed { .. } => 9,
            TermEntry::Acked { .. } => 9,
            TermEntry::Part(part) => 11 + list_size(part.rows.as_slice(), 0),
        }
    }
}
