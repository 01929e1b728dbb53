// The record of each entry of a host's journal.
ghost use Rattle.std.specs.Prelude.{◌≡◌, ◌≤◌, ◌+◌, ◌++◌, true, ◌∷◌, length, IfOk, IfSome, vec_len, vec_capacity};
ghost use Rattle.cap_entries.specs.HostRecord.{host_setup_at, sale_at, cancel_at, close_at, item_behind as item_behind_of, host_setup_if, item_at, took_at, published_at, host_behind, host_fits, host_record, item_fits, item_bytes, totals_bytes, settings_bytes, is_host_field};
ghost use Rattle.cap_entries.specs.declared.host.HostEntry.TheVariants.{Setup, Took, Published};
ghost use Rattle.cap_base.specs.declared.item.Item.TheVariants.{Sale, Close};

use crate::fields::{
    account, amount, code, count, date, date_size, ident, list, list_size, number, put, put_date,
    put_list, put_number, put_small, put_text, small,
};
use crate::host::{HostEntry, HostSetup};
use crate::lists::{Blocks, Idents};
use crate::rows::RowSet;
use cap_base::{Account, Amount, Code6, Ident, Item, Memory, Row, Totals};
use cap_journal::Record;
use cap_leaf::DateTime;
use std::alloc::Global;

// The entry of a set-up with these fields, where it keeps the rules of one.
fn settings(
    host: Ident,
    limit: Amount,
    blocked: Vec<[u8; 6]>,
    poll: u64,
    start: DateTime,
    terminals: Vec<Ident>,
) -> Option<HostEntry>
    ensures { result ≡ host_setup_if (host, (limit, (blocked.items, (poll, (start, terminals.items))))) }
{
    let blocked = Blocks::new(blocked)?;
    let terminals = Idents::new(terminals)?;
    match HostSetup::new(host, limit, blocked, poll, start, terminals) {
        Some(settings) => Some(HostEntry::Setup(settings)),
        None => None,
    }
}

fn setup(alloc: Global, bytes: &[u8], at: usize) -> Result<Option<(HostEntry, usize)>, Memory>
    requires at { at ≤ length bytes.now }
    ensures { IfOk result (λ found. found ≡ host_setup_at bytes.now at) }
{
    let Some((host, at)) = ident(bytes, at) else {
        return Ok(None);
    };
    let Some((limit, at)) = amount(bytes, at) else {
        return Ok(None);
    };
    let Some((blocked, at)) = list::<[u8; 6]>(alloc, bytes, at, 0)? else {
        return Ok(None);
    };
    let Some((poll, at)) = number(bytes, at) else {
        return Ok(None);
    };
    let Some((start, at)) = date(bytes, at) else {
        return Ok(None);
    };
    let Some((terminals, at)) = list::<Ident>(alloc, bytes, at, 0)? else {
        return Ok(None);
    };
    match settings(host, limit, blocked, poll, start, terminals) {
        Some(entry) => Ok(Some((entry, at))),
        None => Ok(None),
    }
}

fn sale(bytes: &[u8], at: usize) -> Option<(Item, usize)>
    requires at { at ≤ length bytes.now }
    ensures { result ≡ sale_at bytes.now at }
{
    let (n, at) = count(bytes, at)?;
    let (amount, at) = amount(bytes, at)?;
    let (account, at) = account(bytes, at)?;
    let (code, at) = code(bytes, at)?;
    Some((
        Item::Sale {
            n,
            amount,
            account,
            code,
        },
        at,
    ))
}

fn cancel(bytes: &[u8], at: usize) -> Option<(Item, usize)>
    requires at { at ≤ length bytes.now }
    ensures { result ≡ cancel_at bytes.now at }
{
    let (n, at) = count(bytes, at)?;
    let (amount, at) = amount(bytes, at)?;
    Some((Item::Cancel { n, amount }, at))
}

fn close(bytes: &[u8], at: usize) -> Option<(Item, usize)>
    requires at { at ≤ length bytes.now }
    ensures { result ≡ close_at bytes.now at }
{
    let (p, at) = count(bytes, at)?;
    let (sales, at) = number(bytes, at)?;
    let (sales_sum, at) = number(bytes, at)?;
    let (cancels, at) = number(bytes, at)?;
    let (cancels_sum, at) = number(bytes, at)?;
    let totals = Totals {
        sales,
        sales_sum,
        cancels,
        cancels_sum,
    };
    Some((Item::Close { p, totals }, at))
}

// What stands behind the first byte of an item.
fn item_behind(first: u8, bytes: &[u8], at: usize) -> Option<(Item, usize)>
    requires at { at ≤ length bytes.now }
    ensures { result ≡ item_behind_of first bytes.now at }
{
    match first {
        1 => sale(bytes, at),
        2 => count(bytes, at).map(|(n, at)| (Item::Void { n }, at)),
        3 => cancel(bytes, at),
        4 => close(bytes, at),
        _ => None,
    }
}

#[tactic(auto, unfolding(crate::specs::HostRecord::item_at))]
fn item(bytes: &[u8], at: usize) -> Option<(Item, usize)>
    requires at { at ≤ length bytes.now }
    ensures { result ≡ item_at bytes.now at }
{
    let (first, at) = small(bytes, at)?;
    item_behind(first, bytes, at)
}

fn took(bytes: &[u8], at: usize) -> Option<(HostEntry, usize)>
    requires at { at ≤ length bytes.now }
    ensures { result ≡ took_at bytes.now at }
{
    let (terminal, at) = small(bytes, at)?;
    let (item, at) = item(bytes, at)?;
    Some((HostEntry::Took { terminal, item }, at))
}

fn published(alloc: Global, bytes: &[u8], at: usize) -> Result<Option<(HostEntry, usize)>, Memory>
    requires at { at ≤ length bytes.now }
    ensures { IfOk result (λ found. found ≡ published_at bytes.now at) }
{
    let Some((version, at)) = count(bytes, at) else {
        return Ok(None);
    };
    let Some((rows, at)) = list::<Row>(alloc, bytes, at, 1)? else {
        return Ok(None);
    };
    match RowSet::new(rows) {
        Ok(rows) => Ok(Some((HostEntry::Published { version, rows }, at))),
        Err(_) => Ok(None),
    }
}

// What stands behind a first byte.
fn behind(
    alloc: Global,
    first: u8,
    bytes: &[u8],
    at: usize,
) -> Result<Option<(HostEntry, usize)>, Memory>
    requires at { at ≤ length bytes.now }
    ensures { IfOk result (λ found. found ≡ host_behind first bytes.now at) }
{
    match first {
        0x41 => setup(alloc, bytes, at),
        0x42 => Ok(took(bytes, at)),
        0x43 => published(alloc, bytes, at),
        _ => Ok(None),
    }
}

fn put_setup(out: &mut Vec<u8>, settings: &HostSetup)
    requires fits { is_host_field settings.now ≡ true }
    requires room { vec_len out.old + length (host_record (Setup settings.now)) ≤ vec_capacity out.old }
    ensures items { out.new.items ≡ out.old.items ++ host_record (Setup settings.now) }
    ensures capacity { vec_capacity out.new ≡ vec_capacity out.old }
{
    let host = settings.host();
    put_small(out, 0x41);
    put_text(out, host.as_bytes());
    put_number(out, settings.limit().hundredths());
    put_list(out, settings.blocked().as_slice(), 0);
    put_number(out, settings.poll());
    put_date(out, settings.start());
    put_list(out, settings.terminals().as_slice(), 0);
}

fn put_sale(out: &mut Vec<u8>, n: u64, amount: Amount, account: &Account, code: &Code6)
    requires room { vec_len out.old + length (item_bytes (Sale n amount account.now code.now)) ≤ vec_capacity out.old }
    ensures items { out.new.items ≡ out.old.items ++ item_bytes (Sale n amount account.now code.now) }
    ensures capacity { vec_capacity out.new ≡ vec_capacity out.old }
{
    put_small(out, 1);
    put_number(out, n);
    put_number(out, amount.hundredths());
    put_text(out, account.as_bytes());
    put(out, code.as_bytes());
}

fn put_close(out: &mut Vec<u8>, p: u64, totals: &Totals)
    requires room { vec_len out.old + length (item_bytes (Close p totals.now)) ≤ vec_capacity out.old }
    ensures items { out.new.items ≡ out.old.items ++ item_bytes (Close p totals.now) }
    ensures capacity { vec_capacity out.new ≡ vec_capacity out.old }
{
    put_small(out, 4);
    put_number(out, p);
    put_number(out, totals.sales);
    put_number(out, totals.sales_sum);
    put_number(out, totals.cancels);
    put_number(out, totals.cancels_sum);
}

fn put_item(out: &mut Vec<u8>, item: &Item)
    requires room { vec_len out.old + length (item_bytes item.now) ≤ vec_capacity out.old }
    ensures items { out.new.items ≡ out.old.items ++ item_bytes item.now }
    ensures capacity { vec_capacity out.new ≡ vec_capacity out.old }
{
    match item {
        Item::Sale {
            n,
            amount,
            account,
            code,
        } => put_sale(out, *n, *amount, account, code),
        Item::Void { n } => {
            put_small(out, 2);
            put_number(out, *n);
        }
        Item::Cancel { n, amount } => {
            put_small(out, 3);
            put_number(out, *n);
            put_number(out, amount.hundredths());
        }
        Item::Close { p, totals } => put_close(out, *p, totals),
    }
}

fn put_took(out: &mut Vec<u8>, terminal: u8, item: &Item)
    requires room { vec_len out.old + length (host_record (Took terminal item.now)) ≤ vec_capacity out.old }
    ensures items { out.new.items ≡ out.old.items ++ host_record (Took terminal item.now) }
    ensures capacity { vec_capacity out.new ≡ vec_capacity out.old }
{
    put_small(out, 0x42);
    put_small(out, terminal);
    put_item(out, item);
}

fn put_published(out: &mut Vec<u8>, version: u64, rows: &RowSet)
    requires room { vec_len out.old + length (host_record (Published version rows.now)) ≤ vec_capacity out.old }
    ensures items { out.new.items ≡ out.old.items ++ host_record (Published version rows.now) }
    ensures capacity { vec_capacity out.new ≡ vec_capacity out.old }
{
    put_small(out, 0x43);
    put_number(out, version);
    put_list(out, rows.as_slice(), 1);
}

#[tactic(auto, using(crate::specs::RecordPartsLaws::number_length))]
fn setup_size(settings: &HostSetup) -> usize
    ensures { result ≡ length (host_record (Setup settings.now)) }
{
    let host = settings.host();
    let blocked = list_size(settings.blocked().as_slice(), 0);
    let terminals = list_size(settings.terminals().as_slice(), 0);
    18 + host.as_bytes().len() + blocked + date_size(settings.start()) + terminals
}

#[tactic(auto, using(crate::proofs::Places::sale_size, crate::proofs::Places::void_size, crate::proofs::Places::cancel_size, crate::proofs::Places::close_size))]
fn item_size(item: &Item) -> usize
    ensures value { result ≡ length (item_bytes item.now) }
    ensures small { result ≤ 70 }
{
    match item {
        Item::Sale { account, code, .. } => 18 + account.as_bytes().len() + code.as_bytes().len(),
        Item::Void { .. } => 9,
        Item::Cancel { .. } => 17,
        Item::Close { .. } => 41,
    }
}

impl Record for HostEntry {
    ghost use Rattle.cap_entries.specs.HostRecord.{host_fits, host_record, host_reading};
    ghost use Rattle.cap_entries.specs.HostRecordLaws.{host_reads_back, host_reads_only, host_record_low, host_record_high};

    ghost fits = { host_fits };

    ghost bytes_of = { host_record };

    ghost reading = { host_reading };

    ghost reads_back = { host_reads_back };

    ghost size_low = { λ value fits. host_record_low value };

    ghost size_high = { host_record_high };

    ghost reads_only = { host_reads_only };

    ghost clones = { λ value clone is. is };

    fn read(alloc: Global, bytes: &[u8]) -> Result<Option<(HostEntry, usize)>, Memory> {
        match small(bytes, 0) {
            Some((first, at)) => behind(alloc, first, bytes, at),
            None => Ok(None),
        }
    }

    fn write(&self, out: &mut Vec<u8>) {
        match self {
            HostEntry::Setup(settings) => put_setup(out, settings),
            HostEntry::Took { terminal, item } => put_took(out, *terminal, item),
            HostEntry::Published { version, rows } => put_published(out, *version, rows),
        }
    }

    #[tactic(auto, using(crate::specs::RecordPartsLaws::number_length))]
    fn size(&self) -> usize {
        match self {
            HostEntry::Setup(settings) => setup_size(settings),
            HostEntry::Took { item, .. } => 2 + item_size(item),
            HostEntry::Published { rows, .. } => 9 + list_size(rows.as_slice(), 1),
        }
    }
}
