// Fields of records, read at a place of some bytes and written behind what is there.
ghost use Rattle.std.specs.Prelude.{◌≡◌, ◌≤◌, ◌<◌, ◌+◌, ◌*◌, ◌++◌, ℕ, List, Option, true, ◌∷◌, [], length, take, drop, option_map, IfSome, IfOk, vec_len, vec_capacity, sum_by};
ghost use Rattle.std.specs.List.{flat_map};
ghost use Rattle.cap_leaf.specs.Canonical.{date_text};
ghost use Rattle.cap_entries.specs.Lists.{is_prefix};
ghost use Rattle.cap_entries.specs.RecordParts.{small_at, number_at, text_at, times_at, list_at, number_bytes, text_bytes, list_bytes};
ghost use Rattle.cap_entries.specs.RecordField.{count_at, amount_at, share_at, ident_at, account_at, date_at, dated as dated_of, code_at, prefix_at, row_at, date_bytes, row_bytes};

use cap_base::{Account, Amount, Code6, Ident, Memory, Row};
use cap_leaf::{DateTime, Leaf, LeafKind, leaf_read, leaf_write};
use std::alloc::Global;

// The bytes from a place on, at most so many.
fn part(bytes: &[u8], at: usize, count: usize) -> &[u8]
    requires { at ≤ length bytes.now }
    ensures { result.now ≡ take count (drop at bytes.now) }
{
    let rest = &bytes[at..];
    &rest[..count.min(rest.len())]
}

/// A small number: one byte.
#[tactic(auto, using(crate::proofs::Places::small_none))]
pub(crate) fn small(bytes: &[u8], at: usize) -> Option<(u8, usize)>
    requires at { at ≤ length bytes.now }
    ensures value { result ≡ small_at bytes.now at }
    ensures within { IfSome result (λ found. found.1 ≤ length bytes.now) }
{
    if at < bytes.len() {
        Some((bytes[at], at + 1))
    } else {
        None
    }
}

/// A number: eight bytes, the highest first.
#[tactic(auto, using(crate::proofs::Places::number_some, crate::proofs::Places::number_none, crate::proofs::Places::part_in))]
pub(crate) fn number(bytes: &[u8], at: usize) -> Option<(u64, usize)>
    requires at { at ≤ length bytes.now }
    ensures value { result ≡ number_at bytes.now at }
    ensures within { IfSome result (λ found. found.1 ≤ length bytes.now) }
{
    let field = part(bytes, at, 8);
    if field.len() == 8 {
        let mut eight = [0; 8];
        eight.copy_from_slice(field);
        Some((u64::from_be_bytes(eight), at + 8))
    } else {
        None
    }
}

/// The number of a sale, a period, an item or a version.
#[tactic(auto, unfolding(crate::specs::RecordField::count_at))]
pub(crate) fn count(bytes: &[u8], at: usize) -> Option<(u64, usize)>
    requires at { at ≤ length bytes.now }
    ensures value { result ≡ count_at bytes.now at }
    ensures within { IfSome result (λ found. found.1 ≤ length bytes.now) }
{
    let (n, end) = number(bytes, at)?;
    if n <= 9_999_999_999 {
        Some((n, end))
    } else {
        None
    }
}

/// An amount.
#[tactic(auto, unfolding(crate::specs::RecordField::amount_at))]
pub(crate) fn amount(bytes: &[u8], at: usize) -> Option<(Amount, usize)>
    requires at { at ≤ length bytes.now }
    ensures value { result ≡ amount_at bytes.now at }
    ensures within { IfSome result (λ found. found.1 ≤ length bytes.now) }
{
    let (n, end) = number(bytes, at)?;
    match Amount::new(n) {
        Some(amount) => Some((amount, end)),
        None => None,
    }
}

/// The number of a part, or of the parts, of a parameter set.
#[tactic(auto, unfolding(crate::specs::RecordField::share_at))]
pub(crate) fn share(bytes: &[u8], at: usize) -> Option<(u64, usize)>
    requires at { at ≤ length bytes.now }
    ensures value { result ≡ share_at bytes.now at }
    ensures within { IfSome result (λ found. found.1 ≤ length bytes.now) }
{
    let (n, end) = small(bytes, at)?;
    if 1 <= n && n <= 16 {
        Some((u64::from(n), end))
    } else {
        None
    }
}

// A text, and the place behind it.
#[tactic(auto, using(crate::proofs::Places::text_some, crate::proofs::Places::text_short, crate::proofs::Places::text_none, crate::proofs::Places::part_in))]
fn text(bytes: &[u8], at: usize) -> Option<(&[u8], usize)>
    requires at { at ≤ length bytes.now }
    ensures value { option_map (λ found. (found.0.now, found.1)) result ≡ text_at bytes.now at }
    ensures within { IfSome result (λ found. found.1 ≤ length bytes.now) }
{
    let (size, from) = small(bytes, at)?;
    let size = usize::from(size);
    let field = part(bytes, from, size);
    if field.len() == size {
        Some((field, from + size))
    } else {
        None
    }
}

/// A name.
#[tactic(auto, unfolding(crate::specs::RecordField::ident_at))]
pub(crate) fn ident(bytes: &[u8], at: usize) -> Option<(Ident, usize)>
    requires at { at ≤ length bytes.now }
    ensures value { result ≡ ident_at bytes.now at }
    ensures within { IfSome result (λ found. found.1 ≤ length bytes.now) }
{
    let (field, end) = text(bytes, at)?;
    match Ident::read(field) {
        Some(ident) => Some((ident, end)),
        None => None,
    }
}

/// An account.
#[tactic(auto, unfolding(crate::specs::RecordField::account_at))]
pub(crate) fn account(bytes: &[u8], at: usize) -> Option<(Account, usize)>
    requires at { at ≤ length bytes.now }
    ensures value { result ≡ account_at bytes.now at }
    ensures within { IfSome result (λ found. found.1 ≤ length bytes.now) }
{
    let (field, end) = text(bytes, at)?;
    match Account::read(field) {
        Some(account) => Some((account, end)),
        None => None,
    }
}

// The date and time that a leaf is.
fn dated(leaf: Leaf, end: usize) -> Option<(DateTime, usize)>
    ensures value { result ≡ dated_of leaf end }
    ensures end { IfSome result (λ found. found.1 ≡ end) }
{
    match leaf {
        Leaf::DateTime(date) => Some((date, end)),
        _ => None,
    }
}

/// A date and time, as text.
#[tactic(auto, unfolding(crate::specs::RecordField::date_at))]
pub(crate) fn date(bytes: &[u8], at: usize) -> Option<(DateTime, usize)>
    requires at { at ≤ length bytes.now }
    ensures value { result ≡ date_at bytes.now at }
    ensures within { IfSome result (λ found. found.1 ≤ length bytes.now) }
{
    let (field, end) = text(bytes, at)?;
    match leaf_read(LeafKind::DateTime, field) {
        Some(leaf) => dated(leaf, end),
        None => None,
    }
}

/// An approval code: its six bytes.
#[tactic(auto, using(crate::proofs::Places::code_some, crate::proofs::Places::code_none, crate::proofs::Places::code_in))]
pub(crate) fn code(bytes: &[u8], at: usize) -> Option<(Code6, usize)>
    requires at { at ≤ length bytes.now }
    ensures value { result ≡ code_at bytes.now at }
    ensures within { IfSome result (λ found. found.1 ≤ length bytes.now) }
{
    let field = part(bytes, at, 6);
    match Code6::read(field) {
        Some(code) => Some((code, at + 6)),
        None => None,
    }
}

#[tactic(auto, unfolding(crate::specs::RecordField::row_at))]
fn row(bytes: &[u8], at: usize) -> Option<(Row, usize)>
    requires at { at ≤ length bytes.now }
    ensures value { result ≡ row_at bytes.now at }
    ensures within { IfSome result (λ found. found.1 ≤ length bytes.now) }
{
    let (key, at) = ident(bytes, at)?;
    let (value, at) = ident(bytes, at)?;
    Some((Row { key, value }, at))
}

fn are_digits(field: &[u8]) -> bool
    ensures { result ≡ is_prefix field.now }
{
    field.iter().all(|b| b.is_ascii_digit())
}

// The first digits of an account: six.
#[tactic(auto, using(crate::proofs::Places::prefix_some, crate::proofs::Places::prefix_short, crate::proofs::Places::prefix_none, crate::proofs::Places::part_in))]
fn prefix(bytes: &[u8], at: usize) -> Option<([u8; 6], usize)>
    requires at { at ≤ length bytes.now }
    ensures value { result ≡ prefix_at bytes.now at }
    ensures within { IfSome result (λ found. found.1 ≤ length bytes.now) }
{
    let field = part(bytes, at, 6);
    if field.len() != 6 {
        return None;
    }
    if are_digits(field) {
        let mut six = [0; 6];
        six.copy_from_slice(field);
        Some((six, at + 6))
    } else {
        None
    }
}

/// A field of which records have lists.
pub(crate) trait Field: Copy {
    /// How it reads at a place.
    ghost reading: { List ℕ → ℕ → Option (Self × ℕ) };

    /// How it is written.
    ghost written: { Self → List ℕ };

    fn read(bytes: &[u8], at: usize) -> Option<(Self, usize)>
        requires at { at ≤ length bytes.now }
        ensures value { result ≡ reading bytes.now at }
        ensures within { IfSome result (λ found. found.1 ≤ length bytes.now) };

    fn put(&self, out: &mut Vec<u8>)
        requires room { vec_len out.old + length (written self.now) ≤ vec_capacity out.old }
        ensures items { out.new.items ≡ out.old.items ++ written self.now }
        ensures len { vec_len out.new ≡ vec_len out.old + length (written self.now) }
        ensures capacity { vec_capacity out.new ≡ vec_capacity out.old };

    fn size(&self) -> usize
        ensures value { result ≡ length (written self.now) }
        ensures small { result ≤ 72 };
}

impl Field for Ident {
    ghost reading = { ident_at };

    ghost written = { text_bytes };

    fn read(bytes: &[u8], at: usize) -> Option<(Ident, usize)> {
        ident(bytes, at)
    }

    fn put(&self, out: &mut Vec<u8>) {
        put_text(out, self.as_bytes());
    }

    fn size(&self) -> usize {
        1 + self.as_bytes().len()
    }
}

impl Field for Row {
    ghost reading = { row_at };

    ghost written = { row_bytes };

    fn read(bytes: &[u8], at: usize) -> Option<(Row, usize)> {
        row(bytes, at)
    }

    fn put(&self, out: &mut Vec<u8>) {
        put_text(out, self.key.as_bytes());
        put_text(out, self.value.as_bytes());
    }

    fn size(&self) -> usize {
        2 + self.key.as_bytes().len() + self.value.as_bytes().len()
    }
}

impl Field for [u8; 6] {
    ghost reading = { prefix_at };

    ghost written = { λ prefix. prefix };

    fn read(bytes: &[u8], at: usize) -> Option<([u8; 6], usize)> {
        prefix(bytes, at)
    }

    fn put(&self, out: &mut Vec<u8>) {
        put(out, self);
    }

    fn size(&self) -> usize {
        6
    }
}

// So many fields, one behind the other.
#[tactic(auto, using(crate::proofs::Places::no_front, crate::proofs::Places::one_front, crate::proofs::Places::front_stops, crate::proofs::Places::front_ends))]
fn times<F: Field>(
    alloc: Global,
    bytes: &[u8],
    at: usize,
    count: usize,
) -> Result<Option<(Vec<F>, usize)>, Memory>
    requires at { at ≤ length bytes.now }
    ensures value { IfOk result (λ read. option_map (λ found. (found.0.items, found.1)) read ≡ times_at F.reading count bytes.now at) }
    ensures within { IfOk result (λ read. IfSome read (λ found. found.1 ≤ length bytes.now)) }
{
    let mut list = Vec::new(alloc);
    let mut end = at;
    while list.len() < count {
        match F::read(bytes, end) {
            Some((value, next)) => {
                list.push(value)?;
                end = next;
            }
            None => return Ok(None),
        }
    }
    Ok(Some((list, end)))
}

/// A list: its length less a number, as a small number, and its fields.
pub(crate) fn list<F: Field>(
    alloc: Global,
    bytes: &[u8],
    at: usize,
    more: usize,
) -> Result<Option<(Vec<F>, usize)>, Memory>
    requires at { at ≤ length bytes.now }
    requires more { more ≤ 1 }
    ensures value { IfOk result (λ read. option_map (λ found. (found.0.items, found.1)) read ≡ list_at more F.reading bytes.now at) }
    ensures within { IfOk result (λ read. IfSome read (λ found. found.1 ≤ length bytes.now)) }
{
    match small(bytes, at) {
        Some((n, next)) => times(alloc, bytes, next, usize::from(n) + more),
        None => Ok(None),
    }
}

/// Appends bytes for which there is room.
pub(crate) fn put(out: &mut Vec<u8>, bytes: &[u8])
    requires { vec_len out.old + length bytes.now ≤ vec_capacity out.old }
    ensures items { out.new.items ≡ out.old.items ++ bytes.now }
    ensures len { vec_len out.new ≡ vec_len out.old + length bytes.now }
    ensures capacity { vec_capacity out.new ≡ vec_capacity out.old }
{
    for byte in bytes {
        out.push_reserved(*byte);
    }
}

pub(crate) fn put_small(out: &mut Vec<u8>, n: u8)
    requires { vec_len out.old + 1 ≤ vec_capacity out.old }
    ensures items { out.new.items ≡ out.old.items ++ n ∷ [] }
    ensures len { vec_len out.new ≡ vec_len out.old + 1 }
    ensures capacity { vec_capacity out.new ≡ vec_capacity out.old }
{
    out.push_reserved(n);
}

#[tactic(auto, unfolding(crate::specs::RecordParts::number_bytes))]
pub(crate) fn put_number(out: &mut Vec<u8>, n: u64)
    requires { vec_len out.old + length (number_bytes n) ≤ vec_capacity out.old }
    ensures items { out.new.items ≡ out.old.items ++ number_bytes n }
    ensures len { vec_len out.new ≡ vec_len out.old + length (number_bytes n) }
    ensures capacity { vec_capacity out.new ≡ vec_capacity out.old }
{
    put(out, &n.to_be_bytes());
}

pub(crate) fn put_text(out: &mut Vec<u8>, text: &[u8])
    requires room { vec_len out.old + 1 + length text.now ≤ vec_capacity out.old }
    requires small { length text.now < 256 }
    ensures items { out.new.items ≡ out.old.items ++ text_bytes text.now }
    ensures len { vec_len out.new ≡ vec_len out.old + 1 + length text.now }
    ensures capacity { vec_capacity out.new ≡ vec_capacity out.old }
{
    out.push_reserved(text.len() as u8);
    put(out, text);
}

// The canonical text of a date and time, and its length.
fn spelt(date: DateTime) -> ([u8; 40], usize)
    ensures text { take result.1 result.0 ≡ date_text date }
    ensures len { result.1 ≤ 40 }
    ensures whole { length result.0 ≡ 40 }
{
    let mut buffer = [0; 40];
    let len = leaf_write(&Leaf::DateTime(date), &mut buffer);
    (buffer, len)
}

pub(crate) fn put_date(out: &mut Vec<u8>, date: DateTime)
    requires { vec_len out.old + length (date_bytes date) ≤ vec_capacity out.old }
    ensures items { out.new.items ≡ out.old.items ++ date_bytes date }
    ensures len { vec_len out.new ≡ vec_len out.old + length (date_bytes date) }
    ensures capacity { vec_capacity out.new ≡ vec_capacity out.old }
{
    let (buffer, len) = spelt(date);
    put_text(out, &buffer[..len]);
}

/// How many bytes a date and time has, as text.
pub(crate) fn date_size(date: DateTime) -> usize
    ensures value { result ≡ length (date_bytes date) }
    ensures small { result ≤ 41 }
{
    let (_, len) = spelt(date);
    1 + len
}

// The fields of a list, one behind the other.
fn put_times<F: Field>(out: &mut Vec<u8>, list: &[F])
    requires room { vec_len out.old + length (flat_map F.written list.now) ≤ vec_capacity out.old }
    ensures items { out.new.items ≡ out.old.items ++ flat_map F.written list.now }
    ensures len { vec_len out.new ≡ vec_len out.old + length (flat_map F.written list.now) }
    ensures capacity { vec_capacity out.new ≡ vec_capacity out.old }
{
    for field in list {
        field.put(out);
    }
}

pub(crate) fn put_list<F: Field>(out: &mut Vec<u8>, list: &[F], more: usize)
    requires room { vec_len out.old + length (list_bytes more F.written list.now) ≤ vec_capacity out.old }
    requires some { more ≤ length list.now }
    requires few { length list.now < 256 + more }
    requires more { more ≤ 1 }
    ensures items { out.new.items ≡ out.old.items ++ list_bytes more F.written list.now }
    ensures len { vec_len out.new ≡ vec_len out.old + length (list_bytes more F.written list.now) }
    ensures capacity { vec_capacity out.new ≡ vec_capacity out.old }
{
    out.push_reserved((list.len() - more) as u8);
    put_times(out, list);
}

/// How many bytes a list has.
pub(crate) fn list_size<F: Field>(list: &[F], more: usize) -> usize
    requires few { length list.now ≤ 256 }
    ensures value { result ≡ length (list_bytes more F.written list.now) }
    ensures small { result ≤ 1 + 72 * length list.now }
{
    let mut total = 1;
    for field in list {
        total += field.size();
    }
    total
}
