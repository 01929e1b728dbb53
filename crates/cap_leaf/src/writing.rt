ghost use Rattle.std.specs.Prelude.{◌≡◌, ◌<◌, ◌≤◌, ◌+◌, ◌^◌, ◌++◌, true, length, take, Some};
ghost use Rattle.std.specs.Fmt.{decimal};
ghost use Rattle.cap_base.specs.Amount.{amount_text};
ghost use Rattle.cap_leaf.specs.declared.kinds.LeafKind.{LeafKind};
ghost use Rattle.cap_leaf.specs.Spelling.{leaf_of, is_kind, is_leaf, IsLeafOf};
ghost use Rattle.cap_leaf.specs.Date.{is_millis as millis_test, is_zone as zone_test, is_date_time};
ghost use Rattle.cap_leaf.specs.Canonical.{leaf_text, date_text, fraction_text as text_of_fraction, zone_text as text_of_zone, moment_text as text_of_moment};

use crate::codes::code_text;
use crate::date::DateTime;
use crate::leaf::Leaf;
use crate::zone::Zone;

// Writes a text at a place, and tells where it ends.
fn put(text: &[u8], out: &mut [u8; 40], at: usize) -> usize
    requires { at + length text.now ≤ 40 }
    ensures text { take result out.new ≡ take at out.old ++ text.now }
    ensures len { result ≡ at + length text.now }
{
    let end = at + text.len();
    out[at..end].copy_from_slice(text);
    end
}

fn put_number(n: u64, out: &mut [u8; 40]) -> usize
    ensures text { take result out.new ≡ decimal n }
    ensures len { result ≤ 20 }
{
    let mut buffer = itoa::Buffer::new();
    put(buffer.format(n).as_bytes(), out, 0)
}

fn digit(n: u64) -> u8
    requires { n < 10 }
    ensures { result ≡ 48 + n }
{
    b'0' + n as u8
}

// Writes hundredths with two decimals.
fn put_money(hundredths: u64, out: &mut [u8; 40]) -> usize
    ensures text { take result out.new ≡ amount_text hundredths }
    ensures len { result ≤ 40 }
{
    let at = put_number(hundredths / 100, out);
    let cents = [b'.', digit(hundredths / 10 % 10), digit(hundredths % 10)];
    put(&cents, out, at)
}

fn moment_text(date: &DateTime) -> [u8; 19]
    ensures { result ≡ text_of_moment date.now }
{
    let year = u64::from(date.year);
    let month = u64::from(date.month);
    let day = u64::from(date.day);
    let hour = u64::from(date.hour);
    let minute = u64::from(date.minute);
    let second = u64::from(date.second);
    [
        digit(year / 1000),
        digit(year / 100 % 10),
        digit(year / 10 % 10),
        digit(year % 10),
        b'-',
        digit(month / 10),
        digit(month % 10),
        b'-',
        digit(day / 10),
        digit(day % 10),
        b'T',
        digit(hour / 10),
        digit(hour % 10),
        b':',
        digit(minute / 10),
        digit(minute % 10),
        b':',
        digit(second / 10),
        digit(second % 10),
    ]
}

fn put_fraction(millis: Option<u16>, out: &mut [u8; 40], at: usize) -> usize
    requires small { millis_test millis ≡ true }
    requires room { at ≤ 30 }
    ensures text { take result out.new ≡ take at out.old ++ text_of_fraction millis }
    ensures len { result ≤ at + 4 }
{
    match millis {
        None => at,
        Some(n) => {
            let n = u64::from(n);
            let text = [b'.', digit(n / 100), digit(n / 10 % 10), digit(n % 10)];
            put(&text, out, at)
        }
    }
}

fn put_zone(zone: Zone, out: &mut [u8; 40], at: usize) -> usize
    requires small { zone_test zone ≡ true }
    requires room { at ≤ 34 }
    ensures text { take result out.new ≡ take at out.old ++ text_of_zone zone }
    ensures len { result ≤ 40 }
{
    match zone {
        Zone::Local => at,
        Zone::Utc => put(b"Z", out, at),
        Zone::Offset {
            minus,
            hours,
            minutes,
        } => {
            let sign = if minus { b'-' } else { b'+' };
            let hours = u64::from(hours);
            let minutes = u64::from(minutes);
            let text = [
                sign,
                digit(hours / 10),
                digit(hours % 10),
                b':',
                digit(minutes / 10),
                digit(minutes % 10),
            ];
            put(&text, out, at)
        }
    }
}

fn put_date_time(date: &DateTime, out: &mut [u8; 40]) -> usize
    ensures text { take result out.new ≡ date_text date.now }
    ensures len { result ≤ 40 }
    ensures range { is_date_time date.now ≡ true }
{
    let at = put(&moment_text(date), out, 0);
    let at = put_fraction(date.millis, out, at);
    put_zone(date.zone, out, at)
}

/// Writes the canonical spelling of a leaf at the front, and tells how long it is.
pub fn leaf_write(leaf: &Leaf, out: &mut [u8; 40]) -> usize
    requires { is_leaf leaf.now ≡ true }
    ensures text { take result out.new ≡ leaf_text leaf.now }
    ensures len { result ≤ 40 }
    ensures reads { (k : LeafKind) → is_kind k ≡ true → IsLeafOf k leaf.now → leaf_of k (take result out.new) ≡ Some leaf.now }
{
    match *leaf {
        Leaf::Num(n) => put_number(n, out),
        Leaf::Amount(amount) => put_money(amount.hundredths(), out),
        Leaf::Sum(hundredths) => put_money(hundredths, out),
        Leaf::Ident(ident) => put(ident.as_bytes(), out, 0),
        Leaf::Account(account) => put(account.as_bytes(), out, 0),
        Leaf::Code6(code) => put(code.as_bytes(), out, 0),
        Leaf::DateTime(date) => put_date_time(&date, out),
        Leaf::Code { list, at } => put(code_text(list, at), out, 0),
    }
}
