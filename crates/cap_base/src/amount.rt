ghost use Rattle.std.specs.Prelude.{◌≡◌, ◌≤◌, ◌<◌, ◌^◌, ◌↔◌, ◌+◌, ◌*◌, ◌/◌, ◌&&◌, ℕ, true, nat_le, IsSome, IfSome, length, take};
ghost use Rattle.std.specs.List.{list_all};
ghost use Rattle.std.specs.Fmt.{decimal};
ghost use Rattle.cap_base.specs.Amount.{IsAmount, whole_of, tail_of, is_tail, cents_of, decimal_of, amount_of, amount_text};

use crate::number::value_of_digits;
use std::fmt;
use std::marker::Model;

/// An amount of money in hundredths, 1 to 999,999,999,999.
#[derive(Clone, Copy, Debug, PartialEq, Eq, PartialOrd, Ord)]
pub struct Amount {
    hundredths: u64,
}

impl Model for Amount {
    ghost use Rattle.std.specs.Prelude.{ℕ};
    ghost use Rattle.cap_base.specs.Amount.{IsAmount};

    ghost Value = { ℕ };

    ghost view = { λ a. a.hundredths };

    ghost invariant = { λ a. IsAmount a.hundredths };

    ghost inverse = { λ n. record { hundredths = n } };
}

/// A sum of money in hundredths, which prints with two decimals.
#[derive(Clone, Copy, Debug, PartialEq, Eq)]
pub struct Money {
    pub hundredths: u64,
}

impl fmt::Display for Money {
    ghost use Rattle.std.specs.Prelude.{Some};
    ghost use Rattle.cap_base.specs.Amount.{amount_text};

    ghost output = { λ m. Some (amount_text m.hundredths) };

    fn fmt<W: fmt::Write>(&self, f: &mut fmt::Formatter<W>) -> fmt::Result {
        let n = self.hundredths;
        write!(f, "{}.{}{}", n / 100, n / 10 % 10, n % 10)
    }
}

// How many digits stand at the front.
fn whole_len(text: &[u8]) -> usize
    ensures { result ≡ length (whole_of text.now) }
{
    text.iter().take_while(|b| b.is_ascii_digit()).count()
}

// Whether a text is nothing, or a point and one or two digits.
fn tail(text: &[u8]) -> bool
    ensures { result ≡ is_tail text.now }
{
    match text {
        [] => true,
        [point, d] => *point == b'.' && d.is_ascii_digit(),
        [point, d, e] => *point == b'.' && (d.is_ascii_digit() && e.is_ascii_digit()),
        _ => false,
    }
}

// The hundredths that it stands for.
fn cents(text: &[u8]) -> u64
    requires { is_tail text.now ≡ true }
    ensures value { result ≡ cents_of text.now }
    ensures small { result < 100 }
{
    match text {
        [_, d] => 10 * u64::from(*d - b'0'),
        [_, d, e] => 10 * u64::from(*d - b'0') + u64::from(*e - b'0'),
        _ => 0,
    }
}

/// The hundredths that 1 to `most` digits spell, followed by nothing or by a point and one or two digits. None for every other text.
pub fn read_decimal(text: &[u8], most: usize) -> Option<u64>
    requires { most ≤ 17 }
    ensures value { result ≡ decimal_of most text.now }
    ensures small { IfSome result (λ n. n < 10 ^ (most + 2)) }
{
    let len = whole_len(text);
    let whole = &text[..len];
    let rest = &text[len..];
    if (1 <= len && len <= most) && tail(rest) {
        Some(100 * value_of_digits(whole) + cents(rest))
    } else {
        None
    }
}

// Writes a text at the front, and tells its length.
fn put(text: &[u8], out: &mut [u8; 13]) -> usize
    requires { length text.now ≤ 13 }
    ensures text { take result out.new ≡ text.now }
    ensures len { result ≡ length text.now }
{
    out[..text.len()].copy_from_slice(text);
    text.len()
}

impl Amount {
    /// The amount of so many hundredths. None where there is none.
    pub fn new(hundredths: u64) -> Option<Amount>
        ensures exact { IsSome result ↔ IsAmount hundredths }
        ensures value { IfSome result (λ a. a ≡ hundredths) }
    {
        if 1 <= hundredths && hundredths <= 999_999_999_999 {
            Some(Amount { hundredths })
        } else {
            None
        }
    }

    /// How many hundredths it is.
    pub fn hundredths(self) -> u64
        ensures value { result ≡ self }
        ensures range { IsAmount self }
    {
        self.hundredths
    }

    /// Reads an amount. None where the text is no spelling of one.
    pub fn read(text: &[u8]) -> Option<Amount>
        ensures { result ≡ amount_of text.now }
    {
        let hundredths = read_decimal(text, 10)?;
        Amount::new(hundredths)
    }

    /// Writes the canonical spelling, with two decimals, and tells how long it is.
    pub fn write(self, out: &mut [u8; 13]) -> usize
        ensures text { take result out.new ≡ amount_text self }
        ensures len { result ≤ 13 }
    {
        let n = self.hundredths;
        let mut buffer = itoa::Buffer::new();
        let at = put(buffer.format(n / 100).as_bytes(), out);
        out[at] = b'.';
        out[at + 1] = b'0' + (n / 10 % 10) as u8;
        out[at + 2] = b'0' + (n % 10) as u8;
        at + 3
    }
}
