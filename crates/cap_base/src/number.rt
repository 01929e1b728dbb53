ghost use Rattle.std.specs.Prelude.{◌≡◌, ◌≤◌, ◌<◌, ◌^◌, true, IfSome, length};
ghost use Rattle.std.specs.List.{list_all};
ghost use Rattle.std.specs.Char.{is_ascii_digit};
ghost use Rattle.std.specs.Str.Parse.{digits_value};
ghost use Rattle.cap_base.specs.Number.{number_of};

use crate::text::are_digits;

/// The number that at most 19 digits spell.
pub(crate) fn value_of_digits(digits: &[u8]) -> u64
    requires digits { list_all is_ascii_digit digits.now ≡ true }
    requires few { length digits.now ≤ 19 }
    ensures value { result ≡ digits_value 10 digits.now }
    ensures small { result < 10 ^ length digits.now }
{
    let mut n: u64 = 0;
    for digit in digits {
        n = 10 * n + u64::from(*digit - b'0');
    }
    n
}

/// The number that 1 to `most` digits spell, leading zeros among them. None for every other text.
pub fn read_number(text: &[u8], most: usize) -> Option<u64>
    requires { most ≤ 19 }
    ensures value { result ≡ number_of most text.now }
    ensures small { IfSome result (λ n. n < 10 ^ most) }
{
    if (1 <= text.len() && text.len() <= most) && are_digits(text) {
        Some(value_of_digits(text))
    } else {
        None
    }
}
