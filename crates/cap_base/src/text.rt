ghost use Rattle.std.specs.Prelude.{◌≡◌, ◌≤◌, ℕ, true, List, length, take, codes};
ghost use Rattle.std.specs.List.{list_all};
ghost use Rattle.std.specs.Char.{is_ascii_digit};
ghost use Rattle.std.specs.Str.{bytes_eq};
ghost use Rattle.std.specs.Cmp.{partial_equiv_from_equiv};
ghost use Rattle.std.specs.Cmp.Lexicographic.{nat_list_eq_equiv};
ghost use Rattle.cap_base.specs.Text.{IsPadded, is_ident_byte, is_code_byte, is_ident, is_account, is_code6, ident_of, account_of, code6_of};

use std::marker::Model;

/// The name of a party or of a parameter: 1 to 35 letters, digits, `-`, `.`, `/`.
#[derive(Clone, Copy, Debug)]
pub struct Ident {
    bytes: [u8; 35],
    len: usize,
}

impl Model for Ident {
    ghost use Rattle.std.specs.Prelude.{◌≡◌, ℕ, true, List, take, replicate, ◌++◌, ◌-◌, length};
    ghost use Rattle.cap_base.specs.Text.{IsPadded, is_ident};
    ghost use Rattle.cap_base.specs.Padding.{ident_back};

    ghost Value = { List ℕ };

    ghost view = { λ s. take s.len s.bytes };

    ghost invariant = { λ s. IsPadded 35 s.bytes s.len × (is_ident (take s.len s.bytes) ≡ true) };

    ghost inverse = { λ d. record { bytes = d ++ replicate (35 - length d) 0; len = length d } };

    ghost inverse_ok = { λ a h. ident_back a h.0 };
}

/// The number of a card account: 8 to 19 digits.
#[derive(Clone, Copy, Debug)]
pub struct Account {
    bytes: [u8; 19],
    len: usize,
}

impl Model for Account {
    ghost use Rattle.std.specs.Prelude.{◌≡◌, ℕ, true, List, take, replicate, ◌++◌, ◌-◌, length};
    ghost use Rattle.cap_base.specs.Text.{IsPadded, is_account};
    ghost use Rattle.cap_base.specs.Padding.{account_back};

    ghost Value = { List ℕ };

    ghost view = { λ s. take s.len s.bytes };

    ghost invariant = { λ s. IsPadded 19 s.bytes s.len × (is_account (take s.len s.bytes) ≡ true) };

    ghost inverse = { λ d. record { bytes = d ++ replicate (19 - length d) 0; len = length d } };

    ghost inverse_ok = { λ a h. account_back a h.0 };
}

/// An approval code: six capital letters or digits.
#[derive(Clone, Copy, Debug, PartialEq, Eq)]
pub struct Code6 {
    bytes: [u8; 6],
}

impl Model for Code6 {
    ghost use Rattle.std.specs.Prelude.{◌≡◌, ℕ, true, List};
    ghost use Rattle.cap_base.specs.Text.{is_code6};

    ghost Value = { List ℕ };

    ghost view = { λ s. s.bytes };

    ghost invariant = { λ s. is_code6 s.bytes ≡ true };

    ghost inverse = { λ d. record { bytes = d } };
}

fn ident_byte(b: u8) -> bool
    ensures { result ≡ is_ident_byte b }
{
    b.is_ascii_alphanumeric() || (b'-' <= b && b <= b'/')
}

fn code_byte(b: u8) -> bool
    ensures { result ≡ is_code_byte b }
{
    b.is_ascii_uppercase() || b.is_ascii_digit()
}

fn are_ident_bytes(text: &[u8]) -> bool
    ensures { result ≡ list_all is_ident_byte text.now }
{
    text.iter().all(|b| ident_byte(*b))
}

pub(crate) fn are_digits(text: &[u8]) -> bool
    ensures { result ≡ list_all is_ascii_digit text.now }
{
    text.iter().all(|b| b.is_ascii_digit())
}

fn are_code_bytes(text: &[u8]) -> bool
    ensures { result ≡ list_all is_code_byte text.now }
{
    text.iter().all(|b| code_byte(*b))
}

fn spells_ident(text: &[u8]) -> bool
    ensures { result ≡ is_ident text.now }
{
    (1 <= text.len() && text.len() <= 35) && are_ident_bytes(text)
}

fn spells_account(text: &[u8]) -> bool
    ensures { result ≡ is_account text.now }
{
    (8 <= text.len() && text.len() <= 19) && are_digits(text)
}

fn spells_code(text: &[u8]) -> bool
    ensures { result ≡ is_code6 text.now }
{
    (6 <= text.len() && text.len() <= 6) && are_code_bytes(text)
}

// The text and zeros after it, in an array.
fn padded<const N: usize>(text: &[u8]) -> [u8; N]
    requires { length text.now ≤ N }
    ensures padded { IsPadded N result (length text.now) }
    ensures text { take (length text.now) result ≡ text.now }
{
    let mut bytes = [0; N];
    let len = text.len();
    bytes[..len].copy_from_slice(text);
    bytes
}

impl Ident {
    /// Reads a name. None where the text is no spelling of one.
    pub fn read(text: &[u8]) -> Option<Ident>
        ensures { result ≡ ident_of text.now }
    {
        if spells_ident(text) {
            let bytes = padded::<35>(text);
            Some(Ident {
                bytes,
                len: text.len(),
            })
        } else {
            None
        }
    }

    /// The characters.
    pub fn as_bytes(&self) -> &[u8]
        ensures text { result.now ≡ self.now }
        ensures spelling { is_ident self.now ≡ true }
        ensures within { length self.now ≤ 35 }
    {
        &self.bytes[..self.len]
    }
}

impl Account {
    /// Reads an account. None where the text is no spelling of one.
    pub fn read(text: &[u8]) -> Option<Account>
        ensures { result ≡ account_of text.now }
    {
        if spells_account(text) {
            let bytes = padded::<19>(text);
            Some(Account {
                bytes,
                len: text.len(),
            })
        } else {
            None
        }
    }

    /// The digits.
    pub fn as_bytes(&self) -> &[u8]
        ensures text { result.now ≡ self.now }
        ensures spelling { is_account self.now ≡ true }
        ensures within { length self.now ≤ 19 }
    {
        &self.bytes[..self.len]
    }
}

impl Code6 {
    /// The code of a sale that was approved without the host: `OFFLIN`.
    pub fn offline() -> Code6
        ensures { result ≡ codes "OFFLIN" }
    {
        Code6 { bytes: *b"OFFLIN" }
    }

    /// Reads a code. None where the text is no spelling of one.
    pub fn read(text: &[u8]) -> Option<Code6>
        ensures { result ≡ code6_of text.now }
    {
        if spells_code(text) {
            let mut bytes = [0; 6];
            bytes.copy_from_slice(text);
            Some(Code6 { bytes })
        } else {
            None
        }
    }

    /// The characters.
    pub fn as_bytes(&self) -> &[u8]
        ensures text { result.now ≡ self.now }
        ensures spelling { is_code6 self.now ≡ true }
        ensures within { length self.now ≡ 6 }
    {
        &self.bytes
    }
}

impl PartialEq for Ident {
    ghost eq = { bytes_eq };

    ghost laws = { partial_equiv_from_equiv nat_list_eq_equiv };

    fn eq(&self, other: &Ident) -> bool {
        self.as_bytes() == other.as_bytes()
    }
}

impl Eq for Ident {
    ghost laws = { nat_list_eq_equiv };
}

impl PartialEq for Account {
    ghost eq = { bytes_eq };

    ghost laws = { partial_equiv_from_equiv nat_list_eq_equiv };

    fn eq(&self, other: &Account) -> bool {
        self.as_bytes() == other.as_bytes()
    }
}

impl Eq for Account {
    ghost laws = { nat_list_eq_equiv };
}
