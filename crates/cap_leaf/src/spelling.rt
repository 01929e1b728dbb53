ghost use Rattle.std.specs.Prelude.{◌≡◌, true, IfSome, Some};
ghost use Rattle.cap_leaf.specs.Spelling.{leaf_of, is_kind, is_leaf, IsLeafOf};

use crate::codes::{codes, place};
use crate::date_text::read_date_time;
use crate::kinds::{CodeList, LeafKind};
use crate::leaf::Leaf;
use cap_base::{Account, Amount, Code6, Ident, read_decimal, read_number};

// The code of a list that a text is.
fn read_code(list: CodeList, text: &[u8]) -> Option<Leaf>
    requires { is_kind (LeafKind.Code list) ≡ true }
    ensures value { result ≡ leaf_of (LeafKind.Code list) text.now }
    ensures kind { IfSome result (IsLeafOf (LeafKind.Code list)) }
    ensures range { IfSome result (λ x. is_leaf x ≡ true) }
{
    match place(codes(list), text) {
        Some(at) => Some(Leaf::Code { list, at: at as u8 }),
        None => None,
    }
}

/// The leaf that a text spells as a kind. None exactly where the whole text is no spelling of the kind.
pub fn leaf_read(kind: LeafKind, text: &[u8]) -> Option<Leaf>
    requires { is_kind kind ≡ true }
    ensures value { result ≡ leaf_of kind text.now }
    ensures kind { IfSome result (IsLeafOf kind) }
    ensures range { IfSome result (λ x. is_leaf x ≡ true) }
{
    match kind {
        LeafKind::Num(most) => read_number(text, most as usize).map(Leaf::Num),
        LeafKind::Amount => Amount::read(text).map(Leaf::Amount),
        LeafKind::Sum => read_decimal(text, 17).map(Leaf::Sum),
        LeafKind::Ident => Ident::read(text).map(Leaf::Ident),
        LeafKind::Account => Account::read(text).map(Leaf::Account),
        LeafKind::Code6 => Code6::read(text).map(Leaf::Code6),
        LeafKind::DateTime => read_date_time(text).map(Leaf::DateTime),
        LeafKind::Code(list) => read_code(list, text),
    }
}
