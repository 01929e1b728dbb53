// Leaves by their kinds.
ghost use Rattle.std.specs.Prelude.{◌≡◌, true, IfSome};
ghost use Rattle.cap_leaf.specs.Spelling.{is_kind, is_leaf};

use crate::tables::kind_of;
use crate::words::{none, shown};
use cap_leaf::{CodeList, DateTime, Leaf, LeafKind, leaf_read, leaf_write};
use std::alloc::{AllocError, Global};

fn plain_kind(word: &str) -> Option<LeafKind>
    ensures { IfSome result (λ kind. is_kind kind ≡ true) }
{
    match word {
        "num10" => Some(LeafKind::Num(10)),
        "num3" => Some(LeafKind::Num(3)),
        "amount" => Some(LeafKind::Amount),
        "sum" => Some(LeafKind::Sum),
        _ => None,
    }
}

fn named_kind(word: &str) -> Option<LeafKind>
    ensures { IfSome result (λ kind. is_kind kind ≡ true) }
{
    match word {
        "ident" => Some(LeafKind::Ident),
        "account" => Some(LeafKind::Account),
        "code6" => Some(LeafKind::Code6),
        "date" => Some(LeafKind::DateTime),
        _ => None,
    }
}

fn listed_kind(word: &str) -> Option<LeafKind>
    ensures { IfSome result (λ kind. is_kind kind ≡ true) }
{
    match word {
        "response" => Some(LeafKind::Code(CodeList::Response)),
        "reason" => Some(LeafKind::Code(CodeList::Reason)),
        "wanted" => Some(LeafKind::Code(CodeList::Wanted)),
        "set" => Some(LeafKind::Code(CodeList::AnySet)),
        "act" => Some(LeafKind::Code(CodeList::Act)),
        "protocol" => Some(LeafKind::Code(CodeList::Protocol(1))),
        _ => None,
    }
}

// The function of a message.
fn function_kind(word: &str) -> Option<LeafKind>
    ensures { IfSome result (λ kind. is_kind kind ≡ true) }
{
    match kind_of(word) {
        Some(kind) => Some(LeafKind::Code(CodeList::Function(kind))),
        None => None,
    }
}

fn leaf_kind(word: &str) -> Option<LeafKind>
    ensures { IfSome result (λ kind. is_kind kind ≡ true) }
{
    match plain_kind(word) {
        Some(kind) => Some(kind),
        None => match named_kind(word) {
            Some(kind) => Some(kind),
            None => match listed_kind(word) {
                Some(kind) => Some(kind),
                None => function_kind(word),
            },
        },
    }
}

// The canonical spelling of a leaf; of a code its place in its list, from 0, besides.
fn written(alloc: Global, leaf: &Leaf) -> Result<String, AllocError>
    requires { is_leaf leaf.now ≡ true }
{
    let mut out = [0; 40];
    let len = leaf_write(leaf, &mut out);
    let text = shown(alloc, &out[..len])?;
    match *leaf {
        Leaf::Code { at, .. } => format!(in alloc; "{text} at {at}"),
        _ => Ok(text),
    }
}

/// A text as a leaf of a kind.
pub(crate) fn leaf(alloc: Global, word: &str, text: &[u8]) -> Result<String, AllocError> {
    match leaf_kind(word) {
        Some(kind) => match leaf_read(kind, text) {
            Some(leaf) => written(alloc, &leaf),
            None => none(alloc),
        },
        None => String::from_str(alloc, "no kind"),
    }
}

/// The date and time of a moment.
pub(crate) fn utc(alloc: Global, text: &str) -> Result<String, AllocError> {
    let moment = text.parse::<u64>().unwrap_or(u64::MAX);
    if moment <= 253_402_300_799 {
        written(alloc, &Leaf::DateTime(DateTime::utc(moment)))
    } else {
        none(alloc)
    }
}
