ghost use Rattle.std.specs.Prelude.{◌≡◌, IfOk};
ghost use Rattle.cap_leaf.specs.Trees.{data_of, children_view, child, none, value};
ghost use Rattle.cap_leaf.specs.declared.leaf.Leaf.TheVariants.{Num};
ghost use Rattle.cap_fields.specs.Fields.{followed_by, maybe_num};
ghost use Rattle.cap_fields.specs.Refused.{refused_tree as tree_of_refused, refused_in};

use crate::build::{leaves, structure, with};
use crate::codes::{reason_at, reason_code};
use crate::read::num_at;
use cap_base::Memory;
use cap_leaf::{Children, Leaf, Refused, Tree};
use std::alloc::Global;

/// A number at a place after these children, where there is one.
pub fn with_num(children: Children, at: u8, number: Option<u64>) -> Result<Children, Memory>
    ensures { IfOk result (λ cs. children_view cs ≡ followed_by (children_view children) (maybe_num at number none)) }
{
    match number {
        Some(n) => with(children, at, Tree::Leaf(Leaf::Num(n))),
        None => Ok(children),
    }
}

/// Why a message was rejected, as a structure.
pub fn refused_tree(alloc: Global, refused: &Refused) -> Result<Tree, Memory>
    ensures { IfOk result (λ t. data_of t ≡ tree_of_refused refused.now) }
{
    let children = leaves(alloc, &[reason_code(refused.reason)])?;
    let children = with_num(children, 1, refused.expected)?;
    let children = with_num(children, 2, refused.place)?;
    Ok(structure(children))
}

/// Why a message was rejected, by a structure. None where the structure doesn't tell a reason.
pub fn read_refused(tree: &Tree) -> Option<Refused>
    ensures { result ≡ refused_in (data_of tree.now) }
{
    let reason = reason_at(tree, 0)?;
    Some(Refused {
        reason,
        expected: num_at(tree, 1),
        place: num_at(tree, 2),
    })
}
