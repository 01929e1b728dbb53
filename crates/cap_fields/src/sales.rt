ghost use Rattle.std.specs.Prelude.{◌≡◌, IfOk};
ghost use Rattle.cap_leaf.specs.Trees.{data_of};
ghost use Rattle.cap_fields.specs.Sales.{sale_tree as tree_of_sale, void_tree as tree_of_void, cancel_tree as tree_of_cancel, chosen as chosen_tree};

use crate::build::{record, structure, with};
use cap_base::{Account, Amount, Code6, Memory};
use cap_leaf::{Leaf, Tree};
use sqlite_items::Items;
use std::alloc::Global;

/// A completed sale as a structure.
pub fn sale_tree(
    alloc: Global,
    n: u64,
    amount: Amount,
    account: Account,
    code: Code6,
) -> Result<Tree, Memory>
    ensures { IfOk result (λ t. data_of t ≡ tree_of_sale n amount account code) }
{
    record(
        alloc,
        &[
            Leaf::Num(n),
            Leaf::Amount(amount),
            Leaf::Account(account),
            Leaf::Code6(code),
        ],
    )
}

/// A sale that was given up, as a structure.
pub fn void_tree(alloc: Global, n: u64) -> Result<Tree, Memory>
    ensures { IfOk result (λ t. data_of t ≡ tree_of_void n) }
{
    record(alloc, &[Leaf::Num(n)])
}

/// A cancelled sale as a structure.
pub fn cancel_tree(alloc: Global, n: u64, amount: Amount) -> Result<Tree, Memory>
    ensures { IfOk result (λ t. data_of t ≡ tree_of_cancel n amount) }
{
    record(alloc, &[Leaf::Num(n), Leaf::Amount(amount)])
}

/// A structure of one child, at the place of its row.
pub fn chosen(alloc: Global, at: u8, tree: Tree) -> Result<Tree, Memory>
    ensures { IfOk result (λ t. data_of t ≡ chosen_tree at (data_of tree)) }
{
    let children = with(Items::new(alloc), at, tree)?;
    Ok(structure(children))
}
