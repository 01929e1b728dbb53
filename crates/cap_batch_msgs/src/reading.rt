ghost use Rattle.std.specs.Prelude.{◌≡◌, true, Some, IfOk, IsSome};
ghost use Rattle.cap_leaf.specs.Trees.{data_of, children_view};
ghost use Rattle.cap_fields.specs.Fields.{all_among};
ghost use Rattle.cap_batch_msgs.specs.Bodies.{batch_kind, is_batch_body, batch_body_tree};
ghost use Rattle.cap_batch_msgs.specs.Shapes.{HasBatchShape};
ghost use Rattle.cap_batch_msgs.specs.Reading.{totals_in, totals_at as totals_of_child, sale_in, void_in, cancel_in, close_in, item_in, items_in, reconcile_in, reconcile_answer_in, rejection_in, diagnostic_in, plain_body_in};

use crate::body::BatchBody;
use crate::items::Items;
use cap_base::{Item, Memory, Totals};
use cap_fields::{
    account_at, amount_at, children_of, code6_at, num_at, read_refused, response_at, sum_at,
    tree_at,
};
use cap_leaf::{Child, Kind, Tree};
use std::alloc::Global;

fn totals(tree: &Tree) -> Option<Totals>
    ensures { result ≡ totals_in (data_of tree.now) }
{
    let sales = num_at(tree, 0)?;
    let sales_sum = sum_at(tree, 1)?;
    let cancels = num_at(tree, 2)?;
    let cancels_sum = sum_at(tree, 3)?;
    Some(Totals {
        sales,
        sales_sum,
        cancels,
        cancels_sum,
    })
}

fn totals_at(tree: &Tree, at: u8) -> Option<Totals>
    ensures { result ≡ totals_of_child (data_of tree.now) at }
{
    match tree_at(tree, at) {
        Some(child) => totals(child),
        None => None,
    }
}

fn sale(tree: &Tree) -> Option<Item>
    ensures { result ≡ sale_in (data_of tree.now) }
{
    let n = num_at(tree, 0)?;
    let amount = amount_at(tree, 1)?;
    let account = account_at(tree, 2)?;
    let code = code6_at(tree, 3)?;
    Some(Item::Sale {
        n,
        amount,
        account,
        code,
    })
}

fn void(tree: &Tree) -> Option<Item>
    ensures { result ≡ void_in (data_of tree.now) }
{
    let n = num_at(tree, 0)?;
    Some(Item::Void { n })
}

fn cancel(tree: &Tree) -> Option<Item>
    ensures { result ≡ cancel_in (data_of tree.now) }
{
    let n = num_at(tree, 0)?;
    let amount = amount_at(tree, 1)?;
    Some(Item::Cancel { n, amount })
}

fn close(tree: &Tree) -> Option<Item>
    ensures { result ≡ close_in (data_of tree.now) }
{
    let p = num_at(tree, 0)?;
    let totals = totals_at(tree, 1)?;
    Some(Item::Close { p, totals })
}

fn item(tree: &Tree) -> Option<Item>
    ensures { result ≡ item_in (data_of tree.now) }
{
    match tree_at(tree, 0) {
        Some(child) => sale(child),
        None => match tree_at(tree, 1) {
            Some(child) => void(child),
            None => match tree_at(tree, 2) {
                Some(child) => cancel(child),
                None => match tree_at(tree, 3) {
                    Some(child) => close(child),
                    None => None,
                },
            },
        },
    }
}

fn items(alloc: Global, children: &[Child]) -> Result<Vec<Item>, Memory>
    requires { IsSome (all_among item_in (children_view children.now)) }
    ensures { IfOk result (λ v. all_among item_in (children_view children.now) ≡ Some v.items) }
{
    let mut found = Vec::new(alloc);
    for child in children {
        found.push(item(&child.tree).unwrap())?;
    }
    Ok(found)
}

fn batch(alloc: Global, tree: &Tree) -> Result<Items, Memory>
    requires { HasBatchShape Kind.Caaa011 (data_of tree.now) }
    ensures { IfOk result (λ list. items_in (data_of tree.now) ≡ Some list) }
{
    let found = items(alloc, children_of(tree))?;
    Ok(Items::new(found).unwrap())
}

fn reconcile(tree: &Tree) -> Option<BatchBody>
    ensures { result ≡ reconcile_in (data_of tree.now) }
{
    let period = num_at(tree, 0)?;
    let totals = totals_at(tree, 1)?;
    Some(BatchBody::Reconcile { period, totals })
}

fn reconcile_answer(tree: &Tree) -> Option<BatchBody>
    ensures { result ≡ reconcile_answer_in (data_of tree.now) }
{
    let response = response_at(tree, 0)?;
    let period = num_at(tree, 1)?;
    let totals = totals_at(tree, 2)?;
    Some(BatchBody::ReconcileAnswer {
        response,
        period,
        totals,
    })
}

// The body that a body element tells, field by field, where it is no batch.
fn plain_body(kind: Kind, tree: &Tree) -> Option<BatchBody>
    ensures { result ≡ plain_body_in kind (data_of tree.now) }
{
    match kind {
        Kind::Caaa009 => reconcile(tree),
        Kind::Caaa010 => reconcile_answer(tree),
        Kind::Caaa012 => {
            let response = response_at(tree, 0)?;
            let last = num_at(tree, 1)?;
            Some(BatchBody::BatchAnswer { response, last })
        }
        Kind::Caaa013 => {
            let last = num_at(tree, 0)?;
            Some(BatchBody::Diagnostic { last })
        }
        Kind::Caaa014 => {
            let response = response_at(tree, 0)?;
            let last = num_at(tree, 1)?;
            Some(BatchBody::DiagnosticAnswer { response, last })
        }
        Kind::Caaa015 => {
            let refused = read_refused(tree)?;
            Some(BatchBody::Rejection(refused))
        }
        _ => None,
    }
}

impl BatchBody {
    /// The body of a message by the tree of its body element. The one refusal is want of memory.
    pub fn from_tree(alloc: Global, kind: Kind, tree: &Tree) -> Result<BatchBody, Memory>
        requires { HasBatchShape kind (data_of tree.now) }
        ensures kind { IfOk result (λ body. batch_kind body ≡ kind) }
        ensures tree { IfOk result (λ body. data_of tree.now ≡ batch_body_tree body) }
        ensures range { IfOk result (λ body. is_batch_body body ≡ true) }
    {
        match kind {
            Kind::Caaa011 => {
                let items = batch(alloc, tree)?;
                Ok(BatchBody::Batch(items))
            }
            _ => Ok(plain_body(kind, tree).unwrap()),
        }
    }
}
