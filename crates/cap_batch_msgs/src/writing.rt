ghost use Rattle.std.specs.Prelude.{◌≡◌, IfOk, OnOk, map};
ghost use Rattle.cap_leaf.specs.Trees.{data_of, branch};
ghost use Rattle.cap_fields.specs.Fields.{repeated};
ghost use Rattle.cap_batch_msgs.specs.Shapes.{HasFewItems};
ghost use Rattle.cap_batch_msgs.specs.Bodies.{batch_kind, totals_tree as tree_of_totals, period_tree as tree_of_period, item_tree as tree_of_item, batch_body_tree};

use crate::body::BatchBody;
use cap_base::{Item, Memory, Response, Totals};
use cap_fields::{
    cancel_tree, chosen, leaves, record, refused_tree, response_code, sale_tree, structure,
    void_tree, with,
};
use cap_leaf::{Children, Kind, Leaf, Tree};
use std::alloc::Global;

fn totals_tree(alloc: Global, totals: &Totals) -> Result<Tree, Memory>
    ensures { IfOk result (λ t. data_of t ≡ tree_of_totals totals.now) }
{
    record(
        alloc,
        &[
            Leaf::Num(totals.sales),
            Leaf::Sum(totals.sales_sum),
            Leaf::Num(totals.cancels),
            Leaf::Sum(totals.cancels_sum),
        ],
    )
}

fn period_tree(alloc: Global, period: u64, totals: &Totals) -> Result<Tree, Memory>
    ensures { IfOk result (λ t. data_of t ≡ tree_of_period period totals.now) }
{
    let sums = totals_tree(alloc, totals)?;
    let children = leaves(alloc, &[Leaf::Num(period)])?;
    let children = with(children, 1, sums)?;
    Ok(structure(children))
}

fn period_answer_tree(
    alloc: Global,
    response: Response,
    period: u64,
    totals: &Totals,
) -> Result<Tree, Memory>
    ensures { IfOk result (λ t. data_of t ≡ batch_body_tree (BatchBody.ReconcileAnswer response period totals.now)) }
{
    let sums = totals_tree(alloc, totals)?;
    let children = leaves(alloc, &[response_code(response), Leaf::Num(period)])?;
    let children = with(children, 2, sums)?;
    Ok(structure(children))
}

fn item_tree(alloc: Global, item: &Item) -> Result<Tree, Memory>
    ensures { IfOk result (λ t. data_of t ≡ tree_of_item item.now) }
{
    match *item {
        Item::Sale {
            n,
            amount,
            account,
            code,
        } => {
            let sale = sale_tree(alloc, n, amount, account, code)?;
            chosen(alloc, 0, sale)
        }
        Item::Void { n } => {
            let void = void_tree(alloc, n)?;
            chosen(alloc, 1, void)
        }
        Item::Cancel { n, amount } => {
            let cancel = cancel_tree(alloc, n, amount)?;
            chosen(alloc, 2, cancel)
        }
        Item::Close { p, totals } => {
            let close = period_tree(alloc, p, &totals)?;
            chosen(alloc, 3, close)
        }
    }
}

fn items_tree(alloc: Global, items: &[Item]) -> Result<Tree, Memory>
    ensures { IfOk result (λ t. data_of t ≡ branch (repeated 0 (map tree_of_item items.now))) }
{
    let mut children = Children::new(alloc);
    for item in items {
        let tree = item_tree(alloc, item)?;
        children = with(children, 0, tree)?;
    }
    Ok(structure(children))
}

fn last_tree(alloc: Global, response: Response, last: u64) -> Result<Tree, Memory>
    ensures { IfOk result (λ t. data_of t ≡ batch_body_tree (BatchBody.BatchAnswer response last)) }
{
    record(alloc, &[response_code(response), Leaf::Num(last)])
}

impl BatchBody {
    /// The message of this body.
    pub fn kind(&self) -> Kind
        ensures { result ≡ batch_kind self.now }
    {
        match self {
            BatchBody::Reconcile { .. } => Kind::Caaa009,
            BatchBody::ReconcileAnswer { .. } => Kind::Caaa010,
            BatchBody::Batch(_) => Kind::Caaa011,
            BatchBody::BatchAnswer { .. } => Kind::Caaa012,
            BatchBody::Diagnostic { .. } => Kind::Caaa013,
            BatchBody::DiagnosticAnswer { .. } => Kind::Caaa014,
            BatchBody::Rejection(_) => Kind::Caaa015,
        }
    }

    /// The tree of the body element. The one refusal is want of memory.
    pub fn to_tree(&self, alloc: Global) -> Result<Tree, Memory>
        ensures tree { IfOk result (λ t. data_of t ≡ batch_body_tree self.now) }
        ensures few { OnOk result (HasFewItems self.now) }
    {
        match self {
            BatchBody::Reconcile { period, totals } => period_tree(alloc, *period, totals),
            BatchBody::ReconcileAnswer {
                response,
                period,
                totals,
            } => period_answer_tree(alloc, *response, *period, totals),
            BatchBody::Batch(items) => items_tree(alloc, items.as_slice()),
            BatchBody::BatchAnswer { response, last } => last_tree(alloc, *response, *last),
            BatchBody::Diagnostic { last } => record(alloc, &[Leaf::Num(*last)]),
            BatchBody::DiagnosticAnswer { response, last } => last_tree(alloc, *response, *last),
            BatchBody::Rejection(refused) => refused_tree(alloc, refused),
        }
    }
}
