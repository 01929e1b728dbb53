ghost use Rattle.std.specs.Prelude.{◌≡◌, IfOk};
ghost use Rattle.cap_leaf.specs.Trees.{data_of};
ghost use Rattle.cap_sale_msgs.specs.Bodies.{sale_kind, ended_tree as tree_of_ended, sale_body_tree};

use crate::body::{Ended, SaleBody};
use cap_base::{Memory, Response};
use cap_fields::{cancel_tree, chosen, record, response_code, sale_tree, void_tree};
use cap_leaf::{Kind, Leaf, Tree};
use std::alloc::Global;

fn ended_tree(alloc: Global, ended: &Ended) -> Result<Tree, Memory>
    ensures { IfOk result (λ t. data_of t ≡ tree_of_ended ended.now) }
{
    match *ended {
        Ended::Sale {
            n,
            amount,
            account,
            code,
        } => {
            let sale = sale_tree(alloc, n, amount, account, code)?;
            chosen(alloc, 0, sale)
        }
        Ended::Void { n } => {
            let void = void_tree(alloc, n)?;
            chosen(alloc, 1, void)
        }
    }
}

fn completion_tree(alloc: Global, ended: &Ended) -> Result<Tree, Memory>
    ensures { IfOk result (λ t. data_of t ≡ sale_body_tree (SaleBody.Completion ended.now)) }
{
    let tx = ended_tree(alloc, ended)?;
    chosen(alloc, 0, tx)
}

fn answer_tree(alloc: Global, response: Response) -> Result<Tree, Memory>
    ensures { IfOk result (λ t. data_of t ≡ sale_body_tree (SaleBody.CompletionAnswer response)) }
{
    record(alloc, &[response_code(response)])
}

impl SaleBody {
    /// The message of this body.
    pub fn kind(&self) -> Kind
        ensures { result ≡ sale_kind self.now }
    {
        match self {
            SaleBody::AuthRequest { .. } => Kind::Caaa001,
            SaleBody::AuthAnswer { .. } => Kind::Caaa002,
            SaleBody::Completion(_) => Kind::Caaa003,
            SaleBody::CompletionAnswer { .. } => Kind::Caaa004,
            SaleBody::CancelRequest { .. } => Kind::Caaa005,
            SaleBody::CancelAnswer { .. } => Kind::Caaa006,
            SaleBody::CancelAdvice { .. } => Kind::Caaa007,
            SaleBody::CancelAdviceAnswer { .. } => Kind::Caaa008,
        }
    }

    /// The tree of the body element. The one refusal is want of memory.
    pub fn to_tree(&self, alloc: Global) -> Result<Tree, Memory>
        ensures { IfOk result (λ t. data_of t ≡ sale_body_tree self.now) }
    {
        match *self {
            SaleBody::AuthRequest { amount, account } => {
                record(alloc, &[Leaf::Amount(amount), Leaf::Account(account)])
            }
            SaleBody::AuthAnswer { response, code } => {
                record(alloc, &[response_code(response), Leaf::Code6(code)])
            }
            SaleBody::Completion(ended) => completion_tree(alloc, &ended),
            SaleBody::CompletionAnswer { response } => answer_tree(alloc, response),
            SaleBody::CancelRequest { amount } => record(alloc, &[Leaf::Amount(amount)]),
            SaleBody::CancelAnswer { response } => answer_tree(alloc, response),
            SaleBody::CancelAdvice { n, amount } => cancel_tree(alloc, n, amount),
            SaleBody::CancelAdviceAnswer { response } => answer_tree(alloc, response),
        }
    }
}
