ghost use Rattle.std.specs.Prelude.{◌≡◌, true, IfOk, IsOk};
ghost use Rattle.cap_leaf.specs.Trees.{data_of};
ghost use Rattle.cap_sale_msgs.specs.Bodies.{sale_kind, is_sale_body, sale_body_tree};
ghost use Rattle.cap_sale_msgs.specs.Shapes.{HasSaleShape};
ghost use Rattle.cap_sale_msgs.specs.Reading.{auth_request_in, auth_answer_in, ended_sale_in, ended_void_in, ended_in, completion_in, cancel_request_in, cancel_advice_in, sale_body_in};

use crate::body::{Ended, SaleBody};
use cap_base::Memory;
use cap_fields::{account_at, amount_at, code6_at, num_at, response_at, tree_at};
use cap_leaf::{Kind, Tree};

fn auth_request(tree: &Tree) -> Option<SaleBody>
    ensures { result ≡ auth_request_in (data_of tree.now) }
{
    let amount = amount_at(tree, 0)?;
    let account = account_at(tree, 1)?;
    Some(SaleBody::AuthRequest { amount, account })
}

fn auth_answer(tree: &Tree) -> Option<SaleBody>
    ensures { result ≡ auth_answer_in (data_of tree.now) }
{
    let response = response_at(tree, 0)?;
    let code = code6_at(tree, 1)?;
    Some(SaleBody::AuthAnswer { response, code })
}

fn ended_sale(tree: &Tree) -> Option<Ended>
    ensures { result ≡ ended_sale_in (data_of tree.now) }
{
    let n = num_at(tree, 0)?;
    let amount = amount_at(tree, 1)?;
    let account = account_at(tree, 2)?;
    let code = code6_at(tree, 3)?;
    Some(Ended::Sale {
        n,
        amount,
        account,
        code,
    })
}

fn ended_void(tree: &Tree) -> Option<Ended>
    ensures { result ≡ ended_void_in (data_of tree.now) }
{
    let n = num_at(tree, 0)?;
    Some(Ended::Void { n })
}

fn ended(tree: &Tree) -> Option<Ended>
    ensures { result ≡ ended_in (data_of tree.now) }
{
    match tree_at(tree, 0) {
        Some(sale) => ended_sale(sale),
        None => match tree_at(tree, 1) {
            Some(void) => ended_void(void),
            None => None,
        },
    }
}

fn completion(tree: &Tree) -> Option<SaleBody>
    ensures { result ≡ completion_in (data_of tree.now) }
{
    match tree_at(tree, 0) {
        Some(tx) => {
            let ended = ended(tx)?;
            Some(SaleBody::Completion(ended))
        }
        None => None,
    }
}

fn cancel_request(tree: &Tree) -> Option<SaleBody>
    ensures { result ≡ cancel_request_in (data_of tree.now) }
{
    let amount = amount_at(tree, 0)?;
    Some(SaleBody::CancelRequest { amount })
}

fn cancel_advice(tree: &Tree) -> Option<SaleBody>
    ensures { result ≡ cancel_advice_in (data_of tree.now) }
{
    let n = num_at(tree, 0)?;
    let amount = amount_at(tree, 1)?;
    Some(SaleBody::CancelAdvice { n, amount })
}

// The body that a body element tells, field by field.
fn read(kind: Kind, tree: &Tree) -> Option<SaleBody>
    ensures { result ≡ sale_body_in kind (data_of tree.now) }
{
    match kind {
        Kind::Caaa001 => auth_request(tree),
        Kind::Caaa002 => auth_answer(tree),
        Kind::Caaa003 => completion(tree),
        Kind::Caaa004 => {
            let response = response_at(tree, 0)?;
            Some(SaleBody::CompletionAnswer { response })
        }
        Kind::Caaa005 => cancel_request(tree),
        Kind::Caaa006 => {
            let response = response_at(tree, 0)?;
            Some(SaleBody::CancelAnswer { response })
        }
        Kind::Caaa007 => cancel_advice(tree),
        Kind::Caaa008 => {
            let response = response_at(tree, 0)?;
            Some(SaleBody::CancelAdviceAnswer { response })
        }
        _ => None,
    }
}

impl SaleBody {
    /// The body of a message by the tree of its body element. It never refuses, since nothing is allocated here.
    pub fn from_tree(kind: Kind, tree: &Tree) -> Result<SaleBody, Memory>
        requires { HasSaleShape kind (data_of tree.now) }
        ensures ok { IsOk result }
        ensures kind { IfOk result (λ body. sale_kind body ≡ kind) }
        ensures tree { IfOk result (λ body. data_of tree.now ≡ sale_body_tree body) }
        ensures range { IfOk result (λ body. is_sale_body body ≡ true) }
    {
        Ok(read(kind, tree).unwrap())
    }
}
