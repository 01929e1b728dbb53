ghost use Rattle.std.specs.Prelude.{◌≡◌, true, IfOk, OnOk};
ghost use Rattle.cap_leaf.specs.Trees.{data_of};
ghost use Rattle.cap_msgs.specs.Family.{family_of};
ghost use Rattle.cap_msgs.specs.Trees.{body_kind, body_tree};
ghost use Rattle.cap_msgs.specs.Ranges.{is_body, HasFew};
ghost use Rattle.cap_msgs.specs.Shapes.{HasShape};

use crate::family::Family;
use crate::message::Body;
use cap_base::Memory;
use cap_batch_msgs::BatchBody;
use cap_leaf::{Kind, Tree};
use cap_mgmt_msgs::MgmtBody;
use cap_sale_msgs::SaleBody;
use std::alloc::Global;

fn family(kind: Kind) -> Family
    ensures { result ≡ family_of kind }
{
    match kind {
        Kind::Caaa001 => Family::Sale,
        Kind::Caaa002 => Family::Sale,
        Kind::Caaa003 => Family::Sale,
        Kind::Caaa004 => Family::Sale,
        Kind::Caaa005 => Family::Sale,
        Kind::Caaa006 => Family::Sale,
        Kind::Caaa007 => Family::Sale,
        Kind::Caaa008 => Family::Sale,
        Kind::Catm001 => Family::Management,
        Kind::Catm002 => Family::Management,
        Kind::Catm003 => Family::Management,
        Kind::Catm004 => Family::Management,
        _ => Family::Batch,
    }
}

impl Body {
    /// Which of the nineteen messages this is the body of.
    pub fn kind(&self) -> Kind
        ensures { result ≡ body_kind self.now }
    {
        match self {
            Body::Sale(body) => body.kind(),
            Body::Batch(body) => body.kind(),
            Body::Management(body) => body.kind(),
        }
    }

    /// The tree of the body element. The one refusal is want of memory.
    pub fn to_tree(&self, alloc: Global) -> Result<Tree, Memory>
        ensures tree { IfOk result (λ t. data_of t ≡ body_tree self.now) }
        ensures few { OnOk result (HasFew self.now) }
    {
        match self {
            Body::Sale(body) => body.to_tree(alloc),
            Body::Batch(body) => body.to_tree(alloc),
            Body::Management(body) => body.to_tree(alloc),
        }
    }

    /// The body of a message by the tree of its body element. The one refusal is want of memory.
    pub fn from_tree(alloc: Global, kind: Kind, tree: &Tree) -> Result<Body, Memory>
        requires { HasShape kind (data_of tree.now) }
        ensures kind { IfOk result (λ body. body_kind body ≡ kind) }
        ensures tree { IfOk result (λ body. data_of tree.now ≡ body_tree body) }
        ensures range { IfOk result (λ body. is_body body ≡ true) }
    {
        match family(kind) {
            Family::Sale => {
                let body = SaleBody::from_tree(kind, tree)?;
                Ok(Body::Sale(body))
            }
            Family::Batch => {
                let body = BatchBody::from_tree(alloc, kind, tree)?;
                Ok(Body::Batch(body))
            }
            Family::Management => {
                let body = MgmtBody::from_tree(alloc, kind, tree)?;
                Ok(Body::Management(body))
            }
        }
    }
}
