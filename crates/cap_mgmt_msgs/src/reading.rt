ghost use Rattle.std.specs.Prelude.{◌≡◌, ◌≤◌, true, length, drop, Some, IfOk, IsSome};
ghost use Rattle.cap_leaf.specs.Trees.{data_of, children_view};
ghost use Rattle.cap_fields.specs.Fields.{all_among};
ghost use Rattle.cap_mgmt_msgs.specs.Bodies.{mgmt_kind, is_mgmt_body, mgmt_body_tree};
ghost use Rattle.cap_mgmt_msgs.specs.Shapes.{HasMgmtShape};
ghost use Rattle.cap_mgmt_msgs.specs.Reading.{status_in, action_in, actions_in, row_in, rows_in, part_in, management_rejection_in};

use crate::actions::{Action, Actions};
use crate::body::MgmtBody;
use cap_base::{ConfigPart, Memory, Row, Rows};
use cap_fields::{act_at, children_of, date_at, ident_at, num_at, read_refused, set_at};
use cap_leaf::{Child, Kind, Tree};
use std::alloc::Global;

fn status(tree: &Tree) -> Option<MgmtBody>
    ensures { result ≡ status_in (data_of tree.now) }
{
    let wanted = set_at(tree, 0)?;
    let in_force = num_at(tree, 1)?;
    let staged = num_at(tree, 2)?;
    let parts = num_at(tree, 3)?;
    Some(MgmtBody::Status {
        wanted,
        in_force,
        staged,
        parts,
    })
}

fn action(tree: &Tree) -> Option<Action>
    ensures { result ≡ action_in (data_of tree.now) }
{
    let act = act_at(tree, 0)?;
    let set = set_at(tree, 1)?;
    let start = date_at(tree, 2)?;
    let minutes = num_at(tree, 3)?;
    Some(Action {
        act,
        set,
        start,
        minutes,
    })
}

fn actions(alloc: Global, children: &[Child]) -> Result<Vec<Action>, Memory>
    requires { IsSome (all_among action_in (children_view children.now)) }
    ensures { IfOk result (λ v. all_among action_in (children_view children.now) ≡ Some v.items) }
{
    let mut found = Vec::new(alloc);
    for child in children {
        found.push(action(&child.tree).unwrap())?;
    }
    Ok(found)
}

fn plan(alloc: Global, tree: &Tree) -> Result<Actions, Memory>
    requires { HasMgmtShape Kind.Catm002 (data_of tree.now) }
    ensures { IfOk result (λ list. actions_in (data_of tree.now) ≡ Some list) }
{
    let found = actions(alloc, children_of(tree))?;
    Ok(Actions::new(found).unwrap())
}

fn row(tree: &Tree) -> Option<Row>
    ensures { result ≡ row_in (data_of tree.now) }
{
    let key = ident_at(tree, 0)?;
    let value = ident_at(tree, 1)?;
    Some(Row { key, value })
}

fn rows(alloc: Global, children: &[Child]) -> Result<Vec<Row>, Memory>
    requires { IsSome (all_among row_in (children_view children.now)) }
    ensures { IfOk result (λ v. all_among row_in (children_view children.now) ≡ Some v.items) }
{
    let mut found = Vec::new(alloc);
    for child in children {
        found.push(row(&child.tree).unwrap())?;
    }
    Ok(found)
}

// The children behind the first so many.
fn behind(children: &[Child], count: usize) -> &[Child]
    requires { count ≤ length children.now }
    ensures { result.now ≡ drop count children.now }
{
    &children[count..]
}

fn part_rows(alloc: Global, tree: &Tree) -> Result<Rows, Memory>
    requires { HasMgmtShape Kind.Catm003 (data_of tree.now) }
    ensures { IfOk result (λ list. rows_in (data_of tree.now) ≡ Some list) }
{
    let children = children_of(tree);
    let rest = behind(children, 3);
    let found = rows(alloc, rest)?;
    Ok(Rows::new(found).unwrap())
}

fn part(alloc: Global, tree: &Tree) -> Result<ConfigPart, Memory>
    requires { HasMgmtShape Kind.Catm003 (data_of tree.now) }
    ensures { IfOk result (λ part. part_in (data_of tree.now) ≡ Some (MgmtBody.Part part)) }
{
    let rows = part_rows(alloc, tree)?;
    Ok(ConfigPart {
        version: num_at(tree, 0).unwrap(),
        part: num_at(tree, 1).unwrap(),
        parts: num_at(tree, 2).unwrap(),
        rows,
    })
}

fn rejection(tree: &Tree) -> Option<MgmtBody>
    ensures { result ≡ management_rejection_in (data_of tree.now) }
{
    let refused = read_refused(tree)?;
    Some(MgmtBody::ManagementRejection(refused))
}

impl MgmtBody {
    /// The body of a message by the tree of its body element. The one refusal is want of memory.
    pub fn from_tree(alloc: Global, kind: Kind, tree: &Tree) -> Result<MgmtBody, Memory>
        requires { HasMgmtShape kind (data_of tree.now) }
        ensures kind { IfOk result (λ body. mgmt_kind body ≡ kind) }
        ensures tree { IfOk result (λ body. data_of tree.now ≡ mgmt_body_tree body) }
        ensures range { IfOk result (λ body. is_mgmt_body body ≡ true) }
    {
        match kind {
            Kind::Catm001 => Ok(status(tree).unwrap()),
            Kind::Catm002 => {
                let actions = plan(alloc, tree)?;
                Ok(MgmtBody::Plan(actions))
            }
            Kind::Catm003 => {
                let part = part(alloc, tree)?;
                Ok(MgmtBody::Part(part))
            }
            _ => Ok(rejection(tree).unwrap()),
        }
    }
}
