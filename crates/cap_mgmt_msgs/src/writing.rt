ghost use Rattle.std.specs.Prelude.{◌≡◌, IfOk, OnOk, map};
ghost use Rattle.cap_leaf.specs.Trees.{data_of, children_view, branch};
ghost use Rattle.cap_fields.specs.Fields.{followed_by, repeated};
ghost use Rattle.cap_base.specs.Rows.{IsPartRows};
ghost use Rattle.cap_mgmt_msgs.specs.Shapes.{HasFewParts};
ghost use Rattle.cap_mgmt_msgs.specs.Bodies.{mgmt_kind, action_tree as tree_of_action, row_tree as tree_of_row, part_tree as tree_of_part, mgmt_body_tree};

use crate::actions::Action;
use crate::body::MgmtBody;
use cap_base::{ConfigPart, DataSet, Memory, Row};
use cap_fields::{act_code, leaves, record, refused_tree, set_code, structure, wanted_code, with};
use cap_leaf::{Children, Kind, Leaf, Tree};
use std::alloc::Global;

fn status_tree(
    alloc: Global,
    wanted: DataSet,
    in_force: u64,
    staged: u64,
    parts: u64,
) -> Result<Tree, Memory>
    ensures { IfOk result (λ t. data_of t ≡ mgmt_body_tree (MgmtBody.Status wanted in_force staged parts)) }
{
    record(
        alloc,
        &[
            wanted_code(wanted),
            Leaf::Num(in_force),
            Leaf::Num(staged),
            Leaf::Num(parts),
        ],
    )
}

fn action_tree(alloc: Global, action: &Action) -> Result<Tree, Memory>
    ensures { IfOk result (λ t. data_of t ≡ tree_of_action action.now) }
{
    record(
        alloc,
        &[
            act_code(action.act),
            set_code(action.set),
            Leaf::DateTime(action.start),
            Leaf::Num(action.minutes),
        ],
    )
}

fn actions_tree(alloc: Global, actions: &[Action]) -> Result<Tree, Memory>
    ensures { IfOk result (λ t. data_of t ≡ branch (repeated 0 (map tree_of_action actions.now))) }
{
    let mut children = Children::new(alloc);
    for action in actions {
        let tree = action_tree(alloc, action)?;
        children = with(children, 0, tree)?;
    }
    Ok(structure(children))
}

fn row_tree(alloc: Global, row: &Row) -> Result<Tree, Memory>
    ensures { IfOk result (λ t. data_of t ≡ tree_of_row row.now) }
{
    record(alloc, &[Leaf::Ident(row.key), Leaf::Ident(row.value)])
}

// Rows after these children.
fn with_rows(alloc: Global, before: Children, rows: &[Row]) -> Result<Children, Memory>
    ensures { IfOk result (λ cs. children_view cs ≡ followed_by (children_view before) (repeated 3 (map tree_of_row rows.now))) }
{
    let mut children = before;
    for row in rows {
        let tree = row_tree(alloc, row)?;
        children = with(children, 3, tree)?;
    }
    Ok(children)
}

fn part_tree(alloc: Global, part: &ConfigPart) -> Result<Tree, Memory>
    ensures tree { IfOk result (λ t. data_of t ≡ tree_of_part part.now) }
    ensures few { OnOk result (IsPartRows part.now.rows) }
{
    let children = leaves(
        alloc,
        &[
            Leaf::Num(part.version),
            Leaf::Num(part.part),
            Leaf::Num(part.parts),
        ],
    )?;
    let children = with_rows(alloc, children, part.rows.as_slice())?;
    Ok(structure(children))
}

impl MgmtBody {
    /// The message of this body.
    pub fn kind(&self) -> Kind
        ensures { result ≡ mgmt_kind self.now }
    {
        match self {
            MgmtBody::Status { .. } => Kind::Catm001,
            MgmtBody::Plan(_) => Kind::Catm002,
            MgmtBody::Part(_) => Kind::Catm003,
            MgmtBody::ManagementRejection(_) => Kind::Catm004,
        }
    }

    /// The tree of the body element. The one refusal is want of memory.
    pub fn to_tree(&self, alloc: Global) -> Result<Tree, Memory>
        ensures tree { IfOk result (λ t. data_of t ≡ mgmt_body_tree self.now) }
        ensures few { OnOk result (HasFewParts self.now) }
    {
        match self {
            MgmtBody::Status {
                wanted,
                in_force,
                staged,
                parts,
            } => status_tree(alloc, *wanted, *in_force, *staged, *parts),
            MgmtBody::Plan(actions) => actions_tree(alloc, actions.as_slice()),
            MgmtBody::Part(part) => part_tree(alloc, part),
            MgmtBody::ManagementRejection(refused) => refused_tree(alloc, refused),
        }
    }
}
