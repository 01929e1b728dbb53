ghost use Rattle.std.specs.Prelude.{◌≡◌, ◌≤◌, IfOk, length, slice_get, ◌-◌};
ghost use Rattle.cap_mgmt_msgs.specs.declared.body.MgmtBody.TheVariants.{Plan};
ghost use Rattle.cap_manager.specs.Manager.{parts_of, part_of_set, plan_of, next_part, newest_part, answer_status};
ghost use Rattle.cap_manager.specs.Reply.{body_of};

use crate::reply::{ManagerReply, PlanSetup};
use cap_base::{ConfigPart, DataSet, Memory, PlanAct, Row, Rows};
use cap_entries::RowSet;
use cap_mgmt_msgs::{Action, Actions};
use std::alloc::Global;

const ROWS_IN_A_PART: usize = 16;

fn count_parts(rows: &[Row]) -> u64
    requires { length rows.now ≤ 256 }
    ensures { result ≡ parts_of rows.now }
{
    (rows.len() as u64 + 15) / 16
}

// The number of the part that comes next.
fn part_after(version: u64, rows: &[Row], staged: u64, parts: u64) -> u64
    requires some { 1 ≤ length rows.now }
    requires few { length rows.now ≤ 256 }
    ensures value { result ≡ next_part version rows.now staged parts }
    ensures low { 1 ≤ result }
    ensures high { result ≤ parts_of rows.now }
{
    if staged == version && parts < count_parts(rows) {
        parts + 1
    } else {
        1
    }
}

// Part number `part` of a set.
fn make_part(alloc: Global, version: u64, rows: &[Row], part: u64) -> Result<ConfigPart, Memory>
    requires few { length rows.now ≤ 256 }
    requires low { 1 ≤ part }
    requires high { part ≤ parts_of rows.now }
    ensures { IfOk result (λ made. made ≡ part_of_set version rows.now part) }
{
    let start = ROWS_IN_A_PART * (part - 1) as usize;
    let rest = &rows[start..];
    let count = rest.len().min(ROWS_IN_A_PART);
    match Rows::new(rest[..count].to_vec(alloc)?) {
        Some(own) => Ok(ConfigPart {
            version,
            part,
            parts: count_parts(rows),
            rows: own,
        }),
        None => unreachable!(),
    }
}

fn action(plan: &PlanSetup, act: PlanAct, set: DataSet) -> Action
    ensures { result ≡ record { act = act; set = set; start = plan.now.start; minutes = plan.now.poll } }
{
    Action {
        act,
        set,
        start: plan.start,
        minutes: plan.poll,
    }
}

fn make_plan(alloc: Global, plan: &PlanSetup) -> Result<ManagerReply, Memory>
    ensures { IfOk result (λ reply. body_of reply ≡ Some (Plan (plan_of plan.now.start plan.now.poll))) }
{
    let download = action(plan, PlanAct::Dwnl, DataSet::Aqpr);
    let upload = action(plan, PlanAct::Upld, DataSet::Strp);
    match Actions::new(vec![in alloc; download, upload]?) {
        Some(actions) => Ok(ManagerReply::Plan(actions)),
        None => unreachable!(),
    }
}

// The part that comes next of a set with this version.
fn give_part(
    alloc: Global,
    version: u64,
    set: &RowSet,
    staged: u64,
    parts: u64,
) -> Result<ConfigPart, Memory>
    ensures { IfOk result (λ made. made ≡ part_of_set version set.now (next_part version set.now staged parts)) }
{
    let rows = set.as_slice();
    let part = part_after(version, rows, staged, parts);
    make_part(alloc, version, rows, part)
}

// A part of the newest set, where there is one and the terminal has an older one in force.
fn give_newer(
    alloc: Global,
    sets: &[RowSet],
    in_force: u64,
    staged: u64,
    parts: u64,
) -> Result<ManagerReply, Memory>
    ensures { IfOk result (λ reply. body_of reply ≡ newest_part (length sets.now) (slice_get sets.now (length sets.now - 1)) in_force staged parts) }
{
    let version = sets.len() as u64;
    match sets.last() {
        Some(set) if in_force < version => Ok(ManagerReply::Part(give_part(
            alloc, version, set, staged, parts,
        )?)),
        _ => Ok(ManagerReply::Nothing),
    }
}

/// What a report gets that asks for this data, from a manager that published these sets, oldest first; the version of a set is its number from 1.
/// A report that asks for the plan gets it. One that asks for parameters gets nothing where there is no set, or it has the newest or a later one
/// in force; else a part of the newest: the one behind the parts of it that it has, or the first. No other data is given.
pub fn answer_status(
    alloc: Global,
    sets: &[RowSet],
    plan: &PlanSetup,
    wanted: DataSet,
    in_force: u64,
    staged: u64,
    parts: u64,
) -> Result<ManagerReply, Memory>
    ensures { IfOk result (λ reply. body_of reply ≡ answer_status sets.now plan.now.start plan.now.poll wanted in_force staged parts) }
{
    match wanted {
        DataSet::Aqpr => give_newer(alloc, sets, in_force, staged, parts),
        DataSet::Mgtp => make_plan(alloc, plan),
        DataSet::Strp => Ok(ManagerReply::Nothing),
    }
}
