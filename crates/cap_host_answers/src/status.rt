ghost use Rattle.std.specs.Prelude.{◌≡◌, IfOk};
ghost use Rattle.cap_entries.specs.Log.{published};
ghost use Rattle.cap_manager.specs.Manager.{answer_status};
ghost use Rattle.cap_manager.specs.Reply.{body_of};
ghost use Rattle.cap_host_answers.specs.Answer.{answer_data};

use crate::entries::sets_of;
use crate::plain::{Answer, replies};
use cap_base::{DataSet, Memory, Reason};
use cap_entries::{HostEntry, HostSetup};
use cap_leaf::Refused;
use cap_manager::{ManagerReply, PlanSetup, answer_status};
use cap_mgmt_msgs::MgmtBody;
use cap_msgs::Body;
use std::alloc::Global;

/// The answer that carries what the manager gives.
pub fn given(alloc: Global, reply: ManagerReply) -> Answer
    ensures { result ≡ answer_data (body_of reply) }
{
    let body = match reply {
        ManagerReply::Plan(actions) => MgmtBody::Plan(actions),
        ManagerReply::Part(part) => MgmtBody::Part(part),
        ManagerReply::Nothing => MgmtBody::ManagementRejection(Refused {
            reason: Reason::Unpr,
            expected: None,
            place: None,
        }),
    };
    replies(alloc, Body::Management(body))
}

/// How the plan of a host is set up.
pub fn plan_setup(setup: &HostSetup) -> PlanSetup
    ensures { result ≡ record { poll = setup.now.poll; start = setup.now.start } }
{
    PlanSetup {
        poll: setup.poll(),
        start: setup.start(),
    }
}

// What a status report gets.
pub(crate) fn give(
    alloc: Global,
    entries: &[HostEntry],
    setup: &HostSetup,
    wanted: DataSet,
    in_force: u64,
    staged: u64,
    parts: u64,
) -> Result<Answer, Memory>
    ensures { IfOk result (λ a. a ≡ answer_data (answer_status (published entries.now) setup.now.start setup.now.poll wanted in_force staged parts)) }
{
    let sets = sets_of(alloc, entries)?;
    let plan = plan_setup(setup);
    let reply = answer_status(alloc, &sets, &plan, wanted, in_force, staged, parts)?;
    Ok(given(alloc, reply))
}
