ghost use Rattle.std.specs.Prelude.{◌≡◌, ◌↔◌, IsSome, IfSome};
ghost use Rattle.cap_mgmt_msgs.specs.Actions.{IsPlan};

use cap_base::{DataSet, PlanAct};
use cap_leaf::DateTime;
use std::alloc::AllocError;
use std::marker::Model;

/// A planned action: what it does with which set of data, from when on, and how many minutes lie between two times (0: it is done once).
#[derive(Clone, Copy, Debug, PartialEq, Eq)]
pub struct Action {
    pub act: PlanAct,
    pub set: DataSet,
    pub start: DateTime,
    pub minutes: u64,
}

/// The actions of a plan, 1 to 8.
#[derive(Debug, Drop)]
pub struct Actions {
    actions: Vec<Action>,
}

impl Model for Actions {
    ghost use Rattle.std.specs.Prelude.{List};
    ghost use Rattle.cap_mgmt_msgs.specs.declared.actions.Action.{Action};
    ghost use Rattle.cap_mgmt_msgs.specs.Actions.{IsPlan};

    ghost Value = { List Action };

    ghost view = { λ s. s.actions.items };

    ghost invariant = { λ s. IsPlan s.actions.items };
}

impl Actions {
    ghost use Rattle.cap_mgmt_msgs.specs.Actions.{IsPlan};

    /// These actions, where there are 1 to 8.
    pub fn new(actions: Vec<Action>) -> Option<Actions>
        ensures exact { IsSome result ↔ IsPlan actions.items }
        ensures value { IfSome result (λ s. s ≡ actions.items) }
    {
        if 1 <= actions.len() && actions.len() <= 8 {
            Some(Actions { actions })
        } else {
            None
        }
    }

    /// The actions, in order.
    pub fn as_slice(&self) -> &[Action]
        ensures actions { result.now ≡ self.now }
        ensures few { IsPlan self.now }
    {
        &self.actions
    }
}

impl Clone for Actions {
    ghost is_clone = { λ a b. b ≡ a };

    fn clone(&self) -> Result<Actions, AllocError> {
        let actions = self.actions.clone()?;
        Ok(Actions { actions })
    }
}
