ghost use Rattle.std.specs.Prelude.{◌≡◌};
ghost use Rattle.cap_mgmt_msgs.specs.declared.body.MgmtBody.{MgmtBody};
ghost use Rattle.cap_mgmt_msgs.specs.Bodies.{mgmt_kind, mgmt_body_tree};

/// Two bodies of one message that have the same tree are the same.
pub fn bodies_are_whole()
    ensures { (a b : MgmtBody) → mgmt_kind a ≡ mgmt_kind b → mgmt_body_tree a ≡ mgmt_body_tree b → a ≡ b }
{}
