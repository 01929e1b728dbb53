ghost use Rattle.std.specs.Prelude.{◌≡◌};
ghost use Rattle.cap_batch_msgs.specs.declared.body.BatchBody.{BatchBody};
ghost use Rattle.cap_batch_msgs.specs.Bodies.{batch_kind, batch_body_tree};

/// Two bodies of one message that have the same tree are the same.
pub fn bodies_are_whole()
    ensures { (a b : BatchBody) → batch_kind a ≡ batch_kind b → batch_body_tree a ≡ batch_body_tree b → a ≡ b }
{}
