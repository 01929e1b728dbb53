ghost use Rattle.std.specs.Prelude.{◌≡◌};
ghost use Rattle.cap_sale_msgs.specs.declared.body.SaleBody.{SaleBody};
ghost use Rattle.cap_sale_msgs.specs.Bodies.{sale_kind, sale_body_tree};

/// Two bodies of one message that have the same tree are the same.
pub fn bodies_are_whole()
    ensures { (a b : SaleBody) → sale_kind a ≡ sale_kind b → sale_body_tree a ≡ sale_body_tree b → a ≡ b }
{}
