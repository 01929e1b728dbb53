// A token is neither dropped nor cloned, so each is spent once. The fields are private to this module, so that no other code makes one.
ghost use Rattle.std.specs.Prelude.{◌≡◌, ◌≤◌, ◌↔◌, IsOk, IfOk, IfErr};
ghost use Rattle.cap_base.specs.declared.codes.Response.TheVariants.{Appr};
ghost use Rattle.cap_sale.specs.Tokens.{offline_code, approved_with};
ghost use Rattle.cap_sale.specs.Refusals.{IsAuthRefusal};

use crate::response::AuthResponse;
use cap_base::{Account, Amount, Code6, Response};
use std::marker::Model;

/// A sale that was begun and has no end yet.
#[derive(Debug)]
pub struct Begun {
    n: u64,
    amount: Amount,
    account: Account,
}

impl Model for Begun {
    ghost use Rattle.cap_sale.specs.Tokens.{BegunSale};

    ghost Value = { BegunSale };

    ghost view = { λ s. record { n = s.n; amount = s.amount; account = s.account } };
}

/// A sale that was approved, by the host or by the terminal itself.
#[derive(Debug)]
pub struct Approved {
    n: u64,
    amount: Amount,
    account: Account,
    code: Code6,
}

impl Model for Approved {
    ghost use Rattle.cap_sale.specs.Tokens.{ApprovedSale};

    ghost Value = { ApprovedSale };

    ghost view = { λ s. record { n = s.n; amount = s.amount; account = s.account; code = s.code } };
}

/// A sale that was completed.
#[derive(Debug)]
pub struct Receipt {
    n: u64,
    code: Code6,
}

impl Model for Receipt {
    ghost use Rattle.cap_sale.specs.Tokens.{CompletedSale};

    ghost Value = { CompletedSale };

    ghost view = { λ s. record { n = s.n; code = s.code } };
}

/// The amount is above the floor. It hands the token back.
#[derive(Debug)]
pub struct AboveFloor {
    pub begun: Begun,
    pub floor: u64,
}

/// Why an answer approves no sale. It hands the token back.
#[derive(Debug)]
pub enum AuthRefused {
    /// The answer names another sale.
    NotTheAnswer(Begun),
    /// The answer names this sale and is no approval.
    Declined(Begun, Response),
}

impl Begun {
    /// A token of sale n. For a terminal alone, whose journal has its Begin and no end of it.
    pub fn issue(n: u64, amount: Amount, account: Account) -> Begun
        ensures { result ≡ record { n = n; amount = amount; account = account } }
    {
        Begun { n, amount, account }
    }

    /// The sale's number.
    pub fn n(&self) -> u64
        ensures { result ≡ self.now.n }
    {
        self.n
    }

    /// Its amount.
    pub fn amount(&self) -> Amount
        ensures { result ≡ self.now.amount }
    {
        self.amount
    }

    /// The account that pays.
    pub fn account(&self) -> Account
        ensures { result ≡ self.now.account }
    {
        self.account
    }

    /// Approves the sale without the host, with the code `OFFLIN`: exactly where its amount is at most the floor, which is in hundredths.
    pub fn offline(self, floor: u64) -> Result<Approved, AboveFloor>
        ensures exact { IsOk result ↔ (self.amount ≤ floor) }
        ensures approved { IfOk result (λ approved. approved ≡ approved_with self offline_code) }
        ensures above { IfErr result (λ above. above ≡ record { begun = self; floor = floor }) }
    {
        if self.amount.hundredths() > floor {
            return Err(AboveFloor { begun: self, floor });
        }
        let Begun { n, amount, account } = self;
        Ok(Approved {
            n,
            amount,
            account,
            code: Code6::offline(),
        })
    }

    /// Approves the sale with the code of the host's answer: exactly where that answer names this sale and approves it. `NotTheAnswer` comes
    /// exactly where it names another sale, `Declined` exactly where it names this one and is no approval.
    pub fn authorise(self, answer: &AuthResponse) -> Result<Approved, AuthRefused>
        ensures exact { IsOk result ↔ ((answer.now.n ≡ self.n) × (answer.now.response ≡ Appr)) }
        ensures approved { IfOk result (λ approved. approved ≡ approved_with self answer.now.code) }
        ensures refused { IfErr result (IsAuthRefusal self answer.now) }
    {
        if answer.n != self.n {
            return Err(AuthRefused::NotTheAnswer(self));
        }
        match answer.response {
            Response::Appr => {
                let Begun { n, amount, account } = self;
                Ok(Approved {
                    n,
                    amount,
                    account,
                    code: answer.code,
                })
            }
            other => Err(AuthRefused::Declined(self, other)),
        }
    }

    /// Spends the token and adds nothing: the sale stays pending.
    pub fn set_aside(self) {
        let Begun {
            n: _,
            amount: _,
            account: _,
        } = self;
    }
}

impl Approved {
    /// The sale's number.
    pub fn n(&self) -> u64
        ensures { result ≡ self.now.n }
    {
        self.n
    }

    /// Its amount.
    pub fn amount(&self) -> Amount
        ensures { result ≡ self.now.amount }
    {
        self.amount
    }

    /// The account that pays.
    pub fn account(&self) -> Account
        ensures { result ≡ self.now.account }
    {
        self.account
    }

    /// The approval code.
    pub fn code(&self) -> Code6
        ensures { result ≡ self.now.code }
    {
        self.code
    }

    /// Spends the token for a receipt. For a terminal alone, which adds its Completed.
    pub fn receipt(self) -> Receipt
        ensures { result ≡ record { n = self.n; code = self.code } }
    {
        let Approved {
            n,
            amount: _,
            account: _,
            code,
        } = self;
        Receipt { n, code }
    }

    /// Spends the token and adds nothing: the sale stays pending.
    pub fn set_aside(self) {
        let Approved {
            n: _,
            amount: _,
            account: _,
            code: _,
        } = self;
    }
}

impl Receipt {
    /// Spends the receipt for the sale's number.
    pub fn number(self) -> u64
        ensures { result ≡ self.n }
    {
        let Receipt { n, code: _ } = self;
        n
    }
}
