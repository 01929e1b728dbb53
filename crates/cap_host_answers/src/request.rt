ghost use Rattle.std.specs.Prelude.{◌≡◌, ◌+◌, ◌/◌, ◌%◌, ◌≤◌, take, length, bytes_eq};
ghost use Rattle.cap_base.specs.Text.{is_account};
ghost use Rattle.cap_host_answers.specs.Answer.{six_digits, is_blocked, is_approved, answers, approved_if, answer_request, answer_cancel_request};
ghost use Rattle.cap_base.specs.declared.codes.Response.TheVariants.{Decl};
ghost use Rattle.cap_sale_msgs.specs.declared.body.SaleBody.TheVariants.{CancelAnswer};
ghost use Rattle.cap_msgs.specs.declared.message.Body.TheVariants.{Sale as Of_sale};

use crate::advice::approved;
use crate::fit::is_captured;
use crate::plain::{Answer, replies};
use cap_base::{Account, Amount, Code6, Item, Response};
use cap_entries::HostSetup;
use cap_msgs::Body;
use cap_sale_msgs::SaleBody;
use std::alloc::Global;

// The digit of a number at this place of ten.
fn digit(n: u64, ten: u64) -> u8
    requires { 1 ≤ ten }
    ensures { result ≡ 48 + n / ten % 10 }
{
    b'0' + (n / ten % 10) as u8
}

fn digits(n: u64) -> [u8; 6]
    ensures { result ≡ six_digits n }
{
    [
        digit(n, 100_000),
        digit(n, 10_000),
        digit(n, 1_000),
        digit(n, 100),
        digit(n, 10),
        digit(n, 1),
    ]
}

fn code_of(n: u64) -> Code6
    ensures { result ≡ six_digits n }
{
    match Code6::read(&digits(n)) {
        Some(code) => code,
        None => unreachable!(),
    }
}

// The last six digits of a sum.
fn last_digits(n: u64, amount: u64) -> u64
    ensures { result ≡ (n + amount) % 1000000 }
{
    (n % 1_000_000 + amount % 1_000_000) % 1_000_000
}

fn begins(account: &[u8], prefix: &[u8; 6]) -> bool
    requires { 6 ≤ length account.now }
    ensures { result ≡ bytes_eq (take 6 account.now) prefix.now }
{
    account[..6] == prefix[..]
}

fn blocks(blocked: &[[u8; 6]], account: &[u8]) -> bool
    requires { 6 ≤ length account.now }
    ensures { result ≡ is_blocked blocked.now account.now }
{
    blocked.iter().any(|prefix| begins(account, prefix))
}

fn may_approve(setup: &HostSetup, amount: Amount, account: &Account) -> bool
    ensures { result ≡ is_approved setup.now amount account.now }
{
    amount.hundredths() <= setup.limit().hundredths()
        && !blocks(setup.blocked().as_slice(), account.as_bytes())
}

/// May sale n be completed.
pub fn decide(alloc: Global, setup: &HostSetup, n: u64, amount: Amount, account: &Account) -> Answer
    ensures { result ≡ answer_request setup.now n amount account.now }
{
    let body = if may_approve(setup, amount, account) {
        SaleBody::AuthAnswer {
            response: Response::Appr,
            code: code_of(last_digits(n, amount.hundredths())),
        }
    } else {
        SaleBody::AuthAnswer {
            response: Response::Decl,
            code: code_of(0),
        }
    };
    replies(alloc, Body::Sale(body))
}

/// The answer to the question whether a sale may be cancelled: where it is captured.
pub fn cancel_answer(alloc: Global, captured: bool) -> Answer
    ensures { result ≡ answers (Of_sale (CancelAnswer (approved_if captured Decl))) }
{
    let body = SaleBody::CancelAnswer {
        response: approved(captured, Response::Decl),
    };
    replies(alloc, Body::Sale(body))
}

// May sale n be cancelled.
pub(crate) fn decide_cancel(alloc: Global, log: &[Item], n: u64, amount: Amount) -> Answer
    ensures { result ≡ answer_cancel_request log.now n amount }
{
    cancel_answer(alloc, is_captured(log, n, amount.hundredths()))
}
