// The tokens of a sale.
use crate::entries::account;
use crate::words::{cut, number, shown, text};
use cap_base::{Account, Amount, Code6, Memory, Money, Response};
use cap_sale::{AboveFloor, Approved, AuthRefused, AuthResponse, Begun};
use std::alloc::Global;

fn begun(n: u64, amount: &str) -> Option<Begun> {
    let amount = Amount::read(amount.as_bytes())?;
    let account = account()?;
    Some(Begun::issue(n, amount, account))
}

fn approved(alloc: Global, token: Approved) -> Result<String, Memory> {
    let code = token.code();
    let n = token.receipt().number();
    Ok(format!(in alloc; "sale {n} is approved with {}", shown(code.as_bytes()))?)
}

fn set_aside(alloc: Global, begun: Begun, why: &str) -> Result<String, Memory> {
    let n = begun.n();
    begun.set_aside();
    Ok(format!(in alloc; "sale {n} is set aside: {why}")?)
}

fn above(alloc: Global, above: AboveFloor) -> Result<String, Memory> {
    let AboveFloor { begun, floor } = above;
    let why = format!(in alloc; "above {floor}");
    match why {
        Ok(why) => set_aside(alloc, begun, why.as_str()),
        Err(_) => set_aside(alloc, begun, "no memory"),
    }
}

fn offline_of(alloc: Global, token: Begun, floor: u64) -> Result<String, Memory> {
    match token.offline(floor) {
        Ok(token) => approved(alloc, token),
        Err(refused) => above(alloc, refused),
    }
}

/// A sale without the host: the floor, its number and its amount.
pub(crate) fn offline(alloc: Global, words: &str) -> Result<String, Memory> {
    let (floor, words) = cut(words, ' ');
    let (n, amount) = cut(words, ' ');
    match begun(number(n), amount) {
        Some(token) => offline_of(alloc, token, number(floor)),
        None => text(alloc, "no sale"),
    }
}

fn response_text(response: Response) -> &'static str {
    match response {
        Response::Appr => "approved",
        Response::Decl => "declined",
        Response::Part => "approved in part",
        Response::Tech => "a technical problem",
    }
}

fn response_of(word: &str) -> Response {
    match word {
        "APPR" => Response::Appr,
        "DECL" => Response::Decl,
        "PART" => Response::Part,
        _ => Response::Tech,
    }
}

fn authorised(alloc: Global, token: Begun, answer: &AuthResponse) -> Result<String, Memory> {
    match token.authorise(answer) {
        Ok(token) => approved(alloc, token),
        Err(AuthRefused::NotTheAnswer(begun)) => set_aside(alloc, begun, "another sale's answer"),
        Err(AuthRefused::Declined(begun, response)) => {
            set_aside(alloc, begun, response_text(response))
        }
    }
}

// The host's answer: the sale's number, the response, and the code.
fn answer(words: &str) -> Option<AuthResponse> {
    let (n, words) = cut(words, ' ');
    let (response, code) = cut(words, ' ');
    let code = Code6::read(code.as_bytes())?;
    Some(AuthResponse {
        n: number(n),
        response: response_of(response),
        code,
    })
}

/// Sale 1 of 45.00, with the host's answer.
pub(crate) fn authorise(alloc: Global, words: &str) -> Result<String, Memory> {
    match answer(words) {
        Some(answer) => match begun(1, "45.00") {
            Some(token) => authorised(alloc, token, &answer),
            None => text(alloc, "no sale"),
        },
        None => text(alloc, "no answer"),
    }
}

fn known(alloc: Global, n: u64, amount: Amount, account: Account) -> Result<String, Memory> {
    let amount = Money {
        hundredths: amount.hundredths(),
    };
    Ok(format!(in alloc; "{n} {amount} {}", shown(account.as_bytes()))?)
}

// What an approved token knows, which is then set aside.
fn known_of_approved(alloc: Global, token: Approved) -> Result<String, Memory> {
    let (n, amount, account) = (token.n(), token.amount(), token.account());
    token.set_aside();
    known(alloc, n, amount, account)
}

fn known_of_both(alloc: Global, token: Begun) -> Result<String, Memory> {
    let (n, amount, account) = (token.n(), token.amount(), token.account());
    let after = match token.offline(amount.hundredths()) {
        Ok(token) => known_of_approved(alloc, token)?,
        Err(refused) => above(alloc, refused)?,
    };
    let before = known(alloc, n, amount, account)?;
    Ok(format!(in alloc; "{before}, then {after}")?)
}

/// What a token knows of its sale before and after it is approved: the number and the amount.
pub(crate) fn knows(alloc: Global, words: &str) -> Result<String, Memory> {
    let (n, amount) = cut(words, ' ');
    match begun(number(n), amount) {
        Some(token) => known_of_both(alloc, token),
        None => text(alloc, "no sale"),
    }
}
