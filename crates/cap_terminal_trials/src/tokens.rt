// Rows on the host's decisions.
use crate::documents::decision;
use crate::fault::Fault;
use crate::row::number;
use crate::sales::decide;
use cap_entries::TermEntry;
use cap_journal::Journal;
use cap_sale::{AuthRefused, AuthResponse};
use cap_terminal::{Handled, Terminal};
use std::alloc::Global;
use std::string::String;

// The decision that a document of the host tells.
fn heard<J: Journal<TermEntry>>(
    alloc: Global,
    terminal: &mut Terminal<J>,
    exchange: &str,
    response: &str,
) -> Result<Option<AuthResponse>, Fault> {
    let text = decision(alloc, exchange, response)?;
    match &terminal.handle(text.as_bytes()) {
        Ok(Handled::Authorisation(answer)) => Ok(Some(*answer)),
        _ => Ok(None),
    }
}

/// `decide 1 APPR`: follows the host's decision on a sale. With a word `walkout` behind, the customer has left.
pub(crate) fn follow<J: Journal<TermEntry>>(
    alloc: Global,
    terminal: &mut Terminal<J>,
    words: [&str; 6],
) -> Result<String, Fault> {
    let Some(answer) = heard(alloc, terminal, words[0], words[1])? else {
        return Ok(String::from_str(alloc, "no decision")?);
    };
    let outcome = decide(terminal, &answer, words[2] == "walkout");
    Ok(format!(in alloc; "{outcome:?}")?)
}

// What the token of a sale makes of a decision.
fn offered<J: Journal<TermEntry>>(
    terminal: &Terminal<J>,
    n: u64,
    answer: &AuthResponse,
) -> &'static str {
    match terminal.take_pending(n) {
        Some(begun) => match terminal.authorise(begun, answer) {
            Ok(approved) => {
                approved.set_aside();
                "approved"
            }
            Err(AuthRefused::NotTheAnswer(begun)) => {
                begun.set_aside();
                "not the answer"
            }
            Err(AuthRefused::Declined(begun, _)) => {
                begun.set_aside();
                "declined"
            }
        },
        None => "not pending",
    }
}

/// `token 2 APPR 1`: what the token of sale 1 makes of the decision on sale 2.
pub(crate) fn offer<J: Journal<TermEntry>>(
    alloc: Global,
    terminal: &mut Terminal<J>,
    words: [&str; 6],
) -> Result<String, Fault> {
    match heard(alloc, terminal, words[0], words[1])? {
        Some(answer) => Ok(String::from_str(alloc, offered(terminal, number(words[2]), &answer))?),
        None => Ok(String::from_str(alloc, "no decision")?),
    }
}
