// Rows that bring bytes to the host.
use crate::documents::{batch, document, status};
use crate::fault::Fault;
use crate::plain::{is_same, plain_answer};
use crate::row::Words;
use crate::trial::Trial;
use cap_entries::HostEntry;
use cap_host::Reply;
use cap_host_answers::Answer;
use cap_msgs::Body;
use std::alloc::Global;
use std::str;
use std::string::String;

// 2023-11-14T22:13:25Z.
const MOMENT: u64 = 1_700_000_005;

// Keeps what the plain answer adds, and tells how much it is.
fn keep(entries: &mut Vec<HostEntry>, added: Vec<HostEntry>) -> Result<usize, Fault> {
    let count = added.len();
    for entry in added {
        entries.push(entry)?;
    }
    Ok(count)
}

// The text of a reply behind the header's beginning.
fn text_of(reply: &Reply) -> &str {
    match reply {
        Reply::Bytes(text) => match str::from_utf8(text.as_slice()) {
            Ok(text) => match text.split_once("<Hdr>") {
                Some((_, rest)) => rest,
                None => text,
            },
            Err(_) => "no text",
        },
        Reply::Silent => "silent",
    }
}

// A reply, and whether it is the plain one.
fn shown(alloc: Global, reply: &Reply, body: &Option<Body>) -> Result<String, Fault> {
    let word = if is_same(alloc, reply, body)? {
        "same"
    } else {
        "not the same"
    };
    Ok(format!(in alloc; "{word}, {}", text_of(reply))?)
}

// What the host answers, beside the plain answer.
fn beside(
    alloc: Global,
    trial: &mut Trial,
    bytes: &[u8],
    body: &Option<Body>,
) -> Result<String, Fault> {
    match trial.host.answer(bytes, MOMENT) {
        Ok(reply) => shown(alloc, &reply, body),
        Err(fault) => Ok(format!(in alloc; "{fault:?}")?),
    }
}

/// Brings bytes to the host and to the plain answer: how many entries the plain one adds, whether the replies are the same, and the host's.
pub(crate) fn bring(alloc: Global, trial: &mut Trial, bytes: &[u8]) -> Result<String, Fault> {
    let Some(Answer { added, reply }) = plain_answer(alloc, &trial.entries, bytes)? else {
        return Ok(String::from_str(alloc, "not allowed")?);
    };
    let count = keep(&mut trial.entries, added)?;
    let text = beside(alloc, trial, bytes, &reply)?;
    Ok(format!(in alloc; "adds {count}, {text}")?)
}

/// `take T1 ACQ1 caaa.003 AccptrCmpltnAdvc CMPV 1 <..>`: a document.
pub(crate) fn take(alloc: Global, trial: &mut Trial, words: Words<'_>) -> Result<String, Fault> {
    let text = document(alloc, words)?;
    bring(alloc, trial, text.as_bytes())
}

/// `batch T1 1 sale 1 60`: a batch of many items.
pub(crate) fn send(alloc: Global, trial: &mut Trial, words: Words<'_>) -> Result<String, Fault> {
    let text = batch(alloc, words)?;
    bring(alloc, trial, text.as_bytes())
}

/// `status AQPR 0 0 0`: a status report.
pub(crate) fn report(alloc: Global, trial: &mut Trial, words: Words<'_>) -> Result<String, Fault> {
    let text = status(alloc, words)?;
    bring(alloc, trial, text.as_bytes())
}
