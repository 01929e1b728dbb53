use crate::fault::Fault;
use std::alloc::Global;
use std::string::String;

/// A document to the terminal T1. The words tell from whom, the message's number, its element and its function (`-`: none), the exchange and the body.
pub(crate) fn document(alloc: Global, words: [&str; 6]) -> Result<String, Fault> {
    let [from, number, element, function, exchange, body] = words;
    let mut text = format!(in alloc;
        "<Document xmlns=\"urn:x-cap20:1:{number}\"><{element}><Hdr>"
    )?;
    if function != "-" {
        let part = format!(in alloc; "<MsgFctn>{function}</MsgFctn>")?;
        text.push_str(&part)?;
    }
    let parties = parties(alloc, from, exchange)?;
    text.push_str(&parties)?;
    let rest = format!(in alloc; "{body}</{element}></Document>")?;
    text.push_str(&rest)?;
    Ok(text)
}

// What a header tells behind its function.
fn parties(alloc: Global, from: &str, exchange: &str) -> Result<String, Fault> {
    Ok(format!(in alloc;
        "<PrtcolVrsn>1</PrtcolVrsn><XchgId>{exchange}</XchgId><CreDtTm>2023-11-14T22:13:25Z</CreDtTm><InitgPty><Id>{from}</Id></InitgPty><RcptPty><Id>T1</Id></RcptPty></Hdr>"
    )?)
}

/// The host's decision on a sale, as a document.
pub(crate) fn decision(alloc: Global, exchange: &str, response: &str) -> Result<String, Fault> {
    let body = format!(in alloc;
        "<AuthstnRspn><Rspn>{response}</Rspn><AuthstnCd>004501</AuthstnCd></AuthstnRspn>"
    )?;
    document(
        alloc,
        [
            "ACQ1",
            "caaa.002",
            "AccptrAuthstnRspn",
            "AUTP",
            exchange,
            &body,
        ],
    )
}
