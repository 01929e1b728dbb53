use crate::fault::Fault;
use crate::row::{Words, number};
use std::alloc::Global;
use std::string::String;

/// A document. The words tell from whom, to whom, the message's number, its element and its function (`-`: none), the exchange and the body.
pub(crate) fn document(alloc: Global, words: Words<'_>) -> Result<String, Fault> {
    let [_, _, number, element, function, _, body] = words;
    let mut text = format!(in alloc;
        "<Document xmlns=\"urn:x-cap20:1:{number}\"><{element}><Hdr>"
    )?;
    let parties = header(alloc, function, words)?;
    text.push_str(&parties)?;
    let rest = format!(in alloc; "{body}</{element}></Document>")?;
    text.push_str(&rest)?;
    Ok(text)
}

// What stands in a header.
fn header(alloc: Global, function: &str, words: Words<'_>) -> Result<String, Fault> {
    let [from, to, _, _, _, exchange, _] = words;
    let mut text = String::new(alloc);
    if function != "-" {
        text = format!(in alloc; "<MsgFctn>{function}</MsgFctn>")?;
    }
    let rest = format!(in alloc;
        "<PrtcolVrsn>1</PrtcolVrsn><XchgId>{exchange}</XchgId><CreDtTm>2023-11-14T22:13:25Z</CreDtTm><InitgPty><Id>{from}</Id></InitgPty><RcptPty><Id>{to}</Id></RcptPty></Hdr>"
    )?;
    text.push_str(&rest)?;
    Ok(text)
}

// An item of a batch: a sale, or one that was given up.
fn item(alloc: Global, sort: &str, n: u64) -> Result<String, Fault> {
    if sort == "sale" {
        Ok(format!(in alloc;
            "<Itm><Sale><TxRef>{n}</TxRef><TtlAmt>12.50</TtlAmt><PAN>4000001234567899</PAN><AuthstnCd>OFFLIN</AuthstnCd></Sale></Itm>"
        )?)
    } else {
        Ok(format!(in alloc; "<Itm><Void><TxRef>{n}</TxRef></Void></Itm>")?)
    }
}

// Items in a row.
fn items(alloc: Global, sort: &str, first: u64, count: u64) -> Result<String, Fault> {
    let mut text = String::new(alloc);
    for i in 0..count {
        let item = item(alloc, sort, first.saturating_add(i))?;
        text.push_str(&item)?;
    }
    Ok(text)
}

/// A batch. The words tell the terminal, the exchange, the sort of its items, the first one's number, and how many there are.
pub(crate) fn batch(alloc: Global, words: Words<'_>) -> Result<String, Fault> {
    let [from, exchange, sort, first, count, _, _] = words;
    let items = items(alloc, sort, number(first), number(count))?;
    let body = format!(in alloc; "<BtchTrf>{items}</BtchTrf>")?;
    document(
        alloc,
        [
            from,
            "ACQ1",
            "caaa.011",
            "AccptrBtchTrf",
            "BTCQ",
            exchange,
            &body,
        ],
    )
}

/// A status report of T1. The words tell the data that it asks for, the version in force, and the staged version and its parts.
pub(crate) fn status(alloc: Global, words: Words<'_>) -> Result<String, Fault> {
    let [wanted, in_force, staged, parts, _, _, _] = words;
    let body = format!(in alloc;
        "<Sts><DataSetReqrd>{wanted}</DataSetReqrd><VrsnInForce>{in_force}</VrsnInForce><StgdVrsn>{staged}</StgdVrsn><StgdParts>{parts}</StgdParts></Sts>"
    )?;
    document(alloc, ["T1", "ACQ1", "catm.001", "StsRpt", "-", "0", &body])
}
