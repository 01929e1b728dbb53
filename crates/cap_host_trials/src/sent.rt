// What a terminal sent in a long run, and the documents that report it.
use crate::documents::document;
use crate::fault::Fault;
use crate::row::row_of;
use cap_base::{Account, Amount, Code6, Item, Totals};
use std::alloc::Global;
use std::string::String;

const NOTHING: Totals = Totals {
    sales: 0,
    sales_sum: 0,
    cancels: 0,
    cancels_sum: 0,
};

/// A terminal's items, the totals of the period that is open, and those of the closed ones.
#[derive(Drop)]
pub(crate) struct Sent {
    pub(crate) items: Vec<Item>,
    pub(crate) closed: Vec<Totals>,
    running: Totals,
    sales: u64,
    last: u64,
}

/// Nothing was sent yet.
pub(crate) fn nothing_sent(alloc: Global) -> Sent {
    Sent {
        items: Vec::new(alloc),
        closed: Vec::new(alloc),
        running: NOTHING,
        sales: 0,
        last: 0,
    }
}

// A sum with two decimals.
fn money(alloc: Global, sum: u64) -> Result<String, Fault> {
    Ok(format!(in alloc; "{}.{}{}", sum / 100, sum / 10 % 10, sum % 10)?)
}

fn sale(n: u64, hundredths: u64) -> Option<Item> {
    let amount = Amount::new(hundredths)?;
    let account = Account::read(b"4000001234567899")?;
    let code = Code6::read(b"OFFLIN")?;
    Some(Item::Sale {
        n,
        amount,
        account,
        code,
    })
}

fn cancel(n: u64, hundredths: u64) -> Option<Item> {
    let amount = Amount::new(hundredths)?;
    Some(Item::Cancel { n, amount })
}

// Keeps an item that was made.
fn keep(items: &mut Vec<Item>, item: Option<Item>) -> Result<(), Fault> {
    match item {
        Some(item) => Ok(items.push(item)?),
        None => Err(Fault::Text),
    }
}

// Counts the next sale.
fn count_sale(sent: &mut Sent, hundredths: u64) {
    sent.sales = sent.sales.saturating_add(1);
    sent.last = hundredths;
    sent.running.sales = sent.running.sales.saturating_add(1);
    sent.running.sales_sum = sent.running.sales_sum.saturating_add(hundredths);
}

// Counts that the last sale was cancelled.
fn count_cancel(sent: &mut Sent) {
    sent.running.cancels = sent.running.cancels.saturating_add(1);
    sent.running.cancels_sum = sent.running.cancels_sum.saturating_add(sent.last);
}

// The next sale, and the body that reports it.
fn next_sale(alloc: Global, sent: &mut Sent, i: u64) -> Result<String, Fault> {
    count_sale(sent, 1 + i.wrapping_mul(7919) % 1999);
    let (n, hundredths) = (sent.sales, sent.last);
    keep(&mut sent.items, sale(n, hundredths))?;
    let text = money(alloc, hundredths)?;
    Ok(format!(in alloc;
        "<CmpltnAdvc><Tx><Sale><TxRef>{n}</TxRef><TtlAmt>{text}</TtlAmt><PAN>4000001234567899</PAN><AuthstnCd>OFFLIN</AuthstnCd></Sale></Tx></CmpltnAdvc>"
    )?)
}

// The last sale is cancelled.
fn cancellation(alloc: Global, sent: &mut Sent) -> Result<String, Fault> {
    count_cancel(sent);
    let (n, hundredths) = (sent.sales, sent.last);
    keep(&mut sent.items, cancel(n, hundredths))?;
    let text = money(alloc, hundredths)?;
    Ok(format!(in alloc; "<CxlAdvc><TxRef>{n}</TxRef><TtlAmt>{text}</TtlAmt></CxlAdvc>")?)
}

// The text of totals.
fn told(alloc: Global, totals: &Totals) -> Result<String, Fault> {
    let sales = money(alloc, totals.sales_sum)?;
    let cancels = money(alloc, totals.cancels_sum)?;
    Ok(format!(in alloc;
        "<Ttls><SaleNb>{}</SaleNb><SaleAmt>{sales}</SaleAmt><CxlNb>{}</CxlNb><CxlAmt>{cancels}</CxlAmt></Ttls>",
        totals.sales, totals.cancels
    )?)
}

// The period is closed.
fn closing(alloc: Global, sent: &mut Sent) -> Result<String, Fault> {
    let totals = sent.running;
    sent.running = NOTHING;
    sent.closed.push(totals)?;
    let p = sent.closed.len() as u64;
    keep(&mut sent.items, Some(Item::Close { p, totals }))?;
    let text = told(alloc, &totals)?;
    Ok(format!(in alloc; "<RcncltnReq><Prd>{p}</Prd>{text}</RcncltnReq>")?)
}

// The number, the element and the function of the message on the item of this turn.
fn kind_of(turn: u64) -> [&'static str; 3] {
    if turn % 50 == 0 {
        ["caaa.009", "AccptrRcncltnReq", "RCLQ"]
    } else if turn % 5 == 0 {
        ["caaa.007", "AccptrCxlAdvc", "CCAV"]
    } else {
        ["caaa.003", "AccptrCmpltnAdvc", "CMPV"]
    }
}

fn body_of(alloc: Global, sent: &mut Sent, turn: u64, i: u64) -> Result<String, Fault> {
    if turn % 50 == 0 {
        closing(alloc, sent)
    } else if turn % 5 == 0 {
        cancellation(alloc, sent)
    } else {
        next_sale(alloc, sent, i)
    }
}

/// The document of a terminal's next item: a sale, each fifth time the cancellation of the last one, each fiftieth time a closing.
pub(crate) fn next_document(
    alloc: Global,
    name: &str,
    sent: &mut Sent,
    i: u64,
) -> Result<String, Fault> {
    let turn = (sent.items.len() as u64).saturating_add(1);
    let body = body_of(alloc, sent, turn, i)?;
    let [number, element, function] = kind_of(turn);
    let row = format!(in alloc; "take {name} ACQ1 {number} {element} {function} {turn} {body}")?;
    document(alloc, row_of(&row).words)
}
