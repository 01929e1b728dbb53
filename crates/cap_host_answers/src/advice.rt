ghost use Rattle.std.specs.Prelude.{◌≡◌, [], true, false, IfOk, map, slice_get};
ghost use Rattle.cap_base.specs.Fits.{all_fit};
ghost use Rattle.cap_entries.specs.declared.host.HostEntry.TheVariants.{Took};
ghost use Rattle.cap_host_answers.specs.Answer.{rejected, rejected_expecting, approved_if, answer_of_item, item_at, same_item, answer_advice, answer_batch, agree_so_far, fitting, is_unexpected};
ghost use Rattle.cap_base.specs.declared.codes.Reason.TheVariants.{Dpmg};
ghost use Rattle.cap_host_answers.specs.Plain.{is_closed_there, advice_again, advice_next, batch_taken};

use crate::fit::{may_follow, same, same_totals};
use crate::plain::{Answer, replies};
use cap_base::{Item, Memory, Reason, Response};
use cap_batch_msgs::BatchBody;
use cap_entries::HostEntry;
use cap_leaf::Refused;
use cap_msgs::Body;
use cap_plain::totals_of;
use cap_sale_msgs::SaleBody;
use std::alloc::Global;

/// APPR where it holds, else another response.
pub fn approved(holds: bool, other: Response) -> Response
    ensures { result ≡ approved_if holds other }
{
    if holds { Response::Appr } else { other }
}

/// A rejection with the number that is expected next.
pub fn expects(alloc: Global, number: u64) -> Answer
    ensures { result ≡ rejected_expecting number }
{
    let refused = Refused {
        reason: Reason::Unpr,
        expected: Some(number),
        place: None,
    };
    replies(alloc, Body::Batch(BatchBody::Rejection(refused)))
}

/// A rejection of an item that differs from the one with its number.
pub fn differs(alloc: Global) -> Answer
    ensures { result ≡ rejected Dpmg }
{
    let refused = Refused {
        reason: Reason::Dpmg,
        expected: None,
        place: None,
    };
    replies(alloc, Body::Batch(BatchBody::Rejection(refused)))
}

// Whether a log expects no such number.
fn unexpected(log: &[Item], m: u64) -> bool
    ensures { result ≡ is_unexpected log.now m }
{
    m == 0 || (log.len() as u64 + 1) < m
}

// The item at this place, from 0.
fn item_in(log: &[Item], at: usize) -> Option<Item>
    ensures { result ≡ slice_get log.now at }
{
    log.get(at).copied()
}

fn item_under(log: &[Item], m: u64) -> Option<Item>
    ensures { result ≡ item_at log.now m }
{
    if m == 0 {
        None
    } else {
        item_in(log, (m - 1) as usize)
    }
}

fn is_same(found: Option<Item>, item: &Item) -> bool
    ensures { result ≡ same_item found item.now }
{
    match found {
        Some(found) => same(&found, item),
        None => false,
    }
}

// The answer of an item that stands in the log.
fn answer_item(log: &[Item], item: &Item) -> Result<Body, Memory>
    requires fit { all_fit [] log.now ≡ true }
    requires there { is_closed_there log.now item.now ≡ true }
    ensures { IfOk result (λ body. body ≡ answer_of_item log.now item.now) }
{
    match item {
        Item::Cancel { .. } => Ok(Body::Sale(SaleBody::CancelAdviceAnswer {
            response: Response::Appr,
        })),
        Item::Close { p, totals } => match totals_of(log, *p)? {
            Some(own) => Ok(Body::Batch(BatchBody::ReconcileAnswer {
                response: approved(same_totals(own, *totals), Response::Decl),
                period: *p,
                totals: own,
            })),
            None => unreachable!(),
        },
        _ => Ok(Body::Sale(SaleBody::CompletionAnswer {
            response: Response::Appr,
        })),
    }
}

// An item with a number at most the log's length.
fn advise_again(alloc: Global, log: &[Item], m: u64, item: &Item) -> Result<Answer, Memory>
    requires { all_fit [] log.now ≡ true }
    ensures { IfOk result (λ a. a ≡ advice_again log.now m item.now) }
{
    if is_same(item_under(log, m), item) {
        Ok(replies(alloc, answer_item(log, item)?))
    } else {
        Ok(differs(alloc))
    }
}

// The next item.
fn advise_next(alloc: Global, mut log: Vec<Item>, place: u8, item: &Item) -> Result<Answer, Memory>
    requires { all_fit [] log.items ≡ true }
    ensures { IfOk result (λ a. a ≡ advice_next place log.items item.now) }
{
    if may_follow(&log, item) {
        let taken = HostEntry::Took {
            terminal: place,
            item: *item,
        };
        log.push(*item)?;
        let reply = answer_item(&log, item)?;
        Ok(Answer {
            added: vec![in alloc; taken]?,
            reply: Some(reply),
        })
    } else {
        Ok(expects(alloc, log.len() as u64 + 1))
    }
}

// An item that the terminal at this place reports under this number.
pub(crate) fn advise(
    alloc: Global,
    log: Vec<Item>,
    place: u8,
    m: u64,
    item: &Item,
) -> Result<Answer, Memory>
    requires { all_fit [] log.items ≡ true }
    ensures { IfOk result (λ a. a ≡ answer_advice place log.items m item.now) }
{
    if unexpected(&log, m) {
        return Ok(expects(alloc, log.len() as u64 + 1));
    }
    if m <= log.len() as u64 {
        advise_again(alloc, &log, m, item)
    } else {
        advise_next(alloc, log, place, item)
    }
}

// Whether two lists are equal as far as both go.
fn agree(others: &[Item], items: &[Item]) -> bool
    ensures { result ≡ agree_so_far others.now items.now }
{
    match others {
        [] => true,
        [other, others @ ..] => match items {
            [] => true,
            [item, items @ ..] => same(other, item) && agree(others, items),
        },
    }
}

// The items up to the first that doesn't fit.
fn fitting_items(alloc: Global, log: &[Item], items: &[Item]) -> Result<Vec<Item>, Memory>
    ensures { IfOk result (λ v. v.items ≡ fitting log.now items.now) }
{
    let mut stands = log.to_vec(alloc)?;
    let mut taken = Vec::new(alloc);
    for item in items {
        if !may_follow(&stands, item) {
            return Ok(taken);
        }
        stands.push(*item)?;
        taken.push(*item)?;
    }
    Ok(taken)
}

fn took(place: u8, item: &Item) -> HostEntry
    ensures { result ≡ Took place item.now }
{
    HostEntry::Took {
        terminal: place,
        item: *item,
    }
}

/// The entries that hold these items of the terminal at this place.
pub fn took_all(alloc: Global, place: u8, items: &[Item]) -> Result<Vec<HostEntry>, Memory>
    ensures { IfOk result (λ v. v.items ≡ map (Took place) items.now) }
{
    let mut made = Vec::new(alloc);
    for item in items {
        made.push(took(place, item))?;
    }
    Ok(made)
}

// A batch whose first number is expected, and which agrees with the log.
fn take_batch(
    alloc: Global,
    log: &[Item],
    place: u8,
    x: u64,
    items: &[Item],
) -> Result<Answer, Memory>
    requires { is_unexpected log.now x ≡ false }
    ensures { IfOk result (λ a. a ≡ batch_taken place log.now x items.now) }
{
    let known = (log.len() as u64 + 1 - x) as usize;
    let old = known.min(items.len());
    let taken = fitting_items(alloc, log, &items[old..])?;
    let standing = old + taken.len();
    let answer = BatchBody::BatchAnswer {
        response: approved(standing == items.len(), Response::Part),
        last: x + standing as u64 - 1,
    };
    Ok(Answer {
        added: took_all(alloc, place, &taken)?,
        reply: Some(Body::Batch(answer)),
    })
}

// Items that the terminal at this place reports from this number on.
pub(crate) fn advise_many(
    alloc: Global,
    log: &[Item],
    place: u8,
    x: u64,
    items: &[Item],
) -> Result<Answer, Memory>
    ensures { IfOk result (λ a. a ≡ answer_batch place log.now x items.now) }
{
    if unexpected(log, x) {
        return Ok(expects(alloc, log.len() as u64 + 1));
    }
    if agree(&log[(x - 1) as usize..], items) {
        take_batch(alloc, log, place, x, items)
    } else {
        Ok(differs(alloc))
    }
}
