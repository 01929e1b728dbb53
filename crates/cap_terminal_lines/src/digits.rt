// Whether the numbers of a message that a terminal sends fit the digits of its text.
//
// Where the entries were read from records, they do: sales and periods number at most 250,000, and a version was read from ten digits. But a list
// of entries that are allowed one after another doesn't say so of a version. So the numbers are tested, and a message that could not be written
// is answered as want of memory is.
ghost use Rattle.std.specs.Prelude.{◌≡◌, true, ℕ};
ghost use Rattle.std.specs.List.{list_all};
ghost use Rattle.cap_fields.specs.Refused.{in_digits, in_digits_if};
ghost use Rattle.cap_sale_msgs.specs.Bodies.{is_ended, is_sale_body};
ghost use Rattle.cap_batch_msgs.specs.Bodies.{is_totals, is_item, is_batch_body};
ghost use Rattle.cap_mgmt_msgs.specs.Bodies.{is_mgmt_body};
ghost use Rattle.cap_msgs.specs.Ranges.{is_header, is_body, is_message};

use cap_base::{DataSet, Item, Totals};
use cap_batch_msgs::BatchBody;
use cap_leaf::Header;
use cap_mgmt_msgs::MgmtBody;
use cap_msgs::{Body, Message};
use cap_sale_msgs::{Ended, SaleBody};

fn has_ten(n: u64) -> bool
    ensures { result ≡ in_digits 10 n }
{
    n < 10_000_000_000
}

fn has_nineteen(n: u64) -> bool
    ensures { result ≡ in_digits 19 n }
{
    n < 10_000_000_000_000_000_000
}

fn repeat_fits(repeat: Option<u16>) -> bool
    ensures { result ≡ in_digits_if 3 repeat }
{
    match repeat {
        Some(n) => n < 1000,
        None => true,
    }
}

fn header_fits(header: &Header) -> bool
    ensures { result ≡ is_header header.now }
{
    has_ten(header.exchange) && repeat_fits(header.repeat)
}

fn totals_fit(totals: &Totals) -> bool
    ensures { result ≡ is_totals totals.now }
{
    has_ten(totals.sales)
        && (has_nineteen(totals.sales_sum)
            && (has_ten(totals.cancels) && has_nineteen(totals.cancels_sum)))
}

fn item_fits(item: &Item) -> bool
    ensures { result ≡ is_item item.now }
{
    match item {
        Item::Sale { n, .. } => has_ten(*n),
        Item::Void { n } => has_ten(*n),
        Item::Cancel { n, .. } => has_ten(*n),
        Item::Close { p, totals } => has_ten(*p) && totals_fit(totals),
    }
}

fn items_fit(items: &[Item]) -> bool
    ensures { result ≡ list_all is_item items.now }
{
    items.iter().all(|item| item_fits(item))
}

fn ended_fits(ended: &Ended) -> bool
    ensures { result ≡ is_ended ended.now }
{
    match ended {
        Ended::Sale { n, .. } => has_ten(*n),
        Ended::Void { n } => has_ten(*n),
    }
}

// Bodies that only hosts send are none of a terminal's.
fn sale_fits(body: &SaleBody) -> bool
    ensures { result ≡ true → is_sale_body body.now ≡ true }
{
    match body {
        SaleBody::AuthRequest { .. } => true,
        SaleBody::Completion(ended) => ended_fits(ended),
        SaleBody::CancelRequest { .. } => true,
        SaleBody::CancelAdvice { n, .. } => has_ten(*n),
        _ => false,
    }
}

fn batch_fits(body: &BatchBody) -> bool
    ensures { result ≡ true → is_batch_body body.now ≡ true }
{
    match body {
        BatchBody::Reconcile { period, totals } => has_ten(*period) && totals_fit(totals),
        BatchBody::Batch(items) => items_fit(items.as_slice()),
        BatchBody::Diagnostic { last } => has_ten(*last),
        _ => false,
    }
}

fn management_fits(body: &MgmtBody) -> bool
    ensures { result ≡ true → is_mgmt_body body.now ≡ true }
{
    match body {
        MgmtBody::Status {
            wanted: DataSet::Aqpr | DataSet::Mgtp,
            in_force,
            staged,
            parts,
        } => has_ten(*in_force) && (has_ten(*staged) && *parts < 1000),
        _ => false,
    }
}

fn body_fits(body: &Body) -> bool
    ensures { result ≡ true → is_body body.now ≡ true }
{
    match body {
        Body::Sale(body) => sale_fits(body),
        Body::Batch(body) => batch_fits(body),
        Body::Management(body) => management_fits(body),
    }
}

/// The numbers of a message that a terminal sends fit their digits.
pub(crate) fn message_fits(message: &Message) -> bool
    ensures { result ≡ true → is_message message.now ≡ true }
{
    header_fits(&message.header) && body_fits(&message.body)
}
