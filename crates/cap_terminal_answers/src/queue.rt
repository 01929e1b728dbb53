ghost use Rattle.std.specs.Prelude.{◌≡◌, ◌+◌, ◌==◌};
ghost use Rattle.cap_terminal_answers.specs.Takes.{is_sale_or_void, is_cancel_item, is_close_item};

use cap_base::Item;

/// What is to be known of a terminal's entries to take an acknowledgement: how many items the host has acknowledged, how many there are, and the
/// oldest that is not acknowledged.
#[derive(Clone, Copy, Debug)]
pub struct QueueView {
    pub acked: u64,
    pub len: u64,
    pub head: Option<Item>,
}

impl QueueView {
    /// Whether m is the number of the oldest item that is not acknowledged.
    pub fn is_next(&self, m: u64) -> bool
        ensures { result ≡ (m == self.now.acked + 1) }
    {
        m.checked_sub(1) == Some(self.acked)
    }
}

/// A Sale or a Void.
pub fn ends_sale(item: &Option<Item>) -> bool
    ensures { result ≡ is_sale_or_void item.now }
{
    matches!(item, Some(Item::Sale { .. } | Item::Void { .. }))
}

/// A Cancel.
pub fn cancels_sale(item: &Option<Item>) -> bool
    ensures { result ≡ is_cancel_item item.now }
{
    matches!(item, Some(Item::Cancel { .. }))
}

/// A Close of this period.
pub fn closes(item: &Option<Item>, period: u64) -> bool
    ensures { result ≡ is_close_item period item.now }
{
    match item {
        Some(Item::Close { p, .. }) => *p == period,
        _ => false,
    }
}
