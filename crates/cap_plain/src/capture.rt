ghost use Rattle.std.specs.Prelude.{◌≡◌, ◌&&◌, not, IfOk};
ghost use Rattle.std.specs.List.{list_any};
ghost use Rattle.cap_base.specs.Item.{is_cancel, is_sale_where};
ghost use Rattle.cap_base.specs.Captured.{captured};

use cap_base::{Item, Memory};
use std::alloc::{AllocError, Global};

fn cancels(item: &Item, sale: u64) -> bool
    ensures { result ≡ is_cancel sale item.now }
{
    match item {
        Item::Cancel { n, .. } => *n == sale,
        _ => false,
    }
}

fn has_cancel(items: &[Item], sale: u64) -> bool
    ensures { result ≡ list_any (is_cancel sale) items.now }
{
    items.iter().any(|item| cancels(item, sale))
}

fn is_captured(items: &[Item], item: &Item) -> bool
    ensures { result ≡ is_sale_where (λ n. not (list_any (is_cancel n) items.now)) item.now }
{
    match item {
        Item::Sale { n, .. } => !has_cancel(items, *n),
        _ => false,
    }
}

fn captured_items(alloc: Global, items: &[Item]) -> Result<Vec<Item>, AllocError>
    ensures { IfOk result (λ v. v.items ≡ captured items.now) }
{
    items
        .iter()
        .filter(|item| is_captured(items, item))
        .copied()
        .collect(alloc)
}

/// The sales, in order, that no Cancel among the items names.
pub fn capture_of(alloc: Global, items: &[Item]) -> Result<Vec<Item>, Memory>
    ensures { IfOk result (λ v. v.items ≡ captured items.now) }
{
    let captured = captured_items(alloc, items)?;
    Ok(captured)
}
