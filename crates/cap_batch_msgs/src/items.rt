ghost use Rattle.std.specs.Prelude.{◌≡◌, ◌↔◌, IsSome, IfSome};
ghost use Rattle.cap_batch_msgs.specs.Items.{IsBatch};

use cap_base::Item;
use std::alloc::AllocError;
use std::marker::Model;

/// The items of a batch, 1 to 100.
#[derive(Debug, Drop)]
pub struct Items {
    items: Vec<Item>,
}

impl Model for Items {
    ghost use Rattle.std.specs.Prelude.{List};
    ghost use Rattle.cap_base.specs.declared.item.Item.{Item};
    ghost use Rattle.cap_batch_msgs.specs.Items.{IsBatch};

    ghost Value = { List Item };

    ghost view = { λ s. s.items.items };

    ghost invariant = { λ s. IsBatch s.items.items };
}

impl Items {
    /// These items, where there are 1 to 100.
    pub fn new(items: Vec<Item>) -> Option<Items>
        ensures exact { IsSome result ↔ IsBatch items.items }
        ensures value { IfSome result (λ s. s ≡ items.items) }
    {
        if 1 <= items.len() && items.len() <= 100 {
            Some(Items { items })
        } else {
            None
        }
    }

    /// The items, in order.
    pub fn as_slice(&self) -> &[Item]
        ensures items { result.now ≡ self.now }
        ensures few { IsBatch self.now }
    {
        &self.items
    }
}

impl Clone for Items {
    ghost is_clone = { λ a b. b ≡ a };

    fn clone(&self) -> Result<Items, AllocError> {
        let items = self.items.clone()?;
        Ok(Items { items })
    }
}
