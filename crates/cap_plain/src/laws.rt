ghost use Rattle.std.specs.Prelude.{◌≡◌, ◌≤◌, ◌+◌, ◌<◌, ℕ, List, [], ◌∷◌, ◌++◌, true, length, sum_by};
ghost use Rattle.cap_base.specs.declared.item.Item.{Item};
ghost use Rattle.cap_base.specs.Item.{sale_count, cancel_count};
ghost use Rattle.cap_base.specs.Captured.{captured};
ghost use Rattle.cap_base.specs.Fits.{all_fit};
ghost use Rattle.cap_entries.specs.declared.terminal.TermEntry.{TermEntry};
ghost use Rattle.cap_entries.specs.declared.host.HostEntry.{HostEntry};
ghost use Rattle.cap_entries.specs.Items.{items, items_after};
ghost use Rattle.cap_entries.specs.Acked.{acked};
ghost use Rattle.cap_entries.specs.Allowed.{all_allowed};
ghost use Rattle.cap_entries.specs.Fronts.{IsPrefixOf};
ghost use Rattle.cap_entries.specs.Log.{log};
ghost use Rattle.cap_entries.specs.HostAllowed.{all_host_allowed};
ghost use Rattle.cap_plain.specs.KeptSales.{kept_sales};
ghost use Rattle.cap_plain.specs.Agreed.{Agreed};

/// The items of a terminal's journal fit one after another, and there are at most 750,000.
pub fn items_fit()
    ensures fit { (entries : List TermEntry) → all_allowed [] entries ≡ true → all_fit [] (items entries) ≡ true }
    ensures few { (entries : List TermEntry) → all_allowed [] entries ≡ true → length (items entries) ≤ 750000 }
{}

/// The items of each terminal's log in a host's journal fit one after another.
pub fn logs_fit()
    ensures { (entries : List HostEntry) → all_host_allowed [] entries ≡ true → (place : ℕ) → all_fit [] (log entries place) ≡ true }
{}

/// An entry more makes the items of its row, whatever stood before.
pub fn items_grow()
    ensures { (entries : List TermEntry) (entry : TermEntry) → items (entries ++ entry ∷ []) ≡ items_after entries (items entries) entry }
{}

/// Of all items of a journal just the sales are captured that the journal keeps.
pub fn capture_is_kept()
    ensures { (entries : List TermEntry) → captured (items entries) ≡ kept_sales entries }
{}

/// In a log whose items fit there are at most 250,000 Sales and as many Cancels, so that sums of amounts fit a u64.
pub fn sums_are_bounded()
    ensures sales { (log : List Item) → all_fit [] log ≡ true → sum_by sale_count log ≤ 250000 }
    ensures cancels { (log : List Item) → all_fit [] log ≡ true → sum_by cancel_count log ≤ 250000 }
{}

/// A front of a journal's items that reaches as far as the acknowledged ones agrees with the journal.
pub fn fronts_agree()
    ensures { (entries : List TermEntry) (log : List Item) → all_allowed [] entries ≡ true → IsPrefixOf log (items entries) → acked entries ≤ length log → Agreed entries log }
{}
