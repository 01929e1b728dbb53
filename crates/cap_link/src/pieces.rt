// Connections in memory: their bytes, and what was put on each.
ghost use Rattle.std.specs.Prelude.{◌≡◌, ◌≤◌, ◌<◌, ◌+◌, ◌++◌, ◌^◌, ℕ, max, length, take, slice_set, List, OnOk, OnErr};
ghost use Rattle.cap_link.specs.Pieces.{lists_of, piece};

use cap_base::Memory;

// The bytes at a place; none past the end.
pub(crate) fn piece_at(lists: &Vec<Vec<u8>>, i: usize) -> &[u8]
    ensures { result.now ≡ piece (lists_of lists.now.items) i }
{
    if i < lists.len() {
        lists[i].as_slice()
    } else {
        &[]
    }
}

// Lets a list have a place, with no bytes at it yet.
fn reach(lists: &mut Vec<Vec<u8>>, i: usize) -> Result<(), Memory>
    requires { i < 2 ^ 63 }
    ensures same { (k : ℕ) → piece (lists_of lists.new.items) k ≡ piece (lists_of lists.old.items) k }
    ensures there { OnOk result (i < length lists.new.items) }
    ensures len { length lists.new.items ≤ max (length lists.old.items) (i + 1) }
{
    'places: while lists.len() <= i {
        let none = Vec::new(*lists.allocator());
        if lists.push(none).is_err() {
            return Err(Memory);
        }
    }
    Ok(())
}

// Appends bytes at a place.
fn extend(lists: &mut Vec<Vec<u8>>, i: usize, bytes: &[u8]) -> Result<(), Memory>
    requires { i < length lists.old.items }
    ensures others { (k : ℕ) → k < i → piece (lists_of lists.new.items) k ≡ piece (lists_of lists.old.items) k }
    ensures ok { OnOk result (piece (lists_of lists.new.items) i ≡ piece (lists_of lists.old.items) i ++ bytes.now) }
    ensures err { OnErr result (piece (lists_of lists.new.items) i ≡ piece (lists_of lists.old.items) i) }
    ensures len { length lists.new.items ≡ length lists.old.items }
{
    if lists[i].extend_from_slice(bytes).is_err() {
        return Err(Memory);
    }
    Ok(())
}

// Puts bytes at a place. Without memory nothing is put.
pub(crate) fn put_at(lists: &mut Vec<Vec<u8>>, i: usize, bytes: &[u8]) -> Result<(), Memory>
    requires { i < 2 ^ 63 }
    ensures others { (k : ℕ) → k < i → piece (lists_of lists.new.items) k ≡ piece (lists_of lists.old.items) k }
    ensures ok { OnOk result (piece (lists_of lists.new.items) i ≡ piece (lists_of lists.old.items) i ++ bytes.now) }
    ensures err { OnErr result (piece (lists_of lists.new.items) i ≡ piece (lists_of lists.old.items) i) }
    ensures len { length lists.new.items ≤ max (length lists.old.items) (i + 1) }
{
    reach(lists, i)?;
    extend(lists, i, bytes)
}

// Lets the bytes at a place end.
pub(crate) fn cut_at(lists: &mut Vec<Vec<u8>>, i: usize, at: usize)
    requires { i < length lists.old.items }
    ensures { lists_of lists.new.items ≡ slice_set (lists_of lists.old.items) i (take at (piece (lists_of lists.old.items) i)) }
{
    lists[i].truncate(at);
}
