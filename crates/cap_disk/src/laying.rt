// Laying bytes over those that are there.
ghost use Rattle.std.specs.Prelude.{◌≡◌, ◌≤◌, ◌<◌, ◌+◌, ◌++◌, ℕ, List, [], ◌∷◌, length, nat_lt, if◌then◌else◌, slice_set, replicate, vec_len, vec_capacity};
ghost use Rattle.cap_disk.specs.Disk.{overwrite};

// Puts a byte over the one at a place, or at the end.
fn put_at(shown: &mut Vec<u8>, at: usize, byte: u8)
    requires room { vec_len shown.old < vec_capacity shown.old }
    ensures items { shown.new.items ≡ (if nat_lt at (length shown.old.items) then slice_set shown.old.items at byte else shown.old.items ++ byte ∷ []) }
    ensures capacity { vec_capacity shown.new ≡ vec_capacity shown.old }
    ensures longest { vec_len shown.new ≤ vec_len shown.old + 1 }
{
    if at < shown.len() {
        shown[at] = byte;
    } else {
        shown.push_reserved(byte);
    }
}

// Lays bytes over those that are there, from a place within them on.
fn lay_within(shown: &mut Vec<u8>, place: usize, bytes: &[u8])
    requires place { place ≤ length shown.old.items }
    requires room { vec_len shown.old + length bytes.now ≤ vec_capacity shown.old }
    ensures items { shown.new.items ≡ overwrite shown.old.items place bytes.now }
    ensures capacity { vec_capacity shown.new ≡ vec_capacity shown.old }
{
    let mut at = place;
    for byte in bytes {
        put_at(shown, at, *byte);
        at += 1;
    }
}

/// Lays bytes over those that are there, from a place on, or behind them.
pub fn lay_over(shown: &mut Vec<u8>, place: u64, bytes: &[u8])
    requires room { vec_len shown.old + length bytes.now ≤ vec_capacity shown.old }
    ensures items { shown.new.items ≡ overwrite shown.old.items place bytes.now }
    ensures capacity { vec_capacity shown.new ≡ vec_capacity shown.old }
{
    let at = shown.len().min(place as usize);
    lay_within(shown, at, bytes);
}

// Lays a byte so many times over those that are there, from a place within them on.
fn fill_within(shown: &mut Vec<u8>, place: usize, len: u64, byte: u8)
    requires place { place ≤ length shown.old.items }
    requires room { vec_len shown.old + len ≤ vec_capacity shown.old }
    ensures items { shown.new.items ≡ overwrite shown.old.items place (replicate len byte) }
    ensures capacity { vec_capacity shown.new ≡ vec_capacity shown.old }
{
    let mut at = place;
    for done in 0..len {
        put_at(shown, at, byte);
        at += 1;
    }
}

/// The same, from a place on, or behind them.
pub fn fill_over(shown: &mut Vec<u8>, place: u64, len: u64, byte: u8)
    requires room { vec_len shown.old + len ≤ vec_capacity shown.old }
    ensures items { shown.new.items ≡ overwrite shown.old.items place (replicate len byte) }
    ensures capacity { vec_capacity shown.new ≡ vec_capacity shown.old }
{
    let at = shown.len().min(place as usize);
    fill_within(shown, at, len, byte);
}

/// Appends bytes for which there is room.
pub fn append(out: &mut Vec<u8>, bytes: &[u8])
    requires { vec_len out.old + length bytes.now ≤ vec_capacity out.old }
    ensures items { out.new.items ≡ out.old.items ++ bytes.now }
    ensures capacity { vec_capacity out.new ≡ vec_capacity out.old }
{
    for byte in bytes {
        out.push_reserved(*byte);
    }
}

/// Appends a byte so many times.
pub fn append_byte(out: &mut Vec<u8>, len: u64, byte: u8)
    requires { vec_len out.old + len ≤ vec_capacity out.old }
    ensures items { out.new.items ≡ out.old.items ++ replicate len byte }
    ensures capacity { vec_capacity out.new ≡ vec_capacity out.old }
{
    for done in 0..len {
        out.push_reserved(byte);
    }
}

/// Holds these bytes instead, for which there is room.
pub fn copy_over(out: &mut Vec<u8>, bytes: &[u8])
    requires { length bytes.now ≤ vec_capacity out.old }
    ensures items { out.new.items ≡ bytes.now }
    ensures capacity { vec_capacity out.new ≡ vec_capacity out.old }
{
    out.clear();
    append(out, bytes);
}
