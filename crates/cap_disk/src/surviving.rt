// What a cut leaves, computed from the record of calls.
ghost use Rattle.std.specs.Prelude.{◌≡◌, ◌≤◌, ◌<◌, ◌+◌, ◌-◌, ℕ, List, [], ◌∷◌, length, take, drop, true, false, Some, slice_get, ◌⊎◌, vec_len, vec_capacity};
ghost use Rattle.cap_disk.specs.History.{start, after, taken, all_taken, len_of, lens};
ghost use Rattle.cap_disk.specs.Survivor.{laid, laid_one, fill_calls, fill_one, has_sync, at_cut, survivor, restart_of};
ghost use Rattle.cap_disk.specs.declared.recorded.Call.TheVariants.{Sync};

use crate::arming::Fill;
use crate::laying::{copy_over, fill_over, lay_over};
use crate::recorded::Call;

// How many calls there are up to the last sync and with it.
fn last_sync(log: &[Call]) -> usize
    ensures within { result ≤ length log.now }
    ensures rest { has_sync (drop result log.now) ≡ false }
    ensures found { 0 < result → slice_get log.now (result - 1) ≡ Some Sync }
{
    let mut at = log.len();
    while at > 0 {
        if log[at - 1] == Call::Sync {
            return at;
        }
        at -= 1;
    }
    at
}

// Lays the writes among these calls over the bytes.
fn lay_calls(first: &mut Vec<u8>, log: &[Call], bytes: &[u8])
    requires own { all_taken log.now ≤ length bytes.now }
    requires room { vec_len first.old + lens log.now ≤ vec_capacity first.old }
    ensures items { first.new.items ≡ laid first.old.items log.now bytes.now }
    ensures capacity { vec_capacity first.new ≡ vec_capacity first.old }
    ensures longest { vec_len first.new ≤ vec_len first.old + lens log.now }
{
    let mut rest = bytes;
    for call in log {
        rest = lay_call(first, *call, rest);
    }
}

// Lays the write of this call, and gives the bytes of the calls behind it.
fn lay_call<'a>(first: &mut Vec<u8>, call: Call, rest: &'a [u8]) -> &'a [u8]
    requires own { taken call ≤ length rest.now }
    requires room { vec_len first.old + len_of call ≤ vec_capacity first.old }
    ensures items { first.new.items ≡ laid_one first.old.items call rest.now }
    ensures rest { result.now ≡ drop (taken call) rest.now }
    ensures capacity { vec_capacity first.new ≡ vec_capacity first.old }
    ensures longest { vec_len first.new ≤ vec_len first.old + len_of call }
{
    match call {
        Call::Write { place, len } => {
            let (own, behind) = rest.split_at(len as usize);
            lay_over(first, place, own);
            behind
        }
        _ => rest,
    }
}

// Fills the ranges of the writes among these calls with a byte, but for those after the cut.
fn fill_ranges(first: &mut Vec<u8>, log: &[Call], byte: u8)
    requires room { vec_len first.old + lens log.now ≤ vec_capacity first.old }
    ensures items { first.new.items ≡ fill_calls byte first.old.items log.now }
    ensures capacity { vec_capacity first.new ≡ vec_capacity first.old }
    ensures longest { vec_len first.new ≤ vec_len first.old + lens log.now }
{
    for call in log {
        fill_range(first, *call, byte);
    }
}

fn fill_range(first: &mut Vec<u8>, call: Call, byte: u8)
    requires room { vec_len first.old + len_of call ≤ vec_capacity first.old }
    ensures items { first.new.items ≡ fill_one byte first.old.items call }
    ensures capacity { vec_capacity first.new ≡ vec_capacity first.old }
    ensures longest { vec_len first.new ≤ vec_len first.old + len_of call }
{
    match call {
        Call::Write { place, len } | Call::Blank { place, len } => fill_over(
            first, place, len, byte,
        ),
        Call::Late { .. } | Call::Sync => {}
    }
}

// Lays all that was synced over the first bytes, and gives the number of calls up to the last sync.
fn settle(first: &mut Vec<u8>, log: &[Call], bytes: &[u8]) -> usize
    requires own { all_taken log.now ≤ length bytes.now }
    requires room { vec_len first.old + lens log.now ≤ vec_capacity first.old }
    ensures within { result ≤ length log.now }
    ensures rest { has_sync (drop result log.now) ≡ false }
    ensures found { 0 < result → slice_get log.now (result - 1) ≡ Some Sync }
    ensures items { first.new.items ≡ (after (start first.old.items) log.now bytes.now).synced }
    ensures capacity { vec_capacity first.new ≡ vec_capacity first.old }
    ensures longest { vec_len first.new + lens (drop result log.now) ≤ vec_len first.old + lens log.now }
{
    let last = last_sync(log);
    lay_calls(first, &log[..last], bytes);
    last
}

// Makes both the bytes that survive a cut.
fn survive_cut(first: &mut Vec<u8>, shown: &mut Vec<u8>, log: &[Call], bytes: &[u8], fill: Fill)
    requires agrees { shown.old.items ≡ (after (start first.old.items) log.now bytes.now).shown }
    requires own { all_taken log.now ≤ length bytes.now }
    requires short { length shown.old.items ≤ length first.old.items + lens log.now }
    requires first_room { vec_len first.old + lens log.now ≤ vec_capacity first.old }
    requires shown_room { vec_len first.old + lens log.now ≤ vec_capacity shown.old }
    ensures first { first.new.items ≡ survivor fill (at_cut (start first.old.items) log.now bytes.now) }
    ensures shown { shown.new.items ≡ survivor fill (at_cut (start first.old.items) log.now bytes.now) }
{
    match fill {
        Fill::New => copy_over(first, shown.as_slice()),
        Fill::Old => {
            settle(first, log, bytes);
            copy_over(shown, first.as_slice());
        }
        Fill::Byte(byte) => {
            let last = settle(first, log, bytes);
            fill_ranges(first, &log[last..], byte);
            copy_over(shown, first.as_slice());
        }
    }
}

/// Makes both the bytes that a restart finds: `first` has those at the start, and `shown` those that a read gives.
pub fn survive(
    first: &mut Vec<u8>,
    shown: &mut Vec<u8>,
    log: &[Call],
    bytes: &[u8],
    cut: Option<Fill>,
)
    requires agrees { shown.old.items ≡ (after (start first.old.items) log.now bytes.now).shown }
    requires own { all_taken log.now ≤ length bytes.now }
    requires short { length shown.old.items ≤ length first.old.items + lens log.now }
    requires first_room { vec_len first.old + lens log.now ≤ vec_capacity first.old }
    requires shown_room { vec_len first.old + lens log.now ≤ vec_capacity shown.old }
    ensures first { first.new.items ≡ restart_of cut first.old.items log.now bytes.now }
    ensures shown { shown.new.items ≡ restart_of cut first.old.items log.now bytes.now }
{
    match cut {
        None => copy_over(first, shown.as_slice()),
        Some(fill) => survive_cut(first, shown, log, bytes, fill),
    }
}
