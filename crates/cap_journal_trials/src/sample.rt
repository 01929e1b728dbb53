// Three entries with the record of each.
ghost use Rattle.std.specs.Prelude.{◌≡◌, ◌≤◌, ◌+◌, ◌++◌, length, true, Option, Some, vec_len, vec_capacity};

use cap_base::Memory;
use cap_journal::Record;
use std::alloc::{AllocError, Global};

/// An entry that is one of three.
#[derive(Copy, Debug, PartialEq, Eq, Drop)]
pub enum Sample {
    Setup,
    Begin,
    Completed,
}

/// The record of `Setup`: terminal T1 of ACQ1, with max 1000 and floor 20.00.
const SETUP: [u8; 25] = [
    0x01, 0x02, 0x54, 0x31, 0x04, 0x41, 0x43, 0x51, 0x31, 0, 0, 0, 0, 0, 0, 0x03, 0xe8, 0, 0, 0, 0,
    0, 0, 0x07, 0xd0,
];

/// The record of `Begin`: sale 1 of 12.50 on account 4000001234567899.
const BEGIN: [u8; 34] = [
    0x02, 0, 0, 0, 0, 0, 0, 0, 0x01, 0, 0, 0, 0, 0, 0, 0x04, 0xe2, 0x10, 0x34, 0x30, 0x30, 0x30,
    0x30, 0x30, 0x31, 0x32, 0x33, 0x34, 0x35, 0x36, 0x37, 0x38, 0x39, 0x39,
];

/// The record of `Completed`: sale 1 with the code OFFLIN.
const COMPLETED: [u8; 15] = [
    0x04, 0, 0, 0, 0, 0, 0, 0, 0x01, 0x4f, 0x46, 0x46, 0x4c, 0x49, 0x4e,
];

impl Clone for Sample {
    ghost is_clone = { λ value clone. clone ≡ value };

    fn clone(&self) -> Result<Self, AllocError> {
        Ok(*self)
    }
}

// Appends bytes for which there is room.
fn append(out: &mut Vec<u8>, bytes: &[u8])
    requires { vec_len out.old + length bytes.now ≤ vec_capacity out.old }
    ensures items { out.new.items ≡ out.old.items ++ bytes.now }
    ensures capacity { vec_capacity out.new ≡ vec_capacity out.old }
{
    for byte in bytes {
        out.push_reserved(*byte);
    }
}

impl Record for Sample {
    ghost use Rattle.cap_journal_trials.specs.Sample.{sample_bytes, sample_reading, sample_reads_back, sample_low, sample_high, sample_reads_only};

    ghost fits = { λ _. true };

    ghost bytes_of = { sample_bytes };

    ghost reading = { sample_reading };

    ghost reads_back = { λ value rest fits. sample_reads_back value rest };

    ghost size_low = { λ value fits. sample_low value };

    ghost size_high = { λ value fits. sample_high value };

    ghost reads_only = { λ value size bytes is. sample_reads_only value size bytes is };

    ghost clones = { λ value clone is. is };

    fn read(_alloc: Global, bytes: &[u8]) -> Result<Option<(Self, usize)>, Memory> {
        if bytes.starts_with(&SETUP) {
            return Ok(Some((Sample::Setup, 25)));
        }
        if bytes.starts_with(&BEGIN) {
            return Ok(Some((Sample::Begin, 34)));
        }
        if bytes.starts_with(&COMPLETED) {
            return Ok(Some((Sample::Completed, 15)));
        }
        Ok(None)
    }

    fn write(&self, out: &mut Vec<u8>) {
        match self {
            Sample::Setup => append(out, &SETUP),
            Sample::Begin => append(out, &BEGIN),
            Sample::Completed => append(out, &COMPLETED),
        }
    }

    fn size(&self) -> usize {
        match self {
            Sample::Setup => 25,
            Sample::Begin => 34,
            Sample::Completed => 15,
        }
    }
}
