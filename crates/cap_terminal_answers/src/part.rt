ghost use Rattle.std.specs.Prelude.{◌≡◌, None};
ghost use Rattle.cap_entries.specs.InForce.{version_in_force};
ghost use Rattle.cap_entries.specs.Allowed.{part_allowed};
ghost use Rattle.cap_terminal_answers.specs.Numbers.{numbers_of, numbers_continue, numbers_version, numbers_part, numbers_allow};

use cap_base::ConfigPart;
use cap_entries::TermEntry;

/// The numbers of a part of a parameter set.
#[derive(Clone, Copy, Debug, PartialEq, Eq)]
pub struct PartNumbers {
    pub version: u64,
    pub part: u64,
    pub parts: u64,
}

// The last version of which the last part is there; 0 where there is none.
fn in_force(entries: &[TermEntry]) -> u64
    ensures { result ≡ version_in_force entries.now }
{
    let mut version = 0;
    for entry in entries {
        if let TermEntry::Part(part) = entry {
            if part.part == part.parts {
                version = part.version;
            }
        }
    }
    version
}

// The numbers of the last part, if there is one.
fn last_part(entries: &[TermEntry]) -> Option<PartNumbers>
    ensures { result ≡ numbers_of None entries.now }
{
    let mut last = None;
    for entry in entries {
        if let TermEntry::Part(part) = entry {
            last = Some(PartNumbers {
                version: part.version,
                part: part.part,
                parts: part.parts,
            });
        }
    }
    last
}

fn continues(last: Option<PartNumbers>, part: &ConfigPart) -> bool
    ensures { result ≡ numbers_continue last part.now }
{
    match last {
        Some(last) => {
            part.version == last.version
                && part.parts == last.parts
                && part.part.checked_sub(1) == Some(last.part)
        }
        None => false,
    }
}

/// The version of the last part; 0 where there is none.
pub fn version(last: Option<PartNumbers>) -> u64
    ensures { result ≡ numbers_version last }
{
    match last {
        Some(last) => last.version,
        None => 0,
    }
}

/// The number of the last part; 0 where there is none.
pub fn part_number(last: Option<PartNumbers>) -> u64
    ensures { result ≡ numbers_part last }
{
    match last {
        Some(last) => last.part,
        None => 0,
    }
}

/// Whether a part may be added where this version is in force, and these are the numbers of the last part.
pub fn allows(in_force: u64, last: Option<PartNumbers>, part: &ConfigPart) -> bool
    ensures { result ≡ numbers_allow in_force last part.now }
{
    (1 <= part.part && part.part <= part.parts && part.parts <= 16)
        && ((part.part == 1 && in_force < part.version && version(last) < part.version)
            || continues(last, part))
}

/// Whether a part may be added after the entries.
pub fn may_add(entries: &[TermEntry], part: &ConfigPart) -> bool
    ensures { result ≡ part_allowed entries.now part.now }
{
    allows(in_force(entries), last_part(entries), part)
}
