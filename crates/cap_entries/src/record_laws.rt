// What the records of all entries keep, as far as the ends rest on it.
ghost use Rattle.std.specs.Prelude.{◌≡◌, ◌≤◌, ℕ, List, [], true, length, map, sum};
ghost use Rattle.std.specs.List.{list_all};
ghost use Rattle.cap_entries.specs.declared.terminal.TermEntry.{TermEntry};
ghost use Rattle.cap_entries.specs.declared.host.HostEntry.{HostEntry};
ghost use Rattle.cap_entries.specs.Allowed.{allowed, all_allowed};
ghost use Rattle.cap_entries.specs.HostAllowed.{host_allowed, all_host_allowed};
ghost use Rattle.cap_entries.specs.TermRecord.{has_term_types, has_version, is_small_term, term_fits, term_record};
ghost use Rattle.cap_entries.specs.HostRecord.{has_host_types, is_took, host_fits, host_record};

/// What is allowed after a legal list fits its record, where its fields are values of their types. Of a part of a parameter set the
/// version must have at most ten digits besides.
pub fn allowed_entries_fit()
    ensures terminal { (before : List TermEntry) (entry : TermEntry) → all_allowed [] before ≡ true → allowed before entry ≡ true → has_term_types entry ≡ true → has_version entry ≡ true → term_fits entry ≡ true }
    ensures host { (before : List HostEntry) (entry : HostEntry) → all_host_allowed [] before ≡ true → host_allowed before entry ≡ true → has_host_types entry ≡ true → host_fits entry ≡ true }
{}

/// A record has at most 65,536 bytes, and at most 72 where it is no set-up, no part of a parameter set and no parameter set.
pub fn records_are_bounded()
    ensures terminal { (entry : TermEntry) → term_fits entry ≡ true → length (term_record entry) ≤ 65536 }
    ensures host { (entry : HostEntry) → host_fits entry ≡ true → length (host_record entry) ≤ 65536 }
    ensures small { (entry : TermEntry) → is_small_term entry ≡ true → term_fits entry ≡ true → length (term_record entry) ≤ 72 }
    ensures took { (entry : HostEntry) → is_took entry ≡ true → host_fits entry ≡ true → length (host_record entry) ≤ 72 }
{}

/// The records of up to 100 items taken are one group.
pub fn batches_are_groups()
    ensures { (added : List HostEntry) → list_all is_took added ≡ true → list_all host_fits added ≡ true → length added ≤ 100 → sum (map (λ entry. length (host_record entry)) added) ≤ 65536 }
{}
