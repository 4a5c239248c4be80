// What holds of the spellings of mutations, and of logs.
ghost use Rattle.std.specs.Prelude.{◌≡◌, ◌≢◌, ◌∷◌, ◌++◌, ℕ, List, map};
ghost use Rattle.metadata_schema.specs.declared.mutation.Mutation.{Mutation};
ghost use Rattle.bytes_form.specs.PrefixFree.{IsPrefixFree};
ghost use Rattle.journal_core.specs.Records.{spelled};
ghost use Rattle.log_files.specs.Mutations.{Bytes, spelled_mutation, IsSpelled, IsMutation};
ghost use Rattle.log_files.specs.Logs.{IsLog};
ghost use Rattle.log_files.specs.Sorted.{IsSortedLog, IsStableSortOf};

/// No mutation's spelling begins another one's.
pub fn no_mutation_begins_another()
    ensures { IsPrefixFree IsSpelled spelled_mutation }
{}

/// A mutation has one spelling, and a payload one mutation.
pub fn a_payload_has_one_mutation()
    ensures mutation { (bytes : Bytes) (one other : Mutation) → IsMutation bytes one → IsMutation bytes other → one ≡ other }
    ensures bytes { (one other : Bytes) (mutation : Mutation) → IsMutation one mutation → IsMutation other mutation → one ≡ other }
{}

/// A file is the log of at most one list of mutations.
pub fn a_log_has_one_list_of_mutations()
    ensures { (bytes : Bytes) (one other : List Mutation) → IsLog bytes one → IsLog bytes other → one ≡ other }
{}

/// Whatever stands behind a log's records from a gate on that isn't open, the file is the log of the same mutations.
pub fn what_follows_the_closed_gate_is_free()
    ensures { (bytes rest : Bytes) (gate : ℕ) (mutations : List Mutation) → IsLog bytes mutations → gate ≢ 1 → IsLog (spelled (map spelled_mutation mutations) ++ gate ∷ rest) mutations }
{}

/// A file is the sorted log of at most one list of mutations, and a list of mutations has at most one such file.
pub fn a_sorted_log_has_one_list()
    ensures mutations { (bytes : Bytes) (one other : List Mutation) → IsSortedLog bytes one → IsSortedLog bytes other → one ≡ other }
    ensures bytes { (one other : Bytes) (mutations : List Mutation) → IsSortedLog one mutations → IsSortedLog other mutations → one ≡ other }
{}

/// Mutations have one stable sort.
pub fn mutations_have_one_stable_sort()
    ensures { (mutations one other : List Mutation) → IsStableSortOf mutations one → IsStableSortOf mutations other → one ≡ other }
{}
