// What holds of who is granted.
ghost use Rattle.std.specs.Prelude.{◌≡◌, ◌≢◌, ◌++◌, ◌∷◌, List, None};
ghost use Rattle.table_locks.specs.Grants.{Lacks, IsOneWrite, AreReads, stopped_by};
ghost use Rattle.table_locks.specs.declared.grants.LockEntry.{LockEntry};
ghost use Rattle.table_locks.specs.declared.grants.LockKind.TheVariants.{Read};

/// Of two entries of which one is WRITE, the later isn't granted while the earlier is queued.
pub fn earlier_first()
    ensures { (before between after : List LockEntry) (one two : LockEntry) → Lacks (before ++ one ∷ between) two.tid → IsOneWrite one two
        → stopped_by (before ++ one ∷ (between ++ two ∷ after)) two.tid ≢ None }
{}

/// The first entry is granted, so after the release of all before it each entry is.
pub fn first_is_granted()
    ensures { (one : LockEntry) (after : List LockEntry) → stopped_by (one ∷ after) one.tid ≡ None }
{}

/// A READ entry behind READ entries alone is granted.
pub fn reads_go_together()
    ensures { (before after : List LockEntry) (one : LockEntry) → Lacks before one.tid → AreReads before → one.kind ≡ Read
        → stopped_by (before ++ one ∷ after) one.tid ≡ None }
{}
