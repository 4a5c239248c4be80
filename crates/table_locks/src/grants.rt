// Who stops whom in a queue of locks.
ghost use Rattle.std.specs.Prelude.{◌≡◌};
ghost use Rattle.table_locks.specs.Grants.{IsIn, first_write, kind_of, stopped_by};

/// What a lock allows beside itself.
#[derive(Clone, Copy, Debug, PartialEq, Eq)]
pub enum LockKind {
    /// Other READ locks on the table may be held at the same time.
    Read,
    /// No other lock on the table may be held at the same time.
    Write,
}

/// An entry in the queue of a table.
#[derive(Clone, Copy, Debug, PartialEq, Eq)]
pub struct LockEntry {
    /// Its place: entries are queued in the order of their numbers.
    pub number: u64,
    /// What it asks for.
    pub kind: LockKind,
    /// The transaction that it is for.
    pub tid: u64,
}

// The transaction of the first WRITE entry before that of `tid`.
fn write_before(entries: &[LockEntry], tid: u64) -> Option<u64>
    ensures { result ≡ first_write entries.now tid }
{
    for entry in entries {
        if entry.tid == tid {
            return None;
        }
        match entry.kind {
            LockKind::Write => return Some(entry.tid),
            LockKind::Read => {}
        }
    }
    None
}

fn lock_kind(entries: &[LockEntry], tid: u64) -> LockKind
    ensures { result ≡ kind_of entries.now tid }
{
    for entry in entries {
        if entry.tid == tid {
            return entry.kind;
        }
    }
    LockKind::Read
}

/// None where the entry of `tid` is granted, else the transaction that stops it: of a READ entry the first WRITE entry's
/// before it, of a WRITE entry the first entry's. There is an entry of `tid`, and the entries are in order of number.
///
/// Takes no memory; the time grows with the entries. Asks nothing of a host.
pub fn granted(entries: &[LockEntry], tid: u64) -> Option<u64>
    requires { IsIn entries.now tid }
    ensures { result ≡ stopped_by entries.now tid }
{
    match lock_kind(entries, tid) {
        LockKind::Read => write_before(entries, tid),
        LockKind::Write => match entries {
            [] => None,
            [first, ..] => {
                if first.tid == tid {
                    None
                } else {
                    Some(first.tid)
                }
            }
        },
    }
}
