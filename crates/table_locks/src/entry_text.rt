// How nodes spell entries of queues.
ghost use Rattle.std.specs.Prelude.{◌≡◌, ◌++◌, ℕ, ◌<◌, ◌≤◌, ◌^◌, length, Some, IfOk, MatchOption, codes};
ghost use Rattle.std.specs.Fmt.{decimal};
ghost use Rattle.table_locks.specs.Entries.{padded, queue_path, lock_path, lock_value};
ghost use Rattle.table_locks.specs.declared.grants.LockKind.{LockKind};

use crate::LockKind;
use row_keys::{Path, TableId};
use std::alloc::{AllocError, Global};
use std::str;

const LOCKS: &[u8; 7] = b"/locks/";

const LOCK: &[u8; 6] = b"/lock-";

const ZEROS: &[u8; 10] = b"0000000000";

// The bytes of `/locks/ID`.
fn queue_bytes(alloc: Global, table: &TableId) -> Result<Vec<u8>, AllocError>
    ensures bytes { IfOk result (λ bytes. bytes.items ≡ queue_path table.now) }
    ensures short { IfOk result (λ bytes. length bytes.items ≤ 20) }
{
    let mut bytes = LOCKS.to_vec(alloc)?;
    bytes.extend_from_slice(table.as_bytes())?;
    Ok(bytes)
}

// The bytes of `/locks/ID/lock-`.
fn lock_front(alloc: Global, table: &TableId) -> Result<Vec<u8>, AllocError>
    ensures bytes { IfOk result (λ bytes. bytes.items ≡ queue_path table.now ++ codes "/lock-") }
    ensures short { IfOk result (λ bytes. length bytes.items ≤ 26) }
{
    let mut bytes = queue_bytes(alloc, table)?;
    bytes.extend_from_slice(LOCK)?;
    Ok(bytes)
}

// The number in decimal, padded with zeros to ten digits.
fn padded_number(alloc: Global, number: u64) -> Result<Vec<u8>, AllocError>
    ensures bytes { IfOk result (λ bytes. bytes.items ≡ padded number) }
    ensures short { IfOk result (λ bytes. length bytes.items ≤ 30) }
{
    let text = number.to_string(alloc)?;
    let mut bytes = Vec::new(alloc);
    if text.len() < ZEROS.len() {
        bytes.extend_from_slice(&ZEROS[text.len()..])?;
    }
    bytes.extend_from_slice(text.as_bytes())?;
    Ok(bytes)
}

/// The path under which the entries of a table are. Takes memory for it.
pub fn queue_path(alloc: Global, table: &TableId) -> Result<Path, AllocError>
    ensures { IfOk result (λ path. path ≡ queue_path table.now) }
{
    let bytes = queue_bytes(alloc, table)?;
    match Path::new(alloc, &bytes)? {
        Some(path) => Ok(path),
        None => unreachable!(),
    }
}

/// The path of the entry of this number. Takes memory for it.
pub fn lock_path(alloc: Global, table: &TableId, number: u64) -> Result<Path, AllocError>
    ensures { IfOk result (λ path. path ≡ lock_path table.now number) }
{
    let mut bytes = lock_front(alloc, table)?;
    let digits = padded_number(alloc, number)?;
    bytes.extend_from_slice(&digits)?;
    match Path::new(alloc, &bytes)? {
        Some(path) => Ok(path),
        None => unreachable!(),
    }
}

// A number in decimal, that may have zeros in front or be no number at all.
fn parsed(text: &[u8]) -> Option<u64>
    ensures plain { (number : ℕ) → number < 2 ^ 64 → text.now ≡ decimal number → result ≡ Some number }
    ensures padded { (number : ℕ) → number < 2 ^ 64 → text.now ≡ padded number → result ≡ Some number }
{
    let text = str::from_utf8(text).ok()?;
    text.parse().ok()
}

/// The number of the entry of this path, if it is one's. Takes memory for the path of that number.
pub fn number_at(alloc: Global, table: &TableId, path: &Path) -> Result<Option<u64>, AllocError>
    ensures { IfOk result (λ found. MatchOption found ((number : ℕ) → number < 2 ^ 64 → path.now ≡ lock_path table.now number → ⊥) (λ number. path.now ≡ lock_path table.now number)) }
{
    let front = lock_front(alloc, table)?;
    let Some(digits) = path.as_bytes().strip_prefix(front.as_slice()) else {
        return Ok(None);
    };
    let Some(number) = parsed(digits) else {
        return Ok(None);
    };
    let spelled = lock_path(alloc, table, number)?;
    let same = spelled.as_bytes() == path.as_bytes();
    Ok(same.then_some(number))
}

// The transaction that a text names, in decimal without leading zeros.
fn transaction_of(alloc: Global, text: &[u8]) -> Result<Option<u64>, AllocError>
    ensures { IfOk result (λ found. MatchOption found ((tid : ℕ) → tid < 2 ^ 64 → text.now ≡ decimal tid → ⊥) (λ tid. text.now ≡ decimal tid)) }
{
    let Some(tid) = parsed(text) else {
        return Ok(None);
    };
    let spelled = tid.to_string(alloc)?;
    let same = spelled.as_bytes() == text;
    Ok(same.then_some(tid))
}

// The kind in front of a value, and what stands behind it.
fn kind_of(value: &[u8]) -> Option<(LockKind, &[u8])>
    ensures { MatchOption result ((kind : LockKind) (tid : ℕ) → value.now ≡ lock_value kind tid → ⊥) (λ parts. (tid : ℕ) → (value.now ≡ lock_value parts.0 tid → parts.1.now ≡ decimal tid) × (parts.1.now ≡ decimal tid → value.now ≡ lock_value parts.0 tid)
        × ((kind : LockKind) → value.now ≡ lock_value kind tid → kind ≡ parts.0)) }
{
    match value {
        [b'R', b'E', b'A', b'D', b' ', text @ ..] => Some((LockKind::Read, text)),
        [b'W', b'R', b'I', b'T', b'E', b' ', text @ ..] => Some((LockKind::Write, text)),
        _ => None,
    }
}

/// The kind and the transaction that a value says, if it is an entry's. Takes memory for the spelling of a number.
pub fn read_value(alloc: Global, value: &[u8]) -> Result<Option<(LockKind, u64)>, AllocError>
    ensures { IfOk result (λ found. MatchOption found ((kind : LockKind) (tid : ℕ) → tid < 2 ^ 64 → value.now ≡ lock_value kind tid → ⊥) (λ parts. value.now ≡ lock_value parts.0 parts.1)) }
{
    let Some((kind, text)) = kind_of(value) else {
        return Ok(None);
    };
    match transaction_of(alloc, text)? {
        Some(tid) => Ok(Some((kind, tid))),
        None => Ok(None),
    }
}
