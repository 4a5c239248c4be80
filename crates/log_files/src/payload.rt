// Mutations as bytes.
ghost use Rattle.std.specs.Prelude.{◌≡◌, ◌<◌, length, IfOk, MatchOption};
ghost use Rattle.row_keys.specs.Forms.{IsTableId};
ghost use Rattle.bytes_form.specs.Fields.{short_field, long_field, number_field};
ghost use Rattle.std.specs.Int.{w64};
ghost use Rattle.log_files.specs.Mutations.{IsSpelled, IsMutation, FitsRow, FitsTime};
ghost use Rattle.log_files.specs.Parts.{Starts, StartsNone, IsNoMutation};

use crate::updates::{put_updates, take_updates};
use bytes_form::{put_long, put_short, put_u64, take_long, take_short, take_u64};
use metadata_schema::{Mutation, Updates};
use row_keys::{KeyForm, Row, TableId};
use std::alloc::{AllocError, Global};

/// No mutation's time reaches this one.
const END_OF_TIME: u64 = 1 << 63;

/// The bytes that a log keeps of a mutation: its table behind a length byte, its row behind two, its time in eight bytes, and
/// its updates behind their number in four.
///
/// Want of memory is the only error. How many bytes there are is not looked at here: where they are 2^32 or more the append
/// to the log refuses them with `Full`, before it writes. Takes memory for the bytes, and time with them. The format is this
/// project's own.
pub fn mutation_bytes(alloc: Global, mutation: &Mutation) -> Result<Vec<u8>, AllocError>
    requires { IsSpelled mutation.now }
    ensures { IfOk result (λ bytes. IsMutation bytes.items mutation.now) }
{
    let mut bytes = Vec::new(alloc);
    put_short(&mut bytes, mutation.table.as_bytes())?;
    put_long(&mut bytes, mutation.row.as_bytes())?;
    put_u64(&mut bytes, mutation.time)?;
    put_updates(&mut bytes, mutation.updates.as_slice())?;
    Ok(bytes)
}

fn take_table(alloc: Global, bytes: &[u8]) -> Result<Option<(TableId, &[u8])>, AllocError>
    ensures { IfOk result (λ found. MatchOption found (StartsNone IsTableId short_field bytes.now) (λ taken. Starts IsTableId short_field bytes.now taken.0 taken.1.now)) }
{
    let Ok(table) = take_short(bytes) else {
        return Ok(None);
    };
    match TableId::new(alloc, table.value)? {
        Some(id) => Ok(Some((id, table.rest))),
        None => Ok(None),
    }
}

fn row_of(alloc: Global, bytes: &[u8]) -> Result<Option<Row>, AllocError>
    ensures { IfOk result (λ found. MatchOption found (300 < length bytes.now) (λ row. (row ≡ bytes.now) × FitsRow row)) }
{
    match Row::new(alloc, bytes) {
        Ok(row) => Ok(Some(row)),
        Err(KeyForm::NoMemory) => Err(AllocError),
        Err(_) => Ok(None),
    }
}

fn take_row(alloc: Global, bytes: &[u8]) -> Result<Option<(Row, &[u8])>, AllocError>
    ensures { IfOk result (λ found. MatchOption found (StartsNone FitsRow long_field bytes.now) (λ taken. Starts FitsRow long_field bytes.now taken.0 taken.1.now)) }
{
    let Ok(row) = take_long(bytes) else {
        return Ok(None);
    };
    match row_of(alloc, row.value)? {
        Some(own) => Ok(Some((own, row.rest))),
        None => Ok(None),
    }
}

fn take_time(bytes: &[u8]) -> Option<(u64, &[u8])>
    ensures { MatchOption result (StartsNone FitsTime (number_field w64) bytes.now) (λ taken. Starts FitsTime (number_field w64) bytes.now taken.0 taken.1.now) }
{
    let Ok(time) = take_u64(bytes) else {
        return None;
    };
    if time.value >= END_OF_TIME {
        return None;
    }
    Some((time.value, time.rest))
}

/// The mutation that these bytes are, or none where they are no mutation's. Takes memory for it, and time with the bytes.
pub fn read_mutation(alloc: Global, bytes: &[u8]) -> Result<Option<Mutation>, AllocError>
    ensures { IfOk result (λ found. MatchOption found (IsNoMutation bytes.now) (λ mutation. IsMutation bytes.now mutation)) }
{
    let Some((table, rest)) = take_table(alloc, bytes)? else {
        return Ok(None);
    };
    let Some((row, rest)) = take_row(alloc, rest)? else {
        return Ok(None);
    };
    let Some((time, rest)) = take_time(rest) else {
        return Ok(None);
    };
    let Some((updates, rest)) = take_updates(alloc, rest)? else {
        return Ok(None);
    };
    if !rest.is_empty() {
        return Ok(None);
    }
    Ok(Some(Mutation {
        table,
        row,
        time,
        updates: Updates::from_vec(updates),
    }))
}
