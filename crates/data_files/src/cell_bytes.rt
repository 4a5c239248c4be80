// Cells as bytes.
ghost use Rattle.std.specs.Prelude.{◌≡◌, ◌++◌, ◌<◌, ◌≤◌, ◌^◌, length, IfOk, IfSome, OnOk, MatchOption};
ghost use Rattle.std.specs.Option.{option_copied};
ghost use Rattle.data_files.specs.Cells.{spelled_key, spelled_value, spelled_cell, FitsKey, FitsCell};
ghost use Rattle.data_files.specs.Parts.{StartsKey, StartsNoKey, StartsValue, StartsNoValue, StartsCell, StartsNoCell};

use crate::sizes::END_OF_TIME;
use bytes_form::{
    put_flag, put_long, put_short, put_u64, take_flag, take_long, take_short, take_u64,
};
use cell_merge::Cell;
use row_keys::{Key, KeyForm, Octets, Row};
use std::alloc::{AllocError, Global};

fn put_key(out: &mut Vec<u8>, key: &Key) -> Result<(), AllocError>
    requires { FitsKey key.now }
    ensures { OnOk result (out.new.items ≡ out.old.items ++ spelled_key key.now) }
{
    put_long(out, key.row.as_bytes())?;
    put_short(out, key.family.as_bytes())?;
    put_short(out, key.qualifier.as_bytes())
}

fn put_value(out: &mut Vec<u8>, value: Option<&Octets>) -> Result<(), AllocError>
    requires { IfSome (option_copied value) (λ value. length value < 2 ^ 16) }
    ensures { OnOk result (out.new.items ≡ out.old.items ++ spelled_value (option_copied value.entry)) }
{
    put_flag(out, value.is_some())?;
    match value {
        Some(value) => put_long(out, value.as_bytes()),
        None => Ok(()),
    }
}

/// Adds a cell's bytes.
pub fn put_cell(out: &mut Vec<u8>, cell: &Cell) -> Result<(), AllocError>
    requires { FitsCell cell.now }
    ensures { OnOk result (out.new.items ≡ out.old.items ++ spelled_cell cell.now) }
{
    put_key(out, &cell.key)?;
    put_u64(out, cell.time)?;
    put_value(out, cell.value.as_ref())
}

fn take_row(alloc: Global, bytes: &[u8]) -> Result<Option<Row>, AllocError>
    ensures { IfOk result (λ found. MatchOption found (300 < length bytes.now) (λ row. (row ≡ bytes.now) × (length row ≤ 300))) }
{
    match Row::new(alloc, bytes) {
        Ok(row) => Ok(Some(row)),
        Err(KeyForm::NoMemory) => Err(AllocError),
        Err(_) => Ok(None),
    }
}

fn take_key(alloc: Global, bytes: &[u8]) -> Result<Option<(Key, &[u8])>, AllocError>
    ensures { IfOk result (λ found. MatchOption found (StartsNoKey bytes.now) (λ taken. StartsKey bytes.now taken.0 taken.1.now)) }
{
    let Ok(row) = take_long(bytes) else {
        return Ok(None);
    };
    let Ok(family) = take_short(row.rest) else {
        return Ok(None);
    };
    let Ok(qualifier) = take_short(family.rest) else {
        return Ok(None);
    };
    let Some(row) = take_row(alloc, row.value)? else {
        return Ok(None);
    };
    let key = Key {
        row,
        family: Octets::new(alloc, family.value)?,
        qualifier: Octets::new(alloc, qualifier.value)?,
    };
    Ok(Some((key, qualifier.rest)))
}

fn take_value(alloc: Global, bytes: &[u8]) -> Result<Option<(Option<Octets>, &[u8])>, AllocError>
    ensures { IfOk result (λ found. MatchOption found (StartsNoValue bytes.now) (λ taken. StartsValue bytes.now taken.0 taken.1.now)) }
{
    let Ok(flag) = take_flag(bytes) else {
        return Ok(None);
    };
    if !flag.value {
        return Ok(Some((None, flag.rest)));
    }
    let Ok(value) = take_long(flag.rest) else {
        return Ok(None);
    };
    Ok(Some((Some(Octets::new(alloc, value.value)?), value.rest)))
}

/// The cell in front of the bytes and what is behind it, or none where no cell stands there whole.
pub fn take_cell(alloc: Global, bytes: &[u8]) -> Result<Option<(Cell, &[u8])>, AllocError>
    ensures { IfOk result (λ found. MatchOption found (StartsNoCell bytes.now) (λ taken. StartsCell bytes.now taken.0 taken.1.now)) }
{
    let Some((key, rest)) = take_key(alloc, bytes)? else {
        return Ok(None);
    };
    let Ok(time) = take_u64(rest) else {
        return Ok(None);
    };
    if time.value >= END_OF_TIME {
        return Ok(None);
    }
    let Some((value, rest)) = take_value(alloc, time.rest)? else {
        return Ok(None);
    };
    let cell = Cell {
        key,
        time: time.value,
        value,
    };
    Ok(Some((cell, rest)))
}
