// Updates as bytes.
ghost use Rattle.std.specs.Prelude.{◌≡◌, ◌↔◌, ◌++◌, [], ◌∷◌, All, IsTrue, IfOk, OnOk, MatchOption};
ghost use Rattle.std.specs.List.{flat_map};
ghost use Rattle.std.specs.Option.{option_copied};
ghost use Rattle.metadata_schema.specs.Columns.{update_cmp};
ghost use Rattle.log_files.specs.Mutations.{spelled_value, spelled_update, spelled_updates, FitsValue, FitsUpdate, AreUpdates, AreRising};
ghost use Rattle.log_files.specs.Parts.{Starts, StartsNone, StartsMany, StartsFewer};

use bytes_form::{
    put_flag, put_long, put_short, put_u32, take_flag, take_long, take_short, take_u32,
};
use metadata_schema::Update;
use row_keys::Octets;
use std::alloc::{AllocError, Global};
use std::cmp::Ordering;

fn put_value(out: &mut Vec<u8>, value: Option<&Octets>) -> Result<(), AllocError>
    requires { FitsValue (option_copied value) }
    ensures { OnOk result (out.new.items ≡ out.old.items ++ spelled_value (option_copied value.entry)) }
{
    put_flag(out, value.is_some())?;
    match value {
        Some(value) => put_long(out, value.as_bytes()),
        None => Ok(()),
    }
}

fn put_update(out: &mut Vec<u8>, update: &Update) -> Result<(), AllocError>
    requires { FitsUpdate update.now }
    ensures { OnOk result (out.new.items ≡ out.old.items ++ spelled_update update.now) }
{
    put_short(out, update.family.as_bytes())?;
    put_short(out, update.qualifier.as_bytes())?;
    put_value(out, update.value.as_ref())
}

fn put_each(out: &mut Vec<u8>, updates: &[Update]) -> Result<(), AllocError>
    requires { All FitsUpdate updates.now }
    ensures { OnOk result (out.new.items ≡ out.old.items ++ flat_map spelled_update updates.now) }
{
    for update in updates {
        put_update(out, update)?;
    }
    Ok(())
}

/// Adds the updates' bytes, behind their number.
pub fn put_updates(out: &mut Vec<u8>, updates: &[Update]) -> Result<(), AllocError>
    requires { AreUpdates updates.now }
    ensures { OnOk result (out.new.items ≡ out.old.items ++ spelled_updates updates.now) }
{
    put_u32(out, updates.len() as u32)?;
    put_each(out, updates)
}

fn take_value(alloc: Global, bytes: &[u8]) -> Result<Option<(Option<Octets>, &[u8])>, AllocError>
    ensures { IfOk result (λ found. MatchOption found (StartsNone FitsValue spelled_value bytes.now) (λ taken. Starts FitsValue spelled_value bytes.now taken.0 taken.1.now)) }
{
    let Ok(flag) = take_flag(bytes) else {
        return Ok(None);
    };
    if !flag.value {
        return Ok(Some((None, flag.rest)));
    }
    let Ok(value) = take_long(flag.rest) else {
        return Ok(None);
    };
    Ok(Some((Some(Octets::new(alloc, value.value)?), value.rest)))
}

fn take_update(alloc: Global, bytes: &[u8]) -> Result<Option<(Update, &[u8])>, AllocError>
    ensures { IfOk result (λ found. MatchOption found (StartsNone FitsUpdate spelled_update bytes.now) (λ taken. Starts FitsUpdate spelled_update bytes.now taken.0 taken.1.now)) }
{
    let Ok(family) = take_short(bytes) else {
        return Ok(None);
    };
    let Ok(qualifier) = take_short(family.rest) else {
        return Ok(None);
    };
    let Some((value, rest)) = take_value(alloc, qualifier.rest)? else {
        return Ok(None);
    };
    let update = Update {
        family: Octets::new(alloc, family.value)?,
        qualifier: Octets::new(alloc, qualifier.value)?,
        value,
    };
    Ok(Some((update, rest)))
}

fn update_cmp(one: &Update, other: &Update) -> Ordering
    ensures { result ≡ update_cmp one.now other.now }
{
    one.family
        .cmp(&other.family)
        .then(one.qualifier.cmp(&other.qualifier))
}

/// Whether the update's column is above those of the updates, which rise.
fn follows(updates: &[Update], update: &Update) -> bool
    requires { AreRising updates.now }
    ensures { IsTrue result ↔ AreRising (updates.now ++ update.now ∷ []) }
{
    match updates.last() {
        Some(last) => update_cmp(last, update).is_lt(),
        None => true,
    }
}

/// So many updates in front of the bytes and what is behind them, or none where they don't stand there in order.
fn take_each(
    alloc: Global,
    bytes: &[u8],
    count: u32,
) -> Result<Option<(Vec<Update>, &[u8])>, AllocError>
    ensures { IfOk result (λ found. MatchOption found (StartsFewer FitsUpdate AreRising spelled_update count bytes.now) (λ taken. StartsMany FitsUpdate AreRising spelled_update count bytes.now taken.0.items taken.1.now)) }
{
    let mut updates = Vec::new(alloc);
    let mut rest = bytes;
    for _ in 0..count {
        let Some((update, after)) = take_update(alloc, rest)? else {
            return Ok(None);
        };
        if !follows(&updates, &update) {
            return Ok(None);
        }
        updates.push(update)?;
        rest = after;
    }
    Ok(Some((updates, rest)))
}

/// The updates in front of the bytes and what is behind them, or none where none stand there whole and in order.
pub fn take_updates(alloc: Global, bytes: &[u8]) -> Result<Option<(Vec<Update>, &[u8])>, AllocError>
    ensures { IfOk result (λ found. MatchOption found (StartsNone AreUpdates spelled_updates bytes.now) (λ taken. Starts AreUpdates spelled_updates bytes.now taken.0.items taken.1.now)) }
{
    let Ok(count) = take_u32(bytes) else {
        return Ok(None);
    };
    if count.value == 0 {
        return Ok(None);
    }
    let Some((updates, rest)) = take_each(alloc, count.rest, count.value)? else {
        return Ok(None);
    };
    Ok(Some((updates, rest)))
}
