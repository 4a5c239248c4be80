// Sorted logs as bytes.
ghost use Rattle.std.specs.Prelude.{◌≡◌, ◌++◌, map, All, IfOk, OnOk, MatchOption};
ghost use Rattle.std.specs.List.{flat_map};
ghost use Rattle.log_files.specs.Mutations.{IsLogged};
ghost use Rattle.log_files.specs.Sorted.{spelled_entry, AreInOrder, IsSortedLog};
ghost use Rattle.log_files.specs.Parts.{Starts, StartsNone, StartsMany, StartsFewer, StartsHead, StartsNoHead, HasNoSorted};

use crate::order::follows;
use crate::payload::mutation_bytes;
use crate::records::read_record;
use bytes_form::{put_sized, put_u64, take_sized, take_u64};
use metadata_schema::Mutation;
use std::alloc::{AllocError, Global};

/// What a sorted log begins with.
const MAGIC: [u8; 8] = *b"ACMLOG01";

fn put_entry(alloc: Global, out: &mut Vec<u8>, mutation: &Mutation) -> Result<(), AllocError>
    requires { IsLogged mutation.now }
    ensures { OnOk result (out.new.items ≡ out.old.items ++ spelled_entry mutation.now) }
{
    let bytes = mutation_bytes(alloc, mutation)?;
    put_sized(out, &bytes)
}

fn put_entries(alloc: Global, out: &mut Vec<u8>, mutations: &[&Mutation]) -> Result<(), AllocError>
    requires { All IsLogged (map (λ one. one.now) mutations.now) }
    ensures { OnOk result (out.new.items ≡ out.old.items ++ flat_map spelled_entry (map (λ one. one.now) mutations.now)) }
{
    for mutation in mutations {
        put_entry(alloc, out, mutation)?;
    }
    Ok(())
}

/// The bytes of a sorted log of these mutations. Takes memory for them, and time with them.
pub fn spell(alloc: Global, mutations: &[&Mutation]) -> Result<Vec<u8>, AllocError>
    requires each { All IsLogged (map (λ one. one.now) mutations.now) }
    requires in_order { AreInOrder (map (λ one. one.now) mutations.now) }
    ensures { IfOk result (λ bytes. IsSortedLog bytes.items (map (λ one. one.now) mutations.now)) }
{
    let mut bytes = Vec::new(alloc);
    bytes.extend_from_slice(&MAGIC)?;
    put_u64(&mut bytes, mutations.len() as u64)?;
    put_entries(alloc, &mut bytes, mutations)?;
    Ok(bytes)
}

/// The number of mutations and what is behind it, or none where no sorted log begins so.
fn take_head(bytes: &[u8]) -> Option<(u64, &[u8])>
    ensures { MatchOption result (StartsNoHead bytes.now) (λ taken. StartsHead bytes.now taken.0 taken.1.now) }
{
    let (magic, rest) = bytes.split_at_checked(MAGIC.len())?;
    if magic != MAGIC.as_slice() {
        return None;
    }
    let Ok(count) = take_u64(rest) else {
        return None;
    };
    Some((count.value, count.rest))
}

fn take_entry(alloc: Global, bytes: &[u8]) -> Result<Option<(Mutation, &[u8])>, AllocError>
    ensures { IfOk result (λ found. MatchOption found (StartsNone IsLogged spelled_entry bytes.now) (λ taken. Starts IsLogged spelled_entry bytes.now taken.0 taken.1.now)) }
{
    let Ok(entry) = take_sized(bytes) else {
        return Ok(None);
    };
    match read_record(alloc, entry.value)? {
        Some(mutation) => Ok(Some((mutation, entry.rest))),
        None => Ok(None),
    }
}

/// So many mutations in front of the bytes and what is behind them, or none where they don't stand there in order.
fn take_entries(
    alloc: Global,
    bytes: &[u8],
    count: u64,
) -> Result<Option<(Vec<Mutation>, &[u8])>, AllocError>
    ensures { IfOk result (λ found. MatchOption found (StartsFewer IsLogged AreInOrder spelled_entry count bytes.now) (λ taken. StartsMany IsLogged AreInOrder spelled_entry count bytes.now taken.0.items taken.1.now)) }
{
    let mut mutations = Vec::new(alloc);
    let mut rest = bytes;
    for _ in 0..count {
        let Some((mutation, after)) = take_entry(alloc, rest)? else {
            return Ok(None);
        };
        if !follows(&mutations, &mutation) {
            return Ok(None);
        }
        mutations.push(mutation)?;
        rest = after;
    }
    Ok(Some((mutations, rest)))
}

/// The mutations of a sorted log, or none where the bytes are no sorted log's. Takes memory for them, and time with the bytes.
pub fn read(alloc: Global, bytes: &[u8]) -> Result<Option<Vec<Mutation>>, AllocError>
    ensures { IfOk result (λ found. MatchOption found (HasNoSorted bytes.now) (λ mutations. IsSortedLog bytes.now mutations.items)) }
{
    let Some((count, rest)) = take_head(bytes) else {
        return Ok(None);
    };
    let Some((mutations, rest)) = take_entries(alloc, rest, count)? else {
        return Ok(None);
    };
    if !rest.is_empty() {
        return Ok(None);
    }
    Ok(Some(mutations))
}
