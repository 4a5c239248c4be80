// Multis as the payloads of records.
ghost use Rattle.std.specs.Prelude.{◌≡◌, ◌+◌, ◌<◌, ◌≤◌, ◌^◌, [], ◌∷◌, ◌++◌, length, IfOk, OnOk, MatchOption};
ghost use Rattle.row_keys.specs.Forms.{IsPath};
ghost use Rattle.bytes_form.specs.Fields.{long_field, sized_field};
ghost use Rattle.node_store.specs.Multi.{spelled_change, spelled_multi, Fits, IsMulti};
ghost use Rattle.node_store.specs.Reading.{StartsPath, StartsNoPath, StartsValue, StartsNoValue, StartsChange, StartsNoChange, IsNoMulti, Spells};

use crate::changes::NodeOp;
use bytes_form::{put_long, put_sized, put_u32, take_long, take_sized, take_u32};
use row_keys::{Octets, Path};
use std::alloc::{AllocError, Global};

const CREATE: u8 = 1;

const SET: u8 = 2;

const DELETE: u8 = 3;

const MAX_PAYLOAD: usize = (1 << 32) - 1;

/// How many bytes a change is spelled with.
fn change_size(op: &NodeOp) -> usize
    ensures { result ≡ length (spelled_change op.now) }
{
    match op {
        NodeOp::Create { path, value } => 7 + path.as_bytes().len() + value.as_bytes().len(),
        NodeOp::Set { path, value, .. } => 7 + path.as_bytes().len() + value.as_bytes().len(),
        NodeOp::Delete { path, .. } => 3 + path.as_bytes().len(),
    }
}

/// How many bytes a multi is spelled with, if it fits a record.
fn multi_size(ops: &[NodeOp]) -> Option<usize>
    ensures { MatchOption result (2 ^ 32 ≤ length (spelled_multi ops.now)) (λ size. (size ≡ length (spelled_multi ops.now)) × (size < 2 ^ 32)) }
{
    let mut size = 4;
    for op in ops {
        let more = change_size(op);
        if more > MAX_PAYLOAD - size {
            return None;
        }
        size += more;
    }
    Some(size)
}

fn put_path(out: &mut Vec<u8>, kind: u8, path: &Path) -> Result<(), AllocError>
    ensures ok { OnOk result (out.new.items ≡ out.old.items ++ kind ∷ long_field path.now) }
    ensures form { IsPath path.now }
{
    let bytes = path.as_bytes();
    out.push(kind)?;
    put_long(out, bytes)
}

fn put_written(out: &mut Vec<u8>, kind: u8, path: &Path, value: &Octets) -> Result<(), AllocError>
    requires { length value.now < 2 ^ 32 }
    ensures ok { OnOk result (out.new.items ≡ out.old.items ++ (kind ∷ long_field path.now ++ sized_field value.now)) }
    ensures form { IsPath path.now }
{
    put_path(out, kind, path)?;
    put_sized(out, value.as_bytes())
}

fn put_change(out: &mut Vec<u8>, op: &NodeOp) -> Result<(), AllocError>
    requires { length (spelled_change op.now) < 2 ^ 32 }
    ensures ok { OnOk result (out.new.items ≡ out.old.items ++ spelled_change op.now) }
    ensures fits { Fits op.now }
{
    match op {
        NodeOp::Create { path, value } => put_written(out, CREATE, path, value),
        NodeOp::Set { path, value, .. } => put_written(out, SET, path, value),
        NodeOp::Delete { path, .. } => put_path(out, DELETE, path),
    }
}

/// The payload of a multi, or none where it would have 2^32 bytes or more.
pub fn spell_multi(alloc: Global, ops: &[NodeOp]) -> Result<Option<Vec<u8>>, AllocError>
    ensures { IfOk result (λ found. MatchOption found (2 ^ 32 ≤ length (spelled_multi ops.now)) (λ payload. Spells payload.items ops.now × (length payload.items < 2 ^ 32))) }
{
    let Some(size) = multi_size(ops) else {
        return Ok(None);
    };
    let mut out = Vec::with_capacity(alloc, size)?;
    put_u32(&mut out, ops.len() as u32)?;
    for op in ops {
        put_change(&mut out, op)?;
    }
    Ok(Some(out))
}

fn take_path(alloc: Global, bytes: &[u8]) -> Result<Option<(Path, &[u8])>, AllocError>
    ensures { IfOk result (λ found. MatchOption found (StartsNoPath bytes.now) (λ taken. StartsPath bytes.now taken.0 taken.1.now)) }
{
    let Ok(long) = take_long(bytes) else {
        return Ok(None);
    };
    let Some(path) = Path::new(alloc, long.value)? else {
        return Ok(None);
    };
    Ok(Some((path, long.rest)))
}

fn take_value(alloc: Global, bytes: &[u8]) -> Result<Option<(Octets, &[u8])>, AllocError>
    ensures { IfOk result (λ found. MatchOption found (StartsNoValue bytes.now) (λ taken. StartsValue bytes.now taken.0 taken.1.now)) }
{
    let Ok(sized) = take_sized(bytes) else {
        return Ok(None);
    };
    let value = Octets::new(alloc, sized.value)?;
    Ok(Some((value, sized.rest)))
}

fn take_change(alloc: Global, bytes: &[u8]) -> Result<Option<(NodeOp, &[u8])>, AllocError>
    ensures { IfOk result (λ found. MatchOption found (StartsNoChange bytes.now) (λ taken. StartsChange bytes.now taken.0 taken.1.now)) }
{
    let Some((kind, rest)) = bytes.split_first() else {
        return Ok(None);
    };
    let Some((path, rest)) = take_path(alloc, rest)? else {
        return Ok(None);
    };
    if *kind == DELETE {
        return Ok(Some((
            NodeOp::Delete {
                path,
                version: None,
            },
            rest,
        )));
    }
    let Some((value, rest)) = take_value(alloc, rest)? else {
        return Ok(None);
    };
    match *kind {
        CREATE => Ok(Some((NodeOp::Create { path, value }, rest))),
        SET => Ok(Some((
            NodeOp::Set {
                path,
                value,
                version: None,
            },
            rest,
        ))),
        _ => Ok(None),
    }
}

/// The changes of a multi, or none where the payload isn't one.
pub fn read_multi(alloc: Global, payload: &[u8]) -> Result<Option<Vec<NodeOp>>, AllocError>
    ensures { IfOk result (λ found. MatchOption found (IsNoMulti payload.now) (λ ops. IsMulti payload.now ops.items)) }
{
    let Ok(count) = take_u32(payload) else {
        return Ok(None);
    };
    let mut rest = count.rest;
    let mut ops = Vec::new(alloc);
    for _ in 0..count.value {
        let Some((op, after)) = take_change(alloc, rest)? else {
            return Ok(None);
        };
        ops.push(op)?;
        rest = after;
    }
    if !rest.is_empty() {
        return Ok(None);
    }
    Ok(Some(ops))
}
