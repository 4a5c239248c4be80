// Files of the nodes that were cut or changed.
use super::store_bytes::{NEW_NODES, ROOT_FILE, TABLE_NODES};
use super::{Ended, NO_TABLE, ONE_TABLE, OPEN, ROOT_NAME, disk_of, next, put};
use host_model::Stop;
use memory_host::Pick;
use std::alloc::{AllocError, Global};
use std::test::Fail;

// The gate of the second record: the first has a payload of 225 bytes.
const SECOND_GATE: usize = 230;

// The bytes of the whole file.
const SIZE: usize = 285;

// Bytes of the first record's multi that make it none, or one of no store: their offsets, and what stands there.
const CHANGES: [(usize, u8); 9] = [
    (8, 6),
    (8, 8),
    (9, 0),
    (9, 2),
    (9, 4),
    (11, 0),
    (12, b'.'),
    (32, b'2'),
    (37, b'R'),
];

fn joined(alloc: Global, parts: &[&[u8]]) -> Result<Vec<u8>, AllocError> {
    let mut bytes = Vec::new(alloc);
    for part in parts {
        bytes.extend_from_slice(*part)?;
    }
    Ok(bytes)
}

// The file of the nodes with this byte at this offset.
fn changed(alloc: Global, at: usize, byte: u8) -> Result<Vec<u8>, AllocError> {
    let mut bytes = joined(alloc, &NEW_NODES)?;
    bytes.extend_from_slice(&joined(alloc, &TABLE_NODES)?)?;
    if let Some(place) = bytes.get_mut(at) {
        *place = byte;
    }
    Ok(bytes)
}

// A run over a disk with this file, and the first one of the root tablet.
fn opened(alloc: Global, nodes: &[u8]) -> Result<Ended, Stop> {
    let mut host = disk_of(alloc, nodes)?;
    put(alloc, &mut host, ROOT_NAME, &joined(alloc, &ROOT_FILE)?)?;
    Ok(next(alloc, host, Pick::Kept, &OPEN)?)
}

// Whether there is no store, and where there is more than one byte the file is damaged.
fn is_short(ended: &Ended, size: usize) -> bool {
    if size < 2 {
        ended.is(8, 0, b"")
    } else {
        is_damaged(ended)
    }
}

fn is_damaged(ended: &Ended) -> bool {
    match &ended.damaged {
        Some(name) => ended.is(9, 0, b"") && name.as_bytes() == b"nodes".as_slice(),
        None => false,
    }
}

#[test]
fn wants_whole_records(rt: HostRuntime) -> Result<(), Fail> {
    let file = changed(rt.alloc(), 0, 1)?;
    assert_eq!(rt; file.len(), SIZE);
    for size in 0..SIZE {
        let ended = opened(rt.alloc(), &file[..size])?;
        assert!(rt; is_short(&ended, size), "cut at {size}");
    }
    assert!(rt; opened(rt.alloc(), &file)?.is(0, 1, ONE_TABLE));
    Ok(())
}

#[test]
fn passes_over_a_closed_record(rt: HostRuntime) -> Result<(), Fail> {
    let file = changed(rt.alloc(), SECOND_GATE, 0)?;
    assert_eq!(rt; file.len(), SIZE);
    for size in 0..SECOND_GATE + 1 {
        let ended = opened(rt.alloc(), &file[..size])?;
        assert!(rt; is_short(&ended, size), "cut at {size}");
    }
    for size in SECOND_GATE + 1..SIZE + 1 {
        let ended = opened(rt.alloc(), &file[..size])?;
        assert!(rt; ended.is(0, 1, NO_TABLE), "cut at {size}");
    }
    Ok(())
}

#[test]
fn takes_another_first_byte_for_no_store(rt: HostRuntime) -> Result<(), Fail> {
    for byte in [0, 2, 255] {
        let ended = opened(rt.alloc(), &changed(rt.alloc(), 0, byte)?)?;
        assert!(rt; ended.is(8, 0, b""), "byte {byte}");
    }
    Ok(())
}

#[test]
fn wants_multis_of_a_store(rt: HostRuntime) -> Result<(), Fail> {
    for (at, byte) in CHANGES {
        let ended = opened(rt.alloc(), &changed(rt.alloc(), at, byte)?)?;
        assert!(rt; is_damaged(&ended), "byte {byte} at {at}");
    }
    Ok(())
}
