// What `--init` makes, and on which disks.
use super::store_bytes::{NEW_NODES, ROOT_FILE};
use super::{INIT, NO_TABLE, ROOT_NAME, TABLES, disk_of, first, next, put};
use host_model::{Host, Name, Stop};
use memory_host::{MemoryHost, Pick};
use std::alloc::Global;
use std::test::Fail;

fn bytes_of<H: Host>(alloc: Global, host: &mut H, name: &Name) -> Result<Option<Vec<u8>>, Stop> {
    let Some(size) = host.length(name)? else {
        return Ok(None);
    };
    let mut bytes = vec![in alloc; 0u8; size as usize]?;
    host.read(name, 0, &mut bytes)?;
    Ok(Some(bytes))
}

// The bytes of the file of this name.
fn file(alloc: Global, host: &mut MemoryHost, text: &str) -> Result<Vec<u8>, Fail> {
    let name = Name::new(alloc, text)?.ok_or("no name")?;
    Ok(bytes_of(alloc, host, &name)?.ok_or("no file")?)
}

// Whether the bytes are these, one behind the other.
fn are(bytes: &[u8], parts: &[&[u8]]) -> bool {
    let mut rest = bytes;
    for part in parts {
        match rest.strip_prefix(*part) {
            Some(more) => rest = more,
            None => return false,
        }
    }
    rest.is_empty()
}

#[test]
fn makes_two_files(rt: HostRuntime) -> Result<(), Fail> {
    let mut host = first(rt.alloc(), &INIT, b"")?.host;
    let names = host.names(rt.alloc())?;
    assert_eq!(rt; names.len(), 2);
    let root = file(rt.alloc(), &mut host, ROOT_NAME)?;
    assert_eq!(rt; root.len(), 222);
    assert!(rt; are(&root, &ROOT_FILE));
    let nodes = file(rt.alloc(), &mut host, "nodes")?;
    assert_eq!(rt; nodes.len(), 231);
    let (gate, record) = nodes.split_last().ok_or("no bytes")?;
    assert!(rt; are(record, &NEW_NODES));
    assert_eq!(rt; *gate, 0);
    Ok(())
}

// A disk with these bytes in `nodes` and in the root tablet's first file.
fn disk_with_root(alloc: Global, nodes: &[u8], root: &[u8]) -> Result<MemoryHost, Stop> {
    let mut host = disk_of(alloc, nodes)?;
    put(alloc, &mut host, ROOT_NAME, root)?;
    Ok(host)
}

#[test]
fn begins_anew_where_no_store_was_made(rt: HostRuntime) -> Result<(), Fail> {
    for root in [b"".as_slice(), b"torn".as_slice()] {
        let host = disk_with_root(rt.alloc(), &[0], root)?;
        let mut ended = next(rt.alloc(), host, Pick::Kept, &INIT)?;
        assert!(rt; ended.is(0, 1, NO_TABLE));
        assert!(rt; are(&file(rt.alloc(), &mut ended.host, ROOT_NAME)?, &ROOT_FILE));
    }
    Ok(())
}

// Where any other file is, or `nodes` was begun, nothing is written.
#[test]
fn refuses_other_disks(rt: HostRuntime) -> Result<(), Fail> {
    let mut host = disk_of(rt.alloc(), &[0])?;
    put(rt.alloc(), &mut host, "log-0000000000000001", b"")?;
    let mut ended = next(rt.alloc(), host, Pick::Kept, &INIT)?;
    assert!(rt; ended.is(8, 0, b""));
    assert!(rt; are(&file(rt.alloc(), &mut ended.host, "nodes")?, &[b"\x00"]));
    let host = disk_with_root(rt.alloc(), &[1, 1], b"")?;
    let mut ended = next(rt.alloc(), host, Pick::Kept, &INIT)?;
    assert!(rt; ended.is(8, 0, b""));
    assert!(rt; are(&file(rt.alloc(), &mut ended.host, "nodes")?, &[b"\x01\x01"]));
    Ok(())
}
