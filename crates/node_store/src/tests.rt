// A multi as bytes, and changes with ample memory.
use crate::changes::{Node, NodeOp, NodeStop};
use crate::multi_text::{read_multi, spell_multi};
use crate::path_map::PathMap;
use crate::staged::apply;
use row_keys::{Octets, Path};
use std::alloc::Global;
use std::test::Fail;

fn path(alloc: Global, text: &str) -> Result<Path, Fail> {
    Ok(Path::new(alloc, text.as_bytes())?.ok_or("not a path")?)
}

fn create(alloc: Global, text: &str) -> Result<NodeOp, Fail> {
    Ok(NodeOp::Create {
        path: path(alloc, text)?,
        value: Octets::new(alloc, b"v")?,
    })
}

fn set(alloc: Global, text: &str, version: u64) -> Result<NodeOp, Fail> {
    Ok(NodeOp::Set {
        path: path(alloc, text)?,
        value: Octets::new(alloc, b"w")?,
        version: Some(version),
    })
}

#[test]
fn spells_and_reads(rt: HostRuntime) -> Result<(), Fail> {
    let alloc = rt.alloc();
    let ops = vec![in alloc; create(alloc, "/a")?, set(alloc, "/b", 7)?]?;
    let payload = spell_multi(alloc, &ops)?.ok_or("too long")?;
    let bytes = [
        0, 0, 0, 2, 1, 0, 2, b'/', b'a', 0, 0, 0, 1, b'v', 2, 0, 2, b'/', b'b', 0, 0, 0, 1, b'w',
    ];
    assert_eq!(rt; payload.as_slice(), bytes.as_slice());
    let read = read_multi(alloc, &bytes)?.ok_or("not a multi")?;
    assert_eq!(rt; read.len(), 2);
    assert!(rt; read_multi(alloc, &bytes[..23])?.is_none());
    Ok(())
}

#[test]
fn changes_and_lists(rt: HostRuntime) -> Result<(), Fail> {
    let alloc = rt.alloc();
    let mut nodes = PathMap::new(alloc);
    let ops = vec![in alloc;
        create(alloc, "/a/b")?,
        create(alloc, "/a/b/c")?,
        create(alloc, "/a0")?,
        set(alloc, "/a0", 0)?,
    ]?;
    assert!(rt; apply(alloc, &mut nodes, &ops).is_ok());
    assert_eq!(rt; nodes.paths(alloc)?.len(), 3);
    let children = nodes.children(alloc, &path(alloc, "/a")?)?;
    assert_eq!(rt; children.len(), 1);
    assert_eq!(rt; children[0].as_bytes(), b"/a/b".as_slice());
    let found: Option<&Node> = nodes.get(&path(alloc, "/a0")?);
    assert_eq!(rt; found.map(|node| node.version), Some(1));
    let late = vec![in alloc; set(alloc, "/a0", 0)?]?;
    assert!(rt; matches!(apply(alloc, &mut nodes, &late), Err(NodeStop::Version(1))));
    Ok(())
}
