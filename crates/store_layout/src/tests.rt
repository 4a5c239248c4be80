// A new store's nodes and first file.
use crate::first_nodes::{a_new_store_begins, first_ops};
use crate::new_store::root_file_name;
use node_store::NodeOp;
use std::test::Fail;

const PATHS: [&[u8]; 7] = [
    b"/instance",
    b"/root",
    b"/next/table",
    b"/next/tx",
    b"/next/name",
    b"/next/session",
    b"/next/lock",
];

fn value(op: &NodeOp) -> &[u8] {
    match op {
        NodeOp::Create { value, .. } | NodeOp::Set { value, .. } => value.as_bytes(),
        NodeOp::Delete { .. } => &[],
    }
}

#[test]
fn a_new_store_has_seven_nodes(rt: HostRuntime) -> Result<(), Fail> {
    a_new_store_begins();
    let ops = first_ops(rt.alloc(), 222)?;
    assert_eq!(rt; ops.len(), 7);
    for index in 0..7 {
        assert_eq!(rt; ops[index].path().as_bytes(), PATHS[index]);
    }
    let root = value(&ops[1]);
    assert!(rt; root.len() >= 44);
    assert_eq!(rt; &root[39..44], b"222,6".as_slice());
    assert_eq!(rt; value(&ops[4]), b"2".as_slice());
    Ok(())
}

#[test]
fn the_root_file_has_a_name(rt: HostRuntime) -> Result<(), Fail> {
    let name = root_file_name(rt.alloc())?;
    assert_eq!(rt; name.as_bytes(), b"+r,root_tablet,A0000001.rf".as_slice());
    Ok(())
}
