// Mutations and sorted logs as bytes. The rows are those of the formats' description.
ghost use Rattle.std.specs.Prelude.{IfOk};
ghost use Rattle.log_files.specs.Mutations.{IsSpelled};

use crate::payload::{mutation_bytes, read_mutation};
use crate::sorted_bytes::read;
use metadata_schema::{Mutation, Update, Updates};
use row_keys::{Octets, Row, TableId};
use std::alloc::Global;
use std::test::Fail;

const ONE_INSERT: [u8; 25] = [
    1, 0x31, 0, 1, 0x72, 0, 0, 0, 0, 0, 0, 0, 1, 0, 0, 0, 1, 1, 0x66, 1, 0x71, 1, 0, 1, 0x76,
];

/// The insert of the value `v` into row `r`, family `f` and qualifier `q` of table 1, at time 1.
fn one_insert(alloc: Global) -> Result<Mutation, Fail>
    ensures { IfOk result IsSpelled }
{
    let update = Update {
        family: Octets::new(alloc, b"f")?,
        qualifier: Octets::new(alloc, b"q")?,
        value: Some(Octets::new(alloc, b"v")?),
    };
    Ok(Mutation {
        table: TableId::new(alloc, b"1")?.ok_or("no id")?,
        row: Row::new(alloc, b"r")?,
        time: 1,
        updates: Updates::from_vec(vec![in alloc; update]?),
    })
}

#[test]
fn one_insert_is_spelled(rt: HostRuntime) -> Result<(), Fail> {
    let bytes = mutation_bytes(rt.alloc(), &one_insert(rt.alloc())?)?;
    assert_eq!(rt; bytes.as_slice(), ONE_INSERT.as_slice());
    Ok(())
}

#[test]
fn other_bytes_are_no_mutation(rt: HostRuntime) -> Result<(), Fail> {
    assert!(rt; read_mutation(rt.alloc(), &ONE_INSERT)?.is_some());
    assert!(rt; read_mutation(rt.alloc(), &ONE_INSERT[..24])?.is_none());
    for (at, byte) in [(1, 0x2e), (5, 0x80), (16, 0), (21, 2)] {
        let mut other = ONE_INSERT;
        other[at] = byte;
        assert!(rt; read_mutation(rt.alloc(), &other)?.is_none());
    }
    Ok(())
}

/// A sorted log of one such insert for each of these rows, in this order.
fn sorted_log(alloc: Global, rows: &[u8]) -> Result<Vec<u8>, Fail> {
    let mut bytes = Vec::new(alloc);
    bytes.extend_from_slice(b"ACMLOG01")?;
    bytes.extend_from_slice(&(rows.len() as u64).to_be_bytes())?;
    for row in rows {
        let mut insert = ONE_INSERT;
        insert[4] = *row;
        bytes.extend_from_slice(&[0, 0, 0, 0x19])?;
        bytes.extend_from_slice(&insert)?;
    }
    Ok(bytes)
}

#[test]
fn sorted_logs_are_in_order(rt: HostRuntime) -> Result<(), Fail> {
    for (rows, is_one) in [(b"aab".as_slice(), true), (b"ba", false)] {
        let bytes = sorted_log(rt.alloc(), rows)?;
        assert_eq!(rt; read(rt.alloc(), &bytes)?.is_some(), is_one);
    }
    let mut bytes = sorted_log(rt.alloc(), b"ab")?;
    bytes.push(0)?;
    assert!(rt; read(rt.alloc(), &bytes)?.is_none());
    Ok(())
}
