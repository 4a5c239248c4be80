// Names of tables, and their ids.
use super::{INIT, first};
use std::alloc::{AllocError, Global};
use std::test::Fail;

// `createtable` with a name of so many letters.
fn create_line(alloc: Global, count: usize) -> Result<Vec<u8>, AllocError> {
    let mut line = b"createtable ".as_slice().to_vec(alloc)?;
    line.extend_from_slice(&vec![in alloc; b'x'; count]?)?;
    Ok(line)
}

#[test]
fn takes_names_of_64_bytes(rt: HostRuntime) -> Result<(), Fail> {
    let longest = create_line(rt.alloc(), 64)?;
    assert!(rt; first(rt.alloc(), &INIT, &longest)?.is(0, 1, b"1 ok\n"));
    let too_long = create_line(rt.alloc(), 65)?;
    assert!(rt; first(rt.alloc(), &INIT, &too_long)?.is(0, 1, b"1 no unbuilt\n"));
    Ok(())
}

#[test]
fn lists_tables_by_name(rt: HostRuntime) -> Result<(), Fail> {
    let script = b"createtable b\ncreatetable a\ntables\n";
    let replies = b"1 ok\n2 ok\n3 = a 2\n3 = b 1\n3 rows 2\n";
    assert!(rt; first(rt.alloc(), &INIT, script)?.is(0, 3, replies));
    Ok(())
}

// Makes the tables `t01` to `t37`, and lists them.
fn many_tables(alloc: Global) -> Result<Vec<u8>, AllocError> {
    let mut script = Vec::new(alloc);
    for number in 1u8..38 {
        script.extend_from_slice(b"createtable t")?;
        script.push(b'0' + number / 10)?;
        script.push(b'0' + number % 10)?;
        script.push(b'\n')?;
    }
    script.extend_from_slice(b"tables\n")?;
    Ok(script)
}

#[test]
fn counts_ids_in_base_36(rt: HostRuntime) -> Result<(), Fail> {
    let ended = first(rt.alloc(), &INIT, &many_tables(rt.alloc())?)?;
    let last_rows = b"38 = t35 z\n38 = t36 10\n38 = t37 11\n38 rows 37\n";
    assert_eq!(rt; (ended.status, ended.lines), (0, 38));
    assert!(rt; ended.host.said().ends_with(last_rows));
    Ok(())
}
