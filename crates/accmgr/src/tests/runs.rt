// Whole scripts and their replies.
use super::{INIT, NO_TABLE, ONE_TABLE, OPEN, REPLIES, SCRIPT, TABLES, disk_of, first, next};
use memory_host::Pick;
use std::test::Fail;

// Scripts on a new store, how many lines they have, and their replies.
const SCRIPTS: [(&[u8], u32, &[u8]); 7] = [
    (b"", 0, b""),
    (b"tables", 1, NO_TABLE),
    (
        b"createtable t\r\ntables\r\n",
        2,
        b"1 ok\n2 = t 1\n2 rows 1\n",
    ),
    (b"tables\r", 1, b"1 no unbuilt\n"),
    (b"tables\r\r\n", 1, b"1 no unbuilt\n"),
    (b"# c\n\n  \t\ncreatetable t\n", 4, b"4 ok\n"),
    (b" \t# tables\ntables", 2, b"2 rows 0\n"),
];

#[test]
fn makes_a_table(rt: HostRuntime) -> Result<(), Fail> {
    let ended = first(rt.alloc(), &INIT, SCRIPT)?;
    assert!(rt; ended.is(0, 4, REPLIES));
    let ended = next(rt.alloc(), ended.host, Pick::Lost, &OPEN)?;
    assert!(rt; ended.is(0, 1, ONE_TABLE));
    Ok(())
}

#[test]
fn refuses_a_second_init(rt: HostRuntime) -> Result<(), Fail> {
    let ended = first(rt.alloc(), &INIT, SCRIPT)?;
    let ended = next(rt.alloc(), ended.host, Pick::Kept, &INIT)?;
    assert!(rt; ended.is(8, 0, b""));
    Ok(())
}

#[test]
fn wants_a_store(rt: HostRuntime) -> Result<(), Fail> {
    assert!(rt; first(rt.alloc(), &OPEN, TABLES)?.is(8, 0, b""));
    let ended = next(rt.alloc(), disk_of(rt.alloc(), &[0])?, Pick::Kept, &OPEN)?;
    assert!(rt; ended.is(8, 0, b""));
    let ended = next(rt.alloc(), ended.host, Pick::Kept, &INIT)?;
    assert!(rt; ended.is(0, 1, NO_TABLE));
    Ok(())
}

#[test]
fn answers_each_script(rt: HostRuntime) -> Result<(), Fail> {
    for (i, (script, lines, replies)) in SCRIPTS.iter().enumerate() {
        let ended = first(rt.alloc(), &INIT, script)?;
        assert!(rt; ended.is(0, *lines, replies), "script {i}");
    }
    Ok(())
}
