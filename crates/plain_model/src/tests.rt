// Worked rows.
use super::*;
use row_keys::{Key, Octets, Row, Rows, StagedName, StagedNames, TableId, TableName};
use std::alloc::Global;
use std::test::Fail;

fn row(alloc: Global, bytes: &[u8]) -> Result<Row, Fail> {
    Ok(Row::new(alloc, bytes)?)
}

fn bound(alloc: Global, bytes: &[u8]) -> Result<Option<Row>, Fail> {
    if bytes.is_empty() {
        return Ok(None);
    }
    Ok(Some(row(alloc, bytes)?))
}

fn table(alloc: Global, bytes: &[u8]) -> Result<TableId, Fail> {
    Ok(TableId::new(alloc, bytes)?.ok_or("no table's id")?)
}

fn name(alloc: Global, bytes: &[u8]) -> Result<TableName, Fail> {
    Ok(TableName::new(alloc, bytes)?.ok_or("no table's name")?)
}

fn file(alloc: Global, bytes: &[u8]) -> Result<StagedName, Fail> {
    Ok(StagedName::new(alloc, bytes)?.ok_or("no file's name")?)
}

fn key(alloc: Global, bytes: &[u8]) -> Result<Key, Fail> {
    Ok(Key {
        row: row(alloc, bytes)?,
        family: Octets::new(alloc, b"f")?,
        qualifier: Octets::new(alloc, b"q")?,
    })
}

// A pair of this row, with this value.
fn pair(alloc: Global, bytes: &[u8], value: &[u8]) -> Result<Pair, Fail> {
    Ok(Pair {
        key: key(alloc, bytes)?,
        value: Octets::new(alloc, value)?,
    })
}

// A table, split at rows of one byte.
fn create(alloc: Global, id: &[u8], name_is: &[u8], points: &[u8]) -> Result<Op, Fail> {
    let mut splits = Rows::new(alloc);
    for point in points {
        splits.push(row(alloc, &[*point])?)?;
    }
    Ok(Op::Create {
        id: table(alloc, id)?,
        name: name(alloc, name_is)?,
        splits,
    })
}

fn rename(alloc: Global, id: &[u8], name_is: &[u8]) -> Result<Op, Fail> {
    Ok(Op::Rename {
        id: table(alloc, id)?,
        name: name(alloc, name_is)?,
    })
}

fn split(alloc: Global, id: &[u8], at: &[u8]) -> Result<Op, Fail> {
    Ok(Op::Split {
        id: table(alloc, id)?,
        at: row(alloc, at)?,
    })
}

// An empty bound is none.
fn merge(alloc: Global, id: &[u8], from: &[u8], to: &[u8]) -> Result<Op, Fail> {
    Ok(Op::Merge {
        id: table(alloc, id)?,
        from: bound(alloc, from)?,
        to: bound(alloc, to)?,
    })
}

fn delete_rows(alloc: Global, id: &[u8], from: &[u8], to: &[u8]) -> Result<Op, Fail> {
    Ok(Op::DeleteRows {
        id: table(alloc, id)?,
        from: bound(alloc, from)?,
        to: bound(alloc, to)?,
    })
}

fn import(alloc: Global, id: &[u8], one: &[u8], two: &[u8]) -> Result<Op, Fail> {
    let mut names = StagedNames::new(alloc);
    names.push(file(alloc, one)?)?;
    names.push(file(alloc, two)?)?;
    Ok(Op::Import {
        id: table(alloc, id)?,
        names,
    })
}

fn clone(alloc: Global, id: &[u8], new_id: &[u8], name_is: &[u8]) -> Result<Op, Fail> {
    Ok(Op::Clone {
        id: table(alloc, id)?,
        new_id: table(alloc, new_id)?,
        name: name(alloc, name_is)?,
    })
}

fn insert(alloc: Global, id: &[u8], bytes: &[u8], value: &[u8]) -> Result<Op, Fail> {
    Ok(Op::Insert {
        id: table(alloc, id)?,
        pair: pair(alloc, bytes, value)?,
    })
}

fn remove(alloc: Global, id: &[u8], bytes: &[u8]) -> Result<Op, Fail> {
    Ok(Op::Remove {
        id: table(alloc, id)?,
        key: key(alloc, bytes)?,
    })
}

// The row `k` with the first value, and then with the second one.
fn stage(alloc: Global, name_is: &[u8], first: &[u8], second: &[u8]) -> Result<Op, Fail> {
    let mut pairs = Pairs::new(alloc);
    pairs.push(pair(alloc, b"k", first)?)?;
    pairs.push(pair(alloc, b"k", second)?)?;
    Ok(Op::Stage {
        name: file(alloc, name_is)?,
        pairs,
    })
}

fn put_pairs(text: &mut Vec<u8>, pairs: &[Pair]) -> Result<(), Fail> {
    for pair in pairs {
        text.push(b' ')?;
        text.extend_from_slice(pair.key.row.as_bytes())?;
        text.push(b'=')?;
        text.extend_from_slice(pair.value.as_bytes())?;
    }
    Ok(())
}

// `ID NAME POINT .. ROW=VALUE ..;` for each table.
fn put_tables(text: &mut Vec<u8>, store: &PlainStore) -> Result<(), Fail> {
    for table in store.tables() {
        text.extend_from_slice(table.id.as_bytes())?;
        text.push(b' ')?;
        text.extend_from_slice(table.name.as_bytes())?;
        for point in table.splits.as_slice() {
            text.push(b' ')?;
            text.extend_from_slice(point.as_bytes())?;
        }
        put_pairs(text, table.pairs.as_slice())?;
        text.push(b';')?;
    }
    Ok(())
}

// `NAME ROW=VALUE ..;` for each file.
fn put_files(text: &mut Vec<u8>, store: &PlainStore) -> Result<(), Fail> {
    for file in store.staged() {
        text.extend_from_slice(file.name.as_bytes())?;
        put_pairs(text, file.pairs.as_slice())?;
        text.push(b';')?;
    }
    Ok(())
}

fn word<'a>(words: &[&'a [u8]], place: usize) -> Result<&'a [u8], Fail> {
    Ok(words.get(place).copied().ok_or("a word is missing")?)
}

// The operation of a line: its name, and then the words of the function that makes it.
fn op_of(alloc: Global, words: &[&[u8]]) -> Result<Op, Fail> {
    let id = word(words, 1)?;
    match word(words, 0)? {
        b"create" => create(alloc, id, word(words, 2)?, word(words, 3)?),
        b"delete" => Ok(Op::Delete {
            id: table(alloc, id)?,
        }),
        b"rename" => rename(alloc, id, word(words, 2)?),
        b"split" => split(alloc, id, word(words, 2)?),
        b"merge" => merge(alloc, id, word(words, 2)?, word(words, 3)?),
        b"deleterows" => delete_rows(alloc, id, word(words, 2)?, word(words, 3)?),
        b"import" => import(alloc, id, word(words, 2)?, word(words, 3)?),
        b"clone" => clone(alloc, id, word(words, 2)?, word(words, 3)?),
        b"insert" => insert(alloc, id, word(words, 2)?, word(words, 3)?),
        b"remove" => remove(alloc, id, word(words, 2)?),
        b"stage" => stage(alloc, id, word(words, 2)?, word(words, 3)?),
        _ => Err("no operation")?,
    }
}

fn answer_of(answer: Result<(), PlainStop>) -> &'static [u8] {
    match answer {
        Ok(()) => b"ok ",
        Err(PlainStop::NoTable) => b"notable ",
        Err(PlainStop::Exists) => b"exists ",
        Err(PlainStop::NoStaged) => b"nostaged ",
        Err(PlainStop::BadRange) => b"badrange ",
        Err(PlainStop::NoMemory) => b"nomemory ",
    }
}

// What the operations of these lines are answered, and then the tables and the files.
fn ran(alloc: Global, store: &mut PlainStore, lines: &[&[u8]]) -> Result<Vec<u8>, Fail> {
    let mut text = Vec::new(alloc);
    for line in lines {
        let words: Vec<&[u8]> = line.split(|byte| *byte == b' ').collect(alloc)?;
        let answer = store.apply(&op_of(alloc, &words)?);
        text.extend_from_slice(answer_of(answer))?;
    }
    put_tables(&mut text, store)?;
    put_files(&mut text, store)?;
    Ok(text)
}

// The table 1, with the name `a`, the points c, g and m, and the pairs of the rows r and s; and then these lines.
fn started(alloc: Global, lines: &[&[u8]]) -> Result<Vec<u8>, Fail> {
    let mut store = PlainStore::new(alloc);
    let start = [
        b"create 1 a gmcg".as_slice(),
        b"insert 1 s 1",
        b"insert 1 r 2",
    ];
    ran(alloc, &mut store, &start)?;
    ran(alloc, &mut store, lines)
}

#[test]
fn tables_come_and_go(rt: HostRuntime) -> Result<(), Fail> {
    let text = started(rt.alloc(), &[b"create 0 b ".as_slice(), b"rename 1 d"])?;
    assert_eq!(rt; text.as_slice(), b"ok ok 0 b;1 d c g m r=2 s=1;".as_slice());
    Ok(())
}

#[test]
fn tables_are_deleted(rt: HostRuntime) -> Result<(), Fail> {
    let text = started(rt.alloc(), &[b"create 0 b z".as_slice(), b"delete 1"])?;
    assert_eq!(rt; text.as_slice(), b"ok ok 0 b z;".as_slice());
    Ok(())
}

#[test]
fn points_are_added(rt: HostRuntime) -> Result<(), Fail> {
    let text = started(rt.alloc(), &[b"split 1 e".as_slice()])?;
    assert_eq!(rt; text.as_slice(), b"ok 1 a c e g m r=2 s=1;".as_slice());
    Ok(())
}

#[test]
fn merges_leave_their_bounds(rt: HostRuntime) -> Result<(), Fail> {
    let text = started(rt.alloc(), &[b"merge 1 c m".as_slice(), b"merge 1  m"])?;
    assert_eq!(rt; text.as_slice(), b"ok ok 1 a m r=2 s=1;".as_slice());
    Ok(())
}

#[test]
fn rows_are_deleted(rt: HostRuntime) -> Result<(), Fail> {
    let text = started(
        rt.alloc(),
        &[b"deleterows 1  r".as_slice(), b"deleterows 1 s "],
    )?;
    assert_eq!(rt; text.as_slice(), b"ok ok 1 a s=1;".as_slice());
    Ok(())
}

#[test]
fn pairs_come_and_go(rt: HostRuntime) -> Result<(), Fail> {
    let text = started(
        rt.alloc(),
        &[b"insert 1 r 3".as_slice(), b"remove 1 s", b"remove 1 t"],
    )?;
    assert_eq!(rt; text.as_slice(), b"ok ok ok 1 a c g m r=3;".as_slice());
    Ok(())
}

#[test]
fn the_last_file_wins(rt: HostRuntime) -> Result<(), Fail> {
    let text = started(
        rt.alloc(),
        &[b"stage y 1 2".as_slice(), b"stage x 3 4", b"import 1 x y"],
    )?;
    assert_eq!(rt;
        text.as_slice(),
        b"ok ok ok 1 a c g m k=2 r=2 s=1;x k=4;y k=2;".as_slice()
    );
    Ok(())
}

#[test]
fn clones_are_alike(rt: HostRuntime) -> Result<(), Fail> {
    let text = started(rt.alloc(), &[b"clone 1 0 b".as_slice(), b"insert 0 t 3"])?;
    assert_eq!(rt;
        text.as_slice(),
        b"ok ok 0 b c g m r=2 s=1 t=3;1 a c g m r=2 s=1;".as_slice()
    );
    Ok(())
}

#[test]
fn what_needs_a_table_is_refused_first(rt: HostRuntime) -> Result<(), Fail> {
    let text = started(
        rt.alloc(),
        &[
            b"delete 2".as_slice(),
            b"rename 2 a",
            b"split 2 c",
            b"merge 2 m c",
            b"deleterows 2 m c",
            b"import 2 x y",
            b"clone 2 3 a",
            b"insert 2 r 1",
            b"remove 2 r",
        ],
    )?;
    assert_eq!(rt;
        text.as_slice(),
        b"notable notable notable notable notable notable notable notable notable 1 a c g m r=2 s=1;".as_slice()
    );
    Ok(())
}

#[test]
fn what_is_there_is_refused(rt: HostRuntime) -> Result<(), Fail> {
    let text = started(
        rt.alloc(),
        &[
            b"stage x 1 2".as_slice(),
            b"create 2 a z",
            b"rename 1 a",
            b"split 1 g",
            b"clone 1 2 a",
            b"stage x 1 2",
        ],
    )?;
    assert_eq!(rt;
        text.as_slice(),
        b"ok exists exists exists exists exists 1 a c g m r=2 s=1;x k=2;".as_slice()
    );
    Ok(())
}

#[test]
fn files_and_ranges_are_refused(rt: HostRuntime) -> Result<(), Fail> {
    let text = started(
        rt.alloc(),
        &[
            b"stage x 1 2".as_slice(),
            b"import 1 x y",
            b"merge 1 c c",
            b"deleterows 1 m c",
        ],
    )?;
    assert_eq!(rt;
        text.as_slice(),
        b"ok nostaged badrange badrange 1 a c g m r=2 s=1;x k=2;".as_slice()
    );
    Ok(())
}
