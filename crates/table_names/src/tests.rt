// Worked rows.
use crate::draws::table_id;
use crate::values::{read_table, table_value};
use row_keys::TableId;
use std::alloc::Global;
use std::test::Fail;
use store_layout::Mark;

// Values that spell a table.
const GOOD: [&[u8]; 7] = [
    b"ONLINE t -",
    b"NEW t2 -",
    b"DELETING Old_3 -",
    b"ONLINE t merge 7 chop - m",
    b"ONLINE t merge 18446744073709551615 offline a\\x20b \\e",
    b"ONLINE t merge 7 chop \\x2d \\x5c\\xff",
    b"ONLINE t import 7 stage/default_tablet/I0000002.rf 1/t-0000001/F0000003.rf",
];

// Values that spell none.
const BAD: [&[u8]; 16] = [
    b"",
    b"ONLINE",
    b"ONLINE t",
    b"ONLINE t - ",
    b"ONLINE  t -",
    b"OFFLINE t -",
    b"ONLINE a-b -",
    b"ONLINE t free",
    b"ONLINE t merge 7 chop -",
    b"ONLINE t merge 07 chop - m",
    b"ONLINE t merge 7 cut - m",
    b"ONLINE t merge 7 chop - \\x6d",
    b"ONLINE t merge 7 chop - \\x2D",
    b"ONLINE t merge 7 chop - \\xg0",
    b"ONLINE t import 7",
    b"ONLINE t import 7 stage/I0000002.rf",
];

fn id(alloc: Global, bytes: &[u8]) -> Result<TableId, Fail> {
    Ok(TableId::new(alloc, bytes)?.ok_or("no id")?)
}

#[test]
fn values_are_read_and_written(rt: HostRuntime) -> Result<(), Fail> {
    let alloc = rt.alloc();
    let one = id(alloc, b"1")?;
    for value in GOOD {
        let table = read_table(alloc, &one, value)?.ok_or("no table")?;
        assert_eq!(rt; table_value(alloc, &table)?.as_bytes(), value);
    }
    for value in BAD {
        assert!(rt; read_table(alloc, &one, value)?.is_none());
    }
    assert!(rt; read_table(alloc, &id(alloc, b"+r")?, GOOD[0])?.is_none());
    Ok(())
}

#[test]
fn marks_have_their_parts(rt: HostRuntime) -> Result<(), Fail> {
    let alloc = rt.alloc();
    let table = read_table(alloc, &id(alloc, b"1")?, GOOD[4])?.ok_or("no table")?;
    match &table.mark {
        Mark::Merge { tid, from, to, .. } => {
            assert_eq!(rt; *tid, 18446744073709551615);
            assert_eq!(rt;
                from.as_ref().ok_or("no bound")?.as_bytes(),
                b"a b".as_slice()
            );
            assert!(rt; to.as_ref().ok_or("no bound")?.as_bytes().is_empty());
        }
        _ => return Err(Fail::from("no merge")),
    }
    Ok(())
}

#[test]
fn ids_are_in_base_36(rt: HostRuntime) -> Result<(), Fail> {
    let alloc = rt.alloc();
    assert_eq!(rt; table_id(alloc, 35)?.as_bytes(), b"z".as_slice());
    assert_eq!(rt; table_id(alloc, 36)?.as_bytes(), b"10".as_slice());
    let last = table_id(alloc, 9223372036854775806)?;
    assert_eq!(rt; last.as_bytes(), b"1y2p0ij32e8e6".as_slice());
    Ok(())
}
