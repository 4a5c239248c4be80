// Worked rows.
ghost use Rattle.std.specs.Prelude.{◌≡◌, IfOk};

use super::*;
use std::alloc::Global;
use std::test::Fail;

fn row(alloc: Global, bytes: &[u8]) -> Result<Row, Fail>
    ensures { IfOk result (λ row. row ≡ bytes.now) }
{
    Ok(Row::new(alloc, bytes)?)
}

fn table(alloc: Global, bytes: &[u8]) -> Result<TableId, Fail> {
    Ok(TableId::new(alloc, bytes)?.ok_or("no table's id")?)
}

fn key(alloc: Global, at: &[u8], family: &[u8], qualifier: &[u8]) -> Result<Key, Fail> {
    Ok(Key {
        row: row(alloc, at)?,
        family: Octets::new(alloc, family)?,
        qualifier: Octets::new(alloc, qualifier)?,
    })
}

#[test]
fn rows_are_of_300_bytes(rt: HostRuntime) -> Result<(), Fail> {
    let bytes = vec![in rt.alloc(); b'r'; 301]?;
    assert!(rt; matches!(Row::new(rt.alloc(), &bytes), Err(KeyForm::TooLong)));
    let longest = row(rt.alloc(), &bytes[..300])?;
    assert_eq!(rt; longest.copy(rt.alloc())?, longest);
    Ok(())
}

#[test]
fn metadata_rows_are_spelled(rt: HostRuntime) -> Result<(), Fail> {
    let one = table(rt.alloc(), b"1")?;
    let m = row(rt.alloc(), b"m")?;
    let tablet = metadata_row(rt.alloc(), &one, Some(&m))?;
    assert_eq!(rt; tablet.as_bytes(), b"1;m".as_slice());
    let last = metadata_row(rt.alloc(), &one, None)?;
    assert_eq!(rt; last.as_bytes(), b"1<".as_slice());
    assert!(rt; tablet < last);
    let ten = metadata_row(rt.alloc(), &table(rt.alloc(), b"10")?, None)?;
    assert!(rt; ten < tablet);
    Ok(())
}

#[test]
fn metadata_rows_are_read(rt: HostRuntime) -> Result<(), Fail> {
    let (id, end) = read_metadata_row(rt.alloc(), &row(rt.alloc(), b"1;m")?)?;
    assert_eq!(rt; id.as_bytes(), b"1".as_slice());
    assert_eq!(rt; end.ok_or("no end row")?.as_bytes(), b"m".as_slice());
    let (id, end) = read_metadata_row(rt.alloc(), &row(rt.alloc(), b"!0<")?)?;
    assert_eq!(rt; id.as_bytes(), b"!0".as_slice());
    assert!(rt; end.is_none());
    for bytes in [b"1m".as_slice(), b"1<m", b";m", b"A;m"] {
        let other = row(rt.alloc(), bytes)?;
        assert!(rt; matches!(read_metadata_row(rt.alloc(), &other), Err(KeyForm::NoMark)));
    }
    Ok(())
}

#[test]
fn previous_rows_are_values(rt: HostRuntime) -> Result<(), Fail> {
    let m = row(rt.alloc(), b"m")?;
    let value = prev_value(rt.alloc(), Some(&m))?;
    assert_eq!(rt; value.as_bytes(), [1, b'm'].as_slice());
    assert_eq!(rt; read_prev_value(rt.alloc(), &value)?.ok_or("no row")?, m);
    let none = prev_value(rt.alloc(), None)?;
    assert_eq!(rt; none.as_bytes(), [0].as_slice());
    assert!(rt; read_prev_value(rt.alloc(), &none)?.is_none());
    let empty = read_prev_value(rt.alloc(), &Octets::new(rt.alloc(), &[1])?)?;
    assert!(rt; empty.ok_or("no row")?.as_bytes().is_empty());
    let bad = Octets::new(rt.alloc(), &[2])?;
    assert!(rt; matches!(read_prev_value(rt.alloc(), &bad), Err(KeyForm::BadPrev)));
    Ok(())
}

#[test]
fn extents_have_rows(rt: HostRuntime) -> Result<(), Fail> {
    let c = row(rt.alloc(), b"c")?;
    let m = row(rt.alloc(), b"m")?;
    let extent = Extent {
        table: table(rt.alloc(), b"1")?,
        prev: Some(row(rt.alloc(), b"c")?),
        end: Some(row(rt.alloc(), b"m")?),
    };
    assert!(rt; extent.contains(&m) && !extent.contains(&c));
    assert!(rt; extent.meets(None, None) && !extent.meets(None, Some(&c)));
    assert!(rt; extent.meets(Some(&c), None) && !extent.meets(Some(&m), None));
    Ok(())
}

#[test]
fn keys_are_ordered(rt: HostRuntime) -> Result<(), Fail> {
    let low = key(rt.alloc(), b"a", b"g", b"b")?;
    let high = key(rt.alloc(), b"a", b"g", b"c")?;
    assert!(rt; low < high);
    assert!(rt; high < key(rt.alloc(), b"a", b"h", b"a")?);
    assert_eq!(rt; low.copy(rt.alloc())?, low);
    Ok(())
}

#[test]
fn names_have_forms(rt: HostRuntime) -> Result<(), Fail> {
    let name = TableName::new(rt.alloc(), b"Sales_2")?.ok_or("no name")?;
    assert_eq!(rt; name.copy(rt.alloc())?, name);
    assert!(rt; TableName::new(rt.alloc(), b"a-b")?.is_none());
    assert!(rt; LogName::new(rt.alloc(), b"log-00000000000000a1")?.is_some());
    assert!(rt; SessionId::new(rt.alloc(), b"A")?.is_none());
    assert!(rt; Path::new(rt.alloc(), b"/instance")?.is_some());
    assert!(rt; ServerName::new(rt.alloc(), b"s1")?.is_some());
    assert!(rt; StagedName::new(rt.alloc(), b"staged")?.is_some());
    Ok(())
}

#[test]
fn lists_are_in_order(rt: HostRuntime) -> Result<(), Fail> {
    let mut rows = Rows::new(rt.alloc());
    rows.push(row(rt.alloc(), b"a")?)?;
    rows.push(row(rt.alloc(), b"b")?)?;
    assert_eq!(rt; rows.as_slice().len(), 2);
    let items = Rows::from_vec(rows.into_vec()).into_vec();
    assert_eq!(rt; items.last().ok_or("no row")?.as_bytes(), b"b".as_slice());
    Ok(())
}
