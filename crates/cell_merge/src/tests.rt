// Worked rows, by the rule that the cell of greatest time counts.
use super::*;
use row_keys::{Extent, Key, Octets, Row, TableId};
use std::alloc::Global;
use std::test::Fail;

fn cell(alloc: Global, row: &[u8], time: u64, value: Option<&[u8]>) -> Result<Cell, Fail> {
    let value = match value {
        Some(bytes) => Some(Octets::new(alloc, bytes)?),
        None => None,
    };
    Ok(Cell {
        key: Key {
            row: Row::new(alloc, row)?,
            family: Octets::new(alloc, b"f")?,
            qualifier: Octets::new(alloc, b"q")?,
        },
        time,
        value,
    })
}

#[test]
fn a_removed_key_is_not_among_the_newest(rt: HostRuntime) -> Result<(), Fail> {
    let mut cells = Cells::new(rt.alloc());
    cells.push(cell(rt.alloc(), b"r", 1, Some(b"a"))?)?;
    cells.push(cell(rt.alloc(), b"r", 2, None)?)?;
    assert!(rt; newest(rt.alloc(), cells.as_slice())?.is_empty());
    Ok(())
}

#[test]
fn the_newest_are_in_key_order(rt: HostRuntime) -> Result<(), Fail> {
    let mut cells = Cells::new(rt.alloc());
    cells.push(cell(rt.alloc(), b"s", 3, Some(b"c"))?)?;
    cells.push(cell(rt.alloc(), b"r", 2, Some(b"b"))?)?;
    cells.push(cell(rt.alloc(), b"r", 1, Some(b"a"))?)?;
    let pairs = newest(rt.alloc(), cells.as_slice())?;
    let first = pairs.first().ok_or("no pair")?;
    assert_eq!(rt; first.key.row.as_bytes(), b"r".as_slice());
    assert_eq!(rt; first.value.as_bytes(), b"b".as_slice());
    assert_eq!(rt; pairs.len(), 2);
    Ok(())
}

#[test]
fn removals_are_merged_where_they_are_kept(rt: HostRuntime) -> Result<(), Fail> {
    let mut older = Cells::new(rt.alloc());
    older.push(cell(rt.alloc(), b"r", 1, Some(b"a"))?)?;
    let mut later = Cells::new(rt.alloc());
    later.push(cell(rt.alloc(), b"r", 2, None)?)?;
    let sources = [older, later];
    let merged = merge_sources(rt.alloc(), &sources, true)?;
    let only = merged.first().ok_or("no cell")?;
    assert!(rt; only.value.is_none() && only.time == 2 && merged.len() == 1);
    assert!(rt; merge_sources(rt.alloc(), &sources, false)?.is_empty());
    Ok(())
}

#[test]
fn the_previous_row_is_clipped(rt: HostRuntime) -> Result<(), Fail> {
    let extent = Extent {
        table: TableId::new(rt.alloc(), b"1")?.ok_or("no table's id")?,
        prev: Some(Row::new(rt.alloc(), b"c")?),
        end: Some(Row::new(rt.alloc(), b"m")?),
    };
    let mut cells = Cells::new(rt.alloc());
    cells.push(cell(rt.alloc(), b"c", 1, Some(b"a"))?)?;
    cells.push(cell(rt.alloc(), b"m", 2, Some(b"b"))?)?;
    let inside = clip(rt.alloc(), cells.as_slice(), &extent)?;
    let only = inside.first().ok_or("no cell")?;
    assert!(rt; inside.len() == 1 && only.time == 2);
    assert_eq!(rt;
        only.copy(rt.alloc())?,
        cell(rt.alloc(), b"m", 2, Some(b"b"))?
    );
    Ok(())
}
