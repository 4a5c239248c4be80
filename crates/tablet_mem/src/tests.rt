// Worked rows, by the rules that the greatest time counts and that the next one is past all.
ghost use Rattle.std.specs.Prelude.{◌≡◌, IfOk};

use super::*;
use cell_merge::Cell;
use metadata_schema::{Mutation, Update, Updates};
use row_keys::{Octets, Row, TableId};
use std::alloc::Global;
use std::test::Fail;

/// A mutation of one column of a row of table `1`.
fn mutation(alloc: Global, row: &[u8], time: u64, value: Option<&[u8]>) -> Result<Mutation, Fail>
    ensures { IfOk result (λ mutation. mutation.time ≡ time) }
{
    let value = match value {
        Some(bytes) => Some(Octets::new(alloc, bytes)?),
        None => None,
    };
    let mut updates = Updates::new(alloc);
    updates.push(Update {
        family: Octets::new(alloc, b"f")?,
        qualifier: Octets::new(alloc, b"q")?,
        value,
    })?;
    Ok(Mutation {
        table: TableId::new(alloc, b"1")?.ok_or("no table's id")?,
        row: Row::new(alloc, row)?,
        time,
        updates,
    })
}

/// The row and the time of a cell.
fn place<'a>(cells: &'a [Cell], index: usize) -> Option<(&'a [u8], u64)> {
    let cell = cells.get(index)?;
    Some((cell.key.row.as_bytes(), cell.time))
}

#[test]
fn the_next_time_is_past_all_that_is_known(rt: HostRuntime) -> Result<(), Fail> {
    let alloc = rt.alloc();
    assert_eq!(rt; TabletMem::new(alloc, 7, 5).next_time(), 8);
    let mut memory = TabletMem::new(alloc, 5, 7);
    assert_eq!(rt; memory.next_time(), 8);
    memory.put(&mutation(alloc, b"r", 20, Some(b"a"))?)?;
    memory.put(&mutation(alloc, b"r", 9, Some(b"b"))?)?;
    assert_eq!(rt; memory.next_time(), 21);
    assert_eq!(rt; memory.cells().len(), 2);
    memory.clear();
    assert_eq!(rt; memory.next_time(), 21);
    assert!(rt; memory.cells().is_empty());
    memory.pass(30);
    assert_eq!(rt; memory.next_time(), 31);
    memory.pass(25);
    assert_eq!(rt; memory.next_time(), 31);
    Ok(())
}

#[test]
fn the_newest_between_two_rows_are_in_key_order(rt: HostRuntime) -> Result<(), Fail> {
    let alloc = rt.alloc();
    let mut memory = TabletMem::new(alloc, 1, 1);
    memory.put(&mutation(alloc, b"d", 2, Some(b"1"))?)?;
    memory.put(&mutation(alloc, b"b", 3, Some(b"2"))?)?;
    memory.put(&mutation(alloc, b"c", 4, Some(b"3"))?)?;
    memory.put(&mutation(alloc, b"b", 5, None)?)?;
    let a = Row::new(alloc, b"a")?;
    let b = Row::new(alloc, b"b")?;
    let c = Row::new(alloc, b"c")?;
    let newest = memory.newest(alloc, Some(&a), Some(&c))?;
    assert_eq!(rt; newest.len(), 2);
    assert_eq!(rt; place(&newest, 0), Some((b"b".as_slice(), 5)));
    assert_eq!(rt; place(&newest, 1), Some((b"c".as_slice(), 4)));
    let removal = newest.first().ok_or("no cell")?;
    assert!(rt; removal.value.is_none());
    let above = memory.newest(alloc, Some(&b), None)?;
    assert_eq!(rt; place(&above, 0), Some((b"c".as_slice(), 4)));
    assert_eq!(rt; place(&above, 1), Some((b"d".as_slice(), 2)));
    assert!(rt; memory.newest(alloc, Some(&c), Some(&b))?.is_empty());
    Ok(())
}

#[test]
fn a_prepared_mutation_is_put_or_left_out(rt: HostRuntime) -> Result<(), Fail> {
    let alloc = rt.alloc();
    let memory = TabletMem::new(alloc, 1, 1);
    let prepared = match memory.prepare(&mutation(alloc, b"r", 2, Some(b"a"))?) {
        Ok(prepared) => prepared,
        Err((error, _)) => return Err(error.into()),
    };
    let memory = prepared.withdraw();
    assert_eq!(rt; memory.next_time(), 2);
    let prepared = match memory.prepare(&mutation(alloc, b"r", 3, Some(b"b"))?) {
        Ok(prepared) => prepared,
        Err((error, _)) => return Err(error.into()),
    };
    let memory = prepared.commit();
    assert_eq!(rt; place(memory.cells(), 0), Some((b"r".as_slice(), 3)));
    assert_eq!(rt; memory.next_time(), 4);
    Ok(())
}

/// The digits of a number below 10,000.
fn digits(number: u16) -> [u8; 4] {
    [
        b'0' + (number / 1000 % 10) as u8,
        b'0' + (number / 100 % 10) as u8,
        b'0' + (number / 10 % 10) as u8,
        b'0' + (number % 10) as u8,
    ]
}

#[test]
fn a_range_of_many_cells_is_found(rt: HostRuntime) -> Result<(), Fail> {
    let alloc = rt.alloc();
    let mut memory = TabletMem::new(alloc, 0, 0);
    for number in 0u16..3000 {
        let turned = 2999 - number;
        let row = digits(turned);
        memory.put(&mutation(alloc, &row, turned as u64 + 1, Some(b"v"))?)?;
    }
    let low = Row::new(alloc, b"1499")?;
    let high = Row::new(alloc, b"1509")?;
    let newest = memory.newest(alloc, Some(&low), Some(&high))?;
    assert_eq!(rt; newest.len(), 10);
    assert_eq!(rt; place(&newest, 0), Some((b"1500".as_slice(), 1501)));
    assert_eq!(rt; place(&newest, 9), Some((b"1509".as_slice(), 1510)));
    assert_eq!(rt; memory.next_time(), 3001);
    Ok(())
}
