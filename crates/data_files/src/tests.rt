// Files as bytes. The rows are those of the format's description.
ghost use Rattle.std.specs.Prelude.{◌≡◌, ◌≤◌, length, IfOk, OnOk};
ghost use Rattle.data_files.specs.Cells.{FitsCell, AreFileCells};

use crate::file_bytes::{read, spell};
use crate::order::follows;
use cell_merge::Cell;
use row_keys::{Key, Octets, Row};
use std::alloc::Global;
use std::test::Fail;

const ONE_CELL: [u8; 59] = [
    0x41, 0x43, 0x4d, 0x44, 0x41, 0x54, 0x30, 0x31, 0, 0, 0, 0, 0, 0, 0, 1, 0, 0, 0, 0, 0, 0, 0, 1,
    0, 1, 0x72, 1, 0x66, 1, 0x71, 0, 0, 0, 0, 0, 0, 0, 1, 1, 0, 1, 0x76, 0, 0, 0, 0, 0, 0, 0, 0x18,
    0, 0, 0, 0, 0, 0, 0, 0x2b,
];

const NO_CELLS: [u8; 32] = [
    0x41, 0x43, 0x4d, 0x44, 0x41, 0x54, 0x30, 0x31, 0, 0, 0, 0, 0, 0, 0, 0, 0, 0, 0, 0, 0, 0, 0, 0,
    0, 0, 0, 0, 0, 0, 0, 0x18,
];

/// A cell of this row with the family `f`, the qualifier `q` and the value `v`, at time 1.
fn cell(alloc: Global, row: &[u8]) -> Result<Cell, Fail>
    requires { length row.now ≤ 2 }
    ensures { IfOk result FitsCell }
{
    Ok(Cell {
        key: Key {
            row: Row::new(alloc, row)?,
            family: Octets::new(alloc, b"f")?,
            qualifier: Octets::new(alloc, b"q")?,
        },
        time: 1,
        value: Some(Octets::new(alloc, b"v")?),
    })
}

/// No cells yet.
fn none(alloc: Global) -> Vec<Cell>
    ensures { AreFileCells result.items }
{
    Vec::new(alloc)
}

/// Adds a cell whose key is above all others.
fn add(cells: &mut Vec<Cell>, cell: Cell) -> Result<(), Fail>
    requires are { AreFileCells cells.old.items }
    requires fits { FitsCell cell }
    ensures { OnOk result (AreFileCells cells.new.items) }
{
    if !follows(cells, &cell) {
        return Err(Fail::from("not in order"));
    }
    cells.push(cell)?;
    Ok(())
}

/// So many cells.
fn many(alloc: Global, count: u16) -> Result<Vec<Cell>, Fail>
    ensures { IfOk result (λ cells. AreFileCells cells.items) }
{
    let mut cells = none(alloc);
    for number in 0..count {
        add(&mut cells, cell(alloc, &number.to_be_bytes())?)?;
    }
    Ok(cells)
}

#[test]
fn one_cell_is_spelled(rt: HostRuntime) -> Result<(), Fail> {
    let mut cells = none(rt.alloc());
    add(&mut cells, cell(rt.alloc(), b"r")?)?;
    assert_eq!(rt; spell(rt.alloc(), &cells)?.as_slice(), ONE_CELL.as_slice());
    assert_eq!(rt; read(rt.alloc(), &ONE_CELL)?.ok_or("no file")?, cells);
    Ok(())
}

#[test]
fn no_cells_are_spelled(rt: HostRuntime) -> Result<(), Fail> {
    let cells = many(rt.alloc(), 0)?;
    assert_eq!(rt; spell(rt.alloc(), &cells)?.as_slice(), NO_CELLS.as_slice());
    assert!(rt; read(rt.alloc(), &NO_CELLS)?.ok_or("no file")?.is_empty());
    Ok(())
}

#[test]
fn other_bytes_are_no_file(rt: HostRuntime) -> Result<(), Fail> {
    assert!(rt; read(rt.alloc(), &ONE_CELL[..58])?.is_none());
    let mut other = ONE_CELL;
    other[0] = 0x42;
    assert!(rt; read(rt.alloc(), &other)?.is_none());
    Ok(())
}

#[test]
fn blocks_have_64_cells(rt: HostRuntime) -> Result<(), Fail> {
    for (count, size) in [(640, 12_912), (641, 12_940)] {
        let bytes = spell(rt.alloc(), &many(rt.alloc(), count)?)?;
        assert_eq!(rt; bytes.len(), size);
        let cells = read(rt.alloc(), &bytes)?.ok_or("no file")?;
        assert_eq!(rt; cells.len(), usize::from(count));
    }
    Ok(())
}
