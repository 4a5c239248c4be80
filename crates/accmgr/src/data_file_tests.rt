// Data files over a host in memory, and after a crash.
ghost use Rattle.std.specs.Prelude.{◌≤◌, length, All, IfOk};
ghost use Rattle.data_files.specs.Cells.{FitsCell, AreFileCells};

use cell_merge::{Cell, Cells, merge_sources};
use data_files::{DataFile, read_file, write_file};
use host_model::{Host, Name, Stop};
use memory_host::{MemoryHost, Pick};
use row_keys::{Key, Octets, Row};
use std::alloc::Global;
use std::test::Fail;

// A cell of this row with the family `f`, the qualifier `q` and the value `v`, at time 1.
fn cell(alloc: Global, row: &[u8]) -> Result<Cell, Fail>
    requires { length row.now ≤ 2 }
    ensures { IfOk result FitsCell }
{
    Ok(Cell {
        key: Key {
            row: Row::new(alloc, row)?,
            family: Octets::new(alloc, b"f")?,
            qualifier: Octets::new(alloc, b"q")?,
        },
        time: 1,
        value: Some(Octets::new(alloc, b"v")?),
    })
}

fn many(alloc: Global, count: u16) -> Result<Vec<Cell>, Fail>
    ensures { IfOk result (λ cells. All FitsCell cells.items) }
{
    let mut cells = Vec::new(alloc);
    for number in 0..count {
        cells.push(cell(alloc, &number.to_be_bytes())?)?;
    }
    Ok(cells)
}

fn in_order(alloc: Global, cells: Vec<Cell>) -> Result<Vec<Cell>, Fail>
    requires { All FitsCell cells.items }
    ensures { IfOk result (λ merged. AreFileCells merged.items) }
{
    let sources = [Cells::from_vec(cells)];
    let merged = merge_sources(alloc, &sources, true)?;
    Ok(merged)
}

fn name(alloc: Global) -> Result<Name, Fail> {
    Ok(Name::new(alloc, "+r,root_tablet,A0000001.rf")?.ok_or("no name")?)
}

// How many bytes a file of so many cells has, and how many cells are read after a crash.
fn written(alloc: Global, count: u16) -> Result<(u64, DataFile), Fail> {
    let name = name(alloc)?;
    let mut host = MemoryHost::new(alloc, b"", &[], None)?;
    let cells = in_order(alloc, many(alloc, count)?)?;
    let size = write_file(alloc, &mut host, &name, &cells)?;
    let mut host = host.after_crash(b"", &[], None, Pick::Lost)?;
    Ok((size, read_file(alloc, &mut host, &name)?))
}

#[test]
fn files_are_read_again(rt: HostRuntime) -> Result<(), Fail> {
    for (count, size) in [(0, 32), (1, 60), (640, 12_912), (641, 12_940)] {
        let (bytes, file) = written(rt.alloc(), count)?;
        assert_eq!(rt; bytes, size);
        assert_eq!(rt; file.cells.as_slice().len(), usize::from(count));
        assert_eq!(rt; file.greatest, u64::from(count.min(1)));
    }
    Ok(())
}

fn is_damaged(alloc: Global, host: &mut MemoryHost) -> Result<bool, Fail> {
    let name = name(alloc)?;
    match read_file(alloc, host, &name) {
        Err(Stop::Damaged(damaged)) => Ok(damaged == name),
        _ => Ok(false),
    }
}

#[test]
fn other_files_are_damaged(rt: HostRuntime) -> Result<(), Fail> {
    let mut host = MemoryHost::new(rt.alloc(), b"", &[], None)?;
    assert!(rt; is_damaged(rt.alloc(), &mut host)?);
    host.create(&name(rt.alloc())?)?;
    assert!(rt; is_damaged(rt.alloc(), &mut host)?);
    Ok(())
}
