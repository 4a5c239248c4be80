// Data files as bytes.
ghost use Rattle.std.specs.Prelude.{◌≡◌, ◌+◌, ◌<◌, ◌^◌, ◌++◌, length, IfOk, OnOk, MatchBool, MatchOption};
ghost use Rattle.data_files.specs.Cells.{spelled_cells, AreFileCells};
ghost use Rattle.data_files.specs.Files.{greatest_time, head, tail, spelled_file, IsDataFile};
ghost use Rattle.data_files.specs.Parts.{index_part, StartsHead, StartsNoHead, StartsCells, StartsNoCells, HasNone};

use crate::cell_bytes::{put_cell, take_cell};
use crate::order::{follows, greatest_time};
use crate::sizes::{BLOCK, HEAD, MAGIC, cell_size};
use bytes_form::{put_u64, take_u64};
use cell_merge::Cell;
use std::alloc::{AllocError, Global};

fn put_head(out: &mut Vec<u8>, cells: &[Cell]) -> Result<(), AllocError>
    ensures { OnOk result (out.new.items ≡ out.old.items ++ head cells.now) }
{
    out.extend_from_slice(&MAGIC)?;
    put_u64(out, cells.len() as u64)?;
    put_u64(out, greatest_time(cells))
}

fn put_cells(out: &mut Vec<u8>, cells: &[Cell]) -> Result<(), AllocError>
    requires { AreFileCells cells.now }
    ensures { OnOk result (out.new.items ≡ out.old.items ++ spelled_cells cells.now) }
{
    for cell in cells {
        put_cell(out, cell)?;
    }
    Ok(())
}

/// Adds to the index where the cell of this number begins, if it is the first of a block.
fn put_offset(out: &mut Vec<u8>, number: usize, offset: u64) -> Result<(), AllocError>
    ensures { OnOk result (out.new.items ≡ out.old.items ++ index_part number offset) }
{
    if number % BLOCK == 0 {
        put_u64(out, offset)?;
    }
    Ok(())
}

/// Adds the index of the cells, and where it begins.
fn put_tail(out: &mut Vec<u8>, cells: &[Cell]) -> Result<(), AllocError>
    requires are { AreFileCells cells.now }
    requires short { 24 + length (spelled_cells cells.now) < 2 ^ 64 }
    ensures { OnOk result (out.new.items ≡ out.old.items ++ tail cells.now) }
{
    let mut offset = HEAD;
    for (number, cell) in cells.iter().enumerate() {
        put_offset(out, number, offset)?;
        offset += cell_size(cell);
    }
    put_u64(out, offset)
}

/// The bytes of a file of these cells. Takes memory for them, and time with the cells' lengths.
pub fn spell(alloc: Global, cells: &[Cell]) -> Result<Vec<u8>, AllocError>
    requires { AreFileCells cells.now }
    ensures { IfOk result (λ bytes. IsDataFile bytes.items cells.now) }
{
    let mut bytes = Vec::new(alloc);
    put_head(&mut bytes, cells)?;
    put_cells(&mut bytes, cells)?;
    put_tail(&mut bytes, cells)?;
    Ok(bytes)
}

/// The number of cells, their greatest time and what is behind, or none where no file begins so.
fn take_head(bytes: &[u8]) -> Option<(u64, u64, &[u8])>
    ensures { MatchOption result (StartsNoHead bytes.now) (λ taken. StartsHead bytes.now taken.0 taken.1 taken.2.now) }
{
    let (magic, rest) = bytes.split_at_checked(MAGIC.len())?;
    if magic != MAGIC.as_slice() {
        return None;
    }
    let Ok(count) = take_u64(rest) else {
        return None;
    };
    let Ok(greatest) = take_u64(count.rest) else {
        return None;
    };
    Some((count.value, greatest.value, greatest.rest))
}

/// So many cells in front of the bytes and what is behind them, or none where they don't stand there in order.
fn take_cells(
    alloc: Global,
    bytes: &[u8],
    count: u64,
) -> Result<Option<(Vec<Cell>, &[u8])>, AllocError>
    ensures { IfOk result (λ found. MatchOption found (StartsNoCells count bytes.now) (λ taken. StartsCells count bytes.now taken.0.items taken.1.now)) }
{
    let mut cells = Vec::new(alloc);
    let mut rest = bytes;
    for _ in 0..count {
        let Some((cell, after)) = take_cell(alloc, rest)? else {
            return Ok(None);
        };
        if !follows(&cells, &cell) {
            return Ok(None);
        }
        cells.push(cell)?;
        rest = after;
    }
    Ok(Some((cells, rest)))
}

/// Whether the bytes are the index of the cells and where it begins.
fn is_tail(alloc: Global, cells: &[Cell], bytes: &[u8]) -> Result<bool, AllocError>
    requires are { AreFileCells cells.now }
    requires short { 24 + length (spelled_cells cells.now) < 2 ^ 64 }
    ensures { IfOk result (λ is. MatchBool is (bytes.now ≡ tail cells.now) (bytes.now ≡ tail cells.now → ⊥)) }
{
    let mut spelled = Vec::new(alloc);
    put_tail(&mut spelled, cells)?;
    Ok(bytes == spelled.as_slice())
}

/// The cells of a file, or none where the bytes are no file's. Takes memory for them, and time with the bytes.
pub fn read(alloc: Global, bytes: &[u8]) -> Result<Option<Vec<Cell>>, AllocError>
    ensures { IfOk result (λ found. MatchOption found (HasNone bytes.now) (λ cells. IsDataFile bytes.now cells.items)) }
{
    let Some((count, greatest, rest)) = take_head(bytes) else {
        return Ok(None);
    };
    let Some((cells, rest)) = take_cells(alloc, rest, count)? else {
        return Ok(None);
    };
    if greatest_time(&cells) != greatest {
        return Ok(None);
    }
    if !is_tail(alloc, &cells, rest)? {
        return Ok(None);
    }
    Ok(Some(cells))
}
