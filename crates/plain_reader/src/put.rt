// Cells put into a table of a plain state.
ghost use Rattle.std.specs.Prelude.{◌≡◌, Ok, [], ◌∷◌, IsSome, IfOk, OnOk};
ghost use Rattle.std.specs.FinMap as map;
ghost use Rattle.plain_model.specs.Apply.{apply};
ghost use Rattle.store_meaning.specs.Marked.{layered};
ghost use Rattle.plain_reader.specs.Puts.{value_op, put_over, put_each, PutsOver};

use crate::lists::push_item;
use cell_merge::{Cell, Cells, merge_sources};
use plain_model::{Op, Pair, PlainStore};
use row_keys::TableId;
use std::alloc::{AllocError, Global};

/// The operation that gives a cell's key in a table the cell's value, or none where the cell is a removal.
fn op_of(alloc: Global, id: &TableId, cell: &Cell) -> Result<Op, AllocError>
    ensures { IfOk result (λ op. op ≡ value_op id.now cell.now.key cell.now.value) }
{
    let id = id.copy(alloc)?;
    let key = cell.key.copy(alloc)?;
    match &cell.value {
        Some(value) => Ok(Op::Insert {
            id,
            pair: Pair {
                key,
                value: value.copy(alloc)?,
            },
        }),
        None => Ok(Op::Remove { id, key }),
    }
}

/// Puts a cell into the table.
fn put_cell(
    alloc: Global,
    state: &mut PlainStore,
    id: &TableId,
    cell: &Cell,
) -> Result<(), AllocError>
    requires { IsSome (map.get state.old.tables id.now) }
    ensures { OnOk result (apply (value_op id.now cell.now.key cell.now.value) state.old ≡ Ok state.new) }
{
    let op = op_of(alloc, id, cell)?;
    match state.apply(&op) {
        Ok(()) => Ok(()),
        Err(_) => Err(AllocError),
    }
}

/// Copies of the cells, as the one source of a merge.
fn source_of(alloc: Global, cells: &[Cell]) -> Result<Vec<Cells>, AllocError>
    ensures { IfOk result (λ sources. sources.items ≡ cells.now ∷ []) }
{
    let mut copies = Vec::new(alloc);
    for cell in cells {
        copies.push(cell.copy(alloc)?)?;
    }
    let mut sources = Vec::new(alloc);
    push_item(&mut sources, Cells::from_vec(copies))?;
    Ok(sources)
}

/// Puts cells into the table one after another.
fn put_in_order(
    alloc: Global,
    state: &mut PlainStore,
    id: &TableId,
    cells: &[Cell],
) -> Result<(), AllocError>
    requires { IsSome (map.get state.old.tables id.now) }
    ensures { OnOk result (PutsOver id.now (put_each cells.now) state.old state.new) }
{
    for cell in cells {
        put_cell(alloc, state, id, cell)?;
    }
    Ok(())
}

/// Puts cells into the table, of each key the latest.
pub fn put_cells(
    alloc: Global,
    state: &mut PlainStore,
    id: &TableId,
    cells: &[Cell],
) -> Result<(), AllocError>
    requires { IsSome (map.get state.old.tables id.now) }
    ensures { OnOk result (PutsOver id.now (put_over cells.now) state.old state.new) }
{
    let sources = source_of(alloc, cells)?;
    let merged = merge_sources(alloc, &sources, true)?;
    put_in_order(alloc, state, id, &merged)
}

/// Puts layers into the table, each over those before it.
pub fn put_layers(
    alloc: Global,
    state: &mut PlainStore,
    id: &TableId,
    layers: &[Cells],
) -> Result<(), AllocError>
    requires { IsSome (map.get state.old.tables id.now) }
    ensures { OnOk result (PutsOver id.now (layered layers.now) state.old state.new) }
{
    for cells in layers {
        put_cells(alloc, state, id, cells.as_slice())?;
    }
    Ok(())
}
