// The newest of some cells, as cells and as pairs.
ghost use Rattle.std.specs.Prelude.{◌≡◌, IfOk, filter_map};
ghost use Rattle.cell_merge.specs.Newest.{IsNewest, IsMerged, joined, pair_of};

use crate::cell::{Cell, Cells, Pair};
use crate::latest::{add_all, kept};
use std::alloc::{AllocError, Global};
use std::collections::BTreeMap;

/// The key and the value of a cell that has one.
fn pair_of(cell: Cell) -> Option<Pair>
    ensures { result ≡ pair_of cell }
{
    let Cell {
        key,
        time: _,
        value,
    } = cell;
    match value {
        Some(value) => Some(Pair { key, value }),
        None => None,
    }
}

/// The keys and values of the cells that have one.
fn pairs_of(alloc: Global, cells: Vec<Cell>) -> Result<Vec<Pair>, AllocError>
    ensures { IfOk result (λ pairs. pairs.items ≡ filter_map pair_of cells.items) }
{
    let mut pairs = Vec::new(alloc);
    for cell in cells {
        if let Some(pair) = pair_of(cell) {
            pairs.push(pair)?;
        }
    }
    Ok(pairs)
}

/// The keys whose cell of greatest time has a value, each with that value, in key order. Where two cells agree in key
/// and time, the first counts. Takes memory for them, and time n log n for n cells.
pub fn newest(alloc: Global, cells: &[Cell]) -> Result<Vec<Pair>, AllocError>
    ensures { IfOk result (λ pairs. IsNewest cells.now pairs.items) }
{
    let mut latest = BTreeMap::new(alloc);
    add_all(&mut latest, cells)?;
    pairs_of(alloc, kept(alloc, latest, false)?)
}

/// The cell of greatest time of each key of all sources, in key order, without the removed ones where `keep_removed` is
/// false. Where two cells agree in key and time, the first counts. Takes memory for copies of them, and time n log n for n
/// cells.
pub fn merge_sources(
    alloc: Global,
    sources: &[Cells],
    keep_removed: bool,
) -> Result<Vec<Cell>, AllocError>
    ensures { IfOk result (λ merged. IsMerged (joined sources.now) keep_removed merged.items) }
{
    let mut latest = BTreeMap::new(alloc);
    for source in sources {
        add_all(&mut latest, source.as_slice())?;
    }
    kept(alloc, latest, keep_removed)
}
