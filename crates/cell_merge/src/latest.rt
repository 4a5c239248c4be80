// The latest cell of each key, as cells come one after another.
ghost use Rattle.std.specs.Prelude.{◌≡◌, ◌++◌, [], ◌∷◌, List, IfOk, OnOk, filter};
ghost use Rattle.cell_merge.specs.declared.cell.Cell.{Cell};
ghost use Rattle.cell_merge.specs.Newest.{is_kept};
ghost use Rattle.cell_merge.specs.Index.{IsIndexOf, cells_of};

use crate::cell::Cell;
use row_keys::Key;
use std::alloc::{AllocError, Global};
use std::collections::BTreeMap;

/// The latest cell of each key.
pub type Latest<'a> = BTreeMap<&'a Key, &'a Cell>;

/// Counts one more cell in. Takes time with the logarithm of the keys so far.
fn add<'a>(latest: &mut Latest<'a>, cell: &'a Cell) -> Result<(), AllocError>
    ensures { (cells : List Cell) → IsIndexOf cells latest.old → OnOk result (IsIndexOf (cells ++ cell.now ∷ []) latest.new) }
{
    let counts = match latest.get(&&cell.key) {
        Some(other) => other.time < cell.time,
        None => true,
    };
    if counts {
        latest.insert(&cell.key, cell)?;
    }
    Ok(())
}

/// Counts more cells in.
pub fn add_all<'a>(latest: &mut Latest<'a>, more: &'a [Cell]) -> Result<(), AllocError>
    ensures { (cells : List Cell) → IsIndexOf cells latest.old → OnOk result (IsIndexOf (cells ++ more.now) latest.new) }
{
    for cell in more {
        add(latest, cell)?;
    }
    Ok(())
}

/// Copies of the latest cells in key order, without the removed ones where they are not kept.
pub fn kept(alloc: Global, latest: Latest<'_>, keep_removed: bool) -> Result<Vec<Cell>, AllocError>
    ensures { IfOk result (λ kept. kept.items ≡ filter (is_kept keep_removed) (cells_of latest.entry)) }
{
    let mut kept = Vec::new(alloc);
    for cell in latest.into_values() {
        if keep_removed || cell.value.is_some() {
            kept.push(cell.copy(alloc)?)?;
        }
    }
    Ok(kept)
}
