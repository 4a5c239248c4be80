// The cells of an extent.
ghost use Rattle.std.specs.Prelude.{◌≡◌, IfOk};
ghost use Rattle.cell_merge.specs.Newest.{clipped};

use crate::cell::Cell;
use row_keys::Extent;
use std::alloc::{AllocError, Global};

/// The cells whose rows lie in the extent, in their order. Takes memory for copies of them, and time with all cells.
pub fn clip(alloc: Global, cells: &[Cell], extent: &Extent) -> Result<Vec<Cell>, AllocError>
    ensures { IfOk result (λ inside. inside.items ≡ clipped extent.now.prev extent.now.end cells.now) }
{
    let mut inside = Vec::new(alloc);
    for cell in cells {
        if extent.contains(&cell.key.row) {
            inside.push(cell.copy(alloc)?)?;
        }
    }
    Ok(inside)
}
