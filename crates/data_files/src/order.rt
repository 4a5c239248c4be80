// The order and the times of cells.
ghost use Rattle.std.specs.Prelude.{◌≡◌, ◌↔◌, ◌++◌, [], ◌∷◌, IsTrue};
ghost use Rattle.cell_merge.specs.Newest.{HaveRisingKeys};
ghost use Rattle.data_files.specs.Files.{greatest_time};

use cell_merge::Cell;

/// Whether the cell's key is above those of the cells, whose keys rise.
pub fn follows(cells: &[Cell], cell: &Cell) -> bool
    requires { HaveRisingKeys cells.now }
    ensures { IsTrue result ↔ HaveRisingKeys (cells.now ++ cell.now ∷ []) }
{
    match cells.last() {
        Some(last) => last.key < cell.key,
        None => true,
    }
}

/// The greatest of the cells' times, and 0 for no cells.
pub fn greatest_time(cells: &[Cell]) -> u64
    ensures { result ≡ greatest_time cells.now }
{
    let mut greatest = 0;
    for cell in cells {
        greatest = greatest.max(cell.time);
    }
    greatest
}
