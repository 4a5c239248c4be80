// Whether cells with one key and time are the same.
ghost use Rattle.std.specs.Prelude.{MatchBool};
ghost use Rattle.cell_merge.specs.Changes.{AreConsistent};
ghost use Rattle.plain_reader.specs.Consistent.{Clash, Accord, AgreesWith};

use cell_merge::Cell;

/// Whether the cells are two different ones of the same key and time.
fn clash(one: &Cell, other: &Cell) -> bool
    ensures { MatchBool result (Clash one.now other.now) (Accord one.now other.now) }
{
    one.key == other.key && one.time == other.time && one.value != other.value
}

/// Whether each of the cells that has the cell's key and time is this cell.
fn agrees(cells: &[Cell], cell: &Cell) -> bool
    ensures { MatchBool result (AgreesWith cells.now cell.now) (AgreesWith cells.now cell.now → ⊥) }
{
    for other in cells {
        if clash(other, cell) {
            return false;
        }
    }
    true
}

/// Whether no two different cells have the same key and time. Time goes with the square of their number.
pub fn are_consistent(cells: &[Cell]) -> bool
    ensures { MatchBool result (AreConsistent cells.now) (AreConsistent cells.now → ⊥) }
{
    for cell in cells {
        if !agrees(cells, cell) {
            return false;
        }
    }
    true
}
