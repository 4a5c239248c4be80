// Cells within a range of rows.
ghost use Rattle.std.specs.Prelude.{◌≡◌};
ghost use Rattle.std.specs.Option.{option_copied};
ghost use Rattle.row_keys.specs.RowOrder.{is_above, is_up_to, is_within};
ghost use Rattle.cell_merge.specs.Newest.{clipped};

use cell_merge::Cell;
use row_keys::Row;

/// Whether the row is above the bound.
fn is_above(low: Option<&Row>, row: &Row) -> bool
    ensures { result ≡ is_above (option_copied low.entry) row.now }
{
    match low {
        Some(low) => low < row,
        None => true,
    }
}

/// Whether the row is up to the bound, or at it.
fn is_up_to(high: Option<&Row>, row: &Row) -> bool
    ensures { result ≡ is_up_to (option_copied high.entry) row.now }
{
    match high {
        Some(high) => row <= high,
        None => true,
    }
}

/// Whether the row is above `low`, and up to `high` or at it. A bound that isn't there is no limit.
pub fn is_within(low: Option<&Row>, high: Option<&Row>, row: &Row) -> bool
    ensures { result ≡ is_within (option_copied low.entry) (option_copied high.entry) row.now }
{
    is_above(low, row) && is_up_to(high, row)
}

/// Takes out the cells of other rows than those above `low`, up to `high` and at it.
pub fn keep_within(cells: &mut Vec<Cell>, low: Option<&Row>, high: Option<&Row>)
    ensures { cells.new.items ≡ clipped (option_copied low.entry) (option_copied high.entry) cells.old.items }
{
    cells.retain(|cell| is_within(low, high, &cell.key.row));
}
