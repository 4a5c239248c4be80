// Split points in order.
ghost use Rattle.std.specs.Prelude.{◌≡◌, ◌≤◌, OnOk, OnErr, IfOk, length, insert};
ghost use Rattle.std.specs.List.Sorted.{IsSearchInRange};
ghost use Rattle.std.specs.Option.{option_copied};
ghost use Rattle.std.specs.FinMap as map;
ghost use Rattle.plain_model.specs.State.{PointSet, with_points};
ghost use Rattle.plain_model.specs.Apply.{points_outside};
ghost use Rattle.plain_model.specs.Listed.{listed, point_item};
ghost use Rattle.plain_model.specs.Places.{IsPlace};

use crate::ranges::is_between;
use row_keys::{Row, Rows};
use std::alloc::{AllocError, Global};
use std::collections::BTreeSet;
use std::mem;

/// Where the row stands, or would stand. Time goes with the logarithm of the number of rows.
pub(crate) fn place_of_point(points: &[Row], row: &Row) -> Result<usize, usize>
    ensures place { (m : PointSet) → points.now ≡ listed point_item m → IsPlace point_item m row.now result }
    ensures bound { IsSearchInRange result (length points.now) }
{
    points.binary_search(row)
}

/// Puts the row at this place. At want of memory the points are as they were. Moves the points behind it.
pub(crate) fn insert_point(
    alloc: Global,
    points: &mut Rows,
    place: usize,
    row: Row,
) -> Result<(), AllocError>
    requires { place ≤ length points.old }
    ensures ok { OnOk result (points.new ≡ insert points.old place row) }
    ensures err { OnErr result (points.new ≡ points.old) }
{
    let mut items = mem::replace(points, Rows::new(alloc)).into_vec();
    let done = items.insert(place, row);
    *points = Rows::from_vec(items);
    Ok(done?)
}

/// Removes the points above `from` and below `to`. Takes no memory. Time goes with the number of points.
pub(crate) fn remove_points(alloc: Global, points: &mut Rows, from: Option<&Row>, to: Option<&Row>)
    ensures { (m : PointSet) → points.old ≡ listed point_item m → points.new ≡ listed point_item (points_outside (option_copied from.entry) (option_copied to.entry) m) }
{
    let mut items = mem::replace(points, Rows::new(alloc)).into_vec();
    items.retain(|row| !is_between(from, to, row));
    *points = Rows::from_vec(items);
}

/// The same points again. Takes memory for a copy.
pub(crate) fn copy_points(alloc: Global, points: &[Row]) -> Result<Rows, AllocError>
    ensures { IfOk result (λ copies. copies ≡ points.now) }
{
    let mut copies = Rows::new(alloc);
    for point in points {
        copies.push(point.copy(alloc)?)?;
    }
    Ok(copies)
}

/// These rows in order, each once. Takes memory for a copy, and time with the number of rows and its logarithm.
pub(crate) fn points_in_order(alloc: Global, rows: &[Row]) -> Result<Rows, AllocError>
    ensures { IfOk result (λ points. points ≡ listed point_item (with_points rows.now map.empty)) }
{
    let mut set = BTreeSet::new(alloc);
    for row in rows {
        set.insert(row.copy(alloc)?)?;
    }
    let mut points = Rows::new(alloc);
    for point in set {
        points.push(point)?;
    }
    Ok(points)
}
