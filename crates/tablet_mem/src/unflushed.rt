// The unflushed cells, and where the newest of each key stands.
ghost use Rattle.std.specs.Prelude.{◌≡◌, ◌<◌, ◌≤◌, ◌++◌, [], ◌∷◌, IfOk, map, vec_capacity, length, true};
ghost use Rattle.std.specs.BTreeMap.{ContainsKey};
ghost use Rattle.std.specs.Option.{option_copied};
ghost use Rattle.row_keys.specs.RowOrder.{is_interval};
ghost use Rattle.cell_merge.specs.Newest.{IsMerged, clipped};
ghost use Rattle.tablet_mem.specs.declared.spot.Spot.{Spot};
ghost use Rattle.tablet_mem.specs.Index.{spot_cmp, place_at, cell_at, IsIndexOf};
ghost use Rattle.tablet_mem.specs.Memory.{cells_of_mutation};
ghost use Rattle.tablet_mem.specs.Room.{ready_of, cells_of, IsReady, HasRoom};

use crate::ready::{Places, Ready, make_places, ready_cells};
use crate::spot::{Spot, end_of, start_of};
use cell_merge::Cell;
use metadata_schema::Mutation;
use row_keys::Row;
use std::alloc::{AllocError, Global};
use std::collections::BTreeMap;

/// The unflushed cells in the order in which they were put, and where the newest of each key stands.
#[derive(Drop)]
pub struct Unflushed {
    cells: Vec<Cell>,
    places: Places,
}

/// Puts a cell for which there is room, so that nothing here can fail.
fn count_one(cells: &mut Vec<Cell>, places: &mut Places, one: Ready)
    requires room { length cells.old.items < vec_capacity cells.old }
    requires ready { IsReady places.old one }
    ensures cells { cells.new.items ≡ cells.old.items ++ one.cell ∷ [] }
    ensures capacity { vec_capacity cells.old ≤ vec_capacity cells.new }
    ensures kept { (other : Spot) → ContainsKey spot_cmp places.old other → ContainsKey spot_cmp places.new other }
    ensures index { IsIndexOf cells.old.items places.old → IsIndexOf (cells.old.items ++ one.cell ∷ []) places.new }
{
    let Ready { spot, cell } = one;
    let counts = match newest_of(cells, places, &spot) {
        Some(other) => other.time < cell.time,
        None => true,
    };
    if counts {
        // takes no memory, since the spot stands in the index
        let _ = places.insert(spot, Some(cells.len()));
    }
    // takes no memory, since there is room
    let _ = cells.push(cell);
}

/// The cell at a place.
fn cell_at(cells: &[Cell], place: Option<usize>) -> Option<&Cell>
    ensures { option_copied result ≡ cell_at cells.now place }
{
    match place {
        Some(place) => cells.get(place),
        None => None,
    }
}

/// The newest cell at a spot.
fn newest_of<'a>(cells: &'a [Cell], places: &Places, spot: &Spot) -> Option<&'a Cell>
    ensures { option_copied result ≡ cell_at cells.now (place_at places.now spot.now) }
{
    match places.get(spot) {
        Some(place) => cell_at(cells, *place),
        None => None,
    }
}

/// Whether the lower bound is below the upper one.
fn is_interval(low: Option<&Row>, high: Option<&Row>) -> bool
    ensures { result ≡ is_interval (option_copied low.entry) (option_copied high.entry) }
{
    match (low, high) {
        (Some(low), Some(high)) => low < high,
        _ => true,
    }
}

impl Unflushed {
    /// No cells. Takes no memory.
    pub fn new(alloc: Global) -> Unflushed
        ensures cells { result.cells.items ≡ [] }
        ensures index { IsIndexOf [] result.places }
    {
        Unflushed {
            cells: Vec::new(alloc),
            places: BTreeMap::new(alloc),
        }
    }

    /// The cells of a mutation, ready to be put: all memory for it is taken here, and nothing else changes.
    pub fn make_ready(
        &mut self,
        alloc: Global,
        mutation: &Mutation,
    ) -> Result<Vec<Ready>, AllocError>
        ensures cells { self.new.cells.items ≡ self.old.cells.items }
        ensures places { (spot : Spot) → place_at self.new.places spot ≡ place_at self.old.places spot }
        ensures ready { IfOk result (λ ready. ready.items ≡ map ready_of (cells_of_mutation mutation.now)) }
        ensures room { IfOk result (λ ready. HasRoom self.new ready.items) }
    {
        let ready = ready_cells(alloc, mutation)?;
        self.cells.reserve(ready.len())?;
        make_places(alloc, &mut self.places, &ready)?;
        Ok(ready)
    }

    /// Puts the cells that are ready. Takes no memory, and for each time with the logarithm of the keys so far.
    pub fn put_ready(&mut self, ready: Vec<Ready>)
        requires { HasRoom self.old ready.items }
        ensures cells { self.new.cells.items ≡ self.old.cells.items ++ cells_of ready.items }
        ensures index { IsIndexOf self.old.cells.items self.old.places → IsIndexOf self.new.cells.items self.new.places }
    {
        for one in ready {
            count_one(&mut self.cells, &mut self.places, one);
        }
    }

    /// Takes all cells out. Takes no memory.
    pub fn clear(&mut self)
        ensures cells { self.new.cells.items ≡ [] }
        ensures index { IsIndexOf [] self.new.places }
    {
        self.cells.clear();
        self.places.clear();
    }

    /// The cells.
    pub fn cells(&self) -> &[Cell]
        ensures { result.now ≡ self.now.cells.items }
    {
        &self.cells
    }

    /// Copies of the newest cells of the keys of the rows above `low`, up to `high` and at it, in key order.
    pub fn newest(
        &self,
        alloc: Global,
        low: Option<&Row>,
        high: Option<&Row>,
    ) -> Result<Vec<Cell>, AllocError>
        ensures { IsIndexOf self.now.cells.items self.now.places
            → IfOk result (λ newest. IsMerged (clipped (option_copied low.entry) (option_copied high.entry) self.now.cells.items) true newest.items) }
    {
        let mut newest = Vec::new(alloc);
        if !is_interval(low, high) {
            return Ok(newest);
        }
        let range = (start_of(alloc, low)?, end_of(alloc, high)?);
        for (_, place) in self.places.range(range) {
            if let Some(cell) = cell_at(&self.cells, *place) {
                newest.push(cell.copy(alloc)?)?;
            }
        }
        Ok(newest)
    }
}
