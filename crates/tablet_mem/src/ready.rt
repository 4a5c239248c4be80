// Cells that are about to be put, and room for them in the index.
ghost use Rattle.std.specs.Prelude.{◌≡◌, All, IfOk, OnOk, map};
ghost use Rattle.std.specs.BTreeMap.{ContainsKey};
ghost use Rattle.tablet_mem.specs.declared.spot.Spot.{Spot};
ghost use Rattle.tablet_mem.specs.Index.{spot_cmp, place_at};
ghost use Rattle.tablet_mem.specs.Memory.{cells_of_mutation};
ghost use Rattle.tablet_mem.specs.Room.{ready_of};

use crate::spot::Spot;
use cell_merge::Cell;
use metadata_schema::Mutation;
use row_keys::Key;
use std::alloc::{AllocError, Global};
use std::collections::BTreeMap;

/// Where the newest cell of each key stands among the cells. A key may be there and have no cell yet.
pub type Places = BTreeMap<Spot, Option<usize>>;

/// A cell that is about to be put, with its spot.
#[derive(Drop)]
pub struct Ready {
    pub spot: Spot,
    pub cell: Cell,
}

/// The cells that a mutation writes, each with its spot. Takes memory for copies of them.
pub fn ready_cells(alloc: Global, mutation: &Mutation) -> Result<Vec<Ready>, AllocError>
    ensures { IfOk result (λ ready. ready.items ≡ map ready_of (cells_of_mutation mutation.now)) }
{
    let mut ready = Vec::new(alloc);
    for update in mutation.updates.as_slice() {
        let value = match &update.value {
            Some(value) => Some(value.copy(alloc)?),
            None => None,
        };
        let key = Key {
            row: mutation.row.copy(alloc)?,
            family: update.family.copy(alloc)?,
            qualifier: update.qualifier.copy(alloc)?,
        };
        ready.push(Ready {
            spot: Spot::of(alloc, &key)?,
            cell: Cell {
                key,
                time: mutation.time,
                value,
            },
        })?;
    }
    Ok(ready)
}

/// Makes room in the index for this spot.
fn make_place(alloc: Global, places: &mut Places, spot: &Spot) -> Result<(), AllocError>
    ensures same { (other : Spot) → place_at places.new other ≡ place_at places.old other }
    ensures kept { (other : Spot) → ContainsKey spot_cmp places.old other → ContainsKey spot_cmp places.new other }
    ensures made { OnOk result (ContainsKey spot_cmp places.new spot.now) }
{
    if !places.contains_key(spot) {
        places.insert(spot.copy(alloc)?, None)?;
    }
    Ok(())
}

/// Makes room in the index for each of these cells. At want of memory there may be room for some.
pub fn make_places(alloc: Global, places: &mut Places, ready: &[Ready]) -> Result<(), AllocError>
    ensures same { (spot : Spot) → place_at places.new spot ≡ place_at places.old spot }
    ensures made { OnOk result (All (λ one. ContainsKey spot_cmp places.new one.spot) ready.now) }
{
    for one in ready {
        make_place(alloc, places, &one.spot)?;
    }
    Ok(())
}
