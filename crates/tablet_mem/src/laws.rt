// What holds of the memory of a tablet. Each law is the contract of a call that does nothing.
ghost use Rattle.std.specs.Prelude.{◌≡◌, ℕ, ◌<◌, ◌++◌, true, false, List, Option, None, Contains};
ghost use Rattle.std.specs.List.{flat_map};
ghost use Rattle.row_keys.specs.declared.key.Key.{Key};
ghost use Rattle.row_keys.specs.RowOrder.{is_within};
ghost use Rattle.metadata_schema.specs.declared.mutation.Mutation.{Mutation};
ghost use Rattle.cell_merge.specs.declared.cell.Cell.{Cell};
ghost use Rattle.cell_merge.specs.Newest.{Bytes, latest, newest_at, clipped, IsMerged};
ghost use Rattle.cell_merge.specs.Changes.{AreConsistent, overlaid};
ghost use Rattle.tablet_mem.specs.Memory.{Memory, started, put_all, cleared, cells_of_mutation};
ghost use Rattle.tablet_mem.specs.Times.{times_of, IsGreatestOf};

/// The clock, which the next time is 1 more than, is the greatest of the bar, the greatest time of the files, and the times of
/// all mutations that were put, also of those whose cells were taken out.
pub fn the_clock_is_the_greatest_time()
    ensures greatest { (bar greatest : ℕ) (mutations : List Mutation) → IsGreatestOf (times_of bar greatest mutations) (put_all (started bar greatest) mutations).clock }
    ensures cleared { (memory : Memory) (mutations : List Mutation) → (put_all (cleared memory) mutations).clock ≡ (put_all memory mutations).clock }
{}

/// The cells are those of the mutations that were put, one after another.
pub fn the_cells_are_those_put()
    ensures { (memory : Memory) (mutations : List Mutation) → (put_all memory mutations).cells ≡ memory.cells ++ flat_map cells_of_mutation mutations }
{}

/// The newest cells of a memory between two rows, behind the cells that the files have there, leave each key of these rows the
/// latest of all cells, and no other key a cell.
pub fn newest_cells_stand_for_all()
    ensures within { (low high : Option Bytes) (files cells newest : List Cell) (key : Key) → IsMerged (clipped low high cells) true newest
        → is_within low high key.row ≡ true → latest (clipped low high files ++ newest) key ≡ latest (files ++ cells) key }
    ensures outside { (low high : Option Bytes) (files cells newest : List Cell) (key : Key) → IsMerged (clipped low high cells) true newest
        → is_within low high key.row ≡ false → latest (clipped low high files ++ newest) key ≡ None }
{}

/// A mutation later than all cells stands over them: where it writes a key, the key has what it writes, and every other key has
/// what it had.
pub fn a_mutation_past_all_cells_counts()
    ensures newest { (cells : List Cell) (mutation : Mutation) (key : Key) → ((cell : Cell) → Contains cells cell → cell.time < mutation.time)
        → newest_at (cells ++ cells_of_mutation mutation) key ≡ overlaid (latest (cells_of_mutation mutation) key) (newest_at cells key) }
    ensures consistent { (cells : List Cell) (mutation : Mutation) → ((cell : Cell) → Contains cells cell → cell.time < mutation.time)
        → AreConsistent cells → AreConsistent (cells_of_mutation mutation) → AreConsistent (cells ++ cells_of_mutation mutation) }
{}
