// What holds of rows that are written. Each law is the contract of a call that does nothing.
ghost use Rattle.std.specs.Prelude.{◌≡◌, ℕ, List, IsTrue};
ghost use Rattle.metadata_schema.specs.declared.mutation.Update.{Update};
ghost use Rattle.metadata_schema.specs.Between.{LeadsBetween};
ghost use Rattle.metadata_schema.specs.Bytes.{is_rising};
ghost use Rattle.metadata_schema.specs.Columns.{update_cmp};
ghost use Rattle.cell_merge.specs.declared.cell.Cell.{Cell};
ghost use Rattle.cell_merge.specs.Changes.{AreConsistent, Gains};
ghost use Rattle.store_meaning.specs.Content.{cells_of_mutation};
ghost use Rattle.store_meaning.specs.Levels.{Level, IsLevelOf};
ghost use Rattle.store_meaning.specs.RowWrites.{LevelRow, RowWrite, LeadsRow, columns_in, columns_to, with_level_row};
ghost use Rattle.state_reader.specs.declared.level.LevelKind.{LevelKind};
ghost use Rattle.state_reader.specs.LevelRows.{IsOfKind};
ghost use Rattle.level_index.specs.Entries.{LevelMap, level_of};
ghost use Rattle.level_index.specs.Value.{PreparedLevel};
ghost use Rattle.level_index.specs.Writes.{MakesRow, HaveNoIdle, Prepares};

/// Updates that lead from the columns that a row of the level has to those that it is to have make that row.
pub fn updates_that_lead_make_the_row()
    ensures { (kind : LevelKind) (level : Level) (write : RowWrite) → LeadsRow (IsOfKind kind) level write → MakesRow (IsOfKind kind) level write.mutation.row write.mutation.updates write.row }
{}

/// Updates in order that make a row, and each of which changes its column, lead from the columns that the row has in the level to those
/// that it is to have.
pub fn updates_without_idle_ones_lead_to_the_row()
    ensures { (kind : LevelKind) (level : Level) (row : List ℕ) (updates : List Update) (to : LevelRow) → MakesRow (IsOfKind kind) level row updates to
        → IsTrue (is_rising update_cmp updates) → HaveNoIdle updates (columns_in level to) → LeadsBetween (columns_in level to) (columns_to to) updates }
{}

/// Updates make one row of the level at most.
pub fn a_row_is_made_once()
    ensures { (kind : LevelKind) (level : Level) (row : List ℕ) (updates : List Update) (one other : LevelRow)
        → MakesRow (IsOfKind kind) level row updates one → MakesRow (IsOfKind kind) level row updates other → one ≡ other }
{}

/// The index of a written row is the level with that row, which is what the cells tell once those of the mutation are added.
pub fn a_written_index_is_the_level()
    ensures row { (index : LevelMap) (write : RowWrite) (prepared : PreparedLevel) → LeadsRow (IsOfKind index.kind) (level_of index) write
        → Prepares index write.mutation.row write.mutation.updates prepared → level_of prepared.after ≡ with_level_row (level_of index) write.row }
    ensures cells { (index : LevelMap) (write : RowWrite) (prepared : PreparedLevel) (old new : List Cell) → LeadsRow (IsOfKind index.kind) (level_of index) write
        → Prepares index write.mutation.row write.mutation.updates prepared → IsLevelOf (IsOfKind index.kind) old (level_of index) → AreConsistent old
        → Gains (cells_of_mutation write.mutation) old new → IsLevelOf (IsOfKind prepared.after.kind) new (level_of prepared.after) }
{}
