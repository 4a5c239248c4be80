// What one written row does to the chains of tables, and to their cells. Each law is the contract of a call that does nothing.
ghost use Rattle.std.specs.Prelude.{◌≡◌, ◌≢◌, ◌⊎◌, ◌∷◌, [], ℕ, Bool, List, Option, Some, None, Contains};
ghost use Rattle.metadata_schema.specs.declared.mutation.Mutation.{Mutation};
ghost use Rattle.metadata_schema.specs.declared.tablet.TabletRecord.{TabletRecord};
ghost use Rattle.cell_merge.specs.declared.cell.Cell.{Cell};
ghost use Rattle.cell_merge.specs.Changes.{Covers};
ghost use Rattle.level_rows.specs.Chain.{Rows, IsChain};
ghost use Rattle.level_rows.specs.Changes.{StandAsBefore, with_row, without_row};
ghost use Rattle.store_meaning.specs.Ground.{Ground};
ghost use Rattle.store_meaning.specs.Content.{contents_of, tablet_content};
ghost use Rattle.store_meaning.specs.Levels.{Level, Flag, Reading, IsReadingOf, IsMetadataTable, root_id, metadata_id, root_rows, metadata_rows};
ghost use Rattle.store_meaning.specs.Readable.{HaveConsistentTablets, IsReadAs};
ghost use Rattle.store_meaning.specs.Writes.{appended, HasGained, StandsIn};
ghost use Rattle.store_meaning.specs.RowWrites.{RecordRow, CandidateRow, FlagRow, RowWrite, row_written, LeadsRow, with_level_row, WritesUserRow, metadata_rows_with, WritesMetadataRow};
ghost use Rattle.store_meaning.specs.ChainWrites.{PieceChange, chain_before, chain_after, content_with_piece, ReplacesPiece, HasCovered, RecordChange, piece_of, KeepsExtent, content_in_place, user_rows_with, ReplacesUserPiece, RewritesUserTablet, RewritesMetadataTablet, PutsCells};
ghost use Rattle.store_meaning.specs.Naming.{IsUnsorted};

/// Of a level with one row written, the rows of a table are those with this record at its end row, or with none there; other
/// tables' rows are as they were, and so are all where a candidate or a flag is written.
pub fn a_written_record_is_one_of_its_table()
    ensures written { (level : Level) (table : List ℕ) (tablet : TabletRecord) → (with_level_row level (RecordRow table tablet.end (Some tablet))).records table ≡ with_row (level.records table) tablet }
    ensures taken_out { (level : Level) (table : List ℕ) (end : Option (List ℕ)) → (with_level_row level (RecordRow table end None)).records table ≡ without_row (level.records table) end }
    ensures other_tables { (level : Level) (table other : List ℕ) (end : Option (List ℕ)) (tablet : Option TabletRecord) → other ≢ table → (with_level_row level (RecordRow table end tablet)).records other ≡ level.records other }
    ensures candidates { (level : Level) (path : List ℕ) (is_there : Bool) → (with_level_row level (CandidateRow path is_there)).records ≡ level.records }
    ensures flags { (level : Level) (path : List ℕ) (flag : Option Flag) → (with_level_row level (FlagRow path flag)).records ≡ level.records }
{}

/// Where one piece of a chain is replaced, the tablets above and below it have the cells that they had, and where the cells of
/// the piece leave each key what it had, those of the chain do. A record of the same extent, in its place, is such a piece, and
/// its cells are those of that extent.
pub fn a_replaced_piece_leaves_the_rest()
    ensures content { (known : Ground) (old new : Rows) (piece : PieceChange) → ReplacesPiece old new piece → contents_of known new (chain_after piece) ≡ content_with_piece known old new piece }
    ensures covered { (known : Ground) (old new : Rows) (piece : PieceChange) → ReplacesPiece old new piece → (all was is : List Cell) → contents_of known old (chain_before piece) ≡ Some all
        → contents_of known old piece.gone ≡ Some was → contents_of known new piece.come ≡ Some is → Covers is was → HasCovered all (contents_of known new (chain_after piece)) }
    ensures in_place { (rows : Rows) (change : RecordChange) → KeepsExtent rows change → ReplacesPiece rows (with_row rows change.new) (piece_of change) }
    ensures in_place_content { (rows : Rows) (change : RecordChange) → KeepsExtent rows change → (known : Ground) → tablet_content known (with_row rows change.new) change.new ≡ content_in_place known rows change change.new }
{}

/// A record that is written over one of a piece, where both chains are there, replaces that piece, as a merge does; and so does
/// one that is written at a free end row, where no tablet outside the piece is being split there, as the lower half of a split.
pub fn a_written_record_replaces_its_piece()
    ensures over { (rows : Rows) (piece : PieceChange) (tablet was : TabletRecord) → IsChain rows (chain_before piece) → Contains piece.gone was → tablet.end ≡ was.end
        → IsChain (with_row rows tablet) (chain_after piece) → ReplacesPiece rows (with_row rows tablet) piece }
    ensures free { (rows : Rows) (piece : PieceChange) (tablet : TabletRecord) → IsChain rows (chain_before piece) → rows tablet.end ≡ None
        → ((other : TabletRecord) → Contains piece.above other ⊎ Contains piece.below other → (other.old_prev ≡ None) ⊎ (other.prev ≢ tablet.end))
        → IsChain (with_row rows tablet) (chain_after piece) → ReplacesPiece rows (with_row rows tablet) piece }
{}

/// The tablets of a chain stand as before where they are the chain still. So a row that is written beside a table's chain leaves
/// it its cells: a candidate, a flag, a row of another table, a record that is left over, or one that isn't on the way yet.
pub fn a_row_aside_leaves_a_chain()
    ensures stands { (old new : Rows) (chain : List TabletRecord) → IsChain old chain → IsChain new chain → StandAsBefore old new chain }
    ensures content { (known : Ground) (reading : Reading) → IsReadingOf known reading → HaveConsistentTablets known (metadata_rows reading) reading.chain → (write : RowWrite) → WritesUserRow known reading write
        → (table : List ℕ) (chain : List TabletRecord) → table ≢ metadata_id → IsChain (reading.users.records table) chain → IsChain (user_rows_with reading write table) chain
        → contents_of (row_written known write) (user_rows_with reading write table) chain ≡ contents_of known (reading.users.records table) chain }
    ensures metadata { (known : Ground) (reading : Reading) → IsReadingOf known reading → (write : RowWrite) → write.mutation.table ≡ root_id → StandsIn known (root_rows reading) (reading.root ∷ []) write.log write.mutation
        → LeadsRow IsMetadataTable reading.metadata write → IsChain (metadata_rows_with reading write) reading.chain → WritesMetadataRow known reading write reading.chain }
{}

/// A row that replaces a piece of a user table's chain leaves the other tablets their cells. One record written again with its
/// extent is such a piece; where its cells leave each key what it had, those of the table do.
pub fn a_written_row_replaces_a_piece_of_its_chain()
    ensures content { (known : Ground) (reading : Reading) → IsReadingOf known reading → HaveConsistentTablets known (metadata_rows reading) reading.chain
        → (write : RowWrite) (table : List ℕ) (piece : PieceChange) → ReplacesUserPiece known reading write table piece
        → contents_of (row_written known write) (user_rows_with reading write table) (chain_after piece) ≡ content_with_piece known (reading.users.records table) (user_rows_with reading write table) piece }
    ensures covered { (known : Ground) (reading : Reading) → IsReadingOf known reading → HaveConsistentTablets known (metadata_rows reading) reading.chain
        → (write : RowWrite) (table : List ℕ) (piece : PieceChange) → ReplacesUserPiece known reading write table piece → (all was is : List Cell) → contents_of known (reading.users.records table) (chain_before piece) ≡ Some all
        → contents_of known (reading.users.records table) piece.gone ≡ Some was → contents_of known (user_rows_with reading write table) piece.come ≡ Some is → Covers is was
        → HasCovered all (contents_of (row_written known write) (user_rows_with reading write table) (chain_after piece)) }
    ensures in_place { (known : Ground) (reading : Reading) → IsReadingOf known reading → (write : RowWrite) (change : RecordChange) → RewritesUserTablet known reading write change
        → ReplacesUserPiece known reading write change.new.table (piece_of change) }
    ensures in_place_covered { (known : Ground) (reading : Reading) → IsReadingOf known reading → HaveConsistentTablets known (metadata_rows reading) reading.chain
        → (write : RowWrite) (change : RecordChange) → RewritesUserTablet known reading write change → (all was : List Cell) → contents_of known (reading.users.records change.new.table) (chain_before (piece_of change)) ≡ Some all
        → content_in_place known (reading.users.records change.new.table) change change.old ≡ Some was → HasCovered was (content_in_place known (reading.users.records change.new.table) change change.new)
        → HasCovered all (contents_of (row_written known write) (user_rows_with reading write change.new.table) (chain_after (piece_of change))) }
{}

/// A record of the chain of `!0` that is written again with its extent, and whose cells leave each key what it had, takes its
/// place, and the cells of the chain leave each key what it had.
pub fn a_metadata_record_takes_its_place()
    ensures { (known : Ground) (reading : Reading) → IsReadingOf known reading → (write : RowWrite) (change : RecordChange) → RewritesMetadataTablet known reading write change
        → WritesMetadataRow known reading write (chain_after (piece_of change)) }
{}

/// Cells that are put in a row of a user table stand over those of its chain; every level, and every other table's chain with
/// its cells, is as it was.
pub fn cells_put_count_in_their_table_alone()
    ensures reading { (known : Ground) (reading : Reading) → IsReadingOf known reading → (log : List ℕ) (mutation : Mutation) (chain : List TabletRecord) → PutsCells known reading log mutation chain
        → IsReadingOf (appended known log mutation) reading }
    ensures readable { (known : Ground) (reading : Reading) → IsReadAs reading known → (log : List ℕ) (mutation : Mutation) (chain : List TabletRecord) → PutsCells known reading log mutation chain → IsUnsorted known log
        → IsReadAs reading (appended known log mutation) }
    ensures gained { (known : Ground) (reading : Reading) → IsReadingOf known reading → (log : List ℕ) (mutation : Mutation) (chain : List TabletRecord) → PutsCells known reading log mutation chain
        → (old : List Cell) → contents_of known (reading.users.records mutation.table) chain ≡ Some old → HasGained mutation old (contents_of (appended known log mutation) (reading.users.records mutation.table) chain) }
    ensures consistent { (known : Ground) (reading : Reading) → IsReadingOf known reading → (log : List ℕ) (mutation : Mutation) (chain : List TabletRecord) → PutsCells known reading log mutation chain
        → (old : List Cell) → contents_of known (reading.users.records mutation.table) chain ≡ Some old → HaveConsistentTablets known (reading.users.records mutation.table) chain
        → HaveConsistentTablets (appended known log mutation) (reading.users.records mutation.table) chain }
    ensures elsewhere { (known : Ground) (reading : Reading) → IsReadingOf known reading → (log : List ℕ) (mutation : Mutation) (chain : List TabletRecord) → PutsCells known reading log mutation chain
        → (table : List ℕ) (other : List TabletRecord) → table ≢ mutation.table → IsChain (reading.users.records table) other
        → contents_of (appended known log mutation) (reading.users.records table) other ≡ contents_of known (reading.users.records table) other }
{}
