// Which rows may be written in the metadata table while the state stays. Each law is the contract of a call that does nothing.
ghost use Rattle.std.specs.Prelude.{◌≡◌, ◌≢◌, [], ℕ, Bool, List, Option};
ghost use Rattle.plain_model.specs.State.{PlainState};
ghost use Rattle.metadata_schema.specs.declared.mutation.Mutation.{Mutation};
ghost use Rattle.metadata_schema.specs.declared.tablet.TabletRecord.{TabletRecord};
ghost use Rattle.level_rows.specs.Chain.{Rows, IsChain};
ghost use Rattle.store_layout.specs.Tables.{Catalog};
ghost use Rattle.store_meaning.specs.Ground.{Ground};
ghost use Rattle.store_meaning.specs.Levels.{Flag, Reading};
ghost use Rattle.store_meaning.specs.RowWrites.{RecordRow, CandidateRow, FlagRow, RowWrite, row_written, WritesUserRow, user_row_written};
ghost use Rattle.store_meaning.specs.ChainWrites.{RecordChange, user_rows_with};
ghost use Rattle.store_meaning.specs.Stands.{StandsAs};
ghost use Rattle.store_meaning.specs.Kept.{IsInSomeLog, IsKeptAs};
ghost use Rattle.kept_meaning.specs.Rows.{RowFits, IsTabletKept, HaveSameChains, WritesAside, WritesUnseenRow, RewritesKept, ChangesHolderOf, FlushesTablet, ReplacesFilesOf};

/// A row beside all chains that count may be written: the state stays, and what is kept stays so.
pub fn a_row_aside_keeps_the_state()
    ensures stands { (reading : Reading) (catalog : Catalog) (known : Ground) (state : PlainState) → StandsAs reading catalog known state → (write : RowWrite) → WritesAside known reading catalog write
        → StandsAs (user_row_written known reading write) catalog (row_written known write) state }
    ensures kept { (reading : Reading) (catalog : Catalog) (known : Ground) (state : PlainState) → IsKeptAs reading catalog known state → (write : RowWrite) → WritesAside known reading catalog write
        → IsKeptAs (user_row_written known reading write) catalog (row_written known write) state }
{}

/// Rows aside are those of candidates and of flags, and a record's, written or taken out, where the chains of its table are the same
/// before and after: as they are where it has one chain that stands before and after.
pub fn rows_are_aside_by_their_form()
    ensures candidates { (reading : Reading) (catalog : Catalog) (known : Ground) (write : RowWrite) → WritesUserRow known reading write → RowFits known write → (path : List ℕ) (is_there : Bool) → write.row ≡ CandidateRow path is_there
        → WritesAside known reading catalog write }
    ensures flags { (reading : Reading) (catalog : Catalog) (known : Ground) (write : RowWrite) → WritesUserRow known reading write → RowFits known write → (path : List ℕ) (flag : Option Flag) → write.row ≡ FlagRow path flag
        → WritesAside known reading catalog write }
    ensures records { (reading : Reading) (catalog : Catalog) (known : Ground) (write : RowWrite) → WritesUserRow known reading write → RowFits known write → (table : List ℕ) (end : Option (List ℕ)) (tablet : Option TabletRecord)
        → write.row ≡ RecordRow table end tablet → HaveSameChains (reading.users.records table) (user_rows_with reading write table) → WritesAside known reading catalog write }
    ensures one_chain { (old new : Rows) (chain : List TabletRecord) → IsChain old chain → IsChain new chain → HaveSameChains old new }
{}

/// A row of a table that users don't see may be written, as the rows of a new table come and those of a deleted one go: the state
/// stays, and what is kept stays so.
pub fn an_unseen_row_keeps_the_state()
    ensures stands { (reading : Reading) (catalog : Catalog) (known : Ground) (state : PlainState) → StandsAs reading catalog known state → (write : RowWrite) (table : List ℕ) (end : Option (List ℕ)) (tablet : Option TabletRecord)
        → WritesUnseenRow known reading catalog write table end tablet → StandsAs (user_row_written known reading write) catalog (row_written known write) state }
    ensures kept { (reading : Reading) (catalog : Catalog) (known : Ground) (state : PlainState) → IsKeptAs reading catalog known state → (write : RowWrite) (table : List ℕ) (end : Option (List ℕ)) (tablet : Option TabletRecord)
        → WritesUnseenRow known reading catalog write table end tablet → IsKeptAs (user_row_written known reading write) catalog (row_written known write) state }
    ensures new_tablets { (known : Ground) (table : List ℕ) (rows : Rows) (tablet : TabletRecord) → ((log : List ℕ) (mutation : Mutation) → IsInSomeLog known log mutation → mutation.table ≢ table) → tablet.files ≡ []
        → IsTabletKept known table rows tablet }
{}

/// A record of a user table may be written again in its place, where its cells leave each key what it had: the state stays. What is
/// kept stays so where the new record is kept if the old one was.
pub fn a_record_in_its_place_keeps_the_state()
    ensures stands { (reading : Reading) (catalog : Catalog) (known : Ground) (state : PlainState) → StandsAs reading catalog known state → (write : RowWrite) (change : RecordChange) → RewritesKept known reading write change
        → StandsAs (user_row_written known reading write) catalog (row_written known write) state }
    ensures kept { (reading : Reading) (catalog : Catalog) (known : Ground) (state : PlainState) → IsKeptAs reading catalog known state → (write : RowWrite) (change : RecordChange) → RewritesKept known reading write change
        → IsKeptAs (user_row_written known reading write) catalog (row_written known write) state }
{}

/// A `future` or a `loc` may be set or taken, and logs may be named or no longer named, where no log goes that holds something for
/// the tablet: the state stays, and what is kept stays so.
pub fn a_holder_may_change()
    ensures stands { (reading : Reading) (catalog : Catalog) (known : Ground) (state : PlainState) → StandsAs reading catalog known state → (write : RowWrite) (change : RecordChange) → ChangesHolderOf known reading write change
        → StandsAs (user_row_written known reading write) catalog (row_written known write) state }
    ensures kept { (reading : Reading) (catalog : Catalog) (known : Ground) (state : PlainState) → IsKeptAs reading catalog known state → (write : RowWrite) (change : RecordChange) → ChangesHolderOf known reading write change
        → IsKeptAs (user_row_written known reading write) catalog (row_written known write) state }
{}

/// A tablet may be flushed, where its new bar is past all that is in its memory: the state stays, and what is kept stays so. The
/// removals of the new file are within the new bar.
pub fn a_tablet_may_be_flushed()
    ensures stands { (reading : Reading) (catalog : Catalog) (known : Ground) (state : PlainState) → StandsAs reading catalog known state → (write : RowWrite) (change : RecordChange) → FlushesTablet known reading write change
        → StandsAs (user_row_written known reading write) catalog (row_written known write) state }
    ensures kept { (reading : Reading) (catalog : Catalog) (known : Ground) (state : PlainState) → IsKeptAs reading catalog known state → (write : RowWrite) (change : RecordChange) → FlushesTablet known reading write change
        → IsKeptAs (user_row_written known reading write) catalog (row_written known write) state }
{}

/// The files of a tablet may be replaced by others that leave each key what it had, as by a compaction or a chop: the state stays, and
/// what is kept stays so where no removal in the new files is past the bar.
pub fn files_of_a_tablet_may_be_replaced()
    ensures stands { (reading : Reading) (catalog : Catalog) (known : Ground) (state : PlainState) → StandsAs reading catalog known state → (write : RowWrite) (change : RecordChange) → ReplacesFilesOf known reading write change
        → StandsAs (user_row_written known reading write) catalog (row_written known write) state }
    ensures kept { (reading : Reading) (catalog : Catalog) (known : Ground) (state : PlainState) → IsKeptAs reading catalog known state → (write : RowWrite) (change : RecordChange) → ReplacesFilesOf known reading write change
        → IsKeptAs (user_row_written known reading write) catalog (row_written known write) state }
{}
