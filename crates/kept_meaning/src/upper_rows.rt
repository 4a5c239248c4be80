// Which records of `!0` and which root record may be written while the state stays. Each law is the contract of a call that does nothing.
ghost use Rattle.std.specs.Prelude.{List};
ghost use Rattle.plain_model.specs.State.{PlainState};
ghost use Rattle.metadata_schema.specs.declared.tablet.TabletRecord.{TabletRecord};
ghost use Rattle.node_store.specs.Nodes.{Nodes};
ghost use Rattle.store_layout.specs.Tables.{Catalog};
ghost use Rattle.store_meaning.specs.Ground.{Ground, with_nodes};
ghost use Rattle.store_meaning.specs.Levels.{Reading};
ghost use Rattle.store_meaning.specs.RowWrites.{RowWrite, row_written, metadata_row_written, root_written};
ghost use Rattle.store_meaning.specs.ChainWrites.{RecordChange, chain_after, piece_of};
ghost use Rattle.store_meaning.specs.Stands.{StandsAs};
ghost use Rattle.store_meaning.specs.Kept.{IsKeptAs};
ghost use Rattle.kept_meaning.specs.UpperRows.{WritesMetadataKept, ChangesMetadataHolder, FlushesMetadataTablet, ReplacesMetadataFiles, WritesRootKept, ChangesRootHolder, FlushesRoot, ReplacesRootFiles};

/// A row of the root tablet may be written, with the chain of `!0` that it gives: the state stays. What is kept stays so where the
/// tablets of that chain are kept if those before were; so it is where a holder changes, the tablet is
/// flushed, or its files are replaced.
pub fn a_metadata_row_keeps_the_state()
    ensures stands { (reading : Reading) (catalog : Catalog) (known : Ground) (state : PlainState) → StandsAs reading catalog known state → (write : RowWrite) (chain : List TabletRecord) → WritesMetadataKept known reading write chain
        → StandsAs (metadata_row_written known reading write chain) catalog (row_written known write) state }
    ensures kept { (reading : Reading) (catalog : Catalog) (known : Ground) (state : PlainState) → IsKeptAs reading catalog known state → (write : RowWrite) (chain : List TabletRecord) → WritesMetadataKept known reading write chain
        → IsKeptAs (metadata_row_written known reading write chain) catalog (row_written known write) state }
    ensures holder { (reading : Reading) (catalog : Catalog) (known : Ground) (state : PlainState) → IsKeptAs reading catalog known state → (write : RowWrite) (change : RecordChange) → ChangesMetadataHolder known reading write change
        → IsKeptAs (metadata_row_written known reading write (chain_after (piece_of change))) catalog (row_written known write) state }
    ensures flush { (reading : Reading) (catalog : Catalog) (known : Ground) (state : PlainState) → IsKeptAs reading catalog known state → (write : RowWrite) (change : RecordChange) → FlushesMetadataTablet known reading write change
        → IsKeptAs (metadata_row_written known reading write (chain_after (piece_of change))) catalog (row_written known write) state }
    ensures files { (reading : Reading) (catalog : Catalog) (known : Ground) (state : PlainState) → IsKeptAs reading catalog known state → (write : RowWrite) (change : RecordChange) → ReplacesMetadataFiles known reading write change
        → IsKeptAs (metadata_row_written known reading write (chain_after (piece_of change))) catalog (row_written known write) state }
{}

/// The node of the root record may be set: the state stays. What is kept stays so where the new record is kept if the old one was;
/// so it is where a holder changes, the tablet is flushed, or its files are replaced.
pub fn the_root_record_keeps_the_state()
    ensures stands { (reading : Reading) (catalog : Catalog) (known : Ground) (state : PlainState) → StandsAs reading catalog known state → (nodes : Nodes) (root : TabletRecord) → WritesRootKept known reading nodes root
        → StandsAs (root_written known reading root) catalog (with_nodes known nodes) state }
    ensures kept { (reading : Reading) (catalog : Catalog) (known : Ground) (state : PlainState) → IsKeptAs reading catalog known state → (nodes : Nodes) (root : TabletRecord) → WritesRootKept known reading nodes root
        → IsKeptAs (root_written known reading root) catalog (with_nodes known nodes) state }
    ensures holder { (reading : Reading) (catalog : Catalog) (known : Ground) (state : PlainState) → IsKeptAs reading catalog known state → (nodes : Nodes) (root : TabletRecord) → ChangesRootHolder known reading nodes root
        → IsKeptAs (root_written known reading root) catalog (with_nodes known nodes) state }
    ensures flush { (reading : Reading) (catalog : Catalog) (known : Ground) (state : PlainState) → IsKeptAs reading catalog known state → (nodes : Nodes) (root : TabletRecord) → FlushesRoot known reading nodes root
        → IsKeptAs (root_written known reading root) catalog (with_nodes known nodes) state }
    ensures files { (reading : Reading) (catalog : Catalog) (known : Ground) (state : PlainState) → IsKeptAs reading catalog known state → (nodes : Nodes) (root : TabletRecord) → ReplacesRootFiles known reading nodes root
        → IsKeptAs (root_written known reading root) catalog (with_nodes known nodes) state }
{}
