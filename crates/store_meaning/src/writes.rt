// What one written row does to content, levels and readings. Each law is the contract of a call that does nothing.
ghost use Rattle.std.specs.Prelude.{◌≡◌, ◌≢◌, ◌∷◌, [], ℕ, Bool, List, Option, Some, IfSome, Contains, true, false};
ghost use Rattle.host_model.specs.Picture.{Image};
ghost use Rattle.metadata_schema.specs.declared.mutation.Mutation.{Mutation};
ghost use Rattle.metadata_schema.specs.declared.mutation.Update.{Update};
ghost use Rattle.metadata_schema.specs.declared.tablet.Holder.{Holder};
ghost use Rattle.metadata_schema.specs.declared.tablet.TabletRecord.{TabletRecord};
ghost use Rattle.metadata_schema.specs.Between.{LeadsBetween};
ghost use Rattle.metadata_schema.specs.Columns.{columns_of};
ghost use Rattle.metadata_schema.specs.Records.{IsInOrder, IsHolder};
ghost use Rattle.cell_merge.specs.declared.cell.Cell.{Cell};
ghost use Rattle.level_rows.specs.Chain.{Rows, effective_prev};
ghost use Rattle.node_store.specs.Nodes.{Nodes};
ghost use Rattle.store_layout.specs.NewStore.{IsNewStore};
ghost use Rattle.store_meaning.specs.Ground.{Ground, with_nodes};
ghost use Rattle.store_meaning.specs.Content.{content_of, contents_of, logs_of};
ghost use Rattle.store_meaning.specs.Levels.{Flag, Reading, IsReadingOf, record_columns, candidate_columns, flag_columns, root_rows, metadata_rows};
ghost use Rattle.store_meaning.specs.Readable.{HaveConsistentTablets, IsReadAs};
ghost use Rattle.store_meaning.specs.Writes.{appended, counts_in, HasGrown};
ghost use Rattle.store_meaning.specs.RowWrites.{RowWrite, row_written, WritesUserRow, user_row_written, WritesMetadataRow, metadata_row_written, WritesRoot, root_written};
ghost use Rattle.store_meaning.specs.Naming.{NamesKnown, RowNamesKnown, IsUnsorted, NodesFit};
ghost use Rattle.store_meaning.specs.FirstWrites.{AssignsFirst, WritesFirst};

use metadata_schema::new_tablets_are_well_formed;

/// A mutation at the end of a log adds just its cells to the content of a tablet, or of a chain, that names the log and in
/// whose extent it counts. Each other tablet has the same content: one that doesn't name the log, one of another table, one
/// whose bar isn't before it, and one whose extent doesn't hold its row.
pub fn a_mutation_adds_its_cells()
    ensures tablet { (known : Ground) (log : List ℕ) (mutation : Mutation) (low : Option (List ℕ)) (tablet : TabletRecord) (old : List Cell) → content_of known low tablet ≡ Some old
        → Contains (logs_of tablet) log → counts_in low tablet mutation ≡ true → HasGrown mutation old (content_of (appended known log mutation) low tablet) }
    ensures chain { (known : Ground) (log : List ℕ) (mutation : Mutation) (rows : Rows) (chain : List TabletRecord) (old : List Cell) → contents_of known rows chain ≡ Some old
        → (holder : TabletRecord) → Contains chain holder → Contains (logs_of holder) log → counts_in (effective_prev rows holder) holder mutation ≡ true
        → HasGrown mutation old (contents_of (appended known log mutation) rows chain) }
    ensures not_named { (known : Ground) (log : List ℕ) (mutation : Mutation) (low : Option (List ℕ)) (tablet : TabletRecord) → (Contains (logs_of tablet) log → ⊥)
        → content_of (appended known log mutation) low tablet ≡ content_of known low tablet }
    ensures not_counted { (known : Ground) (log : List ℕ) (mutation : Mutation) (low : Option (List ℕ)) (tablet : TabletRecord) → counts_in low tablet mutation ≡ false
        → content_of (appended known log mutation) low tablet ≡ content_of known low tablet }
    ensures other_tables { (known : Ground) (log : List ℕ) (mutation : Mutation) (rows : Rows) (chain : List TabletRecord) → ((tablet : TabletRecord) → Contains chain tablet → tablet.table ≢ mutation.table)
        → contents_of (appended known log mutation) rows chain ≡ contents_of known rows chain }
{}

/// A row that is written one level up is that row replaced, and nothing else changes on any level: a row of the metadata table
/// on the level of user tables, a row of the root tablet on that of `!0`, and the node of the root record.
pub fn a_written_row_replaces_that_row_alone()
    ensures user { (known : Ground) (reading : Reading) (write : RowWrite) → IsReadingOf known reading → HaveConsistentTablets known (metadata_rows reading) reading.chain → WritesUserRow known reading write
        → IsReadingOf (row_written known write) (user_row_written known reading write) }
    ensures metadata { (known : Ground) (reading : Reading) (write : RowWrite) (chain : List TabletRecord) → IsReadingOf known reading
        → HaveConsistentTablets known (root_rows reading) (reading.root ∷ []) → HaveConsistentTablets known (metadata_rows reading) reading.chain → WritesMetadataRow known reading write chain
        → IsReadingOf (row_written known write) (metadata_row_written known reading write chain) }
    ensures root { (known : Ground) (reading : Reading) (nodes : Nodes) (root : TabletRecord) → IsReadingOf known reading
        → HaveConsistentTablets known (root_rows reading) (reading.root ∷ []) → WritesRoot known reading nodes root
        → IsReadingOf (with_nodes known nodes) (root_written known reading root) }
{}

/// What can be read can be read once a row is written: where the files that the row names are told, the logs that it names have
/// nodes under `/logs`, and the log that it stands in hasn't been sorted.
pub fn a_written_row_leaves_a_readable_ground()
    ensures user { (known : Ground) (reading : Reading) (write : RowWrite) → IsReadAs reading known → WritesUserRow known reading write → RowNamesKnown known write.row → IsUnsorted known write.log
        → IsReadAs (user_row_written known reading write) (row_written known write) }
    ensures metadata { (known : Ground) (reading : Reading) (write : RowWrite) (chain : List TabletRecord) → IsReadAs reading known → WritesMetadataRow known reading write chain → RowNamesKnown known write.row → IsUnsorted known write.log
        → IsReadAs (metadata_row_written known reading write chain) (row_written known write) }
    ensures root { (known : Ground) (reading : Reading) (nodes : Nodes) (root : TabletRecord) → IsReadAs reading known → WritesRoot known reading nodes root → NamesKnown known root
        → IsReadAs (root_written known reading root) (with_nodes known nodes) }
{}

/// What can be read can be read with other nodes, too, where these have the same root record, list each log that a record names
/// or that is sorted, and where each log that comes is told and each sorted log that comes is there.
pub fn nodes_that_fit_leave_a_readable_ground()
    ensures { (known : Ground) (reading : Reading) → IsReadAs reading known → (nodes : Nodes) → NodesFit known reading nodes → IsReadAs reading (with_nodes known nodes) }
{}

/// There are updates that lead from each record, or none, to each other one, and so for candidates and flags. To a record where
/// none was lead just its columns.
pub fn updates_lead_to_each_row()
    ensures records { (before after : Option TabletRecord) → IfSome before IsInOrder → IfSome after IsInOrder → (updates : List Update) × LeadsBetween (record_columns before) (record_columns after) updates }
    ensures candidates { (before after : Bool) → (updates : List Update) × LeadsBetween (candidate_columns before) (candidate_columns after) updates }
    ensures flags { (before after : Option Flag) → (updates : List Update) × LeadsBetween (flag_columns before) (flag_columns after) updates }
    ensures new_row { (tablet : TabletRecord) → IsInOrder tablet → LeadsBetween [] (columns_of tablet) (columns_of tablet) }
{}

/// What is asked of writes can be met. In a new store, once a server holds the root tablet, a mutation in its log can give the
/// first record of `!0` a `future`; and once the server holds this tablet too, mutations there can write the first record of a
/// table, put cells in it, and flush it.
pub fn a_new_store_may_be_written()
    ensures future { (image : Image) (holder : Holder) → IsNewStore image → IsHolder holder → AssignsFirst holder }
    ensures table { (image : Image) (holder : Holder) → IsNewStore image → IsHolder holder → WritesFirst holder }
{
    new_tablets_are_well_formed();
}
