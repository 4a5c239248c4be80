// What these writes mean. Each law is the contract of a call that does nothing.
ghost use Rattle.std.specs.Prelude.{◌≡◌, ◌≢◌, ◌⊎◌, ◌∷◌, [], ℕ, List, Some, None};
ghost use Rattle.std.specs.FinMap as map;
ghost use Rattle.host_model.specs.Picture.{Image};
ghost use Rattle.plain_model.specs.State.{PlainState};
ghost use Rattle.metadata_schema.specs.declared.mutation.Mutation.{Mutation};
ghost use Rattle.metadata_schema.specs.declared.tablet.TabletRecord.{TabletRecord};
ghost use Rattle.cell_merge.specs.declared.cell.Cell.{Cell};
ghost use Rattle.cell_merge.specs.Changes.{Covers};
ghost use Rattle.level_rows.specs.Chain.{IsChain, rows_of};
ghost use Rattle.node_store.specs.Nodes.{Nodes};
ghost use Rattle.node_store.specs.Image.{IsStored};
ghost use Rattle.node_store.specs.Steps.{MayGive, Gives};
ghost use Rattle.node_store.specs.Value.{StoreValue};
ghost use Rattle.store_layout.specs.Names.{nodes_name};
ghost use Rattle.store_layout.specs.Nodes.{root_path};
ghost use Rattle.store_layout.specs.Tables.{Catalog};
ghost use Rattle.store_meaning.specs.Content.{contents_of};
ghost use Rattle.store_meaning.specs.Ground.{Ground, IsGroundOf};
ghost use Rattle.store_meaning.specs.Kept.{IsKept, IsKeptAs};
ghost use Rattle.store_meaning.specs.Levels.{Reading, IsRecordAt, IsRootRecord, root_id};
ghost use Rattle.store_meaning.specs.RowWrites.{WritesRoot};
ghost use Rattle.store_meaning.specs.Writes.{appended};
ghost use Rattle.log_writes.specs.Logging.{MayLogMutation, LogsMutation};
ghost use Rattle.log_writes.specs.Setting.{root_ops, SetsRoot, IsGroundWithRoot, KeepsWithRoot, RootMayBe};

use kept_meaning::the_root_record_keeps_the_state;

/// Where a mutation is logged, the ground gains it at the end of that log, and a crash on the way leaves the ground before or the one
/// after. So where the ground with it is kept, the image is; and what a crash on the way leaves is kept with the state before or with
/// the one after.
pub fn a_logged_mutation_is_in_the_ground()
    ensures ground { (old new : Image) (known : Ground) (log : List ℕ) (mutations : List Mutation) (mutation : Mutation) → IsGroundOf old known → known.mutations_of log ≡ Some mutations
        → LogsMutation log mutation old new → IsGroundOf new (appended known log mutation) }
    ensures ground_inside { (old new : Image) (known : Ground) (log : List ℕ) (mutations : List Mutation) (mutation : Mutation) → IsGroundOf old known → known.mutations_of log ≡ Some mutations
        → MayLogMutation log mutation old new → IsGroundOf new known ⊎ IsGroundOf new (appended known log mutation) }
    ensures kept { (old new : Image) (before after : PlainState) (is : IsKept old before) (log : List ℕ) (mutations : List Mutation) (mutation : Mutation) → is.known.mutations_of log ≡ Some mutations
        → (reading : Reading) (catalog : Catalog) → IsKeptAs reading catalog (appended is.known log mutation) after → LogsMutation log mutation old new → IsKept new after }
    ensures kept_inside { (old new : Image) (before after : PlainState) (is : IsKept old before) (log : List ℕ) (mutations : List Mutation) (mutation : Mutation) → is.known.mutations_of log ≡ Some mutations
        → (reading : Reading) (catalog : Catalog) → IsKeptAs reading catalog (appended is.known log mutation) after → MayLogMutation log mutation old new → IsKept new before ⊎ IsKept new after }
{}

/// Where the root record is set, the ground has the nodes with it, and a crash on the way leaves the ground before or that one. So
/// where the ground with it is kept with the same state, the image is, also where a crash stops it on the way; and it is where the
/// record's cells leave each key what it had, what it names is known and was drawn, and it is kept as the old one was.
pub fn a_set_root_is_in_the_ground()
    ensures root { (old new : Nodes) (root : TabletRecord) → IsRecordAt root_id None root → SetsRoot root old new → IsRootRecord new root }
    ensures others { (old new : Nodes) (root : TabletRecord) → SetsRoot root old new → (path : List ℕ) → path ≢ root_path → map.get new path ≡ map.get old path }
    ensures writes { (known : Ground) (reading : Reading) (nodes : Nodes) (root : TabletRecord) (cells : List Cell) → IsRecordAt root_id None root → SetsRoot root known.nodes nodes
        → IsChain (rows_of root_id (root ∷ [])) (root ∷ []) → contents_of known (rows_of root_id (root ∷ [])) (root ∷ []) ≡ Some cells → Covers cells reading.root_cells → WritesRoot known reading nodes root }
    ensures may { (reading : Reading) (catalog : Catalog) (known : Ground) (state : PlainState) → IsKeptAs reading catalog known state → (root : TabletRecord) → RootMayBe known reading root → KeepsWithRoot reading catalog known state root }
    ensures ground { (old new : Image) (known : Ground) (root : TabletRecord) (store : StoreValue) → IsGroundOf old known → store.name ≡ nodes_name → IsStored store old
        → Gives (root_ops root) store old new → IsGroundWithRoot root known new }
    ensures ground_inside { (old new : Image) (known : Ground) (root : TabletRecord) (store : StoreValue) → IsGroundOf old known → store.name ≡ nodes_name → IsStored store old
        → MayGive (root_ops root) store old new → IsGroundOf new known ⊎ IsGroundWithRoot root known new }
    ensures kept { (old new : Image) (state : PlainState) (is : IsKept old state) (root : TabletRecord) (store : StoreValue) → store.name ≡ nodes_name → IsStored store old
        → KeepsWithRoot is.reading is.catalog is.known state root → Gives (root_ops root) store old new → IsKept new state }
    ensures kept_inside { (old new : Image) (state : PlainState) (is : IsKept old state) (root : TabletRecord) (store : StoreValue) → store.name ≡ nodes_name → IsStored store old
        → KeepsWithRoot is.reading is.catalog is.known state root → MayGive (root_ops root) store old new → IsKept new state }
{
    the_root_record_keeps_the_state();
}
