// What named changes mean for images. Each law is the contract of a call that does nothing.
ghost use Rattle.std.specs.Prelude.{◌≡◌, ◌⊎◌, ℕ, List, Option, Some};
ghost use Rattle.host_model.specs.Picture.{Image};
ghost use Rattle.row_keys.specs.Forms.{IsLogName};
ghost use Rattle.plain_model.specs.State.{PlainState};
ghost use Rattle.metadata_schema.specs.declared.mutation.Mutation.{Mutation};
ghost use Rattle.cell_merge.specs.declared.cell.Cell.{Cell};
ghost use Rattle.node_store.specs.Nodes.{Nodes};
ghost use Rattle.node_store.specs.Image.{HasNodes};
ghost use Rattle.node_store.specs.Steps.{OthersStay};
ghost use Rattle.log_files.specs.Logs.{HasLogEither};
ghost use Rattle.store_layout.specs.Names.{nodes_name};
ghost use Rattle.store_layout.specs.Tables.{Catalog};
ghost use Rattle.store_meaning.specs.Ground.{Ground, IsGroundOf, ChangesOnly, with_cells, with_nodes};
ghost use Rattle.store_meaning.specs.Levels.{Reading};
ghost use Rattle.store_meaning.specs.Marked.{IsFileCounted};
ghost use Rattle.store_meaning.specs.Writes.{appended};
ghost use Rattle.store_meaning.specs.Stands.{StandsAs};
ghost use Rattle.store_meaning.specs.Kept.{IsKeptAs, IsKept};

use store_meaning::each_action_changes_one_look_up;

/// A named change that is one mutation more in a log is whole or absent in the image, whatever else was torn in that log: the image
/// is kept with the state before, or with the one after.
pub fn a_mutation_is_whole_or_absent()
    ensures ground { (old new : Image) (known : Ground) (log : List ℕ) (mutations : List Mutation) (mutation : Mutation) → IsGroundOf old known → IsLogName log → known.mutations_of log ≡ Some mutations
        → ChangesOnly log old new → HasLogEither log mutations mutation new → IsGroundOf new known ⊎ IsGroundOf new (appended known log mutation) }
    ensures kept { (old new : Image) (before after : PlainState) (is : IsKept old before) (log : List ℕ) (mutations : List Mutation) (mutation : Mutation) → IsLogName log → is.known.mutations_of log ≡ Some mutations
        → ChangesOnly log old new → HasLogEither log mutations mutation new → (reading : Reading) (catalog : Catalog) → IsKeptAs reading catalog (appended is.known log mutation) after → IsKept new before ⊎ IsKept new after }
{
    each_action_changes_one_look_up();
}

/// A named change of nodes makes the image one that is kept with the state after.
pub fn changed_nodes_are_kept()
    ensures { (old new : Image) (before after : PlainState) (is : IsKept old before) (nodes : Nodes) → OthersStay nodes_name old new → HasNodes nodes_name new nodes
        → (reading : Reading) (catalog : Catalog) → IsKeptAs reading catalog (with_nodes is.known nodes) after → IsKept new after }
{
    each_action_changes_one_look_up();
}

/// A data file that doesn't count may come, go or be told otherwise: the state stays, and what is kept stays so. So a file may be
/// written before the row that names it.
pub fn a_file_may_come_before_it_counts()
    ensures stands { (reading : Reading) (catalog : Catalog) (known : Ground) (state : PlainState) → StandsAs reading catalog known state → (path : List ℕ) (told : Option (List Cell)) → (IsFileCounted reading catalog path → ⊥)
        → StandsAs reading catalog (with_cells known path told) state }
    ensures kept { (reading : Reading) (catalog : Catalog) (known : Ground) (state : PlainState) → IsKeptAs reading catalog known state → (path : List ℕ) (told : Option (List Cell)) → (IsFileCounted reading catalog path → ⊥)
        → IsKeptAs reading catalog (with_cells known path told) state }
{}
