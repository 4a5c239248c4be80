// What holds of grounds and of readable images. Each law is the contract of a call that does nothing.
ghost use Rattle.std.specs.Prelude.{◌≡◌, ◌⊎◌, ◌↔◌, ◌∷◌, ◌++◌, [], ℕ, List, Option, Some, None};
ghost use Rattle.host_model.specs.Picture.{Image};
ghost use Rattle.row_keys.specs.Forms.{IsLogName};
ghost use Rattle.metadata_schema.specs.declared.mutation.Mutation.{Mutation};
ghost use Rattle.metadata_schema.specs.Paths.{IsFilePath};
ghost use Rattle.cell_merge.specs.declared.cell.Cell.{Cell};
ghost use Rattle.node_store.specs.Nodes.{Nodes};
ghost use Rattle.node_store.specs.Image.{HasNodes};
ghost use Rattle.node_store.specs.Steps.{OthersStay};
ghost use Rattle.data_files.specs.Files.{HoldsCells};
ghost use Rattle.log_files.specs.Logs.{HasLog, HasLogEither};
ghost use Rattle.log_files.specs.Sorted.{HasSorted, sorted_name};
ghost use Rattle.store_layout.specs.Names.{nodes_name, file_of};
ghost use Rattle.store_layout.specs.NewStore.{IsNewStore};
ghost use Rattle.store_meaning.specs.Ground.{Ground, IsGroundOf, Agree, IsPartOf, ChangesOnly, with_nodes, with_cells, with_mutations, with_sorted};
ghost use Rattle.store_meaning.specs.Levels.{Reading, IsReadingOf};
ghost use Rattle.store_meaning.specs.InUse.{AgreeInUse};
ghost use Rattle.store_meaning.specs.Readable.{IsReadAs, IsReadable};
ghost use Rattle.store_meaning.specs.NodesAside.{AgreeAside};

use data_files::a_file_has_one_list_of_cells;
use level_rows::a_table_has_one_chain;
use log_files::{a_log_has_one_list_of_mutations, a_sorted_log_has_one_list};
use metadata_schema::new_tablets_are_well_formed;
use node_store::nodes_are_one;

/// Two grounds of one image have the same nodes, and tell the same wherever both tell.
pub fn grounds_of_an_image_agree()
    ensures { (image : Image) (one other : Ground) → IsGroundOf image one → IsGroundOf image other → Agree one other }
{
    nodes_are_one();
    a_file_has_one_list_of_cells();
    a_log_has_one_list_of_mutations();
    a_sorted_log_has_one_list();
}

/// A ground of an image that tells less, and has the same nodes, is one too.
pub fn a_ground_may_tell_less()
    ensures { (image : Image) (less more : Ground) → IsPartOf less more → IsGroundOf image more → IsGroundOf image less }
{}

/// A change of one file, whatever it does, changes one look-up at one name: there nothing is told any more, or what the
/// file then has. A multi changes the nodes alone, and
/// an append to a log is whole or absent.
pub fn each_action_changes_one_look_up()
    ensures nodes { (old new : Image) (known : Ground) (nodes : Nodes) → IsGroundOf old known → OthersStay nodes_name old new → HasNodes nodes_name new nodes
        → IsGroundOf new (with_nodes known nodes) }
    ensures file { (old new : Image) (known : Ground) (path : List ℕ) → IsGroundOf old known → IsFilePath path
        → ChangesOnly (file_of path) old new → IsGroundOf new (with_cells known path None) }
    ensures file_written { (old new : Image) (known : Ground) (path : List ℕ) (cells : List Cell) → IsGroundOf old known → IsFilePath path
        → ChangesOnly (file_of path) old new → HoldsCells (file_of path) cells new → IsGroundOf new (with_cells known path (Some cells)) }
    ensures log { (old new : Image) (known : Ground) (log : List ℕ) → IsGroundOf old known → IsLogName log
        → ChangesOnly log old new → IsGroundOf new (with_mutations known log None) }
    ensures log_written { (old new : Image) (known : Ground) (log : List ℕ) (mutations : List Mutation) → IsGroundOf old known → IsLogName log
        → ChangesOnly log old new → HasLog log mutations new → IsGroundOf new (with_mutations known log (Some mutations)) }
    ensures log_appended { (old new : Image) (known : Ground) (log : List ℕ) (mutations : List Mutation) (mutation : Mutation) → IsGroundOf old known → IsLogName log → known.mutations_of log ≡ Some mutations
        → ChangesOnly log old new → HasLogEither log mutations mutation new → IsGroundOf new known ⊎ IsGroundOf new (with_mutations known log (Some (mutations ++ mutation ∷ []))) }
    ensures sorted { (old new : Image) (known : Ground) (log : List ℕ) → IsGroundOf old known → IsLogName log
        → ChangesOnly (sorted_name log) old new → IsGroundOf new (with_sorted known log None) }
    ensures sorted_written { (old new : Image) (known : Ground) (log : List ℕ) (mutations : List Mutation) → IsGroundOf old known → IsLogName log
        → ChangesOnly (sorted_name log) old new → HasSorted (sorted_name log) mutations new → IsGroundOf new (with_sorted known log (Some mutations)) }
{}

/// Of two grounds that agree on the nodes and on every file, log and sorted log in use, both can be read so, or neither.
pub fn unused_files_count_for_nothing()
    ensures { (reading : Reading) (old new : Ground) → AgreeInUse reading old new → IsReadAs reading old ↔ IsReadAs reading new }
{}

/// Nodes other than `/root` and those of logs count for nothing: of two grounds that agree on these and on all files, both
/// can be read so, or neither. An image in which only such nodes change can still be read.
pub fn nodes_aside_count_for_nothing()
    ensures read { (reading : Reading) (known : Ground) (nodes : Nodes) → AgreeAside known.nodes nodes → IsReadAs reading known ↔ IsReadAs reading (with_nodes known nodes) }
    ensures images { (old new : Image) (before after : Nodes) → HasNodes nodes_name old before → HasNodes nodes_name new after → OthersStay nodes_name old new
        → AgreeAside before after → IsReadable old → IsReadable new }
{
    nodes_are_one();
}

/// All levels follow from the root record: a ground has one reading of each.
pub fn a_root_record_has_one_reading()
    ensures { (known : Ground) (one other : Reading) → IsReadingOf known one → IsReadingOf known other → one.root ≡ other.root → one ≡ other }
{
    a_table_has_one_chain();
}

/// A new store can be read.
pub fn a_new_store_is_readable()
    ensures { (image : Image) → IsNewStore image → IsReadable image }
{
    new_tablets_are_well_formed();
}
