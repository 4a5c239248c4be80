// What holds of the state for which an image stands, and of images that are kept. Each law is the contract of a call that does nothing.
ghost use Rattle.std.specs.Prelude.{◌≡◌, ◌↔◌, ℕ, List};
ghost use Rattle.host_model.specs.Picture.{Image};
ghost use Rattle.plain_model.specs.State.{PlainState, nothing};
ghost use Rattle.store_layout.specs.NewStore.{IsNewStore};
ghost use Rattle.store_layout.specs.Tables.{Catalog};
ghost use Rattle.store_meaning.specs.Ground.{Ground};
ghost use Rattle.store_meaning.specs.Levels.{Reading, IsReadingOf};
ghost use Rattle.store_meaning.specs.Readable.{IsTold};
ghost use Rattle.store_meaning.specs.Marked.{IsFileCounted, AgreeWhereCounted};
ghost use Rattle.store_meaning.specs.Stands.{StandsAs, StandsFor};
ghost use Rattle.store_meaning.specs.Kept.{IsKeptAs, IsKept};

use crate::laws::grounds_of_an_image_agree;
use level_rows::a_table_has_one_chain;
use metadata_schema::new_tablets_are_well_formed;
use store_layout::tables_are_one_to_one;

/// A ground has one reading of each level.
pub fn a_ground_has_one_reading()
    ensures { (known : Ground) (one other : Reading) → IsReadingOf known one → IsReadingOf known other → one ≡ other }
{
    a_table_has_one_chain();
}

/// An image stands for one state at the most.
pub fn an_image_stands_for_one_state()
    ensures { (image : Image) (one other : PlainState) → StandsFor image one → StandsFor image other → one ≡ other }
{
    grounds_of_an_image_agree();
    a_table_has_one_chain();
    tables_are_one_to_one();
}

/// Of two grounds that agree on the nodes and on every file, log and sorted log that counts, both stand for the state so read,
/// or neither, and both are kept, or neither.
pub fn what_does_not_count_changes_no_state()
    ensures stands { (reading : Reading) (catalog : Catalog) (old new : Ground) (state : PlainState) → AgreeWhereCounted reading catalog old new
        → StandsAs reading catalog old state ↔ StandsAs reading catalog new state }
    ensures kept { (reading : Reading) (catalog : Catalog) (old new : Ground) (state : PlainState) → AgreeWhereCounted reading catalog old new
        → IsKeptAs reading catalog old state ↔ IsKeptAs reading catalog new state }
{}

/// A new store stands for the state without tables and staged files, and is kept.
pub fn a_new_store_stands_for_nothing()
    ensures stands { (image : Image) → IsNewStore image → StandsFor image nothing }
    ensures kept { (image : Image) → IsNewStore image → IsKept image nothing }
{
    new_tablets_are_well_formed();
}

/// What is kept stands for its state, so an image is kept with one state at the most; and every data file that counts is told.
pub fn what_is_kept_stands()
    ensures stands { (image : Image) (state : PlainState) → IsKept image state → StandsFor image state }
    ensures told { (reading : Reading) (catalog : Catalog) (known : Ground) (state : PlainState) (path : List ℕ) → StandsAs reading catalog known state
        → IsFileCounted reading catalog path → IsTold (known.cells_of path) }
{}
