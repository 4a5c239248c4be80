// What new data files mean. Each law is the contract of a call that does nothing.
ghost use Rattle.std.specs.Prelude.{◌≡◌, ◌<◌, ◌^◌, ℕ, List};
ghost use Rattle.host_model.specs.Picture.{Image};
ghost use Rattle.row_keys.specs.Forms.{IsTableId};
ghost use Rattle.plain_model.specs.State.{PlainState};
ghost use Rattle.metadata_schema.specs.Paths.{IsDirectory, IsDrawnText, IsFilePath};
ghost use Rattle.cell_merge.specs.declared.cell.Cell.{Cell};
ghost use Rattle.node_store.specs.Image.{IsStored};
ghost use Rattle.node_store.specs.Value.{StoreValue};
ghost use Rattle.store_layout.specs.Names.{nodes_name};
ghost use Rattle.store_layout.specs.Numbers.{base36_number, name_number};
ghost use Rattle.store_layout.specs.Tables.{Catalog};
ghost use Rattle.store_meaning.specs.Ground.{Ground, IsGroundOf};
ghost use Rattle.store_meaning.specs.Levels.{Reading};
ghost use Rattle.store_meaning.specs.Kept.{IsKept, IsKeptAs};
ghost use Rattle.new_files.specs.declared.kinds.FileKind.{FileKind};
ghost use Rattle.new_files.specs.Names.{name_text, new_path};
ghost use Rattle.new_files.specs.Putting.{MayPutNew, PutsNew};
ghost use Rattle.new_files.specs.Written.{IsWrittenIn};

/// The text of a drawn number is of the form of such texts, and spells the number. So a new file's path is a data file's, and its
/// number is the one that was drawn: two numbers have two paths.
pub fn a_drawn_number_has_a_path()
    ensures text { (number : ℕ) → number < 2 ^ 63 → IsDrawnText (name_text number) }
    ensures spells { (number : ℕ) → number < 2 ^ 63 → base36_number (name_text number) ≡ number }
    ensures path { (table dir : List ℕ) (kind : FileKind) (number : ℕ) → IsTableId table → IsDirectory dir → number < 2 ^ 63 → IsFilePath (new_path table dir kind number) }
    ensures number { (table dir : List ℕ) (kind : FileKind) (number : ℕ) → IsTableId table → IsDirectory dir → number < 2 ^ 63 → (form : IsFilePath (new_path table dir kind number)) → name_number form ≡ number }
{}

/// A new file may be written: a kept image stays kept with the same state, and so does whatever a crash on the way leaves of it.
/// Once it is written, a ground of the image before is one of the image after with the number drawn and the file told, kept with
/// the same state, and nothing in it counts the file.
pub fn a_new_file_may_be_written()
    ensures done { (old new : Image) (state : PlainState) → IsKept old state → (table dir : List ℕ) (kind : FileKind) (cells : List Cell) (store : StoreValue) → store.name ≡ nodes_name → IsStored store old
        → IsTableId table → IsDirectory dir → PutsNew table dir kind cells store old new → IsKept new state }
    ensures inside { (old new : Image) (state : PlainState) → IsKept old state → (table dir : List ℕ) (kind : FileKind) (store : StoreValue) → store.name ≡ nodes_name → IsStored store old
        → IsTableId table → IsDirectory dir → MayPutNew table dir kind store old new → IsKept new state }
    ensures told { (old new : Image) (reading : Reading) (catalog : Catalog) (known : Ground) (state : PlainState) → IsGroundOf old known → IsKeptAs reading catalog known state
        → (table dir : List ℕ) (kind : FileKind) (cells : List Cell) (store : StoreValue) → store.name ≡ nodes_name → IsStored store old → IsTableId table → IsDirectory dir → PutsNew table dir kind cells store old new
        → IsWrittenIn reading catalog known state table dir kind cells new }
{}
