// What may change on the disk while the state stays. Each law is the contract of a call that does nothing.
ghost use Rattle.std.specs.Prelude.{ℕ, List};
ghost use Rattle.host_model.specs.Picture.{Image};
ghost use Rattle.row_keys.specs.Forms.{IsLogName};
ghost use Rattle.plain_model.specs.State.{PlainState};
ghost use Rattle.metadata_schema.specs.Paths.{IsFilePath};
ghost use Rattle.log_files.specs.Sorted.{sorted_name};
ghost use Rattle.store_layout.specs.Names.{file_of};
ghost use Rattle.store_meaning.specs.Ground.{ChangesOnly};
ghost use Rattle.store_meaning.specs.InUse.{IsLogInUse, IsListedSorted};
ghost use Rattle.store_meaning.specs.Marked.{IsFileCounted};
ghost use Rattle.store_meaning.specs.Stands.{StandsFor};
ghost use Rattle.store_meaning.specs.Kept.{IsKept};

/// A file that doesn't count may come, go or be torn, and the image stands for the same state.
pub fn unnamed_files_leave_the_state()
    ensures file { (old new : Image) (state : PlainState) (is : StandsFor old state) (path : List ℕ) → IsFilePath path → (IsFileCounted is.reading is.catalog path → ⊥)
        → ChangesOnly (file_of path) old new → StandsFor new state }
    ensures log { (old new : Image) (state : PlainState) (is : StandsFor old state) (log : List ℕ) → IsLogName log → (IsLogInUse is.known.nodes is.reading log → ⊥)
        → ChangesOnly log old new → StandsFor new state }
    ensures sorted { (old new : Image) (state : PlainState) (is : StandsFor old state) (log : List ℕ) → IsLogName log → (IsListedSorted is.known.nodes log → ⊥)
        → ChangesOnly (sorted_name log) old new → StandsFor new state }
{}

/// A file that doesn't count may come, go or be torn, and a kept image stays kept with the same state.
pub fn unnamed_files_leave_an_image_kept()
    ensures file { (old new : Image) (state : PlainState) (is : IsKept old state) (path : List ℕ) → IsFilePath path → (IsFileCounted is.reading is.catalog path → ⊥)
        → ChangesOnly (file_of path) old new → IsKept new state }
    ensures log { (old new : Image) (state : PlainState) (is : IsKept old state) (log : List ℕ) → IsLogName log → (IsLogInUse is.known.nodes is.reading log → ⊥)
        → ChangesOnly log old new → IsKept new state }
    ensures sorted { (old new : Image) (state : PlainState) (is : IsKept old state) (log : List ℕ) → IsLogName log → (IsListedSorted is.known.nodes log → ⊥)
        → ChangesOnly (sorted_name log) old new → IsKept new state }
{}
