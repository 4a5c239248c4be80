// What holds of the spellings of cells and files.
ghost use Rattle.std.specs.Prelude.{◌≡◌, ◌<◌, ℕ, Bool, List, Option, All};
ghost use Rattle.bytes_form.specs.PrefixFree.{IsPrefixFree};
ghost use Rattle.cell_merge.specs.declared.cell.Cell.{Cell};
ghost use Rattle.cell_merge.specs.Newest.{Bytes, IsMerged, clipped};
ghost use Rattle.data_files.specs.Blocks.{HasBlock, HasIndex};
ghost use Rattle.data_files.specs.Cells.{spelled_cell, FitsCell, AreFileCells};
ghost use Rattle.data_files.specs.Files.{block_count, IsDataFile};

/// No cell's spelling begins another one.
pub fn no_cell_begins_another()
    ensures { IsPrefixFree FitsCell spelled_cell }
{}

/// A file has one list of cells, and a list of cells one file.
pub fn a_file_has_one_list_of_cells()
    ensures cells { (bytes : Bytes) (cells same : List Cell) → IsDataFile bytes cells → IsDataFile bytes same → cells ≡ same }
    ensures bytes { (bytes same : Bytes) (cells : List Cell) → IsDataFile bytes cells → IsDataFile same cells → bytes ≡ same }
{}

/// A file can be read by blocks: each stands where the index says, and the index where the last eight bytes say.
pub fn blocks_stand_where_the_index_says()
    ensures block { (bytes : Bytes) (cells : List Cell) (block : ℕ) → IsDataFile bytes cells → block < block_count cells → HasBlock bytes cells block }
    ensures index { (bytes : Bytes) (cells : List Cell) → IsDataFile bytes cells → HasIndex bytes cells }
{}

/// What is merged from cells that fit, and what is left of a file's cells in an extent, may be written to a file.
pub fn cells_of_files_are_written_again()
    ensures merged { (cells merged : List Cell) (keep_removed : Bool) → All FitsCell cells → IsMerged cells keep_removed merged → AreFileCells merged }
    ensures clipped { (low high : Option Bytes) (cells : List Cell) → AreFileCells cells → AreFileCells (clipped low high cells) }
{}
