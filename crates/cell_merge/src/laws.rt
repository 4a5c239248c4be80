// What holds of the newest of cells. Each law is the contract of a call that does nothing.
ghost use Rattle.std.specs.Prelude.{◌≡◌, ◌<◌, ◌++◌, [], ◌∷◌, true, false, Bool, List, Option, None, MatchOption, Contains, filter, if◌then◌else◌};
ghost use Rattle.row_keys.specs.declared.key.Key.{Key};
ghost use Rattle.row_keys.specs.RowOrder.{is_within};
ghost use Rattle.cell_merge.specs.declared.cell.Cell.{Cell};
ghost use Rattle.cell_merge.specs.declared.cell.Pair.{Pair};
ghost use Rattle.cell_merge.specs.Newest.{Bytes, is_same_key, latest, later, newest_at, clipped, IsNewest, IsMerged};
ghost use Rattle.cell_merge.specs.Changes.{AreConsistent, IsLatestAt, Covers, Gains, overlaid};

/// The latest cell of a key is one of greatest time, and there is none only where no cell is of the key.
pub fn the_latest_cell_has_the_greatest_time()
    ensures { (cells : List Cell) (key : Key) → MatchOption (latest cells key) ((cell : Cell) → Contains cells cell → cell.key ≡ key → ⊥) (IsLatestAt cells key) }
{}

/// Cells have one list of newest pairs, and it depends on nothing but what each key has.
pub fn newest_is_one_list()
    ensures { (cells other : List Cell) (pairs same : List Pair) → ((key : Key) → newest_at cells key ≡ newest_at other key)
        → IsNewest cells pairs → IsNewest other same → pairs ≡ same }
{}

/// Cells have one list of merged cells.
pub fn merged_cells_are_one_list()
    ensures { (cells : List Cell) (keep_removed : Bool) (merged same : List Cell) → IsMerged cells keep_removed merged → IsMerged cells keep_removed same → merged ≡ same }
{}

/// Of cells with others behind them the later one of a key counts.
pub fn appended_cells_count_where_later()
    ensures { (cells more : List Cell) (key : Key) → latest (cells ++ more) key ≡ later (latest cells key) (latest more key) }
{}

/// The cells within an extent leave the keys inside what they have, and those outside nothing: the newest within an extent
/// is the newest of the cells within it.
pub fn clipping_keeps_the_rows_inside()
    ensures inside { (low high : Option Bytes) (cells : List Cell) (key : Key) → is_within low high key.row ≡ true → latest (clipped low high cells) key ≡ latest cells key }
    ensures outside { (low high : Option Bytes) (cells : List Cell) (key : Key) → is_within low high key.row ≡ false → latest (clipped low high cells) key ≡ None }
    ensures newest { (low high : Option Bytes) (cells : List Cell) (pairs : List Pair) → IsNewest cells pairs
        → IsNewest (clipped low high cells) (filter (λ pair. is_within low high pair.key.row) pairs) }
{}

/// Cells may be replaced by fewer ones that cover them.
pub fn covering_cells_keep_the_newest()
    ensures newest { (fewer all : List Cell) (key : Key) → AreConsistent all → Covers fewer all → newest_at fewer key ≡ newest_at all key }
    ensures consistent { (fewer all : List Cell) → AreConsistent all → Covers fewer all → AreConsistent fewer }
{}

/// Files may be replaced by their merged cells: beside other cells where removals are kept, and without removals where
/// there are no others.
pub fn merged_cells_keep_the_newest()
    ensures kept { (cells others merged : List Cell) → IsMerged cells true merged → Covers (merged ++ others) (cells ++ others) }
    ensures removed { (cells merged : List Cell) → IsMerged cells false merged → Covers merged cells }
    ensures latest_kept { (cells merged : List Cell) (key : Key) → IsMerged cells true merged → latest merged key ≡ latest cells key }
    ensures newest_removed { (cells merged : List Cell) (key : Key) → IsMerged cells false merged → newest_at merged key ≡ newest_at cells key }
{}

/// Cells later than those of their keys stand over them.
pub fn later_cells_count_over_earlier_ones()
    ensures newest { (fresh old new : List Cell) (key : Key) → AreConsistent old → AreConsistent fresh → Gains fresh old new → newest_at new key ≡ overlaid (latest fresh key) (newest_at old key) }
    ensures consistent { (fresh old new : List Cell) → AreConsistent old → AreConsistent fresh → Gains fresh old new → AreConsistent new }
{}

/// One cell later than those of its key gives that key its value, and leaves every other key what it has.
pub fn one_later_cell_changes_its_key_alone()
    ensures newest { (cell : Cell) (cells : List Cell) (key : Key) → ((other : Cell) → Contains cells other → other.key ≡ cell.key → other.time < cell.time)
        → newest_at (cells ++ cell ∷ []) key ≡ (if is_same_key cell.key key then cell.value else newest_at cells key) }
    ensures consistent { (cell : Cell) (cells : List Cell) → AreConsistent cells → ((other : Cell) → Contains cells other → other.key ≡ cell.key → other.time < cell.time)
        → AreConsistent (cells ++ cell ∷ []) }
{}
