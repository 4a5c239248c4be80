// What a chain is after a row of its table has changed.
ghost use Rattle.std.specs.Prelude.{◌≡◌, ◌≢◌, List, [], ◌∷◌, ◌++◌, ℕ, Option, Some, None, Contains, reverse};
ghost use Rattle.metadata_schema.specs.declared.tablet.TabletRecord.{TabletRecord as Tablet};
ghost use Rattle.level_rows.specs.Chain.{Rows, IsChain, effective_prev, rows_of};
ghost use Rattle.level_rows.specs.LeftOver.{AreDistinct, IsLeftOver};
ghost use Rattle.level_rows.specs.Changes.{with_row, without_row, IsWritten, IsTakenOut, StandAsBefore, IsBeside, IsLinked};
ghost use Rattle.level_rows.specs.Splits.{MaySplit, IsBegun, IsLowerHalf, IsUpperHalf, HasExtentOf};

/// A record that is written, among the records of a level, takes its row of its table, and other tables stay as they are.
pub fn a_written_record_takes_its_row()
    ensures same_table { (tablet : Tablet) (before after : List Tablet) → AreDistinct before → AreDistinct after → IsWritten tablet before after
        → rows_of tablet.table after ≡ with_row (rows_of tablet.table before) tablet }
    ensures other_tables { (tablet : Tablet) (before after : List Tablet) → AreDistinct before → AreDistinct after → IsWritten tablet before after
        → (table : List ℕ) → table ≢ tablet.table → rows_of table after ≡ rows_of table before }
{}

/// A row that is taken out, among the records of a level, is gone from its table, and other tables stay as they are.
pub fn a_row_taken_out_is_gone()
    ensures same_table { (table : List ℕ) (gone : Option (List ℕ)) (before after : List Tablet) → AreDistinct before → AreDistinct after → IsTakenOut table gone before after
        → rows_of table after ≡ without_row (rows_of table before) gone }
    ensures other_tables { (table : List ℕ) (gone : Option (List ℕ)) (before after : List Tablet) → AreDistinct before → AreDistinct after → IsTakenOut table gone before after
        → (other : List ℕ) → other ≢ table → rows_of other after ≡ rows_of other before }
{}

/// A chain whose records stand as before is the chain.
pub fn records_that_stand_as_before_are_the_chain()
    ensures { (old new : Rows) (tablets : List Tablet) → IsChain old tablets → StandAsBefore old new tablets → IsChain new tablets }
{}

/// A record that is written over one of a chain, and has its extent, takes its place.
pub fn a_record_of_the_same_extent_takes_its_place()
    ensures { (rows : Rows) (above below : List Tablet) (tablet other : Tablet) → IsChain rows (above ++ tablet ∷ below)
        → other.end ≡ tablet.end → effective_prev rows other ≡ effective_prev rows tablet → IsChain (with_row rows other) (above ++ other ∷ below) }
{}

/// A record that comes to reach down as far as one further down takes the place of all between.
pub fn a_record_takes_the_place_of_all_that_it_reaches()
    ensures { (old new : Rows) (above mid below : List Tablet) (lowest tablet : Tablet) → IsChain old (above ++ (mid ++ lowest ∷ below))
        → new tablet.end ≡ Some tablet → effective_prev new tablet ≡ effective_prev old lowest
        → ((highest : Tablet) (rest : List Tablet) → mid ++ lowest ∷ [] ≡ highest ∷ rest → highest.end ≡ tablet.end)
        → StandAsBefore old new above → StandAsBefore old new below → IsChain new (above ++ tablet ∷ below) }
{}

/// A chain in the three steps of a split. Once the upper half names the row of the split, with the old previous row beside it,
/// the chain is the old one, with that record in its new form; once the lower half is written it is the split one, and so it is
/// when the old previous row is gone. Where the upper half is put back before the lower half is written, it is the old one.
pub fn a_split_changes_the_chain_with_its_lower_half()
    ensures first { (rows : Rows) (above below : List Tablet) (tablet : Tablet) (at : List ℕ) → MaySplit rows above below tablet at → IsChain rows (above ++ tablet ∷ below)
        → (high : Tablet) → IsBegun tablet high at → IsChain (with_row rows high) (above ++ high ∷ below) }
    ensures second { (rows : Rows) (above below : List Tablet) (tablet : Tablet) (at : List ℕ) → MaySplit rows above below tablet at → IsChain rows (above ++ tablet ∷ below)
        → (high : Tablet) → IsBegun tablet high at → (low : Tablet) → IsLowerHalf tablet low at
        → IsChain (with_row (with_row rows high) low) (above ++ high ∷ low ∷ below) }
    ensures third { (rows : Rows) (above below : List Tablet) (tablet : Tablet) (at : List ℕ) → MaySplit rows above below tablet at → IsChain rows (above ++ tablet ∷ below)
        → (high : Tablet) → IsBegun tablet high at → (low : Tablet) → IsLowerHalf tablet low at → (whole : Tablet) → IsUpperHalf tablet whole at
        → IsChain (with_row (with_row (with_row rows high) low) whole) (above ++ whole ∷ low ∷ below) }
    ensures back { (rows : Rows) (above below : List Tablet) (tablet : Tablet) (at : List ℕ) → MaySplit rows above below tablet at → IsChain rows (above ++ tablet ∷ below)
        → (high : Tablet) → IsBegun tablet high at → (put_back : Tablet) → HasExtentOf tablet put_back
        → IsChain (with_row (with_row rows high) put_back) (above ++ put_back ∷ below) }
{}

/// Once the record of the highest tablet of a piece has the effective previous row of the lowest, it stands for the whole piece,
/// and the others are left over.
pub fn a_merge_leaves_one_record_for_its_piece()
    ensures chain { (rows : Rows) (above mid below : List Tablet) (lowest merged : Tablet) → IsChain rows (above ++ (mid ++ lowest ∷ below))
        → ((highest : Tablet) (rest : List Tablet) → mid ++ lowest ∷ [] ≡ highest ∷ rest → highest.end ≡ merged.end)
        → merged.old_prev ≡ None → merged.prev ≡ effective_prev rows lowest → IsChain (with_row rows merged) (above ++ merged ∷ below) }
    ensures left { (rows : Rows) (above lower below : List Tablet) (highest merged : Tablet) → IsChain rows (above ++ (highest ∷ (lower ++ below))) → merged.end ≡ highest.end
        → (tablet : Tablet) → Contains lower tablet → IsLeftOver (with_row rows merged) (above ++ merged ∷ below) tablet }
{}

/// A row outside the chain may go, be written again, or come where no record of the chain is being split there: the chain is the
/// same.
pub fn rows_outside_the_chain_leave_it()
    ensures goes { (rows : Rows) (tablets : List Tablet) (gone : Option (List ℕ)) → IsChain rows tablets
        → ((other : Tablet) → Contains tablets other → other.end ≢ gone) → IsChain (without_row rows gone) tablets }
    ensures again { (rows : Rows) (tablets : List Tablet) (tablet was : Tablet) → IsChain rows tablets → rows tablet.end ≡ Some was
        → ((other : Tablet) → Contains tablets other → other.end ≢ tablet.end) → IsChain (with_row rows tablet) tablets }
    ensures comes { (rows : Rows) (tablets : List Tablet) (tablet : Tablet) → IsChain rows tablets → IsBeside tablets tablet → IsChain (with_row rows tablet) tablets }
{}

/// Tablets that follow each other are the chain as soon as all of their rows are there, in whichever order these came.
pub fn linked_rows_are_a_chain_once_whole()
    ensures { (rows : Rows) (tablets : List Tablet) → IsLinked None tablets
        → ((tablet : Tablet) → Contains tablets tablet → rows tablet.end ≡ Some tablet) → IsChain rows (reverse tablets) }
{}
