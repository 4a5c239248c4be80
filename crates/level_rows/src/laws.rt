// What holds of chains.
ghost use Rattle.std.specs.Prelude.{◌≡◌, ◌≢◌, ◌↔◌, List, [], ◌∷◌, ◌++◌, map, ℕ, Option, Some, None, IsTrue, Contains};
ghost use Rattle.std.specs.List.Sorted.{IsStrictlySortedBy};
ghost use Rattle.row_keys.specs.RowOrder.{bytes_cmp, is_interval};
ghost use Rattle.row_keys.specs.MetadataRow.{metadata_row};
ghost use Rattle.metadata_schema.specs.declared.tablet.TabletRecord.{TabletRecord as Tablet};
ghost use Rattle.level_rows.specs.Chain.{Rows, IsBelowEnd, IsChain, IsChainOf, effective_prev, rows_of};
ghost use Rattle.level_rows.specs.Broken.{IsBroken};
ghost use Rattle.level_rows.specs.Extents.{HasOneFor, IsPieceFor};
ghost use Rattle.level_rows.specs.LeftOver.{AreDistinct, AreLeftOver};

/// A table has at most one chain.
pub fn a_table_has_one_chain()
    ensures { (rows : Rows) (tablets other : List Tablet) → IsChain rows tablets → IsChain rows other → tablets ≡ other }
{}

/// The way of a table that has a chain doesn't break off.
pub fn a_chain_is_not_broken()
    ensures { (rows : Rows) (tablets : List Tablet) → IsChain rows tablets → IsBroken rows → ⊥ }
{}

/// Each row lies in just one extent of a chain.
pub fn each_row_lies_in_one_extent()
    ensures of { (table : List ℕ) (records tablets : List Tablet) (row : List ℕ) → IsChainOf table records tablets → HasOneFor (rows_of table records) tablets row }
    ensures down { (rows : Rows) (tablets : List Tablet) (row : List ℕ) → IsChain rows tablets → HasOneFor rows tablets row }
{}

/// A tablet of a chain begins where the next lower one ends, and the lowest one has no lower bound. Each is found at its end
/// row.
pub fn tablets_follow_each_other()
    ensures next { (rows : Rows) (above below : List Tablet) (tablet lower : Tablet) → IsChain rows (above ++ tablet ∷ (lower ∷ below))
        → (low : List ℕ) × (lower.end ≡ Some low) × (effective_prev rows tablet ≡ Some low) × IsBelowEnd low tablet.end }
    ensures lowest { (rows : Rows) (above : List Tablet) (tablet : Tablet) → IsChain rows (above ++ tablet ∷ []) → effective_prev rows tablet ≡ None }
    ensures found { (rows : Rows) (tablets : List Tablet) (tablet : Tablet) → IsChain rows tablets → Contains tablets tablet → rows tablet.end ≡ Some tablet }
{}

/// The records of a chain whose extents meet a range stand together: from the one that holds the upper bound, or the last one,
/// down to the one that holds the first row above the lower bound.
pub fn the_tablets_of_a_range_are_one_piece()
    ensures { (rows : Rows) (from to : Option (List ℕ)) (tablets : List Tablet) → IsTrue (is_interval from to) → IsChain rows tablets
        → (above : List Tablet) × (inside : List Tablet) × (below : List Tablet) × IsPieceFor rows from to tablets above inside below }
{}

/// Each of distinct records is found by its table and end row, and what is found is one of them and has that name.
pub fn records_are_found_by_name()
    ensures each { (table : List ℕ) (records : List Tablet) (tablet : Tablet) → AreDistinct records
        → (rows_of table records tablet.end ≡ Some tablet) ↔ (Contains records tablet × (tablet.table ≡ table)) }
    ensures found { (table : List ℕ) (records : List Tablet) (end : Option (List ℕ)) (tablet : Tablet) → rows_of table records end ≡ Some tablet
        → Contains records tablet × (tablet.table ≡ table) × (tablet.end ≡ end) }
{}

/// Records whose metadata rows strictly rise, as a level has them, are distinct.
pub fn records_in_row_order_are_distinct()
    ensures { (records : List Tablet) → IsStrictlySortedBy bytes_cmp (map (λ tablet. metadata_row tablet.table tablet.end) records) → AreDistinct records }
{}

/// The records that are left over make up one list.
pub fn left_over_records_are_one_list()
    ensures { (table : List ℕ) (records chain left other : List Tablet) → AreLeftOver table records chain left → AreLeftOver table records chain other → left ≡ other }
{}
