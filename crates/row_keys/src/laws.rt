// What holds of rows, keys and metadata rows.
ghost use Rattle.std.specs.Prelude.{◌≡◌, ◌↔◌, ℕ, List, Option, None, IsTrue};
ghost use Rattle.row_keys.specs.declared.key.Key.{Key};
ghost use Rattle.row_keys.specs.Forms.{IsTableId};
ghost use Rattle.row_keys.specs.Keys.{key_cmp};
ghost use Rattle.row_keys.specs.MetadataRow.{metadata_row, IsTabletName, prev_value, end_cmp};
ghost use Rattle.row_keys.specs.RowOrder.{bytes_cmp, have_common, ShareBytes};

use crate::key::Key;

/// Keys are ordered by row, family and qualifier, each by its bytes.
pub fn keys_are_ordered_by_bytes()
    ensures { (a b : Key) → ⟦<Key as Ord>⟧.cmp a b ≡ key_cmp a b }
{}

/// Two ranges meet exactly where some bytes lie in both.
pub fn ranges_meet_where_they_share()
    ensures { (prev end from to : Option (List ℕ)) → IsTrue (have_common prev end from to) ↔ ShareBytes prev end from to }
{}

/// A metadata row is that of one table and one end row.
pub fn metadata_rows_are_one_to_one()
    ensures { (table other : List ℕ) (end last : Option (List ℕ)) → IsTabletName table end → IsTabletName other last
        → metadata_row table end ≡ metadata_row other last → (table ≡ other) × (end ≡ last) }
{}

/// A value stands for one previous row.
pub fn prev_values_are_one_to_one()
    ensures { (prev other : Option (List ℕ)) → prev_value prev ≡ prev_value other → prev ≡ other }
{}

/// The metadata rows of one table stand in the order of their end rows, the last tablet's behind them all.
pub fn tablets_are_ordered_by_end_row()
    ensures { (table : List ℕ) (end last : Option (List ℕ)) → bytes_cmp (metadata_row table end) (metadata_row table last) ≡ end_cmp end last }
{}

/// The metadata rows of one table stand together: which of two tables' rows come first is the same for all of their rows, and
/// is the order of their last tablets' (`10<` before `1<`, and `1<` before `1a<`).
pub fn tables_stand_apart()
    ensures { (table other : List ℕ) (end last : Option (List ℕ)) → IsTableId table → IsTableId other → (table ≡ other → ⊥)
        → bytes_cmp (metadata_row table end) (metadata_row other last) ≡ bytes_cmp (metadata_row table None) (metadata_row other None) }
{}
