// What holds of columns, records, paths and numbers.
ghost use Rattle.std.specs.Prelude.{◌≡◌, ◌<◌, ◌≤◌, ◌^◌, ◌∷◌, [], ℕ, List, Option, Some, None, length, IfSome, IsTrue, codes};
ghost use Rattle.std.specs.Fmt.{decimal};
ghost use Rattle.metadata_schema.specs.declared.mutation.Update.{Update};
ghost use Rattle.metadata_schema.specs.declared.tablet.TabletRecord.{TabletRecord};
ghost use Rattle.metadata_schema.specs.Bytes.{is_rising};
ghost use Rattle.metadata_schema.specs.Paths.{IsDirectory, file_path, AreParts};
ghost use Rattle.metadata_schema.specs.Columns.{columns_of, column_at, update_cmp};
ghost use Rattle.metadata_schema.specs.Records.{IsInOrder, IsWellFormed, IsRecordOf, new_tablet};
ghost use Rattle.metadata_schema.specs.Refusals.{AreColumns, HasPrev, HasColumns, HasValues};
ghost use Rattle.metadata_schema.specs.Between.{LeadsBetween, column_after};

use row_keys::metadata_rows_are_one_to_one;

/// Updates that lead from some columns to others, applied to the first, give the others.
pub fn updates_lead_to_the_new_columns()
    ensures { (old new updates : List Update) → LeadsBetween old new updates
        → (family qualifier : List ℕ) → column_after updates old family qualifier ≡ column_at new family qualifier }
{}

/// The columns of a record whose lists are in order are strictly increasing by family and qualifier.
pub fn columns_are_in_order()
    ensures { (tablet : TabletRecord) → IsInOrder tablet → IsTrue (is_rising update_cmp (columns_of tablet)) }
{}

/// A number has one spelling, and a spelling is one number's.
pub fn numbers_have_one_spelling()
    ensures one_number { (one other : ℕ) → one < 2 ^ 64 → other < 2 ^ 64 → decimal one ≡ decimal other → one ≡ other }
    ensures no_zero_in_front { (number : ℕ) (rest : List ℕ) → number < 2 ^ 64 → decimal number ≡ 48 ∷ rest → rest ≡ [] }
{}

/// A file's path is that of one id, one directory and one name.
pub fn paths_have_one_spelling()
    ensures { (id dir name id2 dir2 name2 : List ℕ) → AreParts id dir name → AreParts id2 dir2 name2
        → file_path id dir name ≡ file_path id2 dir2 name2 → (id ≡ id2) × (dir ≡ dir2) × (name ≡ name2) }
{}

/// A tablet's columns are those of one record.
pub fn records_are_one_to_one()
    ensures { (one other : TabletRecord) → one.table ≡ other.table → one.end ≡ other.end → IsWellFormed one → IsWellFormed other
        → ((family qualifier : List ℕ) → column_at (columns_of one) family qualifier ≡ column_at (columns_of other) family qualifier) → one ≡ other }
{}

/// A row and its columns are those of one record at most.
pub fn rows_have_one_record()
    ensures { (row : List ℕ) (updates : List Update) (one other : TabletRecord) → IsRecordOf row updates one → IsRecordOf row updates other → one ≡ other }
{
    metadata_rows_are_one_to_one();
}

/// The columns of a well-formed record are such as `record_of` asks for, and it refuses them for want of memory alone.
pub fn columns_of_records_are_read()
    ensures given { (tablet : TabletRecord) → IsWellFormed tablet → AreColumns (columns_of tablet) }
    ensures prev { (tablet : TabletRecord) → IsWellFormed tablet → HasPrev (columns_of tablet) }
    ensures columns { (tablet : TabletRecord) → IsWellFormed tablet → HasColumns (columns_of tablet) }
    ensures values { (tablet : TabletRecord) → IsWellFormed tablet → HasValues (columns_of tablet) }
{}

/// A tablet without files is well formed, where its directory and its previous row are of their forms; `!0;~` of a new store is such a one.
pub fn new_tablets_are_well_formed()
    ensures each { (table : List ℕ) (end prev : Option (List ℕ)) (dir : List ℕ) → IfSome prev (λ row. length row ≤ 300) → IsDirectory dir → IsWellFormed (new_tablet table end prev dir) }
    ensures first { IsWellFormed (new_tablet (codes "!0") (Some (codes "~")) None (codes "table_info")) }
{}
