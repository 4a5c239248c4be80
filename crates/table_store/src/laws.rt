// What holds of the tables of images.
ghost use Rattle.table_store.specs.Laws.{TablesAreOne, NewStoresAreKept, CreatedIsApplied, TakenIsRefused, TextsArePlain};

use store_meaning::a_new_store_is_readable;

/// An image has one list of tables, at the most.
pub fn tables_are_one()
    ensures { TablesAreOne }
{}

/// A new store is kept, with no tables.
pub fn a_new_store_is_kept()
    ensures { NewStoresAreKept }
{
    a_new_store_is_readable();
}

/// The plain state after a table was made is what its operation makes of the plain state before, and an operation is
/// refused where its name is taken.
pub fn created_is_applied()
    ensures made { CreatedIsApplied }
    ensures refused { TakenIsRefused }
{}

/// The rows that list tables are those of the plain state that the tables stand for.
pub fn texts_are_plain()
    ensures { TextsArePlain }
{}
