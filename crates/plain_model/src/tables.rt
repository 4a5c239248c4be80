// Tables in the order of their ids, and staged files in that of their names.
ghost use Rattle.std.specs.Prelude.{◌≡◌, OnOk, OnErr, IfOk, ◌≤◌, nat_eq, length, vec_len, insert};
ghost use Rattle.std.specs.List.{list_any, list_all};
ghost use Rattle.std.specs.List.Sorted.{IsSearchInRange};
ghost use Rattle.std.specs.Cmp.Lexicographic.{pointwise};
ghost use Rattle.std.specs.FinMap as map;
ghost use Rattle.row_keys.specs.RowOrder.{bytes_cmp};
ghost use Rattle.plain_model.specs.State.{Table, PairMap};
ghost use Rattle.plain_model.specs.Listed.{listed, table_item, staged_item};
ghost use Rattle.plain_model.specs.Places.{IsPlace};

use crate::operation::Pairs;
use crate::pairs::copy_pairs;
use crate::points::copy_points;
use row_keys::{Rows, StagedName, TableId, TableName};
use std::alloc::{AllocError, Global};

/// A table of the plain state.
#[derive(Debug, Drop)]
pub struct PlainTable {
    pub id: TableId,
    pub name: TableName,
    /// The split points, strictly increasing.
    pub splits: Rows,
    /// The pairs, strictly increasing by key.
    pub pairs: Pairs,
}

/// A staged file of the plain state.
#[derive(Debug, Drop)]
pub struct PlainStaged {
    pub name: StagedName,
    /// The pairs, strictly increasing by key.
    pub pairs: Pairs,
}

/// Where the table of this id stands, or would stand. Time goes with the logarithm of the number of tables.
pub(crate) fn place_of_table(tables: &[PlainTable], id: &TableId) -> Result<usize, usize>
    ensures place { (m : map.FinMap bytes_cmp Table) → tables.now ≡ listed table_item m → IsPlace table_item m id.now result }
    ensures bound { IsSearchInRange result (length tables.now) }
{
    tables.binary_search_by(|table| table.id.cmp(id))
}

/// Where the file of this name stands, or would stand. Time goes with the logarithm of the number of files.
pub(crate) fn place_of_staged(files: &[PlainStaged], name: &StagedName) -> Result<usize, usize>
    ensures place { (m : map.FinMap bytes_cmp PairMap) → files.now ≡ listed staged_item m → IsPlace staged_item m name.now result }
    ensures bound { IsSearchInRange result (length files.now) }
{
    files.binary_search_by(|file| file.name.cmp(name))
}

/// Whether a table has this name. Time goes with the number of tables.
pub(crate) fn is_name_used(tables: &[PlainTable], name: &TableName) -> bool
    ensures { result ≡ list_any (λ table. pointwise nat_eq name.now table.name) tables.now }
{
    tables.iter().any(|table| *name == table.name)
}

/// Whether a staged file has this name. Time goes with the logarithm of the number of files.
pub(crate) fn is_staged(files: &[PlainStaged], name: &StagedName) -> bool
    ensures { (m : map.FinMap bytes_cmp PairMap) → files.now ≡ listed staged_item m → result ≡ map.contains_key m name.now }
{
    place_of_staged(files, name).is_ok()
}

/// Whether each of these names is a staged file's.
pub(crate) fn are_staged(files: &[PlainStaged], names: &[StagedName]) -> bool
    ensures { (m : map.FinMap bytes_cmp PairMap) → files.now ≡ listed staged_item m → result ≡ list_all (map.contains_key m) names.now }
{
    for name in names {
        if !is_staged(files, name) {
            return false;
        }
    }
    true
}

/// The same table under another id and name. Takes memory for a copy.
pub(crate) fn copy_table(
    alloc: Global,
    table: &PlainTable,
    id: &TableId,
    name: &TableName,
) -> Result<PlainTable, AllocError>
    ensures { IfOk result (λ copy. copy ≡ record table.now { id = id.now; name = name.now }) }
{
    Ok(PlainTable {
        id: id.copy(alloc)?,
        name: name.copy(alloc)?,
        splits: copy_points(alloc, table.splits.as_slice())?,
        pairs: copy_pairs(alloc, table.pairs.as_slice())?,
    })
}

/// Puts the table at its id. At want of memory the tables are as they were. Moves the tables behind it.
pub(crate) fn put_table(tables: &mut Vec<PlainTable>, table: PlainTable) -> Result<(), AllocError>
    ensures ok { (m : map.FinMap bytes_cmp Table) (value : Table) → tables.old.items ≡ listed table_item m → table ≡ table_item (table.id, value)
        → OnOk result (tables.new.items ≡ listed table_item (map.insert m table.id value)) }
    ensures err { OnErr result (tables.new.items ≡ tables.old.items) }
{
    match place_of_table(tables, &table.id) {
        Ok(place) => {
            tables[place] = table;
            Ok(())
        }
        Err(place) => Ok(tables.insert(place, table)?),
    }
}

/// Puts the file at this place. At want of memory the files are as they were. Moves the files behind it.
pub(crate) fn insert_staged(
    files: &mut Vec<PlainStaged>,
    place: usize,
    file: PlainStaged,
) -> Result<(), AllocError>
    requires { place ≤ vec_len files.old }
    ensures ok { OnOk result (files.new.items ≡ insert files.old.items place file) }
    ensures err { OnErr result (files.new.items ≡ files.old.items) }
{
    Ok(files.insert(place, file)?)
}
