// What is done to one table.
ghost use Rattle.std.specs.Prelude.{◌≡◌, if◌then◌else◌, Ok, Err};
ghost use Rattle.std.specs.Option.{option_copied, option_map_or};
ghost use Rattle.std.specs.FinMap as map;
ghost use Rattle.row_keys.specs.RowOrder.{bytes_cmp, is_interval};
ghost use Rattle.plain_model.specs.declared.stop.PlainStop.TheVariants.{Exists, NoStaged, BadRange};
ghost use Rattle.plain_model.specs.State.{PairMap, has_point, with_point};
ghost use Rattle.plain_model.specs.Apply.{points_outside, pairs_outside, put_files};
ghost use Rattle.plain_model.specs.Listed.{listed, staged_item};
ghost use Rattle.plain_model.specs.Edits.{Edits};

use crate::index::pairs_with_files;
use crate::operation::Pair;
use crate::pairs::{put_pair, remove_pair, remove_rows};
use crate::points::{insert_point, place_of_point, remove_points};
use crate::ranges::is_interval;
use crate::stop::PlainStop;
use crate::tables::{PlainStaged, PlainTable};
use row_keys::{Key, Row, StagedName, TableName};
use std::alloc::Global;

/// Gives the table this name.
pub(crate) fn rename(
    alloc: Global,
    table: &mut PlainTable,
    name: &TableName,
) -> Result<(), PlainStop>
    ensures { Edits (λ t. Ok (record t { name = name.now })) table.old result table.new }
{
    table.name = name.copy(alloc)?;
    Ok(())
}

/// Adds a split point.
pub(crate) fn split(alloc: Global, table: &mut PlainTable, at: &Row) -> Result<(), PlainStop>
    ensures { Edits (λ t. if has_point t.points at.now then Err Exists else Ok (record t { points = with_point t.points at.now })) table.old result table.new }
{
    match place_of_point(table.splits.as_slice(), at) {
        Ok(_) => Err(PlainStop::Exists),
        Err(place) => {
            let at = at.copy(alloc)?;
            Ok(insert_point(alloc, &mut table.splits, place, at)?)
        }
    }
}

/// Removes the split points above `from` and below `to`.
pub(crate) fn merge(
    alloc: Global,
    table: &mut PlainTable,
    from: Option<&Row>,
    to: Option<&Row>,
) -> Result<(), PlainStop>
    ensures { Edits (λ t. if is_interval (option_copied from.entry) (option_copied to.entry) then Ok (record t { points = points_outside (option_copied from.entry) (option_copied to.entry) t.points }) else Err BadRange) table.old result table.new }
{
    if !is_interval(from, to) {
        return Err(PlainStop::BadRange);
    }
    remove_points(alloc, &mut table.splits, from, to);
    Ok(())
}

/// Removes these split points, and the pairs of the rows above `from`, up to `to` and at it.
pub(crate) fn delete_rows(
    alloc: Global,
    table: &mut PlainTable,
    from: Option<&Row>,
    to: Option<&Row>,
) -> Result<(), PlainStop>
    ensures { Edits (λ t. if is_interval (option_copied from.entry) (option_copied to.entry) then Ok (record t { points = points_outside (option_copied from.entry) (option_copied to.entry) t.points; pairs = pairs_outside (option_copied from.entry) (option_copied to.entry) t.pairs }) else Err BadRange) table.old result table.new }
{
    if !is_interval(from, to) {
        return Err(PlainStop::BadRange);
    }
    remove_points(alloc, &mut table.splits, from, to);
    remove_rows(alloc, &mut table.pairs, from, to);
    Ok(())
}

/// Puts the pair over its key.
pub(crate) fn insert(alloc: Global, table: &mut PlainTable, pair: &Pair) -> Result<(), PlainStop>
    ensures { Edits (λ t. Ok (record t { pairs = map.insert t.pairs pair.now.key pair.now.value })) table.old result table.new }
{
    let pair = pair.copy(alloc)?;
    Ok(put_pair(alloc, &mut table.pairs, pair)?)
}

/// Removes the key's pair, if there is one.
pub(crate) fn remove(alloc: Global, table: &mut PlainTable, key: &Key) -> Result<(), PlainStop>
    ensures { Edits (λ t. Ok (record t { pairs = map.remove t.pairs key.now })) table.old result table.new }
{
    remove_pair(alloc, &mut table.pairs, key);
    Ok(())
}

/// Puts the pairs of the staged files of these names, file after file. `NoStaged` comes exactly where one isn't staged.
pub(crate) fn import(
    alloc: Global,
    table: &mut PlainTable,
    files: &[PlainStaged],
    names: &[StagedName],
) -> Result<(), PlainStop>
    ensures { (staged : map.FinMap bytes_cmp PairMap) → files.now ≡ listed staged_item staged
        → Edits (λ t. option_map_or (λ pairs. Ok (record t { pairs = pairs })) (put_files names.now staged t.pairs) (Err NoStaged)) table.old result table.new }
{
    table.pairs = pairs_with_files(alloc, table.pairs.as_slice(), files, names)?;
    Ok(())
}
