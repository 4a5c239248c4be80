// Many pairs, put one after another.
ghost use Rattle.std.specs.Prelude.{◌≡◌, OnOk, IfOk, Some};
ghost use Rattle.std.specs.FinMap as map;
ghost use Rattle.row_keys.specs.RowOrder.{bytes_cmp};
ghost use Rattle.plain_model.specs.State.{PairMap};
ghost use Rattle.plain_model.specs.Apply.{entries_of, put_all, put_files};
ghost use Rattle.plain_model.specs.Edits.{GivesPairs};
ghost use Rattle.plain_model.specs.Listed.{listed, pair_item, staged_item};

use crate::operation::{Pair, Pairs};
use crate::stop::PlainStop;
use crate::tables::{PlainStaged, are_staged, place_of_staged};
use row_keys::{Key, Octets, StagedName};
use std::alloc::{AllocError, Global};
use std::collections::BTreeMap;

/// The value of each key, while many pairs are put.
pub(crate) type PairIndex = BTreeMap<Key, Octets>;

/// Puts copies of these pairs in their order. Time goes with their number and the logarithm of all.
pub(crate) fn put_copies(
    alloc: Global,
    index: &mut PairIndex,
    pairs: &[Pair],
) -> Result<(), AllocError>
    ensures { (m : PairMap) → index.old.entries ≡ map.entries m → OnOk result (index.new.entries ≡ map.entries (put_all (entries_of pairs.now) m)) }
{
    for pair in pairs {
        let pair = pair.copy(alloc)?;
        index.insert(pair.key, pair.value)?;
    }
    Ok(())
}

/// The pairs in the order of their keys.
pub(crate) fn pairs_in_order(alloc: Global, index: PairIndex) -> Result<Pairs, AllocError>
    ensures { (m : PairMap) → index.entries ≡ map.entries m → IfOk result (λ pairs. pairs ≡ listed pair_item m) }
{
    let mut pairs = Pairs::new(alloc);
    for (key, value) in index {
        pairs.push(Pair { key, value })?;
    }
    Ok(pairs)
}

/// Puts copies of the pairs of the staged files of these names, file after file. A name that isn't staged counts for nothing.
pub(crate) fn put_files(
    alloc: Global,
    index: &mut PairIndex,
    files: &[PlainStaged],
    names: &[StagedName],
) -> Result<(), AllocError>
    ensures { (staged : map.FinMap bytes_cmp PairMap) (m next : PairMap) → files.now ≡ listed staged_item staged → index.old.entries ≡ map.entries m
        → put_files names.now staged m ≡ Some next → OnOk result (index.new.entries ≡ map.entries next) }
{
    for name in names {
        match place_of_staged(files, name) {
            Ok(place) => put_copies(alloc, index, files[place].pairs.as_slice())?,
            Err(_) => {}
        }
    }
    Ok(())
}

/// These pairs, and the pairs of the staged files of these names put over them, file after file.
fn with_files(
    alloc: Global,
    pairs: &[Pair],
    files: &[PlainStaged],
    names: &[StagedName],
) -> Result<Pairs, AllocError>
    ensures { (staged : map.FinMap bytes_cmp PairMap) (m next : PairMap) → files.now ≡ listed staged_item staged → pairs.now ≡ listed pair_item m
        → put_files names.now staged m ≡ Some next → IfOk result (λ all. all ≡ listed pair_item next) }
{
    let mut index = PairIndex::new(alloc);
    put_copies(alloc, &mut index, pairs)?;
    put_files(alloc, &mut index, files, names)?;
    pairs_in_order(alloc, index)
}

/// These pairs, and the pairs of the staged files of these names put over them, file after file. `NoStaged` comes exactly
/// where one of the names isn't staged. Takes time with the number of all these pairs and its logarithm.
pub(crate) fn pairs_with_files(
    alloc: Global,
    pairs: &[Pair],
    files: &[PlainStaged],
    names: &[StagedName],
) -> Result<Pairs, PlainStop>
    ensures { (staged : map.FinMap bytes_cmp PairMap) (m : PairMap) → files.now ≡ listed staged_item staged → pairs.now ≡ listed pair_item m
        → GivesPairs (put_files names.now staged m) result }
{
    if !are_staged(files, names) {
        return Err(PlainStop::NoStaged);
    }
    Ok(with_files(alloc, pairs, files, names)?)
}

/// These pairs in the order of their keys, of a repeated key the last. Takes time with their number and its logarithm.
pub(crate) fn last_pairs(alloc: Global, pairs: &[Pair]) -> Result<Pairs, AllocError>
    ensures { IfOk result (λ last. last ≡ listed pair_item (put_all (entries_of pairs.now) map.empty)) }
{
    let mut index = PairIndex::new(alloc);
    put_copies(alloc, &mut index, pairs)?;
    pairs_in_order(alloc, index)
}
