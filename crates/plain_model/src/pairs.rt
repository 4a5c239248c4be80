// Pairs in the order of their keys.
ghost use Rattle.std.specs.Prelude.{◌≡◌, OnOk, OnErr, IfOk, length};
ghost use Rattle.std.specs.Option.{option_copied};
ghost use Rattle.std.specs.List.Sorted.{IsSearchInRange};
ghost use Rattle.std.specs.FinMap as map;
ghost use Rattle.plain_model.specs.State.{PairMap};
ghost use Rattle.plain_model.specs.Apply.{pairs_outside};
ghost use Rattle.plain_model.specs.Listed.{listed, pair_item};
ghost use Rattle.plain_model.specs.Places.{IsPlace};

use crate::operation::{Pair, Pairs};
use crate::ranges::is_within;
use row_keys::{Key, Row};
use std::alloc::{AllocError, Global};
use std::mem;

/// Where the key's pair stands, or would stand. Time goes with the logarithm of the number of pairs.
pub(crate) fn place_of_pair(pairs: &[Pair], key: &Key) -> Result<usize, usize>
    ensures place { (m : PairMap) → pairs.now ≡ listed pair_item m → IsPlace pair_item m key.now result }
    ensures bound { IsSearchInRange result (length pairs.now) }
{
    pairs.binary_search_by(|pair| pair.key.cmp(key))
}

/// Puts the pair over its key. At want of memory the pairs are as they were. Moves the pairs behind it.
pub(crate) fn put_pair(alloc: Global, pairs: &mut Pairs, pair: Pair) -> Result<(), AllocError>
    ensures ok { (m : PairMap) → pairs.old ≡ listed pair_item m → OnOk result (pairs.new ≡ listed pair_item (map.insert m pair.key pair.value)) }
    ensures err { OnErr result (pairs.new ≡ pairs.old) }
{
    let mut items = mem::replace(pairs, Pairs::new(alloc)).into_vec();
    let done = put_item(&mut items, pair);
    *pairs = Pairs::from_vec(items);
    done
}

fn put_item(items: &mut Vec<Pair>, pair: Pair) -> Result<(), AllocError>
    ensures ok { (m : PairMap) → items.old.items ≡ listed pair_item m → OnOk result (items.new.items ≡ listed pair_item (map.insert m pair.key pair.value)) }
    ensures err { OnErr result (items.new.items ≡ items.old.items) }
{
    match place_of_pair(items, &pair.key) {
        Ok(place) => {
            items[place] = pair;
            Ok(())
        }
        Err(place) => Ok(items.insert(place, pair)?),
    }
}

/// Removes the key's pair, if there is one. Takes no memory. Moves the pairs behind it.
pub(crate) fn remove_pair(alloc: Global, pairs: &mut Pairs, key: &Key)
    ensures { (m : PairMap) → pairs.old ≡ listed pair_item m → pairs.new ≡ listed pair_item (map.remove m key.now) }
{
    let mut items = mem::replace(pairs, Pairs::new(alloc)).into_vec();
    remove_item(&mut items, key);
    *pairs = Pairs::from_vec(items);
}

fn remove_item(items: &mut Vec<Pair>, key: &Key)
    ensures { (m : PairMap) → items.old.items ≡ listed pair_item m → items.new.items ≡ listed pair_item (map.remove m key.now) }
{
    match place_of_pair(items, key) {
        Ok(place) => {
            items.remove(place);
        }
        Err(_) => {}
    }
}

/// Removes the pairs of the rows above `from`, up to `to` and at it. Takes no memory. Time goes with the number of pairs.
pub(crate) fn remove_rows(alloc: Global, pairs: &mut Pairs, from: Option<&Row>, to: Option<&Row>)
    ensures { (m : PairMap) → pairs.old ≡ listed pair_item m → pairs.new ≡ listed pair_item (pairs_outside (option_copied from.entry) (option_copied to.entry) m) }
{
    let mut items = mem::replace(pairs, Pairs::new(alloc)).into_vec();
    items.retain(|pair| !is_within(from, to, &pair.key.row));
    *pairs = Pairs::from_vec(items);
}

impl Pair {
    /// The same pair again. Takes memory for a copy.
    pub fn copy(&self, alloc: Global) -> Result<Pair, AllocError>
        ensures { IfOk result (λ pair. pair ≡ self.now) }
    {
        Ok(Pair {
            key: self.key.copy(alloc)?,
            value: self.value.copy(alloc)?,
        })
    }
}

/// The same pairs again. Takes memory for a copy.
pub(crate) fn copy_pairs(alloc: Global, pairs: &[Pair]) -> Result<Pairs, AllocError>
    ensures { IfOk result (λ copies. copies ≡ pairs.now) }
{
    let mut copies = Pairs::new(alloc);
    for pair in pairs {
        copies.push(pair.copy(alloc)?)?;
    }
    Ok(copies)
}
