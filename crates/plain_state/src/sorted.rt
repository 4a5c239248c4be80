// Whether the sorted logs that nodes list are there.
ghost use Rattle.std.specs.Prelude.{IfOk, IfErr, OnOk, MatchBool};
ghost use Rattle.log_files.specs.Sorted.{IsStableSortOf};
ghost use Rattle.store_meaning.specs.Readable.{IsSortedThere};
ghost use Rattle.state_reader.specs.Still.{ground_of};
ghost use Rattle.plain_state.specs.Logs.{AreListed, AreListedSorted, AreSortedThere};
ghost use Rattle.plain_state.specs.Causes.{StateCause};

use crate::fault::StateFault;
use crate::listed::is_among;
use crate::order::sorted;
use crate::same::are_same;
use metadata_schema::Mutation;
use row_keys::Octets;
use state_reader::StillGround;
use std::alloc::{AllocError, Global};

/// Whether these are the mutations in order, those of one table, row and time in the order that they had.
fn is_stable_sort(
    alloc: Global,
    mutations: &[Mutation],
    in_order: &[Mutation],
) -> Result<bool, AllocError>
    ensures { IfOk result (λ is. MatchBool is (IsStableSortOf mutations.now in_order.now) (IsStableSortOf mutations.now in_order.now → ⊥)) }
{
    let all = sorted(alloc, mutations)?;
    Ok(are_same(&all, in_order))
}

/// Whether the sorted log of this log is told, and is its stable sort.
fn is_sorted_there(alloc: Global, still: &StillGround, log: &[u8]) -> Result<bool, AllocError>
    ensures { IfOk result (λ is. MatchBool is (IsSortedThere (ground_of still.now) log.now) (IsSortedThere (ground_of still.now) log.now → ⊥)) }
{
    let Some(mutations) = still.logs.get_bytes(log) else {
        return Ok(false);
    };
    let Some(in_order) = still.sorted.get_bytes(log) else {
        return Ok(false);
    };
    is_stable_sort(alloc, mutations.as_slice(), in_order.as_slice())
}

/// Looks whether each log that is listed as sorted is listed, and its sorted log there.
pub fn check_sorted(
    alloc: Global,
    still: &StillGround,
    listed: &[Octets],
    listed_sorted: &[Octets],
) -> Result<(), StateFault>
    requires listed { AreListed still.now.nodes.nodes listed.now }
    requires listed_sorted { AreListedSorted still.now.nodes.nodes listed_sorted.now }
    ensures ok { OnOk result (AreSortedThere (ground_of still.now) listed.now listed_sorted.now) }
    ensures cause { IfErr result (StateCause (ground_of still.now)) }
{
    for log in listed_sorted {
        if !is_among(listed, log.as_bytes()) {
            return Err(StateFault::UnlistedSorted(log.copy(alloc)?));
        }
        if !is_sorted_there(alloc, still, log.as_bytes())? {
            return Err(StateFault::Unsorted(log.copy(alloc)?));
        }
    }
    Ok(())
}
