// The memory of a tablet that is loaded.
ghost use Rattle.std.specs.Prelude.{◌≡◌, ◌<◌, ◌^◌, List, None, Some, All, IfErr, IfOk, IsTrue, OnOk, filter};
ghost use Rattle.std.specs.Option.{option_copied};
ghost use Rattle.metadata_schema.specs.Records.{IsFile};
ghost use Rattle.cell_merge.specs.declared.cell.Cell.{Cell};
ghost use Rattle.cell_merge.specs.Changes.{AreConsistent};
ghost use Rattle.log_files.specs.Mutations.{IsLogged};
ghost use Rattle.tablet_mem.specs.Memory.{put_all, next_time};
ghost use Rattle.store_meaning.specs.Ground.{Ground as Known};
ghost use Rattle.store_meaning.specs.Flushes.{memory_of};
ghost use Rattle.store_meaning.specs.Writes.{counts_in};
ghost use Rattle.ground_store.specs.Acts.{Acts, stop_of};
ghost use Rattle.ground_store.specs.Steps.{Stays};
ghost use Rattle.tablet_scan.specs.Files.{HoldAll, FilesCause};
ghost use Rattle.tablet_scan.specs.Scans.{IsMemoryOf};
ghost use Rattle.tablet_scan.specs.Times.{untimed, IsLoaded, AreInLogs};

use crate::range::is_within;
use crate::times::greatest_time;
use ground_store::Ground;
use host_model::{Host, Stop};
use metadata_schema::{Mutation, TabletRecord};
use row_keys::Row;
use std::alloc::{AllocError, Global};
use tablet_mem::TabletMem;

/// Whether the mutation is of the tablet's table, past its bar, and of a row above `low` and up to the tablet's end row.
fn counts_in(low: Option<&Row>, tablet: &TabletRecord, mutation: &Mutation) -> bool
    ensures { result ≡ counts_in (option_copied low.entry) tablet.now mutation.now }
{
    mutation.table == tablet.table
        && tablet.time < mutation.time
        && is_within(low, tablet.end.as_ref(), &mutation.row)
}

/// Puts the mutations that count in the tablet, in their order.
fn put_counted(
    memory: &mut TabletMem,
    low: Option<&Row>,
    tablet: &TabletRecord,
    mutations: &[Mutation],
) -> Result<(), AllocError>
    requires { All IsLogged mutations.now }
    ensures { OnOk result (memory.new ≡ put_all memory.old (filter (counts_in (option_copied low.entry) tablet.now) mutations.now)) }
{
    for mutation in mutations {
        if counts_in(low, tablet, mutation) {
            memory.put(mutation)?;
        }
    }
    Ok(())
}

/// The memory of a tablet that is loaded: it begins at the tablet's bar and the greatest time of its files, and those of the
/// mutations are put that count in the tablet, in their order: of its table, past its bar, and of its rows above `low`. Given all
/// mutations of its logs, in any order, it is the tablet's memory.
///
/// Reads the files whose columns have no time, and stops as `greatest_time` does, and at want of memory beside it. Nothing
/// changes. Two calls of the host for each file that is read. Takes memory for copies of the cells that are put, and time with
/// the sizes of those files, the mutations, and n log n for n cells that are put.
pub fn load_memory<H: Host>(
    alloc: Global,
    ground: &mut Ground<H>,
    low: Option<&Row>,
    tablet: &TabletRecord,
    mutations: &[Mutation],
) -> Result<TabletMem, Stop>
    requires files { All IsFile tablet.now.files }
    requires bar { tablet.now.time < 2 ^ 63 }
    requires logged { All IsLogged mutations.now }
    ensures acts { Acts H.state Stays Stays (stop_of result) ground.old ground.new }
    ensures same { (ground.new.nodes ≡ ground.old.nodes) × (ground.new.logs ≡ ground.old.logs) }
    ensures loads { IfOk result (λ memory. IsLoaded (H.state ground.old.host) (option_copied low.entry) tablet.now mutations.now memory) }
    ensures past { IsTrue (H.state ground.old.host).is_faithful → (cells : List Cell) → HoldAll (H.state ground.old.host).files tablet.now.files cells → IfOk result (λ memory. All (λ cell. cell.time < next_time memory) cells) }
    ensures memory { (known : Known) (logged : List Cell) → memory_of known (option_copied low.entry) tablet.now ≡ Some logged → AreConsistent logged → AreInLogs known (option_copied low.entry) tablet.now mutations.now
        → IfOk result (λ memory. IsMemoryOf known (option_copied low.entry) tablet.now memory) }
    ensures stops { ground.old.stopped ≡ None → IfErr result (λ stop. FilesCause (untimed tablet.now.files) stop (H.state ground.old.host) (H.state ground.new.host)) }
{
    let greatest = greatest_time(ground, tablet)?;
    let mut memory = TabletMem::new(alloc, tablet.time, greatest);
    match put_counted(&mut memory, low, tablet, mutations) {
        Ok(()) => Ok(memory),
        Err(_) => Err(ground.stop(Stop::NoMemory)),
    }
}
