// The cells of a table's tablets.
ghost use Rattle.std.specs.Prelude.{◌≡◌, None, All, IfErr, IfOk, IsTrue, OnOk};
ghost use Rattle.std.specs.Option.{option_copied};
ghost use Rattle.level_rows.specs.Chain.{rows_of};
ghost use Rattle.store_meaning.specs.Levels.{IsRecordAt};
ghost use Rattle.ground_store.specs.Acts.{Acts, stop_of};
ghost use Rattle.ground_store.specs.Steps.{Stays};
ghost use Rattle.hosted_memories.specs.Hosted.{memories_of};
ghost use Rattle.level_scan.specs.Tablets.{row_of, IsHosted, AreHosted, HoldsTablet, HoldTablets};
ghost use Rattle.level_scan.specs.Causes.{UnhostedCause, TabletCause, CellsCause};

use crate::nodes_fault::NodesFault;
use crate::stopping::stop_ground;
use cell_merge::Cell;
use ground_store::Ground;
use host_model::{Host, Stop};
use hosted_memories::HostedMemories;
use level_rows::effective_prev;
use metadata_schema::TabletRecord;
use row_keys::{TableId, metadata_row};
use std::alloc::Global;
use tablet_mem::TabletMem;
use tablet_scan::tablet_cells;

/// The memory of a tablet.
fn memory_of<'a>(
    alloc: Global,
    memories: &'a HostedMemories,
    tablet: &TabletRecord,
) -> Result<&'a TabletMem, NodesFault>
    requires { IsRecordAt tablet.now.table tablet.now.end tablet.now }
    ensures ok { IfOk result (λ memory. memories_of memories.now (row_of tablet.now) ≡ Some memory.now) }
    ensures cause { IfErr result (UnhostedCause (memories_of memories.now) tablet.now) }
{
    let row = metadata_row(alloc, &tablet.table, tablet.end.as_ref())?;
    match memories.get(&row) {
        Some(memory) => Ok(memory),
        None => Err(NodesFault::Damaged),
    }
}

/// The cells of a tablet among the records of its table: those of its files and, behind them, those of its memory.
fn hosted_cells<H: Host>(
    alloc: Global,
    ground: &mut Ground<H>,
    records: &[TabletRecord],
    tablet: &TabletRecord,
    memories: &HostedMemories,
) -> Result<Vec<Cell>, Stop>
    requires { IsRecordAt tablet.now.table tablet.now.end tablet.now }
    ensures acts { Acts H.state Stays Stays (stop_of result) ground.old ground.new }
    ensures same { (ground.new.nodes ≡ ground.old.nodes) × (ground.new.logs ≡ ground.old.logs) }
    ensures holds { IsTrue (H.state ground.old.host).is_faithful
        → IfOk result (λ cells. HoldsTablet (H.state ground.old.host).files (rows_of tablet.now.table records.now) (memories_of memories.now) tablet.now cells.items) }
    ensures hosted { OnOk result (IsHosted (memories_of memories.now) tablet.now) }
    ensures stops { ground.old.stopped ≡ None → IfErr result (λ stop. TabletCause (memories_of memories.now) tablet.now stop (H.state ground.old.host) (H.state ground.new.host)) }
{
    ground.check()?;
    let memory = match memory_of(alloc, memories, tablet) {
        Ok(memory) => memory,
        Err(fault) => return Err(stop_ground(alloc, ground, fault)),
    };
    let low = match effective_prev(alloc, tablet, records) {
        Ok(low) => low,
        Err(_) => return Err(ground.stop(Stop::NoMemory)),
    };
    tablet_cells(alloc, ground, low.as_ref(), tablet, memory)
}

/// The cells of these tablets of a table, one tablet's behind the other's. The first that has no memory, or a bad file, ends the
/// reading.
pub fn chain_cells<H: Host>(
    alloc: Global,
    ground: &mut Ground<H>,
    table: &TableId,
    records: &[TabletRecord],
    chain: &[TabletRecord],
    memories: &HostedMemories,
) -> Result<Vec<Cell>, Stop>
    requires { All (λ tablet. IsRecordAt table.now tablet.end tablet) chain.now }
    ensures acts { Acts H.state Stays Stays (stop_of result) ground.old ground.new }
    ensures same { (ground.new.nodes ≡ ground.old.nodes) × (ground.new.logs ≡ ground.old.logs) }
    ensures hold { IsTrue (H.state ground.old.host).is_faithful
        → IfOk result (λ cells. HoldTablets (H.state ground.old.host).files (rows_of table.now records.now) (memories_of memories.now) chain.now cells.items) }
    ensures hosted { OnOk result (AreHosted (memories_of memories.now) chain.now) }
    ensures stops { ground.old.stopped ≡ None
        → IfErr result (λ stop. CellsCause (rows_of table.now records.now) (memories_of memories.now) chain.now stop (H.state ground.old.host) (H.state ground.new.host)) }
{
    ground.check()?;
    let mut all = Vec::new(alloc);
    for tablet in chain {
        let mut cells = hosted_cells(alloc, ground, records, tablet, memories)?;
        if all.append(&mut cells).is_err() {
            return Err(ground.stop(Stop::NoMemory));
        }
    }
    Ok(all)
}
