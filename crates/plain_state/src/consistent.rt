// Whether the root tablet and those of the metadata table are consistent.
ghost use Rattle.std.specs.Prelude.{◌≡◌, ◌≢◌, [], ◌∷◌, IfOk, IfErr, OnOk, MatchBool};
ghost use Rattle.store_meaning.specs.Levels.{IsReadingOf, metadata_id, root_rows, metadata_rows};
ghost use Rattle.store_meaning.specs.Readable.{HaveConsistentTablets};
ghost use Rattle.state_reader.specs.Still.{ground_of};
ghost use Rattle.state_reader.specs.Reads.{reading_of};
ghost use Rattle.plain_reader.specs.declared.fault.TableFault.TheVariants.{NoMemory};
ghost use Rattle.plain_state.specs.Causes.{StateCause};

use crate::fault::StateFault;
use metadata_schema::TabletRecord;
use plain_reader::{TableFault, table_parts};
use row_keys::TableId;
use state_reader::{StillGround, StoreReading};
use std::alloc::{AllocError, Global};
use store_layout::Mark;

const METADATA_TABLE: &[u8] = b"!0";

/// Whether it is want of memory.
pub fn is_no_memory(fault: &TableFault) -> bool
    ensures { MatchBool result (fault.now ≡ NoMemory) (fault.now ≢ NoMemory) }
{
    matches!(fault, TableFault::NoMemory)
}

/// A copy of the record, as a list of one.
fn alone(alloc: Global, root: &TabletRecord) -> Result<Vec<TabletRecord>, AllocError>
    ensures { IfOk result (λ records. records.items ≡ root.now ∷ []) }
{
    let mut records = Vec::new(alloc);
    records.push(root.copy(alloc)?)?;
    Ok(records)
}

/// Looks whether in the root tablet no two different cells have the same key and time.
pub fn check_root(alloc: Global, still: &StillGround, read: &StoreReading) -> Result<(), StateFault>
    requires { IsReadingOf (ground_of still.now) (reading_of read.now) }
    ensures ok { OnOk result (HaveConsistentTablets (ground_of still.now) (root_rows (reading_of read.now)) (read.now.root ∷ [])) }
    ensures cause { IfErr result (StateCause (ground_of still.now)) }
{
    let records = alone(alloc, &read.root)?;
    let fault = match table_parts(alloc, still, &read.root.table, &records, &Mark::Free) {
        Ok(_) => return Ok(()),
        Err(fault) => fault,
    };
    if is_no_memory(&fault) {
        return Err(StateFault::NoMemory);
    }
    Err(StateFault::Root(fault))
}

fn metadata_table(alloc: Global) -> Result<TableId, AllocError>
    ensures { IfOk result (λ table. table ≡ metadata_id) }
{
    let table = TableId::new(alloc, METADATA_TABLE)?;
    Ok(table.unwrap())
}

/// Looks whether in no tablet of `!0` two different cells have the same key and time.
pub fn check_metadata(
    alloc: Global,
    still: &StillGround,
    read: &StoreReading,
) -> Result<(), StateFault>
    requires { IsReadingOf (ground_of still.now) (reading_of read.now) }
    ensures ok { OnOk result (HaveConsistentTablets (ground_of still.now) (metadata_rows (reading_of read.now)) read.now.chain) }
    ensures cause { IfErr result (StateCause (ground_of still.now)) }
{
    let table = metadata_table(alloc)?;
    let records = read.metadata.records.as_slice();
    let fault = match table_parts(alloc, still, &table, records, &Mark::Free) {
        Ok(_) => return Ok(()),
        Err(fault) => fault,
    };
    if is_no_memory(&fault) {
        return Err(StateFault::NoMemory);
    }
    Err(StateFault::Metadata(fault))
}
