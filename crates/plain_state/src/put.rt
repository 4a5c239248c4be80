// The ONLINE tables in a plain state.
ghost use Rattle.std.specs.Prelude.{◌≡◌, false, IfErr, OnOk};
ghost use Rattle.plain_model.specs.Apply.{has_name};
ghost use Rattle.level_rows.specs.Chain.{rows_of};
ghost use Rattle.store_meaning.specs.Levels.{IsReadingOf};
ghost use Rattle.store_meaning.specs.Stands.{is_online};
ghost use Rattle.state_reader.specs.Still.{ground_of};
ghost use Rattle.state_reader.specs.Reads.{reading_of};
ghost use Rattle.plain_reader.specs.Tables.{PutsTable};
ghost use Rattle.plain_model.specs.State.{nothing};
ghost use Rattle.plain_state.specs.Catalogs.{AreAllTables};
ghost use Rattle.plain_state.specs.States.{ArePut, TableFails, PutFails};
ghost use Rattle.plain_state.specs.Causes.{StateCause};

use crate::consistent::is_no_memory;
use crate::fault::StateFault;
use metadata_schema::TabletRecord;
use plain_model::PlainStore;
use plain_reader::{PutFault, put_table};
use state_reader::{StillGround, StoreReading};
use std::alloc::Global;
use store_layout::{TableNode, TableState};

fn is_online(state: TableState) -> bool
    ensures { result ≡ is_online state }
{
    match state {
        TableState::Online => true,
        TableState::New | TableState::Deleting => false,
    }
}

/// Puts a table into a state, as the ground stands for it.
fn put(
    alloc: Global,
    still: &StillGround,
    records: &[TabletRecord],
    node: &TableNode,
    state: &mut PlainStore,
) -> Result<(), StateFault>
    ensures ok { OnOk result (PutsTable (ground_of still.now) (rows_of node.now.id records.now) node.now state.old state.new) }
    ensures free { OnOk result (has_name node.now.name state.old ≡ false) }
    ensures fails { IfErr result (PutFails (ground_of still.now) (rows_of node.now.id records.now) node.now state.old) }
{
    let fault = match put_table(alloc, still, records, node, state) {
        Ok(()) => return Ok(()),
        Err(PutFault::NoMemory) => return Err(StateFault::NoMemory),
        Err(PutFault::NameTaken) => return Err(StateFault::NameTaken(node.name.copy(alloc)?)),
        Err(PutFault::Table(fault)) => fault,
    };
    if is_no_memory(&fault) {
        return Err(StateFault::NoMemory);
    }
    Err(StateFault::Table(node.id.copy(alloc)?, fault))
}

/// Puts the ONLINE ones of these tables into a state that has nothing.
pub fn put_tables(
    alloc: Global,
    still: &StillGround,
    read: &StoreReading,
    tables: &[TableNode],
    state: &mut PlainStore,
) -> Result<(), StateFault>
    requires levels { IsReadingOf (ground_of still.now) (reading_of read.now) }
    requires tables { AreAllTables still.now.nodes.nodes tables.now }
    requires nothing { state.old ≡ nothing }
    ensures ok { OnOk result (ArePut (ground_of still.now) (reading_of read.now) tables.now state.new) }
    ensures cause { IfErr result (StateCause (ground_of still.now)) }
{
    for table in tables {
        if is_online(table.state) {
            put(alloc, still, read.users.records.as_slice(), table, state)?;
        }
    }
    Ok(())
}
