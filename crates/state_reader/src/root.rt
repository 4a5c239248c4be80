// The record of the root tablet.
ghost use Rattle.std.specs.Prelude.{◌≡◌, ◌≢◌, ◌<◌, ◌^◌, length, None, IfOk, IfErr, IsSome, IsErr, MatchBool, MatchOption};
ghost use Rattle.std.specs.List.{All};
ghost use Rattle.row_keys.specs.MetadataRow.{metadata_row};
ghost use Rattle.metadata_schema.specs.Refusals.{IsTabletRow};
ghost use Rattle.store_layout.specs.Nodes.{root_path};
ghost use Rattle.store_meaning.specs.Levels.{root_id, IsRootRecord};
ghost use Rattle.state_reader.specs.Still.{ground_of};
ghost use Rattle.state_reader.specs.Roots.{IsRootValue, IsNoRootValue, SpellsColumns};
ghost use Rattle.state_reader.specs.Reads.{ReadCause, RootCause, HasLongRoot};

use crate::records::is_no_memory;
use crate::still::StillGround;
use crate::store_reading::ReadFault;
use log_files::take_updates;
use metadata_schema::{TabletRecord, Update, record_of};
use node_store::NodeStore;
use row_keys::{Path, Row, TableId, metadata_row};
use std::alloc::{AllocError, Global};

const ROOT: &[u8] = b"/root";

const ROOT_TABLE: &[u8] = b"+r";

/// No value of `/root` reaches this length.
const END_OF_LENGTHS: usize = 1 << 32;

/// Whether each update writes a value.
fn are_written(updates: &[Update]) -> bool
    ensures { MatchBool result (All (λ update. IsSome update.value) updates.now) (All (λ update. IsSome update.value) updates.now → ⊥) }
{
    for update in updates {
        if update.value.is_none() {
            return false;
        }
    }
    true
}

/// The columns that a value spells, or none where it is no record of the root tablet.
fn spelled_columns(alloc: Global, value: &[u8]) -> Result<Option<Vec<Update>>, AllocError>
    requires { length value.now < 2 ^ 32 }
    ensures { IfOk result (λ found. MatchOption found (IsNoRootValue value.now) (λ columns. SpellsColumns value.now columns.items)) }
{
    let Some((columns, rest)) = take_updates(alloc, value)? else {
        return Ok(None);
    };
    if !rest.is_empty() {
        return Ok(None);
    }
    if !are_written(&columns) {
        return Ok(None);
    }
    Ok(Some(columns))
}

fn root_table(alloc: Global) -> Result<TableId, AllocError>
    ensures { IfOk result (λ table. table ≡ root_id) }
{
    let table = TableId::new(alloc, ROOT_TABLE)?;
    Ok(table.unwrap())
}

/// The metadata row of the root tablet.
fn root_row(alloc: Global) -> Result<Row, AllocError>
    ensures is { IfOk result (λ row. row ≡ metadata_row root_id None) }
    ensures tablet { IfOk result IsTabletRow }
{
    let table = root_table(alloc)?;
    metadata_row(alloc, &table, None)
}

/// The record of the root tablet that a value is, or none where it is none.
fn root_of(alloc: Global, value: &[u8]) -> Result<Option<TabletRecord>, AllocError>
    requires { length value.now < 2 ^ 32 }
    ensures { IfOk result (λ found. MatchOption found (IsNoRootValue value.now) (IsRootValue value.now)) }
{
    let Some(columns) = spelled_columns(alloc, value)? else {
        return Ok(None);
    };
    let row = root_row(alloc)?;
    let fault = match record_of(alloc, &row, &columns) {
        Ok(root) => return Ok(Some(root)),
        Err(fault) => fault,
    };
    if is_no_memory(fault) {
        return Err(AllocError);
    }
    Ok(None)
}

fn root_path(alloc: Global) -> Result<Path, AllocError>
    ensures { IfOk result (λ path. path ≡ root_path) }
{
    let path = Path::new(alloc, ROOT)?;
    Ok(path.unwrap())
}

/// The record of the root tablet, as the node `/root` has it. `NoRoot` comes exactly where it has none, but for a value of 2^32 bytes
/// or more, of which `LongRoot` tells; beside these there is want of memory alone. Takes memory for the record, and time with the
/// length of the value.
pub fn root_record(alloc: Global, nodes: &NodeStore) -> Result<TabletRecord, ReadFault>
    ensures ok { IfOk result (IsRootRecord nodes.now.nodes) }
    ensures cause { IfErr result (RootCause nodes.now.nodes) }
    ensures long { HasLongRoot nodes.now.nodes → IsErr result }
{
    let path = root_path(alloc)?;
    let Some(node) = nodes.get(&path) else {
        return Err(ReadFault::NoRoot);
    };
    let value = node.value.as_bytes();
    if value.len() >= END_OF_LENGTHS {
        return Err(ReadFault::LongRoot);
    }
    match root_of(alloc, value)? {
        Some(root) => Ok(root),
        None => Err(ReadFault::NoRoot),
    }
}

/// The record of the root tablet, as the nodes of a ground have it.
pub fn read_root(alloc: Global, still: &StillGround) -> Result<TabletRecord, ReadFault>
    ensures ok { IfOk result (IsRootRecord still.now.nodes.nodes) }
    ensures cause { IfErr result (ReadCause (ground_of still.now)) }
{
    root_record(alloc, &still.nodes)
}
