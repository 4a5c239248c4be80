// The levels of a ground.
ghost use Rattle.std.specs.Prelude.{◌≡◌, ◌≢◌, [], ◌∷◌, Some, IfOk, IfErr};
ghost use Rattle.store_meaning.specs.Content.{contents_of};
ghost use Rattle.store_meaning.specs.Levels.{IsRootRecord, IsLevelOf, IsReadingOf, IsMetadataTable, metadata_id};
ghost use Rattle.row_keys.specs.Forms.{IsTableId};
ghost use Rattle.state_reader.specs.declared.store_reading.ReadFault.TheVariants.{LongRoot, NoMemory};
ghost use Rattle.state_reader.specs.Still.{ground_of};
ghost use Rattle.state_reader.specs.LevelRows.{level_of};
ghost use Rattle.state_reader.specs.Reads.{AreRootCells, IsMetadataLevel, IsMetadataChain, AreMetadataCells, ReadCause, HasNoReading, reading_of};

use crate::chains::chain_cells;
use crate::level::{LevelFault, LevelKind, LevelRows};
use crate::reading_level::read_level;
use crate::root::read_root;
use crate::still::StillGround;
use crate::store_reading::{ChainFault, ReadFault, StoreReading};
use cell_merge::{Cell, Cells};
use level_rows::{chain, effective_prev};
use metadata_schema::TabletRecord;
use row_keys::{ListOf, TableId};
use std::alloc::{AllocError, Global};

const METADATA_TABLE: &[u8] = b"!0";

/// A copy of the record, as a list of one.
fn alone(alloc: Global, root: &TabletRecord) -> Result<Vec<TabletRecord>, AllocError>
    ensures { IfOk result (λ records. records.items ≡ root.now ∷ []) }
{
    let mut records = Vec::new(alloc);
    records.push(root.copy(alloc)?)?;
    Ok(records)
}

/// The cells of the root tablet.
fn root_cells(alloc: Global, still: &StillGround, root: &TabletRecord) -> Result<Cells, ReadFault>
    requires { IsRootRecord still.now.nodes.nodes root.now }
    ensures ok { IfOk result (AreRootCells (ground_of still.now) root.now) }
    ensures cause { IfErr result (ReadCause (ground_of still.now)) }
{
    let records = alone(alloc, root)?;
    if let Some(low) = effective_prev(alloc, root, &records)? {
        return Err(ReadFault::BoundedRoot(low));
    }
    match chain_cells(alloc, still, &root.table, &records, &records) {
        Ok(cells) => Ok(cells),
        Err(ChainFault::Lacks(_, untold)) => Err(ReadFault::RootLacks(untold)),
        Err(ChainFault::NoMemory) => Err(ReadFault::NoMemory),
    }
}

/// What the cells of the root tablet tell of `!0`.
fn metadata_level(
    alloc: Global,
    still: &StillGround,
    root: &TabletRecord,
    cells: &[Cell],
) -> Result<LevelRows, ReadFault>
    requires { AreRootCells (ground_of still.now) root.now cells.now }
    ensures ok { IfOk result (λ rows. IsLevelOf IsMetadataTable cells.now (level_of rows)) }
    ensures cause { IfErr result (ReadCause (ground_of still.now)) }
{
    match read_level(alloc, LevelKind::Metadata, cells) {
        Ok(rows) => Ok(rows),
        Err(LevelFault::Bad(row)) => Err(ReadFault::BadMetadata(row)),
        Err(LevelFault::NoMemory) => Err(ReadFault::NoMemory),
    }
}

fn metadata_table(alloc: Global) -> Result<TableId, AllocError>
    ensures { IfOk result (λ table. table ≡ metadata_id) }
{
    let table = TableId::new(alloc, METADATA_TABLE)?;
    Ok(table.unwrap())
}

/// The tablets of `!0`, from the last one down.
fn metadata_chain(
    alloc: Global,
    still: &StillGround,
    rows: &LevelRows,
) -> Result<Vec<TabletRecord>, ReadFault>
    requires { IsMetadataLevel (ground_of still.now) (level_of rows.now) }
    ensures ok { IfOk result (λ tablets. IsMetadataChain (ground_of still.now) (level_of rows.now) tablets.items) }
    ensures cause { IfErr result (ReadCause (ground_of still.now)) }
{
    let table = metadata_table(alloc)?;
    let Some(mut tablets) = chain(alloc, &table, rows.records.as_slice())? else {
        return Err(ReadFault::NoChain);
    };
    tablets.reverse();
    Ok(tablets)
}

/// The cells of the tablets of `!0`.
fn metadata_cells(
    alloc: Global,
    still: &StillGround,
    rows: &LevelRows,
    tablets: &[TabletRecord],
) -> Result<Cells, ReadFault>
    requires { IsMetadataChain (ground_of still.now) (level_of rows.now) tablets.now }
    ensures ok { IfOk result (λ cells. contents_of (ground_of still.now) ((level_of rows.now).records metadata_id) tablets.now ≡ Some cells) }
    ensures cause { IfErr result (ReadCause (ground_of still.now)) }
{
    let table = metadata_table(alloc)?;
    match chain_cells(alloc, still, &table, rows.records.as_slice(), tablets) {
        Ok(cells) => Ok(cells),
        Err(ChainFault::Lacks(end, untold)) => Err(ReadFault::MetadataLacks(end, untold)),
        Err(ChainFault::NoMemory) => Err(ReadFault::NoMemory),
    }
}

/// What the cells of `!0` tell of all tables.
fn users_level(alloc: Global, still: &StillGround, cells: &[Cell]) -> Result<LevelRows, ReadFault>
    requires { AreMetadataCells (ground_of still.now) cells.now }
    ensures ok { IfOk result (λ rows. IsLevelOf IsTableId cells.now (level_of rows)) }
    ensures cause { IfErr result (ReadCause (ground_of still.now)) }
{
    match read_level(alloc, LevelKind::Users, cells) {
        Ok(rows) => Ok(rows),
        Err(LevelFault::Bad(row)) => Err(ReadFault::BadUsers(row)),
        Err(LevelFault::NoMemory) => Err(ReadFault::NoMemory),
    }
}

fn read_levels(alloc: Global, still: &StillGround) -> Result<StoreReading, ReadFault>
    ensures ok { IfOk result (λ read. IsReadingOf (ground_of still.now) (reading_of read)) }
    ensures cause { IfErr result (ReadCause (ground_of still.now)) }
{
    let root = read_root(alloc, still)?;
    let root_cells = root_cells(alloc, still, &root)?;
    let metadata = metadata_level(alloc, still, &root, root_cells.as_slice())?;
    let tablets = metadata_chain(alloc, still, &metadata)?;
    let metadata_cells = metadata_cells(alloc, still, &metadata, &tablets)?;
    let users = users_level(alloc, still, metadata_cells.as_slice())?;
    Ok(StoreReading {
        root,
        root_cells,
        metadata,
        chain: ListOf::from_vec(tablets),
        metadata_cells,
        users,
    })
}

/// What a ground tells, level by level: the node `/root` gives the record of the root tablet, its cells those of `!0`, and the
/// cells of the chain of `!0` those of all tables. Each fault but `LongRoot` and want of memory comes only where the ground has no
/// reading, and names what is to blame: the node, a tablet's bound, a file or log that a tablet names and of which nothing is told,
/// a row of cells, or the chain. Takes memory for copies of all cells and records, and time with the square of their number.
pub fn read(alloc: Global, still: &StillGround) -> Result<StoreReading, ReadFault>
    ensures ok { IfOk result (λ read. IsReadingOf (ground_of still.now) (reading_of read)) }
    ensures cause { IfErr result (ReadCause (ground_of still.now)) }
    ensures none { IfErr result (λ fault. fault ≢ NoMemory → fault ≢ LongRoot → HasNoReading (ground_of still.now)) }
{
    read_levels(alloc, still)
}
