// The tablets of a table.
ghost use Rattle.std.specs.Prelude.{◌≡◌, [], ◌∷◌, All, IfOk, IfErr};
ghost use Rattle.level_rows.specs.Chain.{rows_of, IsChain};
ghost use Rattle.store_meaning.specs.Levels.{IsRecordAt, metadata_id};
ghost use Rattle.level_index.specs.Entries.{level_of};
ghost use Rattle.level_scan.specs.Causes.{NoChainCause};
ghost use Rattle.level_scan.specs.Levels.{own_rows};

use crate::nodes_fault::NodesFault;
use level_index::LevelIndex;
use level_rows::chain;
use metadata_schema::TabletRecord;
use row_keys::{ListOf, TableId};
use std::alloc::{AllocError, Global};

const METADATA_TABLE: &[u8] = b"!0";

/// The records of a table, and those of its chain, from the last tablet down.
#[derive(Drop)]
pub struct TableTablets {
    pub table: TableId,
    pub records: ListOf<TabletRecord>,
    pub chain: ListOf<TabletRecord>,
}

/// A copy of the record, as a list of one.
fn alone(alloc: Global, root: &TabletRecord) -> Result<Vec<TabletRecord>, AllocError>
    ensures { IfOk result (λ records. records.items ≡ root.now ∷ []) }
{
    let mut records = Vec::new(alloc);
    records.push(root.copy(alloc)?)?;
    Ok(records)
}

/// The root tablet alone.
pub fn root_alone(alloc: Global, root: &TabletRecord) -> Result<TableTablets, AllocError>
    ensures table { IfOk result (λ tablets. tablets.table ≡ root.now.table) }
    ensures records { IfOk result (λ tablets. tablets.records ≡ root.now ∷ []) }
    ensures chain { IfOk result (λ tablets. tablets.chain ≡ root.now ∷ []) }
{
    Ok(TableTablets {
        table: root.table.copy(alloc)?,
        records: ListOf::from_vec(alone(alloc, root)?),
        chain: ListOf::from_vec(alone(alloc, root)?),
    })
}

fn metadata_table(alloc: Global) -> Result<TableId, AllocError>
    ensures { IfOk result (λ table. table ≡ metadata_id) }
{
    let table = TableId::new(alloc, METADATA_TABLE)?;
    Ok(table.unwrap())
}

/// The tablets of `!0`.
pub fn metadata_tablets(alloc: Global, metadata: &LevelIndex) -> Result<TableTablets, NodesFault>
    ensures rows { IfOk result (λ tablets. rows_of tablets.table tablets.records ≡ own_rows (level_of metadata.now)) }
    ensures chain { IfOk result (λ tablets. IsChain (own_rows (level_of metadata.now)) tablets.chain) }
    ensures at { IfOk result (λ tablets. All (λ tablet. IsRecordAt tablets.table tablet.end tablet) tablets.chain) }
    ensures cause { IfErr result (NoChainCause (own_rows (level_of metadata.now))) }
{
    let table = metadata_table(alloc)?;
    let records = metadata.records_of(alloc, &table)?;
    let Some(mut tablets) = chain(alloc, &table, &records)? else {
        return Err(NodesFault::Damaged);
    };
    tablets.reverse();
    Ok(TableTablets {
        table,
        records: ListOf::from_vec(records),
        chain: ListOf::from_vec(tablets),
    })
}
