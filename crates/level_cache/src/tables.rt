// Which level has a table's records.
ghost use Rattle.std.specs.Prelude.{◌≡◌, IfOk};
ghost use Rattle.store_meaning.specs.Levels.{metadata_id};
ghost use Rattle.level_cache.specs.Tables.{level_with};

use row_keys::TableId;
use state_reader::LevelKind;
use std::alloc::{AllocError, Global};

const ROOT_TABLE: &[u8] = b"+r";

const METADATA_TABLE: &[u8] = b"!0";

/// The level that has a table's records, or none for `+r`, whose one record is a node's.
pub fn level_with(table: &TableId) -> Option<LevelKind>
    ensures { result ≡ level_with table.now }
{
    let id = table.as_bytes();
    if id == ROOT_TABLE {
        return None;
    }
    if id == METADATA_TABLE {
        return Some(LevelKind::Metadata);
    }
    Some(LevelKind::Users)
}

/// The id of the metadata table.
pub fn metadata_table(alloc: Global) -> Result<TableId, AllocError>
    ensures { IfOk result (λ table. table ≡ metadata_id) }
{
    let table = TableId::new(alloc, METADATA_TABLE)?;
    Ok(table.unwrap())
}
