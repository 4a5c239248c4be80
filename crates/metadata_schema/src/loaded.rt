// The columns of files that bulk imports put into a tablet.
ghost use Rattle.std.specs.Prelude.{◌≡◌, ◌++◌, OnOk, MatchResult, codes, map};
ghost use Rattle.std.specs.List.{All};
ghost use Rattle.metadata_schema.specs.Kinds.{IsColumn, IsValued};
ghost use Rattle.metadata_schema.specs.Columns.{loaded_column};
ghost use Rattle.metadata_schema.specs.Records.{IsLoaded};
ghost use Rattle.metadata_schema.specs.Refusals.{Refuses, of_family};

use crate::fault::SchemaFault;
use crate::lists::push_item;
use crate::mutation::{Update, written};
use crate::numbers::{number_value, read_number};
use crate::tablet::{LoadedEntries, LoadedEntry};
use row_keys::{ListOf, Path};
use std::alloc::{AllocError, Global};

const LOADED: &[u8] = b"loaded";

fn read_one(alloc: Global, update: &Update) -> Result<LoadedEntry, SchemaFault>
    requires family { update.now.family ≡ codes "loaded" }
    requires column { IsColumn update.now.family update.now.qualifier }
    ensures { MatchResult result (λ entry. (loaded_column entry ≡ update.now) × IsLoaded entry) (Refuses (IsValued update.now)) }
{
    let Some(value) = &update.value else {
        return Err(SchemaFault::BadValue);
    };
    let Some(path) = Path::new(alloc, update.qualifier.as_bytes())? else {
        return Err(SchemaFault::BadValue);
    };
    let tid = read_number(alloc, value.as_bytes())?;
    Ok(LoadedEntry { path, tid })
}

/// The loaded entries of these columns. Time goes with the number of columns, and memory with that of entries.
pub(crate) fn read_loaded(alloc: Global, updates: &[Update]) -> Result<LoadedEntries, SchemaFault>
    requires { All (λ update. IsColumn update.family update.qualifier) updates.now }
    ensures { MatchResult result (λ entries. (map loaded_column entries ≡ of_family (codes "loaded") updates.now) × All IsLoaded entries) (Refuses (All IsValued updates.now)) }
{
    let mut entries = Vec::new(alloc);
    for update in updates {
        if update.family.as_bytes() == LOADED {
            let entry = read_one(alloc, update)?;
            push_item(&mut entries, entry)?;
        }
    }
    Ok(ListOf::from_vec(entries))
}

/// Adds the columns of these entries.
pub(crate) fn push_loaded(
    alloc: Global,
    columns: &mut Vec<Update>,
    entries: &[LoadedEntry],
) -> Result<(), AllocError>
    ensures { OnOk result (columns.new.items ≡ columns.old.items ++ map loaded_column entries.now) }
{
    for entry in entries {
        let value = number_value(alloc, entry.tid)?;
        columns.push(written(alloc, LOADED, entry.path.as_bytes(), value)?)?;
    }
    Ok(())
}
