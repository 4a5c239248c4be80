// The columns that have one name each.
ghost use Rattle.std.specs.Prelude.{◌≡◌, ◌++◌, ◌<◌, ◌≤◌, ◌^◌, length, ℕ, List, Option, Some, IfOk, OnOk, IfSome, MatchResult, codes};
ghost use Rattle.std.specs.Option.{option_copied, option_map};
ghost use Rattle.std.specs.Fmt.{decimal};
ghost use Rattle.row_keys.specs.MetadataRow.{prev_value, IsPrevValue};
ghost use Rattle.metadata_schema.specs.Paths.{IsDirectory};
ghost use Rattle.metadata_schema.specs.Values.{bar_value, chopped_value, IsNumberText, IsBarValue};
ghost use Rattle.metadata_schema.specs.Columns.{at_most_one, column_at, is_named};
ghost use Rattle.metadata_schema.specs.Refusals.{Refuses};

use crate::fault::SchemaFault;
use crate::mutation::{Update, written};
use crate::numbers::{read_number, read_time};
use crate::paths::is_directory;
use row_keys::{KeyForm, Octets, Row, read_prev_value};
use std::alloc::{AllocError, Global};

pub(crate) const CHOPPED: &[u8] = b"chopped";

pub(crate) const SRV: &[u8] = b"srv";

pub(crate) const DIR: &[u8] = b"dir";

pub(crate) const TIME: &[u8] = b"time";

pub(crate) const TAB: &[u8] = b"~tab";

pub(crate) const MERGED: &[u8] = b"merged";

pub(crate) const OLD_PREV: &[u8] = b"oldprevrow";

pub(crate) const PREV: &[u8] = b"~pr";

fn is_named(update: &Update, family: &[u8], qualifier: &[u8]) -> bool
    ensures { result ≡ is_named family.now qualifier.now update.now }
{
    update.family.as_bytes() == family && update.qualifier.as_bytes() == qualifier
}

fn value_of(update: &Update) -> Option<&[u8]>
    ensures { option_copied result ≡ update.now.value }
{
    match &update.value {
        Some(value) => Some(value.as_bytes()),
        None => None,
    }
}

/// The value of the column of this name. Time goes with the number of columns.
pub(crate) fn value_at<'a>(
    updates: &'a [Update],
    family: &[u8],
    qualifier: &[u8],
) -> Option<&'a [u8]>
    ensures { option_copied result ≡ column_at updates.now family.now qualifier.now }
{
    for update in updates {
        if is_named(update, family, qualifier) {
            return value_of(update);
        }
    }
    None
}

/// Whether `chopped` stands there.
pub(crate) fn read_chopped(value: Option<&[u8]>) -> Result<bool, SchemaFault>
    ensures { MatchResult result (λ chopped. option_copied value.entry ≡ chopped_value chopped) (Refuses (IfSome (option_copied value.entry) (λ text. text ≡ codes "chopped"))) }
{
    match value {
        None => Ok(false),
        Some(text) if text == CHOPPED => Ok(true),
        Some(_) => Err(SchemaFault::BadValue),
    }
}

/// The transaction of a merge, where its column is there.
pub(crate) fn read_merged(alloc: Global, value: Option<&[u8]>) -> Result<Option<u64>, SchemaFault>
    ensures { MatchResult result (λ tid. (option_copied value.entry ≡ option_map decimal tid) × IfSome tid (λ number. number < 2 ^ 64)) (Refuses (IfSome (option_copied value.entry) IsNumberText)) }
{
    match value {
        None => Ok(None),
        Some(text) => {
            let tid = read_number(alloc, text)?;
            Ok(Some(tid))
        }
    }
}

/// The bar that a value says.
pub(crate) fn read_bar(alloc: Global, value: &[u8]) -> Result<u64, SchemaFault>
    ensures { MatchResult result (λ bar. (bar < 2 ^ 63) × (value.now ≡ bar_value bar)) (Refuses (IsBarValue value.now)) }
{
    match value {
        [b'L', text @ ..] => read_time(alloc, text),
        _ => Err(SchemaFault::BadValue),
    }
}

/// The directory that a value says.
pub(crate) fn read_directory(alloc: Global, value: &[u8]) -> Result<Octets, SchemaFault>
    ensures { MatchResult result (λ dir. (value.now ≡ dir) × IsDirectory dir) (Refuses (IsDirectory value.now)) }
{
    if !is_directory(value) {
        return Err(SchemaFault::BadValue);
    }
    let dir = Octets::new(alloc, value)?;
    Ok(dir)
}

/// The previous row that a value says.
pub(crate) fn read_prev(alloc: Global, value: &[u8]) -> Result<Option<Row>, SchemaFault>
    ensures { MatchResult result (λ prev. IsPrevValue prev value.now) (Refuses ((prev : Option (List ℕ)) × IsPrevValue prev value.now)) }
{
    let value = Octets::new(alloc, value)?;
    match read_prev_value(alloc, &value) {
        Ok(prev) => Ok(prev),
        Err(KeyForm::NoMemory) => Err(SchemaFault::NoMemory),
        Err(_) => Err(SchemaFault::BadValue),
    }
}

/// The previous row before a split, where its column is there.
pub(crate) fn read_old_prev(
    alloc: Global,
    value: Option<&[u8]>,
) -> Result<Option<Option<Row>>, SchemaFault>
    ensures { MatchResult result (λ old. (option_copied value.entry ≡ option_map prev_value old) × IfSome old (λ prev. IfSome prev (λ row. length row ≤ 300))) (Refuses (IfSome (option_copied value.entry) (λ text. (prev : Option (List ℕ)) × IsPrevValue prev text))) }
{
    match value {
        None => Ok(None),
        Some(value) => {
            let prev = read_prev(alloc, value)?;
            Ok(Some(prev))
        }
    }
}

/// The value of the bar.
pub(crate) fn bar_value(alloc: Global, bar: u64) -> Result<Octets, AllocError>
    ensures { IfOk result (λ value. value ≡ bar_value bar) }
{
    let text = format!(in alloc; "L{bar}")?;
    Octets::new(alloc, text.as_bytes())
}

/// Adds the column of this name.
pub(crate) fn push_single(
    alloc: Global,
    columns: &mut Vec<Update>,
    family: &[u8],
    qualifier: &[u8],
    value: Octets,
) -> Result<(), AllocError>
    ensures { OnOk result (columns.new.items ≡ columns.old.items ++ at_most_one family.now qualifier.now (Some value)) }
{
    Ok(columns.push(written(alloc, family, qualifier, value)?)?)
}
