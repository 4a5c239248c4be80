// The columns of write-ahead logs.
ghost use Rattle.std.specs.Prelude.{◌≡◌, ◌++◌, OnOk, MatchResult, codes, map, drop};
ghost use Rattle.std.specs.List.{All};
ghost use Rattle.row_keys.specs.Forms.{IsLogName};
ghost use Rattle.metadata_schema.specs.Kinds.{IsColumn, IsValued};
ghost use Rattle.metadata_schema.specs.Columns.{log_column};
ghost use Rattle.metadata_schema.specs.Refusals.{Refuses, of_family};

use crate::fault::SchemaFault;
use crate::lists::push_item;
use crate::mutation::{Update, written};
use crate::tablet::LogNames;
use row_keys::{ListOf, LogName, Octets};
use std::alloc::{AllocError, Global};

const LOG: &[u8] = b"log";

const PREFIX: usize = 4;

/// The session in a log's name.
fn session_of(log: &[u8]) -> &[u8]
    ensures { result.now ≡ drop 4 log.now }
{
    match log.get(PREFIX..) {
        Some(session) => session,
        None => &[],
    }
}

fn read_one(alloc: Global, update: &Update) -> Result<LogName, SchemaFault>
    requires family { update.now.family ≡ codes "log" }
    requires column { IsColumn update.now.family update.now.qualifier }
    ensures { MatchResult result (λ log. (log_column log ≡ update.now) × IsLogName log) (Refuses (IsValued update.now)) }
{
    let Some(value) = &update.value else {
        return Err(SchemaFault::BadValue);
    };
    let Some(log) = LogName::new(alloc, update.qualifier.as_bytes())? else {
        return Err(SchemaFault::BadValue);
    };
    if value.as_bytes() == session_of(update.qualifier.as_bytes()) {
        Ok(log)
    } else {
        Err(SchemaFault::BadValue)
    }
}

/// The logs of these columns. Time goes with the number of columns, and memory with that of logs.
pub(crate) fn read_logs(alloc: Global, updates: &[Update]) -> Result<LogNames, SchemaFault>
    requires { All (λ update. IsColumn update.family update.qualifier) updates.now }
    ensures { MatchResult result (λ logs. (map log_column logs ≡ of_family (codes "log") updates.now) × All IsLogName logs) (Refuses (All IsValued updates.now)) }
{
    let mut logs = Vec::new(alloc);
    for update in updates {
        if update.family.as_bytes() == LOG {
            let log = read_one(alloc, update)?;
            push_item(&mut logs, log)?;
        }
    }
    Ok(ListOf::from_vec(logs))
}

/// Adds the columns of these logs.
pub(crate) fn push_logs(
    alloc: Global,
    columns: &mut Vec<Update>,
    logs: &[LogName],
) -> Result<(), AllocError>
    ensures { OnOk result (columns.new.items ≡ columns.old.items ++ map log_column logs.now) }
{
    for log in logs {
        let session = Octets::new(alloc, session_of(log.as_bytes()))?;
        columns.push(written(alloc, LOG, log.as_bytes(), session)?)?;
    }
    Ok(())
}
