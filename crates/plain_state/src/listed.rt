// Whether the logs that are in use are listed and told.
ghost use Rattle.std.specs.Prelude.{IfOk, IfErr, OnOk, MatchBool, MatchOption, Contains};
ghost use Rattle.store_meaning.specs.Levels.{IsReadingOf};
ghost use Rattle.state_reader.specs.Still.{ground_of};
ghost use Rattle.state_reader.specs.Reads.{reading_of};
ghost use Rattle.plain_state.specs.Records.{AreRecords};
ghost use Rattle.plain_state.specs.Logs.{AreListed, AreAmong, IsMissing, HaveLogsAmong, AreTold};
ghost use Rattle.plain_state.specs.Causes.{StateCause};

use crate::fault::StateFault;
use metadata_schema::TabletRecord;
use row_keys::{LogName, Octets};
use state_reader::{StillGround, StoreReading, logs_of};
use std::alloc::{AllocError, Global};

/// Whether the log is one of these.
pub fn is_among(listed: &[Octets], log: &[u8]) -> bool
    ensures { MatchBool result (Contains listed.now log.now) (Contains listed.now log.now → ⊥) }
{
    for other in listed {
        if other.as_bytes() == log {
            return true;
        }
    }
    false
}

/// The first of these logs that isn't listed.
fn unlisted(
    alloc: Global,
    listed: &[Octets],
    logs: &[LogName],
) -> Result<Option<LogName>, AllocError>
    ensures { IfOk result (λ found. MatchOption found (AreAmong listed.now logs.now) (IsMissing listed.now logs.now)) }
{
    for log in logs {
        if !is_among(listed, log.as_bytes()) {
            return Ok(Some(log.copy(alloc)?));
        }
    }
    Ok(None)
}

/// Looks whether each log that a record names is listed.
pub fn check_listed(
    alloc: Global,
    still: &StillGround,
    read: &StoreReading,
    records: &[TabletRecord],
    listed: &[Octets],
) -> Result<(), StateFault>
    requires levels { IsReadingOf (ground_of still.now) (reading_of read.now) }
    requires records { AreRecords (reading_of read.now) records.now }
    requires listed { AreListed still.now.nodes.nodes listed.now }
    ensures ok { OnOk result (HaveLogsAmong listed.now records.now) }
    ensures cause { IfErr result (StateCause (ground_of still.now)) }
{
    for tablet in records {
        let logs = logs_of(alloc, tablet)?;
        if let Some(log) = unlisted(alloc, listed, &logs)? {
            return Err(StateFault::Unlisted(log));
        }
    }
    Ok(())
}

/// Looks whether each log that is listed is told.
pub fn check_told(alloc: Global, still: &StillGround, listed: &[Octets]) -> Result<(), StateFault>
    requires { AreListed still.now.nodes.nodes listed.now }
    ensures ok { OnOk result (AreTold (ground_of still.now) listed.now) }
    ensures cause { IfErr result (StateCause (ground_of still.now)) }
{
    for log in listed {
        if still.logs.get_bytes(log.as_bytes()).is_none() {
            return Err(StateFault::LacksLog(log.copy(alloc)?));
        }
    }
    Ok(())
}
