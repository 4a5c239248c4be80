// Whether the files and logs that records and flags name are told.
ghost use Rattle.std.specs.Prelude.{IfOk, IfErr, OnOk, MatchOption};
ghost use Rattle.store_meaning.specs.Levels.{IsReadingOf};
ghost use Rattle.state_reader.specs.Still.{ground_of};
ghost use Rattle.state_reader.specs.Reads.{reading_of};
ghost use Rattle.plain_state.specs.Records.{AreRecords, AreAllTold, AreFlagsTold, LacksFlag};
ghost use Rattle.plain_state.specs.Causes.{StateCause};

use crate::fault::StateFault;
use metadata_schema::TabletRecord;
use row_keys::Path;
use state_reader::{LoadFlag, StillGround, StoreReading, untold};
use std::alloc::{AllocError, Global};

/// Looks whether all files and logs that the records of a reading name are told.
pub fn check_records(
    alloc: Global,
    still: &StillGround,
    read: &StoreReading,
    records: &[TabletRecord],
) -> Result<(), StateFault>
    requires levels { IsReadingOf (ground_of still.now) (reading_of read.now) }
    requires records { AreRecords (reading_of read.now) records.now }
    ensures ok { OnOk result (AreAllTold (ground_of still.now) records.now) }
    ensures cause { IfErr result (StateCause (ground_of still.now)) }
{
    for tablet in records {
        if let Some(untold) = untold(alloc, still, tablet)? {
            return Err(StateFault::Lacks(untold));
        }
    }
    Ok(())
}

/// The first file for which one of these flags stands and of which nothing is told.
fn untold_flag(
    alloc: Global,
    still: &StillGround,
    flags: &[LoadFlag],
) -> Result<Option<Path>, AllocError>
    ensures { IfOk result (λ found. MatchOption found (AreFlagsTold (ground_of still.now) flags.now) (LacksFlag (ground_of still.now) flags.now)) }
{
    for flag in flags {
        if still.files.get(&flag.path).is_none() {
            return Ok(Some(flag.path.copy(alloc)?));
        }
    }
    Ok(None)
}

/// Looks whether the files for which flags stand are told, on both levels.
pub fn check_flags(
    alloc: Global,
    still: &StillGround,
    read: &StoreReading,
) -> Result<(), StateFault>
    requires { IsReadingOf (ground_of still.now) (reading_of read.now) }
    ensures metadata { OnOk result (AreFlagsTold (ground_of still.now) read.now.metadata.flags) }
    ensures users { OnOk result (AreFlagsTold (ground_of still.now) read.now.users.flags) }
    ensures cause { IfErr result (StateCause (ground_of still.now)) }
{
    if let Some(path) = untold_flag(alloc, still, read.metadata.flags.as_slice())? {
        return Err(StateFault::LacksFlagged(path));
    }
    if let Some(path) = untold_flag(alloc, still, read.users.flags.as_slice())? {
        return Err(StateFault::LacksFlagged(path));
    }
    Ok(())
}
