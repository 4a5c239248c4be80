// Whether all logs are as they have to be.
ghost use Rattle.std.specs.Prelude.{IfErr, OnOk};
ghost use Rattle.store_meaning.specs.Levels.{IsReadingOf};
ghost use Rattle.state_reader.specs.Still.{ground_of};
ghost use Rattle.state_reader.specs.Reads.{reading_of};
ghost use Rattle.plain_state.specs.Records.{AreRecords};
ghost use Rattle.plain_state.specs.Read.{AreLogsThere};
ghost use Rattle.plain_state.specs.Causes.{StateCause};

use crate::fault::StateFault;
use crate::listed::{check_listed, check_told};
use crate::log_nodes::{listed, listed_sorted};
use crate::sorted::check_sorted;
use metadata_schema::TabletRecord;
use state_reader::{StillGround, StoreReading};
use std::alloc::Global;

/// Looks whether each log that a record names, and each that has a sorted log, is listed, whether each that is listed is told, and
/// whether each sorted log that is listed is there.
pub fn check_logs(
    alloc: Global,
    still: &StillGround,
    read: &StoreReading,
    records: &[TabletRecord],
) -> Result<(), StateFault>
    requires levels { IsReadingOf (ground_of still.now) (reading_of read.now) }
    requires records { AreRecords (reading_of read.now) records.now }
    ensures ok { OnOk result (AreLogsThere (ground_of still.now) (reading_of read.now)) }
    ensures cause { IfErr result (StateCause (ground_of still.now)) }
{
    let listed = listed(alloc, &still.nodes)?;
    check_listed(alloc, still, read, records, &listed)?;
    check_told(alloc, still, &listed)?;
    let listed_sorted = listed_sorted(alloc, &still.nodes)?;
    check_sorted(alloc, still, &listed, &listed_sorted)
}
