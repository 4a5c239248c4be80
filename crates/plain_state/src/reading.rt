// The reading of a whole ground.
ghost use Rattle.std.specs.Prelude.{◌≡◌, ◌≢◌, IfOk, IfErr, OnOk, MatchBool};
ghost use Rattle.store_meaning.specs.Levels.{IsReadingOf};
ghost use Rattle.store_meaning.specs.Readable.{IsReadAs};
ghost use Rattle.state_reader.specs.declared.store_reading.ReadFault.TheVariants.{NoMemory};
ghost use Rattle.state_reader.specs.Still.{ground_of};
ghost use Rattle.state_reader.specs.Reads.{reading_of};
ghost use Rattle.plain_state.specs.Causes.{StateCause};

use crate::consistent::{check_metadata, check_root};
use crate::fault::StateFault;
use crate::in_use::{check_flags, check_records};
use crate::logs::check_logs;
use crate::records::records_of;
use state_reader::{ReadFault, StillGround, StoreReading, read};
use std::alloc::Global;

/// Whether it is want of memory.
fn is_no_memory(fault: &ReadFault) -> bool
    ensures { MatchBool result (fault.now ≡ NoMemory) (fault.now ≢ NoMemory) }
{
    matches!(fault, ReadFault::NoMemory)
}

/// The levels of a ground.
fn levels(alloc: Global, still: &StillGround) -> Result<StoreReading, StateFault>
    ensures ok { IfOk result (λ read. IsReadingOf (ground_of still.now) (reading_of read)) }
    ensures cause { IfErr result (StateCause (ground_of still.now)) }
{
    let fault = match read(alloc, still) {
        Ok(read) => return Ok(read),
        Err(fault) => fault,
    };
    if is_no_memory(&fault) {
        return Err(StateFault::NoMemory);
    }
    Err(StateFault::Unread(fault))
}

/// Looks whether all that is in use is there, and is consistent.
fn check(alloc: Global, still: &StillGround, read: &StoreReading) -> Result<(), StateFault>
    requires { IsReadingOf (ground_of still.now) (reading_of read.now) }
    ensures ok { OnOk result (IsReadAs (reading_of read.now) (ground_of still.now)) }
    ensures cause { IfErr result (StateCause (ground_of still.now)) }
{
    let records = records_of(alloc, read)?;
    check_records(alloc, still, read, &records)?;
    check_flags(alloc, still, read)?;
    check_logs(alloc, still, read, &records)?;
    check_root(alloc, still, read)?;
    check_metadata(alloc, still, read)
}

/// The reading of a ground that can be read.
pub fn read_whole(alloc: Global, still: &StillGround) -> Result<StoreReading, StateFault>
    ensures ok { IfOk result (λ read. IsReadAs (reading_of read) (ground_of still.now)) }
    ensures cause { IfErr result (StateCause (ground_of still.now)) }
{
    let read = levels(alloc, still)?;
    check(alloc, still, &read)?;
    Ok(read)
}
