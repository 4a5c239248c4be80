// The plain state of a ground.
ghost use Rattle.std.specs.Prelude.{◌≢◌, IfOk, IfErr};
ghost use Rattle.state_reader.specs.declared.store_reading.ReadFault.TheVariants.{LongRoot};
ghost use Rattle.state_reader.specs.Still.{ground_of};
ghost use Rattle.plain_state.specs.declared.fault.StateFault.TheVariants.{Unread, StrayTable, NoMemory};
ghost use Rattle.plain_state.specs.States.{StandsSo, HasNoState, HasNoByteState};
ghost use Rattle.plain_state.specs.Causes.{StateCause};

use crate::catalog::{all_files, all_tables};
use crate::fault::StateFault;
use crate::marked::check_marks;
use crate::put::put_tables;
use crate::reading::read_whole;
use crate::staged::put_files;
use plain_model::PlainStore;
use state_reader::StillGround;
use std::alloc::Global;

fn stood_for(alloc: Global, still: &StillGround) -> Result<PlainStore, StateFault>
    ensures ok { IfOk result (StandsSo (ground_of still.now)) }
    ensures cause { IfErr result (StateCause (ground_of still.now)) }
{
    let read = read_whole(alloc, still)?;
    let tables = all_tables(alloc, still)?;
    let files = all_files(alloc, still)?;
    check_marks(alloc, still, &tables)?;
    let mut state = PlainStore::new(alloc);
    put_tables(alloc, still, &read, &tables, &mut state)?;
    put_files(alloc, still, &files, &mut state)?;
    Ok(state)
}

/// The one plain state for which a ground stands: its ONLINE tables, each with its name, its split points and what its chain and
/// an import mark bring, and its staged files.
///
/// Each fault but want of memory comes only where what it says is so; the value of `/root` that `LongRoot` is about apart, there
/// is no such state then. A node that is no table's is one whose value spells no table with bounds of bytes, which is all that
/// a node can be written with. It's slow, and made for tests: it takes memory for copies of all cells, records and nodes, and
/// time with the square of their number.
pub fn state_of(alloc: Global, still: &StillGround) -> Result<PlainStore, StateFault>
    ensures ok { IfOk result (StandsSo (ground_of still.now)) }
    ensures cause { IfErr result (StateCause (ground_of still.now)) }
    ensures none { IfErr result (λ fault. fault ≢ NoMemory → fault ≢ Unread LongRoot → fault ≢ StrayTable → HasNoState (ground_of still.now)) }
    ensures none_of_bytes { IfErr result (λ fault. fault ≢ NoMemory → fault ≢ Unread LongRoot → HasNoByteState (ground_of still.now)) }
{
    stood_for(alloc, still)
}
