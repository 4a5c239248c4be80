// A row of a level is written in the tablet that holds it.
ghost use Rattle.std.specs.Prelude.{◌≡◌, ◌<◌, None, All, IfErr, IfOk, IsSome, OnErr, OnOk};
ghost use Rattle.std.specs.FinMap as map;
ghost use Rattle.level_index.specs.Writes.{Prepares};
ghost use Rattle.log_files.specs.Mutations.{AreUpdates};
ghost use Rattle.ground_store.specs.Acts.{Acts, stop_of};
ghost use Rattle.ground_store.specs.Drawing.{IsOwn};
ghost use Rattle.log_writes.specs.Answers.{IsFullOrShort};
ghost use Rattle.log_writes.specs.Logging.{MayLogMutation, LogsMutation, with_logged};
ghost use Rattle.hosted_writes.specs.Causes.{IsPutFull, PutCause};
ghost use Rattle.hosted_writes.specs.Puts.{memory_at, time_at, mutation_at, with_put};
ghost use Rattle.hosted_writes.specs.Rows.{MakesSome, WritesIndex};

use crate::putting::put_hosted;
use crate::row_updates::RowUpdates;
use ground_store::Ground;
use host_model::{Host, Stop};
use hosted_memories::HostedMemories;
use level_index::{LevelIndex, PreparedRow, WriteFault};
use metadata_schema::Update;
use row_keys::{LogName, Row};
use std::alloc::{AllocError, Global};
use std::mem;

/// Takes an index, with all that it takes to write a row of it, and leaves one without rows. At want of memory it is put back.
fn take_prepared_row(
    alloc: Global,
    index: &mut LevelIndex,
    row: &Row,
    updates: &[Update],
) -> Result<PreparedRow, AllocError>
    requires { MakesSome index.old row.now updates.now }
    ensures ok { IfOk result (Prepares index.old row.now updates.now) }
    ensures err { OnErr result (index.new ≡ index.old) }
{
    let kind = index.kind();
    let own = mem::replace(index, LevelIndex::new(alloc, kind));
    match own.prepare(alloc, row, updates) {
        Ok(prepared) => Ok(prepared),
        Err((WriteFault::NoMemory, own)) => {
            *index = own;
            Err(AllocError)
        }
        Err((WriteFault::NoRow | WriteFault::BadColumns, _)) => unreachable!(),
    }
}

/// Writes a row of a level: puts updates of it in the memory of the hosted tablet one level up that holds it, once they stand in a log
/// that the ground made, and then the level's index has the row as these updates make it. `holder` is that tablet's own metadata row.
/// Whole or absent in the log at a stop or a crash. At `Ok` the row is on the disk, in memory and in the index; at a stop all memories
/// and the index are as they were.
///
/// Stops come as those of `put_hosted`. All memory, also that for the index, is taken before the log is written. Takes memory for the
/// cells and the bytes of the mutation and for the row, and for each cell time with the logarithm of the keys in memory, and n log n for
/// n columns of the row. Two syncs, and no open.
pub fn write_level_row<H: Host>(
    alloc: Global,
    ground: &mut Ground<H>,
    hosted: &mut HostedMemories,
    index: &mut LevelIndex,
    holder: &Row,
    log: &LogName,
    write: RowUpdates,
) -> Result<(), Stop>
    requires there { IsSome (map.get hosted.old holder.now) }
    requires log { IsSome (map.get ground.old.logs log.now) }
    requires updates { AreUpdates write.updates }
    requires row { MakesSome index.old write.row write.updates }
    ensures acts { Acts H.state (MayLogMutation log.now (mutation_at hosted.old holder.now write)) (LogsMutation log.now (mutation_at hosted.old holder.now write)) (stop_of result) ground.old ground.new }
    ensures goes_on { OnOk result (ground.new.logs ≡ with_logged ground.old.logs log.now (mutation_at hosted.old holder.now write)) }
    ensures err { OnErr result (ground.new.logs ≡ ground.old.logs) }
    ensures nodes { ground.new.nodes ≡ ground.old.nodes }
    ensures past { OnOk result (All (λ cell. cell.time < time_at hosted.old holder.now) (memory_at hosted.old holder.now).cells) }
    ensures putting { OnOk result (hosted.new ≡ with_put hosted.old holder.now (mutation_at hosted.old holder.now write)) }
    ensures index { OnOk result (WritesIndex index.old write index.new) }
    ensures keeps { OnErr result (hosted.new ≡ hosted.old) }
    ensures index_keeps { OnErr result (index.new ≡ index.old) }
    ensures full { ground.old.stopped ≡ None → IsPutFull ground.old.logs log.now (mutation_at hosted.old holder.now write) → IsFullOrShort result }
    ensures untouched { IfErr result (λ stop. IsOwn stop → ground.new.host ≡ ground.old.host) }
    ensures stops { ground.old.stopped ≡ None → IfErr result (λ stop. PutCause ground.old.logs log.now (mutation_at hosted.old holder.now write) stop (H.state ground.old.host) (H.state ground.new.host)) }
{
    ground.check()?;
    let updates = write.updates.as_slice();
    let prepared = match take_prepared_row(alloc, index, &write.row, updates) {
        Ok(prepared) => prepared,
        Err(_) => return Err(ground.stop(Stop::NoMemory)),
    };
    match put_hosted(alloc, ground, hosted, holder, log, write) {
        Ok(_) => {
            *index = prepared.commit();
            Ok(())
        }
        Err(stop) => {
            *index = prepared.withdraw();
            Err(stop)
        }
    }
}
