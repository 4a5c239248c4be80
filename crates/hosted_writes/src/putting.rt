// A write into a hosted tablet.
ghost use Rattle.std.specs.Prelude.{◌≡◌, ◌<◌, ◌^◌, None, All, IfErr, IfOk, IsSome, OnErr, OnOk};
ghost use Rattle.std.specs.FinMap as map;
ghost use Rattle.log_files.specs.Mutations.{AreUpdates, IsSpelled};
ghost use Rattle.ground_store.specs.Acts.{Acts, stop_of};
ghost use Rattle.ground_store.specs.Drawing.{IsOwn};
ghost use Rattle.log_writes.specs.Answers.{IsFullOrShort};
ghost use Rattle.log_writes.specs.Logging.{MayLogMutation, LogsMutation, with_logged, IsLogFull, LogCause};
ghost use Rattle.hosted_writes.specs.Causes.{IsPutFull, PutCause};
ghost use Rattle.hosted_writes.specs.Puts.{memory_at, time_at, mutation_at, with_put};

use crate::memories::{put_back, take_prepared, time_at};
use crate::row_updates::RowUpdates;
use ground_store::Ground;
use host_model::{Host, Stop};
use hosted_memories::HostedMemories;
use log_writes::log_mutation;
use metadata_schema::Mutation;
use row_keys::{LogName, Row};
use std::alloc::Global;

/// No time reaches this one.
const END_OF_TIMES: u64 = 1 << 63;

/// Logs a mutation that has its time, and puts it in the memory of a hosted tablet.
fn put_timed<H: Host>(
    alloc: Global,
    ground: &mut Ground<H>,
    hosted: &mut HostedMemories,
    tablet: &Row,
    log: &LogName,
    mutation: &Mutation,
) -> Result<(), Stop>
    requires running { ground.old.stopped ≡ None }
    requires there { IsSome (map.get hosted.old tablet.now) }
    requires log { IsSome (map.get ground.old.logs log.now) }
    requires mutation { IsSpelled mutation.now }
    ensures acts { Acts H.state (MayLogMutation log.now mutation.now) (LogsMutation log.now mutation.now) (stop_of result) ground.old ground.new }
    ensures goes_on { OnOk result (ground.new.logs ≡ with_logged ground.old.logs log.now mutation.now) }
    ensures err { OnErr result (ground.new.logs ≡ ground.old.logs) }
    ensures nodes { ground.new.nodes ≡ ground.old.nodes }
    ensures putting { OnOk result (hosted.new ≡ with_put hosted.old tablet.now mutation.now) }
    ensures keeps { OnErr result (hosted.new ≡ hosted.old) }
    ensures full { IsLogFull ground.old.logs log.now mutation.now → IsFullOrShort result }
    ensures untouched { IfErr result (λ stop. IsOwn stop → ground.new.host ≡ ground.old.host) }
    ensures stops { IfErr result (λ stop. LogCause ground.old.logs log.now mutation.now stop (H.state ground.old.host) (H.state ground.new.host)) }
{
    let prepared = match take_prepared(alloc, hosted, tablet, mutation) {
        Ok(prepared) => prepared,
        Err(_) => return Err(ground.stop(Stop::NoMemory)),
    };
    match log_mutation(alloc, ground, log, mutation) {
        Ok(()) => {
            put_back(hosted, tablet, prepared.commit());
            Ok(())
        }
        Err(stop) => {
            put_back(hosted, tablet, prepared.withdraw());
            Err(stop)
        }
    }
}

/// Puts updates of a row in the memory of the hosted tablet that has this metadata row, once they stand in a log that the ground made,
/// and gives their time: the next one of that memory. Whole or absent in the log at a stop or a crash. At `Ok` they are on the disk and
/// in memory; at a stop all memories are as they were.
///
/// `Full` comes only where the time would reach 2^63 or the log has no room for the mutation, and there `Ok` never does. Each other stop
/// is a fault of the disk or the host's memory, which is counted, or want of memory, or one that was answered before. All memory is
/// taken before the log is written: at a stop of the program's own, as want of memory, the host is as it was. Takes memory for the cells
/// and the bytes of the mutation, and for each cell time with the logarithm of the keys in memory. Two syncs, and no open.
pub fn put_hosted<H: Host>(
    alloc: Global,
    ground: &mut Ground<H>,
    hosted: &mut HostedMemories,
    tablet: &Row,
    log: &LogName,
    write: RowUpdates,
) -> Result<u64, Stop>
    requires there { IsSome (map.get hosted.old tablet.now) }
    requires log { IsSome (map.get ground.old.logs log.now) }
    requires updates { AreUpdates write.updates }
    ensures acts { Acts H.state (MayLogMutation log.now (mutation_at hosted.old tablet.now write)) (LogsMutation log.now (mutation_at hosted.old tablet.now write)) (stop_of result) ground.old ground.new }
    ensures goes_on { OnOk result (ground.new.logs ≡ with_logged ground.old.logs log.now (mutation_at hosted.old tablet.now write)) }
    ensures err { OnErr result (ground.new.logs ≡ ground.old.logs) }
    ensures nodes { ground.new.nodes ≡ ground.old.nodes }
    ensures time { IfOk result (λ time. time ≡ time_at hosted.old tablet.now) }
    ensures past { OnOk result (All (λ cell. cell.time < time_at hosted.old tablet.now) (memory_at hosted.old tablet.now).cells) }
    ensures putting { OnOk result (hosted.new ≡ with_put hosted.old tablet.now (mutation_at hosted.old tablet.now write)) }
    ensures keeps { OnErr result (hosted.new ≡ hosted.old) }
    ensures full { ground.old.stopped ≡ None → IsPutFull ground.old.logs log.now (mutation_at hosted.old tablet.now write) → IsFullOrShort result }
    ensures untouched { IfErr result (λ stop. IsOwn stop → ground.new.host ≡ ground.old.host) }
    ensures stops { ground.old.stopped ≡ None → IfErr result (λ stop. PutCause ground.old.logs log.now (mutation_at hosted.old tablet.now write) stop (H.state ground.old.host) (H.state ground.new.host)) }
{
    ground.check()?;
    let time = time_at(hosted, tablet);
    if time >= END_OF_TIMES {
        return Err(ground.stop(Stop::Full));
    }
    let mutation = write.at(time);
    put_timed(alloc, ground, hosted, tablet, log, &mutation)?;
    Ok(time)
}
