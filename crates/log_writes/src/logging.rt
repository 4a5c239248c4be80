// A mutation is added to a log.
ghost use Rattle.std.specs.Prelude.{◌≡◌, None, IfErr, IsSome, OnErr, OnOk};
ghost use Rattle.std.specs.FinMap as map;
ghost use Rattle.log_files.specs.Mutations.{IsSpelled};
ghost use Rattle.ground_store.specs.Acts.{Acts, stop_of};
ghost use Rattle.ground_store.specs.Drawing.{IsOwn};
ghost use Rattle.log_writes.specs.Logging.{MayLogMutation, LogsMutation, with_logged, IsLogFull, LogCause};
ghost use Rattle.log_writes.specs.Answers.{IsFullOrShort};

use ground_store::Ground;
use host_model::{Host, Stop};
use log_files::mutation_bytes;
use metadata_schema::Mutation;
use row_keys::LogName;
use std::alloc::Global;

/// Adds a mutation to a log that the ground made: behind those that the log has. Whole or absent at a stop or a crash, and on the
/// disk at `Ok`.
///
/// `Full` comes only where the log has no room for the mutation, and there `Ok` never does: it has 2^32 bytes or more, or the log
/// would have more than 2^40. Each other stop is a fault of the disk or the host's memory, which is counted, or want of memory, or
/// one that was answered before. At a stop of the program's own, as want of memory, the host is as it was. Takes memory for the
/// bytes of the mutation. Two syncs, and no open.
pub fn log_mutation<H: Host>(
    alloc: Global,
    ground: &mut Ground<H>,
    log: &LogName,
    mutation: &Mutation,
) -> Result<(), Stop>
    requires log { IsSome (map.get ground.old.logs log.now) }
    requires mutation { IsSpelled mutation.now }
    ensures acts { Acts H.state (MayLogMutation log.now mutation.now) (LogsMutation log.now mutation.now) (stop_of result) ground.old ground.new }
    ensures goes_on { OnOk result (ground.new.logs ≡ with_logged ground.old.logs log.now mutation.now) }
    ensures err { OnErr result (ground.new.logs ≡ ground.old.logs) }
    ensures nodes { ground.new.nodes ≡ ground.old.nodes }
    ensures full { ground.old.stopped ≡ None → IsLogFull ground.old.logs log.now mutation.now → IsFullOrShort result }
    ensures untouched { IfErr result (λ stop. IsOwn stop → ground.new.host ≡ ground.old.host) }
    ensures stops { ground.old.stopped ≡ None → IfErr result (λ stop. LogCause ground.old.logs log.now mutation.now stop (H.state ground.old.host) (H.state ground.new.host)) }
{
    ground.check()?;
    let bytes = match mutation_bytes(alloc, mutation) {
        Ok(bytes) => bytes,
        Err(_) => return Err(ground.stop(Stop::NoMemory)),
    };
    ground.log_append(log, &bytes)
}
