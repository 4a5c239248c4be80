// The memory of a hosted tablet, taken out while a mutation is logged.
ghost use Rattle.std.specs.Prelude.{◌≡◌, ◌≤◌, ◌<◌, ◌^◌, All, IfOk, IsSome, OnOk, OnErr};
ghost use Rattle.std.specs.FinMap as map;
ghost use Rattle.tablet_mem.specs.Memory.{put};
ghost use Rattle.hosted_memories.specs.Hosted.{with_memory};
ghost use Rattle.hosted_writes.specs.Puts.{memory_at, time_at, nothing};

use hosted_memories::HostedMemories;
use metadata_schema::Mutation;
use row_keys::Row;
use std::alloc::{AllocError, Global};
use tablet_mem::{Prepared, TabletMem};

/// The time that the next mutation of a hosted tablet gets.
pub fn time_at(hosted: &HostedMemories, tablet: &Row) -> u64
    requires { IsSome (map.get hosted.now tablet.now) }
    ensures is { result ≡ time_at hosted.now tablet.now }
    ensures past { All (λ cell. cell.time < result) (memory_at hosted.now tablet.now).cells }
    ensures fits { result ≤ 2 ^ 63 }
{
    match hosted.get(tablet) {
        Some(memory) => memory.next_time(),
        None => unreachable!(),
    }
}

/// Takes the memory of a hosted tablet, and leaves one without cells. Takes no memory of the host.
fn take(alloc: Global, hosted: &mut HostedMemories, tablet: &Row) -> TabletMem
    requires { IsSome (map.get hosted.old tablet.now) }
    ensures was { result ≡ memory_at hosted.old tablet.now }
    ensures left { hosted.new ≡ with_memory hosted.old tablet.now nothing }
{
    match hosted.exchange(tablet, TabletMem::new(alloc, 0, 0)) {
        Ok(memory) => memory,
        Err(_) => unreachable!(),
    }
}

/// Gives a hosted tablet this memory. Takes no memory of the host.
pub fn put_back(hosted: &mut HostedMemories, tablet: &Row, memory: TabletMem)
    requires { IsSome (map.get hosted.old tablet.now) }
    ensures { hosted.new ≡ with_memory hosted.old tablet.now memory }
{
    // the tablet is hosted, so that the memory doesn't come back
    let _ = hosted.exchange(tablet, memory);
}

/// Takes the memory of a hosted tablet, with all that it takes to put a mutation in it. At want of memory it is put back.
pub fn take_prepared(
    alloc: Global,
    hosted: &mut HostedMemories,
    tablet: &Row,
    mutation: &Mutation,
) -> Result<Prepared, AllocError>
    requires there { IsSome (map.get hosted.old tablet.now) }
    requires time { mutation.now.time < 2 ^ 63 }
    ensures before { IfOk result (λ prepared. prepared.before ≡ memory_at hosted.old tablet.now) }
    ensures after { IfOk result (λ prepared. prepared.after ≡ put (memory_at hosted.old tablet.now) mutation.now) }
    ensures left { OnOk result (hosted.new ≡ with_memory hosted.old tablet.now nothing) }
    ensures err { OnErr result (hosted.new ≡ hosted.old) }
{
    let memory = take(alloc, hosted, tablet);
    match memory.prepare(mutation) {
        Ok(prepared) => Ok(prepared),
        Err((error, memory)) => {
            put_back(hosted, tablet, memory);
            Err(error)
        }
    }
}
