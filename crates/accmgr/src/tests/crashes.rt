// What a stop within each call of the host leaves.
use super::{INIT, SCRIPT, first, has_left, run_over};
use memory_host::{MemoryHost, Pick};
use std::alloc::{AllocError, Global};
use std::test::Fail;

// Whether a run that stops within this call leaves what the next run is to find.
fn survives(alloc: Global, stop: u64, pick: Pick) -> Result<bool, AllocError> {
    let host = MemoryHost::new(alloc, SCRIPT, &[], Some(stop))?;
    has_left(alloc, run_over(alloc, &INIT, host)?, pick)
}

#[test]
fn survives_a_crash_in_each_call(rt: HostRuntime) -> Result<(), Fail> {
    let calls = first(rt.alloc(), &INIT, SCRIPT)?.host.calls();
    for stop in 1..=calls {
        for pick in [Pick::Kept, Pick::Lost, Pick::Ones] {
            assert!(rt; survives(rt.alloc(), stop, pick)?, "stopped at call {stop}");
        }
    }
    Ok(())
}
