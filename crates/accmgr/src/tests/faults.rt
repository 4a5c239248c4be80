// Calls of the host that fail.
use super::{Ended, INIT, REPLIES, SCRIPT, first, has_left, run_over};
use host_model::HostFault;
use memory_host::{MemoryHost, Pick};
use std::alloc::{AllocError, Global};
use std::test::Fail;

fn fails_at(alloc: Global, call: u64) -> Result<Ended, AllocError> {
    run_over(alloc, &INIT, MemoryHost::new(alloc, SCRIPT, &[call], None)?)
}

// Whether one fault was counted, and the status is that of its kind.
fn tells_its_fault(ended: &Ended) -> bool {
    let disk = ended.host.faults(HostFault::Disk);
    let source = ended.host.faults(HostFault::Source);
    let sink = ended.host.faults(HostFault::Sink);
    match (disk, source, sink, ended.host.faults(HostFault::Memory)) {
        (1, 0, 0, 0) => ended.status == 4,
        (0, 1, 0, 0) => ended.status == 5,
        (0, 0, 1, 0) => ended.status == 6,
        _ => false,
    }
}

#[test]
fn tells_which_fault_it_met(rt: HostRuntime) -> Result<(), Fail> {
    let calls = first(rt.alloc(), &INIT, SCRIPT)?.host.calls();
    assert!(rt; fails_at(rt.alloc(), 1)?.is(4, 0, b""));
    assert!(rt; fails_at(rt.alloc(), calls)?.is(5, 4, REPLIES));
    assert_eq!(rt; fails_at(rt.alloc(), calls.saturating_sub(1))?.status, 6);
    Ok(())
}

#[test]
fn tells_the_fault_of_each_call(rt: HostRuntime) -> Result<(), Fail> {
    let calls = first(rt.alloc(), &INIT, SCRIPT)?.host.calls();
    for call in 1..=calls {
        let ended = fails_at(rt.alloc(), call)?;
        assert!(rt; tells_its_fault(&ended), "failed at call {call}");
        assert_eq!(rt; ended.host.calls(), call, "asked behind the fault");
    }
    Ok(())
}

#[test]
fn survives_a_fault_in_each_call(rt: HostRuntime) -> Result<(), Fail> {
    let calls = first(rt.alloc(), &INIT, SCRIPT)?.host.calls();
    for call in 1..=calls {
        for pick in [Pick::Kept, Pick::Lost, Pick::Ones] {
            let ended = fails_at(rt.alloc(), call)?;
            assert!(rt; has_left(rt.alloc(), ended, pick)?, "failed at call {call}");
        }
    }
    Ok(())
}
