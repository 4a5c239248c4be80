// The longest line, and the most lines.
use super::{Ended, INIT, first, run_over};
use memory_host::MemoryHost;
use std::alloc::{AllocError, Global};
use std::test::Fail;

#[test]
fn refuses_a_long_line(rt: HostRuntime) -> Result<(), Fail> {
    let longest = vec![in rt.alloc(); b'x'; 8192]?;
    assert!(rt; first(rt.alloc(), &INIT, &longest)?.is(0, 1, b"1 no unbuilt\n"));
    let too_long = vec![in rt.alloc(); b'x'; 8193]?;
    assert!(rt; first(rt.alloc(), &INIT, &too_long)?.is(3, 1, b"1 no line\n"));
    Ok(())
}

// The last call of a run over a line that is too long says so: half of the ten bytes are said.
#[test]
fn fails_to_refuse_a_long_line(rt: HostRuntime) -> Result<(), Fail> {
    let too_long = vec![in rt.alloc(); b'x'; 8193]?;
    let last = first(rt.alloc(), &INIT, &too_long)?.host.calls();
    let host = MemoryHost::new(rt.alloc(), &too_long, &[last], None)?;
    assert!(rt; run_over(rt.alloc(), &INIT, host)?.is(6, 1, b"1 no "));
    Ok(())
}

fn blank_lines(alloc: Global, count: usize) -> Result<Ended, AllocError> {
    first(alloc, &INIT, &vec![in alloc; b'\n'; count]?)
}

#[test]
fn refuses_a_line_too_many(rt: HostRuntime) -> Result<(), Fail> {
    assert!(rt; blank_lines(rt.alloc(), 100_000)?.is(0, 100_000, b""));
    assert!(rt; blank_lines(rt.alloc(), 100_001)?.is(3, 100_001, b"100001 no line\n"));
    Ok(())
}
