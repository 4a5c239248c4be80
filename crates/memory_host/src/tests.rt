// What each kind of call does where it fails, and what a crash within it leaves.
use crate::{MemoryHost, Pick, QuietHost};
use host_model::{Host, HostFault, Name, Stop};
use std::alloc::Global;
use std::test::Fail;

// Two calls, of which the second writes.
fn write_at<H: Host>(host: &mut H, name: &Name, at: u64, bytes: &[u8]) -> Result<(), HostFault> {
    match host.length(name)? {
        Some(size) if at <= size => host.write(name, at, bytes),
        _ => Ok(()),
    }
}

// Two calls.
fn read_all<H: Host>(host: &mut H, alloc: Global, name: &Name) -> Result<Option<Vec<u8>>, Stop> {
    let Some(size) = host.length(name)? else {
        return Ok(None);
    };
    let mut bytes = vec![in alloc; 0u8; size as usize]?;
    host.read(name, 0, &mut bytes)?;
    Ok(Some(bytes))
}

fn file_after(
    alloc: Global,
    host: MemoryHost,
    pick: Pick,
    name: &Name,
) -> Result<Option<Vec<u8>>, Stop> {
    let mut next = host.after_crash(b"", &[], None, pick)?;
    read_all(&mut next, alloc, name)
}

// Six calls: the file is `old` on the disk, and `oNEW!` where it is read.
fn unsynced(
    alloc: Global,
    name: &Name,
    failing: &[u64],
    stop: Option<u64>,
) -> Result<MemoryHost, Stop> {
    let mut host = MemoryHost::new(alloc, b"", failing, stop)?;
    let _ = host.create(name);
    let _ = write_at(&mut host, name, 0, b"old");
    let _ = host.sync(name);
    let _ = write_at(&mut host, name, 1, b"NEW!");
    Ok(host)
}

fn left(
    alloc: Global,
    failing: &[u64],
    stop: Option<u64>,
    pick: Pick,
) -> Result<Option<Vec<u8>>, Stop> {
    let Some(name) = Name::new(alloc, "a")? else {
        return Ok(None);
    };
    let host = unsynced(alloc, &name, failing, stop)?;
    file_after(alloc, host, pick, &name)
}

fn is_left(
    alloc: Global,
    failing: &[u64],
    stop: Option<u64>,
    pick: Pick,
    wanted: Option<&[u8]>,
) -> Result<bool, Stop> {
    match (left(alloc, failing, stop, pick)?, wanted) {
        (Some(bytes), Some(wanted)) => Ok(bytes.as_slice() == wanted),
        (None, None) => Ok(true),
        _ => Ok(false),
    }
}

#[test]
fn picks(rt: HostRuntime) -> Result<(), Fail> {
    let alloc = rt.alloc();
    assert!(rt; is_left(alloc, &[], None, Pick::Kept, Some(b"oNEW!"))?);
    assert!(rt; is_left(alloc, &[], None, Pick::Lost, Some(b"old"))?);
    assert!(rt; is_left(alloc, &[], None, Pick::Ones, Some(b"o\x01\x01\x01\x01"))?);
    Ok(())
}

#[test]
fn stops_in_create(rt: HostRuntime) -> Result<(), Fail> {
    let alloc = rt.alloc();
    assert!(rt; is_left(alloc, &[], Some(1), Pick::Kept, Some(b""))?);
    assert!(rt; is_left(alloc, &[], Some(1), Pick::Lost, None)?);
    assert!(rt; is_left(alloc, &[], Some(1), Pick::Ones, None)?);
    Ok(())
}

#[test]
fn stops_in_write(rt: HostRuntime) -> Result<(), Fail> {
    let alloc = rt.alloc();
    assert!(rt; is_left(alloc, &[], Some(3), Pick::Kept, Some(b"o"))?);
    assert!(rt; is_left(alloc, &[], Some(3), Pick::Lost, Some(b""))?);
    assert!(rt; is_left(alloc, &[], Some(3), Pick::Ones, Some(b"\x01\x01\x01"))?);
    assert!(rt; is_left(alloc, &[], Some(6), Pick::Kept, Some(b"oNE"))?);
    assert!(rt; is_left(alloc, &[], Some(6), Pick::Lost, Some(b"old"))?);
    Ok(())
}

#[test]
fn stops_in_sync(rt: HostRuntime) -> Result<(), Fail> {
    let alloc = rt.alloc();
    assert!(rt; is_left(alloc, &[], Some(4), Pick::Kept, Some(b"old"))?);
    assert!(rt; is_left(alloc, &[], Some(4), Pick::Lost, Some(b""))?);
    assert!(rt; is_left(alloc, &[], Some(4), Pick::Ones, Some(b"\x01\x01\x01"))?);
    Ok(())
}

#[test]
fn fails(rt: HostRuntime) -> Result<(), Fail> {
    let alloc = rt.alloc();
    assert!(rt; is_left(alloc, &[1], None, Pick::Kept, None)?);
    assert!(rt; is_left(alloc, &[3], None, Pick::Kept, Some(b"oNEW!"))?);
    assert!(rt; is_left(alloc, &[4], None, Pick::Lost, Some(b""))?);
    assert!(rt; is_left(alloc, &[4, 4, 6], None, Pick::Kept, Some(b"oNE"))?);
    Ok(())
}

#[test]
fn speaks(rt: HostRuntime) -> Result<(), Fail> {
    let alloc = rt.alloc();
    let mut host = MemoryHost::new(alloc, b"abc", &[2, 4], Some(6))?;
    let mut heard = [0u8; 2];
    assert_eq!(rt; host.hear(&mut heard).ok(), Some(2));
    assert_eq!(rt; host.hear(&mut heard).err(), Some(HostFault::Source));
    assert_eq!(rt; host.hear(&mut heard).ok(), Some(1));
    assert_eq!(rt; host.say(b"1 ok\n").err(), Some(HostFault::Sink));
    assert_eq!(rt; host.say(b"ok\n").err(), None);
    assert_eq!(rt; host.say(b"last").err(), Some(HostFault::Sink));
    assert_eq!(rt; host.say(b"more").err(), Some(HostFault::Sink));
    assert!(rt; host.said() == b"1 ok\nla".as_slice());
    assert_eq!(rt; host.calls(), 7);
    Ok(())
}

#[test]
fn is_quiet(rt: HostRuntime) -> Result<(), Fail> {
    let alloc = rt.alloc();
    let mut host = QuietHost::new(alloc, b"ab")?;
    let name = Name::new(alloc, "a")?.ok_or("a name")?;
    assert_eq!(rt; host.create(&name).err(), None);
    assert_eq!(rt; write_at(&mut host, &name, 0, b"old").err(), None);
    assert_eq!(rt; host.say(b"ok").err(), None);
    let names = host.names(alloc)?;
    assert_eq!(rt; names.len(), 1);
    let bytes = read_all(&mut host, alloc, &name)?.ok_or("a file")?;
    assert!(rt; bytes.as_slice() == b"old".as_slice());
    assert!(rt; host.said() == b"ok".as_slice());
    Ok(())
}
