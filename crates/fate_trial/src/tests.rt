// Towers over a host in memory, with a stop within each of its calls.
ghost use Rattle.std.specs.Prelude.{◌≡◌, IfOk, Ok, OnOk};
ghost use Rattle.memory_host.specs.Memory.{memory_state};
ghost use Rattle.fate_trial.specs.Site.{GoesOn};

use crate::layout::{Slot, path, slot_path};
use crate::site::Site;
use crate::turns::go;
use crate::works::put;
use host_model::Stop;
use memory_host::{MemoryHost, Pick};
use row_keys::Path;
use std::alloc::Global;
use std::test::Fail;

// A node's path, value and version.
type Row = (&'static [u8], &'static [u8], u64);

// A tower that is whole. Its status was set twice.
const WHOLE: [Row; 3] = [
    (b"/fate/s/1", b"D-tower", 2),
    (b"/made/r/1", b"-", 0),
    (b"/made/w/1", b"-", 0),
];

// One whose roof was refused. Its status was set three times.
const UNDONE: [Row; 2] = [(b"/ban", b"-", 0), (b"/fate/s/1", b"Xetower", 3)];

// The site, without the host of one that isn't there.
fn site_of(made: Result<Site<MemoryHost>, (Stop, MemoryHost)>) -> Result<Site<MemoryHost>, Fail>
    ensures { IfOk result (λ site. made ≡ Ok site) }
{
    match made {
        Ok(site) => Ok(site),
        Err((stop, _)) => Err(stop)?,
    }
}

// A store with a tower that is submitted.
fn submitted(alloc: Global, stop: Option<u64>, is_banned: bool) -> Result<Site<MemoryHost>, Fail>
    ensures { IfOk result (λ site. GoesOn memory_state site) }
{
    let host = MemoryHost::new(alloc, b"", &[], stop)?;
    let mut site = site_of(Site::create(alloc, host))?;
    put(&mut site, slot_path(alloc, Slot::Lower, 1)?, b"\x05Raise")?;
    put(&mut site, slot_path(alloc, Slot::Status, 1)?, b"S-tower")?;
    if !is_banned {
        return Ok(site);
    }
    put(&mut site, path(alloc, b"/ban")?, b"-")?;
    Ok(site)
}

fn has_nodes(site: &Site<MemoryHost>, expected: &[Row]) -> Result<bool, Fail> {
    let paths: Vec<Path> = site.nodes.paths()?;
    if paths.len() != expected.len() {
        return Ok(false);
    }
    for (path, (name, value, version)) in paths.iter().zip(expected) {
        match site.nodes.get(path) {
            Some(node) => {
                if path.as_bytes() != *name
                    || node.value.as_bytes() != *value
                    || node.version != *version
                {
                    return Ok(false);
                }
            }
            None => return Ok(false),
        }
    }
    Ok(true)
}

// Takes turns of a tower until it is finished, or has taken fifty.
fn finish(tid: u64, site: &mut Site<MemoryHost>) -> Result<(), Stop>
    requires { GoesOn memory_state site.old }
    ensures { OnOk result (GoesOn memory_state site.new) }
{
    for _ in 0..50 {
        if !go(tid, site)? {
            return Ok(());
        }
    }
    Ok(())
}

// Whether a tower that stops within this call of the host, and goes on after the crash, ends with these nodes.
fn survives(
    alloc: Global,
    stop: u64,
    pick: Pick,
    is_banned: bool,
    expected: &[Row],
) -> Result<bool, Fail> {
    let mut site = submitted(alloc, Some(stop), is_banned)?;
    let outcome: Result<(), Stop> = finish(1, &mut site);
    let Site {
        alloc: _,
        host,
        nodes: _,
        stopped: _,
    } = site;
    let after = host.after_crash(b"", &[], None, pick)?;
    let mut site = site_of(Site::open(alloc, after))?;
    finish(1, &mut site)?;
    Ok(outcome.is_err() && has_nodes(&site, expected)?)
}

fn survives_all(rt: &HostRuntime, is_banned: bool, expected: &[Row]) -> Result<bool, Fail> {
    let alloc = rt.alloc();
    let mut site = submitted(alloc, None, is_banned)?;
    let first = site.host.calls();
    finish(1, &mut site)?;
    let last = site.host.calls();
    if !has_nodes(&site, expected)? || first >= last || last > 1000 {
        return Ok(false);
    }
    for stop in first + 1..=last {
        for pick in [Pick::Kept, Pick::Lost, Pick::Ones] {
            if !survives(alloc, stop, pick, is_banned, expected)? {
                return Ok(false);
            }
        }
    }
    Ok(true)
}

#[test]
fn a_stop_anywhere_changes_no_tower(rt: HostRuntime) -> Result<(), Fail> {
    assert!(rt; survives_all(&rt, false, &WHOLE)?);
    assert!(rt; survives_all(&rt, true, &UNDONE)?);
    Ok(())
}
