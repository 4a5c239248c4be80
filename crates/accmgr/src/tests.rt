// Runs over a host in memory.
mod command_line;
mod crashes;
mod damage;
mod faults;
mod limits;
mod names;
mod new_store;
mod runs;
mod store_bytes;

use host_model::{Host, HostFault, Name, Stop};
use memory_host::{MemoryHost, Pick};
use row_keys::{Octets, Words};
use shell::run;
use std::alloc::{AllocError, Global};

const INIT: [&[u8]; 2] = [b"--init", b"d"];

const OPEN: [&[u8]; 1] = [b"d"];

const SCRIPT: &[u8] = b"createtable t\ncreatetable t\ntables\nscan t\n";

const REPLIES: &[u8] = b"1 ok\n2 no exists t\n3 = t 1\n3 rows 1\n4 no unbuilt\n";

const TABLES: &[u8] = b"tables\n";

const NO_TABLE: &[u8] = b"1 rows 0\n";

const ONE_TABLE: &[u8] = b"1 = t 1\n1 rows 1\n";

// The first file of the root tablet.
const ROOT_NAME: &str = "+r,root_tablet,A0000001.rf";

// How a run ended, and the host that it handed back.
#[derive(Drop)]
struct Ended {
    status: u8,
    lines: u32,
    damaged: Option<Name>,
    host: MemoryHost,
}

impl Ended {
    fn is(&self, status: u8, lines: u32, replies: &[u8]) -> bool {
        self.status == status && self.lines == lines && self.host.said() == replies
    }
}

fn words(alloc: Global, texts: &[&[u8]]) -> Result<Words, AllocError> {
    let mut words = Words::new(alloc);
    for text in texts {
        words.push(Octets::new(alloc, text)?)?;
    }
    Ok(words)
}

fn run_over(alloc: Global, texts: &[&[u8]], host: MemoryHost) -> Result<Ended, AllocError> {
    let words = words(alloc, texts)?;
    let (outcome, host) = run(alloc, &words, host);
    Ok(Ended {
        status: outcome.status,
        lines: outcome.lines,
        damaged: outcome.damaged,
        host,
    })
}

// On a blank disk.
fn first(alloc: Global, texts: &[&[u8]], script: &[u8]) -> Result<Ended, AllocError> {
    run_over(alloc, texts, MemoryHost::new(alloc, script, &[], None)?)
}

// On what a crash leaves.
fn next(alloc: Global, host: MemoryHost, pick: Pick, texts: &[&[u8]]) -> Result<Ended, AllocError> {
    run_over(alloc, texts, host.after_crash(TABLES, &[], None, pick)?)
}

// Whether the next run finds what one over `SCRIPT` must have left: the table where its `ok` was said whole.
fn has_left(alloc: Global, ended: Ended, pick: Pick) -> Result<bool, AllocError> {
    let was_told = ended.host.said().starts_with(b"1 ok\n");
    let ended = next(alloc, ended.host, pick, &OPEN)?;
    if ended.is(0, 1, ONE_TABLE) {
        return Ok(true);
    }
    if ended.is(0, 1, NO_TABLE) {
        return Ok(!was_told);
    }
    let ended = next(alloc, ended.host, pick, &INIT)?;
    Ok(!was_told && ended.is(0, 1, NO_TABLE))
}

fn write_at<H: Host>(host: &mut H, name: &Name, at: u64, bytes: &[u8]) -> Result<(), HostFault> {
    match host.length(name)? {
        Some(size) if at <= size => host.write(name, at, bytes),
        _ => Ok(()),
    }
}

// Makes a file of this name with these bytes.
fn put(alloc: Global, host: &mut MemoryHost, text: &str, bytes: &[u8]) -> Result<(), Stop> {
    if let Some(name) = Name::new(alloc, text)? {
        host.create(&name)?;
        write_at(host, &name, 0, bytes)?;
        host.sync(&name)?;
    }
    Ok(())
}

// A disk on which the file of the nodes has these bytes.
fn disk_of(alloc: Global, nodes: &[u8]) -> Result<MemoryHost, Stop> {
    let mut host = MemoryHost::new(alloc, b"", &[], None)?;
    put(alloc, &mut host, "nodes", nodes)?;
    Ok(host)
}
