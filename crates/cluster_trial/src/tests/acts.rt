// What each event does.
ghost use Rattle.std.specs.Prelude.{All, IfOk};
ghost use Rattle.metadata_schema.specs.Paths.{IsDirectory, IsFilePath};
ghost use Rattle.cluster_state.specs.Changing.{IsOfOthers};
ghost use Rattle.store_layout.specs.Names.{IsSortedName};

use crate::tests::events::Came;
use cluster_state::Cluster;
use host_model::{Host, Name, Stop};
use log_files::sorted_file;
use metadata_schema::is_file_path;
use new_files::{FileKind, NewFile};
use node_store::NodeOp;
use row_keys::{LogName, Octets, Path, ServerName, TableId};
use std::alloc::Global;
use std::test::Fail;
use store_layout::first_cells;

pub const FAR_FILE: &[u8] = b"+r/root_tablet/A0000009.rf";

pub fn how_far<T: Drop>(answer: Result<T, Stop>) -> Came {
    match answer {
        Ok(_) => Came::Done,
        Err(_) => Came::Stopped,
    }
}

// ---- servers

/// The server that the events are about.
pub fn server(alloc: Global) -> Result<ServerName, Fail> {
    Ok(ServerName::new(alloc, b"a")?.ok_or("no name of a server")?)
}

/// Starts the server, if it isn't there.
pub fn start<H: Host + Drop>(alloc: Global, cluster: &mut Cluster<H>) -> Result<Came, Fail> {
    let name = server(alloc)?;
    if cluster.is_listed(&name) {
        return Ok(Came::NotThere);
    }
    Ok(how_far(cluster.start_server(&name)))
}

/// Kills the server, if it is live.
pub fn kill<H: Host + Drop>(alloc: Global, cluster: &mut Cluster<H>) -> Result<(), Fail> {
    let name = server(alloc)?;
    if cluster.is_live(&name) {
        cluster.kill_server(&name);
    }
    Ok(())
}

/// Lets the clock go on by so many ticks.
pub fn tick<H: Host + Drop>(cluster: &mut Cluster<H>, ticks: u32) {
    if cluster.clock() < 1 << 32 {
        cluster.tick(ticks as u64);
    }
}

/// Takes the server out, if it has expired.
pub fn end<H: Host + Drop>(alloc: Global, cluster: &mut Cluster<H>) -> Result<Came, Fail> {
    let name = server(alloc)?;
    if !cluster.has_expired(&name) {
        return Ok(Came::NotThere);
    }
    Ok(how_far(cluster.end_server(&name)))
}

/// A server starts, is killed, and goes once it has expired.
pub fn start_and_end<H: Host + Drop>(
    alloc: Global,
    cluster: &mut Cluster<H>,
) -> Result<Came, Fail> {
    start(alloc, cluster)?;
    kill(alloc, cluster)?;
    tick(cluster, 30);
    end(alloc, cluster)
}

// ---- nodes

/// Makes the node of table 1.
pub fn change_nodes<H: Host + Drop>(alloc: Global, cluster: &mut Cluster<H>) -> Result<Came, Fail> {
    let ops = table_ops(alloc)?;
    match cluster.multi(&ops) {
        Ok(()) => Ok(Came::Done),
        Err(_) => Ok(Came::Stopped),
    }
}

fn table_ops(alloc: Global) -> Result<Vec<NodeOp>, Fail>
    ensures { IfOk result (λ ops. All IsOfOthers ops.items) }
{
    let mut ops = Vec::new(alloc);
    ops.push(NodeOp::Create {
        path: Path::new(alloc, b"/tables/1")?.ok_or("no path")?,
        value: Octets::new(alloc, b"NEW t -")?,
    })?;
    Ok(ops)
}

// ---- data files

fn root_table(alloc: Global) -> Result<TableId, Fail> {
    Ok(TableId::new(alloc, b"+r")?.ok_or("no id of a table")?)
}

fn root_directory(alloc: Global) -> Result<Octets, Fail>
    ensures { IfOk result (λ dir. IsDirectory dir) }
{
    Ok(Octets::new(alloc, b"root_tablet")?)
}

/// Writes the cells of a new store's first file anew.
pub fn put_new_file<H: Host + Drop>(
    alloc: Global,
    cluster: &mut Cluster<H>,
) -> Result<Result<NewFile, Stop>, Fail> {
    let table = root_table(alloc)?;
    let dir = root_directory(alloc)?;
    let cells = first_cells(alloc)?;
    Ok(cluster.put_new_file(&table, &dir, FileKind::Whole, &cells))
}

pub fn file_path(alloc: Global, bytes: &[u8]) -> Result<Path, Fail>
    ensures { IfOk result (λ path. IsFilePath path) }
{
    let path = Path::new(alloc, bytes)?.ok_or("no path")?;
    if !is_file_path(path.as_bytes()) {
        return Err(Fail::from("no path of a file"));
    }
    Ok(path)
}

/// The path of a file whose number no draw reaches here.
fn far_path(alloc: Global) -> Result<Path, Fail>
    ensures { IfOk result (λ path. IsFilePath path) }
{
    file_path(alloc, FAR_FILE)
}

/// Writes the cells of a new store's first file under that path.
pub fn put_far_file<H: Host + Drop>(alloc: Global, cluster: &mut Cluster<H>) -> Result<Came, Fail> {
    let path = far_path(alloc)?;
    let cells = first_cells(alloc)?;
    Ok(how_far(cluster.put_file(&path, &cells)))
}

/// Writes that file, and takes it out again.
pub fn put_and_remove_file<H: Host + Drop>(
    alloc: Global,
    cluster: &mut Cluster<H>,
) -> Result<Came, Fail> {
    match put_far_file(alloc, cluster)? {
        Came::Done => Ok(how_far(cluster.remove_file(&far_path(alloc)?))),
        _ => Ok(Came::NotThere),
    }
}

// ---- sorted logs

/// A log that no server has.
pub fn stray_log(alloc: Global) -> Result<LogName, Fail> {
    Ok(LogName::new(alloc, b"log-00000000000000ff")?.ok_or("no name of a log")?)
}

/// Writes the sorted file of that log, without mutations.
pub fn put_sorted<H: Host + Drop>(alloc: Global, cluster: &mut Cluster<H>) -> Result<Came, Fail> {
    let log = stray_log(alloc)?;
    Ok(how_far(cluster.put_sorted(&log, &[])))
}

fn stray_name(alloc: Global) -> Result<Name, Fail>
    ensures { IfOk result (λ name. IsSortedName name) }
{
    let log = stray_log(alloc)?;
    log.as_bytes();
    Ok(sorted_file(alloc, &log)?)
}

/// Writes that file, and takes it out again by its name.
pub fn put_and_remove_sorted<H: Host + Drop>(
    alloc: Global,
    cluster: &mut Cluster<H>,
) -> Result<Came, Fail> {
    match put_sorted(alloc, cluster)? {
        Came::Done => Ok(how_far(cluster.remove_name(&stray_name(alloc)?))),
        _ => Ok(Came::NotThere),
    }
}
