// The tables that the nodes of a store tell of.
ghost use Rattle.std.specs.Prelude.{◌≡◌, ◌<◌, None, IfOk, IfErr, IfSome, MatchOption, codes, length, slice_get};
ghost use Rattle.host_model.specs.declared.fault.Stop.TheVariants.{Damaged};
ghost use Rattle.store_layout.specs.Tables.{table_path};
ghost use Rattle.table_names.specs.Tables.{IsTold, IsTableThere, TableCause, NamesNoTable, IsStray, AreTablesAt, AreTables, HasStray, TablesCause, is_online, is_online_named, first_named, IsNamed};

use crate::paths::{TABLES, table_path};
use crate::values::read_table;
use host_model::Stop;
use node_store::NodeStore;
use row_keys::{Path, TableId, TableName};
use std::alloc::{AllocError, Global};
use store_layout::{TableNode, TableState};

const TABLES_PARENT: &[u8] = b"/tables";

/// The stop that says that the nodes are damaged.
pub fn damaged(alloc: Global, nodes: &NodeStore) -> Result<Stop, AllocError>
    ensures { IfOk result (λ stop. stop ≡ Damaged nodes.now.name) }
{
    Ok(Stop::Damaged(nodes.name().copy(alloc)?))
}

/// The table of this id, or none exactly where there is no node `/tables/ID`.
///
/// `Damaged` names the nodes, and comes exactly where that node is there and its value isn't of its form: a state, a name and
/// a mark, with the id of a user's table. Beside it there is want of memory alone. Takes memory for the table, asks nothing of
/// a host, and takes time with the value's length and the logarithm of the number of nodes.
pub fn table_by_id(
    alloc: Global,
    nodes: &NodeStore,
    id: &TableId,
) -> Result<Option<TableNode>, Stop>
    ensures ok { IfOk result (IsTableThere nodes.now.nodes id.now) }
    ensures stops { IfErr result (TableCause nodes.now id.now) }
{
    let path = table_path(alloc, id)?;
    let Some(node) = nodes.get(&path) else {
        return Ok(None);
    };
    let Some(table) = read_table(alloc, id, node.value.as_bytes())? else {
        return Err(damaged(alloc, nodes)?);
    };
    Ok(Some(table))
}

/// The id that stands behind `/tables/` in a path, or none where no id does.
fn id_at(alloc: Global, path: &Path) -> Result<Option<TableId>, AllocError>
    ensures { IfOk result (λ found. MatchOption found (NamesNoTable path.now) (λ id. path.now ≡ table_path id)) }
{
    match path.as_bytes().strip_prefix(TABLES.as_slice()) {
        Some(id) => TableId::new(alloc, id),
        None => Ok(None),
    }
}

/// The table of the node of a path, or none where it is no table's.
fn table_at(alloc: Global, nodes: &NodeStore, path: &Path) -> Result<Option<TableNode>, AllocError>
    ensures { IfOk result (λ found. MatchOption found (IsStray nodes.now.nodes path.now) (λ table. (path.now ≡ table_path table.id) × IsTold nodes.now.nodes table.id table)) }
{
    let Some(id) = id_at(alloc, path)? else {
        return Ok(None);
    };
    match nodes.get(path) {
        Some(node) => read_table(alloc, &id, node.value.as_bytes()),
        None => Ok(None),
    }
}

/// The tables of the nodes of these paths, one for each in their order, or none where one of the nodes is no table's. Takes memory
/// for the tables, and time with the values of the nodes and the logarithm of the number of all.
pub fn tables_at(
    alloc: Global,
    nodes: &NodeStore,
    paths: &[Path],
) -> Result<Option<Vec<TableNode>>, AllocError>
    ensures { IfOk result (λ found. MatchOption found (HasStray nodes.now.nodes paths.now) (λ tables. AreTablesAt nodes.now.nodes paths.now tables.items)) }
{
    let mut tables = Vec::new(alloc);
    for path in paths {
        let Some(table) = table_at(alloc, nodes, path)? else {
            return Ok(None);
        };
        tables.push(table)?;
    }
    Ok(Some(tables))
}

fn tables_parent(alloc: Global) -> Result<Path, AllocError>
    ensures { IfOk result (λ path. path ≡ codes "/tables") }
{
    let path = Path::new(alloc, TABLES_PARENT)?;
    Ok(path.unwrap())
}

/// All tables, in byte order of their ids: one for each node right below `/tables`.
///
/// `Damaged` names the nodes, and comes exactly where one of these nodes isn't of its form. Beside it there is want of memory
/// alone. Takes memory for the tables, asks nothing of a host, and takes time with the nodes below `/tables` and their values,
/// and the logarithm of the number of all.
pub fn tables(alloc: Global, nodes: &NodeStore) -> Result<Vec<TableNode>, Stop>
    ensures ok { IfOk result (λ tables. AreTables nodes.now.nodes tables.items) }
    ensures stops { IfErr result (TablesCause nodes.now) }
{
    let parent = tables_parent(alloc)?;
    let paths = nodes.children(&parent)?;
    match tables_at(alloc, nodes, &paths)? {
        Some(tables) => Ok(tables),
        None => Err(damaged(alloc, nodes)?),
    }
}

fn is_online(state: TableState) -> bool
    ensures { result ≡ is_online state }
{
    match state {
        TableState::Online => true,
        TableState::New | TableState::Deleting => false,
    }
}

fn is_online_named(table: &TableNode, name: &TableName) -> bool
    ensures { result ≡ is_online_named name.now table.now }
{
    is_online(table.state) && table.name == *name
}

/// The place of the first table that is ONLINE and has this name.
fn place_named(tables: &[TableNode], name: &TableName) -> Option<usize>
    ensures is { MatchOption result (first_named name.now tables.now ≡ None) (λ at. first_named name.now tables.now ≡ slice_get tables.now at) }
    ensures within { IfSome result (λ at. at < length tables.now) }
{
    for (at, table) in tables.iter().enumerate() {
        if is_online_named(table, name) {
            return Some(at);
        }
    }
    None
}

/// The ONLINE table of this name, or none exactly where no ONLINE table has it. Where two have it, it is the one with the
/// lower id.
///
/// `Damaged` names the nodes, and comes exactly where a node right below `/tables` isn't of its form, whichever it is, so that
/// the answer doesn't depend on an order. Beside it there is want of memory alone. Takes memory for all tables, asks nothing of
/// a host, and takes time as `tables` does.
pub fn table_by_name(
    alloc: Global,
    nodes: &NodeStore,
    name: &TableName,
) -> Result<Option<TableNode>, Stop>
    ensures ok { IfOk result (IsNamed nodes.now.nodes name.now) }
    ensures stops { IfErr result (TablesCause nodes.now) }
{
    let mut tables = tables(alloc, nodes)?;
    match place_named(&tables, name) {
        Some(at) => Ok(Some(tables.swap_remove(at))),
        None => Ok(None),
    }
}
