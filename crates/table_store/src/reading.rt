// The tables that nodes say.
ghost use Rattle.std.specs.Prelude.{◌≡◌, ◌==◌, ◌||◌, ℕ, List, IfOk, MatchBool, MatchOption, All, Contains};
ghost use Rattle.std.specs.FinMap as map;
ghost use Rattle.std.specs.List.{list_any};
ghost use Rattle.std.specs.Str.{bytes_eq};
ghost use Rattle.store_layout.specs.Nodes.{instance_path, instance_value, root_path};
ghost use Rattle.table_store.specs.Layout.{counter_paths, fixed_paths};
ghost use Rattle.table_store.specs.Reading.{HasPath, HasValue, HasNext, IsReading, HasNoReading, IsTableNode, IsNoTableNode, AddsNode, AddsNone, ReadsPaths, ReadsNone};

use crate::index::TableIndex;
use crate::nodes::{COUNTERS, INSTANCE, INSTANCE_VALUE, NEXT_TABLE, ROOT, counter_paths, path};
use crate::values::{id_of, name_of};
use node_store::NodeStore;
use row_keys::{TableId, TableName};
use std::alloc::{AllocError, Global};
use store_layout::next_number;

fn has_instance(alloc: Global, nodes: &NodeStore) -> Result<bool, AllocError>
    ensures { IfOk result (λ has. MatchBool has (HasValue nodes.now.nodes instance_path instance_value) (HasValue nodes.now.nodes instance_path instance_value → ⊥)) }
{
    let path = path(alloc, INSTANCE)?;
    match nodes.get(&path) {
        Some(node) => Ok(node.value.as_bytes() == INSTANCE_VALUE),
        None => Ok(false),
    }
}

fn has_root(alloc: Global, nodes: &NodeStore) -> Result<bool, AllocError>
    ensures { IfOk result (λ has. MatchBool has (HasPath nodes.now.nodes root_path) (HasPath nodes.now.nodes root_path → ⊥)) }
{
    let path = path(alloc, ROOT)?;
    match nodes.get(&path) {
        Some(_) => Ok(true),
        None => Ok(false),
    }
}

fn has_counters(alloc: Global, nodes: &NodeStore) -> Result<bool, AllocError>
    ensures { IfOk result (λ has. MatchBool has (All (HasNext nodes.now.nodes) counter_paths) (All (HasNext nodes.now.nodes) counter_paths → ⊥)) }
{
    for path in &counter_paths(alloc)? {
        if next_number(alloc, nodes, path)?.is_none() {
            return Ok(false);
        }
    }
    Ok(true)
}

/// Whether each store has this path.
fn is_fixed(path: &[u8]) -> bool
    ensures { result ≡ list_any (λ fixed. bytes_eq fixed path.now) fixed_paths }
{
    INSTANCE == path || ROOT == path || COUNTERS.contains(&path)
}

/// The table whose node has this path and value, where its id was drawn before `next`.
fn table_of(
    alloc: Global,
    next: u64,
    path: &[u8],
    value: &[u8],
) -> Result<Option<(TableName, TableId)>, AllocError>
    ensures { IfOk result (λ found. MatchOption found (IsNoTableNode next path.now value.now) (λ table. IsTableNode next path.now value.now table.0 table.1)) }
{
    let Some(id) = id_of(alloc, next, path)? else {
        return Ok(None);
    };
    let Some(name) = name_of(alloc, value)? else {
        return Ok(None);
    };
    Ok(Some((name, id)))
}

/// Adds the table whose node has this path and value. False comes exactly where the node is of no form, or its table's
/// name is there.
fn add_node(
    alloc: Global,
    tables: &mut TableIndex,
    next: u64,
    path: &[u8],
    value: &[u8],
) -> Result<bool, AllocError>
    ensures { IfOk result (λ is_added. MatchBool is_added (AddsNode next path.now value.now tables.old tables.new) (AddsNone next path.now value.now tables.old)) }
{
    if is_fixed(path) {
        return Ok(true);
    }
    let Some((name, id)) = table_of(alloc, next, path, value)? else {
        return Ok(false);
    };
    if tables.contains(&name) {
        return Ok(false);
    }
    tables.insert(name, id)?;
    Ok(true)
}

fn read_nodes(alloc: Global, nodes: &NodeStore, next: u64) -> Result<Option<TableIndex>, AllocError>
    ensures { IfOk result (λ found. MatchOption found (ReadsNone nodes.now.nodes next) (λ tables. ReadsPaths nodes.now.nodes next (map.keys nodes.now.nodes) tables)) }
{
    let mut tables = TableIndex::new(alloc);
    for path in &nodes.paths()? {
        let node = nodes.get(path).unwrap();
        if !add_node(
            alloc,
            &mut tables,
            next,
            path.as_bytes(),
            node.value.as_bytes(),
        )? {
            return Ok(None);
        }
    }
    Ok(Some(tables))
}

/// The tables that the nodes say and the number that is drawn next, or none exactly where some node isn't of its form.
/// Time goes with the number of nodes times its logarithm.
pub fn read_tables(
    alloc: Global,
    nodes: &NodeStore,
) -> Result<Option<(TableIndex, u64)>, AllocError>
    ensures { IfOk result (λ found. MatchOption found (HasNoReading nodes.now.nodes) (λ read. IsReading nodes.now.nodes (record { by_name = read.0; next = read.1 }))) }
{
    if !has_instance(alloc, nodes)? || !has_root(alloc, nodes)? || !has_counters(alloc, nodes)? {
        return Ok(None);
    }
    let path = path(alloc, NEXT_TABLE)?;
    let Some(next) = next_number(alloc, nodes, &path)? else {
        return Ok(None);
    };
    match read_nodes(alloc, nodes, next)? {
        Some(tables) => Ok(Some((tables, next))),
        None => Ok(None),
    }
}
