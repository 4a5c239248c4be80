// The nodes that a new store has.
ghost use Rattle.std.specs.Prelude.{◌≡◌, ◌<◌, ◌^◌, IfOk, IsOk, length};
ghost use Rattle.std.specs.FinMap as map_of;
ghost use Rattle.row_keys.specs.Forms.{IsPath};
ghost use Rattle.log_files.specs.Mutations.{AreUpdates};
ghost use Rattle.data_files.specs.Files.{spelled_file};
ghost use Rattle.metadata_schema.specs.Columns.{columns_of};
ghost use Rattle.node_store.specs.declared.changes.NodeOp.TheVariants.{Create};
ghost use Rattle.node_store.specs.Multi.{spelled_multi};
ghost use Rattle.node_store.specs.Nodes.{multi_applied};
ghost use Rattle.store_layout.specs.Nodes.{root_value};
ghost use Rattle.store_layout.specs.NewStore.{counter, first_cells, first_ops, first_root};

use crate::new_store::{FIRST_TIME, ROOT_FILE, new_tablet, path_of, table_of};
use log_files::put_updates;
use metadata_schema::{FileEntry, TabletRecord, columns_of};
use node_store::NodeOp;
use row_keys::{ListOf, Octets};
use std::alloc::{AllocError, Global};

const ROOT_TABLE: &[u8] = b"+r";

const ROOT_DIRECTORY: &[u8] = b"root_tablet";

/// How many cells the first file of the root tablet has.
const FIRST_ENTRIES: u64 = 6;

const INSTANCE: &[u8] = b"/instance";

const INSTANCE_VALUE: &[u8] = b"accmgr 1";

const ROOT: &[u8] = b"/root";

const NEXT_TABLE: &[u8] = b"/next/table";

const NEXT_TRANSACTION: &[u8] = b"/next/tx";

const NEXT_NAME: &[u8] = b"/next/name";

const NEXT_SESSION: &[u8] = b"/next/session";

const NEXT_LOCK: &[u8] = b"/next/lock";

/// The root tablet of a new store, whose one file has so many bytes. Takes memory for it.
pub fn first_root(alloc: Global, size: u64) -> Result<TabletRecord, AllocError>
    requires { size ≡ length (spelled_file first_cells) }
    ensures { IfOk result (λ tablet. tablet ≡ first_root) }
{
    let table = table_of(alloc, ROOT_TABLE)?;
    let file = FileEntry {
        path: path_of(alloc, ROOT_FILE)?,
        size,
        entries: FIRST_ENTRIES,
        time: None,
    };
    let mut tablet = new_tablet(alloc, table, None, None, ROOT_DIRECTORY)?;
    tablet.time = FIRST_TIME;
    tablet.files = ListOf::from_vec(vec![in alloc; file]?);
    Ok(tablet)
}

/// The value of `/root` that spells the root tablet: its columns, as the updates that write them. Takes memory for it.
pub fn root_value(alloc: Global, tablet: &TabletRecord) -> Result<Octets, AllocError>
    requires { AreUpdates (columns_of tablet.now) }
    ensures { IfOk result (λ value. value ≡ root_value tablet.now) }
{
    let columns = columns_of(alloc, tablet)?;
    let mut bytes = Vec::new(alloc);
    put_updates(&mut bytes, &columns)?;
    Ok(Octets::from_vec(bytes))
}

/// The value of `/root` in a new store, where the one file of the root tablet has so many bytes.
fn first_root_value(alloc: Global, size: u64) -> Result<Octets, AllocError>
    requires { size ≡ length (spelled_file first_cells) }
    ensures { IfOk result (λ value. value ≡ root_value first_root) }
{
    let tablet = first_root(alloc, size)?;
    root_value(alloc, &tablet)
}

fn create(alloc: Global, path: &[u8], value: Octets) -> Result<NodeOp, AllocError>
    requires { IsPath path.now }
    ensures { IfOk result (λ op. op ≡ Create path.now value) }
{
    let path = path_of(alloc, path)?;
    Ok(NodeOp::Create { path, value })
}

fn counter(alloc: Global, path: &[u8], number: u64) -> Result<NodeOp, AllocError>
    requires { IsPath path.now }
    ensures { IfOk result (λ op. op ≡ counter path.now number) }
{
    let digits = number.to_string(alloc)?;
    let text = Octets::new(alloc, digits.as_bytes())?;
    create(alloc, path, text)
}

/// The changes that make a store, where the first file of the root tablet has so many bytes. Takes memory for them.
pub fn first_ops(alloc: Global, size: u64) -> Result<Vec<NodeOp>, AllocError>
    requires { size ≡ length (spelled_file first_cells) }
    ensures { IfOk result (λ ops. ops.items ≡ first_ops) }
{
    let instance = Octets::new(alloc, INSTANCE_VALUE)?;
    let root = first_root_value(alloc, size)?;
    Ok(vec![in alloc;
        create(alloc, INSTANCE, instance)?,
        create(alloc, ROOT, root)?,
        counter(alloc, NEXT_TABLE, 1)?,
        counter(alloc, NEXT_TRANSACTION, 1)?,
        counter(alloc, NEXT_NAME, 2)?,
        counter(alloc, NEXT_SESSION, 1)?,
        counter(alloc, NEXT_LOCK, 1)?,
    ]?)
}

/// The changes that make a store apply where there are no nodes, and have few bytes; the first file of the root tablet has 222.
pub fn a_new_store_begins()
    ensures applies { IsOk (multi_applied first_ops map_of.empty) }
    ensures short { length (spelled_multi first_ops) < 2 ^ 20 }
    ensures size { length (spelled_file first_cells) ≡ 222 }
{}
