// Tables put into a plain state.
ghost use Rattle.std.specs.Prelude.{◌≡◌, [], ◌∷◌, ◌++◌, false, IfOk, IfErr, OnOk};
ghost use Rattle.plain_model.specs.Apply.{put_table as with_put, has_name};
ghost use Rattle.level_rows.specs.Chain.{rows_of};
ghost use Rattle.state_reader.specs.Still.{ground_of};
ghost use Rattle.plain_reader.specs.Tables.{ends_of, bare_table, PutsTable, NameCause, PutCause};

use crate::fault::{PutFault, TableFault};
use crate::put::{put_cells, put_layers};
use crate::table::table_parts;
use metadata_schema::TabletRecord;
use plain_model::{Op, PlainStop, PlainStore};
use row_keys::{ListOf, Row, Rows};
use state_reader::StillGround;
use std::alloc::{AllocError, Global};
use store_layout::TableNode;

/// Adds the end row of a tablet, if it has one.
fn push_end(alloc: Global, rows: &mut Vec<Row>, tablet: &TabletRecord) -> Result<(), AllocError>
    ensures { OnOk result (rows.new.items ≡ rows.old.items ++ ends_of (tablet.now ∷ [])) }
{
    if let Some(end) = &tablet.end {
        rows.push(end.copy(alloc)?)?;
    }
    Ok(())
}

/// The end rows of tablets.
fn ends_of(alloc: Global, chain: &[TabletRecord]) -> Result<Vec<Row>, AllocError>
    ensures { IfOk result (λ rows. rows.items ≡ ends_of chain.now) }
{
    let mut rows = Vec::new(alloc);
    for tablet in chain {
        push_end(alloc, &mut rows, tablet)?;
    }
    Ok(rows)
}

/// Makes the table, split at these rows and without pairs.
fn create(
    alloc: Global,
    node: &TableNode,
    splits: Rows,
    state: &mut PlainStore,
) -> Result<(), PutFault>
    ensures ok { OnOk result (state.new ≡ with_put node.now.id (bare_table node.now.name splits) state.old) }
    ensures free { OnOk result (has_name node.now.name state.old ≡ false) }
    ensures cause { IfErr result (NameCause node.now.name state.old) }
{
    let op = Op::Create {
        id: node.id.copy(alloc)?,
        name: node.name.copy(alloc)?,
        splits,
    };
    match state.apply(&op) {
        Ok(()) => Ok(()),
        Err(PlainStop::Exists) => Err(PutFault::NameTaken),
        Err(_) => Err(PutFault::NoMemory),
    }
}

/// Puts a table into a state as the ground stands for it, in place of one with its id: its name, its split points, and the newest of its
/// cells with the files of an import mark over those of the tablets that lack it. The records are those of its level.
///
/// `NameTaken` comes only where a table of the state has the name, and there `Ok` never comes; each other fault but want of memory only where the ground has no
/// such table, and names what is to blame. Behind a fault the table may be in the state with some of its pairs. Takes memory for
/// copies of the cells, and time with the square of their number.
pub fn put_table(
    alloc: Global,
    still: &StillGround,
    records: &[TabletRecord],
    node: &TableNode,
    state: &mut PlainStore,
) -> Result<(), PutFault>
    ensures ok { OnOk result (PutsTable (ground_of still.now) (rows_of node.now.id records.now) node.now state.old state.new) }
    ensures free { OnOk result (has_name node.now.name state.old ≡ false) }
    ensures cause { IfErr result (PutCause (ground_of still.now) (rows_of node.now.id records.now) node.now state.old) }
{
    let parts = match table_parts(alloc, still, &node.id, records, &node.mark) {
        Ok(parts) => parts,
        Err(TableFault::NoMemory) => return Err(PutFault::NoMemory),
        Err(fault) => return Err(PutFault::Table(fault)),
    };
    let splits = ListOf::from_vec(ends_of(alloc, &parts.chain)?);
    create(alloc, node, splits, state)?;
    put_cells(alloc, state, &node.id, parts.cells.as_slice())?;
    put_layers(alloc, state, &node.id, &parts.layers)?;
    Ok(())
}
