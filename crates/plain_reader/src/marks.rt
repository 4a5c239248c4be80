// What an import mark brings to the tablets of its table.
ghost use Rattle.std.specs.Prelude.{◌≡◌, Some, IfOk, IfErr, filter};
ghost use Rattle.std.specs.List.{list_all};
ghost use Rattle.cell_merge.specs.Newest.{clipped};
ghost use Rattle.level_rows.specs.Chain.{Rows, effective_prev, rows_of};
ghost use Rattle.store_layout.specs.declared.tables.Mark.{Mark as MarkOf};
ghost use Rattle.store_meaning.specs.Content.{all_told};
ghost use Rattle.store_meaning.specs.Marked.{has_loaded, is_lacking, cells_within, layers_of, layer_of, mark_paths};
ghost use Rattle.state_reader.specs.Still.{ground_of};
ghost use Rattle.state_reader.specs.Lacks.{AreOfTable};
ghost use Rattle.plain_reader.specs.Parts.{TableCause};

use crate::fault::TableFault;
use crate::lists::{copy_of, push_item};
use cell_merge::{Cell, Cells, clip};
use level_rows::effective_prev;
use metadata_schema::TabletRecord;
use row_keys::{Extent, Path, TableId};
use state_reader::StillGround;
use std::alloc::{AllocError, Global};
use store_layout::Mark;

/// Whether the tablet has the `loaded` column of this transaction and path.
fn has_loaded(tid: u64, tablet: &TabletRecord, path: &Path) -> bool
    ensures { result ≡ has_loaded tid tablet.now path.now }
{
    tablet
        .loaded
        .as_slice()
        .iter()
        .any(|entry| entry.path == *path && entry.tid == tid)
}

/// Whether the tablet has the `loaded` columns of this transaction and all of these paths.
fn has_all_loaded(tid: u64, tablet: &TabletRecord, paths: &[Path]) -> bool
    ensures { result ≡ list_all (has_loaded tid tablet.now) paths.now }
{
    for path in paths {
        if !has_loaded(tid, tablet, path) {
            return false;
        }
    }
    true
}

/// Whether the tablet lacks a `loaded` column of an import mark.
fn is_lacking(mark: &Mark, tablet: &TabletRecord) -> bool
    ensures { result ≡ is_lacking mark.now tablet.now }
{
    match mark {
        Mark::Import { tid, paths } => !has_all_loaded(*tid, tablet, paths.as_slice()),
        Mark::Free | Mark::Merge { .. } => false,
    }
}

/// Copies of the tablets that lack a `loaded` column of the mark.
fn lacking(
    alloc: Global,
    mark: &Mark,
    chain: &[TabletRecord],
) -> Result<Vec<TabletRecord>, AllocError>
    ensures { IfOk result (λ tablets. tablets.items ≡ filter (is_lacking mark.now) chain.now) }
{
    let mut tablets = Vec::new(alloc);
    for tablet in chain {
        if is_lacking(mark, tablet) {
            tablets.push(tablet.copy(alloc)?)?;
        }
    }
    Ok(tablets)
}

/// Those of the cells that lie in the tablet.
fn cells_inside(
    alloc: Global,
    records: &[TabletRecord],
    tablet: &TabletRecord,
    cells: &[Cell],
) -> Result<Vec<Cell>, AllocError>
    ensures { IfOk result (λ inside. inside.items ≡ clipped (effective_prev (rows_of tablet.now.table records.now) tablet.now) tablet.now.end cells.now) }
{
    let extent = Extent {
        table: tablet.table.copy(alloc)?,
        prev: effective_prev(alloc, tablet, records)?,
        end: copy_of(alloc, &tablet.end)?,
    };
    clip(alloc, cells, &extent)
}

/// Those of the cells that lie in these tablets of a table, tablet after tablet.
fn cells_within(
    alloc: Global,
    table: &TableId,
    records: &[TabletRecord],
    tablets: &[TabletRecord],
    cells: &[Cell],
) -> Result<Vec<Cell>, AllocError>
    requires { AreOfTable table.now tablets.now }
    ensures { IfOk result (λ within. within.items ≡ cells_within (rows_of table.now records.now) tablets.now cells.now) }
{
    let mut within = Vec::new(alloc);
    for tablet in tablets {
        within.append(&mut cells_inside(alloc, records, tablet, cells)?)?;
    }
    Ok(within)
}

/// The files as layers over these tablets of a table, in their order.
fn layers_over(
    alloc: Global,
    still: &StillGround,
    table: &TableId,
    records: &[TabletRecord],
    tablets: &[TabletRecord],
    paths: &[Path],
) -> Result<Vec<Cells>, TableFault>
    requires { AreOfTable table.now tablets.now }
    ensures ok { IfOk result (λ layers. all_told (layer_of (ground_of still.now) (rows_of table.now records.now) tablets.now) paths.now ≡ Some layers.items) }
    ensures cause { IfErr result (λ fault. (rows : Rows) (mark : MarkOf) → mark_paths mark ≡ paths.now → TableCause (ground_of still.now) rows mark fault) }
{
    let mut layers = Vec::new(alloc);
    for path in paths {
        let Some(cells) = still.files.get(path) else {
            return Err(TableFault::LacksMarked(path.copy(alloc)?));
        };
        let within = cells_within(alloc, table, records, tablets, cells.as_slice())?;
        push_item(&mut layers, Cells::from_vec(within))?;
    }
    Ok(layers)
}

/// The layers of the files of a mark over the tablets that lack it, in the order of the files.
pub fn mark_layers(
    alloc: Global,
    still: &StillGround,
    table: &TableId,
    records: &[TabletRecord],
    chain: &[TabletRecord],
    mark: &Mark,
) -> Result<Vec<Cells>, TableFault>
    requires { AreOfTable table.now chain.now }
    ensures ok { IfOk result (λ layers. layers_of (ground_of still.now) (rows_of table.now records.now) chain.now mark.now ≡ Some layers.items) }
    ensures cause { IfErr result (λ fault. (rows : Rows) → TableCause (ground_of still.now) rows mark.now fault) }
{
    match mark {
        Mark::Import { paths, .. } => {
            let tablets = lacking(alloc, mark, chain)?;
            layers_over(alloc, still, table, records, &tablets, paths.as_slice())
        }
        Mark::Free | Mark::Merge { .. } => Ok(Vec::new(alloc)),
    }
}
