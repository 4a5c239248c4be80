// The parts of a table.
ghost use Rattle.std.specs.Prelude.{◌≡◌, ◌≢◌, [], ◌∷◌, Some, IfOk, IfErr, OnOk, MatchBool};
ghost use Rattle.level_rows.specs.Chain.{rows_of, IsChain};
ghost use Rattle.store_layout.specs.declared.tables.Mark.{Mark as MarkOf};
ghost use Rattle.store_meaning.specs.Ground.{Ground};
ghost use Rattle.store_meaning.specs.Content.{contents_of};
ghost use Rattle.store_meaning.specs.Readable.{HaveConsistentTablets};
ghost use Rattle.state_reader.specs.Lacks.{ChainCause};
ghost use Rattle.state_reader.specs.Still.{ground_of};
ghost use Rattle.plain_reader.specs.declared.fault.TableFault.TheVariants.{NoMemory};
ghost use Rattle.plain_reader.specs.Parts.{AreParts, TableCause, HasNoParts, IsConsistentIn, IsTwiceIn};

use crate::consistent::are_consistent;
use crate::fault::TableFault;
use crate::lists::copy_of;
use crate::marks::mark_layers;
use crate::parts::TableParts;
use cell_merge::Cells;
use level_rows::chain;
use metadata_schema::TabletRecord;
use row_keys::TableId;
use state_reader::{ChainFault, StillGround, chain_cells, told_cells};
use std::alloc::Global;
use store_layout::Mark;

/// The tablets of a table, from the last one down.
fn tablets_of(
    alloc: Global,
    table: &TableId,
    records: &[TabletRecord],
) -> Result<Vec<TabletRecord>, TableFault>
    ensures ok { IfOk result (λ tablets. IsChain (rows_of table.now records.now) tablets.items) }
    ensures cause { IfErr result (λ fault. (known : Ground) (mark : MarkOf) → TableCause known (rows_of table.now records.now) mark fault) }
{
    let Some(mut tablets) = chain(alloc, table, records)? else {
        return Err(TableFault::NoChain);
    };
    tablets.reverse();
    Ok(tablets)
}

/// The cells of the tablets of a table.
fn cells_of(
    alloc: Global,
    still: &StillGround,
    table: &TableId,
    records: &[TabletRecord],
    tablets: &[TabletRecord],
) -> Result<Cells, TableFault>
    requires { IsChain (rows_of table.now records.now) tablets.now }
    ensures ok { IfOk result (λ cells. contents_of (ground_of still.now) (rows_of table.now records.now) tablets.now ≡ Some cells) }
    ensures cause { IfErr result (λ fault. (mark : MarkOf) → TableCause (ground_of still.now) (rows_of table.now records.now) mark fault) }
{
    match chain_cells(alloc, still, table, records, tablets) {
        Ok(cells) => Ok(cells),
        Err(ChainFault::Lacks(end, untold)) => Err(TableFault::Lacks(end, untold)),
        Err(ChainFault::NoMemory) => Err(TableFault::NoMemory),
    }
}

/// Whether in a tablet of a table no two different cells have the same key and time.
fn is_consistent(
    alloc: Global,
    still: &StillGround,
    records: &[TabletRecord],
    tablet: &TabletRecord,
) -> Result<bool, ChainFault>
    ensures ok { IfOk result (λ is. MatchBool is (IsConsistentIn (ground_of still.now) (rows_of tablet.now.table records.now) tablet.now) (IsTwiceIn (ground_of still.now) (rows_of tablet.now.table records.now) tablet.now)) }
    ensures cause { IfErr result (ChainCause (ground_of still.now) (tablet.now ∷ [])) }
{
    let cells = told_cells(alloc, still, records, tablet)?;
    Ok(are_consistent(cells.as_slice()))
}

/// Looks whether in no tablet of a table two different cells have the same key and time.
fn check_tablets(
    alloc: Global,
    still: &StillGround,
    table: &TableId,
    records: &[TabletRecord],
    tablets: &[TabletRecord],
) -> Result<(), TableFault>
    requires { IsChain (rows_of table.now records.now) tablets.now }
    ensures ok { OnOk result (HaveConsistentTablets (ground_of still.now) (rows_of table.now records.now) tablets.now) }
    ensures cause { IfErr result (λ fault. (mark : MarkOf) → TableCause (ground_of still.now) (rows_of table.now records.now) mark fault) }
{
    for tablet in tablets {
        let consistent = match is_consistent(alloc, still, records, tablet) {
            Ok(consistent) => consistent,
            Err(ChainFault::Lacks(end, untold)) => return Err(TableFault::Lacks(end, untold)),
            Err(ChainFault::NoMemory) => return Err(TableFault::NoMemory),
        };
        if !consistent {
            return Err(TableFault::Twice(copy_of(alloc, &tablet.end)?));
        }
    }
    Ok(())
}

fn parts_of(
    alloc: Global,
    still: &StillGround,
    table: &TableId,
    records: &[TabletRecord],
    mark: &Mark,
) -> Result<TableParts, TableFault>
    ensures ok { IfOk result (λ parts. AreParts (ground_of still.now) (rows_of table.now records.now) mark.now parts.chain.items parts.cells parts.layers.items) }
    ensures cause { IfErr result (TableCause (ground_of still.now) (rows_of table.now records.now) mark.now) }
{
    let chain = tablets_of(alloc, table, records)?;
    let cells = cells_of(alloc, still, table, records, &chain)?;
    check_tablets(alloc, still, table, records, &chain)?;
    let layers = mark_layers(alloc, still, table, records, &chain, mark)?;
    Ok(TableParts {
        chain,
        cells,
        layers,
    })
}

/// The parts of a table with this mark among the records of its level. Each fault but want of memory comes only where it has none, and
/// names what is to blame. Takes memory for copies of the cells and records, and time with the square of their number.
pub fn table_parts(
    alloc: Global,
    still: &StillGround,
    table: &TableId,
    records: &[TabletRecord],
    mark: &Mark,
) -> Result<TableParts, TableFault>
    ensures ok { IfOk result (λ parts. AreParts (ground_of still.now) (rows_of table.now records.now) mark.now parts.chain.items parts.cells parts.layers.items) }
    ensures cause { IfErr result (TableCause (ground_of still.now) (rows_of table.now records.now) mark.now) }
    ensures none { IfErr result (λ fault. fault ≢ NoMemory → HasNoParts (ground_of still.now) (rows_of table.now records.now) mark.now) }
{
    parts_of(alloc, still, table, records, mark)
}
