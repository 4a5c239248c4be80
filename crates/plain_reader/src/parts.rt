// What a table is read from: its tablets, their cells, and the layers of its import mark.
use cell_merge::Cells;
use metadata_schema::TabletRecord;

/// The parts of a table.
#[derive(Debug, Drop)]
pub struct TableParts {
    /// The tablets, from the last one down.
    pub chain: Vec<TabletRecord>,
    /// Their cells.
    pub cells: Cells,
    /// The files of the import mark, each over those before it and over the cells.
    pub layers: Vec<Cells>,
}
