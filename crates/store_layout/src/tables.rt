// What the nodes of tables say.
use row_keys::{Paths, Row, TableId, TableName};

/// The state of a table.
#[derive(Clone, Copy, Debug, PartialEq, Eq)]
pub enum TableState {
    /// It is being made, and isn't there for a user yet.
    New,
    /// It is there.
    Online,
    /// It was deleted, and its tablets are being taken out.
    Deleting,
}

/// How far a merge, or a deletion of rows, is.
#[derive(Clone, Copy, Debug, PartialEq, Eq)]
pub enum Phase {
    /// Files of the range that hold rows outside their tablets are being replaced.
    Chop,
    /// The tablets of the range are to be on no server.
    Offline,
}

/// What is being done with a table.
#[derive(Debug, Drop)]
pub enum Mark {
    /// Nothing that needs a mark.
    Free,
    /// A transaction merges the tablets of a range, or deletes its rows. A bound that isn't there is no limit.
    Merge {
        tid: u64,
        phase: Phase,
        from: Option<Row>,
        to: Option<Row>,
    },
    /// A transaction imports these files, each over those before it.
    Import {
        tid: u64,
        paths: Paths,
    },
}

/// What the node of a table says.
#[derive(Debug, Drop)]
pub struct TableNode {
    pub id: TableId,
    pub name: TableName,
    pub state: TableState,
    pub mark: Mark,
}
