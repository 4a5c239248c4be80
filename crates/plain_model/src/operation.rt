// Operations on the plain state, and the entries of a history.
use row_keys::{Key, ListOf, Octets, Row, Rows, StagedName, StagedNames, TableId, TableName};

/// A key and its value.
#[derive(Debug, PartialEq, Eq, Drop)]
pub struct Pair {
    pub key: Key,
    pub value: Octets,
}

/// A list of pairs.
pub type Pairs = ListOf<Pair>;

/// What is done to the plain state. Each operation is whole or refused.
#[derive(Debug, Drop)]
pub enum Op {
    /// A table is there, with this id and name, split at these rows, in any order and each once, and without pairs.
    Create {
        id: TableId,
        name: TableName,
        splits: Rows,
    },
    /// The table is gone.
    Delete {
        id: TableId,
    },
    /// The table has this name.
    Rename {
        id: TableId,
        name: TableName,
    },
    /// The table is split at this row, too.
    Split {
        id: TableId,
        at: Row,
    },
    /// The split points above `from` and below `to` are gone. A bound that isn't there is no limit.
    Merge {
        id: TableId,
        from: Option<Row>,
        to: Option<Row>,
    },
    /// These split points are gone, and the pairs with rows above `from`, up to `to` and at it.
    DeleteRows {
        id: TableId,
        from: Option<Row>,
        to: Option<Row>,
    },
    /// The pairs of these staged files are put, file after file in this order.
    Import {
        id: TableId,
        names: StagedNames,
    },
    /// A table is there with the id `new_id` and this name, and with the split points and pairs of `id`.
    Clone {
        id: TableId,
        new_id: TableId,
        name: TableName,
    },
    /// The pair is put over its key.
    Insert {
        id: TableId,
        pair: Pair,
    },
    /// The key's pair is gone, if there was one.
    Remove {
        id: TableId,
        key: Key,
    },
    /// A file of this name is staged, with these pairs, in any order, of a repeated key the last.
    Stage {
        name: StagedName,
        pairs: Pairs,
    },
}

/// What did or submitted an operation.
#[derive(Clone, Copy, Debug, PartialEq, Eq, Drop)]
pub enum Source {
    /// The line of this number.
    Line(u32),
    /// The transaction of this number, which stood in the store at opening.
    Carried(u64),
}

/// One committed operation of a history.
#[derive(Debug, Drop)]
pub struct Entry {
    pub op: Op,
    pub source: Source,
    /// The line at which it committed.
    pub line: u32,
    /// The number of the lock under which it committed.
    pub lock: Option<u64>,
}

/// A history: the committed operations in order.
pub type Entries = ListOf<Entry>;
