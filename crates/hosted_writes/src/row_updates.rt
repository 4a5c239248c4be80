// Updates of a row, which have no time yet.
ghost use Rattle.std.specs.Prelude.{◌≡◌, ◌<◌, ◌^◌};
ghost use Rattle.log_files.specs.Mutations.{AreUpdates, IsSpelled};
ghost use Rattle.hosted_writes.specs.Puts.{timed};

use metadata_schema::{Mutation, Updates};
use row_keys::{Row, TableId};

/// Updates of one row, which have no time yet: a tablet gives them its next one.
#[derive(Debug, Drop)]
pub struct RowUpdates {
    pub table: TableId,
    pub row: Row,
    /// Strictly increasing by family and qualifier.
    pub updates: Updates,
}

impl RowUpdates {
    /// The mutation that they are at this time. Takes no memory.
    pub(crate) fn at(self, time: u64) -> Mutation
        requires updates { AreUpdates self.updates }
        requires time { time < 2 ^ 63 }
        ensures is { result ≡ timed self time }
        ensures spelled { IsSpelled result }
    {
        // what is said of the bytes of a table id and of a row is so of these
        let _table = self.table.as_bytes();
        let _row = self.row.as_bytes();
        Mutation {
            table: self.table,
            row: self.row,
            time,
            updates: self.updates,
        }
    }
}
