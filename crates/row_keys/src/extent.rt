// The rows of a tablet.
ghost use Rattle.std.specs.Prelude.{◌≡◌};
ghost use Rattle.std.specs.Option.{option_copied};
ghost use Rattle.row_keys.specs.RowOrder.{is_above, is_up_to, is_within, is_interval, higher_low, lower_high, have_common};

use crate::forms::TableId;
use crate::row::Row;

/// A tablet's table and its rows: those above the previous row, up to the end row and at it. A bound that isn't there is no
/// limit.
#[derive(Debug, PartialEq, Eq, Drop)]
pub struct Extent {
    /// The table.
    pub table: TableId,
    /// The previous row: the end row of the tablet before.
    pub prev: Option<Row>,
    /// The end row.
    pub end: Option<Row>,
}

/// Whether the row is above the bound.
fn is_above(low: Option<&Row>, row: &Row) -> bool
    ensures { result ≡ is_above (option_copied low.entry) row.now }
{
    match low {
        Some(low) => low < row,
        None => true,
    }
}

/// Whether the row is up to the bound, or at it.
fn is_up_to(high: Option<&Row>, row: &Row) -> bool
    ensures { result ≡ is_up_to (option_copied high.entry) row.now }
{
    match high {
        Some(high) => row <= high,
        None => true,
    }
}

/// The greater of two lower bounds.
fn higher_low<'a>(a: Option<&'a Row>, b: Option<&'a Row>) -> Option<&'a Row>
    ensures { option_copied result ≡ higher_low (option_copied a.entry) (option_copied b.entry) }
{
    match (a, b) {
        (Some(low), Some(other)) => Some(if low < other { other } else { low }),
        (Some(low), None) => Some(low),
        (None, other) => other,
    }
}

/// The smaller of two upper bounds.
fn lower_high<'a>(a: Option<&'a Row>, b: Option<&'a Row>) -> Option<&'a Row>
    ensures { option_copied result ≡ lower_high (option_copied a.entry) (option_copied b.entry) }
{
    match (a, b) {
        (Some(high), Some(other)) => Some(if other < high { other } else { high }),
        (Some(high), None) => Some(high),
        (None, other) => other,
    }
}

impl Extent {
    /// Whether the row lies in the extent. Takes no memory, and time with the rows' lengths.
    pub fn contains(&self, row: &Row) -> bool
        ensures { result ≡ is_within self.now.prev self.now.end row.now }
    {
        is_above(self.prev.as_ref(), row) && is_up_to(self.end.as_ref(), row)
    }

    /// Whether the extent and the rows above `from`, up to `to` and at it, have an interval in common: the greater of the two
    /// lower bounds is below the smaller of the two upper ones. Takes no memory, and time with the rows' lengths.
    pub fn meets(&self, from: Option<&Row>, to: Option<&Row>) -> bool
        ensures { result ≡ have_common self.now.prev self.now.end (option_copied from.entry) (option_copied to.entry) }
    {
        let low = higher_low(self.prev.as_ref(), from);
        let high = lower_high(self.end.as_ref(), to);
        match (low, high) {
            (Some(low), Some(high)) => low < high,
            _ => true,
        }
    }
}
