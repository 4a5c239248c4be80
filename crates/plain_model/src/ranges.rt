// Ranges of rows. A bound that isn't there is no limit.
ghost use Rattle.std.specs.Prelude.{◌≡◌, ◌&&◌};
ghost use Rattle.std.specs.Option.{option_copied};
ghost use Rattle.row_keys.specs.RowOrder.{is_above, is_up_to, is_within, is_interval};
ghost use Rattle.plain_model.specs.Apply.{is_under};

use row_keys::Row;

fn is_above(from: Option<&Row>, row: &Row) -> bool
    ensures { result ≡ is_above (option_copied from.entry) row.now }
{
    match from {
        None => true,
        Some(low) => low < row,
    }
}

fn is_under(to: Option<&Row>, row: &Row) -> bool
    ensures { result ≡ is_under (option_copied to.entry) row.now }
{
    match to {
        None => true,
        Some(high) => row < high,
    }
}

fn is_up_to(to: Option<&Row>, row: &Row) -> bool
    ensures { result ≡ is_up_to (option_copied to.entry) row.now }
{
    match to {
        None => true,
        Some(high) => row <= high,
    }
}

/// Whether the row is above `from` and below `to`.
pub(crate) fn is_between(from: Option<&Row>, to: Option<&Row>, row: &Row) -> bool
    ensures { result ≡ (is_above (option_copied from.entry) row.now && is_under (option_copied to.entry) row.now) }
{
    is_above(from, row) && is_under(to, row)
}

/// Whether the row is above `from`, and below `to` or at it.
pub(crate) fn is_within(from: Option<&Row>, to: Option<&Row>, row: &Row) -> bool
    ensures { result ≡ is_within (option_copied from.entry) (option_copied to.entry) row.now }
{
    is_above(from, row) && is_up_to(to, row)
}

/// Whether `from` is below `to`, where both are there.
pub(crate) fn is_interval(from: Option<&Row>, to: Option<&Row>) -> bool
    ensures { result ≡ is_interval (option_copied from.entry) (option_copied to.entry) }
{
    match (from, to) {
        (Some(low), Some(high)) => low < high,
        _ => true,
    }
}
