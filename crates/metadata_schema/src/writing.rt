// From a record to its columns.
ghost use Rattle.std.specs.Prelude.{◌≡◌, ◌++◌, Some, IfOk, OnOk, codes};
ghost use Rattle.std.specs.Option.{option_map};
ghost use Rattle.std.specs.Fmt.{decimal};
ghost use Rattle.row_keys.specs.MetadataRow.{prev_value};
ghost use Rattle.metadata_schema.specs.Values.{bar_value, chopped_value};
ghost use Rattle.metadata_schema.specs.Columns.{at_most_one, columns_of, fixed_columns};

use crate::files::push_files;
use crate::holders::{FUTURE, LOC, push_holder};
use crate::loaded::push_loaded;
use crate::logs::push_logs;
use crate::mutation::Update;
use crate::numbers::number_value;
use crate::singles::{
    CHOPPED, DIR, MERGED, OLD_PREV, PREV, SRV, TAB, TIME, bar_value, push_single,
};
use crate::tablet::TabletRecord;
use row_keys::{Octets, prev_value};
use std::alloc::{AllocError, Global};

fn push_chopped(alloc: Global, columns: &mut Vec<Update>, chopped: bool) -> Result<(), AllocError>
    ensures { OnOk result (columns.new.items ≡ columns.old.items ++ at_most_one (codes "chopped") (codes "chopped") (chopped_value chopped)) }
{
    if chopped {
        push_single(
            alloc,
            columns,
            CHOPPED,
            CHOPPED,
            Octets::new(alloc, CHOPPED)?,
        )?;
    }
    Ok(())
}

fn push_server(
    alloc: Global,
    columns: &mut Vec<Update>,
    tablet: &TabletRecord,
) -> Result<(), AllocError>
    ensures { OnOk result (columns.new.items ≡ columns.old.items ++ (at_most_one (codes "srv") (codes "dir") (Some tablet.now.dir) ++ at_most_one (codes "srv") (codes "time") (Some (bar_value tablet.now.time)))) }
{
    push_single(alloc, columns, SRV, DIR, tablet.dir.copy(alloc)?)?;
    push_single(alloc, columns, SRV, TIME, bar_value(alloc, tablet.time)?)
}

fn push_merged(
    alloc: Global,
    columns: &mut Vec<Update>,
    merged: Option<u64>,
) -> Result<(), AllocError>
    ensures { OnOk result (columns.new.items ≡ columns.old.items ++ at_most_one (codes "~tab") (codes "merged") (option_map decimal merged)) }
{
    if let Some(tid) = merged {
        push_single(alloc, columns, TAB, MERGED, number_value(alloc, tid)?)?;
    }
    Ok(())
}

fn push_old_prev(
    alloc: Global,
    columns: &mut Vec<Update>,
    tablet: &TabletRecord,
) -> Result<(), AllocError>
    ensures { OnOk result (columns.new.items ≡ columns.old.items ++ at_most_one (codes "~tab") (codes "oldprevrow") (option_map prev_value tablet.now.old_prev)) }
{
    if let Some(prev) = &tablet.old_prev {
        push_single(
            alloc,
            columns,
            TAB,
            OLD_PREV,
            prev_value(alloc, prev.as_ref())?,
        )?;
    }
    Ok(())
}

fn push_fixed(
    alloc: Global,
    columns: &mut Vec<Update>,
    tablet: &TabletRecord,
) -> Result<(), AllocError>
    ensures { OnOk result (columns.new.items ≡ columns.old.items ++ fixed_columns tablet.now) }
{
    push_server(alloc, columns, tablet)?;
    push_merged(alloc, columns, tablet.merged)?;
    push_old_prev(alloc, columns, tablet)?;
    push_single(
        alloc,
        columns,
        TAB,
        PREV,
        prev_value(alloc, tablet.prev.as_ref())?,
    )
}

/// The columns of a record, in order. Time and memory go with their number.
pub fn columns_of(alloc: Global, tablet: &TabletRecord) -> Result<Vec<Update>, AllocError>
    ensures { IfOk result (λ columns. columns.items ≡ columns_of tablet.now) }
{
    let mut columns = Vec::new(alloc);
    push_chopped(alloc, &mut columns, tablet.chopped)?;
    push_files(alloc, &mut columns, tablet.files.as_slice())?;
    push_holder(alloc, &mut columns, FUTURE, tablet.future.as_ref())?;
    push_loaded(alloc, &mut columns, tablet.loaded.as_slice())?;
    push_holder(alloc, &mut columns, LOC, tablet.loc.as_ref())?;
    push_logs(alloc, &mut columns, tablet.logs.as_slice())?;
    push_fixed(alloc, &mut columns, tablet)?;
    Ok(columns)
}
