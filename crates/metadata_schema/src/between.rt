// From one record to another.
ghost use Rattle.std.specs.Prelude.{◌≡◌, ◌++◌, ◌≤◌, ◌+◌, None, IfOk, OnOk, map, drop, length};
ghost use Rattle.metadata_schema.specs.Columns.{columns_of, update_cmp};
ghost use Rattle.metadata_schema.specs.Records.{IsInOrder};
ghost use Rattle.metadata_schema.specs.Between.{LeadsBetween};
ghost use Rattle.metadata_schema.specs.Merging.{removal_of, same_value, changed_columns, between};

use crate::mutation::Update;
use crate::tablet::TabletRecord;
use crate::writing::columns_of;
use row_keys::Octets;
use std::alloc::{AllocError, Global};
use std::cmp::Ordering;

fn update_cmp(one: &Update, other: &Update) -> Ordering
    ensures { result ≡ update_cmp one.now other.now }
{
    one.family
        .cmp(&other.family)
        .then(one.qualifier.cmp(&other.qualifier))
}

fn copy_value(alloc: Global, value: &Option<Octets>) -> Result<Option<Octets>, AllocError>
    ensures { IfOk result (λ copy. copy ≡ value.now) }
{
    match value {
        Some(octets) => Ok(Some(octets.copy(alloc)?)),
        None => Ok(None),
    }
}

fn copy_of(alloc: Global, update: &Update) -> Result<Update, AllocError>
    ensures { IfOk result (λ copy. copy ≡ update.now) }
{
    Ok(Update {
        family: update.family.copy(alloc)?,
        qualifier: update.qualifier.copy(alloc)?,
        value: copy_value(alloc, &update.value)?,
    })
}

fn removal_of(alloc: Global, update: &Update) -> Result<Update, AllocError>
    ensures { IfOk result (λ removal. removal ≡ removal_of update.now) }
{
    Ok(Update {
        family: update.family.copy(alloc)?,
        qualifier: update.qualifier.copy(alloc)?,
        value: None,
    })
}

fn is_same_value(one: &Option<Octets>, other: &Option<Octets>) -> bool
    ensures { result ≡ same_value one.now other.now }
{
    match (one, other) {
        (Some(one), Some(other)) => one == other,
        (None, None) => true,
        _ => false,
    }
}

/// Adds what is to be said of a column that both have.
fn push_changed(
    alloc: Global,
    updates: &mut Vec<Update>,
    old: &Update,
    new: &Update,
) -> Result<(), AllocError>
    ensures { OnOk result (updates.new.items ≡ updates.old.items ++ changed_columns old.now new.now) }
{
    if !is_same_value(&old.value, &new.value) {
        updates.push(copy_of(alloc, new)?)?;
    }
    Ok(())
}

fn push_removals(
    alloc: Global,
    updates: &mut Vec<Update>,
    columns: &[Update],
) -> Result<(), AllocError>
    ensures { OnOk result (updates.new.items ≡ updates.old.items ++ map removal_of columns.now) }
{
    for column in columns {
        updates.push(removal_of(alloc, column)?)?;
    }
    Ok(())
}

fn push_copies(
    alloc: Global,
    updates: &mut Vec<Update>,
    columns: &[Update],
) -> Result<(), AllocError>
    ensures { OnOk result (updates.new.items ≡ updates.old.items ++ columns.now) }
{
    for column in columns {
        updates.push(copy_of(alloc, column)?)?;
    }
    Ok(())
}

/// Adds what the first of these columns say, one or both of them; how many of either were gone through.
fn push_first(
    alloc: Global,
    updates: &mut Vec<Update>,
    old: &[Update],
    new: &[Update],
) -> Result<(usize, usize), AllocError>
    requires old { 1 ≤ length old.now }
    requires new { 1 ≤ length new.now }
    ensures past { IfOk result (λ past. (past.0 ≤ length old.now) × (past.1 ≤ length new.now) × (1 ≤ past.0 + past.1)) }
    ensures rest { IfOk result (λ past. updates.new.items ++ between (drop past.0 old.now) (drop past.1 new.now) ≡ updates.old.items ++ between old.now new.now) }
{
    match update_cmp(&old[0], &new[0]) {
        Ordering::Less => {
            updates.push(removal_of(alloc, &old[0])?)?;
            Ok((1, 0))
        }
        Ordering::Equal => {
            push_changed(alloc, updates, &old[0], &new[0])?;
            Ok((1, 1))
        }
        Ordering::Greater => {
            updates.push(copy_of(alloc, &new[0])?)?;
            Ok((0, 1))
        }
    }
}

/// The updates between two lists of columns in order. Time and memory go with their number.
fn between(alloc: Global, old: &[Update], new: &[Update]) -> Result<Vec<Update>, AllocError>
    ensures { IfOk result (λ updates. updates.items ≡ between old.now new.now) }
{
    let mut updates = Vec::new(alloc);
    let mut from = 0;
    let mut to = 0;
    while from < old.len() && to < new.len() {
        let (gone, come) = push_first(alloc, &mut updates, &old[from..], &new[to..])?;
        from += gone;
        to += come;
    }
    push_removals(alloc, &mut updates, &old[from..])?;
    push_copies(alloc, &mut updates, &new[to..])?;
    Ok(updates)
}

/// The updates that lead from the columns of one record to those of another, and no others, in order. Takes memory for the columns
/// of both, and time with their number.
pub fn updates_between(
    alloc: Global,
    before: &TabletRecord,
    after: &TabletRecord,
) -> Result<Vec<Update>, AllocError>
    requires before { IsInOrder before.now }
    requires after { IsInOrder after.now }
    ensures { IfOk result (λ updates. LeadsBetween (columns_of before.now) (columns_of after.now) updates.items) }
{
    let old = columns_of(alloc, before)?;
    let new = columns_of(alloc, after)?;
    between(alloc, &old, &new)
}
