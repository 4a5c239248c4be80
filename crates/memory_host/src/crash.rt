// What a crash leaves of the files, taken back event by event.
ghost use Rattle.std.specs.Prelude.{◌≡◌, ℕ, List, [], false, IfOk, OnOk, cond, reverse, true};
ghost use Rattle.std.specs.Ordering.{nat_cmp};
ghost use Rattle.std.specs.Cmp.Lexicographic.{slice_cmp};
ghost use Rattle.std.specs.BTreeSet.{contains};
ghost use Rattle.host_model.specs.Picture.{file_at};
ghost use Rattle.memory_host.specs.Crash.{all_landed, is_named, nothing, ones, unsynced};
ghost use Rattle.memory_host.specs.Walk.{TakesBack, filled, here_of, unsynced_of};
ghost use Rattle.memory_host.specs.declared.event.Event.TheVariants.{Write, CutRemove, Put, Sync};
ghost use Rattle.memory_host.specs.declared.event.Written.{Written as WrittenValue};

use crate::event::{Event, Written};
use crate::file_map::FileMap;
use host_model::Name;
use std::alloc::{AllocError, Global};
use std::collections::BTreeSet;

fn take_write_back(
    files: &mut FileMap,
    settled: &BTreeSet<Name>,
    taken: &mut Vec<Written>,
    written: Written,
) -> Result<(), AllocError>
    ensures { OnOk result (TakesBack (Write written) (contains (slice_cmp nat_cmp) settled.now) files.old taken.old.items (contains (slice_cmp nat_cmp) settled.now) files.new taken.new.items) }
{
    if settled.contains(&written.name) {
        return Ok(());
    }
    files.take_back(&written)?;
    taken.push(written)?;
    Ok(())
}

fn put_back(
    files: &mut FileMap,
    settled: &BTreeSet<Name>,
    name: Name,
    was: Vec<u8>,
) -> Result<(), AllocError>
    ensures { OnOk result ((taken : List WrittenValue) → TakesBack (CutRemove name was) (contains (slice_cmp nat_cmp) settled.now) files.old taken (contains (slice_cmp nat_cmp) settled.now) files.new taken) }
{
    if settled.contains(&name) {
        return Ok(());
    }
    files.insert(name, was)?;
    Ok(())
}

fn settle(settled: &mut BTreeSet<Name>, name: Name) -> Result<(), AllocError>
    ensures { OnOk result ((other : List ℕ) → contains (slice_cmp nat_cmp) settled.new other ≡ cond (is_named name other) true (contains (slice_cmp nat_cmp) settled.old other)) }
{
    settled.insert(name)?;
    Ok(())
}

fn step_back(
    files: &mut FileMap,
    settled: &mut BTreeSet<Name>,
    taken: &mut Vec<Written>,
    event: Event,
) -> Result<(), AllocError>
    ensures { OnOk result (TakesBack event (contains (slice_cmp nat_cmp) settled.old) files.old taken.old.items (contains (slice_cmp nat_cmp) settled.new) files.new taken.new.items) }
{
    match event {
        Event::Write(written) => take_write_back(files, settled, taken, written),
        Event::CutRemove(name, was) => put_back(files, settled, name, was),
        Event::Put(name, _) => settle(settled, name),
        Event::Sync(name) => settle(settled, name),
        Event::CutCreate(_) => Ok(()),
        Event::Say(_) => Ok(()),
    }
}

// Takes back the writes since each file's last sync, and gives them, the newest first.
fn walk_back(
    alloc: Global,
    files: &mut FileMap,
    mut past: Vec<Event>,
) -> Result<Vec<Written>, AllocError>
    ensures { IfOk result (λ taken. (rule : WrittenValue → List ℕ → List ℕ) (name : List ℕ) → unsynced_of rule name (reverse past.items) (file_at files.old name) ≡ filled rule name taken.items (file_at files.new name)) }
{
    let mut settled = BTreeSet::new(alloc);
    let mut taken = Vec::new(alloc);
    while let Some(event) = past.pop() {
        step_back(files, &mut settled, &mut taken, event)?;
    }
    Ok(taken)
}

fn fill_back(alloc: Global, files: &mut FileMap, mut taken: Vec<Written>) -> Result<(), AllocError>
    ensures { OnOk result ((name : List ℕ) → filled ones name taken.items (file_at files.old name) ≡ file_at files.new name) }
{
    while let Some(written) = taken.pop() {
        files.fill(alloc, &written)?;
    }
    Ok(())
}

/// The files with every write landed, and with the create done that the crash fell into.
pub fn landed(
    alloc: Global,
    mut files: FileMap,
    mut past: Vec<Event>,
) -> Result<FileMap, AllocError>
    ensures { IfOk result (λ left. (said : List ℕ) → left ≡ all_landed (reverse past.items) (record { image = files; said = said })) }
{
    if let Some(Event::CutCreate(name)) = past.pop() {
        files.insert(name, Vec::new(alloc))?;
    }
    Ok(files)
}

/// The files with no unsynced write landed. Its time grows with the number of events.
pub fn lost(alloc: Global, mut files: FileMap, past: Vec<Event>) -> Result<FileMap, AllocError>
    ensures { IfOk result (λ left. (said : List ℕ) → left ≡ unsynced nothing (λ _. false) (reverse past.items) (record { image = files; said = said })) }
{
    walk_back(alloc, &mut files, past)?;
    Ok(files)
}

/// The files with each unsynced byte at 1. Its time grows with the number of events.
pub fn with_ones(alloc: Global, mut files: FileMap, past: Vec<Event>) -> Result<FileMap, AllocError>
    ensures { IfOk result (λ left. (said : List ℕ) → left ≡ unsynced ones (λ _. false) (reverse past.items) (record { image = files; said = said })) }
{
    let taken = walk_back(alloc, &mut files, past)?;
    fill_back(alloc, &mut files, taken)?;
    Ok(files)
}
