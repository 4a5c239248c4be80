// Tables made by hand, and what they stand for.
use super::*;
use crate::made::*;
use metadata_schema::{LoadedEntry, TabletRecord};
use plain_model::{PlainStore, PlainTable};
use row_keys::{ListOf, LogName};
use state_reader::{Mutations, StillGround, Untold};
use std::alloc::Global;
use std::test::Fail;
use store_layout::Mark;

// The name, the split points, and each row with its value.
fn put_text(text: &mut Vec<u8>, table: &PlainTable) -> Result<(), Fail> {
    text.extend_from_slice(table.name.as_bytes())?;
    text.push(b'|')?;
    for split in table.splits.as_slice() {
        text.extend_from_slice(split.as_bytes())?;
        text.push(b' ')?;
    }
    text.push(b'|')?;
    for pair in table.pairs.as_slice() {
        text.extend_from_slice(pair.key.row.as_bytes())?;
        text.push(b'=')?;
        text.extend_from_slice(pair.value.as_bytes())?;
        text.push(b' ')?;
    }
    Ok(())
}

fn put_fault(text: &mut Vec<u8>, fault: &PutFault) -> Result<(), Fail> {
    match fault {
        PutFault::Table(TableFault::NoChain) => text.extend_from_slice(b"no chain")?,
        PutFault::Table(TableFault::Lacks(_, Untold::Log(log))) => {
            text.extend_from_slice(log.as_bytes())?;
        }
        PutFault::Table(TableFault::Twice(_)) => text.extend_from_slice(b"twice")?,
        PutFault::Table(TableFault::LacksMarked(path)) => text.extend_from_slice(path.as_bytes())?,
        PutFault::NameTaken => text.extend_from_slice(b"taken")?,
        _ => text.extend_from_slice(b"other")?,
    }
    Ok(())
}

// What the table stands for, or what is to blame.
fn table_text(
    alloc: Global,
    still: &StillGround,
    records: &[TabletRecord],
    mark: Mark,
) -> Result<Vec<u8>, Fail> {
    let node = online(alloc, mark)?;
    let mut state = PlainStore::new(alloc);
    let mut text = Vec::new(alloc);
    match put_table(alloc, still, records, &node, &mut state) {
        Ok(()) => {
            for table in state.tables() {
                put_text(&mut text, table)?;
            }
        }
        Err(fault) => put_fault(&mut text, &fault)?,
    }
    Ok(text)
}

// Whether these records without a mark stand for this in that ground.
fn stand_for(alloc: Global, records: &[TabletRecord], wanted: &[u8]) -> Result<bool, Fail> {
    let still = ground(alloc)?;
    Ok(table_text(alloc, &still, records, Mark::Free)?.as_slice() == wanted)
}

// An unused file is there, and counts for nothing.
#[test]
fn two_tablets_are_split_between(rt: HostRuntime) -> Result<(), Fail> {
    let alloc = rt.alloc();
    let low = tablet(alloc, Some(b"m"), None)?;
    let high = bare(alloc, None, Some(b"m"))?;
    assert!(rt; stand_for(alloc, &two(alloc, low, high)?, b"t|m |a=w ")?);
    Ok(())
}

#[test]
fn a_split_shows_with_its_lower_half(rt: HostRuntime) -> Result<(), Fail> {
    let alloc = rt.alloc();
    let mut first = tablet(alloc, None, Some(b"m"))?;
    first.old_prev = Some(None);
    assert!(rt; stand_for(alloc, &one(alloc, first)?, b"t||a=w n=w ")?);
    let mut second = tablet(alloc, None, Some(b"m"))?;
    second.old_prev = Some(None);
    let low = tablet(alloc, Some(b"m"), None)?;
    assert!(rt; stand_for(alloc, &two(alloc, low, second)?, b"t|m |a=w n=w ")?);
    let low = tablet(alloc, Some(b"m"), None)?;
    let third = tablet(alloc, None, Some(b"m"))?;
    assert!(rt; stand_for(alloc, &two(alloc, low, third)?, b"t|m |a=w n=w ")?);
    Ok(())
}

#[test]
fn a_row_without_its_lower_half_is_no_chain(rt: HostRuntime) -> Result<(), Fail> {
    let alloc = rt.alloc();
    let high = tablet(alloc, None, Some(b"m"))?;
    assert!(rt; stand_for(alloc, &one(alloc, high)?, b"no chain")?);
    Ok(())
}

#[test]
fn a_row_that_is_left_over_counts_for_nothing(rt: HostRuntime) -> Result<(), Fail> {
    let alloc = rt.alloc();
    let whole = tablet(alloc, None, None)?;
    let mut left = bare(alloc, Some(b"c"), None)?;
    add_file(alloc, &mut left, OTHER, None)?;
    assert!(rt; stand_for(alloc, &two(alloc, left, whole)?, b"t||a=w n=w ")?);
    Ok(())
}

// The tablet of all rows, with a file and a log.
fn logged_tablet(alloc: Global, file_time: Option<u64>) -> Result<TabletRecord, Fail> {
    let mut whole = bare(alloc, None, None)?;
    add_file(alloc, &mut whole, FILE, file_time)?;
    whole.logs.push(LogName::new(alloc, LOG)?.ok_or("no log")?)?;
    Ok(whole)
}

// A ground whose log has one mutation at this time.
fn logged_ground(alloc: Global, time: u64) -> Result<StillGround, Fail> {
    let mut mutations = Mutations::new(alloc);
    mutations.push(mutation(alloc, time, b"v")?)?;
    let mut still = ground(alloc)?;
    let log = LogName::new(alloc, LOG)?.ok_or("no log")?;
    still.logs.insert(log, mutations)?;
    Ok(still)
}

// What the tablet stands for whose log has one mutation at this time.
fn logged_text(alloc: Global, time: u64, file_time: Option<u64>) -> Result<Vec<u8>, Fail> {
    let still = logged_ground(alloc, time)?;
    let tablets = one(alloc, logged_tablet(alloc, file_time)?)?;
    table_text(alloc, &still, &tablets, Mark::Free)
}

#[test]
fn a_mutation_counts_past_the_bar(rt: HostRuntime) -> Result<(), Fail> {
    let alloc = rt.alloc();
    assert_eq!(rt;
        logged_text(alloc, 5, None)?.as_slice(),
        b"t||a=w n=w ".as_slice()
    );
    assert_eq!(rt;
        logged_text(alloc, 6, None)?.as_slice(),
        b"t||a=v n=w ".as_slice()
    );
    assert_eq!(rt;
        logged_text(alloc, 6, Some(9))?.as_slice(),
        b"t||a=w n=w ".as_slice()
    );
    Ok(())
}

#[test]
fn a_log_that_is_not_told_is_to_blame(rt: HostRuntime) -> Result<(), Fail> {
    let alloc = rt.alloc();
    let mut whole = bare(alloc, None, None)?;
    whole.logs.push(LogName::new(alloc, LOG)?.ok_or("no log")?)?;
    assert!(rt; stand_for(alloc, &one(alloc, whole)?, LOG)?);
    Ok(())
}

fn import(alloc: Global, file: &[u8]) -> Result<Mark, Fail> {
    let mut paths = ListOf::new(alloc);
    paths.push(path(alloc, file)?)?;
    Ok(Mark::Import { tid: 7, paths })
}

#[test]
fn an_imported_file_lies_over_the_tablets_that_lack_it(rt: HostRuntime) -> Result<(), Fail> {
    let alloc = rt.alloc();
    let low = tablet(alloc, Some(b"m"), None)?;
    let mut high = tablet(alloc, None, Some(b"m"))?;
    high.loaded.push(LoadedEntry {
        path: path(alloc, IMPORTED)?,
        tid: 7,
    })?;
    let records = two(alloc, low, high)?;
    let still = ground(alloc)?;
    let text = table_text(alloc, &still, &records, import(alloc, IMPORTED)?)?;
    assert_eq!(rt; text.as_slice(), b"t|m |a=i n=w ".as_slice());
    let missing = b"1/default_tablet/I0000009.rf";
    let text = table_text(alloc, &still, &records, import(alloc, missing)?)?;
    assert_eq!(rt; text.as_slice(), missing.as_slice());
    Ok(())
}

#[test]
fn two_cells_of_one_time_are_to_blame(rt: HostRuntime) -> Result<(), Fail> {
    let alloc = rt.alloc();
    let mut whole = tablet(alloc, None, None)?;
    add_file(alloc, &mut whole, OTHER, Some(3))?;
    assert!(rt; stand_for(alloc, &one(alloc, whole)?, b"twice")?);
    Ok(())
}
