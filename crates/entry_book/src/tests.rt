// Worked rows: what is offered is in doubt until it is committed or taken back.
use super::*;
use plain_model::{Entry, Op, Source};
use row_keys::TableId;
use std::alloc::Global;
use std::test::Fail;

/// An entry that deletes the table `1`, by this line.
fn entry(alloc: Global, line: u32) -> Result<Entry, Fail> {
    Ok(Entry {
        op: Op::Delete {
            id: TableId::new(alloc, b"1")?.ok_or("no table's id")?,
        },
        source: Source::Line(line),
        line,
        lock: None,
    })
}

/// Offers an entry, where none is offered.
fn offer(book: &mut EntryBook, alloc: Global, line: u32) -> Result<bool, Fail> {
    if book.offered().is_some() {
        return Ok(false);
    }
    book.offer(entry(alloc, line)?)?;
    Ok(true)
}

/// The lines of the history.
fn lines(book: &EntryBook, alloc: Global) -> Result<String, Fail> {
    let mut text = String::new(alloc);
    for entry in book.history() {
        text.push_str(&entry.line.to_string(alloc)?)?;
        text.push(' ')?;
    }
    Ok(text)
}

#[test]
fn an_offered_entry_is_committed_or_taken_back(rt: HostRuntime) -> Result<(), Fail> {
    let alloc = rt.alloc();
    let mut book = EntryBook::new(alloc);
    assert!(rt; offer(&mut book, alloc, 3)?);
    assert!(rt; !offer(&mut book, alloc, 4)?);
    assert_eq!(rt; lines(&book, alloc)?.as_str(), "");
    book.commit();
    assert_eq!(rt; lines(&book, alloc)?.as_str(), "3 ");
    assert!(rt; offer(&mut book, alloc, 5)?);
    book.withdraw();
    assert!(rt; offer(&mut book, alloc, 6)?);
    let (history, doubt) = book.finish();
    assert_eq!(rt; history.as_slice().len(), 1);
    assert_eq!(rt; doubt.map(|entry| entry.line), Some(6));
    Ok(())
}

#[test]
fn a_transaction_comes_from_its_line(rt: HostRuntime) -> Result<(), Fail> {
    let alloc = rt.alloc();
    let mut book = EntryBook::new(alloc);
    book.set_line(7);
    book.note_line(9)?;
    book.set_line(8);
    assert_eq!(rt; book.line(), 8);
    assert_eq!(rt; book.source_of(9), Source::Line(7));
    assert_eq!(rt; book.source_of(7), Source::Carried(7));
    Ok(())
}
