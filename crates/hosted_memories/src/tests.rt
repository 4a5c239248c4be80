// A worked life of the memories of two tablets.
use super::*;
use row_keys::{Row, SessionId};
use std::test::Fail;
use tablet_mem::TabletMem;

#[test]
fn a_memory_is_taken_out_and_put_back(rt: HostRuntime) -> Result<(), Fail> {
    let alloc = rt.alloc();
    let first = Row::new(alloc, b"1;m")?;
    let last = Row::new(alloc, b"1<")?;
    let one = SessionId::new(alloc, b"0000000000000001")?.ok_or("no session")?;
    let two = SessionId::new(alloc, b"0000000000000002")?.ok_or("no session")?;
    let mut memories = HostedMemories::new(alloc);
    assert!(rt; memories.is_empty());
    memories.insert(
        last.copy(alloc)?,
        two.copy(alloc)?,
        TabletMem::new(alloc, 5, 0),
    )?;
    memories.insert(
        first.copy(alloc)?,
        one.copy(alloc)?,
        TabletMem::new(alloc, 3, 0),
    )?;
    assert_eq!(rt; memories.len(), 2);
    assert!(rt; memories.next_row(None).ok_or("no first row")? == &first);
    assert!(rt; memories.next_row(Some(&first)).ok_or("no second row")? == &last);
    assert!(rt; memories.next_row(Some(&last)).is_none());
    let empty = TabletMem::new(alloc, 0, 0);
    let taken = memories
        .exchange(&first, empty)
        .map_err(|_| "the first tablet isn't hosted")?;
    assert_eq!(rt; taken.next_time(), 4);
    assert!(rt; memories.exchange(&first, taken).is_ok());
    assert_eq!(rt; memories.get(&first).ok_or("no memory")?.next_time(), 4);
    assert!(rt; memories.session(&first).ok_or("no session")? == &one);
    memories.drop_session(&one);
    assert!(rt; memories.get(&first).is_none());
    assert!(rt;
        memories
            .exchange(&first, TabletMem::new(alloc, 7, 0))
            .is_err()
    );
    assert!(rt; memories.remove(&last).is_some());
    assert!(rt; memories.is_empty());
    Ok(())
}
