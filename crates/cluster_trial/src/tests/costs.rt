// What each event asks of the host.
use crate::counting_host::CountingHost;
use crate::counts::Counts;
use crate::tests::events::{Event, prepared, taken};
use memory_host::Pick;
use std::alloc::Global;
use std::test::Fail;

// All that a run asks that opens a store, and then takes the event if there is one.
fn asked(alloc: Global, store: Event, event: Event) -> Result<Counts, Fail> {
    let host = prepared(alloc, store)?.after_crash(b"", &[], None, Pick::Kept)?;
    let (_, host) = taken(alloc, CountingHost::new(host), event)?;
    Ok(host.counts())
}

// What an event asks on a cluster that is open.
fn cost(alloc: Global, event: Event) -> Result<Counts, Fail> {
    // (opening a store without servers asks what opening its ground does)
    let opening = asked(alloc, Event::StartServer, Event::Open)?;
    Ok(asked(alloc, event, event)?.since(opening))
}

#[test]
fn events_cost_what_their_documents_say(rt: HostRuntime) -> Result<(), Fail> {
    // the creations, removals and syncs: a multi has two syncs, a log or a file one creation and one sync
    let costs = [
        (Event::Open, 0, 0, 2),
        (Event::StartServer, 1, 0, 3),
        (Event::EndServer, 1, 0, 5),
        (Event::ChangeNodes, 0, 0, 2),
        (Event::DrawName, 0, 0, 2),
        (Event::PutNewFile, 1, 0, 3),
        (Event::PutFile, 1, 0, 1),
        (Event::RemoveFile, 1, 1, 1),
        (Event::PutSorted, 1, 0, 1),
        (Event::RemoveName, 1, 1, 1),
    ];
    for (event, creates, removes, syncs) in costs {
        let cost = cost(rt.alloc(), event)?;
        assert_eq!(rt;
            (cost.creates, cost.removes, cost.syncs),
            (creates, removes, syncs),
            "{event:?}"
        );
        assert_eq!(rt; cost.looks, 0, "{event:?}");
    }
    Ok(())
}
