// Each event with a stop within each call of the host.
use crate::tests::acts::{FAR_FILE, file_path, stray_log};
use crate::tests::events::{Came, EVENTS, Event, prepared, taken};
use ground_store::Ground;
use memory_host::{MemoryHost, Pick};
use row_keys::{LogName, Octets, Path};
use std::alloc::Global;
use std::test::Fail;

type Store = Ground<MemoryHost>;

/// How an event shows on the disk.
#[derive(Clone, Copy, Debug, PartialEq, Eq)]
enum Shown {
    Before,
    After,
    /// A file that nothing names yet isn't there, or isn't in its grammar.
    Missing,
}

fn path_of(alloc: Global, path: &[u8]) -> Result<Path, Fail> {
    Ok(Path::new(alloc, path)?.ok_or("no path")?)
}

fn value_of(alloc: Global, store: &Store, path: &[u8]) -> Result<Option<Octets>, Fail> {
    match store.nodes().get(&path_of(alloc, path)?) {
        Some(node) => Ok(Some(node.value.copy(alloc)?)),
        None => Ok(None),
    }
}

fn log_of(alloc: Global, session: &Octets) -> Result<LogName, Fail> {
    let mut name = Vec::new(alloc);
    name.extend_from_slice(b"log-")?;
    name.extend_from_slice(session.as_bytes())?;
    Ok(LogName::new(alloc, &name)?.ok_or("no name of a log")?)
}

/// A server that shows has its log, without mutations.
fn started(alloc: Global, store: &mut Store) -> Result<Shown, Fail> {
    let Some(session) = value_of(alloc, store, b"/servers/a")? else {
        return Ok(Shown::Before);
    };
    let log = log_of(alloc, &session)?;
    match store.log_mutations(&log) {
        Ok(mutations) => {
            if !mutations.is_empty() {
                return Err(Fail::from("a log with mutations"));
            }
            Ok(Shown::After)
        }
        Err(_) => Err(Fail::from("a server without its log")),
    }
}

fn server_gone(alloc: Global, store: &Store) -> Result<Shown, Fail> {
    match value_of(alloc, store, b"/servers/a")? {
        Some(_) => Ok(Shown::Before),
        None => Ok(Shown::After),
    }
}

fn node_made(alloc: Global, store: &Store) -> Result<Shown, Fail> {
    match value_of(alloc, store, b"/tables/1")? {
        Some(value) if value.as_bytes() == b"NEW t -".as_slice() => Ok(Shown::After),
        Some(_) => Err(Fail::from("another value")),
        None => Ok(Shown::Before),
    }
}

/// Whether the number that is drawn next is the one behind that of a new store.
fn drawn(alloc: Global, store: &Store) -> Result<Shown, Fail> {
    match value_of(alloc, store, b"/next/name")? {
        Some(value) if value.as_bytes() == b"2".as_slice() => Ok(Shown::Before),
        Some(value) if value.as_bytes() == b"3".as_slice() => Ok(Shown::After),
        _ => Err(Fail::from("another number")),
    }
}

/// A file with the six cells of a new store's first one.
fn file_put(alloc: Global, store: &mut Store, path: &[u8]) -> Result<Shown, Fail> {
    let path = file_path(alloc, path)?;
    match store.read_file(&path) {
        Ok(file) => {
            if file.cells.as_slice().len() != 6 {
                return Err(Fail::from("a file of other cells"));
            }
            Ok(Shown::After)
        }
        Err(_) => Ok(Shown::Missing),
    }
}

fn sorted_put(alloc: Global, store: &mut Store) -> Result<Shown, Fail> {
    let log = stray_log(alloc)?;
    match store.sorted_mutations(&log) {
        Ok(mutations) => {
            if !mutations.is_empty() {
                return Err(Fail::from("a sorted log with mutations"));
            }
            Ok(Shown::After)
        }
        Err(_) => Ok(Shown::Missing),
    }
}

/// What was made is whole still, or gone.
fn taken_out(made: Shown) -> Shown {
    match made {
        Shown::After => Shown::Before,
        _ => Shown::After,
    }
}

fn shows(alloc: Global, store: &mut Store, event: Event) -> Result<Shown, Fail> {
    match event {
        Event::Open | Event::EndServer => server_gone(alloc, store),
        Event::StartServer => started(alloc, store),
        Event::ChangeNodes => node_made(alloc, store),
        Event::DrawName => drawn(alloc, store),
        Event::PutNewFile => file_put(alloc, store, b"+r/root_tablet/A0000002.rf"),
        Event::PutFile => file_put(alloc, store, FAR_FILE),
        Event::RemoveFile => Ok(taken_out(file_put(alloc, store, FAR_FILE)?)),
        Event::PutSorted => sorted_put(alloc, store),
        Event::RemoveName => Ok(taken_out(sorted_put(alloc, store)?)),
    }
}

/// Whether it makes a file that nothing names yet, in which a stop may leave anything.
fn may_tear(event: Event) -> bool {
    matches!(event, Event::PutNewFile | Event::PutFile | Event::PutSorted)
}

/// Whether what the next start finds is what the event may have left.
fn may_show(event: Event, came: Came, shown: Shown) -> bool {
    match (came, shown) {
        (Came::NotThere, _) | (_, Shown::After) => true,
        (Came::Done, _) => false,
        (Came::Stopped, Shown::Before) => true,
        (Came::Stopped, Shown::Missing) => may_tear(event),
    }
}

fn stopped_at(alloc: Global, event: Event, stop: Option<u64>) -> Result<(Came, MemoryHost), Fail> {
    let host = prepared(alloc, event)?.after_crash(b"", &[], stop, Pick::Kept)?;
    taken(alloc, host, event)
}

fn survives(alloc: Global, event: Event, stop: u64, pick: Pick) -> Result<bool, Fail> {
    let (came, host) = stopped_at(alloc, event, Some(stop))?;
    let host = host.after_crash(b"", &[], None, pick)?;
    let Ok(mut store) = Ground::open(alloc, host) else {
        return Err(Fail::from("the store doesn't open"));
    };
    let shown = shows(alloc, &mut store, event)?;
    Ok(may_show(event, came, shown))
}

#[test]
fn each_event_is_whole_or_absent(rt: HostRuntime) -> Result<(), Fail> {
    for event in EVENTS {
        let (came, host) = stopped_at(rt.alloc(), event, None)?;
        assert_eq!(rt; came, Came::Done);
        for stop in 1..=host.calls() {
            for pick in [Pick::Kept, Pick::Lost, Pick::Ones] {
                assert!(rt;
                    survives(rt.alloc(), event, stop, pick)?,
                    "{event:?} at call {stop}"
                );
            }
        }
    }
    Ok(())
}
