// Each action on the ground of a store, with a stop within each call of the host.
use ground_store::Ground;
use host_model::Stop;
use log_files::log_file;
use memory_host::{MemoryHost, Pick};
use node_store::NodeOp;
use row_keys::{LogName, Octets, Path};
use std::alloc::Global;
use std::test::Fail;
use store_layout::{first_cells, root_file_path};

type Store = Ground<MemoryHost>;

// The insert of `v` into row `r`, family `f` and qualifier `q` of table 1, at time 1.
const INSERT: [u8; 25] = [
    1, 0x31, 0, 1, 0x72, 0, 0, 0, 0, 0, 0, 0, 1, 0, 0, 0, 1, 1, 0x66, 1, 0x71, 1, 0, 1, 0x76,
];

#[derive(Clone, Copy, Debug, PartialEq, Eq)]
enum Action {
    MakeNode,
    DrawName,
    MakeLog,
    AppendToLog,
    PutFile,
    RemoveFile,
    PutSorted,
    RemoveLog,
}

const ACTIONS: [Action; 8] = [
    Action::MakeNode,
    Action::DrawName,
    Action::MakeLog,
    Action::AppendToLog,
    Action::PutFile,
    Action::RemoveFile,
    Action::PutSorted,
    Action::RemoveLog,
];

impl Action {
    // Whether it makes a file that nothing names yet, in which a stop may leave anything.
    fn may_tear(self) -> bool {
        matches!(self, Action::MakeLog | Action::PutFile | Action::PutSorted)
    }
}

// How far an action came.
#[derive(Clone, Copy, Debug, PartialEq, Eq)]
enum Came {
    // What it stands on stopped.
    NotThere,
    Stopped,
    Done,
}

// How it shows on the disk.
#[derive(Clone, Copy, Debug, PartialEq, Eq)]
enum Shown {
    Before,
    After,
    // What it makes isn't there, or isn't in its grammar.
    Missing,
}

fn log_of(alloc: Global, name: &[u8]) -> Result<LogName, Fail> {
    Ok(LogName::new(alloc, name)?.ok_or("no name of a log")?)
}

// A log that the store has, with one mutation.
fn old_log(alloc: Global) -> Result<LogName, Fail> {
    log_of(alloc, b"log-0000000000000001")
}

// A log that it doesn't have.
fn new_log(alloc: Global) -> Result<LogName, Fail> {
    log_of(alloc, b"log-0000000000000002")
}

fn path_of(alloc: Global, path: &[u8]) -> Result<Path, Fail> {
    Ok(Path::new(alloc, path)?.ok_or("no path")?)
}

// The node that one of the actions makes.
fn node_path(alloc: Global) -> Result<Path, Fail> {
    path_of(alloc, b"/servers/a")
}

fn how_far<T: Drop>(answer: Result<T, Stop>) -> Came {
    match answer {
        Ok(_) => Came::Done,
        Err(_) => Came::Stopped,
    }
}

// ---- the actions

fn make_node(alloc: Global, store: &mut Store) -> Result<Came, Fail> {
    let mut ops = Vec::new(alloc);
    ops.push(NodeOp::Create {
        path: node_path(alloc)?,
        value: Octets::new(alloc, b"0000000000000001")?,
    })?;
    match store.multi(&ops) {
        Ok(()) => Ok(Came::Done),
        Err(_) => Ok(Came::Stopped),
    }
}

// Makes a log, and then appends one mutation.
fn append(store: &mut Store, log: &LogName) -> Came {
    match store.make_log(log) {
        Ok(()) => how_far(store.log_append(log, &INSERT)),
        Err(_) => Came::NotThere,
    }
}

// Makes a file that isn't there.
fn put_file(alloc: Global, store: &mut Store) -> Result<Came, Fail> {
    let path = root_file_path(alloc)?;
    match store.remove_file(&path) {
        Ok(()) => Ok(how_far(store.put_file(&path, &first_cells(alloc)?))),
        Err(_) => Ok(Came::NotThere),
    }
}

fn put_sorted(alloc: Global, store: &mut Store) -> Result<Came, Fail> {
    let log = old_log(alloc)?;
    match store.log_mutations(&log) {
        Ok(mutations) => Ok(how_far(store.put_sorted(&log, &mutations))),
        Err(_) => Ok(Came::NotThere),
    }
}

fn act(alloc: Global, store: &mut Store, action: Action) -> Result<Came, Fail> {
    match action {
        Action::MakeNode => make_node(alloc, store),
        Action::DrawName => Ok(how_far(store.draw_name())),
        Action::MakeLog => Ok(how_far(store.make_log(&new_log(alloc)?))),
        Action::AppendToLog => Ok(append(store, &new_log(alloc)?)),
        Action::PutFile => put_file(alloc, store),
        Action::RemoveFile => Ok(how_far(store.remove_file(&root_file_path(alloc)?))),
        Action::PutSorted => put_sorted(alloc, store),
        Action::RemoveLog => Ok(how_far(store.remove_name(&log_file(alloc, &old_log(alloc)?)?))),
    }
}

// ---- what they leave

// How many items a file has, or none where it isn't there or isn't in its grammar.
fn count_of<T: Drop>(found: Result<Vec<T>, Stop>) -> Option<usize> {
    match found {
        Ok(items) => Some(items.len()),
        Err(_) => None,
    }
}

fn counted(count: Option<usize>, after: usize) -> Shown {
    match count {
        Some(count) if count == after => Shown::After,
        Some(_) => Shown::Before,
        None => Shown::Missing,
    }
}

// The file or log is gone after the action.
fn gone(count: Option<usize>) -> Shown {
    match count {
        Some(_) => Shown::Before,
        None => Shown::After,
    }
}

fn value_of(alloc: Global, store: &Store, path: &[u8]) -> Result<Option<Octets>, Fail> {
    match store.nodes().get(&path_of(alloc, path)?) {
        Some(node) => Ok(Some(node.value.copy(alloc)?)),
        None => Ok(None),
    }
}

// Whether the number that is drawn next is the one behind that of a new store.
fn drawn(alloc: Global, store: &Store) -> Result<Shown, Fail> {
    match value_of(alloc, store, b"/next/name")? {
        Some(value) if value.as_bytes() == b"2".as_slice() => Ok(Shown::Before),
        Some(value) if value.as_bytes() == b"3".as_slice() => Ok(Shown::After),
        _ => Ok(Shown::Missing),
    }
}

fn node_made(alloc: Global, store: &Store) -> Result<Shown, Fail> {
    match value_of(alloc, store, b"/servers/a")? {
        Some(_) => Ok(Shown::After),
        None => Ok(Shown::Before),
    }
}

// How many cells the root tablet's first file has.
fn cells_of(alloc: Global, store: &mut Store) -> Result<Option<usize>, Fail> {
    match store.read_file(&root_file_path(alloc)?) {
        Ok(file) => Ok(Some(file.cells.as_slice().len())),
        Err(_) => Ok(None),
    }
}

fn shows(alloc: Global, store: &mut Store, action: Action) -> Result<Shown, Fail> {
    match action {
        Action::MakeNode => node_made(alloc, store),
        Action::DrawName => drawn(alloc, store),
        Action::MakeLog => Ok(counted(count_of(store.log_mutations(&new_log(alloc)?)), 0)),
        Action::AppendToLog => Ok(counted(count_of(store.log_mutations(&new_log(alloc)?)), 1)),
        Action::PutFile => Ok(counted(cells_of(alloc, store)?, 6)),
        Action::RemoveFile => Ok(gone(cells_of(alloc, store)?)),
        Action::PutSorted => Ok(counted(count_of(store.sorted_mutations(&old_log(alloc)?)), 1)),
        Action::RemoveLog => Ok(gone(count_of(store.log_mutations(&old_log(alloc)?)))),
    }
}

// ---- the table

// A new store with one log of one mutation.
fn new_store(alloc: Global) -> Result<MemoryHost, Fail> {
    let host = MemoryHost::new(alloc, b"", &[], None)?;
    let Ok(mut store) = Ground::init(alloc, host) else {
        return Err(Fail::from("no new store"));
    };
    match append(&mut store, &old_log(alloc)?) {
        Came::Done => Ok(store.finish()),
        _ => Err(Fail::from("no log")),
    }
}

// Takes the action on a new store, with a stop within this call, and then once more. Answers how far the action came, and how
// many calls of the host were made.
fn stopped_at(
    alloc: Global,
    action: Action,
    stop: Option<u64>,
    times: u64,
) -> Result<(Came, MemoryHost), Fail> {
    let host = new_store(alloc)?.after_crash(b"", &[], stop, Pick::Kept)?;
    match Ground::open(alloc, host) {
        Ok(mut store) => {
            let came = act(alloc, &mut store, action)?;
            for _ in 1..times {
                act(alloc, &mut store, action)?;
            }
            Ok((came, store.finish()))
        }
        Err((_, host)) => Ok((Came::NotThere, host)),
    }
}

// Whether what the next start finds is what the action may have left.
fn is_whole_or_absent(action: Action, came: Came, shown: Shown) -> bool {
    match (came, shown) {
        (Came::NotThere, _) | (_, Shown::After) => true,
        (Came::Done, _) => false,
        (Came::Stopped, Shown::Before) => true,
        (Came::Stopped, Shown::Missing) => action.may_tear(),
    }
}

fn survives(alloc: Global, action: Action, stop: u64, pick: Pick) -> Result<bool, Fail> {
    let (came, host) = stopped_at(alloc, action, Some(stop), 1)?;
    let host = host.after_crash(b"", &[], None, pick)?;
    let Ok(mut store) = Ground::open(alloc, host) else {
        return Err(Fail::from("the store doesn't open"));
    };
    let shown = shows(alloc, &mut store, action)?;
    Ok(is_whole_or_absent(action, came, shown))
}

#[test]
fn each_action_is_whole_or_absent(rt: HostRuntime) -> Result<(), Fail> {
    for action in ACTIONS {
        let (came, host) = stopped_at(rt.alloc(), action, None, 1)?;
        assert_eq!(rt; came, Came::Done);
        for stop in 1..=host.calls() {
            for pick in [Pick::Kept, Pick::Lost, Pick::Ones] {
                assert!(rt;
                    survives(rt.alloc(), action, stop, pick)?,
                    "{action:?} at call {stop}"
                );
            }
        }
    }
    Ok(())
}

#[test]
fn a_stopped_ground_asks_nothing(rt: HostRuntime) -> Result<(), Fail> {
    for action in ACTIONS {
        let calls = stopped_at(rt.alloc(), action, None, 1)?.1.calls();
        for stop in 1..=calls {
            let (_, once) = stopped_at(rt.alloc(), action, Some(stop), 1)?;
            let (_, twice) = stopped_at(rt.alloc(), action, Some(stop), 2)?;
            assert_eq!(rt; once.calls(), stop, "{action:?}");
            assert_eq!(rt; twice.calls(), stop, "{action:?}");
        }
    }
    Ok(())
}
