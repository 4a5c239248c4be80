// How the serving of a script ends, and the outcome that this makes.
ghost use Rattle.std.specs.Prelude.{◌≡◌, None, Err};
ghost use Rattle.shell.specs.Ending.{status_for, damaged_for, unbegun, stopped_with, without_store};

use crate::outcomes::Outcome;
use ground_store::GroundStop;
use host_model::{HostFault, Name, Stop};
use plain_model::{Entries, Entry};
use row_keys::ListOf;
use std::alloc::Global;

/// The status where there is no store, or one where a new one was to be made.
const NO_STORE: u8 = 8;

/// How the serving of a script ends where nothing stops it.
#[derive(Clone, Copy, Debug, PartialEq, Eq)]
pub enum Ending {
    /// The script was read to its end.
    ScriptEnd,
    /// A line is too long, or one too many.
    NoLine,
}

/// The status of an ending, and the file that is damaged.
fn status_of(ending: Result<Ending, Stop>) -> (u8, Option<Name>)
    ensures { result ≡ (status_for ending, damaged_for ending) }
{
    match ending {
        Ok(Ending::ScriptEnd) => (0, None),
        Ok(Ending::NoLine) => (3, None),
        Err(Stop::Host(HostFault::Disk)) => (4, None),
        Err(Stop::Host(HostFault::Source)) => (5, None),
        Err(Stop::Host(HostFault::Sink)) => (6, None),
        Err(Stop::Host(HostFault::Memory)) | Err(Stop::NoMemory) => (7, None),
        Err(Stop::Damaged(name)) => (9, Some(name)),
        Err(Stop::Full) => (10, None),
    }
}

/// The outcome where a store was open.
pub fn ended(
    ending: Result<Ending, Stop>,
    lines: u32,
    history: Entries,
    doubt: Option<Entry>,
) -> Outcome
    ensures { result ≡ record { status = status_for ending; lines = lines; history = history; doubt = doubt; damaged = damaged_for ending } }
{
    let (status, damaged) = status_of(ending);
    Outcome {
        status,
        lines,
        history,
        doubt,
        damaged,
    }
}

/// The outcome where nothing was begun.
pub fn unbegun(alloc: Global, status: u8) -> Outcome
    ensures { result ≡ unbegun status None }
{
    Outcome {
        status,
        lines: 0,
        history: ListOf::new(alloc),
        doubt: None,
        damaged: None,
    }
}

/// The outcome where a stop came before a store was open.
pub fn stopped(alloc: Global, stop: Stop) -> Outcome
    ensures { result ≡ stopped_with stop }
{
    ended(Err(stop), 0, ListOf::new(alloc), None)
}

/// The outcome where there is no store to open, or one where a new one was to be made.
pub fn without_store(alloc: Global, stop: GroundStop) -> Outcome
    ensures { result ≡ without_store stop }
{
    match stop {
        GroundStop::NotInit | GroundStop::NotBlank => unbegun(alloc, NO_STORE),
        GroundStop::Stop(stop) => stopped(alloc, stop),
    }
}
