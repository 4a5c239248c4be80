// A whole run.
ghost use Rattle.std.specs.Prelude.{◌≡◌, ◌⊎◌, None, [], IsTrue, IfOk, IfErr, OnOk, MatchOption, option_to_list};
ghost use Rattle.script_words.specs.CommandLine.{IsUsage, IsStoreForm};
ghost use Rattle.script_words.specs.declared.command_line.StoreForm.{StoreForm};
ghost use Rattle.table_store.specs.StoreValue.{IsFresh, station_of};
ghost use Rattle.table_store.specs.Tables.{Tables};
ghost use Rattle.shell.specs.Ending.{unbegun};
ghost use Rattle.shell.specs.Readable.{StaysReadable};
ghost use Rattle.shell.specs.Running.{ServesScript, RunsStore, HasNoMemory};
ghost use Rattle.host_model.specs.Calls.{Keeps};
ghost use Rattle.host_model.specs.Kinds.{IsOfScript};
ghost use Rattle.host_model.specs.Leaves.{AllSettled};
ghost use Rattle.shell.specs.LineServed.{IsSure, StopCounts};
ghost use Rattle.shell.specs.ScriptServed.{HasEnded};
ghost use Rattle.shell.specs.Crash.{LeavesFronts};
ghost use Rattle.shell.specs.Serve.{RefusesLine};
ghost use Rattle.shell.specs.Headline.{BeginsWith, Headline, MeetsPlain};
ghost use Rattle.shell.specs.Completeness.{IsUnhindered, IsDoneOrShort};

use crate::ending::{Ending, ended, stopped, unbegun, without_store};
use crate::opening::open_or_make;
use crate::outcomes::Outcome;
use crate::serving::serve_line;
use host_model::{Host, Stop};
use row_keys::{Octets, Words};
use script_source::{Heard, Script};
use script_words::{WordsStop, read_words, write_no_line};
use std::alloc::{AllocError, Global};
use table_store::TableStore;

/// The status where the words are of no form.
const USAGE: u8 = 2;

/// The most lines that a script may have.
const MAX_LINES: u32 = 100_000;

/// The directory that the words name, or none exactly where they are of no form.
pub fn dir_of(alloc: Global, words: &Words) -> Result<Option<Octets>, AllocError>
    ensures { IfOk result (λ dir. MatchOption dir (IsUsage words.now) (λ dir. (form : StoreForm) × IsStoreForm words.now form × (dir ≡ form.dir))) }
{
    match read_words(alloc, words) {
        Ok(form) => Ok(Some(form.dir)),
        Err(WordsStop::Usage) => Ok(None),
        Err(WordsStop::NoMemory) => Err(AllocError),
    }
}

/// Reads the words, opens the store or makes it, and serves the script, over a host that it hands back.
/// Where a call of the host fails, it is the last one.
///
/// With `--init` a blank or unborn directory gets the two files of a new store; any other is left as it is, with status 8.
/// Without it `nodes` alone is read, and nothing is written before the first line. A crash inside leaves a disk on which a
/// run may begin: kept, with the tables of some of the lines, or with `--init` blank or unborn. Opening takes time and memory
/// with the size of `nodes`, and a line that makes a table two syncs. This project's own.
pub fn run<H: Host>(alloc: Global, words: &Words, mut host: H) -> (Outcome, H)
    ensures usage { IsUsage words.now → (result.0 ≡ unbegun 2 None) × (result.1 ≡ host) }
    ensures runs { (form : StoreForm) → IsStoreForm words.now form → RunsStore form.init (H.state host) result.0 (H.state result.1) ⊎ HasNoMemory result.0 host result.1 }
    ensures meets { (form : StoreForm) → IsStoreForm words.now form → IsTrue (H.state host).is_faithful → (tables : Tables) → BeginsWith form.init (H.state host).files tables → MeetsPlain form.init (H.state host) tables result.0 (H.state result.1) }
    ensures headline { (form : StoreForm) → IsStoreForm words.now form → IsTrue (H.state host).is_honest → AllSettled (H.state host) → (tables : Tables) → BeginsWith form.init (H.state host).files tables → Headline form.init (H.state host) tables result.0 (H.state result.1) }
    ensures complete { (form : StoreForm) → IsStoreForm words.now form → IsUnhindered form.init (H.state host) (H.state result.1) → IsDoneOrShort result.0.status }
{
    let outcome = match read_words(alloc, words) {
        Ok(form) => run_store(alloc, form.init, &mut host),
        Err(WordsStop::Usage) => unbegun(alloc, USAGE),
        Err(WordsStop::NoMemory) => stopped(alloc, Stop::NoMemory),
    };
    (outcome, host)
}

fn run_store<H: Host>(alloc: Global, init: bool, host: &mut H) -> Outcome
    ensures { RunsStore init (H.state host.old) result (H.state host.new) }
{
    match open_or_make(alloc, init, host) {
        Ok(store) => run_script(alloc, store, host),
        Err(stop) => without_store(alloc, stop),
    }
}

fn run_script<H: Host>(alloc: Global, mut store: TableStore, host: &mut H) -> Outcome
    requires fresh { IsFresh store }
    requires sure { IsSure store (H.state host.old) }
    ensures serves { ServesScript (H.state host.old) (station_of store) result (H.state host.new) }
    ensures readable { StaysReadable (H.state host.old) (H.state host.new) }
    ensures crash { IsTrue (H.state host.old).is_honest → AllSettled (H.state host.old) → LeavesFronts (H.state host.old) store.tables result.history (option_to_list result.doubt) (H.state host.new) }
{
    let mut lines = 0;
    let ending = serve(alloc, &mut store, host, &mut lines);
    let (history, doubt) = store.finish();
    ended(ending, lines, history, doubt)
}

/// Serves the script to its end, or to the first line that is too long or one too many.
fn serve<H: Host>(
    alloc: Global,
    store: &mut TableStore,
    host: &mut H,
    lines: &mut u32,
) -> Result<Ending, Stop>
    requires running { store.old.stop ≡ None }
    requires doubt { store.old.doubt ≡ [] }
    requires history { store.old.history ≡ [] }
    requires sure { IsSure store.old (H.state host.old) }
    requires lines { lines.old ≡ 0 }
    ensures keeps { Keeps (H.state host.old) (H.state host.new) }
    ensures ended { IsTrue (H.state host.old).is_faithful → HasEnded result (H.state host.old) (station_of store.old) lines.new store.new.history store.new.doubt (H.state host.new) }
    ensures stops { IfErr result (λ stop. StopCounts stop (H.state host.old) (H.state host.new)) }
    ensures full { IfErr result (λ stop. stop ≡ Stop.Full → IsOfScript (H.state host.new).last) }
    ensures readable { StaysReadable (H.state host.old) (H.state host.new) }
    ensures crash { IsTrue (H.state host.old).is_honest → AllSettled (H.state host.old) → LeavesFronts (H.state host.old) store.old.tables store.new.history store.new.doubt (H.state host.new) }
    ensures rests { IsTrue (H.state host.old).is_honest → AllSettled (H.state host.old) → OnOk result (AllSettled (H.state host.new)) }
{
    let mut script = Script::new(alloc)?;
    for number in 1..MAX_LINES + 1 {
        match script.next_line(alloc, host)? {
            Heard::End => return Ok(Ending::ScriptEnd),
            Heard::TooLong => {
                *lines = number;
                return refuse_line(alloc, host, number);
            }
            Heard::Line(text) => {
                *lines = number;
                serve_line(alloc, store, host, number, &text)?;
            }
        }
    }
    match script.next_line(alloc, host)? {
        Heard::End => Ok(Ending::ScriptEnd),
        _ => {
            *lines = MAX_LINES + 1;
            refuse_line(alloc, host, MAX_LINES + 1)
        }
    }
}

/// Says that there is no line of this number.
fn refuse_line<H: Host>(alloc: Global, host: &mut H, number: u32) -> Result<Ending, Stop>
    ensures { RefusesLine number result (H.state host.old) (H.state host.new) }
{
    let reply = write_no_line(alloc, number)?;
    host.say(&reply)?;
    Ok(Ending::NoLine)
}
