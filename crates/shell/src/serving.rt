// One line of a script.
ghost use Rattle.std.specs.Prelude.{◌≡◌, [], None, IsTrue};
ghost use Rattle.script_words.specs.Lines.{line_of};
ghost use Rattle.script_words.specs.declared.line.Line.TheVariants.{CreateTable};
ghost use Rattle.shell.specs.LineServed.{IsSure, DoesLine, ServesLine};

use host_model::{Host, Stop};
use row_keys::{Octets, TableName};
use script_words::{Answer, Line, Refusal, read_line, write_reply};
use std::alloc::Global;
use table_store::TableStore;

/// Does a line and says its whole reply.
pub fn serve_line<H: Host>(
    alloc: Global,
    store: &mut TableStore,
    host: &mut H,
    number: u32,
    text: &[u8],
) -> Result<(), Stop>
    requires running { store.old.stop ≡ None }
    requires doubt { store.old.doubt ≡ [] }
    requires sure { IsSure store.old (H.state host.old) }
    ensures { ServesLine number (line_of text.now) result store.old store.new (H.state host.old) (H.state host.new) }
{
    let line = read_line(alloc, text)?;
    let Some(answer) = answer(alloc, store, host, number, line)? else {
        return Ok(());
    };
    let reply = write_reply(alloc, number, &answer)?;
    host.say(&reply)?;
    Ok(())
}

/// Does what a line asks for, and gives its answer; a blank line has none.
fn answer<H: Host>(
    alloc: Global,
    store: &mut TableStore,
    host: &mut H,
    number: u32,
    line: Line,
) -> Result<Option<Answer>, Stop>
    requires running { store.old.stop ≡ None }
    requires doubt { store.old.doubt ≡ [] }
    requires sure { IsSure store.old (H.state host.old) }
    ensures { DoesLine number line result store.old store.new (H.state host.old) (H.state host.new) }
{
    match line {
        Line::Blank => Ok(None),
        Line::CreateTable(name) => create(alloc, store, host, number, name),
        Line::Tables => Ok(Some(Answer::Rows(store.table_texts()?))),
        Line::Unbuilt => Ok(Some(Answer::Refused(Refusal::Unbuilt))),
    }
}

fn create<H: Host>(
    alloc: Global,
    store: &mut TableStore,
    host: &mut H,
    number: u32,
    name: TableName,
) -> Result<Option<Answer>, Stop>
    requires running { store.old.stop ≡ None }
    requires doubt { store.old.doubt ≡ [] }
    requires sure { IsSure store.old (H.state host.old) }
    ensures { DoesLine number (CreateTable name) result store.old store.new (H.state host.old) (H.state host.new) }
{
    let shown = Octets::new(alloc, name.as_bytes())?;
    if store.create_table(host, number, name)? {
        return Ok(Some(Answer::Ok));
    }
    Ok(Some(Answer::Refused(Refusal::Exists(shown))))
}
