// The staged files in a plain state.
ghost use Rattle.std.specs.Prelude.{◌≡◌, IfErr, IfOk, OnOk, Ok, map as mapped};
ghost use Rattle.std.specs.FinMap as map;
ghost use Rattle.plain_model.specs.Apply.{apply};
ghost use Rattle.state_reader.specs.Still.{ground_of};
ghost use Rattle.plain_state.specs.Catalogs.{AreAllFiles};
ghost use Rattle.plain_state.specs.States.{AreStagedIn};
ghost use Rattle.plain_state.specs.Pairs.{ArePairsOf, Stages};
ghost use Rattle.plain_state.specs.Causes.{StateCause};

use crate::fault::StateFault;
use cell_merge::{Cell, newest};
use plain_model::{Op, Pair, Pairs, PlainStore};
use row_keys::{ListOf, Path, StagedName};
use state_reader::StillGround;
use std::alloc::{AllocError, Global};

/// The newest pairs of the cells of a file.
fn pairs_of(alloc: Global, cells: &[Cell]) -> Result<Pairs, AllocError>
    ensures { IfOk result (ArePairsOf cells.now) }
{
    let newest = newest(alloc, cells)?;
    let mut pairs = Vec::new(alloc);
    for pair in &newest {
        pairs.push(Pair {
            key: pair.key.copy(alloc)?,
            value: pair.value.copy(alloc)?,
        })?;
    }
    Ok(ListOf::from_vec(pairs))
}

/// Stages a file of this name with the newest pairs of these cells.
fn stage(
    alloc: Global,
    state: &mut PlainStore,
    name: &StagedName,
    cells: &[Cell],
) -> Result<(), AllocError>
    ensures { OnOk result (Stages name.now cells.now state.old state.new) }
{
    let op = Op::Stage {
        name: name.copy(alloc)?,
        pairs: pairs_of(alloc, cells)?,
    };
    match state.apply(&op) {
        Ok(()) => Ok(()),
        Err(_) => Err(AllocError),
    }
}

/// Puts these staged files into a state that has none.
pub fn put_files(
    alloc: Global,
    still: &StillGround,
    files: &[(StagedName, Path)],
    state: &mut PlainStore,
) -> Result<(), StateFault>
    requires files { AreAllFiles still.now.nodes.nodes files.now }
    requires none { state.old.staged ≡ map.empty }
    ensures ok { OnOk result (AreStagedIn (ground_of still.now) files.now state.old state.new) }
    ensures cause { IfErr result (StateCause (ground_of still.now)) }
{
    for (name, path) in files {
        let Some(cells) = still.files.get(path) else {
            return Err(StateFault::LacksStaged(path.copy(alloc)?));
        };
        stage(alloc, state, name, cells.as_slice())?;
    }
    Ok(())
}
