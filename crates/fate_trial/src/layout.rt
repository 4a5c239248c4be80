// Where the nodes of a transaction stand.
ghost use Rattle.std.specs.Prelude.{◌≡◌, ◌≤◌, length, IfOk};
ghost use Rattle.row_keys.specs.Forms.{IsPath};
ghost use Rattle.fate_trial.specs.Layout.{nodes_name, slot_text, slot_path};

use host_model::Name;
use row_keys::Path;
use std::alloc::{AllocError, Global};

/// A node of a transaction.
#[derive(Clone, Copy, Debug, PartialEq, Eq)]
pub enum Slot {
    /// Its status, its cause and its kind.
    Status,
    /// The lower step of its stack.
    Lower,
    /// The upper one.
    Upper,
    /// The walls of its tower.
    Walls,
    /// The roof.
    Roof,
}

/// What the paths of a slot begin with.
fn slot_text(slot: Slot) -> &'static [u8]
    ensures is { result.now ≡ slot_text slot }
    ensures short { length result.now ≡ 8 }
{
    match slot {
        Slot::Status => b"/fate/s/",
        Slot::Lower => b"/fate/0/",
        Slot::Upper => b"/fate/1/",
        Slot::Walls => b"/made/w/",
        Slot::Roof => b"/made/r/",
    }
}

/// The name of the file of the nodes.
pub(crate) fn nodes_name(alloc: Global) -> Result<Name, AllocError>
    ensures { IfOk result (λ name. name ≡ nodes_name) }
{
    let name = Name::new(alloc, "nodes")?;
    Ok(name.unwrap())
}

/// A path of these bytes.
pub(crate) fn path(alloc: Global, bytes: &[u8]) -> Result<Path, AllocError>
    requires { IsPath bytes.now }
    ensures { IfOk result (λ path. path ≡ bytes.now) }
{
    let path = Path::new(alloc, bytes)?;
    Ok(path.unwrap())
}

/// A slot's path, of this transaction. Takes memory for it.
#[tactic(auto, unfolding(crate::specs::Layout::slot_path))]
pub(crate) fn slot_path(alloc: Global, slot: Slot, tid: u64) -> Result<Path, AllocError>
    ensures { IfOk result (λ path. path ≡ slot_path slot tid) }
{
    let mut bytes = slot_text(slot).to_vec(alloc)?;
    let number = tid.to_string(alloc)?;
    bytes.extend_from_slice(number.as_bytes())?;
    path(alloc, &bytes)
}
