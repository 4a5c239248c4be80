// The work of the steps of a tower.
ghost use Rattle.std.specs.Prelude.{◌≡◌, ◌∷◌, [], true, false, None, Ok, Err, IfOk, IfErr, OnOk};
ghost use Rattle.host_model.specs.declared.fault.Stop.{Stop};
ghost use Rattle.row_keys.specs.Forms.{IsPath};
ghost use Rattle.fate_runner.specs.Works.{Acts};
ghost use Rattle.node_store.specs.Nodes.{multi_applied};
ghost use Rattle.fate_trial.specs.Layout.{value_at, putting};
ghost use Rattle.fate_trial.specs.Site.{GoesOn, IsDead};
ghost use Rattle.fate_trial.specs.Stops.{SiteStops, PutChanges, none, never};
ghost use Rattle.fate_trial.specs.Towers.{IsPart, MaySet, Sets, MakeChanges, TakeChanges, is_refused};
ghost use Rattle.std.specs.Option.{is_some};

use crate::changes::{creation, creation_at, deletion, is_there};
use crate::layout::{Slot, path};
use crate::site::Site;
use host_model::{Host, Stop};
use row_keys::{Octets, Path};
use std::alloc::AllocError;

/// Whether this path has a node.
pub fn has_node<H: Host>(env: &Site<H>, bytes: &[u8]) -> Result<bool, AllocError>
    requires { IsPath bytes.now }
    ensures { IfOk result (λ there. there ≡ is_some (value_at env.now.nodes.nodes bytes.now)) }
{
    let path = path(env.alloc, bytes)?;
    match env.value(&path) {
        Some(_) => Ok(true),
        None => Ok(false),
    }
}

/// Makes a part's node, if it isn't there. A crash inside leaves it made or not.
pub fn make<H: Host>(env: &mut Site<H>, part: Slot, tid: u64) -> Result<(), Stop>
    requires live { GoesOn H.state env.old }
    requires part { IsPart part }
    ensures acts { Acts result (MaySet part tid true) (Sets part tid true) (H.state env.old.host) (H.state env.new.host) }
    ensures live { GoesOn H.state env.new }
    ensures stops { IfErr result (λ stop. SiteStops H.state (MakeChanges env.old.nodes.nodes part tid) never stop env.old env.new) }
    ensures dead { (stop : Stop) → IsDead H.state env.old stop → (result ≡ Err stop) × (env.new ≡ env.old) }
{
    env.going()?;
    if is_there(env, part, tid)? {
        return Ok(());
    }
    let value = Octets::new(env.alloc, b"-")?;
    let ops = creation(env, part, tid, value)?;
    env.change(&ops)
}

/// Takes a part's node out, if it is there. A crash inside leaves it as it was or gone.
pub fn take<H: Host>(env: &mut Site<H>, part: Slot, tid: u64) -> Result<(), Stop>
    requires live { GoesOn H.state env.old }
    requires part { IsPart part }
    ensures acts { Acts result (MaySet part tid false) (Sets part tid false) (H.state env.old.host) (H.state env.new.host) }
    ensures live { GoesOn H.state env.new }
    ensures stops { IfErr result (λ stop. SiteStops H.state (TakeChanges env.old.nodes.nodes part tid) never stop env.old env.new) }
    ensures dead { (stop : Stop) → IsDead H.state env.old stop → (result ≡ Err stop) × (env.new ≡ env.old) }
{
    env.going()?;
    if is_there(env, part, tid)? {
        let ops = deletion(env, part, tid)?;
        return env.change(&ops);
    }
    Ok(())
}

/// Whether the roof is refused: there is a ban, and no roof yet.
pub fn is_refused<H: Host>(env: &Site<H>, tid: u64) -> Result<bool, Stop>
    ensures ok { IfOk result (λ refused. refused ≡ is_refused tid env.now.nodes.nodes) }
    ensures runs { OnOk result (env.now.stopped ≡ None) }
    ensures stops { IfErr result (λ stop. SiteStops H.state none never stop env.now env.now) }
{
    env.going()?;
    if is_there(env, Slot::Roof, tid)? {
        return Ok(false);
    }
    Ok(has_node(env, b"/ban")?)
}

/// Gives a path a node, where it has none. A crash inside leaves it made or not.
pub fn put<H: Host>(env: &mut Site<H>, path: Path, value: &[u8]) -> Result<(), Stop>
    requires { GoesOn H.state env.old }
    ensures made { OnOk result (multi_applied (putting path value.now (is_some (value_at env.old.nodes.nodes path))) env.old.nodes.nodes ≡ Ok env.new.nodes.nodes) }
    ensures live { GoesOn H.state env.new }
    ensures stops { IfErr result (λ stop. SiteStops H.state (PutChanges env.old.nodes.nodes path value.now) never stop env.old env.new) }
    ensures dead { (stop : Stop) → IsDead H.state env.old stop → (result ≡ Err stop) × (env.new ≡ env.old) }
{
    env.going()?;
    if has_node(env, path.as_bytes())? {
        return Ok(());
    }
    let value = Octets::new(env.alloc, value)?;
    let ops = creation_at(env.alloc, path, value)?;
    env.change(&ops)
}
