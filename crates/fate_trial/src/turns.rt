// Turns of towers.
ghost use Rattle.std.specs.Prelude.{◌≡◌, Err, IsTrue, MatchBool, IfOk, IfErr, OnOk};
ghost use Rattle.host_model.specs.Leaves.{LeavesOnly, AllSettled};
ghost use Rattle.host_model.specs.State.{picture_now};
ghost use Rattle.host_model.specs.declared.fault.Stop.{Stop};
ghost use Rattle.fate_runner.specs.Book.{IsKept, IsUnfinished};
ghost use Rattle.fate_trial.specs.Site.{GoesOn, IsDead};
ghost use Rattle.fate_trial.specs.Stored.{book_of, book_at};
ghost use Rattle.fate_trial.specs.Stops.{TurnStops};
ghost use Rattle.fate_trial.specs.Towers.{tower_meaning, Turns};

use crate::levels::Level;
use crate::site::Site;
use crate::stack_ops::{status, top_words};
use crate::stacks::NodeStacks;
use fate_runner::{TxStatus, turn};
use host_model::{Host, Stop};
use std::alloc::AllocError;

/// Whether the transaction has a turn to take.
fn is_unfinished<H: Host>(env: &Site<H>, tid: u64) -> Result<bool, AllocError>
    ensures { IfOk result (λ is. MatchBool is (IsUnfinished (book_of env.now.nodes.nodes tid)) (IsUnfinished (book_of env.now.nodes.nodes tid) → ⊥)) }
{
    match status(env, tid)? {
        Some(TxStatus::Submitted) => Ok(true),
        Some(TxStatus::FailedInProgress) => Ok(true),
        Some(TxStatus::InProgress) => match top_words(env, tid)? {
            Some(_) => Ok(true),
            None => Ok(false),
        },
        Some(TxStatus::Failed) => Ok(false),
        Some(TxStatus::Successful) => Ok(false),
        None => Ok(false),
    }
}

/// Takes a turn of a tower, if it is unfinished, and says whether it was.
///
/// Where each transaction fits what is stored of it, it does so afterwards, also after a stop, and in whatever a crash
/// inside leaves. Each stop is that of a call which the turn made; a site that has stopped answers its stop again.
pub fn go<H: Host>(tid: u64, env: &mut Site<H>) -> Result<bool, Stop>
    requires { GoesOn H.state env.old }
    ensures live { OnOk result (GoesOn H.state env.new) }
    ensures is { IfOk result (λ took. MatchBool took (IsUnfinished (book_of env.old.nodes.nodes tid)) ((IsUnfinished (book_of env.old.nodes.nodes tid) → ⊥) × (env.new ≡ env.old))) }
    ensures turns { IsTrue (H.state env.old.host).is_faithful → IsKept tower_meaning (picture_now (H.state env.old.host))
        → IfOk result (λ took. IsTrue took → Turns tid env.old (book_at (picture_now (H.state env.old.host)) tid) (book_at (picture_now (H.state env.new.host)) tid)) }
    ensures kept { IsTrue (H.state env.old.host).is_faithful → IsKept tower_meaning (picture_now (H.state env.old.host)) → IsKept tower_meaning (picture_now (H.state env.new.host)) }
    ensures inside { IsTrue (H.state env.old.host).is_honest → AllSettled (H.state env.old.host) → IsKept tower_meaning (picture_now (H.state env.old.host))
        → LeavesOnly (IsKept tower_meaning) (H.state env.old.host) (H.state env.new.host) }
    ensures stops { IfErr result (λ stop. TurnStops H.state tid stop env.old env.new) }
    ensures dead { (stop : Stop) → IsDead H.state env.old stop → (result ≡ Err stop) × (env.new ≡ env.old) }
{
    env.going()?;
    if !is_unfinished(env, tid)? {
        return Ok(false);
    }
    let mut stacks = NodeStacks;
    turn::<Site<H>, Level, NodeStacks>(tid, &mut stacks, env)?;
    Ok(true)
}
