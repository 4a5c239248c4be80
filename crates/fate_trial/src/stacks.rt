// Stacks of at most two steps, stored as nodes.
ghost use Rattle.std.specs.Prelude.{◌≡◌, ◌⊎◌, None, IfOk, IfErr, OnOk};
ghost use Rattle.host_model.specs.State.{picture_now};
ghost use Rattle.host_model.specs.declared.fault.Stop.{Stop};
ghost use Rattle.host_model.specs.declared.fault.Stop.TheVariants.{Damaged, Full, NoMemory};
ghost use Rattle.fate_runner.specs.Book.{pushed, popped, with_status};
ghost use Rattle.fate_runner.specs.Works.{Sets, IsTopOf};
ghost use Rattle.fate_trial.specs.Layout.{nodes_name, slot_path, value_at};
ghost use Rattle.fate_trial.specs.Site.{GoesOn};
ghost use Rattle.fate_trial.specs.Stored.{book_of, book_at, Alike, HasNoPlace, IsTopSlot, PushChanges, PopChanges, StatusChanges};
ghost use Rattle.fate_trial.specs.Stops.{SiteStops, StopsSo, RefusesPush, RefusesPop, RefusesStatus, RefusesTop, none};
ghost use Rattle.fate_trial.specs.declared.layout.Slot.TheVariants.{Status};

use crate::site::Site;
use crate::stack_ops::{kind, pop_ops, push_ops, status, status_ops, top_words};
use fate_runner::{Cause, Stacks, StepText, StepWords, TxStatus};
use host_model::{Host, Stop};

/// The statuses and stacks of transactions, as nodes of a site: of at most two steps each.
#[derive(Clone, Copy, Debug)]
pub struct NodeStacks;

/// What is stored isn't of its form.
fn strange<H: Host>(env: &Site<H>) -> Stop
    ensures { (result ≡ Damaged env.now.nodes.name) ⊎ (result ≡ NoMemory) }
{
    match env.nodes.name().copy(env.alloc) {
        Ok(name) => Stop::Damaged(name),
        Err(_) => Stop::NoMemory,
    }
}

/// The top step, or none where there is none. `Damaged` comes exactly where what is stored is no step of the kind.
fn top_step<H: Host, S: StepText>(env: &Site<H>, tid: u64) -> Result<Option<S>, Stop>
    requires live { GoesOn H.state env.now }
    requires runs { env.now.stopped ≡ None }
    ensures is { IfOk result (λ found. IsTopOf S.text S.text_suits (book_of env.now.nodes.nodes tid) found) }
    ensures stops { IfErr result (λ stop. SiteStops H.state none (RefusesTop S.text S.text_suits (book_of env.now.nodes.nodes tid)) stop env.now env.now) }
{
    let Some(words) = top_words(env, tid)? else {
        return Ok(None);
    };
    let kind = kind(env, tid)?;
    match S::read_text(env.alloc, &kind, &words)? {
        Some(step) => Ok(Some(step)),
        None => Err(strange(env)),
    }
}

/// Pushes a step. `Full` comes where there is no place for it, or the store has no room; want of memory may come in its place.
fn push_words<H: Host>(env: &mut Site<H>, tid: u64, words: &StepWords) -> Result<(), Stop>
    requires live { GoesOn H.state env.old }
    requires runs { env.old.stopped ≡ None }
    ensures sets { Sets result book_at Alike tid (pushed words.now (book_at (picture_now (H.state env.old.host)) tid)) (H.state env.old.host) (H.state env.new.host) }
    ensures live { GoesOn H.state env.new }
    ensures stops { IfErr result (λ stop. SiteStops H.state (PushChanges env.old.nodes.nodes tid words.now) (RefusesPush env.old.nodes.nodes tid words.now) stop env.old env.new) }
    ensures full { HasNoPlace env.old.nodes.nodes tid words.now → StopsSo Full result }
{
    match push_ops(env, tid, words)? {
        Some(ops) => env.change(&ops),
        None => Err(Stop::Full),
    }
}

/// Pops the top step. `Damaged` comes where there is none, and `Full` where the store has no room; want of memory may come in their place.
fn pop_step<H: Host>(env: &mut Site<H>, tid: u64) -> Result<(), Stop>
    requires live { GoesOn H.state env.old }
    requires runs { env.old.stopped ≡ None }
    ensures sets { Sets result book_at Alike tid (popped (book_at (picture_now (H.state env.old.host)) tid)) (H.state env.old.host) (H.state env.new.host) }
    ensures live { GoesOn H.state env.new }
    ensures stops { IfErr result (λ stop. SiteStops H.state (PopChanges env.old.nodes.nodes tid) (RefusesPop env.old.nodes.nodes tid) stop env.old env.new) }
    ensures damaged { IsTopSlot env.old.nodes.nodes tid None → StopsSo (Damaged nodes_name) result }
{
    match pop_ops(env, tid)? {
        Some(ops) => env.change(&ops),
        None => Err(strange(env)),
    }
}

/// Sets a status. `Damaged` comes where there is no such transaction, and `Full` where the store has no room; want of memory may come in their place.
fn change_status<H: Host>(
    env: &mut Site<H>,
    tid: u64,
    status: TxStatus,
    cause: Option<Cause>,
) -> Result<(), Stop>
    requires live { GoesOn H.state env.old }
    requires runs { env.old.stopped ≡ None }
    ensures sets { Sets result book_at Alike tid (with_status status cause (book_at (picture_now (H.state env.old.host)) tid)) (H.state env.old.host) (H.state env.new.host) }
    ensures live { GoesOn H.state env.new }
    ensures stops { IfErr result (λ stop. SiteStops H.state (StatusChanges env.old.nodes.nodes tid status cause) (RefusesStatus env.old.nodes.nodes tid) stop env.old env.new) }
    ensures damaged { value_at env.old.nodes.nodes (slot_path Status tid) ≡ None → StopsSo (Damaged nodes_name) result }
{
    match status_ops(env, tid, status, cause)? {
        Some(ops) => env.change(&ops),
        None => Err(strange(env)),
    }
}

impl<H: Host, S: StepText> Stacks<Site<H>, S> for NodeStacks {
    ghost use Rattle.fate_trial.specs.Site.{GoesOn, IsBeside, IsDead};
    ghost use Rattle.fate_trial.specs.Stops.{StackStops};
    ghost use Rattle.fate_trial.specs.Stored.{book_of, book_at, Alike};

    ghost state = { λ env. H.state env.host };

    ghost book = { book_at };

    ghost shown = { λ env. book_of env.nodes.nodes };

    ghost alike = { Alike };

    ghost spelled = { S.text };

    ghost suits = { S.text_suits };

    ghost beside = { IsBeside H.state };

    ghost live = { GoesOn H.state };

    ghost dead = { IsDead H.state };

    ghost stops = { StackStops H.state S.text S.text_suits };

    fn status(&mut self, tid: u64, env: &mut Site<H>) -> Result<Option<TxStatus>, Stop> {
        env.going()?;
        Ok(status(env, tid)?)
    }

    fn top(&mut self, tid: u64, env: &mut Site<H>) -> Result<Option<S>, Stop> {
        env.going()?;
        top_step(env, tid)
    }

    fn push(&mut self, tid: u64, step: &S, env: &mut Site<H>) -> Result<(), Stop> {
        env.going()?;
        let words = step.write_text(env.alloc)?;
        push_words(env, tid, &words)
    }

    fn pop(&mut self, tid: u64, env: &mut Site<H>) -> Result<(), Stop> {
        env.going()?;
        pop_step(env, tid)
    }

    fn set_status(
        &mut self,
        tid: u64,
        status: TxStatus,
        cause: Option<Cause>,
        env: &mut Site<H>,
    ) -> Result<(), Stop> {
        env.going()?;
        change_status(env, tid, status, cause)
    }
}
