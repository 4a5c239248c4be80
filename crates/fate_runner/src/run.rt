// One turn of a transaction.
ghost use Rattle.std.specs.Prelude.{◌≡◌, ◌≢◌, ℕ, [], Some, Err, IsTrue, OnOk, IfErr};
ghost use Rattle.host_model.specs.State.{picture_now};
ghost use Rattle.host_model.specs.declared.fault.Stop.{Stop};
ghost use Rattle.fate_runner.specs.Book.{IsUnfinished};
ghost use Rattle.fate_runner.specs.Agree.{Agrees, GoesOn};
ghost use Rattle.fate_runner.specs.Turn.{IsTurn, Takes};
ghost use Rattle.fate_runner.specs.Passing.{Passed, Stopped};
ghost use Rattle.fate_runner.specs.declared.forms.TxStatus.TheVariants.{Submitted, InProgress, FailedInProgress};

use crate::{Going, Next, Ready, Stacks, Step, StepStop, StepText, Turned, TxStatus};
use host_model::Stop;

// The turn of a transaction that has not begun.
fn start<E, S: Step<E> + StepText, K: Stacks<E, S>>(
    tid: u64,
    stacks: &mut K,
    env: &mut E,
) -> Result<Turned, Stop>
    requires agree { Agrees K.state K.book K.alike K.spelled K.suits S.state S.meaning S.spelled S.suits S.text S.text_suits }
    requires goes_on { GoesOn K.live K.beside S.live S.able }
    requires able { S.able env.old }
    requires status { IsTrue (S.state env.old).is_faithful → (S.meaning.book (picture_now (S.state env.old)) tid).status ≡ Some Submitted }
    ensures takes { Takes S.meaning tid (IsTurn S.spelled S.suits S.first_reason S.answer tid env.old (S.meaning.book (picture_now (S.state env.old)) tid)) result (S.state env.old) (S.state env.new) }
    ensures passes { OnOk result (Passed S.same S.calls S.undoes K.beside S.able tid env.old env.new) }
    ensures live { OnOk result (K.live env.new) }
    ensures stops { IfErr result (λ stop. Stopped S.same S.calls S.undoes K.stops S.stops tid stop env.old env.new) }
{
    stacks.set_status(tid, TxStatus::InProgress, None, env)?;
    Ok(Turned::Moved)
}

// The turn of a transaction that goes forward.
fn forward<E, S: Step<E> + StepText, K: Stacks<E, S>>(
    tid: u64,
    stacks: &mut K,
    env: &mut E,
) -> Result<Turned, Stop>
    requires agree { Agrees K.state K.book K.alike K.spelled K.suits S.state S.meaning S.spelled S.suits S.text S.text_suits }
    requires goes_on { GoesOn K.live K.beside S.live S.able }
    requires able { S.able env.old }
    requires status { IsTrue (S.state env.old).is_faithful → (S.meaning.book (picture_now (S.state env.old)) tid).status ≡ Some InProgress }
    requires has_step { (K.shown env.old tid).stack ≢ [] }
    ensures takes { Takes S.meaning tid (IsTurn S.spelled S.suits S.first_reason S.answer tid env.old (S.meaning.book (picture_now (S.state env.old)) tid)) result (S.state env.old) (S.state env.new) }
    ensures passes { OnOk result (Passed S.same S.calls S.undoes K.beside S.able tid env.old env.new) }
    ensures live { OnOk result (K.live env.new) }
    ensures stops { IfErr result (λ stop. Stopped S.same S.calls S.undoes K.stops S.stops tid stop env.old env.new) }
{
    let Some(step) = stacks.top(tid, env)? else {
        unreachable!();
    };
    match step.is_ready(tid, env, Going::Forward)? {
        Ready::Defer(reason) => Ok(Turned::Deferred(reason)),
        Ready::Now => match step.call(tid, env) {
            Ok(Next::Push(next)) => {
                stacks.push(tid, &next, env)?;
                Ok(Turned::Moved)
            }
            Ok(Next::Done) => {
                stacks.set_status(tid, TxStatus::Successful, None, env)?;
                Ok(Turned::Ended)
            }
            Err(StepStop::Failed(cause)) => {
                stacks.set_status(tid, TxStatus::FailedInProgress, Some(cause), env)?;
                Ok(Turned::Broken(cause))
            }
            Err(StepStop::Stop(stop)) => Err(stop),
        },
    }
}

// The turn of a transaction that goes back.
fn back<E, S: Step<E> + StepText, K: Stacks<E, S>>(
    tid: u64,
    stacks: &mut K,
    env: &mut E,
) -> Result<Turned, Stop>
    requires agree { Agrees K.state K.book K.alike K.spelled K.suits S.state S.meaning S.spelled S.suits S.text S.text_suits }
    requires goes_on { GoesOn K.live K.beside S.live S.able }
    requires able { S.able env.old }
    requires status { IsTrue (S.state env.old).is_faithful → (S.meaning.book (picture_now (S.state env.old)) tid).status ≡ Some FailedInProgress }
    ensures takes { Takes S.meaning tid (IsTurn S.spelled S.suits S.first_reason S.answer tid env.old (S.meaning.book (picture_now (S.state env.old)) tid)) result (S.state env.old) (S.state env.new) }
    ensures passes { OnOk result (Passed S.same S.calls S.undoes K.beside S.able tid env.old env.new) }
    ensures live { OnOk result (K.live env.new) }
    ensures stops { IfErr result (λ stop. Stopped S.same S.calls S.undoes K.stops S.stops tid stop env.old env.new) }
{
    let Some(step) = stacks.top(tid, env)? else {
        stacks.set_status(tid, TxStatus::Failed, None, env)?;
        return Ok(Turned::Undone);
    };
    match step.is_ready(tid, env, Going::Back)? {
        Ready::Defer(reason) => Ok(Turned::Deferred(reason)),
        Ready::Now => {
            step.undo(tid, env)?;
            stacks.pop(tid, env)?;
            Ok(Turned::Moved)
        }
    }
}

/// One turn of an unfinished transaction: one push, one pop or one change of status, or it waits and nothing changes.
///
/// Submitted, it begins, and no step is asked. In progress, its top step is asked forward and, if nothing is against it,
/// called: the step that the call names is pushed; at `Done` the transaction is successful and its stack is taken out in the
/// same action; at a failure it goes back from now on. Going back, its top step is asked back, undone and popped; with an
/// empty stack the transaction has failed.
///
/// What the caller has seen of the transaction says that it is unfinished: `Stacks::status` and `Stacks::top` tell it. Stacks,
/// steps and their text agree on how a step is spelled. Each stop is that of a call which the turn made; an environment that
/// has stopped answers its stop again, and is asked nothing. Also after a stop, and after a crash at any moment inside, the transaction
/// is as before the turn or as the rule gives it, it fits what is stored of it, and each other transaction has what it
/// relies on. At most five calls of steps and stacks, and no memory but theirs.
pub fn turn<E, S: Step<E> + StepText, K: Stacks<E, S>>(
    tid: u64,
    stacks: &mut K,
    env: &mut E,
) -> Result<Turned, Stop>
    requires agree { Agrees K.state K.book K.alike K.spelled K.suits S.state S.meaning S.spelled S.suits S.text S.text_suits }
    requires goes_on { GoesOn K.live K.beside S.live S.able }
    requires able { S.able env.old }
    requires unfinished { IsUnfinished (K.shown env.old tid) }
    ensures takes { Takes S.meaning tid (IsTurn S.spelled S.suits S.first_reason S.answer tid env.old (S.meaning.book (picture_now (S.state env.old)) tid)) result (S.state env.old) (S.state env.new) }
    ensures passes { OnOk result (Passed S.same S.calls S.undoes K.beside S.able tid env.old env.new) }
    ensures live { OnOk result (K.live env.new) }
    ensures stops { IfErr result (λ stop. Stopped S.same S.calls S.undoes K.stops S.stops tid stop env.old env.new) }
    ensures dead { (stop : Stop) → K.dead env.old stop → (result ≡ Err stop) × (env.new ≡ env.old) }
{
    match stacks.status(tid, env)? {
        Some(TxStatus::Submitted) => start(tid, stacks, env),
        Some(TxStatus::InProgress) => forward(tid, stacks, env),
        Some(TxStatus::FailedInProgress) => back(tid, stacks, env),
        _ => unreachable!(),
    }
}
