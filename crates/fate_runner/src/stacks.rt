// The stored stacks.
ghost use Rattle.std.specs.Prelude.{◌≡◌, ◌≢◌, ℕ, List, [], Err, IsTrue, IsSome, IfOk, IfErr, OnOk};
ghost use Rattle.host_model.specs.Picture.{Picture};
ghost use Rattle.host_model.specs.State.{HostState, picture_now};
ghost use Rattle.host_model.specs.declared.fault.Stop.{Stop};
ghost use Rattle.fate_runner.specs.declared.text.StepWords.{StepWords};
ghost use Rattle.fate_runner.specs.Book.{Book, pushed, popped, with_status};
ghost use Rattle.fate_runner.specs.Works.{Sets, IsTopOf};

use crate::{Cause, TxStatus};
use host_model::Stop;

/// The stored status and stack of each transaction, of steps of type `S`, in an environment `E`.
///
/// Each of `push`, `pop` and `set_status` is one durable action, whole or absent at each crash and after each stop, and
/// changes nothing but what is stored of this transaction. Callers hand on that the environment is live. Each stop is for a
/// cause that the implementor names (`stops`), and an environment that has answered one answers it again (`dead`).
pub trait Stacks<E, S> {
    /// The disk, as contracts see it.
    ghost state: { E → HostState };

    /// What is stored of each transaction in a picture.
    ghost book: { Picture → ℕ → Book };

    /// What the environment shows of each transaction, on any disk.
    ghost shown: { E → ℕ → Book };

    /// The two pictures differ at most in what is stored of transactions.
    ghost alike: { Picture → Picture → Type 0 };

    /// How a step's node spells it.
    ghost spelled: { S → StepWords };

    /// The kinds of transactions that a step may stand in.
    ghost suits: { S → List ℕ → Type 0 };

    /// Beside the disk all is as it was.
    ghost beside: { E → E → Type 0 };

    /// The environment goes on: what it has in memory is what its disk has.
    ghost live: { E → Type 0 };

    /// It has answered this stop, and answers it again.
    ghost dead: { E → Stop → Type 0 };

    /// A call from the one environment to the other may stop so.
    ghost stops: { Stop → E → E → Type 0 };

    /// The status, or none where there is no such transaction. Changes nothing.
    fn status(&mut self, tid: u64, env: &mut E) -> Result<Option<TxStatus>, Stop>
        requires { live env.old }
        ensures same { env.new ≡ env.old }
        ensures shown { IfOk result (λ found. found ≡ (shown env.old tid).status) }
        ensures is { IsTrue (state env.old).is_faithful → IfOk result (λ found. found ≡ (book (picture_now (state env.old)) tid).status) }
        ensures stops { IfErr result (λ stop. stops stop env.old env.new) }
        ensures dead { (stop : Stop) → dead env.old stop → result ≡ Err stop };

    /// The top step, or none where the stack is empty. Changes nothing.
    fn top(&mut self, tid: u64, env: &mut E) -> Result<Option<S>, Stop>
        requires { live env.old }
        ensures same { env.new ≡ env.old }
        ensures shown { IfOk result (λ found. IsTopOf spelled suits (shown env.old tid) found) }
        ensures is { IsTrue (state env.old).is_faithful → IfOk result (λ found. IsTopOf spelled suits (book (picture_now (state env.old)) tid) found) }
        ensures stops { IfErr result (λ stop. stops stop env.old env.new) }
        ensures dead { (stop : Stop) → dead env.old stop → result ≡ Err stop };

    /// Puts a step on top. The transaction is there, and the step may stand in it.
    fn push(&mut self, tid: u64, step: &S, env: &mut E) -> Result<(), Stop>
        requires live { live env.old }
        requires there { IsTrue (state env.old).is_faithful → IsSome (book (picture_now (state env.old)) tid).status }
        requires kind { IsTrue (state env.old).is_faithful → suits step.now (book (picture_now (state env.old)) tid).kind }
        ensures sets { Sets result book alike tid (pushed (spelled step.now) (book (picture_now (state env.old)) tid)) (state env.old) (state env.new) }
        ensures beside { OnOk result (beside env.old env.new) }
        ensures live { OnOk result (live env.new) }
        ensures stops { IfErr result (λ stop. stops stop env.old env.new) }
        ensures dead { (stop : Stop) → dead env.old stop → result ≡ Err stop };

    /// Takes the top step off. There is one.
    fn pop(&mut self, tid: u64, env: &mut E) -> Result<(), Stop>
        requires live { live env.old }
        requires there { IsTrue (state env.old).is_faithful → IsSome (book (picture_now (state env.old)) tid).status }
        requires some { IsTrue (state env.old).is_faithful → (book (picture_now (state env.old)) tid).stack ≢ [] }
        ensures sets { Sets result book alike tid (popped (book (picture_now (state env.old)) tid)) (state env.old) (state env.new) }
        ensures beside { OnOk result (beside env.old env.new) }
        ensures live { OnOk result (live env.new) }
        ensures stops { IfErr result (λ stop. stops stop env.old env.new) }
        ensures dead { (stop : Stop) → dead env.old stop → result ≡ Err stop };

    /// Sets the status, and the cause where there is one: without one the stored cause stays. Setting `Successful` takes out
    /// the stack in the same action. The transaction is there.
    fn set_status(
        &mut self,
        tid: u64,
        status: TxStatus,
        cause: Option<Cause>,
        env: &mut E,
    ) -> Result<(), Stop>
        requires live { live env.old }
        requires there { IsTrue (state env.old).is_faithful → IsSome (book (picture_now (state env.old)) tid).status }
        ensures sets { Sets result book alike tid (with_status status cause (book (picture_now (state env.old)) tid)) (state env.old) (state env.new) }
        ensures beside { OnOk result (beside env.old env.new) }
        ensures live { OnOk result (live env.new) }
        ensures stops { IfErr result (λ stop. stops stop env.old env.new) }
        ensures dead { (stop : Stop) → dead env.old stop → result ≡ Err stop };
}
