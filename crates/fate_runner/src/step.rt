// A step of a stored stack.
ghost use Rattle.std.specs.Prelude.{◌≡◌, ℕ, List, Option, None, Result, IsTrue, IfOk, IfErr, OnOk};
ghost use Rattle.host_model.specs.State.{HostState, picture_now};
ghost use Rattle.host_model.specs.Calls.{Keeps, Looks, IsSound};
ghost use Rattle.host_model.specs.declared.fault.Stop.{Stop};
ghost use Rattle.fate_runner.specs.declared.text.StepWords.{StepWords};
ghost use Rattle.fate_runner.specs.Book.{Meaning, IsKept, IsLawful};
ghost use Rattle.fate_runner.specs.Works.{Works, IsTop, next_book, undone_book, Answers, IfStops, UnlessStops, Suits, ready_of};
ghost use Rattle.fate_runner.specs.declared.forms.Going.{Going};
ghost use Rattle.fate_runner.specs.declared.forms.Going.TheVariants.{Forward, Back};
ghost use Rattle.fate_runner.specs.declared.forms.TxStatus.TheVariants.{InProgress, FailedInProgress};
ghost use Rattle.fate_runner.specs.declared.forms.Reason.{Reason};
ghost use Rattle.fate_runner.specs.declared.forms.Cause.{Cause};
ghost use Rattle.fate_runner.specs.declared.forms.Next.{Next};

use crate::{Going, Next, Ready, StepStop};
use host_model::Stop;

/// A step of a transaction, over an environment `E`.
///
/// Each picture inside the work of a step leaves what is stored of transactions as it was, still fits the same stack, and
/// leaves each other transaction what it relies on. At its end the picture fits both the old stack and the one that comes
/// next, so a step whose push or pop was lost is taken again. Over an environment that has stopped for good each call asks
/// nothing and changes nothing; what it answers may be the stop, want of memory, or what it knows without asking.
pub trait Step<E>: Sized + Drop {
    /// The disk, as contracts see it.
    ghost state: { E → HostState };

    /// What stored transactions mean.
    ghost meaning: { Meaning };

    /// How the step's node spells it.
    ghost spelled: { Self → StepWords };

    /// The kinds of transactions that the step may stand in.
    ghost suits: { Self → List ℕ → Type 0 };

    /// The first reason against the step, if there is one.
    ghost first_reason: { Self → ℕ → Going → E → Option Reason };

    /// What a call answers.
    ghost answer: { Self → ℕ → E → Result (Next Self) Cause };

    /// The environment goes on, and offers no entry: what steps ask of it.
    ghost able: { E → Type 0 };

    /// The environment goes on: what it has in memory is what its disk has.
    ghost live: { E → Type 0 };

    /// All that steps look at is the same.
    ghost same: { E → E → Type 0 };

    /// What else a call that stops at nothing makes of the environment, and which entry is offered then.
    ghost calls: { Self → ℕ → E → E → Type 0 };

    /// What else an undo that stops at nothing makes of it.
    ghost undoes: { Self → ℕ → E → E → Type 0 };

    /// A call from the one environment to the other may stop so.
    ghost stops: { Stop → E → E → Type 0 };

    /// The environment has answered this stop for good.
    ghost dead: { E → Stop → Type 0 };

    /// The first reason against taking the step this way, if there is one. Writes nothing.
    fn is_ready(&self, tid: u64, env: &mut E, going: Going) -> Result<Ready, Stop>
        requires { able env.old }
        ensures looks { Looks (state env.old) (state env.new) }
        ensures same { OnOk result (same env.old env.new) }
        ensures ready { IsTrue (state env.old).is_faithful → IsKept meaning (picture_now (state env.old)) → IfOk result (λ ready. ready ≡ ready_of (first_reason self.now tid going env.old)) }
        ensures stops { IfErr result (λ stop. stops stop env.old env.new) }
        ensures dead { (stop : Stop) → dead env.old stop → env.new ≡ env.old };

    /// Does the work of the step, and names the next one. No reason holds against it.
    fn call(&self, tid: u64, env: &mut E) -> Result<Next<Self>, StepStop>
        requires able { able env.old }
        requires ready { IsTrue (state env.old).is_faithful → IsKept meaning (picture_now (state env.old)) → first_reason self.now tid Forward env.old ≡ None }
        ensures keeps { Keeps (state env.old) (state env.new) }
        ensures works { IsTop (spelled self.now) (suits self.now) InProgress (meaning.book (picture_now (state env.old)) tid)
            → Works meaning tid (next_book spelled (meaning.book (picture_now (state env.old)) tid) result) (state env.old) (state env.new) }
        ensures answers { IsTop (spelled self.now) (suits self.now) InProgress (meaning.book (picture_now (state env.old)) tid) → IsTrue (state env.old).is_faithful → IsKept meaning (picture_now (state env.old))
            → Answers (answer self.now tid env.old) result }
        ensures suits { IsTop (spelled self.now) (suits self.now) InProgress (meaning.book (picture_now (state env.old)) tid) → IsTrue (state env.old).is_faithful → Suits suits (meaning.book (picture_now (state env.old)) tid).kind result }
        ensures calls { UnlessStops result (calls self.now tid env.old env.new) }
        ensures live { UnlessStops result (live env.new) }
        ensures stops { IfStops result (λ stop. stops stop env.old env.new) }
        ensures dead { (stop : Stop) → dead env.old stop → env.new ≡ env.old };

    /// Undoes what the step did, or any part of it. No reason holds against it.
    fn undo(&self, tid: u64, env: &mut E) -> Result<(), Stop>
        requires able { able env.old }
        requires ready { IsTrue (state env.old).is_faithful → IsKept meaning (picture_now (state env.old)) → first_reason self.now tid Back env.old ≡ None }
        ensures keeps { Keeps (state env.old) (state env.new) }
        ensures works { IsTop (spelled self.now) (suits self.now) FailedInProgress (meaning.book (picture_now (state env.old)) tid)
            → Works meaning tid (undone_book (meaning.book (picture_now (state env.old)) tid) result) (state env.old) (state env.new) }
        ensures undoes { OnOk result (undoes self.now tid env.old env.new) }
        ensures live { OnOk result (live env.new) }
        ensures stops { IfErr result (λ stop. stops stop env.old env.new) }
        ensures dead { (stop : Stop) → dead env.old stop → env.new ≡ env.old };

    ghost sound: { (env : E) → IsSound (state env) };

    ghost lawful: { IsLawful meaning };

    ghost same_reason: { (step : Self) (tid : ℕ) (going : Going) (old new : E) → same old new → first_reason step tid going new ≡ first_reason step tid going old };

    ghost same_answer: { (step : Self) (tid : ℕ) (old new : E) → same old new → answer step tid new ≡ answer step tid old };

    ghost same_able: { (old new : E) → same old new → able old → able new };

    ghost able_lives: { (env : E) → able env → live env };

    ghost undone_able: { (step : Self) (tid : ℕ) (old new : E) → undoes step tid old new → able old → able new };
}
