// Steps as nodes spell them.
ghost use Rattle.std.specs.Prelude.{◌≡◌, ◌≢◌, ℕ, List, Bool, IfOk, MatchOption};
ghost use Rattle.fate_runner.specs.declared.text.StepWords.{StepWords};

use row_keys::Octets;
use std::alloc::{AllocError, Global};

/// A step as its node spells it.
#[derive(Debug, Drop)]
pub struct StepWords {
    /// The step's name.
    pub name: Octets,
    /// What it is to be taken with, of any bytes.
    pub argument: Octets,
}

/// Steps that nodes spell. Some are spelled alike in transactions of several kinds, so a step is read for a kind.
pub trait StepText: Sized {
    /// How nodes spell a step.
    ghost text: { Self → StepWords };

    /// The step may stand in transactions of this kind.
    ghost text_suits: { Self → List ℕ → Type 0 };

    /// The step commits, or stands after one that does.
    ghost is_past: { Self → Bool };

    /// How nodes spell this step. Takes memory for it.
    fn write_text(&self, alloc: Global) -> Result<StepWords, AllocError>
        ensures { IfOk result (λ found. found ≡ text self.now) };

    /// The step of this kind that is spelled so, and none exactly where no step of this kind is. Takes memory for it.
    fn read_text(
        alloc: Global,
        kind: &Octets,
        words: &StepWords,
    ) -> Result<Option<Self>, AllocError>
        ensures { IfOk result (λ found. MatchOption found ((step : Self) → text_suits step kind.now → text step ≢ words.now) (λ step. text_suits step kind.now × (text step ≡ words.now))) };

    /// Whether the step commits, or stands after one that does. Takes no memory.
    fn past_commit(&self) -> bool
        ensures { result ≡ is_past self.now };

    ghost one_spelling: { (one two : Self) (kind : List ℕ) → text_suits one kind → text_suits two kind → text one ≡ text two → one ≡ two };
}
