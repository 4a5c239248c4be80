// Steps of two levels: walls, and a roof over them.
ghost use Rattle.std.specs.Prelude.{◌≡◌, ◌≢◌, ℕ, List, MatchOption, MatchBool, IfOk, IfErr};
ghost use Rattle.host_model.specs.declared.fault.Stop.{Stop};
ghost use Rattle.fate_runner.specs.Works.{ready_of};
ghost use Rattle.fate_trial.specs.Stops.{SiteStops, none, never};
ghost use Rattle.fate_trial.specs.Towers.{tower_reason, level_words};

use crate::layout::Slot;
use crate::site::Site;
use crate::works::{has_node, is_refused, make, take};
use fate_runner::{Cause, Going, Next, Ready, Reason, Step, StepStop, StepText, StepWords};
use host_model::{Host, Stop};
use row_keys::Octets;
use std::alloc::{AllocError, Global};

/// A step of a tower.
#[derive(Clone, Copy, Debug, PartialEq, Eq)]
pub enum Level {
    /// Raises the walls.
    Raise,
    /// Covers them with a roof.
    Cover,
}

/// The name of a step.
fn level_name(level: Level) -> &'static [u8]
    ensures { result.now ≡ (level_words level).name }
{
    match level {
        Level::Raise => b"Raise",
        Level::Cover => b"Cover",
    }
}

/// Whether the bytes are the same.
fn same_bytes(one: &[u8], other: &[u8]) -> bool
    ensures { MatchBool result (one.now ≡ other.now) (one.now ≢ other.now) }
{
    one == other
}

/// Whether these are the words of this step.
fn is_spelled(words: &StepWords, level: Level) -> bool
    ensures { MatchBool result (level_words level ≡ words.now) (level_words level ≢ words.now) }
{
    if !same_bytes(words.name.as_bytes(), level_name(level)) {
        return false;
    }
    same_bytes(words.argument.as_bytes(), b"")
}

/// Whether a step may be taken this way.
fn readiness<H: Host>(env: &Site<H>, going: Going) -> Result<Ready, Stop>
    ensures ready { IfOk result (λ ready. ready ≡ ready_of (tower_reason going env.now.nodes.nodes)) }
    ensures stops { IfErr result (λ stop. SiteStops H.state none never stop env.now env.now) }
{
    env.going()?;
    match going {
        Going::Back => Ok(Ready::Now),
        Going::Forward => {
            if has_node(env, b"/hold")? {
                return Ok(Ready::Defer(Reason::Lock(0)));
            }
            Ok(Ready::Now)
        }
    }
}

impl<H: Host> Step<Site<H>> for Level {
    ghost use Rattle.fate_trial.specs.Site.{GoesOn, IsDead};
    ghost use Rattle.fate_trial.specs.Stops.{StepStops};
    ghost use Rattle.fate_trial.specs.Towers.{tower_meaning, level_words, LevelSuits, tower_reason, tower_answer};
    ghost use Rattle.fate_trial.specs.TowerLaws.{tower_lawful, same_reason, same_answer, same_able};

    ghost state = { λ env. H.state env.host };

    ghost meaning = { tower_meaning };

    ghost spelled = { level_words };

    ghost suits = { LevelSuits };

    ghost first_reason = { λ step tid going env. tower_reason going env.nodes.nodes };

    ghost answer = { λ step tid env. tower_answer step tid env.nodes.nodes };

    ghost able = { GoesOn H.state };

    ghost live = { GoesOn H.state };

    ghost same = { λ old new. new ≡ old };

    ghost calls = { λ step tid old new. GoesOn H.state new };

    ghost undoes = { λ step tid old new. GoesOn H.state new };

    ghost stops = { StepStops H.state };

    ghost dead = { IsDead H.state };

    ghost sound = { λ env. H.sound env.host };

    ghost lawful = { tower_lawful };

    ghost same_reason = { same_reason };

    ghost same_answer = { same_answer };

    ghost same_able = { same_able H.state };

    ghost able_lives = { λ env able. able };

    ghost undone_able = { λ step tid old new undone able. undone };

    fn is_ready(&self, _tid: u64, env: &mut Site<H>, going: Going) -> Result<Ready, Stop> {
        readiness(env, going)
    }

    fn call(&self, tid: u64, env: &mut Site<H>) -> Result<Next<Level>, StepStop> {
        match self {
            Level::Raise => match make(env, Slot::Walls, tid) {
                Ok(()) => Ok(Next::Push(Level::Cover)),
                Err(stop) => Err(StepStop::Stop(stop)),
            },
            Level::Cover => match is_refused(env, tid) {
                Ok(true) => Err(StepStop::Failed(Cause::Exists)),
                Ok(false) => match make(env, Slot::Roof, tid) {
                    Ok(()) => Ok(Next::Done),
                    Err(stop) => Err(StepStop::Stop(stop)),
                },
                Err(stop) => Err(StepStop::Stop(stop)),
            },
        }
    }

    fn undo(&self, tid: u64, env: &mut Site<H>) -> Result<(), Stop> {
        match self {
            Level::Raise => take(env, Slot::Walls, tid),
            Level::Cover => take(env, Slot::Roof, tid),
        }
    }
}

impl StepText for Level {
    ghost use Rattle.std.specs.Prelude.{false};
    ghost use Rattle.fate_trial.specs.Towers.{level_words, LevelSuits};
    ghost use Rattle.fate_trial.specs.TowerLaws.{one_spelling};

    ghost text = { level_words };

    ghost text_suits = { LevelSuits };

    ghost is_past = { λ step. false };

    ghost one_spelling = { one_spelling };

    fn write_text(&self, alloc: Global) -> Result<StepWords, AllocError> {
        Ok(StepWords {
            name: Octets::new(alloc, level_name(*self))?,
            argument: Octets::new(alloc, &[])?,
        })
    }

    fn read_text(
        _alloc: Global,
        kind: &Octets,
        words: &StepWords,
    ) -> Result<Option<Self>, AllocError> {
        if kind.as_bytes() != b"tower".as_slice() {
            return Ok(None);
        }
        if is_spelled(words, Level::Raise) {
            return Ok(Some(Level::Raise));
        }
        if is_spelled(words, Level::Cover) {
            return Ok(Some(Level::Cover));
        }
        Ok(None)
    }

    fn past_commit(&self) -> bool {
        false
    }
}
