//! Runners that several worlds share.
ghost use Rattle.stm_alike.specs.Seen.{seen_runner};
ghost use Rattle.std.specs.Prelude.{true, ◌≡◌, ◌≤◌, Ok, IfOk, IfSome};
ghost use Rattle.stm_history.specs.History.{now};
ghost use Rattle.stm_attempt.specs.Fetches.{at_of};
ghost use Rattle.stm_world.specs.World.{step_live};
ghost use Rattle.stm_retry.specs.RunnerReturns.{workplace, Leaves};
ghost use Rattle.stm_retry.specs.AtBase.{FetchesAtBase};

use crate::ahead::Ahead;
use crate::runner::Runner;
use crate::runner_steps::{step_live, step_live_quietly};
use crate::step_outcome::StepOutcome;
use std::alloc::{AllocError, Global};
use std::marker::Model;
use std::sync::Arc;
use stm_journal::Journal;
use stm_keys::Keys;

/// One runner for a world and its copies, until one of them makes a step of it.
///
/// Contracts see the runner.
#[derive(Drop)]
pub(crate) struct SharedRunner {
    runner: Arc<Runner>,
    /// What is known of its next step.
    ahead: Ahead,
}

impl Model for SharedRunner {
    ghost use Rattle.std.specs.Coded.{codes};
    ghost use Rattle.stm_program.specs.Coding.{coded_program};
    ghost use Rattle.stm_retry.specs.RunnerView.{RunnerView};

    ghost Value = { RunnerView };

    ghost coded = { Prim.hlevel (codes, coded_program) };

    ghost view = { λ s. s.runner.value };

    ghost use Rattle.stm_retry.specs.AtBase.{IsAhead};

    ghost invariant = { λ s. IsAhead s.ahead s.runner.value.runner };
}

impl SharedRunner {
    pub(crate) fn hint(&self) -> u64 {
        self.runner.hint()
    }

    /// Whether another runner is alike.
    pub(crate) fn is_alike(&self, other: &SharedRunner) -> bool
        ensures { result ≡ true → seen_runner self.now.runner ≡ seen_runner other.now.runner }
    {
        self.runner.is_alike(&other.runner)
    }

    /// A runner that can be shared.
    pub(crate) fn new(alloc: Global, runner: Runner) -> Result<SharedRunner, AllocError>
        ensures { IfOk result (λ s. s ≡ runner) }
    {
        let runner = Arc::new(alloc, runner)?;
        Ok(SharedRunner {
            runner,
            ahead: Ahead::Unknown,
        })
    }

    /// Makes one step of the runner. A runner with other owners is copied first, and they keep it as it was.
    pub(crate) fn step(
        &mut self,
        alloc: Global,
        journal: &mut Journal,
        id: u64,
    ) -> Result<StepOutcome, AllocError>
        requires { at_of self.old.runner.task.level self.old.runner.known.reads ≤ now journal.old.standing.history }
        ensures { Leaves id result (workplace journal.old self.old.runner)
            (workplace journal.new self.new.runner) (step_live id self.old.runner) }
    {
        self.ahead = Ahead::Unknown;
        match Arc::make_mut(&mut self.runner) {
            Ok(runner) => step_live(alloc, journal, id, runner),
            Err(error) => Err(error),
        }
    }

    /// The same of a step that changes nothing in the journal and fetches no list. Where it does not, nothing is said of the runner.
    pub(crate) fn step_quietly(
        &mut self,
        alloc: Global,
        journal: &Journal,
        id: u64,
    ) -> Result<Option<StepOutcome>, AllocError>
        requires { at_of self.old.runner.task.level self.old.runner.known.reads ≤ now journal.now.standing.history }
        ensures { IfOk result (λ o. IfSome o (λ outcome. Leaves id (Ok outcome) (workplace journal.now self.old.runner)
            (workplace journal.now self.new.runner) (step_live id self.old.runner))) }
    {
        self.ahead = Ahead::Unknown;
        match Arc::make_mut(&mut self.runner) {
            Ok(runner) => step_live_quietly(alloc, journal, id, runner),
            Err(error) => Err(error),
        }
    }

    /// Looks at the next step of the runner, which stays as it is. A runner with other owners is copied first.
    pub(crate) fn look_ahead(&mut self) -> Result<(), AllocError>
        ensures { self.new.runner ≡ self.old.runner }
    {
        self.ahead = Ahead::Unknown;
        let ahead = match Arc::make_mut(&mut self.runner) {
            Ok(runner) => runner.look_ahead()?,
            Err(error) => return Err(error),
        };
        self.ahead = ahead;
        Ok(())
    }

    /// Whether the next step is known to fetch a key at the base of the attempt.
    pub(crate) fn fetches_at_base(&self) -> bool
        ensures { result ≡ true → FetchesAtBase self.now.runner }
    {
        self.ahead == Ahead::FetchesAtBase
    }

    /// Whether the next step seems to commit, on these keys. No contract says so.
    pub(crate) fn seems_to_commit(&self, keys: &Keys) -> bool {
        self.ahead == Ahead::Commits && self.runner.seems_up_to_date(keys)
    }
}

/// One more owner of the same runner. It takes no memory.
impl Clone for SharedRunner {
    ghost is_clone = { λ s copy. copy ≡ s };

    fn clone(&self) -> Result<SharedRunner, AllocError> {
        let runner = self.runner.clone()?;
        Ok(SharedRunner {
            runner,
            ahead: self.ahead,
        })
    }
}
