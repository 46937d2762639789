//! Runs of programs that have not ended.
ghost use Rattle.stm_alike.specs.Seen.{seen_runner};
ghost use Rattle.std.specs.Prelude.{true, ◌≡◌, ◌≢◌, ◌+◌, ◌<◌, nat_lt, false, None, Some, [], map, All, IfOk, OnOk, OnErr};
ghost use Rattle.stm_history.specs.declared.key_state.ReadAnswer.{ReadAnswer as Answer};
ghost use Rattle.stm_outcome.specs.Commits.{AreNamed as KeysAreNamed};
ghost use Rattle.stm_outcome.specs.Numbers.{ReadFits};
ghost use Rattle.stm_program.specs.Levels.{is_serializable};
ghost use Rattle.stm_attempt.specs.Known.{HaveDistinctKeys};
ghost use Rattle.stm_attempt.specs.Fetches.{ShowOneRevision};
ghost use Rattle.stm_attempt.specs.AttemptState.{begun};
ghost use Rattle.stm_attempt.specs.Next.{key_asked, list_asked};
ghost use Rattle.stm_world.specs.World.{begin};
ghost use Rattle.stm_retry.specs.RunnerView.{task_of, AreNamed, next_for, with_answer, with_answers, begun_again};
ghost use Rattle.stm_retry.specs.AtBase.{IsAhead};

use crate::ahead::{Ahead, ahead_of};
use crate::alike::{is_same_level, is_same_program, mix};
use std::alloc::{AllocError, Global};
use std::marker::Model;
use std::mem;
use stm_alike::{are_same_answers, are_seen_alike};
use stm_attempt::{Attempt, Next};
use stm_history::{ReadAnswer, Sequence, found_mod_rev, mod_rev_of};
use stm_keys::Keys;
use stm_program::{Level, Program};

/// A run of a program that has not ended.
///
/// Contracts see the runner of the world that it is, and the key whose answer it waits for, or the list whose answers.
#[derive(Drop)]
pub(crate) struct Runner {
    program: Program,
    level: Level,
    /// How many commits the run may send.
    limit: u32,
    /// How many of its commits have failed.
    failures: u32,
    attempt: Attempt,
}

impl Model for Runner {
    ghost use Rattle.std.specs.Coded.{codes};
    ghost use Rattle.stm_program.specs.Coding.{coded_program};
    ghost use Rattle.stm_retry.specs.RunnerView.{RunnerView, view_of, task_of, IsRunner};

    ghost Value = { RunnerView };

    ghost coded = { Prim.hlevel (codes, coded_program) };

    ghost view = { λ r. view_of (task_of r.program r.level r.limit) r.failures r.attempt };

    ghost invariant = { λ r. IsRunner (task_of r.program r.level r.limit) r.failures r.attempt };
}

/// The next attempt at a level after a commit that failed.
///
/// Only at the serializable levels has a failed commit read its keys again.
fn next_attempt(
    alloc: Global,
    level: Level,
    answers: Sequence<ReadAnswer>,
) -> Result<Attempt, AllocError>
    requires distinct { HaveDistinctKeys answers }
    requires in_range { All ReadFits answers }
    requires one_revision { ShowOneRevision answers }
    requires only_serializable { is_serializable level ≡ false → answers ≡ [] }
    ensures { IfOk result (λ attempt. attempt ≡ begun level answers) }
{
    Attempt::after_conflict(alloc, level, answers)
}

/// Puts the next attempt in the place of one that is over, which is dropped.
fn replace_attempt(place: &mut Attempt, next: Attempt)
    ensures { place.new ≡ next }
{
    drop(mem::replace(place, next));
}

/// Forgets how far an attempt has run its program, which takes more memory than all else of a runner. Where many worlds share a runner, each step of it is made
/// by a copy, which runs the program from the start.
fn rest(attempt: &mut Attempt) -> Result<(), AllocError>
    ensures { attempt.new ≡ attempt.old }
{
    let resting = attempt.copy()?;
    replace_attempt(attempt, resting);
    Ok(())
}

impl Runner {
    /// A number that alike runners have in common.
    pub(crate) fn hint(&self) -> u64 {
        let mut hint = mix(self.failures as u64, 7);
        let is_dated = self.level.is_serializable();
        for answer in self.attempt.reads() {
            if is_dated {
                hint = mix(hint, answer.of_rev);
            }
            hint = mix(hint, mod_rev_of(&answer.kv));
        }
        for answer in self.attempt.prefetched() {
            hint = mix(mix(hint, answer.of_rev), mod_rev_of(&answer.kv));
        }
        hint
    }

    /// Whether another runner is alike: it may differ in revisions of its answers that its level makes no use of.
    pub(crate) fn is_alike(&self, other: &Runner) -> bool
        ensures { result ≡ true → seen_runner self.now.runner ≡ seen_runner other.now.runner }
    {
        if self.failures != other.failures || self.limit != other.limit {
            return false;
        }
        if !is_same_level(self.level, other.level) {
            return false;
        }
        if !are_same_answers(self.attempt.prefetched(), other.attempt.prefetched()) {
            return false;
        }
        if !are_seen_alike(
            self.level,
            self.attempt.prefetched(),
            self.attempt.reads(),
            other.attempt.reads(),
        ) {
            return false;
        }
        is_same_program(&self.program, &other.program)
    }

    /// Whether the keys that its attempt has read are as they were read, or the level compares none. No contract says so.
    pub(crate) fn seems_up_to_date(&self, keys: &Keys) -> bool {
        if !self.level.is_comparing() {
            return true;
        }
        for answer in self.attempt.reads() {
            if found_mod_rev(keys.get(answer.key.as_str())) != mod_rev_of(&answer.kv) {
                return false;
            }
        }
        true
    }

    /// A runner whose run has sent no commit, and may send at most `limit`. It takes no memory.
    pub(crate) fn new(alloc: Global, program: Program, level: Level, limit: u32) -> Runner
        requires { limit ≢ 0 }
        ensures { result.runner ≡ begin (task_of program level limit) }
    {
        Runner {
            program,
            level,
            limit,
            failures: 0,
            attempt: Attempt::new(alloc, level),
        }
    }

    /// Goes on with the program as far as the answers take it. The runner knew before what it knows then.
    ///
    /// Out of memory is the only refusal, and leaves the runner as it was.
    pub(crate) fn advance(&mut self) -> Result<Next, AllocError>
        ensures same { self.new.runner ≡ self.old.runner }
        ensures next { IfOk result (λ next. next ≡ next_for self.old.runner) }
        ensures asked { IfOk result (λ next. self.new.awaits ≡ key_asked next) }
        ensures list { IfOk result (λ next. self.new.awaits_list ≡ list_asked next) }
        ensures named { AreNamed self.new.runner.known.reads }
        ensures keys { KeysAreNamed self.new.runner.task.program.prefetch }
    {
        // No key of a list is empty.
        self.program.prefetch();
        self.attempt.advance(&self.program)
    }

    /// Looks at the next step: the program goes on as far as the answers take it. The runner is the same, and rests then.
    ///
    /// Out of memory is the only refusal.
    pub(crate) fn look_ahead(&mut self) -> Result<Ahead, AllocError>
        ensures same { self.new.runner ≡ self.old.runner }
        ensures ahead { IfOk result (λ ahead. IsAhead ahead self.old.runner) }
    {
        let ahead = self.look()?;
        self.rest()?;
        Ok(ahead)
    }

    /// Goes on as far as the answers take the program, and says what the next step is.
    fn look(&mut self) -> Result<Ahead, AllocError>
        ensures same { self.new.runner ≡ self.old.runner }
        ensures ahead { IfOk result (λ ahead. IsAhead ahead self.old.runner) }
    {
        let next = self.attempt.advance(&self.program)?;
        Ok(ahead_of(&next, self.attempt.reads()))
    }

    /// Lets the attempt rest.
    fn rest(&mut self) -> Result<(), AllocError>
        ensures { self.new.runner ≡ self.old.runner }
    {
        rest(&mut self.attempt)
    }

    /// Takes the answer that the runner waits for.
    ///
    /// Out of memory is the only refusal, and leaves the runner as it was.
    pub(crate) fn supply(&mut self, answer: ReadAnswer) -> Result<(), AllocError>
        requires asked { self.old.awaits ≡ Some answer.key }
        requires in_range { ReadFits answer }
        ensures ok { OnOk result (self.new.runner ≡ with_answer answer self.old.runner) }
        ensures err { OnErr result (self.new ≡ self.old) }
    {
        self.attempt.supply(answer)
    }

    /// Takes the answers to the list that the runner waits for, in its order. All show one revision.
    ///
    /// Out of memory is the only refusal, and leaves the runner as it was.
    pub(crate) fn supply_all(&mut self, answers: Vec<ReadAnswer>) -> Result<(), AllocError>
        requires asked { self.old.awaits_list ≡ Some (map (λ (a : Answer). a.key) answers.items) }
        requires in_range { All ReadFits answers.items }
        requires one_revision { ShowOneRevision answers.items }
        ensures ok { OnOk result (self.new.runner ≡ with_answers answers.items self.old.runner) }
        ensures err { OnErr result (self.new ≡ self.old) }
    {
        // No key of a list is empty.
        self.program.prefetch();
        self.attempt.supply_all(answers)
    }

    /// Whether the run may send one more commit, should the present one fail.
    pub(crate) fn may_begin_again(&self) -> bool
        ensures { result ≡ nat_lt (self.now.runner.failures + 1) self.now.runner.task.limit }
    {
        let limit = self.limit;
        self.failures + 1 < limit
    }

    /// The number of commits that the run has sent, the present one among them.
    pub(crate) fn attempts(&self) -> u64
        ensures { result ≡ self.now.runner.failures + 1 }
    {
        // (the runner's type says that the commits that failed are fewer than the limit)
        let _above_failures = self.limit;
        (self.failures + 1) as u64
    }

    /// Begins the next attempt, for which a failed commit has read these answers.
    ///
    /// Out of memory is the only refusal, and leaves the runner as it was.
    pub(crate) fn begin_again(
        &mut self,
        alloc: Global,
        answers: Sequence<ReadAnswer>,
    ) -> Result<(), AllocError>
        requires more { self.old.runner.failures + 1 < self.old.runner.task.limit }
        requires named { AreNamed answers }
        requires distinct { HaveDistinctKeys answers }
        requires in_range { All ReadFits answers }
        requires one_revision { ShowOneRevision answers }
        requires only_serializable { is_serializable self.old.runner.task.level ≡ false → answers ≡ [] }
        ensures ok { OnOk result (self.new.runner ≡ begun_again answers self.old.runner) }
        ensures err { OnErr result (self.new ≡ self.old) }
    {
        let next = next_attempt(alloc, self.level, answers)?;
        replace_attempt(&mut self.attempt, next);
        self.failures += 1;
        Ok(())
    }
}

/// The copy is the same runner. Where it goes on, it runs its program from the start, on what it has read.
impl Clone for Runner {
    ghost is_clone = { λ runner copy. copy ≡ runner };

    fn clone(&self) -> Result<Runner, AllocError> {
        let program = self.program.clone()?;
        let attempt = self.attempt.copy()?;
        Ok(Runner {
            program,
            level: self.level,
            limit: self.limit,
            failures: self.failures,
            attempt,
        })
    }
}
