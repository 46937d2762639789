//! Attempts.
ghost use Rattle.std.specs.Prelude.{◌≡◌, true, None, Some, [], All, take, map, IfOk, OnOk, OnErr};
ghost use Rattle.stm_history.specs.declared.key_state.ReadAnswer.{ReadAnswer as Answer};
ghost use Rattle.stm_outcome.specs.Numbers.{ReadFits};
ghost use Rattle.stm_program.specs.Levels.{is_serializable};
ghost use Rattle.stm_attempt.specs.Known.{HaveDistinctKeys};
ghost use Rattle.stm_attempt.specs.Fetches.{ShowOneRevision};

use crate::next::Next;
use crate::progress::{Progress, come_on, give_end, go_on, put};
use std::alloc::{AllocError, Global};
use std::marker::Model;
use std::mem;
use stm_compile::ReadSet;
use stm_history::{ReadAnswer, Sequence};
use stm_program::{Level, Program};

/// An attempt at running one program and committing it.
///
/// Contracts see its program (`None` before the first `advance` that was not refused), its level, what it has
/// read, and what was prefetched for it.
///
/// Between two calls its program stands where it wants a key, and goes on from there.
pub struct Attempt {
    program: Option<Program>,
    level: Level,
    // what was read, and after the first `reported` of it the prefetched answers that a refused call took
    reads: ReadSet,
    reported: usize,
    prefetched: ReadSet,
    progress: Progress,
    alloc: Global,
}

impl Drop for Attempt {
    #[inline(always)]
    fn drop(self) {
        let Attempt {
            program: _,
            level: _,
            reads: _,
            reported: _,
            prefetched: _,
            progress: _,
            alloc: _,
        } = self;
    }
}

impl Model for Attempt {
    ghost use Rattle.std.specs.Coded.{codes};
    ghost use Rattle.std.specs.Prelude.{take};
    ghost use Rattle.stm_program.specs.Coding.{coded_program};
    ghost use Rattle.stm_attempt.specs.Known.{HaveDistinctKeys};
    ghost use Rattle.stm_attempt.specs.AttemptState.{AttemptState};

    ghost Value = { AttemptState };

    ghost coded = { Prim.hlevel (codes, coded_program) };

    ghost view = { λ a. record { program = a.program; level = a.level; known = record { reads = take a.reported a.reads; prefetched = a.prefetched } } };

    ghost use Rattle.stm_attempt.specs.Progress.{IsAttempt};

    ghost invariant = { λ a. HaveDistinctKeys a.prefetched × IsAttempt a.program a.reads a.prefetched a.reported a.progress };
}

/// The first of these answers, as they are.
fn first_in(answers: &[ReadAnswer], count: usize) -> &[ReadAnswer]
    ensures { result.now ≡ take count answers.now }
{
    if count < answers.len() {
        return &answers[..count];
    }
    answers
}

/// The first answers of these. It takes no memory.
fn first_of(answers: ReadSet, count: usize) -> Sequence<ReadAnswer>
    ensures { result ≡ take count answers }
{
    let mut first = answers.into_answers().into_vec();
    first.truncate(count);
    Sequence::of(first)
}

/// These answers, of keys that differ. Out of memory is the only refusal.
fn set_of(alloc: Global, answers: Sequence<ReadAnswer>) -> Result<ReadSet, AllocError>
    requires distinct { HaveDistinctKeys answers }
    requires in_range { All ReadFits answers }
    ensures { IfOk result (λ set. set ≡ answers) }
{
    let mut set = ReadSet::new(alloc);
    for answer in answers.into_vec() {
        set.add(answer)?;
    }
    Ok(set)
}

/// A copy of the program that an attempt has, if it has one.
fn copy_program(program: &Option<Program>) -> Result<Option<Program>, AllocError>
    ensures { IfOk result (λ copy. copy ≡ program.now) }
{
    match program {
        None => Ok(None),
        Some(program) => Ok(Some(program.clone()?)),
    }
}

impl Attempt {
    ghost use Rattle.stm_attempt.specs.AttemptState.{begun, begun_after, IsOf, advanced, supplied, supplied_all, awaited, list_awaited};
    ghost use Rattle.stm_attempt.specs.Next.{next_of, key_asked, list_asked};
    ghost use Rattle.stm_attempt.specs.Leaving.{left_by};

    /// An attempt that has read nothing.
    fn begin(alloc: Global, level: Level, prefetched: ReadSet) -> Attempt
        requires { HaveDistinctKeys prefetched }
        ensures { result ≡ begun level prefetched }
    {
        Attempt {
            program: None,
            level,
            reads: ReadSet::new(alloc),
            reported: 0,
            prefetched,
            progress: Progress::Fresh,
            alloc,
        }
    }

    /// A new attempt at this level, for which nothing was prefetched. It takes no memory.
    pub fn new(alloc: Global, level: Level) -> Attempt
        ensures { result ≡ begun level [] }
    {
        Attempt::begin(alloc, level, ReadSet::new(alloc))
    }

    /// A new attempt at a serializable level, for which these answers were prefetched: of keys that differ, and
    /// all of one revision, as the reads of a failed commit answer them.
    ///
    /// They serve the attempt only where its base revision is theirs. Out of memory is the only refusal.
    pub fn from_prefetch(
        alloc: Global,
        level: Level,
        answers: Sequence<ReadAnswer>,
    ) -> Result<Attempt, AllocError>
        requires serializable { is_serializable level ≡ true }
        requires distinct { HaveDistinctKeys answers }
        requires in_range { All ReadFits answers }
        requires one_revision { ShowOneRevision answers }
        ensures { IfOk result (λ attempt. attempt ≡ begun level answers) }
    {
        let prefetched = set_of(alloc, answers)?;
        Ok(Attempt::begin(alloc, level, prefetched))
    }

    /// The next attempt at this level after a commit that failed, with the answers of the keys that it read again: of keys that differ, and all of
    /// one revision.
    ///
    /// At a serializable level they are prefetched for it, as by `from_prefetch`; at the others nothing is. Out of memory is the only refusal; the
    /// answers are dropped then.
    pub fn after_conflict(
        alloc: Global,
        level: Level,
        answers: Sequence<ReadAnswer>,
    ) -> Result<Attempt, AllocError>
        requires distinct { HaveDistinctKeys answers }
        requires in_range { All ReadFits answers }
        requires one_revision { ShowOneRevision answers }
        ensures { IfOk result (λ attempt. attempt ≡ begun_after level answers) }
    {
        if level.is_serializable() {
            Attempt::from_prefetch(alloc, level, answers)
        } else {
            Ok(Attempt::new(alloc, level))
        }
    }

    /// The attempt is set at the start of a program, of which this is its copy. Before, it had read nothing.
    fn set_out(&mut self, kept: Program)
        requires { self.old.program ≡ None }
        ensures before { begun self.old.level self.old.known.prefetched ≡ self.old }
        ensures set { self.new ≡ record self.old { program = Some kept } }
    {
        self.program = Some(kept);
        self.reported = 0;
    }

    /// The attempt is as it was before its first `advance`.
    fn start_anew(&mut self)
        ensures { self.new ≡ begun self.old.level self.old.known.prefetched }
    {
        self.program = None;
        self.reads = ReadSet::new(self.alloc);
        self.reported = 0;
        put(&mut self.progress, Progress::Fresh);
    }

    /// The first `advance`. Where an allocation fails, the attempt is set back to what it was.
    fn first_advance(&mut self, program: &Program) -> Result<Next, AllocError>
        requires { self.old.program ≡ None }
        ensures next { IfOk result (λ next. next ≡ next_of program.now self.old.level self.old.known) }
        ensures ok { OnOk result (self.new ≡ advanced program.now self.old) }
        ensures err { OnErr result (self.new ≡ self.old) }
    {
        let kept = program.clone()?;
        self.set_out(kept);
        let next = self.next_advance(program);
        if next.is_err() {
            self.start_anew();
        }
        next
    }

    /// Each later `advance`. Where an allocation fails, the prefetched answers that were taken stay after those reported.
    fn next_advance(&mut self, program: &Program) -> Result<Next, AllocError>
        requires { self.old.program ≡ Some program.now }
        ensures next { IfOk result (λ next. next ≡ next_of program.now self.old.level self.old.known) }
        ensures ok { OnOk result (self.new ≡ advanced program.now self.old) }
        ensures err { OnErr result (self.new ≡ self.old) }
    {
        let next = go_on(
            self.alloc,
            program,
            self.level,
            &self.prefetched,
            &mut self.reads,
            &mut self.progress,
        )?;
        self.reported = self.reads.len();
        Ok(next)
    }

    /// Goes on with the program as far as the answers take it: to its list, where the attempt has read nothing and not all of the list was
    /// prefetched, else to the first key that it wants and that neither an answer nor a prefetched one of its base revision has, or to its
    /// end.
    ///
    /// It is the same program at each call; the attempt keeps a copy from the first call that is not refused.
    /// Repeated with nothing supplied, the call answers the same. Out of memory is the only refusal, and leaves
    /// the attempt as it was.
    pub fn advance(&mut self, program: &Program) -> Result<Next, AllocError>
        requires { IsOf program.now self.old }
        ensures next { IfOk result (λ next. next ≡ next_of program.now self.old.level self.old.known) }
        ensures ok { OnOk result (self.new ≡ advanced program.now self.old) }
        ensures asked { IfOk result (λ next. awaited self.new ≡ key_asked next) }
        ensures list { IfOk result (λ next. list_awaited self.new ≡ list_asked next) }
        ensures err { OnErr result (self.new ≡ self.old) }
    {
        if self.program.is_none() {
            self.first_advance(program)
        } else {
            self.next_advance(program)
        }
    }

    /// The first `advance_and_give`. Where an allocation fails, the attempt is set back to what it was.
    fn first_and_give(&mut self, program: &Program) -> Result<Next, AllocError>
        requires { self.old.program ≡ None }
        ensures next { IfOk result (λ next. next ≡ next_of program.now self.old.level self.old.known) }
        ensures left { IfOk result (λ next. self.new ≡ left_by next (advanced program.now self.old)) }
        ensures err { OnErr result (self.new ≡ self.old) }
    {
        let kept = program.clone()?;
        self.set_out(kept);
        let next = self.next_and_give(program);
        if next.is_err() {
            self.start_anew();
        }
        next
    }

    /// Each later `advance_and_give`. Where an allocation fails, the prefetched answers that were taken stay after those reported.
    fn next_and_give(&mut self, program: &Program) -> Result<Next, AllocError>
        requires { self.old.program ≡ Some program.now }
        ensures next { IfOk result (λ next. next ≡ next_of program.now self.old.level self.old.known) }
        ensures left { IfOk result (λ next. self.new ≡ left_by next (advanced program.now self.old)) }
        ensures err { OnErr result (self.new ≡ self.old) }
    {
        let found = come_on(
            self.alloc,
            program,
            self.level,
            &self.prefetched,
            &mut self.reads,
            &mut self.progress,
        )?;
        let Some(wanted) = found else {
            let next = give_end(
                self.alloc,
                program,
                self.level,
                &mut self.program,
                &mut self.reads,
                &mut self.progress,
            )?;
            self.reported = self.reads.len();
            return Ok(next);
        };
        self.reported = self.reads.len();
        Ok(wanted.into_next())
    }

    /// Goes on as `advance` does, for who commits the attempt once it is ready: it goes into the answer then, and is itself as before its first
    /// `advance`.
    ///
    /// Out of memory is the only refusal, and leaves the attempt as it was.
    pub fn advance_and_give(&mut self, program: &Program) -> Result<Next, AllocError>
        requires { IsOf program.now self.old }
        ensures next { IfOk result (λ next. next ≡ next_of program.now self.old.level self.old.known) }
        ensures left { IfOk result (λ next. self.new ≡ left_by next (advanced program.now self.old)) }
        ensures asked { IfOk result (λ next. awaited self.new ≡ key_asked next) }
        ensures list { IfOk result (λ next. list_awaited self.new ≡ list_asked next) }
        ensures err { OnErr result (self.new ≡ self.old) }
    {
        if self.program.is_none() {
            self.first_and_give(program)
        } else {
            self.next_and_give(program)
        }
    }

    /// Takes the answer for the key that `advance` just asked for. Its numbers are at most `HIGHEST_NUMBER`.
    ///
    /// Out of memory is the only refusal, and leaves the attempt as it was; the answer is dropped.
    pub fn supply(&mut self, answer: ReadAnswer) -> Result<(), AllocError>
        requires asked { awaited self.old ≡ Some answer.key }
        requires in_range { ReadFits answer }
        ensures ok { OnOk result (self.new ≡ supplied answer self.old) }
        ensures err { OnErr result (self.new ≡ self.old) }
    {
        self.reads.add(answer)?;
        self.reported = self.reads.len();
        Ok(())
    }

    /// Takes the answers for the keys of the list that `advance` just asked for, in the list's order. All show one revision, and their numbers
    /// are at most `HIGHEST_NUMBER`.
    ///
    /// Out of memory is the only refusal, and leaves the attempt as it was; the answers are dropped.
    pub fn supply_all(&mut self, answers: Vec<ReadAnswer>) -> Result<(), AllocError>
        requires asked { list_awaited self.old ≡ Some (map (λ (a : Answer). a.key) answers.items) }
        requires in_range { All ReadFits answers.items }
        requires one_revision { ShowOneRevision answers.items }
        ensures ok { OnOk result (self.new ≡ supplied_all answers.items self.old) }
        ensures err { OnErr result (self.new ≡ self.old) }
    {
        let Some(program) = &self.program else {
            unreachable!();
        };
        // No key of its list stands twice.
        program.prefetch();
        let reads = set_of(self.alloc, Sequence::of(answers))?;
        self.reported = reads.len();
        drop(mem::replace(&mut self.reads, reads));
        put(&mut self.progress, Progress::Fresh);
        Ok(())
    }

    /// Takes out what the attempt has read, in the order of first reads. It is then as before its first `advance`. It takes no memory.
    pub fn take_reads(&mut self) -> Sequence<ReadAnswer>
        ensures reads { result ≡ self.old.known.reads }
        ensures anew { self.new ≡ begun self.old.level self.old.known.prefetched }
    {
        let reported = self.reported;
        let reads = mem::replace(&mut self.reads, ReadSet::new(self.alloc));
        self.program = None;
        self.reported = 0;
        put(&mut self.progress, Progress::Fresh);
        first_of(reads, reported)
    }
}

impl Attempt {
    /// What the attempt has read, in the order of first reads.
    pub fn reads(&self) -> &[ReadAnswer]
        ensures { result.now ≡ self.now.known.reads }
    {
        first_in(self.reads.as_slice(), self.reported)
    }

    /// What was prefetched for the attempt.
    pub fn prefetched(&self) -> &[ReadAnswer]
        ensures { result.now ≡ self.now.known.prefetched }
    {
        self.prefetched.as_slice()
    }
}

impl Attempt {
    /// A copy of the attempt. Where it goes on, it runs its program from the start, on what the attempt has read.
    ///
    /// Out of memory is its only refusal.
    pub fn copy(&self) -> Result<Attempt, AllocError>
        ensures { IfOk result (λ copy. copy ≡ self.now) }
    {
        let program = copy_program(&self.program)?;
        let Ok(reads) = self.reads.clone() else {
            drop(program);
            return Err(AllocError);
        };
        let Ok(prefetched) = self.prefetched.clone() else {
            drop(reads);
            drop(program);
            return Err(AllocError);
        };
        Ok(Attempt {
            program,
            level: self.level,
            reads,
            reported: self.reported,
            prefetched,
            progress: Progress::Fresh,
            alloc: self.alloc,
        })
    }
}
