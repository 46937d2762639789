//! Whether a commit that is reported is the one that the replay of a runner's program makes.
ghost use Rattle.std.specs.Prelude.{◌≡◌, ◌≢◌, ◌↔◌, ◌+◌, ◌≤◌, [], ◌∷◌, ◌++◌, true, false, map, filter, string_bytes, None, Some, IsTrue, IfOk, OnOk, MatchOption};
ghost use Rattle.stm_outcome.specs.declared.refusal.Refusal.TheVariants.{OutOfMemory};
ghost use Rattle.stm_compile.specs.Answers.{look_up};
ghost use Rattle.stm_steps.specs.declared.run.End.TheVariants.{Done as DoneEnd};
ghost use Rattle.stm_outcome.specs.Numbers.{StatesFit};
ghost use Rattle.stm_program.specs.Levels.{is_comparing};
ghost use Rattle.stm_entries.specs.Alone.{applied_run};
ghost use Rattle.stm_entries.specs.Replayed.{without_moment};
ghost use Rattle.stm_entries.specs.declared.entry.Entry.TheVariants.{Program as ProgramEntry};
ghost use Rattle.stm_events.specs.FirstReads.{is_other, keys_first_read};
ghost use Rattle.stm_events.specs.Replies.{reads_in};
ghost use Rattle.stm_check.specs.Point.{led_by};
ghost use Rattle.stm_check.specs.Replays.{keys_reported, IsRightCommit};
ghost use Rattle.stm_check.specs.Runs.{run_in, IsRunOn, IsFound, revision_reached, with_writes};

use crate::lookups::{KeysNow, are_truly_reported, reads_reported};
use crate::runner::Runner;
use std::alloc::{AllocError, Global};
use stm_compile::{ReadSet, WriteBuffer};
use stm_events::{CommittedRead, are_same_traces, are_same_values};
use stm_history::{Sequence, Text};
use stm_keys::Keys;
use stm_meaning::{Answered, End, Run, TraceItem, Value, run_answered};
use stm_program::{Program, is_listed};
use stm_txn::{Refusal, Store};

/// What the reply to a step reports of its commit.
#[derive(Clone, Copy)]
pub(crate) struct ReportedCommit<'a> {
    pub(crate) revision: u64,
    pub(crate) attempts: u64,
    pub(crate) output: &'a [Value],
    pub(crate) trace: &'a [TraceItem],
    pub(crate) answers: &'a [CommittedRead],
}

/// Whether a commit is the next of its run, and one that the run may send.
fn is_next_attempt(runner: &Runner, attempts: u64) -> bool
    ensures { IsTrue result ↔ (attempts ≡ runner.now.conflicts + 1) × (attempts ≤ runner.now.limit) }
{
    attempts != 0 && attempts - 1 == runner.conflicts && attempts <= runner.limit as u64
}

/// Whether an answer is of a key.
fn is_of_key(answer: &CommittedRead, key: &Text) -> bool
    ensures { IsTrue result ↔ answer.now.key ≡ key.now }
{
    answer.key == *key
}

/// Whether answers are of these keys, in this order.
fn are_of_keys(answers: &[CommittedRead], keys: &[Text]) -> bool
    ensures { IsTrue result ↔ keys_reported answers.now ≡ keys.now }
{
    if answers.len() != keys.len() {
        return false;
    }
    for i in 0..keys.len() {
        if !is_of_key(&answers[i], &keys[i]) {
            return false;
        }
    }
    true
}

/// The run that came to its end, if it did.
fn ended_run(answered: Answered) -> Option<Run>
    ensures { result ≡ run_in answered }
{
    match answered {
        Answered::Ended(run) => Some(run),
        Answered::Wants { .. } => None,
    }
}

/// The run on the store as it is now, where no answers are reported.
fn run_now(
    alloc: Global,
    keys: &Keys,
    runner: &Runner,
    answers: &[CommittedRead],
) -> Result<Option<Run>, AllocError>
    requires { is_comparing runner.now.level ≡ true }
    ensures { IfOk result (IsFound runner.now.level keys.now.history runner.now.program answers.now) }
{
    if !answers.is_empty() {
        return Ok(None);
    }
    let answered = run_answered(alloc, &runner.program, &KeysNow { keys })?;
    Ok(ended_run(answered))
}

/// Adds a key after others, where a list has it not.
fn add_other(keys: &mut Sequence<Text>, listed: &[String], read: &Text) -> Result<(), AllocError>
    ensures { OnOk result (keys.new ≡ keys.old ++ filter (is_other (map string_bytes listed.now)) (read.now ∷ [])) }
{
    if is_listed(read.as_str(), listed) {
        return Ok(());
    }
    let key = read.clone()?;
    keys.push(key)?;
    Ok(())
}

/// Adds those of these keys that a list has not.
fn add_others(
    keys: &mut Sequence<Text>,
    listed: &[String],
    reads: &[Text],
) -> Result<(), AllocError>
    ensures { OnOk result (keys.new ≡ keys.old ++ filter (is_other (map string_bytes listed.now)) reads.now) }
{
    for read in reads {
        add_other(keys, listed, read)?;
    }
    Ok(())
}

/// The keys in the order in which an attempt of a program first reads them: those of its list, and then the others that its run looked up.
fn first_reads(alloc: Global, program: &Program, run: &Run) -> Result<Sequence<Text>, AllocError>
    ensures { IfOk result (λ keys. keys ≡ keys_first_read program.now.prefetch run.now.reads) }
{
    let mut keys = program.list(alloc)?;
    add_others(&mut keys, program.prefetch(), run.reads.as_slice())?;
    Ok(keys)
}

/// The run, where these answers are of the keys that are read first.
fn run_of_keys(
    alloc: Global,
    program: &Program,
    run: Run,
    answers: &[CommittedRead],
) -> Result<Option<Run>, AllocError>
    ensures { IfOk result (λ found. MatchOption found (keys_reported answers.now ≡ keys_first_read program.now.prefetch run.reads → ⊥)
        (λ same. (same ≡ run) × (keys_reported answers.now ≡ keys_first_read program.now.prefetch run.reads))) }
{
    let Ok(keys) = first_reads(alloc, program, &run) else {
        drop(run);
        return Err(AllocError);
    };
    let are_these = are_of_keys(answers, keys.as_slice());
    drop(keys);
    if are_these {
        Ok(Some(run))
    } else {
        drop(run);
        Ok(None)
    }
}

/// The run on these reads, where these answers are of the keys that are read first.
fn run_on_reads(
    alloc: Global,
    program: &Program,
    reads: &ReadSet,
    answers: &[CommittedRead],
) -> Result<Option<Run>, AllocError>
    ensures { IfOk result (IsRunOn (look_up reads.now) program.now answers.now) }
{
    match ended_run(run_answered(alloc, program, reads)?) {
        None => Ok(None),
        Some(run) => run_of_keys(alloc, program, run, answers),
    }
}

/// The run on the answers that are reported, where they are true and are those that the run looked up.
fn run_on_reported(
    alloc: Global,
    keys: &Keys,
    runner: &Runner,
    answers: &[CommittedRead],
) -> Result<Option<Run>, AllocError>
    requires numbers { StatesFit keys.now.history }
    requires level { is_comparing runner.now.level ≡ false }
    ensures { IfOk result (IsFound runner.now.level keys.now.history runner.now.program answers.now) }
{
    if !are_truly_reported(keys, answers) {
        return Ok(None);
    }
    let reads = reads_reported(alloc, keys, answers)?;
    let run = run_on_reads(alloc, &runner.program, &reads, answers);
    drop(reads);
    run
}

/// The run of a runner's program at this point, where the answers that are reported are those of its level.
fn run_reported(
    alloc: Global,
    keys: &Keys,
    runner: &Runner,
    answers: &[CommittedRead],
) -> Result<Option<Run>, AllocError>
    requires { StatesFit keys.now.history }
    ensures { IfOk result (IsFound runner.now.level keys.now.history runner.now.program answers.now) }
{
    if runner.level.is_comparing() {
        run_now(alloc, keys, runner, answers)
    } else {
        run_on_reported(alloc, keys, runner, answers)
    }
}

/// Whether a run is done, with this output and trace.
fn is_reported_run(run: &Run, reported: ReportedCommit<'_>) -> bool
    ensures { IsTrue result ↔ (run.now.end ≡ DoneEnd) × (run.now.output ≡ reported.entry.output.now) × (run.now.trace ≡ reported.entry.trace.now) }
{
    run.end == End::Done
        && are_same_values(run.output.as_slice(), reported.output)
        && are_same_traces(run.trace.as_slice(), reported.trace)
}

/// No revision, where the store refused writes, though it did not run out of memory.
fn refused_writes(cause: Refusal) -> Result<Option<u64>, AllocError>
    ensures none { IfOk result (λ revision. revision ≡ None) }
    ensures memory { OnOk result (cause ≢ OutOfMemory) }
{
    if cause == Refusal::OutOfMemory {
        return Err(AllocError);
    }
    Ok(None)
}

/// Applies the last write of each key of a run, with nothing compared, and gives the revision that the store has come to;
/// none where it refuses them.
fn apply_writes(alloc: Global, store: &mut Store, run: &Run) -> Result<Option<u64>, AllocError>
    ensures revision { IfOk result (λ revision. revision ≡ revision_reached (applied_run (without_moment store.old.standing) run.now)) }
    ensures store { OnOk result (store.new.standing ≡ with_writes store.old.standing run.now) }
{
    let latest = WriteBuffer::of(alloc, run.writes.as_slice())?;
    match store.write(latest.into_changes()) {
        Ok(revision) => Ok(Some(revision)),
        Err(cause) => refused_writes(cause),
    }
}

/// Whether the revision that a store has come to is this one.
fn is_reached(reached: Option<u64>, revision: u64) -> bool
    ensures { IsTrue result ↔ reached ≡ Some revision }
{
    match reached {
        None => false,
        Some(other) => other == revision,
    }
}

/// Applies a run, and returns whether its commit is the one that is reported.
fn replay_run(
    alloc: Global,
    store: &mut Store,
    run: &Run,
    reported: ReportedCommit<'_>,
) -> Result<bool, AllocError>
    ensures right { IfOk result (λ b. IsTrue b ↔ ((run.now.end ≡ DoneEnd) × (run.now.output ≡ reported.entry.output.now) × (run.now.trace ≡ reported.entry.trace.now))
        × (revision_reached (applied_run (without_moment store.old.standing) run.now) ≡ Some reported.entry.revision)) }
    ensures next { IfOk result (λ b. IsTrue b → store.new.standing ≡ with_writes store.old.standing run.now) }
{
    if !is_reported_run(run, reported) {
        return Ok(false);
    }
    let reached = apply_writes(alloc, store, run)?;
    Ok(is_reached(reached, reported.revision))
}

/// Applies the commit of a runner, and returns whether it is the one that is reported.
pub(crate) fn replay_commit(
    alloc: Global,
    store: &mut Store,
    runner: &Runner,
    reported: ReportedCommit<'_>,
) -> Result<bool, AllocError>
    ensures right { IfOk result (λ b. IsTrue b ↔ IsRightCommit store.old.standing runner.now reported.entry.revision reported.entry.attempts
        reported.entry.output.now reported.entry.trace.now reported.entry.answers.now) }
    ensures next { IfOk result (λ b. IsTrue b → store.new.standing
        ≡ led_by (ProgramEntry runner.now.program runner.now.level (reads_in store.old.standing.history reported.entry.answers.now)
        reported.entry.output.now reported.entry.trace.now reported.entry.revision ∷ []) store.old.standing) }
{
    if !is_next_attempt(runner, reported.attempts) {
        return Ok(false);
    }
    let Some(run) = run_reported(alloc, store.keys(), runner, reported.answers)? else {
        return Ok(false);
    };
    let right = replay_run(alloc, store, &run, reported);
    drop(run);
    right
}
