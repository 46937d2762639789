//! The steps of runners.
ghost use Rattle.std.specs.Prelude.{◌≡◌, ◌≢◌, ◌<◌, ◌≤◌, [], Some, Ok, true, false, length, map, vec_len, All, IfOk, IfSome, OnOk, OnErr};
ghost use Rattle.stm_history.specs.declared.key_state.ReadAnswer.{ReadAnswer as Answer};
ghost use Rattle.stm_history.specs.History.{now, mod_of};
ghost use Rattle.stm_steps.specs.declared.run.End.TheVariants.{Done};
ghost use Rattle.stm_steps.specs.declared.run.Run.{Run as ARun};
ghost use Rattle.stm_outcome.specs.declared.refusal.Refusal.TheVariants.{OutOfMemory};
ghost use Rattle.stm_outcome.specs.Numbers.{ReadFits};
ghost use Rattle.stm_outcome.specs.Commits.{AreNamed as KeysAreNamed};
ghost use Rattle.stm_program.specs.Levels.{is_serializable};
ghost use Rattle.stm_attempt.specs.Known.{HaveDistinctKeys};
ghost use Rattle.stm_attempt.specs.Fetches.{ShowOneRevision, at_of};
ghost use Rattle.stm_journal.specs.Fetched.{fetch_reported, IsFetch, fetch_all_reported};
ghost use Rattle.stm_events.specs.declared.reply.Reply.TheVariants.{Prefetched, Fetched, Started, Committed, Ended};
ghost use Rattle.stm_events.specs.declared.event.WorldEvent.TheVariants.{Step};
ghost use Rattle.stm_events.specs.Replies.{event_refusal};
ghost use Rattle.stm_world.specs.World.{Runner as LiveRunner, start_runner, step_runner, step_live, step, with_slot, commit as commit_of, runner_at};
ghost use Rattle.stm_retry.specs.declared.step_outcome.StepOutcome.TheVariants.{GoesOn, Ends};
ghost use Rattle.stm_retry.specs.StepReturns.{Returns};
ghost use Rattle.stm_retry.specs.Returns.{IsStep};
ghost use Rattle.stm_retry.specs.Kept.{BasesAreReached};
ghost use Rattle.stm_retry.specs.WorldOf.{world_of, with_places};
ghost use Rattle.stm_retry.specs.RunnerView.{task_of, AreNamed, with_answer, with_answers, begun_again};
ghost use Rattle.stm_retry.specs.RunnerReturns.{workplace, Leaves, ReturnsEnd, IsReady, reported_of_fetch, after_reported_fetch, key_read};
ghost use Rattle.stm_retry.specs.RunnerReturns.{reported_of_list, after_reported_list, reported_of_failure, may_go_on, reply_in, reply_reported};
ghost use Rattle.stm_retry.specs.RunnerReturns.{slot_left, slot_after};

use crate::copies::{Copies, copies_of};
use crate::kept_world::{KeptWorld, denied};
use crate::runner::Runner;
use crate::shared_runner::SharedRunner;
use crate::slots::{Slot, put_slot, take_runner};
use crate::step_outcome::StepOutcome;
use std::alloc::{AllocError, Global};
use stm_attempt::{Next, Ready};
use stm_events::{Denied, EventRefusal, KeyRead, Reply};
use stm_history::{ReadAnswer, Sequence, Text, mod_rev_of};
use stm_journal::{Journal, Verdict, read};
use stm_meaning::{End, Run};
use stm_program::{Level, Program};
use stm_txn::Refusal as StoreRefusal;

/// Takes the answer to a fetch of this key, which the runner waits for.
fn take_answer(
    id: u64,
    runner: &mut Runner,
    key: Text,
    answer: ReadAnswer,
) -> Result<StepOutcome, AllocError>
    requires asked { runner.old.awaits ≡ Some answer.key }
    requires in_range { ReadFits answer }
    ensures reported { IfOk result (λ reported. reported ≡ GoesOn (Fetched id key (mod_of answer.kv) answer.of_rev answer.revision)) }
    ensures ok { OnOk result (runner.new.runner ≡ with_answer answer runner.old.runner) }
    ensures err { OnErr result (runner.new.runner ≡ runner.old.runner) }
{
    let mod_rev = mod_rev_of(&answer.kv);
    let of_rev = answer.of_rev;
    let revision = answer.revision;
    runner.supply(answer)?;
    Ok(StepOutcome::GoesOn(Reply::Fetched {
        runner: id,
        key,
        mod_rev,
        of_rev,
        revision,
    }))
}

/// Reads a key, which is not empty, at a revision that the store has reached, 0 for the current one.
fn read_key(
    alloc: Global,
    journal: &Journal,
    key: &str,
    at: u64,
) -> Result<ReadAnswer, StoreRefusal>
    requires named { 0 < length key.now }
    requires reached { at ≤ now journal.now.standing.history }
    ensures reported { IsFetch (fetch_reported journal.now.standing key.now at) result }
    ensures in_range { IfOk result ReadFits }
{
    read(alloc, journal.store(), key, at)
}

/// Fetches the key that a runner waits for. A fetch that the store refuses, since its revision is compacted, ends the run.
fn fetch(
    alloc: Global,
    journal: &Journal,
    id: u64,
    runner: &mut Runner,
    key: Text,
    at: u64,
) -> Result<StepOutcome, AllocError>
    requires asked { runner.old.awaits ≡ Some key }
    requires named { 0 < length key }
    requires reached { at ≤ now journal.now.standing.history }
    ensures reported { IfOk result (λ reported. reported ≡ reported_of_fetch id key (fetch_reported journal.now.standing key at)) }
    ensures ok { OnOk result (runner.new.runner ≡ after_reported_fetch (fetch_reported journal.now.standing key at) runner.old.runner) }
    ensures err { OnErr result (runner.new.runner ≡ runner.old.runner) }
{
    match read_key(alloc, journal, key.as_str(), at) {
        Ok(answer) => take_answer(id, runner, key, answer),
        Err(cause) => end_refused(id, cause),
    }
}

/// What is reported of the answer to a key of a list.
fn read_reported(answer: &ReadAnswer) -> Result<KeyRead, AllocError>
    ensures { IfOk result (λ read. read ≡ key_read answer.now) }
{
    let key = answer.key.clone()?;
    let mod_rev = mod_rev_of(&answer.kv);
    Ok(KeyRead { key, mod_rev })
}

/// What is reported of the answers to a list, in their order.
fn reads_reported(alloc: Global, answers: &[ReadAnswer]) -> Result<Sequence<KeyRead>, AllocError>
    ensures { IfOk result (λ reads. reads ≡ map key_read answers.now) }
{
    let mut reads = Sequence::new(alloc);
    for answer in answers {
        reads.push(read_reported(answer)?)?;
    }
    Ok(reads)
}

/// Takes the answers to the fetch of a list, which the runner waits for; this is the store's revision.
fn take_answers(
    alloc: Global,
    id: u64,
    runner: &mut Runner,
    revision: u64,
    answers: Vec<ReadAnswer>,
) -> Result<StepOutcome, AllocError>
    requires asked { runner.old.awaits_list ≡ Some (map (λ (a : Answer). a.key) answers.items) }
    requires in_range { All ReadFits answers.items }
    requires one_revision { ShowOneRevision answers.items }
    ensures reported { IfOk result (λ reported. reported ≡ GoesOn (Prefetched id revision (map key_read answers.items))) }
    ensures ok { OnOk result (runner.new.runner ≡ with_answers answers.items runner.old.runner) }
    ensures err { OnErr result (runner.new.runner ≡ runner.old.runner) }
{
    let reads = reads_reported(alloc, answers.as_slice())?;
    runner.supply_all(answers)?;
    Ok(StepOutcome::GoesOn(Reply::Prefetched {
        runner: id,
        revision,
        reads,
    }))
}

/// Fetches the list that a runner waits for. A fetch that the store refuses, since the keys are more than it takes operations, ends the
/// run.
fn fetch_list(
    alloc: Global,
    journal: &mut Journal,
    id: u64,
    runner: &mut Runner,
    keys: &[Text],
) -> Result<StepOutcome, AllocError>
    requires asked { runner.old.awaits_list ≡ Some keys.now }
    requires named { KeysAreNamed keys.now }
    ensures reported { IfOk result (λ reported. reported ≡ reported_of_list id (now journal.old.standing.history) (fetch_all_reported journal.old.standing keys.now)) }
    ensures ok { OnOk result (runner.new.runner ≡ after_reported_list (fetch_all_reported journal.old.standing keys.now) runner.old.runner) }
    ensures err { OnErr result (runner.new.runner ≡ runner.old.runner) }
    ensures journal { journal.new ≡ journal.old }
{
    let revision = journal.store().keys().revision();
    match journal.fetch_list(alloc, keys) {
        Ok(answers) => take_answers(alloc, id, runner, revision, answers),
        Err(cause) => end_refused(id, cause),
    }
}

/// The reply of an end other than a run's last statement.
fn reply_to_end(id: u64, end: End) -> Reply
    requires { end ≢ Done }
    ensures { ReturnsEnd id end result }
{
    match end {
        End::Done => unreachable!(),
        End::Aborted(text) => Reply::Aborted { runner: id, text },
        End::Faulted(fault) => Reply::Faulted { runner: id, fault },
    }
}

/// The reply of a run that came to its end with nothing to commit.
fn reply_at_end(id: u64, run: Run) -> Reply
    requires { run.end ≢ Done }
    ensures { ReturnsEnd id run.end result }
{
    reply_to_end(id, run.end)
}

/// What a commit that failed comes to: the next attempt, or the end of the run where it may send no more.
fn fail_commit(
    alloc: Global,
    id: u64,
    runner: &mut Runner,
    key: Text,
    seen: u64,
    now: u64,
    answers: Sequence<ReadAnswer>,
) -> Result<StepOutcome, AllocError>
    requires named { AreNamed answers }
    requires distinct { HaveDistinctKeys answers }
    requires in_range { All ReadFits answers }
    requires one_revision { ShowOneRevision answers }
    requires only_serializable { is_serializable runner.old.runner.task.level ≡ false → answers ≡ [] }
    ensures reported { IfOk result (λ reported. reported ≡ reported_of_failure id runner.old.runner key seen now) }
    ensures again { OnOk result (may_go_on runner.old.runner ≡ true → runner.new.runner ≡ begun_again answers runner.old.runner) }
    ensures err { OnErr result (runner.new.runner ≡ runner.old.runner) }
{
    if runner.may_begin_again() {
        runner.begin_again(alloc, answers)?;
        return Ok(StepOutcome::GoesOn(Reply::Conflict {
            runner: id,
            key,
            seen,
            now,
        }));
    }
    Ok(StepOutcome::Ends(Reply::GaveUp {
        runner: id,
        attempts: runner.attempts(),
        key,
        seen,
        now,
    }))
}

/// What a fetch or a commit that the store refused comes to: the end of the run, unless memory ran out.
fn end_refused(id: u64, cause: StoreRefusal) -> Result<StepOutcome, AllocError>
    ensures reported { IfOk result (λ reported. reported ≡ Ends (Ended id (event_refusal cause))) }
    ensures refused { OnOk result (cause ≢ OutOfMemory) }
{
    if cause == StoreRefusal::OutOfMemory {
        return Err(AllocError);
    }
    Ok(StepOutcome::Ends(Reply::Ended {
        runner: id,
        cause: EventRefusal::of_store(cause),
    }))
}

/// The reply of a run whose commit succeeded, after which the store's revision is this.
fn reply_committed(id: u64, revision: u64, attempts: u64, copies: Copies) -> Reply
    ensures { result ≡ Committed id revision attempts copies.output copies.trace copies.answers }
{
    Reply::Committed {
        runner: id,
        revision,
        attempts,
        output: copies.output,
        trace: copies.trace,
        answers: copies.answers,
    }
}

/// Sends the commit of a run that is done.
///
/// All that is reported of a commit which succeeds is copied before it is sent.
fn commit(
    alloc: Global,
    journal: &mut Journal,
    id: u64,
    runner: &mut Runner,
    ready: Ready,
) -> Result<StepOutcome, AllocError>
    requires named { AreNamed ready.answers }
    requires is_ready { (run : ARun) × IsReady runner.old.runner run ready }
    ensures { (run : ARun) → IsReady runner.old.runner run ready → Leaves id result (workplace journal.old runner.old.runner)
        (workplace journal.new runner.new.runner) (commit_of id runner.old.runner runner.old.runner.known.reads run) }
{
    let Ok(copies) = copies_of(alloc, &ready) else {
        drop(ready);
        return Err(AllocError);
    };
    match journal.commit_trusted(alloc, ready) {
        Ok(Verdict::Committed { index: _, revision }) => {
            let attempts = runner.attempts();
            Ok(StepOutcome::Ends(reply_committed(id, revision, attempts, copies)))
        }
        Ok(
            Verdict::Failed {
                key,
                seen,
                now,
                answers,
            },
        ) => {
            drop(copies);
            fail_commit(alloc, id, runner, key, seen, now, answers)
        }
        Err(cause) => {
            drop(copies);
            end_refused(id, cause)
        }
    }
}

/// Makes one step of a runner: its list is fetched where it is due, else its program is evaluated on what it has read, and then it makes at
/// most one transaction.
pub(crate) fn step_live(
    alloc: Global,
    journal: &mut Journal,
    id: u64,
    runner: &mut Runner,
) -> Result<StepOutcome, AllocError>
    requires { at_of runner.old.runner.task.level runner.old.runner.known.reads ≤ now journal.old.standing.history }
    ensures { Leaves id result (workplace journal.old runner.old.runner)
        (workplace journal.new runner.new.runner) (step_live id runner.old.runner) }
{
    let next = runner.advance()?;
    match next {
        Next::FetchAll { keys, .. } => {
            let reported = fetch_list(alloc, journal, id, runner, keys.as_slice())?;
            Ok(reported)
        }
        Next::Fetch { key, at } => {
            let reported = fetch(alloc, journal, id, runner, key, at)?;
            Ok(reported)
        }
        Next::Ready(ready) => {
            let reported = commit(alloc, journal, id, runner, ready)?;
            Ok(reported)
        }
        Next::Aborted(run) => Ok(StepOutcome::Ends(reply_at_end(id, run))),
        Next::Faulted(run) => Ok(StepOutcome::Ends(reply_at_end(id, run))),
    }
}

/// Sends the commit of a run that is done, if the journal turns it down: nothing is changed in that. `None` says that it does not.
fn fail_quietly(
    alloc: Global,
    journal: &Journal,
    id: u64,
    runner: &mut Runner,
    ready: Ready,
) -> Result<Option<StepOutcome>, AllocError>
    requires named { AreNamed ready.answers }
    requires is_ready { (run : ARun) × IsReady runner.old.runner run ready }
    ensures { IfOk result (λ o. IfSome o (λ outcome. (run : ARun) → IsReady runner.old.runner run ready → Leaves id (Ok outcome)
        (workplace journal.now runner.old.runner) (workplace journal.now runner.new.runner) (commit_of id runner.old.runner runner.old.runner.known.reads run))) }
{
    let foreseen = journal.foresee(alloc, &ready);
    drop(ready);
    match foreseen {
        Ok(
            Some(
                Verdict::Failed {
                    key,
                    seen,
                    now,
                    answers,
                },
            ),
        ) => {
            let reported = fail_commit(alloc, id, runner, key, seen, now, answers)?;
            Ok(Some(reported))
        }
        Ok(_) => Ok(None),
        Err(cause) => {
            let reported = end_refused(id, cause)?;
            Ok(Some(reported))
        }
    }
}

/// Makes one step of a runner, if it changes nothing in the journal and fetches no list: the fetch of a key, a commit that is turned down, or the end of a
/// run that aborts or faults. `None` says that it does something else; then the runner may have gone on with its program.
pub(crate) fn step_live_quietly(
    alloc: Global,
    journal: &Journal,
    id: u64,
    runner: &mut Runner,
) -> Result<Option<StepOutcome>, AllocError>
    requires { at_of runner.old.runner.task.level runner.old.runner.known.reads ≤ now journal.now.standing.history }
    ensures { IfOk result (λ o. IfSome o (λ outcome. Leaves id (Ok outcome) (workplace journal.now runner.old.runner)
        (workplace journal.now runner.new.runner) (step_live id runner.old.runner))) }
{
    let next = runner.advance()?;
    match next {
        Next::Fetch { key, at } => {
            let reported = fetch(alloc, journal, id, runner, key, at)?;
            Ok(Some(reported))
        }
        Next::Aborted(run) => Ok(Some(StepOutcome::Ends(reply_at_end(id, run)))),
        Next::Faulted(run) => Ok(Some(StepOutcome::Ends(reply_at_end(id, run)))),
        Next::Ready(ready) => {
            let reported = fail_quietly(alloc, journal, id, runner, ready)?;
            Ok(reported)
        }
        Next::FetchAll { .. } => Ok(None),
    }
}

/// Puts a runner back after its step, or notes the end of its run, and returns the reply. One that goes on looks at its next step.
fn put_back(
    runners: &mut Vec<Slot>,
    id: u64,
    outcome: StepOutcome,
    mut runner: SharedRunner,
) -> Result<Reply, AllocError>
    requires { (0 < id) × (id ≤ vec_len runners.old) }
    ensures slots { OnOk result (runners.new.items ≡ with_slot id (slot_after outcome runner.runner) runners.old.items) }
    ensures reply { IfOk result (λ reply. reply ≡ reply_in outcome) }
{
    match outcome {
        StepOutcome::GoesOn(reply) => {
            runner.look_ahead()?;
            put_slot(runners, id, Slot::live(runner));
            Ok(reply)
        }
        StepOutcome::Ends(reply) => {
            drop(runner);
            put_slot(runners, id, Slot::over());
            Ok(reply)
        }
    }
}

/// Makes one step of the runner with this number, if it changes nothing in the journal and fetches no list. Where it does not, nothing is said of
/// the runners.
fn step_among(
    alloc: Global,
    journal: &Journal,
    runners: &mut Vec<Slot>,
    id: u64,
) -> Result<Option<Reply>, AllocError>
    requires { BasesAreReached (world_of journal.now runners.old.items) }
    ensures { IfOk result (λ o. IfSome o (λ reply. IsStep (step (Step id) (world_of journal.now runners.old.items)) (Ok reply)
        (world_of journal.now runners.new.items))) }
{
    let Some(mut runner) = take_runner(runners, id) else {
        return Ok(None);
    };
    match runner.step_quietly(alloc, journal, id)? {
        None => {
            drop(runner);
            Ok(None)
        }
        Some(outcome) => {
            let reply = put_back(runners, id, outcome, runner)?;
            Ok(Some(reply))
        }
    }
}

/// What stands at a runner's place after its step.
fn slot_after(reported: &Result<StepOutcome, AllocError>, runner: SharedRunner) -> Slot
    ensures { result ≡ slot_left reported.now runner.runner }
{
    if matches!(reported, Ok(StepOutcome::Ends(_))) {
        drop(runner);
        Slot::over()
    } else {
        Slot::live(runner)
    }
}

/// The reply that was reported.
fn reply_in(reported: StepOutcome) -> Reply
    ensures { result ≡ reply_in reported }
{
    match reported {
        StepOutcome::GoesOn(reply) => reply,
        StepOutcome::Ends(reply) => reply,
    }
}

/// The reply to a step of a runner, where memory did not run out.
fn reply_of(outcome: Result<StepOutcome, AllocError>) -> Result<Result<Reply, Denied>, AllocError>
    ensures { result ≡ reply_reported outcome }
{
    match outcome {
        Ok(reported) => Ok(Ok(reply_in(reported))),
        Err(error) => Err(error),
    }
}

impl KeptWorld {
    /// Adds a runner, whose run may send at most `limit` commits, and returns its number.
    ///
    /// Out of memory is the only refusal, and leaves the world as it was.
    pub(crate) fn add_runner(
        &mut self,
        alloc: Global,
        program: Program,
        level: Level,
        limit: u32,
    ) -> Result<u64, AllocError>
        requires { limit ≢ 0 }
        ensures number { IfOk result (λ id. (start_runner (task_of program level limit) self.old).reply ≡ Ok (Started id)) }
        ensures ok { OnOk result (self.new ≡ (start_runner (task_of program level limit) self.old).next) }
        ensures err { OnErr result (self.new ≡ self.old) }
    {
        let runner = Runner::new(alloc, program, level, limit);
        let shared = SharedRunner::new(alloc, runner)?;
        self.runners.push(Slot::live(shared))?;
        Ok(self.runners.len() as u64)
    }

    /// Starts a run of a program, which may send at most `limit` commits. A limit of 0 is refused before any memory is
    /// taken; an allocation failure leaves the world as it was.
    pub(crate) fn start(
        &mut self,
        alloc: Global,
        program: &Program,
        level: Level,
        limit: u32,
    ) -> Result<Result<Reply, Denied>, AllocError>
        ensures { Returns result self.old self.new (start_runner (task_of program.now level limit) self.old) }
    {
        if limit == 0 {
            return Ok(Err(denied(alloc, EventRefusal::BadLimit)));
        }
        let program = program.clone()?;
        let runner = self.add_runner(alloc, program, level, limit)?;
        Ok(Ok(Reply::Started { runner }))
    }

    /// Makes one step of a runner. One that is not there is refused before any memory is taken.
    ///
    /// The runner is taken from its place for the step, and put back, or the end of its run noted, after it. Where
    /// memory runs out the world is as it was.
    pub(crate) fn step_runner(
        &mut self,
        alloc: Global,
        id: u64,
    ) -> Result<Result<Reply, Denied>, AllocError>
        requires { (r : LiveRunner) → runner_at id self.old.runners ≡ Some r → at_of r.task.level r.known.reads ≤ now self.old.standing.history }
        ensures { Returns result self.old self.new (step_runner id (runner_at id self.old.runners) self.old) }
    {
        let Some(mut runner) = take_runner(&mut self.runners, id) else {
            return Ok(Err(denied(alloc, EventRefusal::NoRunner)));
        };
        let reported = runner.step(alloc, &mut self.journal, id);
        let slot = slot_after(&reported, runner);
        put_slot(&mut self.runners, id, slot);
        reply_of(reported)
    }

    /// Makes one step of the runner with this number among these, if it changes nothing in the journal and fetches no list. Where it does not,
    /// nothing is said of the runners.
    pub(crate) fn step_quietly(
        &self,
        alloc: Global,
        runners: &mut Vec<Slot>,
        id: u64,
    ) -> Result<Option<Reply>, AllocError>
        requires { BasesAreReached (with_places runners.old.items self.now) }
        ensures { IfOk result (λ o. IfSome o (λ reply. IsStep (step (Step id) (with_places runners.old.items self.now)) (Ok reply)
            (with_places runners.new.items self.now))) }
    {
        step_among(alloc, &self.journal, runners, id)
    }
}
