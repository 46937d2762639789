//! One job of a worker, from its first attempt to its end.
ghost use Rattle.std.specs.Prelude.{◌≡◌, ◌⊎◌, ℕ, ◌+◌, ◌<◌, ◌≤◌, true, false, [], ◌∷◌, ◌++◌, None, IfOk, IfErr, IfSome, OnOk, OnErr};
ghost use Rattle.stm_attempt.specs.AttemptState.{begun, begun_after};
ghost use Rattle.stm_journal.specs.Prefetch.{MayBePrefetched};
ghost use Rattle.stm_journal.specs.Verdicts.{CanGoOn};
ghost use Rattle.stm_workers.specs.declared.stop.Stop.TheVariants.{OutOfMemory};
ghost use Rattle.stm_workers.specs.Attempts.{state_of, end_after, IsFetch, IsReadyAt, IsEvaluated, IsStop, IsNextAttempt};
ghost use Rattle.stm_workers.specs.Attempts.{HasTried, HasStopped, HasFailed, HasEnded, HasCome, ComesTo, EndsByVerdict};
ghost use Rattle.stm_job.specs.Ends.{attempts_of};
ghost use Rattle.stm_workers.specs.AttemptOutcomes.{IfEnded, IfAgain};
ghost use Rattle.stm_workers.specs.Calls.{committed_by, counted_end, greatest_carried, seen_after, is_run_of_some, IsOfJob, IsRunOfJob};

use crate::access::HallAccess;
use crate::gate::Gate;
use crate::locked::RunOfJobs;
use crate::stop::Stop;
use std::alloc::{AllocError, Global};
use std::mem;
use std::sync::Wait;
use std::sync::ledger::Share;
use stm_attempt::{Attempt, Next, ReadAnswer, Ready, Sequence};
use stm_hall::Verdict;
use stm_history::Text;
use stm_job::{Job, JobEnd};

/// What an attempt came to.
#[derive(Drop)]
pub(crate) enum AttemptOutcome {
    /// The job has its end.
    Ended(JobEnd),
    /// Its commit failed over this key, and the next attempt stands in its place.
    Again(Text),
}

/// The greatest of a revision and those that answers carry.
fn greatest_revision(seen: u64, answers: &[ReadAnswer]) -> u64
    ensures greatest { result ≡ greatest_carried seen answers.now }
    ensures at_least { seen ≤ result }
{
    let mut greatest = seen;
    for answer in answers {
        greatest = greatest.max(answer.revision);
    }
    greatest
}

/// The greatest of a revision and those that a verdict carries.
fn greatest_of(seen: u64, verdict: &Verdict) -> u64
    ensures greatest { result ≡ seen_after seen verdict.now }
    ensures at_least { seen ≤ result }
{
    match verdict {
        Verdict::Committed { revision, .. } => seen.max(*revision),
        Verdict::Failed { answers, .. } => greatest_revision(seen, answers.as_slice()),
    }
}

/// The first attempt of a job. It takes no memory.
fn first_attempt(alloc: Global, job: &Job) -> Attempt
    ensures begun { result ≡ begun job.now.level [] }
    ensures is_its { IsOfJob job.now result }
{
    Attempt::new(alloc, job.level)
}

/// The next attempt of a job after a commit that failed with these answers.
fn next_attempt(
    alloc: Global,
    job: &Job,
    answers: Sequence<ReadAnswer>,
) -> Result<Attempt, AllocError>
    requires { MayBePrefetched answers }
    ensures begun { IfOk result (λ attempt. attempt ≡ begun_after job.now.level answers) }
    ensures is_its { IfOk result (IsOfJob job.now) }
{
    Attempt::after_conflict(alloc, job.level, answers)
}

/// Puts this attempt in the place of the one that was there, which is dropped.
fn put(attempt: &mut Attempt, next: Attempt)
    ensures { attempt.new ≡ next }
{
    drop(mem::replace(attempt, next));
}

/// What comes after the verdict on an attempt, the last one or not: the job's end, or its next attempt, in the place of this one.
fn after_verdict(
    alloc: Global,
    job: &Job,
    verdict: Verdict,
    attempt: &mut Attempt,
    is_last: bool,
) -> Result<AttemptOutcome, Stop>
    requires { CanGoOn verdict }
    ensures counted { IfOk result (IfEnded (λ end. counted_end end ≡ committed_by verdict)) }
    ensures again { IfOk result (IfAgain (λ key. IsOfJob job.now attempt.new × (committed_by verdict ≡ 0))) }
    ensures reported { IfOk result (IfEnded (λ end. (end ≡ end_after verdict) × (committed_by verdict ≡ 0 → is_last ≡ true))) }
    ensures next { IfOk result (IfAgain (λ key. (is_last ≡ false) × IsNextAttempt job.now verdict attempt.new key)) }
    ensures stopped { OnErr result (committed_by verdict ≡ 0) }
    ensures want { IfErr result (λ stop. stop ≡ OutOfMemory) }
{
    match verdict {
        Verdict::Committed { index, revision } => {
            Ok(AttemptOutcome::Ended(JobEnd::Committed { index, revision }))
        }
        Verdict::Failed { key, answers, .. } => {
            if is_last {
                return Ok(AttemptOutcome::Ended(JobEnd::GaveUp { key }));
            }
            let next = next_attempt(alloc, job, answers)?;
            put(attempt, next);
            Ok(AttemptOutcome::Again(key))
        }
    }
}

/// Notes the key of a commit that failed. Where an allocation fails, the keys are as they were.
fn note_lost(lost: &mut Vec<Text>, key: Text) -> Result<(), AllocError>
    ensures noted { OnOk result (lost.new.items ≡ lost.old.items ++ key ∷ []) }
    ensures unchanged { OnErr result (lost.new.items ≡ lost.old.items) }
{
    lost.push(key)?;
    Ok(())
}

impl<'a, R: RunOfJobs, W: Wait, G: Gate> HallAccess<'a, R, W, G> {
    /// Goes on with an attempt to its list or to the next key that it wants, which is fetched, or until it is ready.
    fn go_on(
        &self,
        place: usize,
        job: &Job,
        attempt: &mut Attempt,
        seen: &mut u64,
    ) -> Result<Option<Ready>, Stop>
        requires { IsOfJob job.now attempt.old }
        ensures attempt { OnOk result (IsOfJob job.now attempt.new) }
        ensures ready { IfOk result (λ found. IfSome found (λ ready. IsRunOfJob job.now ready)) }
        ensures never_falls { seen.old ≤ seen.new }
        ensures fetch { IfOk result (λ found. found ≡ None → IsFetch R.before job.now (state_of attempt.old seen.old) (state_of attempt.new seen.new)) }
        ensures is_ready { IfOk result (λ found. IfSome found (λ ready. IsReadyAt job.now (state_of attempt.old seen.old) ready × (seen.new ≡ seen.old))) }
        ensures stops { IfErr result (λ stop. (stop ≡ OutOfMemory) ⊎ (IsStop R.before job.now (state_of attempt.old seen.old) stop × (seen.new ≡ seen.old))) }
    {
        // No key of a list is empty.
        job.program.prefetch();
        let next = attempt.advance_and_give(&job.program)?;
        match next {
            Next::Ready(ready) => Ok(Some(ready)),
            Next::Aborted(run) => Err(Stop::of_run(run, attempt.take_reads())),
            Next::Faulted(run) => Err(Stop::of_run(run, attempt.take_reads())),
            Next::FetchAll { keys, .. } => {
                self.gate.before_fetch(place);
                let asked = self.ask_all(keys.as_slice(), seen);
                drop(keys);
                let answers = asked?;
                attempt.supply_all(answers)?;
                Ok(None)
            }
            Next::Fetch { key, at } => {
                self.gate.before_fetch(place);
                let asked = self.ask(&key, at, seen);
                drop(key);
                let answer = asked?;
                attempt.supply(answer)?;
                Ok(None)
            }
        }
    }

    /// Goes on with an attempt until it is ready. The lock is held for its fetches alone.
    fn evaluate(
        &self,
        place: usize,
        job: &Job,
        attempt: &mut Attempt,
        seen: &mut u64,
    ) -> Result<Ready, Stop>
        requires { IsOfJob job.now attempt.old }
        ensures attempt { OnOk result (IsOfJob job.now attempt.new) }
        ensures ready { IfOk result (λ ready. IsRunOfJob job.now ready) }
        ensures never_falls { seen.old ≤ seen.new }
        ensures evaluated { IfOk result (λ ready. IsEvaluated R.before job.now (state_of attempt.old seen.old) ready seen.new) }
        ensures stops { IfErr result (λ stop. HasStopped R.before job.now (state_of attempt.old seen.old) stop seen.new) }
    {
        for _ in self.rt.forever() {
            if let Some(ready) = self.go_on(place, job, attempt, seen)? {
                return Ok(ready);
            }
        }
        unreachable!()
    }

    /// One attempt of a job, and its commit. What the verdict carries is seen.
    fn try_once(
        &self,
        place: usize,
        job: &Job,
        share: &mut Share<R>,
        attempt: &mut Attempt,
        seen: &mut u64,
    ) -> Result<Verdict, Stop>
        requires attempt { IsOfJob job.now attempt.old }
        requires of_a_job { is_run_of_some R.jobs job.now.program job.now.level ≡ true }
        requires part { 0 < share.old.parts }
        ensures attempt { OnOk result (IsOfJob job.now attempt.new) }
        ensures parts { share.new.parts ≡ share.old.parts }
        ensures committed { IfOk result (λ verdict. share.new.amount ≡ share.old.amount + committed_by verdict) }
        ensures stopped { OnErr result (share.new.amount ≡ share.old.amount) }
        ensures answers { IfOk result CanGoOn }
        ensures carried { IfOk result (λ verdict. (before : ℕ) × (seen.old ≤ before) × (seen.new ≡ seen_after before verdict)) }
        ensures never_falls { seen.old ≤ seen.new }
        ensures tried { IfOk result (λ verdict. HasTried R.before job.now (state_of attempt.old seen.old) verdict seen.new) }
        ensures stops { IfErr result (λ stop. HasStopped R.before job.now (state_of attempt.old seen.old) stop seen.new) }
    {
        let ready = self.evaluate(place, job, attempt, seen)?;
        let verdict = self.send(place, share, ready)?;
        *seen = greatest_of(*seen, &verdict);
        Ok(verdict)
    }

    /// What an attempt of a job comes to, the last one or not, by the verdict on its commit. The next attempt takes its place.
    fn try_by_verdict(
        &self,
        place: usize,
        job: &Job,
        share: &mut Share<R>,
        attempt: &mut Attempt,
        seen: &mut u64,
        is_last: bool,
    ) -> Result<AttemptOutcome, Stop>
        requires attempt { IsOfJob job.now attempt.old }
        requires of_a_job { is_run_of_some R.jobs job.now.program job.now.level ≡ true }
        requires part { 0 < share.old.parts }
        ensures parts { share.new.parts ≡ share.old.parts }
        ensures counted { IfOk result (IfEnded (λ end. share.new.amount ≡ share.old.amount + counted_end end)) }
        ensures again { IfOk result (IfAgain (λ key. IsOfJob job.now attempt.new × (share.new.amount ≡ share.old.amount))) }
        ensures stopped { OnErr result (share.new.amount ≡ share.old.amount) }
        ensures never_falls { seen.old ≤ seen.new }
        ensures ends { IfOk result (IfEnded (λ end. HasEnded R.before job.now (state_of attempt.old seen.old) is_last end seen.new)) }
        ensures fails { IfOk result (IfAgain (λ key. (is_last ≡ false)
            × HasFailed R.before job.now key (state_of attempt.old seen.old) (state_of attempt.new seen.new))) }
        ensures stops { IfErr result (λ stop. HasStopped R.before job.now (state_of attempt.old seen.old) stop seen.new) }
    {
        let verdict = self.try_once(place, job, share, attempt, seen)?;
        after_verdict(self.alloc, job, verdict, attempt, is_last)
    }

    /// Attempts a job until it ends, and notes the key of each commit that fails before its last attempt, which is at most the one after the loop. Each
    /// attempt stands in the place of the first one, which its caller owns: it is large, and is not moved.
    fn attempt_from(
        &self,
        place: usize,
        job: &Job,
        share: &mut Share<R>,
        attempt: &mut Attempt,
        seen: &mut u64,
        lost: &mut Vec<Text>,
    ) -> Result<JobEnd, Stop>
        requires of_a_job { is_run_of_some R.jobs job.now.program job.now.level ≡ true }
        requires part { 0 < share.old.parts }
        requires begun { attempt.old ≡ begun job.now.level [] }
        requires is_its { IsOfJob job.now attempt.old }
        requires none { lost.old.items ≡ [] }
        ensures parts { share.new.parts ≡ share.old.parts }
        ensures counted { IfOk result (λ end. share.new.amount ≡ share.old.amount + counted_end end) }
        ensures stopped { OnErr result (share.new.amount ≡ share.old.amount) }
        ensures never_falls { seen.old ≤ seen.new }
        ensures ends { IfOk result (λ end. ComesTo R.before job.now seen.old lost.new.items
            (EndsByVerdict R.before job.now end seen.new (attempts_of lost.new.items))) }
        ensures stops { IfErr result (λ stop. ComesTo R.before job.now seen.old lost.new.items (λ last. HasStopped R.before job.now last stop seen.new)) }
    {
        for _ in 1..job.limit {
            match self.try_by_verdict(place, job, share, attempt, seen, false)? {
                AttemptOutcome::Ended(end) => return Ok(end),
                AttemptOutcome::Again(key) => note_lost(lost, key)?,
            }
        }
        match self.try_by_verdict(place, job, share, attempt, seen, true)? {
            AttemptOutcome::Ended(end) => Ok(end),
            AttemptOutcome::Again(_) => unreachable!(),
        }
    }

    /// Attempts a job from its first attempt on.
    fn attempt(
        &self,
        place: usize,
        job: &Job,
        share: &mut Share<R>,
        seen: &mut u64,
        lost: &mut Vec<Text>,
    ) -> Result<JobEnd, Stop>
        requires of_a_job { is_run_of_some R.jobs job.now.program job.now.level ≡ true }
        requires part { 0 < share.old.parts }
        requires none { lost.old.items ≡ [] }
        ensures parts { share.new.parts ≡ share.old.parts }
        ensures counted { IfOk result (λ end. share.new.amount ≡ share.old.amount + counted_end end) }
        ensures stopped { OnErr result (share.new.amount ≡ share.old.amount) }
        ensures never_falls { seen.old ≤ seen.new }
        ensures ends { IfOk result (λ end. ComesTo R.before job.now seen.old lost.new.items
            (EndsByVerdict R.before job.now end seen.new (attempts_of lost.new.items))) }
        ensures stops { IfErr result (λ stop. ComesTo R.before job.now seen.old lost.new.items (λ last. HasStopped R.before job.now last stop seen.new)) }
    {
        let mut attempt = first_attempt(self.alloc, job);
        let end = self.attempt_from(place, job, share, &mut attempt, seen, lost);
        drop(attempt);
        end
    }

    /// Brings the job at a place to its end, and notes the keys over which its commits failed before its last attempt, in their order.
    ///
    /// The place is handed to the gate. `seen` is the greatest revision that an answer to the worker carried, before the call and after it, and what
    /// the job committed counts in the share. `AllocError`: an allocation failed, which is no end.
    pub fn run_job(
        &self,
        place: usize,
        job: &Job,
        share: &mut Share<R>,
        seen: &mut u64,
        lost: &mut Vec<Text>,
    ) -> Result<JobEnd, AllocError>
        requires of_a_job { is_run_of_some R.jobs job.now.program job.now.level ≡ true }
        requires part { 0 < share.old.parts }
        requires none { lost.old.items ≡ [] }
        ensures parts { share.new.parts ≡ share.old.parts }
        ensures counted { IfOk result (λ end. share.new.amount ≡ share.old.amount + counted_end end) }
        ensures never_falls { seen.old ≤ seen.new }
        ensures came { IfOk result (λ end. HasCome R.before job.now seen.old end seen.new lost.new.items) }
    {
        match self.attempt(place, job, share, seen, lost) {
            Ok(end) => Ok(end),
            Err(stop) => stop.end(),
        }
    }
}
