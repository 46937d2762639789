//! What each worker of a run calls the hall with.
ghost use Rattle.std.specs.Prelude.{◌≡◌, ◌⊎◌, ◌+◌, ◌<◌, ◌≤◌, true, map, Ok, All, IfOk, IfErr, OnErr};
ghost use Rattle.stm_history.specs.declared.key_state.ReadAnswer.{ReadAnswer as Answer};
ghost use Rattle.stm_outcome.specs.Numbers.{ReadFits};
ghost use Rattle.stm_outcome.specs.Commits.{AreNamed};
ghost use Rattle.stm_attempt.specs.Fetches.{ShowOneRevision};
ghost use Rattle.stm_journal.specs.Verdicts.{CanGoOn};
ghost use Rattle.stm_workers.specs.declared.stop.Stop.TheVariants.{OutOfMemory};
ghost use Rattle.stm_workers.specs.Attempts.{IsAnswered, IsUnanswered, AreAnswered, AreUnanswered, IsTurnedAway};
ghost use Rattle.stm_workers.specs.Calls.{committed_by, is_run_of_some, shown_at, JudgedInSomeHall};

use crate::gate::Gate;
use crate::locked::{Locked, RunOfJobs};
use crate::stop::Stop;
use std::alloc::Global;
use std::sync::ledger::Share;
use std::sync::{Mutex, Wait};
use stm_attempt::{ReadAnswer, Ready, Text};
use stm_hall::{Verdict, prepare, take_reads, txn_of_reads};

/// What each worker of a run calls the hall with: the lock round it, which is held for one fetch or one commit at a time, and the gate.
#[derive(Drop)]
pub(crate) struct HallAccess<'a, R: RunOfJobs, W: Wait, G: Gate> {
    pub rt: &'a W,
    pub alloc: Global,
    pub locked: &'a Mutex<Locked<R>>,
    pub gate: &'a G,
}

impl<'a, R: RunOfJobs, W: Wait, G: Gate> HallAccess<'a, R, W, G> {
    /// Fetches a key at a revision, 0 for the store's own, and remembers the revision that the answer carries: none of those before was
    /// greater. Where it stops, nothing was seen.
    pub(crate) fn ask(&self, key: &Text, at: u64, seen: &mut u64) -> Result<ReadAnswer, Stop>
        ensures key { IfOk result (λ answer. answer.key ≡ key.now) }
        ensures in_range { IfOk result ReadFits }
        ensures shown { IfOk result (λ answer. answer.of_rev ≡ shown_at at answer.revision) }
        ensures seen { IfOk result (λ answer. (seen.old ≤ answer.revision) × (seen.new ≡ answer.revision)) }
        ensures stopped { OnErr result (seen.new ≡ seen.old) }
        ensures never_falls { seen.old ≤ seen.new }
        ensures answered { IfOk result (IsAnswered R.before seen.old key.now at) }
        ensures refused { IfErr result (λ stop. (stop ≡ OutOfMemory) ⊎ IsUnanswered R.before seen.old key.now at stop) }
    {
        // Under the lock: one key is looked up, and its value copied.
        let reported = self.locked.lock(self.rt).fetch(*seen, key.as_str(), at);
        match reported {
            Ok(answer) => {
                *seen = answer.revision;
                Ok(answer)
            }
            Err(refusal) => Err(Stop::of_fetch(refusal)),
        }
    }

    /// Fetches keys, none of which is empty, as they are now, and remembers the revision that the answer carries: none of those before was
    /// greater. Where it stops, nothing was seen.
    pub(crate) fn ask_all(&self, keys: &[Text], seen: &mut u64) -> Result<Vec<ReadAnswer>, Stop>
        requires { AreNamed keys.now }
        ensures keys { IfOk result (λ answers. map (λ (a : Answer). a.key) answers.items ≡ keys.now) }
        ensures in_range { IfOk result (λ answers. All ReadFits answers.items) }
        ensures one_revision { IfOk result (λ answers. ShowOneRevision answers.items) }
        ensures stopped { OnErr result (seen.new ≡ seen.old) }
        ensures never_falls { seen.old ≤ seen.new }
        ensures answered { IfOk result (λ answers. AreAnswered R.before seen.old keys.now answers.items seen.new) }
        ensures refused { IfErr result (λ stop. (stop ≡ OutOfMemory) ⊎ AreUnanswered R.before seen.old keys.now stop) }
    {
        let reading = txn_of_reads(self.alloc, keys)?;
        // Under the lock: the keys are looked up, and their values copied.
        let reported = self.locked.lock(self.rt).fetch_all(*seen, &reading);
        drop(reading);
        match reported {
            Ok(reported) => {
                let revision = reported.revision;
                let answers = take_reads(self.alloc, reported.answers)?;
                *seen = revision;
                Ok(answers)
            }
            Err(refusal) => Err(Stop::of_fetch(refusal)),
        }
    }

    /// Sends one commit. Its writes and its entry are the attempt itself.
    pub(crate) fn send(
        &self,
        place: usize,
        share: &mut Share<R>,
        ready: Ready,
    ) -> Result<Verdict, Stop>
        requires part { 0 < share.old.parts }
        requires of_a_job { is_run_of_some R.jobs ready.program ready.level ≡ true }
        ensures parts { share.new.parts ≡ share.old.parts }
        ensures committed { IfOk result (λ verdict. share.new.amount ≡ share.old.amount + committed_by verdict) }
        ensures stopped { OnErr result (share.new.amount ≡ share.old.amount) }
        ensures answers { IfOk result CanGoOn }
        ensures judged { IfOk result (λ verdict. JudgedInSomeHall R.before ready (Ok verdict)) }
        ensures refused { IfErr result (λ stop. (stop ≡ OutOfMemory) ⊎ IsTurnedAway R.before ready stop) }
    {
        let prepared = prepare(ready);
        self.gate.before_commit(place);
        // Under the lock: the compares, the look at the values, and the writes; these and the entry are moved in.
        let verdict = self.locked.lock(self.rt).commit(share, prepared);
        self.gate.after_commit(place);
        match verdict {
            Ok(verdict) => Ok(verdict),
            Err(refusal) => Err(Stop::of_commit(refusal)),
        }
    }
}
