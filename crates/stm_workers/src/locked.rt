//! What lies under the lock.

ghost use Rattle.stm_workers.specs.Codes.{entries_set, halls_set, histories_set, numbers_set, truths_set};
ghost use Rattle.std.specs.Prelude.{◌≡◌, ◌+◌, ◌<◌, ◌≤◌, true, OnErr, IfOk};
ghost use Rattle.stm_outcome.specs.Numbers.{AnswerFits, ReadFits};
ghost use Rattle.stm_journal.specs.Fetched.{fetch_of};
ghost use Rattle.stm_journal.specs.Fetching.{OnlyReads, reported_alone};
ghost use Rattle.stm_journal.specs.Verdicts.{CanGoOn, CommitReturns, verdict_of};
ghost use Rattle.stm_workers.specs.Commits.{commits_in};
ghost use Rattle.stm_workers.specs.Calls.{HasGoneOn, HasKeptStore, AnswersInSomeHall, JudgedInSomeHall, committed_by, is_run_of_some, takes_commits_of};

use std::marker::Brand;
use std::sync::ledger::{Book, Ledger, Share};
use stm_attempt::ReadAnswer;
use stm_hall::{CommitRefusal, FetchRefusal, Hall, Prepared, Verdict};
use stm_txn::{Txn, TxnAnswer};

/// One run of jobs: its table, how many jobs and seats that has, the jobs, and the hall that was handed in. Its ledger counts commits;
/// each worker has one part of it, and so has who started them.
pub(crate) trait RunOfJobs: Ledger {
    ghost use Rattle.atomic_table.specs.Seated.{TableId};
    ghost use Rattle.stm_job.specs.declared.drawing.view.Size.{Size};
    ghost use Rattle.std.specs.Prelude.{List};
    ghost use Rattle.stm_journal.specs.JournalState.{JournalState};
    ghost use Rattle.stm_job.specs.declared.job.Job.{Job};

    ghost table: { TableId };

    ghost size: { Size };

    ghost jobs: { List Job };

    ghost before: { JournalState };
}

impl RunOfJobs for Brand {
    ghost use Rattle.std.specs.Prelude.{[]};
    ghost use Rattle.stm_job.specs.Draw.{size_of};
    ghost use Rattle.stm_workers.specs.Calls.{no_hall, no_table};

    ghost table = { no_table };

    ghost size = { size_of 0 0 };

    ghost jobs = { [] };

    ghost before = { no_hall };
}

/// Counts a verdict: a commit that was made is one more in the share of who sent it.
fn count<R: RunOfJobs>(commits: &mut Book<R>, mine: &mut Share<R>, verdict: &Verdict)
    requires { 0 < mine.old.parts }
    ensures total { commits.new.total ≡ commits.old.total + committed_by verdict.now }
    ensures amount { mine.new.amount ≡ mine.old.amount + committed_by verdict.now }
    ensures parts { mine.new.parts ≡ mine.old.parts }
{
    match verdict {
        Verdict::Committed { .. } => commits.add(mine, 1),
        Verdict::Failed { .. } => {}
    }
}

/// The hall, beside the count of the commits that it took in this run. It took commits of the run's jobs, and nothing else.
#[derive(Drop)]
pub(crate) struct Locked<R: RunOfJobs> {
    hall: Hall,
    commits: Book<R>,
    ghost gone_on: { HasGoneOn R.before hall } by { Prim.hlevel (entries_set, histories_set, numbers_set, truths_set) },
    ghost kept: { HasKeptStore R.before hall } by { Prim.hlevel (halls_set) },
    ghost takes: { takes_commits_of R.jobs R.before hall ≡ true },
    ghost counted: { commits_in hall.entries ≡ commits_in R.before.entries + commits.total },
}

impl<R: RunOfJobs> Locked<R> {
    /// The hall as it was handed in.
    pub fn new(hall: Hall, commits: Book<R>) -> Locked<R>
        requires { (hall ≡ R.before) × (commits.total ≡ 0) }
        ensures { result.hall ≡ hall }
    {
        Locked { hall, commits }
    }

    /// Fetches a key for a worker that has seen this revision, as the hall does.
    pub fn fetch(&self, seen: u64, key: &str, at: u64) -> Result<ReadAnswer, FetchRefusal>
        ensures answer { AnswersInSomeHall R.before seen (fetch_of key.now at) (reported_alone result) }
        ensures seen { IfOk result (λ answer. seen ≤ answer.revision) }
        ensures numbers { IfOk result ReadFits }
    {
        self.hall.fetch_one(seen, key, at)
    }

    /// Answers reads for a worker that has seen this revision, as the hall does. It changes nothing.
    pub fn fetch_all(&mut self, seen: u64, txn: &Txn) -> Result<TxnAnswer, FetchRefusal>
        requires { OnlyReads txn.now }
        ensures same { self.new.hall ≡ self.old.hall }
        ensures answer { AnswersInSomeHall R.before seen txn.now result }
        ensures seen { IfOk result (λ answer. seen ≤ answer.revision) }
        ensures numbers { IfOk result AnswerFits }
    {
        self.hall.fetch(seen, txn)
    }

    /// Commits an attempt of one of the run's jobs that was prepared, as the hall does. A commit counts in the share of who sent it.
    pub fn commit(
        &mut self,
        mine: &mut Share<R>,
        prepared: Prepared,
    ) -> Result<Verdict, CommitRefusal>
        requires part { 0 < mine.old.parts }
        requires of_a_job { is_run_of_some R.jobs prepared.program prepared.level ≡ true }
        ensures reported { CommitReturns (verdict_of self.old.hall prepared) self.old.hall result self.new.hall }
        ensures judged { JudgedInSomeHall R.before prepared result }
        ensures parts { mine.new.parts ≡ mine.old.parts }
        ensures committed { IfOk result (λ verdict. mine.new.amount ≡ mine.old.amount + committed_by verdict) }
        ensures refused { OnErr result (mine.new.amount ≡ mine.old.amount) }
        ensures answers { IfOk result CanGoOn }
    {
        let verdict = self.hall.commit_prepared(prepared)?;
        count(&mut self.commits, mine, &verdict);
        Ok(verdict)
    }

    /// The hall after the run, for who has every part of the ledger: it took as many commits as the ledger counts.
    pub fn close(self, all: &mut Share<R>) -> Hall
        requires { all.old.parts ≡ R.parts }
        ensures gone_on { HasGoneOn R.before result }
        ensures kept { HasKeptStore R.before result }
        ensures takes { takes_commits_of R.jobs R.before result ≡ true }
        ensures counted { commits_in result.entries ≡ commits_in R.before.entries + all.old.amount }
    {
        let Locked { hall, mut commits } = self;
        commits.audit(all);
        hall
    }

    /// The hall after a run that was broken off.
    pub fn into_hall(self) -> Hall
        ensures gone_on { HasGoneOn R.before result }
        ensures kept { HasKeptStore R.before result }
        ensures takes { takes_commits_of R.jobs R.before result ≡ true }
    {
        let Locked { hall, .. } = self;
        hall
    }
}
