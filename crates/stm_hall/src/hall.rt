//! The hall.
ghost use Rattle.std.specs.Prelude.{◌≡◌, ◌≤◌, ◌↔◌, None, IfOk, IfErr, IsTrue};
ghost use Rattle.stm_history.specs.History.{now};
ghost use Rattle.stm_outcome.specs.Numbers.{AnswerFits, ReadFits};
ghost use Rattle.stm_journal.specs.Fetched.{fetch_of};
ghost use Rattle.stm_journal.specs.StateOf.{IsStateOf};
ghost use Rattle.stm_compile.specs.Conflicts.{changes_above};
ghost use Rattle.stm_journal.specs.JournalState.{made_over, JournalReturns};
ghost use Rattle.stm_hall.specs.Locked.{IsLocked};
ghost use Rattle.stm_hall.specs.Laws.{GoesOn, ChangesAsAlone};
ghost use Rattle.stm_journal.specs.Fetching.{OnlyReads, fetched, reported_alone, FetchReturns};
ghost use Rattle.stm_journal.specs.Verdicts.{verdict_of, CommitReturns, CanGoOn};
ghost use Rattle.stm_hall.specs.Showing.{IsShown};
ghost use Rattle.stm_journal.specs.Entering.{made, IsAdvanced, HasStopped};

use crate::changed::is_changed_above;
use crate::showing::is_shown;
use std::alloc::{AllocError, Global};
use std::marker::Model;
use stm_attempt::Ready;
use stm_entries::Entry;
use stm_history::ReadAnswer;
use stm_journal::{CommitRefusal, FetchRefusal, Journal, Prepared, Verdict, state_of};
use stm_meaning::State;
use stm_txn::{AdvanceRefused, Expired, Refusal, Store, Txn, TxnAnswer};

/// A store that many callers commit to, one call after another, and what they changed of it.
///
/// Contracts see the store, the entries, and the counter that the store had when the hall was made. In every hall the
/// entries replay from the opening state to the history and the live leases of now. The output and the trace of a
/// committed program are those of its run alone on the store at its point, at `ReadCommitted` those of its run on the
/// answers that it read.
pub struct Hall {
    alloc: Global,
    journal: Journal,
}

impl Drop for Hall {
    fn drop(self) {
        let Hall {
            alloc: _,
            journal: _,
        } = self;
    }
}

impl Model for Hall {
    ghost use Rattle.std.specs.Coded.{codes};
    ghost use Rattle.stm_program.specs.Coding.{coded_program};
    ghost use Rattle.stm_entries.specs.Codes.{coded_live};
    ghost use Rattle.stm_journal.specs.JournalState.{JournalState};
    ghost use Rattle.stm_hall.specs.Locked.{IsLocked};

    ghost Value = { JournalState };

    ghost coded = { Prim.hlevel (codes, coded_program, coded_live) };

    ghost view = { λ h. h.journal };

    ghost invariant = { λ h. IsLocked h.journal };
}

impl Hall {
    /// A hall over a store, which is its opening state. Nothing is entered yet. It takes no memory.
    pub fn new(alloc: Global, store: Store) -> Hall
        ensures { result ≡ made_over store.standing }
    {
        Hall {
            alloc,
            journal: Journal::new(alloc, store),
        }
    }

    /// Answers a transaction of reads, for a caller that has seen this revision in an answer, 0 for none.
    ///
    /// `Behind` is answered exactly where the store's counter is below it, so no answer carries a revision below what
    /// the caller has seen; a read that names a revision may show an older one. Otherwise it is refused as the
    /// store's `txn` refuses it. It changes nothing, refused or not. (etcd's API reference, "Range".)
    pub fn fetch(&mut self, seen: u64, txn: &Txn) -> Result<TxnAnswer, FetchRefusal>
        requires { OnlyReads txn.now }
        ensures answer { FetchReturns (fetched self.old.standing seen txn.now) result }
        ensures seen { IfOk result (λ answer. seen ≤ answer.revision) }
        ensures numbers { IfOk result AnswerFits }
        ensures same { self.new ≡ self.old }
    {
        self.journal.fetch(seen, txn)
    }

    /// Fetches one key at a revision, 0 for the current one, for a caller that has seen this revision in an answer, 0 for none.
    ///
    /// It answers what `fetch` answers to a transaction that reads this key and does nothing else, and is refused as that is: `Behind`
    /// exactly where the store's counter is below what the caller has seen; then `EmptyKey`; then `FutureRevision`: the revision is
    /// above the store's; then `Compacted`: it is not 0 and below the store's floor. `OutOfMemory` may come only where none of these
    /// does. (etcd's API reference, "Range".)
    pub fn fetch_one(&self, seen: u64, key: &str, at: u64) -> Result<ReadAnswer, FetchRefusal>
        ensures answer { FetchReturns (fetched self.now.standing seen (fetch_of key.now at)) (reported_alone result) }
        ensures seen { IfOk result (λ answer. seen ≤ answer.revision) }
        ensures numbers { IfOk result ReadFits }
    {
        self.journal.fetch_one(self.alloc, seen, key, at)
    }

    /// Commits an attempt that is ready, by one transaction.
    ///
    /// `Committed` says that no compare failed and the writes are applied; the attempt is an entry, whose place is returned.
    /// The store changes as its program changes it when run alone at this moment, at `ReadCommitted` on the answers that
    /// the attempt read. `Failed` says that a compare failed, and the hall is as it was. Its answers may be prefetched for
    /// the next attempt.
    ///
    /// A refusal leaves the hall as it was too. `TooManyOps` and `EmptyKey`: the transaction is wrong as a whole. Where no
    /// compare fails, at a level that compares: `Unvouched`, for the first read whose value is not the store's, an absent
    /// key having "". Then `LeaseNotFound`: a put names a lease that is not live; then `RevisionsUsedUp`: something would
    /// change at the highest revision. `OutOfMemory` may come before each of these. (The Go package
    /// `clientv3/concurrency`, "STM"; `Unvouched` and the order of the refusals are this hall's own.)
    pub fn commit(&mut self, ready: &Ready) -> Result<Verdict, CommitRefusal>
        ensures verdict { CommitReturns (verdict_of self.old ready.now) self.old result self.new }
        ensures answers { IfOk result CanGoOn }
        ensures alone { IfOk result (λ verdict. ChangesAsAlone ready.now verdict self.old self.new) }
        ensures goes_on { GoesOn self.old self.new }
    {
        self.journal.commit(self.alloc, ready)
    }

    /// Commits an attempt that was prepared, as `commit` does, so that less is done while the hall is locked: its changes are moved into the store,
    /// and the attempt into its entry.
    pub fn commit_prepared(&mut self, prepared: Prepared) -> Result<Verdict, CommitRefusal>
        ensures verdict { CommitReturns (verdict_of self.old prepared) self.old result self.new }
        ensures answers { IfOk result CanGoOn }
        ensures alone { IfOk result (λ verdict. ChangesAsAlone prepared verdict self.old self.new) }
        ensures goes_on { GoesOn self.old self.new }
    {
        self.journal.commit_prepared(self.alloc, prepared)
    }

    /// Makes a transaction of another client, which is an entry where it changed something.
    ///
    /// It is refused as the store's `txn` refuses it, and then the hall is as it was. `OutOfMemory` is returned only for a
    /// transaction that the store takes.
    pub fn foreign(&mut self, txn: &Txn) -> Result<TxnAnswer, Refusal>
        ensures made { JournalReturns (made self.old txn.now) self.old result self.new }
        ensures goes_on { GoesOn self.old self.new }
    {
        self.journal.make_txn(txn)
    }

    /// Sets the moment, and ends the leases that are due, each with its keys, as the store's `advance` does. Each is an
    /// entry.
    ///
    /// `TimeGoesBack` changes nothing. On `RevisionsUsedUp` the leases that expired stay expired, are returned and are
    /// entries, the rest stays due, and the moment is set. `OutOfMemory` leaves the hall in that state, or as it was.
    pub fn advance(&mut self, moment: u64) -> Result<Vec<Expired>, AdvanceRefused>
        ensures ok { IfOk result (λ expired. IsAdvanced self.old moment expired.items None self.new) }
        ensures refused { IfErr result (λ stopped. HasStopped self.old moment stopped.expired stopped.cause self.new) }
        ensures goes_on { GoesOn self.old self.new }
    {
        self.journal.advance(self.alloc, moment)
    }

    /// The store's counter. It takes no memory.
    pub fn revision(&self) -> u64
        ensures { result ≡ now self.now.standing.history }
    {
        self.journal.store().keys().revision()
    }

    /// Whether the history changes a key above a revision, by a put or a deletion. It takes no memory, and a step for each
    /// change above that.
    ///
    /// Revisions that the store has dropped are known by what they left: they changed the key where it is present after them, and its last put
    /// is above.
    pub fn is_changed_above(&self, key: &str, since: u64) -> bool
        ensures { result ≡ changes_above self.now.standing.history.opening since key.now self.now.standing.history.revisions }
    {
        is_changed_above(self.journal.store().keys(), key, since)
    }

    /// Whether an answer is true of the history: it shows its key as it was at a revision that the counter has reached, and that is not 0, which names
    /// the current one. It takes no memory.
    pub fn shows(&self, answer: &ReadAnswer) -> bool
        ensures { IsTrue result ↔ IsShown self.now.standing.history answer.now }
    {
        is_shown(self.journal.store().keys(), answer)
    }

    /// What changed the store since the hall was made, in order. It takes no memory.
    pub fn entries(&self) -> &[Entry]
        ensures entries { result.now ≡ self.now.entries }
        ensures locked { IsLocked self.now }
    {
        self.journal.entries()
    }

    /// The store, with what was committed. It takes no memory.
    pub fn store(&self) -> &Store
        ensures { result.now.standing ≡ self.now.standing }
    {
        self.journal.store()
    }

    /// The state of the store's keys, as programs run on it. It fails only where an allocation failed.
    pub fn state(&self) -> Result<State, AllocError>
        ensures { IfOk result (λ state. IsStateOf self.now.standing.history state) }
    {
        state_of(self.alloc, self.journal.store().keys())
    }
}
