//! A store with what changed it.
ghost use Rattle.std.specs.Prelude.{◌≡◌, ◌≤◌, ◌<◌, length, All, None, Ok as OkOf, IfOk, IfErr, IfSome, OnErr};
ghost use Rattle.stm_history.specs.History.{now};
ghost use Rattle.stm_watch.specs.declared.watched.Watched.TheVariants.{Key, Range};
ghost use Rattle.stm_outcome.specs.Commits.{AreNamed};
ghost use Rattle.stm_outcome.specs.Numbers.{AnswerFits, ReadFits};
ghost use Rattle.stm_outcome.specs.Terms.{most_operations};
ghost use Rattle.stm_txn.specs.Standing.{Returns, as_defined, watched, polled, poll_refused, cancelled, compacted};
ghost use Rattle.stm_attempt.specs.ReadyRun.{IsRunOnItsAnswers};
ghost use Rattle.stm_journal.specs.JournalState.{journal_of, made_over, with_store, JournalReturns};
ghost use Rattle.stm_journal.specs.Fetched.{fetch_of, fetch_reported, IsFetch, fetch_all_reported, IsRefusalOfAll};
ghost use Rattle.stm_journal.specs.Fetching.{OnlyReads, fetched, reported_alone, FetchReturns};
ghost use Rattle.stm_journal.specs.Causes.{IsForeseen};
ghost use Rattle.stm_journal.specs.Verdicts.{sent, SentReturns, verdict_of, CommitReturns, CanGoOn};
ghost use Rattle.stm_journal.specs.Entering.{made, granted_in, renewed_in, revoked_in, IsAdvanced, HasStopped};

use crate::prepared::{Prepared, prepare_copy};
use crate::refusal::{CommitRefusal, FetchRefusal};
use crate::verdict::Verdict;
use crate::{committing, entered_calls, fetching};
use std::alloc::{AllocError, Global};
use std::marker::Model;
use stm_attempt::Ready;
use stm_entries::Entry;
use stm_history::{ReadAnswer, Text};
use stm_txn::{AdvanceRefused, Batch, Expired, Refusal, Store, Txn, TxnAnswer};

/// A store, with the entries of what changed it since the journal was made, and its counter then.
///
/// Each call that changes the store's history or its leases is entered by one function, which makes the room of its entry first: a call that the store took
/// is never without its entry, and one that is refused leaves the journal as it was, but for an advance that stopped on its way. What is about watchers, and
/// a compaction, is no entry.
pub struct Journal {
    store: Store,
    entries: Vec<Entry>,
    start: u64,
}

impl Drop for Journal {
    fn drop(self) {
        let Journal {
            store: _,
            entries: _,
            start: _,
        } = self;
    }
}

impl Model for Journal {
    ghost use Rattle.std.specs.Coded.{codes};
    ghost use Rattle.stm_program.specs.Coding.{coded_program};
    ghost use Rattle.stm_entries.specs.Codes.{coded_live};
    ghost use Rattle.stm_journal.specs.JournalState.{JournalState, journal_of};

    ghost Value = { JournalState };

    ghost coded = { Prim.hlevel (codes, coded_program, coded_live) };

    ghost view = { λ j. journal_of j.store.standing j.entries.items j.start };
}

/// A copy of the entries.
fn copy_entries(entries: &Vec<Entry>) -> Result<Vec<Entry>, AllocError>
    ensures { IfOk result (λ copy. copy.items ≡ entries.now.items) }
{
    let copy = entries.clone()?;
    Ok(copy)
}

impl Journal {
    /// A journal over a store, with no entries. It takes no memory.
    pub fn new(alloc: Global, store: Store) -> Journal
        ensures { result ≡ made_over store.standing }
    {
        let start = store.keys().revision();
        Journal {
            store,
            entries: Vec::new(alloc),
            start,
        }
    }

    /// A journal over a store to which these entries lead. It takes no memory.
    pub fn with_entries(store: Store, entries: Vec<Entry>) -> Journal
        ensures { result ≡ journal_of store.standing entries.items (now store.standing.history) }
    {
        let revision = store.keys().revision();
        Journal {
            store,
            entries,
            start: revision,
        }
    }

    /// The store.
    pub fn store(&self) -> &Store
        ensures { result.now.standing ≡ self.now.standing }
    {
        &self.store
    }

    /// What changed the store since the journal was made, oldest first.
    pub fn entries(&self) -> &[Entry]
        ensures { result.now ≡ self.now.entries }
    {
        self.entries.as_slice()
    }

    /// A copy of the store and of the entries. Out of memory is the only refusal.
    pub fn copy(&self) -> Result<Journal, AllocError>
        ensures { IfOk result (λ copy. copy ≡ self.now) }
    {
        let entries = copy_entries(&self.entries)?;
        let store = self.store.copy()?;
        Ok(Journal {
            store,
            entries,
            start: self.start,
        })
    }
}

// ---- reads, which change nothing

impl Journal {
    /// Answers a transaction of reads, for a caller that has seen this revision in an answer, 0 for none.
    ///
    /// `Behind` is answered exactly where the store's counter is below it. Otherwise it is refused as the store's `txn` refuses it.
    pub fn fetch(&mut self, seen: u64, txn: &Txn) -> Result<TxnAnswer, FetchRefusal>
        requires { OnlyReads txn.now }
        ensures answer { FetchReturns (fetched self.old.standing seen txn.now) result }
        ensures seen { IfOk result (λ answer. seen ≤ answer.revision) }
        ensures numbers { IfOk result AnswerFits }
        ensures same { self.new ≡ self.old }
    {
        entered_calls::fetch(&mut self.store, seen, txn)
    }

    /// Fetches one key at a revision, 0 for the current one, for a caller that has seen this revision in an answer, 0 for none.
    ///
    /// It answers what `fetch` answers to a transaction that reads this key and does nothing else, and is refused as that is.
    pub fn fetch_one(
        &self,
        alloc: Global,
        seen: u64,
        key: &str,
        at: u64,
    ) -> Result<ReadAnswer, FetchRefusal>
        ensures answer { FetchReturns (fetched self.now.standing seen (fetch_of key.now at)) (reported_alone result) }
        ensures seen { IfOk result (λ answer. seen ≤ answer.revision) }
        ensures numbers { IfOk result ReadFits }
    {
        entered_calls::fetch_one(alloc, &self.store, seen, key, at)
    }

    /// Fetches a key, which is not empty, at a revision that the store has reached, 0 for the current one.
    ///
    /// The answer shows the key at that revision, and carries the store's. `Compacted`: the revision is not 0 and below the store's floor. `OutOfMemory`
    /// may come before it. (etcd's API reference, "Range".)
    pub fn fetch_key(&mut self, alloc: Global, key: &str, at: u64) -> Result<ReadAnswer, Refusal>
        requires named { 0 < length key.now }
        requires reached { at ≤ now self.old.standing.history }
        ensures reported { IsFetch (fetch_reported self.old.standing key.now at) result }
        ensures in_range { IfOk result ReadFits }
        ensures same { self.new ≡ self.old }
    {
        fetching::fetch(alloc, &mut self.store, key, at)
    }

    /// Fetches keys, none of which is empty, as they are now. It is one transaction, which reads and nothing else: all answers are of one revision.
    ///
    /// `TooManyOps`: there are more keys than the store takes operations. `OutOfMemory` may come before it. (etcd's API reference, "Transaction".)
    pub fn fetch_list(&mut self, alloc: Global, keys: &[Text]) -> Result<Vec<ReadAnswer>, Refusal>
        requires { AreNamed keys.now }
        ensures reported { IfOk result (λ reads. fetch_all_reported self.old.standing keys.now ≡ OkOf reads.items) }
        ensures refused { IfErr result (IsRefusalOfAll self.old.standing keys.now) }
        ensures in_range { IfOk result (λ reads. All ReadFits reads.items) }
        ensures same { self.new ≡ self.old }
    {
        fetching::fetch_all(alloc, &mut self.store, keys)
    }
}

// ---- commits

impl Journal {
    /// Commits an attempt that was prepared, by one transaction, and enters it: its changes are moved into the store, and the attempt into its entry. What it
    /// says it read is its caller's, so at a level that compares the values are looked at too.
    ///
    /// `Committed` says that no compare failed and the writes are applied. `Failed` says that one did, and the journal is as it was; its answers may be
    /// prefetched for the next attempt. `TooManyOps` and `EmptyKey`: the transaction is wrong as a whole. Where no compare fails, at a level that compares:
    /// `Unvouched`, for the first read whose value is not the store's. Then `LeaseNotFound`: a put names a lease that is not live; then `RevisionsUsedUp`:
    /// something would change at the highest revision. `OutOfMemory` may come before each of these.
    pub fn commit_prepared(
        &mut self,
        alloc: Global,
        prepared: Prepared,
    ) -> Result<Verdict, CommitRefusal>
        ensures verdict { CommitReturns (verdict_of self.old prepared) self.old result self.new }
        ensures answers { IfOk result CanGoOn }
        ensures run { IsRunOnItsAnswers prepared }
    {
        committing::commit(alloc, &mut self.store, &mut self.entries, prepared)
    }

    /// Commits an attempt that is ready, by a copy of it, as `commit_prepared` does.
    pub fn commit(&mut self, alloc: Global, ready: &Ready) -> Result<Verdict, CommitRefusal>
        ensures verdict { CommitReturns (verdict_of self.old ready.now) self.old result self.new }
        ensures answers { IfOk result CanGoOn }
        ensures run { IsRunOnItsAnswers ready.now }
    {
        let prepared = prepare_copy(alloc, ready)?;
        self.commit_prepared(alloc, prepared)
    }

    /// Says what `commit_trusted` comes to where it turns an attempt down, and changes nothing: the verdict that a compare fails, or the refusal. `None`: no
    /// compare fails, and the transaction is not wrong as a whole.
    pub fn foresee(&self, alloc: Global, ready: &Ready) -> Result<Option<Verdict>, Refusal>
        ensures verdict { IsForeseen self.now ready.now result }
        ensures answers { IfOk result (λ o. IfSome o CanGoOn) }
        ensures run { IsRunOnItsAnswers ready.now }
    {
        // (the attempt's type says that it is a run on its answers)
        let _is_run = ready.answers.as_slice();
        committing::foresee(alloc, &self.store, ready)
    }

    /// Commits an attempt whose answers are those that this store gave, by one transaction, and enters it. No value is looked at.
    ///
    /// It comes to what `commit_prepared` comes to, and is refused as that is, but never as `Unvouched`.
    pub fn commit_trusted(&mut self, alloc: Global, ready: Ready) -> Result<Verdict, Refusal>
        ensures verdict { SentReturns (sent self.old ready) self.old result self.new }
        ensures answers { IfOk result CanGoOn }
        ensures run { IsRunOnItsAnswers ready }
    {
        committing::commit_trusted(alloc, &mut self.store, &mut self.entries, ready)
    }
}

// ---- transactions of other clients, and leases

impl Journal {
    /// Makes a transaction of another client, which is an entry where it changed something.
    ///
    /// It is refused as the store's `txn` refuses it. `OutOfMemory` is reported only of a transaction that the store takes.
    pub fn make_txn(&mut self, txn: &Txn) -> Result<TxnAnswer, Refusal>
        ensures made { JournalReturns (made self.old txn.now) self.old result self.new }
        ensures few { self.old.standing.limit ≤ most_operations }
    {
        // (the store's type says that it takes at most 128 operations)
        let _few = self.store.limit();
        entered_calls::make_and_enter_txn(&mut self.store, &mut self.entries, txn)
    }

    /// Grants a lease at the store's moment, and enters that.
    ///
    /// It is refused as the store's `grant` refuses it. `OutOfMemory` is reported only of a grant that the store takes.
    pub fn grant(&mut self, id: u64, ttl: u64) -> Result<(), Refusal>
        ensures { JournalReturns (granted_in self.old id ttl) self.old result self.new }
    {
        entered_calls::grant(&mut self.store, &mut self.entries, id, ttl)
    }

    /// Renews a lease at the store's moment, and enters that.
    ///
    /// `LeaseNotFound`: it is not live. `OutOfMemory` is reported only of a lease that is live.
    pub fn keep_alive(&mut self, id: u64) -> Result<(), Refusal>
        ensures { JournalReturns (renewed_in self.old id) self.old result self.new }
    {
        entered_calls::keep_alive(&mut self.store, &mut self.entries, id)
    }

    /// Revokes a lease, with its keys, enters that, and returns the revision after it.
    ///
    /// It is refused as the store's `revoke` refuses it. `OutOfMemory` is reported only of a revocation that the store takes.
    pub fn revoke(&mut self, id: u64) -> Result<u64, Refusal>
        ensures { JournalReturns (revoked_in self.old id) self.old result self.new }
    {
        entered_calls::revoke(&mut self.store, &mut self.entries, id)
    }

    /// Sets the moment, and ends the leases that are due, each with its keys, as the store's `advance` does. Each is an entry.
    ///
    /// `TimeGoesBack` changes nothing. On `RevisionsUsedUp` the leases that expired stay expired, are reported and are entries, the rest stays due, and the
    /// moment is set. `OutOfMemory` leaves the journal in that state, or as it was.
    pub fn advance(&mut self, alloc: Global, moment: u64) -> Result<Vec<Expired>, AdvanceRefused>
        ensures ok { IfOk result (λ expired. IsAdvanced self.old moment expired.items None self.new) }
        ensures refused { IfErr result (λ stopped. HasStopped self.old moment stopped.expired stopped.cause self.new) }
    {
        entered_calls::advance(alloc, &mut self.store, &mut self.entries, moment)
    }
}

// ---- watchers and compaction, which are no entries

impl Journal {
    /// Begins to watch a key, as the store's `watch_key` does.
    pub fn watch_key(&mut self, key: &str, from: u64) -> Result<u64, Refusal>
        ensures step { Returns (watched self.old.standing (Key key.now) from) result self.new.standing }
        ensures same { self.new ≡ with_store self.old self.new.standing }
        ensures err { OnErr result (self.new ≡ self.old) }
    {
        self.store.watch_key(key, from)
    }

    /// Begins to watch a range of keys, as the store's `watch_range` does.
    pub fn watch_range(&mut self, first: &str, end: &str, from: u64) -> Result<u64, Refusal>
        ensures step { Returns (watched self.old.standing (Range first.now end.now) from) result self.new.standing }
        ensures same { self.new ≡ with_store self.old self.new.standing }
        ensures err { OnErr result (self.new ≡ self.old) }
    {
        self.store.watch_range(first, end, from)
    }

    /// Returns what is pending for a watcher, of at most `most` revisions, as the store's `poll` does. A watcher that is lost is cancelled.
    pub fn poll(&mut self, id: u64, most: u64) -> Result<Batch, Refusal>
        ensures step { Returns (polled self.old.standing id most) result self.new.standing }
        ensures same { self.new ≡ with_store self.old self.new.standing }
        ensures refused { OnErr result (self.new.standing ≡ poll_refused self.old.standing id) }
    {
        self.store.poll(id, most)
    }

    /// Cancels a watcher, as the store's `cancel` does.
    pub fn cancel(&mut self, id: u64) -> Result<(), Refusal>
        ensures step { cancelled self.old.standing id ≡ as_defined result self.new.standing }
        ensures same { self.new ≡ with_store self.old self.new.standing }
        ensures err { OnErr result (self.new ≡ self.old) }
    {
        self.store.cancel(id)
    }

    /// Compacts the store at a revision, as its `compact` does. The entries stay.
    pub fn compact(&mut self, revision: u64) -> Result<(), Refusal>
        ensures step { compacted self.old.standing revision ≡ as_defined result self.new.standing }
        ensures same { self.new ≡ with_store self.old self.new.standing }
        ensures err { OnErr result (self.new ≡ self.old) }
    {
        self.store.compact(revision)
    }
}
