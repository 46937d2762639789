//! The store.
ghost use Rattle.std.specs.Prelude.{◌≡◌, ◌+◌, ◌<◌, ◌≤◌, ℕ, Option, List, [], ◌∷◌, length, if◌then◌else◌, IfOk, IfErr, IfSome, OnOk, OnErr, IsOkUnless};
ghost use Rattle.std.specs.Prelude.{Ok, None, Some, true, false};
ghost use Rattle.std.specs.FinMap as finmap;
ghost use Rattle.stm_history.specs.declared.revisions.TheConstants.{HIGHEST_REVISION};
ghost use Rattle.stm_history.specs.declared.change.Change.{Change};
ghost use Rattle.stm_history.specs.History.{History, now, add_revision, IsRevision, HasDistinctKeys};
ghost use Rattle.stm_keys.specs.Keys.{DeletePresent};
ghost use Rattle.stm_watch.specs.Places.{no_watchers, watchings};
ghost use Rattle.stm_watch.specs.Calls.{StandFor};
ghost use Rattle.stm_leases.specs.Leases.{StandsFor};
ghost use Rattle.stm_leases.specs.Live.{is_live_in, AreInRange};
ghost use Rattle.stm_outcome.specs.Branches.{branch_refusal};
ghost use Rattle.stm_outcome.specs.declared.answer.FailedCompare.{FailedCompare as AFailedCompare};
ghost use Rattle.stm_outcome.specs.Terms.{most_operations};
ghost use Rattle.stm_outcome.specs.LookUps.{changes_copied, answers_copied, outcome_copied};
ghost use Rattle.stm_outcome.specs.Outcome.{is_used_up, would_change};
ghost use Rattle.stm_txn.specs.ChangesHeld.{changes_held};
ghost use Rattle.stm_history.specs.declared.change.Change.TheVariants.{Put as PutChange};
ghost use Rattle.stm_outcome.specs.declared.answer.OpAnswer.TheVariants.{Put as PutAnswer};

use crate::attach::{move_keys, prepare_attaches};
use crate::branch::{choose, put_of, run_branch, would_change};
use crate::changes::Changes;
use crate::refused::{find_run_refusal, find_txn_refusal};
use crate::writes::{any_names_dead_lease, are_used_up, only_effective};
use std::alloc::{AllocError, Global};
use std::marker::Model;
use stm_history::{Change, Text};
use stm_keys::{ApplyRefusal, Keys, ReadRefusal};
use stm_leases::Leases;
use stm_outcome::{
    FailedCompare, Op, OpAnswer, OperationLimit, Refusal, ShortList, Txn, TxnAnswer, find_failed,
    find_fault,
};
use stm_watch::Watchers;

/// A store: its keys at every revision that is kept, its leases, its moment in whole seconds, its watchers, and the most operations that it
/// takes in each list of a transaction.
///
/// Each key is attached to the lease that its state names, and a watcher is ready exactly where events of it are pending, or
/// where it is lost: that is kept in every store.
pub struct Store {
    pub(crate) keys: Keys,
    pub(crate) leases: Leases,
    pub(crate) moment: u64,
    pub(crate) watchers: Watchers,
    limit: OperationLimit,
    pub(crate) alloc: Global,
}

impl Drop for Store {
    fn drop(self) {
        let Store {
            keys: _,
            leases: _,
            moment: _,
            watchers: _,
            limit: _,
            alloc: _,
        } = self;
    }
}

impl Model for Store {
    ghost use Rattle.std.specs.Coded.{codes};
    ghost use Rattle.stm_leases.specs.Leases.{lease_of};
    ghost use Rattle.std.specs.Prelude.{◌≡◌, ◌≤◌};
    ghost use Rattle.stm_history.specs.History.{now};
    ghost use Rattle.stm_watch.specs.Places.{watchings};
    ghost use Rattle.stm_watch.specs.Calls.{StandFor};
    ghost use Rattle.stm_txn.specs.Leasing.{AttachedAsStored};
    ghost use Rattle.stm_outcome.specs.Numbers.{LeasesFit};
    ghost use Rattle.stm_txn.specs.Store.{StoreView, store_code};
    ghost use Rattle.stm_keys.specs.contracts.keys.Keys as key_store;

    ghost Value = { StoreView };

    ghost coded = { store_code key_store.the_row.coded (Prim.hlevel (codes)) };

    ghost view = { λ s. record {
      standing = record {
        history = s.keys.history;
        floor = s.keys.floor;
        limit = s.limit;
        live = s.leases.live;
        moment = s.moment;
        watchers = watchings s.watchers;
      };
      present = s.keys.present;
      opened = s.keys.opened;
    } };

    ghost invariant = { λ s. AttachedAsStored (lease_of s.leases) s.keys.history × LeasesFit s.keys.history × StandFor s.keys.history s.watchers
        × (s.watchers.floor ≡ s.keys.floor) × (s.keys.floor ≤ now s.keys.history) };
}

/// Notifies the watchers of the last revision. Those that stood for the history before it stand for it then.
fn notify_watchers(watchers: &mut Watchers, keys: &Keys)
    requires { watchers.old.floor ≤ now keys.now.history }
    ensures same { watchings watchers.new ≡ watchings watchers.old }
    ensures floor { watchers.new.floor ≡ watchers.old.floor }
    ensures stand { (h : History) (changes : List Change) → keys.now.history ≡ add_revision h changes → StandFor h watchers.old → StandFor keys.now.history watchers.new }
{
    watchers.touched(keys.revision(), keys.last_events());
}

impl Store {
    ghost use Rattle.stm_outcome.specs.Checks.{has_clash, fault_of};
    ghost use Rattle.stm_txn.specs.Leasing.{attached_of, AttachedToLive, AttachedAsStored, lease_now};
    ghost use Rattle.stm_outcome.specs.Numbers.{LeasesFit};
    ghost use Rattle.stm_leases.specs.Leases.{lease_of};
    ghost use Rattle.stm_outcome.specs.Outcome.{with_changes, answer_of};
    ghost use Rattle.stm_outcome.specs.Numbers.{AnswerFits, StatesFit};
    ghost use Rattle.stm_txn.specs.Standing.{opening, at_revision, IsRefusalOf, Returns, refusal_of, transacted, made, written, as_defined};
    ghost use Rattle.stm_txn.specs.Standing.{terms_of, raised, compacted};

    /// An empty store at revision 1 and moment 0, which takes up to `MOST_OPERATIONS` operations. A failed allocation is its only refusal.
    pub fn new(alloc: Global) -> Result<Store, AllocError>
        ensures standing { IfOk result (λ s. s.standing ≡ opening (at_revision 1)) }
        ensures present { IfOk result (λ s. s.present ≡ []) }
        ensures opened { IfOk result (λ s. s.opened ≡ 1) }
        ensures log { IfOk result (λ s. StandsFor s.standing.live []) }
    {
        Store::with_revision(alloc, 1)
    }

    /// A store of these keys and leases, with watchers of which there are none. It takes no memory.
    pub(crate) fn with_parts(
        alloc: Global,
        keys: Keys,
        leases: Leases,
        moment: u64,
        watchers: Watchers,
        limit: OperationLimit,
    ) -> Store
        requires attached { AttachedAsStored (lease_of leases) keys.history }
        requires fits { LeasesFit keys.history }
        requires floor { keys.floor ≡ 0 }
        requires unwatched { watchers ≡ no_watchers }
        ensures standing { result.standing ≡ record { history = keys.history; floor = 0; limit = limit; live = leases.live; moment = moment; watchers = [] } }
        ensures opened { result.opened ≡ keys.opened }
    {
        Store {
            keys,
            leases,
            moment,
            watchers,
            limit,
            alloc,
        }
    }

    /// An empty store whose counter is `start`, at moment 0, with watchers of which there are none. It takes no memory.
    fn opened(alloc: Global, start: u64, limit: OperationLimit, watchers: Watchers) -> Store
        requires positive { 1 ≤ start }
        requires bounded { start ≤ HIGHEST_REVISION }
        requires unwatched { watchers ≡ no_watchers }
        ensures standing { result.standing ≡ record (opening (at_revision start)) { limit = limit } }
        ensures present { result.present ≡ [] }
        ensures opened { result.opened ≡ start }
        ensures log { StandsFor result.standing.live [] }
    {
        Store {
            keys: Keys::with_revision(alloc, start),
            leases: Leases::new(alloc),
            moment: 0,
            watchers,
            limit,
            alloc,
        }
    }

    /// An empty store whose counter is `start`, at moment 0: its keys are absent at every revision up to
    /// `start`. It takes up to `MOST_OPERATIONS` operations. A failed allocation is its only refusal.
    pub fn with_revision(alloc: Global, start: u64) -> Result<Store, AllocError>
        requires positive { 1 ≤ start }
        requires bounded { start ≤ HIGHEST_REVISION }
        ensures standing { IfOk result (λ s. s.standing ≡ opening (at_revision start)) }
        ensures present { IfOk result (λ s. s.present ≡ []) }
        ensures opened { IfOk result (λ s. s.opened ≡ start) }
        ensures log { IfOk result (λ s. StandsFor s.standing.live []) }
    {
        let watchers = Watchers::new(alloc)?;
        Ok(Store::opened(alloc, start, OperationLimit::highest(), watchers))
    }

    /// An empty store whose counter is `start`, at moment 0, as `with_revision` makes one, that takes at most `operations` elements in
    /// each of a transaction's three lists. A failed allocation is its only refusal. (etcd's server has the flag `--max-txn-ops` for it.)
    pub fn with_limits(alloc: Global, start: u64, operations: usize) -> Result<Store, AllocError>
        requires positive { 1 ≤ start }
        requires bounded { start ≤ HIGHEST_REVISION }
        requires some { 1 ≤ operations }
        requires few { operations ≤ most_operations }
        ensures standing { IfOk result (λ s. s.standing ≡ opening (record { revision = start; limit = operations })) }
        ensures limit { IfOk result (λ s. s.standing.limit ≡ operations) }
        ensures present { IfOk result (λ s. s.present ≡ []) }
        ensures opened { IfOk result (λ s. s.opened ≡ start) }
        ensures log { IfOk result (λ s. StandsFor s.standing.live []) }
    {
        let watchers = Watchers::new(alloc)?;
        let limit = OperationLimit::new(operations);
        Ok(Store::opened(alloc, start, limit, watchers))
    }

    /// The keys. The counter of every store is at least 1, and no number of a state, its lease included, is
    /// above `HIGHEST_NUMBER`.
    pub fn keys(&self) -> &Keys
        ensures history { result.now.history ≡ self.now.standing.history }
        ensures floor { result.now.floor ≡ self.now.standing.floor }
        ensures present { result.now.present ≡ self.now.present }
        ensures opened { result.now.opened ≡ self.now.opened }
        ensures counter { 1 ≤ now self.now.standing.history }
        ensures numbers { StatesFit self.now.standing.history }
    {
        let _counter = self.keys.revision();
        &self.keys
    }

    /// The floor: the lowest revision that can be read. It is 0 in a store that was never compacted.
    pub fn floor(&self) -> u64
        ensures floor { result ≡ self.now.standing.floor }
        ensures reached { self.now.standing.floor ≤ now self.now.standing.history }
    {
        self.keys.floor()
    }

    /// The most elements that the store takes in each of a transaction's three lists: those with more are refused as `TooManyOps`.
    pub fn limit(&self) -> usize
        ensures limit { result ≡ self.now.standing.limit }
        ensures some { 1 ≤ self.now.standing.limit }
        ensures few { self.now.standing.limit ≤ most_operations }
    {
        self.limit.count()
    }

    /// The moment, in whole seconds.
    pub fn moment(&self) -> u64
        ensures { result ≡ self.now.standing.moment }
    {
        self.moment
    }

    /// The number of live leases.
    pub fn lease_count(&self) -> usize
        ensures { result ≡ finmap.len self.now.standing.live }
    {
        self.leases.len()
    }

    /// Whether the id is that of a live lease.
    ///
    /// In every store the live ids and their times to live are in their ranges, and a key is attached to a live
    /// lease or on none.
    pub fn is_live(&self, id: u64) -> bool
        ensures live { result ≡ is_live_in self.now.standing.live id }
        ensures in_range { AreInRange self.now.standing.live }
        ensures attach_on_live { (key : List ℕ) (lease : ℕ) → lease_now self.now.standing.history key ≡ Some lease → is_live_in self.now.standing.live lease ≡ true }
    {
        self.leases.is_live(id)
    }

    /// Adds a revision with these changes, moves their keys to their leases, and notifies the watchers.
    fn add_revision(&mut self, changes: Changes) -> Result<(), Refusal>
        requires revision { IsRevision (changes_held changes) }
        requires room { now self.old.standing.history < HIGHEST_REVISION }
        requires live { AttachedToLive self.old.standing.live (attached_of (changes_held changes)) }
        requires present { DeletePresent self.old.standing.history (changes_held changes) }
        ensures ok { OnOk result (self.new.standing.history ≡ add_revision self.old.standing.history (changes_held changes)) }
        ensures floor { self.new.standing.floor ≡ self.old.standing.floor }
        ensures limit { self.new.standing.limit ≡ self.old.standing.limit }
        ensures live { self.new.standing.live ≡ self.old.standing.live }
        ensures moment { self.new.standing.moment ≡ self.old.standing.moment }
        ensures watchers { self.new.standing.watchers ≡ self.old.standing.watchers }
        ensures memory { IsOkUnless result Refusal.OutOfMemory }
        ensures opened { self.new.opened ≡ self.old.opened }
        ensures err { OnErr result (self.new ≡ self.old) }
    {
        self.leases.ids_are_in_range();
        let attaches = prepare_attaches(self.alloc, changes.as_slice())?;
        self.leases.reserve_attach(attaches.len())?;
        match changes.apply(&mut self.keys) {
            Ok(_) => {}
            Err(ApplyRefusal::OutOfMemory) => return Err(Refusal::OutOfMemory),
            Err(ApplyRefusal::RevisionsUsedUp) => unreachable!(),
        }
        notify_watchers(&mut self.watchers, &self.keys);
        move_keys(&mut self.leases, self.keys.last_events(), attaches);
        Ok(())
    }

    /// Adds a revision with these changes where there are any.
    pub(crate) fn add_changes(&mut self, changes: Vec<Change>) -> Result<(), Refusal>
        requires distinct { HasDistinctKeys changes.items }
        requires room { is_used_up self.old.standing.history changes.items ≡ false }
        requires live { AttachedToLive self.old.standing.live (attached_of changes.items) }
        requires present { DeletePresent self.old.standing.history changes.items }
        ensures ok { OnOk result (self.new.standing.history ≡ with_changes self.old.standing.history changes.items) }
        ensures floor { self.new.standing.floor ≡ self.old.standing.floor }
        ensures limit { self.new.standing.limit ≡ self.old.standing.limit }
        ensures live { self.new.standing.live ≡ self.old.standing.live }
        ensures moment { self.new.standing.moment ≡ self.old.standing.moment }
        ensures watchers { self.new.standing.watchers ≡ self.old.standing.watchers }
        ensures memory { IsOkUnless result Refusal.OutOfMemory }
        ensures opened { self.new.opened ≡ self.old.opened }
        ensures err { OnErr result (self.new ≡ self.old) }
    {
        match changes.as_slice() {
            [] => Ok(()),
            [_, ..] => {
                let _highest = self.keys.revision();
                self.add_revision(Changes::More(changes))
            }
        }
    }

    /// Runs a branch, however many operations it has, that nothing but memory can refuse.
    fn finish_each(
        &mut self,
        ops: &[Op],
        failed: Option<FailedCompare>,
    ) -> Result<TxnAnswer, Refusal>
        requires apart { has_clash ops.now ≡ false }
        requires allowed { branch_refusal (terms_of self.old.standing) ops.now ≡ None }
        requires room { is_used_up self.old.standing.history (changes_copied self.old.standing.history [] ops.now) ≡ false }
        ensures answer { IfOk result (λ answer. answer ≡ answer_of self.old.standing.history failed
            (changes_copied self.old.standing.history [] ops.now) (answers_copied self.old.standing.history [] ops.now)) }
        ensures history { OnOk result (self.new.standing.history ≡ with_changes self.old.standing.history (changes_copied self.old.standing.history [] ops.now)) }
        ensures floor { self.new.standing.floor ≡ self.old.standing.floor }
        ensures limit { self.new.standing.limit ≡ self.old.standing.limit }
        ensures live { self.new.standing.live ≡ self.old.standing.live }
        ensures moment { self.new.standing.moment ≡ self.old.standing.moment }
        ensures watchers { self.new.standing.watchers ≡ self.old.standing.watchers }
        ensures memory { IsOkUnless result Refusal.OutOfMemory }
        ensures opened { self.new.opened ≡ self.old.opened }
        ensures err { OnErr result (self.new ≡ self.old) }
    {
        let branch = run_branch(self.alloc, &self.keys, ops)?;
        self.add_changes(branch.changes)?;
        Ok(TxnAnswer {
            succeeded: failed.is_none(),
            revision: self.keys.revision(),
            answers: branch.answers,
            failed,
        })
    }

    /// Runs a branch of one put that nothing but memory can refuse: it needs no list of changes.
    fn finish_put(
        &mut self,
        key: &Text,
        value: &Text,
        lease: u64,
        failed: Option<FailedCompare>,
    ) -> Result<TxnAnswer, Refusal>
        requires live { AttachedToLive self.old.standing.live (attached_of (PutChange key.now value.now lease ∷ [])) }
        requires room { now self.old.standing.history < HIGHEST_REVISION }
        ensures answer { IfOk result (λ answer. answer ≡ answer_of self.old.standing.history failed (PutChange key.now value.now lease ∷ []) (PutAnswer ∷ [])) }
        ensures history { OnOk result (self.new.standing.history ≡ add_revision self.old.standing.history (PutChange key.now value.now lease ∷ [])) }
        ensures floor { self.new.standing.floor ≡ self.old.standing.floor }
        ensures limit { self.new.standing.limit ≡ self.old.standing.limit }
        ensures live { self.new.standing.live ≡ self.old.standing.live }
        ensures moment { self.new.standing.moment ≡ self.old.standing.moment }
        ensures watchers { self.new.standing.watchers ≡ self.old.standing.watchers }
        ensures memory { IsOkUnless result Refusal.OutOfMemory }
        ensures opened { self.new.opened ≡ self.old.opened }
        ensures err { OnErr result (self.new ≡ self.old) }
    {
        let change = put_of(key, value, lease)?;
        self.add_revision(Changes::One(change))?;
        Ok(TxnAnswer {
            succeeded: failed.is_none(),
            revision: self.keys.revision(),
            answers: ShortList::one(self.alloc, OpAnswer::Put),
            failed,
        })
    }

    /// Runs a branch that nothing but memory can refuse.
    fn finish(&mut self, ops: &[Op], failed: Option<FailedCompare>) -> Result<TxnAnswer, Refusal>
        requires apart { has_clash ops.now ≡ false }
        requires allowed { branch_refusal (terms_of self.old.standing) ops.now ≡ None }
        requires room { is_used_up self.old.standing.history (changes_copied self.old.standing.history [] ops.now) ≡ false }
        ensures answer { IfOk result (λ answer. answer ≡ answer_of self.old.standing.history failed
            (changes_copied self.old.standing.history [] ops.now) (answers_copied self.old.standing.history [] ops.now)) }
        ensures history { OnOk result (self.new.standing.history ≡ with_changes self.old.standing.history (changes_copied self.old.standing.history [] ops.now)) }
        ensures floor { self.new.standing.floor ≡ self.old.standing.floor }
        ensures limit { self.new.standing.limit ≡ self.old.standing.limit }
        ensures live { self.new.standing.live ≡ self.old.standing.live }
        ensures moment { self.new.standing.moment ≡ self.old.standing.moment }
        ensures watchers { self.new.standing.watchers ≡ self.old.standing.watchers }
        ensures memory { IsOkUnless result Refusal.OutOfMemory }
        ensures opened { self.new.opened ≡ self.old.opened }
        ensures err { OnErr result (self.new ≡ self.old) }
    {
        let _highest = self.keys.revision();
        if let [Op::Put { key, value, lease }] = ops {
            return self.finish_put(key, value, *lease, failed);
        }
        self.finish_each(ops, failed)
    }

    /// Why a branch would be refused, other than for a failed allocation.
    fn run_refusal(&self, ops: &[Op]) -> Option<Refusal>
        ensures allowed { result ≡ None → branch_refusal (terms_of self.now.standing) ops.now ≡ None }
        ensures room { result ≡ None → is_used_up self.now.standing.history (changes_copied self.now.standing.history [] ops.now) ≡ false }
        ensures refusal { (failed : Option AFailedCompare) → result ≡ refusal_of (outcome_copied (terms_of self.now.standing) failed ops.now) }
    {
        find_run_refusal(&self.keys, &self.leases, ops)
    }

    /// Runs one branch, whose first failed compare is given.
    fn run(&mut self, ops: &[Op], failed: Option<FailedCompare>) -> Result<TxnAnswer, Refusal>
        requires { has_clash ops.now ≡ false }
        ensures ok { IfOk result (λ answer. outcome_copied (terms_of self.old.standing) failed ops.now
            ≡ Ok (record { answer = answer; history = self.new.standing.history })) }
        ensures floor { self.new.standing.floor ≡ self.old.standing.floor }
        ensures limit { self.new.standing.limit ≡ self.old.standing.limit }
        ensures live { self.new.standing.live ≡ self.old.standing.live }
        ensures moment { self.new.standing.moment ≡ self.old.standing.moment }
        ensures watchers { self.new.standing.watchers ≡ self.old.standing.watchers }
        ensures refused { IfErr result (IsRefusalOf (outcome_copied (terms_of self.old.standing) failed ops.now)) }
        ensures opened { self.new.opened ≡ self.old.opened }
        ensures err { OnErr result (self.new ≡ self.old) }
    {
        match self.run_refusal(ops) {
            Some(refusal) => Err(refusal),
            None => self.finish(ops, failed),
        }
    }

    /// Runs the branch that the compares pick, of a transaction that is right as a whole.
    fn run_chosen(&mut self, txn: &Txn) -> Result<TxnAnswer, Refusal>
        requires { fault_of (terms_of self.old.standing).limit txn.now ≡ None }
        ensures step { Returns (transacted self.old.standing txn.now) result self.new.standing }
        ensures opened { self.new.opened ≡ self.old.opened }
        ensures err { OnErr result (self.new ≡ self.old) }
    {
        let failed = find_failed(txn.compares.as_slice(), &self.keys);
        self.run(choose(txn, failed), failed)
    }

    /// Looks at the whole transaction, then runs it.
    fn transact(&mut self, txn: &Txn) -> Result<TxnAnswer, Refusal>
        ensures step { Returns (transacted self.old.standing txn.now) result self.new.standing }
        ensures opened { self.new.opened ≡ self.old.opened }
        ensures err { OnErr result (self.new ≡ self.old) }
    {
        match find_fault(txn, self.limit.count()) {
            Some(refusal) => Err(refusal),
            None => self.run_chosen(txn),
        }
    }

    /// Runs a transaction, as one step.
    ///
    /// The whole transaction is looked at first: `TooManyOps` where one of its three lists has more elements than the store's limit,
    /// `EmptyKey`, `DuplicateKey`. Then the
    /// compares pick the branch, and the first of its operations that is refused decides:
    /// `FutureRevision` for a read above the counter, `Compacted` for one below the floor, `LeaseNotFound` for a put on a
    /// lease that is not live. Then comes `RevisionsUsedUp`, where something is to change at `HIGHEST_REVISION`, then
    /// `OutOfMemory`. A refused transaction changes nothing. (etcd's API reference, "Transaction", has the
    /// compares, the branches and the refused duplicates; the order of the refusals is this store's own.)
    /// The place of a failed compare is below their number, and the store's numbers in an answer are at most
    /// `HIGHEST_NUMBER`.
    pub fn txn(&mut self, txn: &Txn) -> Result<TxnAnswer, Refusal>
        ensures step { Returns (transacted self.old.standing txn.now) result self.new.standing }
        ensures place { IfOk result (λ answer. IfSome answer.failed (λ failed. failed.index < length txn.now.compares)) }
        ensures numbers { IfOk result AnswerFits }
        ensures opened { self.new.opened ≡ self.old.opened }
        ensures err { OnErr result (self.new ≡ self.old) }
    {
        let _counter = self.keys.revision();
        self.leases.ids_are_in_range();
        self.transact(txn)
    }

    /// Makes writes of distinct keys, by those that change something.
    fn make(&mut self, writes: Vec<Change>) -> Result<u64, Refusal>
        requires { HasDistinctKeys writes.items }
        ensures ok { IfOk result (λ revision. made self.old.standing writes.items ≡ Ok (record { answer = revision; next = self.new.standing })) }
        ensures refused { IfErr result (IsRefusalOf (made self.old.standing writes.items)) }
        ensures opened { self.new.opened ≡ self.old.opened }
        ensures err { OnErr result (self.new ≡ self.old) }
    {
        if any_names_dead_lease(writes.as_slice(), &self.leases) {
            return Err(Refusal::LeaseNotFound);
        }
        let changes = only_effective(writes, &self.keys);
        if are_used_up(&self.keys, changes.as_slice()) {
            return Err(Refusal::RevisionsUsedUp);
        }
        self.add_changes(changes)?;
        let revision = self.keys.revision();
        Ok(revision)
    }

    /// Makes writes of distinct keys as one step, with nothing compared and however many they are: the puts, and the
    /// deletes of keys that are present, are one revision. Answers the revision after them.
    ///
    /// It is refused for the first of `LeaseNotFound` where one puts on a lease that is not live, `RevisionsUsedUp`
    /// where something is to change at `HIGHEST_REVISION`, and `OutOfMemory` that holds, and then changes nothing.
    /// (etcd's API reference, "Transaction"; that there is no bound of their number is this call's own.)
    pub fn write(&mut self, writes: Vec<Change>) -> Result<u64, Refusal>
        requires { HasDistinctKeys writes.items }
        ensures step { Returns (written self.old.standing writes.items) result self.new.standing }
        ensures opened { self.new.opened ≡ self.old.opened }
        ensures err { OnErr result (self.new ≡ self.old) }
    {
        self.make(writes)
    }

    /// Makes a revision the floor, below which none can be read any more, and drops the revisions below it: what each key
    /// was at the floor, the events of the floor's own revision and all later ones stay. A watcher for which events of
    /// revisions below the floor are pending is lost, and the others lose nothing.
    ///
    /// `Compacted` is answered where the revision is not above the floor, `FutureRevision` where it is above the counter,
    /// and nothing changes then. It takes no memory. (etcd's API reference, "Compact".)
    pub fn compact(&mut self, revision: u64) -> Result<(), Refusal>
        ensures step { compacted self.old.standing revision ≡ as_defined result self.new.standing }
        ensures present { self.new.present ≡ self.old.present }
        ensures opened { self.new.opened ≡ self.old.opened }
        ensures err { OnErr result (self.new ≡ self.old) }
    {
        match self.keys.compact(revision) {
            Ok(()) => {
                self.watchers.compacted(revision);
                Ok(())
            }
            Err(ReadRefusal::Compacted) => Err(Refusal::Compacted),
            Err(ReadRefusal::FutureRevision) => Err(Refusal::FutureRevision),
        }
    }

    /// Makes a revision the floor as `compact` does, with its refusals and its lost watchers, but drops nothing: the keys
    /// at every revision are still there for `Keys::look_back`.
    pub fn raise_floor(&mut self, revision: u64) -> Result<(), Refusal>
        ensures step { raised self.old.standing revision ≡ as_defined result self.new.standing }
        ensures present { self.new.present ≡ self.old.present }
        ensures opened { self.new.opened ≡ self.old.opened }
        ensures err { OnErr result (self.new ≡ self.old) }
    {
        match self.keys.raise_floor(revision) {
            Ok(()) => {
                self.watchers.compacted(revision);
                Ok(())
            }
            Err(ReadRefusal::Compacted) => Err(Refusal::Compacted),
            Err(ReadRefusal::FutureRevision) => Err(Refusal::FutureRevision),
        }
    }

    /// Why a transaction would be refused now, other than for a failed allocation. It takes no memory.
    pub fn txn_refusal(&self, txn: &Txn) -> Option<Refusal>
        ensures { result ≡ refusal_of (transacted self.now.standing txn.now) }
    {
        find_txn_refusal(&self.keys, &self.leases, self.limit.count(), txn)
    }

    /// Whether a transaction would change something now: whether the branch that its compares pick puts a key, or
    /// deletes one that is present. It takes no memory.
    ///
    /// A transaction that the store takes makes one revision where this is so, and none where it is not. It may be so
    /// of one that is refused, too, which then changes nothing.
    pub fn would_change(&self, txn: &Txn) -> bool
        ensures branch { result ≡ would_change self.now.standing.history txn.now }
        ensures revision { IfOk (transacted self.now.standing txn.now) (λ step. now step.next.history ≡ now self.now.standing.history + (if result then 1 else 0)) }
    {
        would_change(&self.keys, txn)
    }
}

impl Store {
    /// A copy of the store: its keys at every revision, its leases, its moment, its watchers and its limit of operations.
    ///
    /// It takes a step for each revision, lease and watcher. A failed allocation is its only refusal.
    pub fn copy(&self) -> Result<Store, AllocError>
        ensures { IfOk result (λ copy. copy ≡ self.now) }
    {
        let watchers = self.watchers.copy()?;
        let Ok(leases) = self.leases.copy() else {
            drop(watchers);
            return Err(AllocError);
        };
        let Ok(keys) = self.keys.copy() else {
            drop(leases);
            drop(watchers);
            return Err(AllocError);
        };
        Ok(Store {
            keys,
            leases,
            moment: self.moment,
            watchers,
            limit: self.limit,
            alloc: self.alloc,
        })
    }
}
