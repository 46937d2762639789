//! The calls of a store about its watchers.
ghost use Rattle.std.specs.Prelude.{◌≡◌, IfOk, OnErr, is_some, length};
ghost use Rattle.std.specs.List.{list_any};
ghost use Rattle.stm_txn.specs.WatchReported.{watch_reported, poll_reported};

use crate::store::Store;
use stm_outcome::Refusal;
use stm_watch::{Batch, PollRefusal, WatchRefusal};

/// What a watch answers.
fn reported_watch(watched: Result<u64, WatchRefusal>) -> Result<u64, Refusal>
    ensures { result ≡ watch_reported watched }
{
    match watched {
        Ok(id) => Ok(id),
        Err(WatchRefusal::EmptyKey) => Err(Refusal::EmptyKey),
        Err(WatchRefusal::OutOfMemory) => Err(Refusal::OutOfMemory),
    }
}

/// What a poll answers.
fn reported_poll(polled: Result<Batch, PollRefusal>) -> Result<Batch, Refusal>
    ensures { result ≡ poll_reported polled }
{
    match polled {
        Ok(batch) => Ok(batch),
        Err(PollRefusal::NoWatcher) => Err(Refusal::NoWatcher),
        Err(PollRefusal::Compacted) => Err(Refusal::Compacted),
        Err(PollRefusal::OutOfMemory) => Err(Refusal::OutOfMemory),
    }
}

impl Store {
    ghost use Rattle.stm_outcome.specs.Numbers.{EventsFit};
    ghost use Rattle.stm_txn.specs.Standing.{Returns, as_defined};
    ghost use Rattle.stm_txn.specs.Standing.{watched, polled, poll_refused, cancelled};
    ghost use Rattle.stm_watch.specs.declared.watched.Watched.TheVariants.{Key, Range};
    ghost use Rattle.stm_watch.specs.Calls.{IsNextPending};

    /// Watches a key from a revision on, 0 for the next one, and gives the watcher's number: 1, 2, 3, .., which is
    /// never used again. A start above the counter waits for that revision, and one below the floor leaves the watcher
    /// lost.
    ///
    /// It is refused for the first of `EmptyKey` and `OutOfMemory` that holds, and then changes nothing, and takes no
    /// number. (etcd's API reference, "Watch": `key` and `start_revision` of a `WatchCreateRequest`.)
    pub fn watch_key(&mut self, key: &str, from: u64) -> Result<u64, Refusal>
        ensures step { Returns (watched self.old.standing (Key key.now) from) result self.new.standing }
        ensures present { self.new.present ≡ self.old.present }
        ensures opened { self.new.opened ≡ self.old.opened }
        ensures err { OnErr result (self.new ≡ self.old) }
    {
        let watched = self.watchers.watch_key(key, from, &self.keys);
        reported_watch(watched)
    }

    /// Watches a range, without a preparation of its search.
    fn add_range(&mut self, first: &str, end: &str, from: u64) -> Result<u64, Refusal>
        ensures step { Returns (watched self.old.standing (Range first.now end.now) from) result self.new.standing }
        ensures present { self.new.present ≡ self.old.present }
        ensures opened { self.new.opened ≡ self.old.opened }
        ensures err { OnErr result (self.new ≡ self.old) }
    {
        let watched = self.watchers.watch_range(first, end, from, &self.keys);
        reported_watch(watched)
    }

    /// Prepares the search of the next revision of a range, if one comes.
    fn prepare_search(&mut self, comes: bool)
        ensures { self.new ≡ self.old }
    {
        if comes {
            self.keys.sum_up();
        }
    }

    /// Watches the keys from `first` on that are below `end`, by bytes, as `watch_key` watches one. An `end` that is
    /// not above `first` leaves none. `EmptyKey` is answered where `first` is empty.
    pub fn watch_range(&mut self, first: &str, end: &str, from: u64) -> Result<u64, Refusal>
        ensures step { Returns (watched self.old.standing (Range first.now end.now) from) result self.new.standing }
        ensures present { self.new.present ≡ self.old.present }
        ensures opened { self.new.opened ≡ self.old.opened }
        ensures err { OnErr result (self.new ≡ self.old) }
    {
        let begins_in_the_past = from > 0 && from <= self.keys.revision();
        self.prepare_search(begins_in_the_past);
        self.add_range(first, end, from)
    }

    /// Cancels a watcher. It takes no memory. `NoWatcher` is answered where there is none with this number, or it was
    /// cancelled, and changes nothing.
    pub fn cancel(&mut self, id: u64) -> Result<(), Refusal>
        ensures step { cancelled self.old.standing id ≡ as_defined result self.new.standing }
        ensures present { self.new.present ≡ self.old.present }
        ensures opened { self.new.opened ≡ self.old.opened }
        ensures err { OnErr result (self.new ≡ self.old) }
    {
        match self.watchers.cancel(id) {
            Ok(()) => Ok(()),
            Err(_) => Err(Refusal::NoWatcher),
        }
    }

    /// A watcher for which events are pending, or one that is lost, `None` exactly where there is none. It takes no
    /// memory.
    pub fn next_ready(&self) -> Option<u64>
        ensures { IsNextPending self.now.standing.history self.now.standing.watchers result }
    {
        self.watchers.next_ready()
    }

    /// Whether there is a watcher, one that was not cancelled. It takes no memory.
    pub fn has_watchers(&self) -> bool
        ensures { result ≡ list_any is_some self.now.standing.watchers }
    {
        self.watchers.has_any()
    }

    /// How many watchers there were, those that were cancelled among them. It takes no memory.
    pub fn watcher_count(&self) -> usize
        ensures { result ≡ length self.now.standing.watchers }
    {
        self.watchers.count()
    }

    /// A poll, without the bounds of its numbers.
    fn take_batch(&mut self, id: u64, most: u64) -> Result<Batch, Refusal>
        ensures step { Returns (polled self.old.standing id most) result self.new.standing }
        ensures present { self.new.present ≡ self.old.present }
        ensures refused { OnErr result (self.new.standing ≡ poll_refused self.old.standing id) }
        ensures opened { self.new.opened ≡ self.old.opened }
    {
        let polled = self.watchers.poll(id, &self.keys, most);
        reported_poll(polled)
    }

    /// A poll, without a preparation of its search.
    fn poll_prepared(&mut self, id: u64, most: u64) -> Result<Batch, Refusal>
        ensures step { Returns (polled self.old.standing id most) result self.new.standing }
        ensures present { self.new.present ≡ self.old.present }
        ensures numbers { IfOk result (λ batch. EventsFit batch.events) }
        ensures refused { OnErr result (self.new.standing ≡ poll_refused self.old.standing id) }
        ensures opened { self.new.opened ≡ self.old.opened }
    {
        let _counter = self.keys.revision();
        let batch = self.take_batch(id, most)?;
        Ok(batch)
    }

    /// Gives a watcher the pending events of at most `most` revisions, and whole revisions only, and notes how far it
    /// has been notified. The numbers of the events are at most `HIGHEST_NUMBER`.
    ///
    /// It is refused for the first of these that holds: `NoWatcher`, where there is none with this number or it was
    /// cancelled, `Compacted`, where it is lost, and `OutOfMemory`. A lost one is cancelled then, and otherwise a refusal
    /// changes nothing: a poll in which an allocation failed gives the same batch later. (etcd's API reference, "Watch":
    /// `compact_revision` of a `WatchResponse`.)
    pub fn poll(&mut self, id: u64, most: u64) -> Result<Batch, Refusal>
        ensures step { Returns (polled self.old.standing id most) result self.new.standing }
        ensures present { self.new.present ≡ self.old.present }
        ensures numbers { IfOk result (λ batch. EventsFit batch.events) }
        ensures refused { OnErr result (self.new.standing ≡ poll_refused self.old.standing id) }
        ensures opened { self.new.opened ≡ self.old.opened }
    {
        let is_of_range = self.watchers.watches_range(id);
        self.prepare_search(is_of_range);
        self.poll_prepared(id, most)
    }
}
