//! The watchers, and what callers do with them.
ghost use Rattle.std.specs.Prelude.{◌≡◌, ◌+◌, ◌-◌, ◌≤◌, ◌↔◌, ◌∷◌, ◌++◌, [], length, map, slice_index_or, Some, None, IfOk, IfSome, OnOk, OnErr, IsOk, IsSome, is_some};
ghost use Rattle.std.specs.List.{list_any};
ghost use Rattle.stm_history.specs.Cut.{cut};
ghost use Rattle.stm_history.specs.History.{History, now, add_revision};
ghost use Rattle.stm_keys.specs.Events.{change_of_event};
ghost use Rattle.stm_watch.specs.Pending.{watching_from};
ghost use Rattle.stm_watch.specs.Places.{is_lost, no_watchers, watching_of, watchings};
ghost use Rattle.stm_watch.specs.Slots.{awaiting};
ghost use Rattle.stm_watch.specs.Calls.{watch, poll, cancelled, compacted, view_refused, after_refused, WatchReturns, PollReturns, watcher_at, watches_range, Stands, StandFor, IsNextReady, IsNextPending};

use crate::pending_revision::next_number;
use crate::refusal::{NoWatcher, PollRefusal, WatchRefusal};
use crate::table::Table;
use crate::watched::{Watched, Watcher};
use std::alloc::{AllocError, Global};
use std::marker::Model;
use stm_keys::{Event, Keys, Sequence, Text};

/// What a poll gives.
#[derive(Debug, Drop)]
pub struct Batch {
    /// The events, by revision, those of one revision in the order of operations. No revision is parted.
    pub events: Sequence<Event>,
    /// The watcher has been notified of everything that it watches from its start on up to this revision.
    pub upto: u64,
}

/// The watchers of a store.
///
/// Contracts see the floor of the store, and the watchers by number, 1 first, each with the first revision of which events of it are
/// pending, if there is one; nothing stands where one was cancelled. One is lost where that revision is below the floor. They stand for a
/// history where each that is not lost has the one of that history.
pub struct Watchers {
    table: Table,
    floor: u64,
    alloc: Global,
}

impl Drop for Watchers {
    fn drop(self) {
        let Watchers {
            table: _,
            floor: _,
            alloc: _,
        } = self;
    }
}

/// A watcher that was notified up to a revision, and is ready where events of later ones are there.
fn waiting(watched: Watched, seen: u64, keys: &Keys) -> Watcher
    ensures { result ≡ awaiting keys.now.history watched seen }
{
    let first = next_number(keys, &watched, seen);
    Watcher {
        watched,
        seen,
        first,
    }
}

impl Model for Watchers {
    ghost use Rattle.stm_watch.specs.Places.{WatchersView};

    ghost Value = { WatchersView };

    ghost view = { λ s. record { floor = s.floor; places = s.table } };
}

impl Watchers {
    ghost use Rattle.stm_watch.specs.declared.watched.Watched.TheVariants.{Key, Range};

    /// No watchers.
    pub fn new(alloc: Global) -> Result<Watchers, AllocError>
        ensures { IfOk result (λ watchers. watchers ≡ no_watchers) }
    {
        Ok(Watchers {
            table: Table::new(alloc)?,
            floor: 0,
            alloc,
        })
    }

    /// A new watcher. It sees what happens from a revision on, or with 0 what happens next. Below the floor that revision is the first
    /// of those of which events are pending, since nobody can say any more whether they are.
    fn started(&self, watched: Watched, from: u64, keys: &Keys) -> Watcher
        ensures watching { watching_of self.now.floor result ≡ watching_from keys.now.history self.now.floor watched from }
        ensures stands { Stands keys.now.history self.now.floor (Some result) }
    {
        if from == 0 {
            return waiting(watched, keys.revision(), keys);
        }
        if from < self.floor {
            return Watcher {
                watched,
                seen: from - 1,
                first: Some(from),
            };
        }
        waiting(watched, from - 1, keys)
    }

    /// Adds a watcher, and gives its number.
    fn add(&mut self, watched: Watched, from: u64, keys: &Keys) -> Result<u64, AllocError>
        requires { StandFor keys.now.history self.old }
        ensures ok { IfOk result (λ id. (id ≡ length self.old.places + 1)
            × (watchings self.new ≡ watchings self.old ++ Some (watching_from keys.now.history self.old.floor watched from) ∷ [])) }
        ensures stand { StandFor keys.now.history self.new }
        ensures floor { self.new.floor ≡ self.old.floor }
        ensures err { OnErr result (self.new ≡ self.old) }
    {
        let watcher = self.started(watched, from, keys);
        self.table.place(watcher)?;
        Ok(self.table.len() as u64)
    }

    /// Watches a key from a revision on, 0 for the next one, and gives the watcher's number: 1, 2, 3, .., which is
    /// never used again. A start above the counter waits for that revision, and one below the floor leaves the watcher
    /// lost.
    ///
    /// The watchers stand for the history of these keys, and do so after the call. Their floor is that of the keys: the store was told
    /// of each compaction (`compacted`), or a watcher from below the floor would pass over what was dropped. A refusal changes nothing.
    pub fn watch_key(&mut self, key: &str, from: u64, keys: &Keys) -> Result<u64, WatchRefusal>
        requires stand { StandFor keys.now.history self.old }
        requires floor { self.old.floor ≡ keys.now.floor }
        ensures answer { WatchReturns (watch keys.now.history self.old.floor (Key key.now) from (watchings self.old)) result (watchings self.new) }
        ensures stand { StandFor keys.now.history self.new }
        ensures floor { self.new.floor ≡ self.old.floor }
        ensures err { OnErr result (self.new ≡ self.old) }
    {
        if key.is_empty() {
            return Err(WatchRefusal::EmptyKey);
        }
        let key = Text::copy_of(self.alloc, key)?;
        let id = self.add(Watched::Key(key), from, keys)?;
        Ok(id)
    }

    /// Watches the keys from `first` on that are below `end`, by bytes, as `watch_key` watches one, with its conditions. An `end` that is
    /// not above `first` leaves none.
    pub fn watch_range(
        &mut self,
        first: &str,
        end: &str,
        from: u64,
        keys: &Keys,
    ) -> Result<u64, WatchRefusal>
        requires stand { StandFor keys.now.history self.old }
        requires floor { self.old.floor ≡ keys.now.floor }
        ensures answer { WatchReturns (watch keys.now.history self.old.floor (Range first.now end.now) from (watchings self.old)) result (watchings self.new) }
        ensures stand { StandFor keys.now.history self.new }
        ensures floor { self.new.floor ≡ self.old.floor }
        ensures err { OnErr result (self.new ≡ self.old) }
    {
        if first.is_empty() {
            return Err(WatchRefusal::EmptyKey);
        }
        let first = Text::copy_of(self.alloc, first)?;
        let end = Text::copy_of(self.alloc, end)?;
        let id = self.add(Watched::Range { first, end }, from, keys)?;
        Ok(id)
    }

    /// Cancels a watcher, also one that is lost. It takes no memory. `NoWatcher` is answered where there is none with this number, or it
    /// was cancelled, and changes nothing.
    pub fn cancel(&mut self, id: u64) -> Result<(), NoWatcher>
        ensures found { IsOk result ↔ IsSome (watcher_at id (watchings self.old)) }
        ensures ok { OnOk result (watchings self.new ≡ cancelled id (watchings self.old)) }
        ensures stand { (h : History) → StandFor h self.old → StandFor h self.new }
        ensures floor { self.new.floor ≡ self.old.floor }
        ensures err { OnErr result (self.new ≡ self.old) }
    {
        let Some(place) = self.table.find(id) else {
            return Err(NoWatcher);
        };
        self.table.remove(place);
        Ok(())
    }

    /// Notes that the store has a new revision with these events, which is its counter now. It takes no memory.
    ///
    /// Watchers that stood for the history before stand for it with the revision that shows these events.
    pub fn touched(&mut self, revision: u64, events: &[Event])
        requires { self.old.floor ≤ revision }
        ensures same { watchings self.new ≡ watchings self.old }
        ensures stand { (h : History) → StandFor h self.old → revision ≡ now h + 1 → StandFor (add_revision h (map change_of_event events.now)) self.new }
        ensures floor { self.new.floor ≡ self.old.floor }
    {
        self.table.touched(revision, events);
    }

    /// Notes that the store was compacted at a revision, which is its floor from now on. A watcher for which events of revisions below it
    /// are pending is lost, and the others lose nothing. It takes no memory, and no step for a watcher.
    ///
    /// Watchers that stood for the history before stand for it with and without the revisions below the floor.
    pub fn compacted(&mut self, revision: u64)
        requires { self.old.floor ≤ revision }
        ensures watchings { (h : History) → StandFor h self.old → watchings self.new ≡ compacted h revision (watchings self.old) }
        ensures stand { (h : History) → StandFor h self.old → StandFor h self.new }
        ensures cut { (h : History) → StandFor h self.old → revision ≤ now h → StandFor (cut (revision - 1) h) self.new }
        ensures floor { self.new.floor ≡ revision }
    {
        self.floor = revision;
    }

    /// A watcher that is ready, `None` where none is. It takes no memory.
    ///
    /// In a history that the watchers stand for, events are pending for it or it is lost, and neither is so of any
    /// where none is ready.
    pub fn next_ready(&self) -> Option<u64>
        ensures ready { IsNextReady self.now.places result }
        ensures pending { (h : History) → StandFor h self.now → IsNextPending h (watchings self.now) result }
    {
        self.table.next_ready()
    }

    /// Whether there is a watcher, one that was not cancelled. It takes no memory.
    pub fn has_any(&self) -> bool
        ensures { result ≡ list_any is_some self.now.places }
    {
        self.table.has_any()
    }

    /// How many watchers there were, those that were cancelled among them. It takes no memory.
    pub fn count(&self) -> usize
        ensures { result ≡ length self.now.places }
    {
        self.table.len()
    }

    /// Whether there is a watcher with a number, and it is of a range.
    pub fn watches_range(&self, id: u64) -> bool
        ensures { result ≡ watches_range id self.now.places }
    {
        match self.table.find(id) {
            Some(place) => self.table.watcher(place).watched.is_range(),
            None => false,
        }
    }

    /// Whether the watcher at a place is lost.
    fn is_lost(&self, place: usize) -> bool
        requires { IsSome (slice_index_or self.now.places place None) }
        ensures { IfSome (slice_index_or self.now.places place None) (λ w. result ≡ is_lost self.now.floor w.first) }
    {
        self.table.watcher(place).is_lost(self.floor)
    }

    /// Gives a watcher the pending events of at most `most` revisions, and whole revisions only.
    ///
    /// The watchers stand for the history of these keys, with their floor, and do so after the call. It is refused for the first of
    /// these that holds: `NoWatcher` where there is none with this number, or it was cancelled, `Compacted` where it is
    /// lost, which cancels it, and `OutOfMemory`. Otherwise a refusal changes nothing, so that a poll in which an allocation failed
    /// gives the same batch later.
    pub fn poll(&mut self, id: u64, keys: &Keys, most: u64) -> Result<Batch, PollRefusal>
        requires stand { StandFor keys.now.history self.old }
        requires floor { self.old.floor ≡ keys.now.floor }
        ensures answer { PollReturns (poll keys.now.history id most (watchings self.old)) result (watchings self.new) }
        ensures stand { StandFor keys.now.history self.new }
        ensures floor { self.new.floor ≡ self.old.floor }
        ensures err { OnErr result (self.new ≡ view_refused id self.old) }
        ensures refused { OnErr result (watchings self.new ≡ after_refused id (watchings self.old)) }
    {
        let Some(place) = self.table.find(id) else {
            return Err(PollRefusal::NoWatcher);
        };
        if self.is_lost(place) {
            self.table.remove(place);
            return Err(PollRefusal::Compacted);
        }
        let batch = self.table.poll(place, keys, most)?;
        Ok(batch)
    }
}

impl Watchers {
    /// A copy of the watchers: they keep their numbers, the same ones are ready, and the same ones are lost.
    ///
    /// A failed allocation is its only refusal.
    pub fn copy(&self) -> Result<Watchers, AllocError>
        ensures { IfOk result (λ copy. copy ≡ self.now) }
    {
        let table = self.table.copy()?;
        Ok(Watchers {
            table,
            floor: self.floor,
            alloc: self.alloc,
        })
    }
}
