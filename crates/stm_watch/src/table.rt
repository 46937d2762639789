//! The places of watchers, with what finds those that a change concerns.
ghost use Rattle.std.specs.Prelude.{◌≡◌, ◌++◌, [], ◌∷◌, None, Some, IfOk, IfSome, OnOk, OnErr, IsSome, is_some, length, map, option_map, slice_index_or, slice_set};
ghost use Rattle.std.specs.List.{list_any};
ghost use Rattle.stm_keys.specs.Events.{change_of_event};
ghost use Rattle.stm_watch.specs.Calls.{IsNextReady};
ghost use Rattle.stm_watch.specs.Slots.{IsFollowed, PlacePolls, IsPlaceOf};
ghost use Rattle.stm_watch.specs.Touch.{touch};

use crate::groups::Groups;
use crate::index::Index;
use crate::slots::Slots;
use crate::touch::touch_all;
use crate::watched::Watcher;
use crate::watchers::Batch;
use std::alloc::{AllocError, Global};
use std::marker::Model;
use stm_keys::{Event, Keys};

/// Watchers at their places, the lists on which they stand, and the pages on which they are found.
///
/// Contracts see what stands at each place: nothing where a watcher was cancelled.
pub(crate) struct Table {
    slots: Slots,
    index: Index,
    groups: Groups,
}

impl Drop for Table {
    fn drop(self) {
        let Table {
            slots: _,
            index: _,
            groups: _,
        } = self;
    }
}

impl Model for Table {
    ghost use Rattle.std.specs.Prelude.{List, Option};
    ghost use Rattle.stm_watch.specs.declared.watched.Watcher.{Watcher as Kept};

    ghost Value = { List (Option Kept) };

    ghost use Rattle.stm_watch.specs.Pages.{AreFound};

    ghost view = { λ s. s.slots };

    ghost invariant = { λ s. AreFound s.index s.groups s.slots };
}

impl Table {
    /// No places.
    pub(crate) fn new(alloc: Global) -> Result<Table, AllocError>
        ensures { IfOk result (λ table. table ≡ []) }
    {
        Ok(Table {
            slots: Slots::new(alloc),
            index: Index::new(alloc)?,
            groups: Groups::new(alloc),
        })
    }

    /// The number of places.
    pub(crate) fn len(&self) -> usize
        ensures { result ≡ length self.now }
    {
        self.slots.len()
    }

    /// Whether a watcher stands at one of the places.
    pub(crate) fn has_any(&self) -> bool
        ensures { result ≡ list_any is_some self.now }
    {
        self.slots.has_any()
    }

    /// The place of the watcher with a number, where there is one.
    pub(crate) fn find(&self, id: u64) -> Option<usize>
        ensures { IsPlaceOf id self.now result }
    {
        if id == 0 {
            return None;
        }
        let place = (id - 1) as usize;
        if self.slots.has(place) {
            Some(place)
        } else {
            None
        }
    }

    /// The watcher at a place.
    pub(crate) fn watcher(&self, place: usize) -> &Watcher
        requires { IsSome (slice_index_or self.now place None) }
        ensures { slice_index_or self.now place None ≡ Some result.now }
    {
        self.slots.watcher(place)
    }

    /// Puts a watcher at the next place. A failed allocation leaves the places as they were.
    pub(crate) fn place(&mut self, watcher: Watcher) -> Result<(), AllocError>
        ensures ok { OnOk result (self.new ≡ self.old ++ Some watcher ∷ []) }
        ensures err { OnErr result (self.new ≡ self.old) }
    {
        self.index.make_room()?;
        let list = self.index.list_for(&watcher);
        // The entry is for a watcher that has room.
        self.slots.reserve()?;
        self.groups.add(&watcher.watched, self.slots.len())?;
        self.slots.push(watcher)?;
        self.index.push(list);
        Ok(())
    }

    /// Takes a watcher out. It takes no memory.
    pub(crate) fn remove(&mut self, place: usize)
        requires { IsSome (slice_index_or self.old place None) }
        ensures { self.new ≡ slice_set self.old place None }
    {
        self.groups
            .remove(&self.slots.watcher(place).watched, place);
        self.index.remove(place);
        self.slots.remove(place);
    }

    /// Notes a new revision with these events. It takes no memory.
    pub(crate) fn touched(&mut self, revision: u64, events: &[Event])
        ensures { self.new ≡ map (option_map (touch revision (map change_of_event events.now))) self.old }
    {
        touch_all(
            &mut self.slots,
            &mut self.index,
            &mut self.groups,
            revision,
            events,
        );
    }

    /// The number of a watcher that is ready, `None` where none is. It takes no memory.
    pub(crate) fn next_ready(&self) -> Option<u64>
        ensures { IsNextReady self.now result }
    {
        self.index.next_ready()
    }

    /// A poll of the watcher that stands at a place. A refusal leaves it as it was.
    pub(crate) fn poll(&mut self, place: usize, keys: &Keys, most: u64) -> Result<Batch, AllocError>
        requires there { IsSome (slice_index_or self.old place None) }
        requires stands { IfSome (slice_index_or self.old place None) (IsFollowed keys.now.history) }
        ensures { PlacePolls keys.now.history most place self.old result self.new }
    {
        let batch = self.slots.poll(place, keys, most)?;
        let watcher = self.slots.watcher(place);
        let list = self.index.list_for(watcher);
        self.index.move_to(place, list);
        self.groups.wake(&watcher.watched, place);
        Ok(batch)
    }
}

impl Table {
    /// A copy, which finds the same watchers at the same places.
    pub(crate) fn copy(&self) -> Result<Table, AllocError>
        ensures { IfOk result (λ copy. copy ≡ self.now) }
    {
        let index = self.index.copy()?;
        let groups = self.groups.copy()?;
        let slots = self.slots.copy()?;
        Ok(Table {
            slots,
            index,
            groups,
        })
    }
}
