//! Watchers of ranges, or of one key, on shelves of pages.
ghost use Rattle.std.specs.Prelude.{◌≡◌, ◌≢◌, ◌≤◌, ◌<◌, List, Option, true, OnOk, IfOk};
ghost use Rattle.std.specs.Vec.{vec_len};
ghost use Rattle.stm_watch.specs.declared.page.RangeEntry.{RangeEntry as Entry};
ghost use Rattle.stm_watch.specs.declared.watched.Watcher.{Watcher as Kept};
ghost use Rattle.stm_watch.specs.Pages.{IsEntered, IsIn, KeepsAll};

use crate::page::RangeEntry;
use crate::shelf::Shelf;
use crate::slots::Slots;
use crate::watched::Watched;
use std::alloc::{AllocError, Global};
use stm_history::Text;

/// Finds those of some watchers that watch a key. They are named by their places, as in an `Index`.
///
/// Shelves stand in the order of the ranges' first keys, as the pages on each, and the entries on each page, do. No contract says so: the
/// order lets ranges that are near each other stand on one page, so that a key is in the bounds of few shelves and of few pages.
#[derive(Drop)]
pub(crate) struct Ranges {
    pub shelves: Vec<Shelf>,
}

impl Ranges {
    /// No watchers.
    pub(crate) fn new(alloc: Global) -> Ranges {
        Ranges {
            shelves: Vec::new(alloc),
        }
    }

    /// The shelf on which the entry with this first key and place stands or would stand: the last one that begins with
    /// it or before it, or else the first shelf.
    fn shelf_of(&self, first: &Text, place: usize) -> usize
        ensures { 0 < vec_len self.now.shelves → result < vec_len self.now.shelves }
    {
        let count = self
            .shelves
            .as_slice()
            .partition_point(|shelf| shelf.begins_by(first, place));
        count.saturating_sub(1)
    }

    /// Splits a shelf in two.
    fn split(&mut self, at: usize) -> Result<(), AllocError>
        requires { at < vec_len self.old.shelves }
        ensures kept { KeepsAll self.old self.new }
        ensures more { vec_len self.old.shelves ≤ vec_len self.new.shelves }
    {
        self.shelves.reserve(1)?;
        let upper = self.shelves[at].split()?;
        let Ok(()) = self.shelves.insert(at + 1, upper) else {
            unreachable!()
        };
        Ok(())
    }

    /// Makes sure that there is a shelf.
    fn make_first(&mut self) -> Result<(), AllocError>
        ensures kept { KeepsAll self.old self.new }
        ensures ok { OnOk result (0 < vec_len self.new.shelves) }
    {
        if self.shelves.is_empty() {
            let alloc = *self.shelves.allocator();
            self.shelves.reserve_exact(1)?;
            self.shelves.push_reserved(Shelf::new(alloc));
        }
        Ok(())
    }

    /// A shelf for an entry with this first key and place that is not full. A failed allocation leaves no entry out.
    fn make_room(&mut self, first: &Text, place: usize) -> Result<usize, AllocError>
        requires { 0 < vec_len self.old.shelves }
        ensures kept { KeepsAll self.old self.new }
        ensures ok { IfOk result (λ at. at < vec_len self.new.shelves) }
    {
        let at = self.shelf_of(first, place);
        if !self.shelves[at].is_full() {
            return Ok(at);
        }
        self.split(at)?;
        Ok(self.shelf_of(first, place))
    }

    /// Adds an entry. A failed allocation leaves none out.
    pub(crate) fn add(&mut self, entry: RangeEntry) -> Result<(), AllocError>
        ensures kept { KeepsAll self.old self.new }
        ensures ok { OnOk result ((ws : List (Option Kept)) → IsIn ws entry self.new) }
    {
        self.make_first()?;
        let at = self.make_room(&entry.first, entry.place)?;
        self.shelves[at].add(entry)?;
        Ok(())
    }

    /// Takes an entry off a shelf, and the shelf with the last one.
    fn remove_from(&mut self, at: usize, first: &Text, place: usize)
        requires { at < vec_len self.old.shelves }
        ensures { (ws : List (Option Kept)) (e : Entry) → e.place ≢ place → IsIn ws e self.old → IsIn ws e self.new }
    {
        self.shelves[at].remove(first, place);
        if self.shelves[at].is_empty() {
            drop(self.shelves.remove(at));
        }
    }

    /// Takes the entry with this first key and place out. It takes no memory.
    pub(crate) fn remove(&mut self, first: &Text, place: usize)
        ensures { (ws : List (Option Kept)) (e : Entry) → e.place ≢ place → IsIn ws e self.old → IsIn ws e self.new }
    {
        if self.shelves.is_empty() {
            return;
        }
        let at = self.shelf_of(first, place);
        self.remove_from(at, first, place);
    }

    /// Has it found out anew whom a change may concern on the page on which this watcher stands, where it is found there.
    fn wake_on_shelf(&mut self, watched: &Watched, place: usize) -> bool
        ensures kept { KeepsAll self.old self.new }
        ensures woken { result ≡ true → (ws : List (Option Kept)) → IsEntered watched.now place (λ e. IsIn ws e self.new) }
    {
        if self.shelves.is_empty() {
            return false;
        }
        let at = self.shelf_of(watched.first_key(), place);
        self.shelves[at].wake_on_page(watched, place)
    }

    /// Has it found out anew for each page whom a change may concern.
    fn wake_each(&mut self)
        ensures { (old new : List (Option Kept)) (e : Entry) → IsIn old e self.old → IsIn new e self.new }
    {
        for index in 0..self.shelves.len() {
            self.shelves[index].wake_each();
        }
    }

    /// Notes that the watcher at a place may be idle from now on. It takes no memory. As no contract says that shelves and pages stand in order, its
    /// entry may not be found where it should stand; then it is found out anew for all pages.
    pub(crate) fn wake(&mut self, watched: &Watched, place: usize)
        ensures kept { KeepsAll self.old self.new }
        ensures woken { (old new : List (Option Kept)) → IsEntered watched.now place (λ e. IsIn old e self.old)
            → IsEntered watched.now place (λ e. IsIn new e self.new) }
    {
        if !self.wake_on_shelf(watched, place) {
            self.wake_each();
        }
    }

    /// Forgets whom a change may concern, on each page where one of this key may concern anybody.
    pub(crate) fn unsettle(&mut self, key: &Text)
        ensures { KeepsAll self.old self.new }
    {
        for at in 0..self.shelves.len() {
            self.shelves[at].unsettle(key);
        }
    }

    /// Finds out whom a change at a revision may concern, on each shelf of which that is not known. Where an allocation fails everything stays as it
    /// was.
    pub(crate) fn settle(&mut self, slots: &Slots, revision: u64)
        ensures { (e : Entry) → IsIn slots.now e self.old → IsIn slots.now e self.new }
    {
        for at in 0..self.shelves.len() {
            self.shelves[at].settle(slots, revision);
        }
    }
}

impl Ranges {
    /// A copy, on which no entry is missing.
    fn copy(&self) -> Result<Ranges, AllocError>
        ensures { IfOk result (λ copy. KeepsAll self.now copy) }
    {
        let shelves = self.shelves.clone()?;
        Ok(Ranges { shelves })
    }
}

/// On the copy no entry is missing.
impl Clone for Ranges {
    ghost is_clone = { λ ranges copy. KeepsAll ranges copy };

    fn clone(&self) -> Result<Ranges, AllocError> {
        self.copy()
    }
}
