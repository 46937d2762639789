//! A shelf: pages of watchers, and the bounds of those that a change may concern.
ghost use Rattle.std.specs.Prelude.{◌≡◌, ◌≢◌, ◌≤◌, ◌<◌, ◌⊎◌, List, Option, true, nat_eq, OnOk, OnErr, IfOk};
ghost use Rattle.std.specs.Vec.{vec_len};
ghost use Rattle.stm_watch.specs.declared.page.RangeEntry.{RangeEntry as Entry};
ghost use Rattle.stm_watch.specs.declared.watched.Watcher.{Watcher as Kept};
ghost use Rattle.stm_watch.specs.Pages.{HasEntry, IsEntered, IsShelved, Keeps, KeepsShelved};

use crate::page::{Page, RangeEntry, Reach, move_half};
use crate::slots::Slots;
use crate::watched::Watched;
use std::alloc::{AllocError, Global};
use stm_history::Text;

/// How many pages a shelf has at most. It is split before it gets one more.
const MOST_PAGES: usize = 64;

/// Pages of watchers that begin near each other, and whom of them a change may concern.
#[derive(Drop)]
pub(crate) struct Shelf {
    pub pages: Vec<Page>,
    pub reach: Reach,
}

impl Shelf {
    /// A shelf of these pages, of which nobody knows whom a change may concern.
    fn unsettled(pages: Vec<Page>) -> Shelf
        ensures until { result.reach.until ≡ 0 }
        ensures pages { result.pages.items ≡ pages.items }
    {
        Shelf {
            pages,
            reach: Reach::unknown(),
        }
    }

    /// No watchers.
    pub(crate) fn new(alloc: Global) -> Shelf {
        Shelf::unsettled(Vec::new(alloc))
    }

    /// Whether the shelf has no page.
    pub(crate) fn is_empty(&self) -> bool
        ensures { result ≡ nat_eq (vec_len self.now.pages) 0 }
    {
        self.pages.is_empty()
    }

    /// Whether the shelf has as many pages as it may have.
    pub(crate) fn is_full(&self) -> bool {
        self.pages.len() >= MOST_PAGES
    }

    /// Whether the shelf begins with the entry that has this first key and place, or with one that stands before it.
    pub(crate) fn begins_by(&self, first: &Text, place: usize) -> bool {
        match self.pages.as_slice().first() {
            None => false,
            Some(page) => page.begins_by(first, place),
        }
    }

    /// The page on which the entry with this first key and place stands or would stand: the last one that begins with
    /// it or before it, or else the first page.
    fn page_of(&self, first: &Text, place: usize) -> usize
        ensures { 0 < vec_len self.now.pages → result < vec_len self.now.pages }
    {
        let count = self
            .pages
            .as_slice()
            .partition_point(|page| page.begins_by(first, place));
        count.saturating_sub(1)
    }

    /// Splits a page in two.
    fn split_page(&mut self, at: usize) -> Result<(), AllocError>
        requires { at < vec_len self.old.pages }
        ensures kept { Keeps self.old.pages.items self.new.pages.items }
        ensures more { vec_len self.old.pages ≤ vec_len self.new.pages }
    {
        self.pages.reserve(1)?;
        let upper = self.pages[at].split()?;
        let Ok(()) = self.pages.insert(at + 1, upper) else {
            unreachable!()
        };
        Ok(())
    }

    /// A page for an entry with this first key and place that is not full. A failed allocation leaves no entry out.
    fn make_room(&mut self, first: &Text, place: usize) -> Result<usize, AllocError>
        requires { 0 < vec_len self.old.pages }
        ensures kept { Keeps self.old.pages.items self.new.pages.items }
        ensures ok { IfOk result (λ at. at < vec_len self.new.pages) }
    {
        let at = self.page_of(first, place);
        if !self.pages[at].is_full() {
            return Ok(at);
        }
        self.split_page(at)?;
        Ok(self.page_of(first, place))
    }

    /// Adds the first page.
    fn add_page(&mut self, entry: RangeEntry) -> Result<(), AllocError>
        ensures kept { Keeps self.old.pages.items self.new.pages.items }
        ensures ok { OnOk result ((ws : List (Option Kept)) → HasEntry ws self.new.pages.items entry) }
    {
        let page = Page::of(*self.pages.allocator(), entry)?;
        self.pages.reserve_exact(1)?;
        self.pages.push_reserved(page);
        Ok(())
    }

    /// Adds an entry to a page. A failed allocation leaves none out.
    fn enter(&mut self, entry: RangeEntry) -> Result<(), AllocError>
        ensures kept { Keeps self.old.pages.items self.new.pages.items }
        ensures ok { OnOk result ((ws : List (Option Kept)) → HasEntry ws self.new.pages.items entry) }
    {
        if self.pages.is_empty() {
            return self.add_page(entry);
        }
        let at = self.make_room(&entry.first, entry.place)?;
        self.pages[at].add(entry)?;
        Ok(())
    }

    /// Adds an entry. A failed allocation leaves none out.
    pub(crate) fn add(&mut self, entry: RangeEntry) -> Result<(), AllocError>
        ensures kept { KeepsShelved self.old self.new }
        ensures ok { OnOk result ((ws : List (Option Kept)) → IsShelved ws entry self.new) }
    {
        let entered = self.enter(entry);
        self.reach.until = 0;
        entered
    }

    /// Takes an entry off a page, and the page with the last one.
    fn remove_from(&mut self, at: usize, first: &Text, place: usize)
        requires { at < vec_len self.old.pages }
        ensures { (ws : List (Option Kept)) (e : Entry) → e.place ≢ place → HasEntry ws self.old.pages.items e → HasEntry ws self.new.pages.items e }
    {
        self.pages[at].remove(first, place);
        if self.pages[at].is_empty() {
            drop(self.pages.remove(at));
        }
    }

    /// Takes the entry with this first key and place out. It takes no memory.
    pub(crate) fn remove(&mut self, first: &Text, place: usize)
        ensures { (ws : List (Option Kept)) (e : Entry) → e.place ≢ place → IsShelved ws e self.old → IsShelved ws e self.new }
    {
        if self.pages.is_empty() {
            return;
        }
        let at = self.page_of(first, place);
        self.remove_from(at, first, place);
        self.reach.until = 0;
    }

    /// Has it found out anew whom a change may concern on the page on which this watcher stands, where it is found there.
    pub(crate) fn wake_on_page(&mut self, watched: &Watched, place: usize) -> bool
        ensures kept { KeepsShelved self.old self.new }
        ensures woken { result ≡ true → (ws : List (Option Kept)) → IsEntered watched.now place (λ e. IsShelved ws e self.new) }
    {
        if self.pages.is_empty() {
            return false;
        }
        let at = self.page_of(watched.first_key(), place);
        if !self.pages[at].has(watched, place) {
            return false;
        }
        self.pages[at].reach.until = 0;
        self.reach.until = 0;
        true
    }

    /// Has it found out anew for each page whom a change may concern.
    pub(crate) fn wake_each(&mut self)
        ensures { (old new : List (Option Kept)) (e : Entry) → IsShelved old e self.old → IsShelved new e self.new }
    {
        for index in 0..self.pages.len() {
            self.pages[index].reach.until = 0;
        }
        self.reach.until = 0;
    }

    /// Forgets whom a change may concern, on each page where one of this key may concern anybody.
    pub(crate) fn unsettle(&mut self, key: &Text)
        ensures { KeepsShelved self.old self.new }
    {
        if !self.reach.may_have(key) {
            return;
        }
        for at in 0..self.pages.len() {
            self.pages[at].unsettle(key);
        }
        self.reach.until = 0;
    }

    /// Finds out whom a change may concern, as it is known of each page.
    fn sum_up(&mut self)
        ensures { KeepsShelved self.old self.new }
    {
        if let Ok(reach) = Reach::of_pages(self.pages.as_slice()) {
            self.reach = reach;
        }
    }

    /// Finds out whom a change at a revision may concern, on each page of which that is not known. Where an allocation fails everything stays as it was.
    pub(crate) fn settle(&mut self, slots: &Slots, revision: u64)
        ensures { (e : Entry) → IsShelved slots.now e self.old → IsShelved slots.now e self.new }
    {
        if revision <= self.reach.until {
            return;
        }
        for at in 0..self.pages.len() {
            self.pages[at].settle(slots, revision);
        }
        self.sum_up();
    }
}

impl Shelf {
    /// Moves the upper half of the pages to a shelf of its own. Want of memory changes nothing.
    pub(crate) fn split(&mut self) -> Result<Shelf, AllocError>
        ensures ok { IfOk result (λ upper. (ws : List (Option Kept)) (e : Entry) → IsShelved ws e self.old → IsShelved ws e self.new ⊎ IsShelved ws e upper) }
        ensures err { OnErr result (self.new ≡ self.old) }
    {
        let mut pages = Vec::with_capacity(*self.pages.allocator(), self.pages.len())?;
        move_half(&mut self.pages, &mut pages);
        self.reach.until = 0;
        Ok(Shelf::unsettled(pages))
    }

    /// A copy, on which no entry is missing. What it reaches is found anew.
    fn copy(&self) -> Result<Shelf, AllocError>
        ensures { IfOk result (λ copy. KeepsShelved self.now copy) }
    {
        let pages = self.pages.clone()?;
        Ok(Shelf::unsettled(pages))
    }
}

/// On the copy no entry is missing.
impl Clone for Shelf {
    ghost is_clone = { λ shelf copy. KeepsShelved shelf copy };

    fn clone(&self) -> Result<Shelf, AllocError> {
        self.copy()
    }
}
