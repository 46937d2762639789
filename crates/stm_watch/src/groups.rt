//! All watchers, in groups: those of ranges, and those of each key.
ghost use Rattle.std.specs.Prelude.{◌≡◌, ◌≢◌, ◌<◌, List, Option, Some, None, OnOk, IfOk};
ghost use Rattle.std.specs.Vec.{vec_len};
ghost use Rattle.indexmap.specs.IndexMap.{get_by_text};
ghost use Rattle.stm_watch.specs.declared.page.RangeEntry.{RangeEntry as Entry};
ghost use Rattle.stm_watch.specs.declared.watched.Watcher.{Watcher as Kept};
ghost use Rattle.stm_watch.specs.Pages.{HasIn, IsGrouped, GroupsKeep, group_of};

use crate::copies::{copy_groups, copy_keys};
use crate::page::RangeEntry;
use crate::ranges::Ranges;
use crate::slots::Slots;
use crate::watched::Watched;
use indexmap::IndexMap;
use std::alloc::{AllocError, Global};
use stm_history::Text;

/// The group of the watchers of ranges.
pub(crate) const OF_RANGES: usize = 0;

/// Finds the watchers that a change of a key may concern: those in the group of the key, and those of ranges.
///
/// A key keeps its group where no watcher is in it, for those that will watch it again.
#[derive(Drop)]
pub(crate) struct Groups {
    /// The group of the watchers of each key.
    pub keys: IndexMap<String, usize>,
    pub groups: Vec<Ranges>,
}

impl Groups {
    /// No watchers.
    pub(crate) fn new(alloc: Global) -> Groups {
        Groups {
            keys: IndexMap::new(alloc),
            groups: Vec::new(alloc),
        }
    }

    /// The group of a key, if it has one. An empty table is not asked, so that its key need not be hashed.
    pub(crate) fn of_key(&self, key: &Text) -> Option<usize>
        ensures { result ≡ get_by_text self.now.keys key.now }
    {
        if self.keys.is_empty() {
            return None;
        }
        match self.keys.get(key.as_str()) {
            None => None,
            Some(group) => Some(*group),
        }
    }

    /// The group of the watchers that watch this, if there is one.
    fn of(&self, watched: &Watched) -> Option<usize>
        ensures { result ≡ group_of (get_by_text self.now.keys) watched.now }
    {
        match watched {
            Watched::Key(key) => self.of_key(key),
            Watched::Range { .. } => Some(OF_RANGES),
        }
    }

    /// Gives the key that is watched a group, where it has none.
    fn add_key(&mut self, watched: &Watched) -> Result<usize, AllocError>
        requires { group_of (get_by_text self.old.keys) watched.now ≡ None }
        ensures kept { GroupsKeep self.old self.new }
        ensures ok { IfOk result (λ group. group_of (get_by_text self.new.keys) watched.now ≡ Some group) }
    {
        let group = self.keys.len().saturating_add(1);
        let key = String::from_str(*self.groups.allocator(), watched.first_key().as_str())?;
        self.keys.reserve(1)?;
        match self.keys.insert(key, group) {
            Ok(_) => Ok(group),
            Err(_) => unreachable!(),
        }
    }

    /// The group of the watchers that watch this, which may be new.
    fn make_group(&mut self, watched: &Watched) -> Result<usize, AllocError>
        ensures kept { GroupsKeep self.old self.new }
        ensures ok { IfOk result (λ group. group_of (get_by_text self.new.keys) watched.now ≡ Some group) }
    {
        match self.of(watched) {
            Some(group) => Ok(group),
            None => self.add_key(watched),
        }
    }

    /// Makes the groups up to one.
    fn make_up_to(&mut self, group: usize) -> Result<(), AllocError>
        ensures keys { self.new.keys ≡ self.old.keys }
        ensures kept { GroupsKeep self.old self.new }
        ensures ok { OnOk result (group < vec_len self.new.groups) }
    {
        let alloc = *self.groups.allocator();
        'groups: while self.groups.len() <= group {
            self.groups.reserve(1)?;
            self.groups.push_reserved(Ranges::new(alloc));
        }
        Ok(())
    }

    /// Adds the watcher at a place. A failed allocation leaves no watcher out.
    pub(crate) fn add(&mut self, watched: &Watched, place: usize) -> Result<(), AllocError>
        ensures kept { GroupsKeep self.old self.new }
        ensures ok { OnOk result ((ws : List (Option Kept)) → IsGrouped self.new watched.now place ws) }
    {
        let group = self.make_group(watched)?;
        self.make_up_to(group)?;
        let entry = RangeEntry::of(*self.groups.allocator(), watched, place)?;
        self.groups[group].add(entry)?;
        Ok(())
    }

    /// Takes the watcher at a place out. It takes no memory.
    pub(crate) fn remove(&mut self, watched: &Watched, place: usize)
        ensures keys { self.new.keys ≡ self.old.keys }
        ensures kept { (ws : List (Option Kept)) (group : _) (e : Entry) → e.place ≢ place → HasIn ws self.old.groups.items group e
            → HasIn ws self.new.groups.items group e }
    {
        if let Some(group) = self.of(watched) {
            if group < self.groups.len() {
                self.groups[group].remove(watched.first_key(), place);
            }
        }
    }

    /// Notes that the watcher at a place may be idle from now on. It takes no memory.
    pub(crate) fn wake(&mut self, watched: &Watched, place: usize)
        ensures kept { GroupsKeep self.old self.new }
        ensures woken { (old new : List (Option Kept)) → IsGrouped self.old watched.now place old → IsGrouped self.new watched.now place new }
    {
        if let Some(group) = self.of(watched) {
            if group < self.groups.len() {
                self.groups[group].wake(watched, place);
            }
        }
    }

    /// Finds out whom in a group a change at a revision may concern, where that is not known. It takes no memory.
    pub(crate) fn settle(&mut self, group: Option<usize>, slots: &Slots, revision: u64)
        ensures keys { self.new.keys ≡ self.old.keys }
        ensures kept { (g : _) (e : Entry) → HasIn slots.now self.old.groups.items g e → HasIn slots.now self.new.groups.items g e }
    {
        if let Some(group) = group {
            if group < self.groups.len() {
                self.groups[group].settle(slots, revision);
            }
        }
    }
}

impl Groups {
    /// A copy, in which no watcher is missing.
    pub(crate) fn copy(&self) -> Result<Groups, AllocError>
        ensures { IfOk result (λ copy. GroupsKeep self.now copy) }
    {
        let keys = copy_keys(&self.keys)?;
        let groups = copy_groups(&self.groups)?;
        Ok(Groups { keys, groups })
    }
}
