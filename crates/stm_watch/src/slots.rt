//! The places of watchers: watcher 1 stands first.
ghost use Rattle.std.specs.Prelude.{◌≡◌, ◌++◌, [], ◌∷◌, Some, None, OnOk, OnErr, IfOk, IfSome, IsSome, is_some, true, false, option_map, slice_set, slice_index_or, length};
ghost use Rattle.std.specs.List.{list_any};
ghost use Rattle.stm_watch.specs.declared.watched.Watcher.{Watcher as Kept};
ghost use Rattle.stm_watch.specs.Pages.{IsSeenAt};
ghost use Rattle.stm_watch.specs.Touch.{wants, touch_at};
ghost use Rattle.stm_watch.specs.Slots.{IsFollowed, SlotPolls, PlacePolls, made_ready};

use crate::copies::copy_watchers;
use crate::gather::{PolledBatch, gather};
use crate::watched::Watcher;
use crate::watchers::Batch;
use std::alloc::{AllocError, Global};
use std::marker::Model;
use stm_history::Text;
use stm_keys::Keys;

/// Whether an idle watcher that stands at a place wants to know of a change of a key at a new revision.
fn wants(slot: &Option<Watcher>, revision: u64, key: &Text) -> bool
    ensures { result ≡ wants revision key.now slot.now }
{
    match slot {
        None => false,
        Some(watcher) => watcher.first.is_none() && watcher.wants(revision, key),
    }
}

/// What the idle watcher at a place has seen, `None` where none is there.
fn idle_since(slot: &Option<Watcher>) -> Option<u64>
    ensures { (w : Kept) → slot.now ≡ Some w → w.first ≡ None → result ≡ Some w.seen }
{
    match slot {
        None => None,
        Some(watcher) => {
            if watcher.first.is_some() {
                None
            } else {
                Some(watcher.seen)
            }
        }
    }
}

/// Whether a watcher stands at one of these places.
fn has_watcher(places: &[Option<Watcher>]) -> bool
    ensures { result ≡ list_any is_some places.now }
{
    for slot in places {
        if slot.is_some() {
            return true;
        }
    }
    false
}

/// Makes what stands at a place ready from a revision on.
fn make_ready(slot: &mut Option<Watcher>, revision: u64)
    ensures { slot.new ≡ option_map (made_ready revision) slot.old }
{
    if let Some(watcher) = slot {
        watcher.first = Some(revision);
    }
}

/// Empties a place.
fn clear(slot: &mut Option<Watcher>)
    ensures { slot.new ≡ None }
{
    drop(slot.take());
}

/// A poll of the watcher that stands at a place. A refusal leaves it as it was.
pub(crate) fn poll_slot(
    alloc: Global,
    slot: &mut Option<Watcher>,
    keys: &Keys,
    most: u64,
) -> Result<Batch, AllocError>
    requires there { IsSome slot.old }
    requires stands { IfSome slot.old (IsFollowed keys.now.history) }
    ensures { SlotPolls keys.now.history most slot.old result slot.new }
{
    let Some(watcher) = slot else { unreachable!() };
    let PolledBatch { batch, next } = gather(alloc, keys, watcher, most)?;
    watcher.seen = batch.upto;
    watcher.first = next;
    Ok(batch)
}

/// Places of watchers.
///
/// Contracts see what stands at each place: nothing where a watcher was cancelled.
#[derive(Drop)]
pub(crate) struct Slots {
    watchers: Vec<Option<Watcher>>,
}

impl Model for Slots {
    ghost use Rattle.std.specs.Prelude.{List, Option};
    ghost use Rattle.stm_watch.specs.declared.watched.Watcher.{Watcher as Kept};

    ghost Value = { List (Option Kept) };

    ghost view = { λ s. s.watchers.items };
}

impl Slots {
    /// No places.
    pub(crate) fn new(alloc: Global) -> Slots
        ensures { result ≡ [] }
    {
        Slots {
            watchers: Vec::new(alloc),
        }
    }

    /// The number of places.
    pub(crate) fn len(&self) -> usize
        ensures { result ≡ length self.now }
    {
        self.watchers.len()
    }

    /// Whether a watcher stands at a place.
    pub(crate) fn has(&self, index: usize) -> bool
        ensures { result ≡ is_some (slice_index_or self.now index None) }
    {
        index < self.watchers.len() && self.watchers[index].is_some()
    }

    /// What the idle watcher at a place has seen, `None` where none is there.
    pub(crate) fn idle_since(&self, index: usize) -> Option<u64>
        ensures { IsSeenAt self.now index result }
    {
        if index >= self.watchers.len() {
            return None;
        }
        idle_since(&self.watchers[index])
    }

    /// Whether a watcher stands at one of the places.
    pub(crate) fn has_any(&self) -> bool
        ensures { result ≡ list_any is_some self.now }
    {
        has_watcher(self.watchers.as_slice())
    }

    /// The watcher at a place.
    pub(crate) fn watcher(&self, index: usize) -> &Watcher
        requires { IsSome (slice_index_or self.now index None) }
        ensures { slice_index_or self.now index None ≡ Some result.now }
    {
        match &self.watchers[index] {
            Some(watcher) => watcher,
            None => unreachable!(),
        }
    }

    /// Makes room for one more watcher. A failed allocation changes nothing.
    pub(crate) fn reserve(&mut self) -> Result<(), AllocError>
        ensures { self.new ≡ self.old }
    {
        self.watchers.reserve(1)
    }

    /// Adds a watcher. A failed allocation changes nothing.
    pub(crate) fn push(&mut self, watcher: Watcher) -> Result<(), AllocError>
        ensures ok { OnOk result (self.new ≡ self.old ++ Some watcher ∷ []) }
        ensures err { OnErr result (self.new ≡ self.old) }
    {
        self.watchers.reserve(1)?;
        self.watchers.push_reserved(Some(watcher));
        Ok(())
    }

    /// Takes a watcher out.
    pub(crate) fn remove(&mut self, index: usize)
        requires { IsSome (slice_index_or self.old index None) }
        ensures { self.new ≡ slice_set self.old index None }
    {
        clear(&mut self.watchers[index]);
    }

    /// Notes a change of a key at a new revision at one place, and returns whether it made the watcher there ready.
    pub(crate) fn touch(&mut self, index: usize, revision: u64, key: &Text) -> bool
        ensures touched { self.new ≡ touch_at revision key.now index self.old }
        ensures made { result ≡ true → (w : Kept) × (slice_index_or self.old index None ≡ Some w) × (self.new ≡ slice_set self.old index (Some (made_ready revision w))) }
        ensures same { result ≡ false → self.new ≡ self.old }
    {
        if index >= self.watchers.len() {
            return false;
        }
        if !wants(&self.watchers[index], revision, key) {
            return false;
        }
        make_ready(&mut self.watchers[index], revision);
        true
    }

    /// A poll of the watcher that stands at a place. A refusal leaves it as it was.
    pub(crate) fn poll(&mut self, index: usize, keys: &Keys, most: u64) -> Result<Batch, AllocError>
        requires there { IsSome (slice_index_or self.old index None) }
        requires stands { IfSome (slice_index_or self.old index None) (IsFollowed keys.now.history) }
        ensures { PlacePolls keys.now.history most index self.old result self.new }
    {
        let alloc = *self.watchers.allocator();
        poll_slot(alloc, &mut self.watchers[index], keys, most)
    }
}

impl Slots {
    /// A copy of all places.
    pub(crate) fn copy(&self) -> Result<Slots, AllocError>
        ensures { IfOk result (λ copy. copy ≡ self.now) }
    {
        let watchers = copy_watchers(&self.watchers)?;
        Ok(Slots { watchers })
    }
}
