//! A page: watchers of ranges that begin near each other, or of one key, and the bounds of those that a change may concern.
ghost use Rattle.std.specs.Prelude.{◌≡◌, ◌≢◌, ◌⊎◌, ◌≤◌, ◌+◌, ◌++◌, ◌∷◌, [], ◌||◌, List, Option, true, nat_eq, nat_lt, IfOk, OnOk, OnErr};
ghost use Rattle.std.specs.Ordering.{nat_cmp, is_le};
ghost use Rattle.std.specs.Cmp.Lexicographic.{slice_cmp};
ghost use Rattle.std.specs.Vec.{vec_len, vec_capacity};
ghost use Rattle.stm_watch.specs.declared.page.RangeEntry.{RangeEntry as Entry};
ghost use Rattle.stm_watch.specs.declared.watched.Watched.TheVariants.{Range};
ghost use Rattle.stm_watch.specs.declared.watched.Watcher.{Watcher as Kept};
ghost use Rattle.stm_watch.specs.Keys.{is_watched};
ghost use Rattle.stm_watch.specs.Pages.{IsAny, IsOneOf, IsWithin, IsInside, IsMet, IsSeenAt, StandsOn, HasEntry, IsEntryOf, HasAll, end_of, may_have};

use crate::copies::copy_entries;
use crate::slots::Slots;
use crate::watched::Watched;
use std::alloc::{AllocError, Global};
use stm_history::Text;

/// How many entries a page has at most. It is split before it gets one more.
const MOST_ENTRIES: usize = 128;

/// What a page has of a watcher: the keys from `first` on that are below `end`, and the watcher's place.
#[derive(Drop, Clone)]
pub(crate) struct RangeEntry {
    pub first: Text,
    pub end: Text,
    pub place: usize,
}

impl RangeEntry {
    /// The entry of the watcher at a place. One of a key has the range of that key alone.
    pub(crate) fn of(
        alloc: Global,
        watched: &Watched,
        place: usize,
    ) -> Result<RangeEntry, AllocError>
        ensures { IfOk result (λ entry. IsEntryOf watched.now place entry) }
    {
        let first = watched.first_key().clone()?;
        let end = end_of(alloc, watched)?;
        Ok(RangeEntry { first, end, place })
    }

    /// Whether the range of the entry has all keys that are watched.
    fn has_all(&self, watched: &Watched) -> bool
        ensures { result ≡ true → HasAll self.now watched.now }
    {
        match watched {
            Watched::Key(key) => self.first.cmp(key).is_le() && key.cmp(&self.end).is_lt(),
            Watched::Range { first, end } => self.first == *first && self.end == *end,
        }
    }

    /// Whether the entry may be that of the watcher at a place.
    pub(crate) fn is_of(&self, watched: &Watched, place: usize) -> bool
        ensures { result ≡ true → IsEntryOf watched.now place self.now }
    {
        self.place == place && self.has_all(watched)
    }

    /// Whether the entry is the one with this first key and place, or stands before it. Entries stand in the order of
    /// their first keys, and then of their places.
    pub(crate) fn is_up_to(&self, first: &Text, place: usize) -> bool {
        // Watchers of one key have the same first key, and that two are equal is told sooner than their order.
        if self.first == *first {
            return self.place <= place;
        }
        self.first.cmp(first).is_lt()
    }
}

/// The first text behind another.
fn text_after(alloc: Global, text: &Text) -> Result<Text, AllocError>
    ensures { IfOk result (λ after. after ≡ text.now ++ 0 ∷ []) }
{
    let mut after = String::from_str(alloc, text.as_str())?;
    after.push('\0')?;
    Ok(Text::new(after))
}

/// The end of a range that has just these keys.
fn end_of(alloc: Global, watched: &Watched) -> Result<Text, AllocError>
    ensures { IfOk result (λ end. end ≡ end_of watched.now) }
{
    match watched {
        Watched::Key(key) => text_after(alloc, key),
        Watched::Range { end, .. } => end.clone(),
    }
}

/// Lowers a bound, so that a key is not below it. A failed allocation changes nothing.
fn lower(bound: &mut Text, key: &Text) -> Result<(), AllocError>
    ensures below { is_le (slice_cmp nat_cmp bound.new bound.old) ≡ true }
    ensures ok { OnOk result (is_le (slice_cmp nat_cmp bound.new key.now) ≡ true) }
{
    if key.cmp(bound).is_lt() {
        *bound = key.clone()?;
    }
    Ok(())
}

/// Raises a bound, so that a key is not above it. A failed allocation changes nothing.
fn raise(bound: &mut Text, key: &Text) -> Result<(), AllocError>
    ensures above { is_le (slice_cmp nat_cmp bound.old bound.new) ≡ true }
    ensures ok { OnOk result (is_le (slice_cmp nat_cmp key.now bound.new) ≡ true) }
{
    if key.cmp(bound).is_gt() {
        *bound = key.clone()?;
    }
    Ok(())
}

/// Bounds of ranges: none begins below `low`, and none ends above `high`.
#[derive(Drop)]
pub(crate) struct Bounds {
    pub low: Text,
    pub high: Text,
}

impl Bounds {
    /// Whether a range within the bounds may have a key.
    fn may_have(&self, key: &Text) -> bool
        ensures { result ≡ is_watched (Range self.now.low self.now.high) key.now }
    {
        self.low.cmp(key).is_le() && key.cmp(&self.high).is_lt()
    }

    /// Widens the bounds, so that ranges from `low` to `high` are within them. A failed allocation leaves none outside.
    fn widen(&mut self, low: &Text, high: &Text) -> Result<(), AllocError>
        ensures kept { (e : Entry) → IsWithin e self.old → IsWithin e self.new }
        ensures ok { OnOk result ((e : Entry) → IsWithin e (record { low = low.now; high = high.now }) → IsWithin e self.new) }
    {
        lower(&mut self.low, low)?;
        raise(&mut self.high, high)?;
        Ok(())
    }
}

/// Widens bounds, which may be those of nobody, so that ranges from `low` to `high` are within them. A failed allocation leaves none outside.
fn include(bounds: &mut Option<Bounds>, low: &Text, high: &Text) -> Result<(), AllocError>
    ensures kept { (e : Entry) → IsInside e bounds.old → IsInside e bounds.new }
    ensures ok { OnOk result ((e : Entry) → IsWithin e (record { low = low.now; high = high.now }) → IsInside e bounds.new) }
{
    if let Some(bounds) = bounds {
        bounds.widen(low, high)?;
        return Ok(());
    }
    let low = low.clone()?;
    let high = high.clone()?;
    *bounds = Some(Bounds { low, high });
    Ok(())
}

/// Whom a change may concern: up to the revision `until` nobody but watchers of ranges within the bounds, or nobody at all.
#[derive(Drop)]
pub(crate) struct Reach {
    pub bounds: Option<Bounds>,
    pub until: u64,
}

impl Reach {
    /// That of those of whom nothing is known.
    pub(crate) fn unknown() -> Reach
        ensures { result.until ≡ 0 }
    {
        Reach {
            bounds: None,
            until: 0,
        }
    }

    /// That of these entries at a revision.
    fn of_all(entries: &[RangeEntry], slots: &Slots, revision: u64) -> Result<Reach, AllocError>
        ensures { IfOk result (λ reach. (e : Entry) → IsOneOf e entries.now → IsMet slots.now e reach) }
    {
        let mut reach = Reach {
            bounds: None,
            until: u64::MAX,
        };
        for entry in entries {
            reach.include(entry, slots.idle_since(entry.place), revision)?;
        }
        Ok(reach)
    }

    /// Includes the watcher of an entry, which is idle since a revision, or is not.
    fn include(
        &mut self,
        entry: &RangeEntry,
        idle_since: Option<u64>,
        revision: u64,
    ) -> Result<(), AllocError>
        ensures kept { (ws : List (Option Kept)) (e : Entry) → IsMet ws e self.old → IsMet ws e self.new }
        ensures ok { OnOk result ((ws : List (Option Kept)) → IsSeenAt ws entry.now.place idle_since → IsMet ws entry.now self.new) }
    {
        let Some(seen) = idle_since else {
            return Ok(());
        };
        if seen < revision {
            return include(&mut self.bounds, &entry.first, &entry.end);
        }
        self.until = self.until.min(seen);
        Ok(())
    }

    /// Includes all whom another one has.
    fn include_all(&mut self, other: &Reach) -> Result<(), AllocError>
        ensures kept { (ws : List (Option Kept)) (e : Entry) → IsMet ws e self.old → IsMet ws e self.new }
        ensures ok { OnOk result ((ws : List (Option Kept)) (e : Entry) → IsMet ws e other.now → IsMet ws e self.new) }
    {
        self.until = self.until.min(other.until);
        let Some(bounds) = &other.bounds else {
            return Ok(());
        };
        include(&mut self.bounds, &bounds.low, &bounds.high)
    }

    /// That of all on these pages.
    pub(crate) fn of_pages(pages: &[Page]) -> Result<Reach, AllocError>
        ensures { IfOk result (λ reach. (ws : List (Option Kept)) (e : Entry) → HasEntry ws pages.now e → IsMet ws e reach) }
    {
        let mut reach = Reach {
            bounds: None,
            until: u64::MAX,
        };
        for page in pages {
            reach.include_all(&page.reach)?;
        }
        Ok(reach)
    }

    /// Whether a range within the bounds may have a key.
    pub(crate) fn may_have(&self, key: &Text) -> bool
        ensures { result ≡ may_have self.now.bounds key.now }
    {
        match &self.bounds {
            None => false,
            Some(bounds) => bounds.may_have(key),
        }
    }

    /// Whether a change of a key at a revision may concern a watcher.
    pub(crate) fn may_concern(&self, revision: u64, key: &Text) -> bool
        ensures { result ≡ (nat_lt self.now.until revision || may_have self.now.bounds key.now) }
    {
        self.until < revision || self.may_have(key)
    }
}

/// Moves the upper half of these, entries or pages, before those of another list, which has room for them.
pub(crate) fn move_half<T: Drop>(entries: &mut Vec<T>, upper: &mut Vec<T>)
    requires { vec_len entries.old + vec_len upper.old ≤ vec_capacity upper.old }
    ensures { entries.new.items ++ upper.new.items ≡ entries.old.items ++ upper.old.items }
{
    let half = entries.len() / 2;
    while entries.len() > half {
        let Some(last) = entries.pop() else {
            unreachable!()
        };
        let Ok(()) = upper.insert(0, last) else {
            unreachable!()
        };
    }
}

/// Watchers, and whom of them a change may concern.
#[derive(Drop)]
pub(crate) struct Page {
    pub reach: Reach,
    pub entries: Vec<RangeEntry>,
}

/// The copy has the same entries. What it reaches is found anew.
impl Clone for Page {
    ghost is_clone = { λ page copy. (copy.reach.until ≡ 0) × (copy.entries.items ≡ page.entries.items) };

    fn clone(&self) -> Result<Page, AllocError> {
        let entries = copy_entries(&self.entries)?;
        Ok(Page::unsettled(entries))
    }
}

impl Page {
    /// A page of these entries, of which nobody knows whom a change may concern.
    fn unsettled(entries: Vec<RangeEntry>) -> Page
        ensures until { result.reach.until ≡ 0 }
        ensures entries { result.entries.items ≡ entries.items }
    {
        Page {
            reach: Reach::unknown(),
            entries,
        }
    }

    /// A page of one entry.
    pub(crate) fn of(alloc: Global, entry: RangeEntry) -> Result<Page, AllocError>
        ensures { IfOk result (λ page. (ws : List (Option Kept)) → StandsOn ws entry page) }
    {
        let mut entries = Vec::with_capacity(alloc, 1)?;
        entries.push(entry)?;
        Ok(Page::unsettled(entries))
    }

    /// Whether the page has no entry.
    pub(crate) fn is_empty(&self) -> bool
        ensures { result ≡ nat_eq (vec_len self.now.entries) 0 }
    {
        self.entries.is_empty()
    }

    /// Whether the page has as many entries as it may have.
    pub(crate) fn is_full(&self) -> bool {
        self.entries.len() >= MOST_ENTRIES
    }

    /// Whether the page begins with the entry that has this first key and place, or with one that stands before it.
    pub(crate) fn begins_by(&self, first: &Text, place: usize) -> bool {
        match self.entries.as_slice().first() {
            None => false,
            Some(entry) => entry.is_up_to(first, place),
        }
    }

    /// How many entries stand up to that with this first key and place, which is the last of them where it is there.
    fn count_up_to(&self, first: &Text, place: usize) -> usize
        ensures { result ≤ vec_len self.now.entries }
    {
        self.entries
            .as_slice()
            .partition_point(|entry| entry.is_up_to(first, place))
    }

    /// Whether the entry of the watcher at a place was found on the page.
    pub(crate) fn has(&self, watched: &Watched, place: usize) -> bool
        ensures { result ≡ true → IsAny (IsEntryOf watched.now place) self.now.entries.items }
    {
        let count = self.count_up_to(watched.first_key(), place);
        if count == 0 {
            return false;
        }
        self.entries[count - 1].is_of(watched, place)
    }

    /// Adds an entry. A failed allocation leaves none out.
    pub(crate) fn add(&mut self, entry: RangeEntry) -> Result<(), AllocError>
        ensures kept { (ws : List (Option Kept)) (e : Entry) → StandsOn ws e self.old → StandsOn ws e self.new }
        ensures ok { OnOk result ((ws : List (Option Kept)) → StandsOn ws entry self.new) }
    {
        let at = self.count_up_to(&entry.first, entry.place);
        self.entries.insert(at, entry)?;
        self.reach.until = 0;
        Ok(())
    }

    /// Takes the entry with this first key and place out, if it is there.
    pub(crate) fn remove(&mut self, first: &Text, place: usize)
        ensures { (ws : List (Option Kept)) (e : Entry) → e.place ≢ place → StandsOn ws e self.old → StandsOn ws e self.new }
    {
        self.reach.until = 0;
        let count = self.count_up_to(first, place);
        if count == 0 {
            return;
        }
        if self.entries[count - 1].place == place {
            drop(self.entries.remove(count - 1));
        }
    }

    /// Moves the upper half of the entries to a page of its own. Want of memory changes nothing.
    pub(crate) fn split(&mut self) -> Result<Page, AllocError>
        ensures ok { IfOk result (λ upper. (ws : List (Option Kept)) (e : Entry) → StandsOn ws e self.old → StandsOn ws e self.new ⊎ StandsOn ws e upper) }
        ensures err { OnErr result (self.new ≡ self.old) }
    {
        let mut entries = Vec::with_capacity(*self.entries.allocator(), self.entries.len())?;
        move_half(&mut self.entries, &mut entries);
        self.reach.until = 0;
        Ok(Page::unsettled(entries))
    }

    /// Forgets whom a change may concern, where one of this key may concern anybody: one of them was made ready.
    pub(crate) fn unsettle(&mut self, key: &Text)
        ensures { (ws : List (Option Kept)) (e : Entry) → StandsOn ws e self.old → StandsOn ws e self.new }
    {
        if self.reach.may_have(key) {
            self.reach.until = 0;
        }
    }

    /// Finds out whom a change at a revision may concern, where that is not known. Where an allocation fails everything stays as it was.
    pub(crate) fn settle(&mut self, slots: &Slots, revision: u64)
        ensures { (e : Entry) → StandsOn slots.now e self.old → StandsOn slots.now e self.new }
    {
        if self.reach.until >= revision {
            return;
        }
        if let Ok(reach) = Reach::of_all(self.entries.as_slice(), slots, revision) {
            self.reach = reach;
        }
    }
}
