//! The key store.
//!
//! What each put goes through is inlined, so that its values are not copied from call to call.
ghost use Rattle.std.specs.Prelude.{◌≡◌, ◌+◌, ◌<◌, ◌≤◌, IfOk, OnOk, OnErr, IfSome, List, ℕ, Bool, false, length, Some, None, ◌↔◌, slice_get};
ghost use Rattle.std.specs.Prelude.{option_copied, [], ◌∷◌, ◌++◌, ◌≢◌, ◌^◌, map, is_some, true};
ghost use Rattle.std.specs.Option.{unwrap_or};
ghost use Rattle.std.specs.VecDeque.{deque_len, deque_capacity};
ghost use Rattle.indexmap.specs.IndexMap.{get_by_text};
ghost use Rattle.stm_history.specs.Opening.{opened_state};
ghost use Rattle.stm_history.specs.History.{History, opened_at, now, add_revision, key_at, key_now, AreRevisions, IsRevision, state_after_put, version_of};
ghost use Rattle.stm_keys.specs.CanOpen.{can_open};
ghost use Rattle.stm_keys.specs.Events.{event_of, events_of, event_about, key_of_event, after_event, AreApart};
ghost use Rattle.stm_keys.specs.Chains.{versions_in, with_version, no_versions, StandFirst, KeepsPresent, is_left, names_of};
ghost use Rattle.stm_keys.specs.NextChange.{is_between, next_change, next_change_between};
ghost use Rattle.stm_keys.specs.Runs.{IsPassed};
ghost use Rattle.stm_keys.specs.Within.{those_within};
ghost use Rattle.stm_keys.specs.Keys.{key_read, DeletePresent, HasSmallNumbers, ListsPresent, with_floor, without_up_to, compacted_at};

use crate::chain::Version;
use crate::chains::{
    Chains, NO_HINT, Revisions, add_version_at, add_versions, find_before, find_newest, find_now,
    find_number_from, find_place, find_present, find_state, forget_events, make_room,
    make_room_at_place,
};
use crate::copies::{copy_chains, copy_revisions};
use crate::event::{Event, is_any_between};
use crate::events::Events;
use crate::hints::Hints;
use crate::refusal::{ApplyRefusal, ReadRefusal};
use crate::restored::opened_chains;
use crate::run::Ahead;
use crate::runs::Runs;
use crate::shared_text::SharedText;
use indexmap::IndexMap;
use std::alloc::{AllocError, Global};
use std::collections::VecDeque;
use std::marker::Model;
use stm_history::{Change, HIGHEST_REVISION, KeyState, Text};

/// How many events a run has at least whose keys are noted.
const RUN_EVENTS: usize = 256;

/// The keys of a store, at every revision that is kept.
///
/// Contracts see the history that is kept, the list of the present keys, the revision that the store had before any change, and the
/// floor. The fields are the number below the kept revisions, these revisions, the oldest first, each put with its key's full state, for
/// each key what it was before them and the numbers of those that changed it, how many keys are present: theirs are the first chains, and for runs of
/// revisions the keys that they change, as far as a search of a range asked for it.
#[derive(Debug)]
pub struct Keys {
    opened: u64,
    floor: u64,
    below: u64,
    revisions: Revisions,
    chains: Chains,
    present: usize,
    runs: Runs,
}

impl Drop for Keys {
    fn drop(self) {
        let Keys {
            opened: _,
            floor: _,
            below: _,
            revisions: _,
            chains: _,
            present: _,
            runs: _,
        } = self;
    }
}

impl Model for Keys {
    ghost use Rattle.std.specs.Prelude.{◌≤◌, ◌+◌, length, reverse, is_some};
    ghost use Rattle.indexmap.specs.IndexMap.{get_by_text};
    ghost use Rattle.stm_history.specs.History.{key_after};
    ghost use Rattle.stm_keys.specs.Keys.{Contents, IsKept, changes_of};
    ghost use Rattle.stm_keys.specs.Chains.{present_among, StandFirst, names_of, opening_of};
    ghost use Rattle.std.specs.List.{AllByRecursion};
    ghost use Rattle.stm_keys.specs.Runs.{SumsUp};

    ghost Value = { Contents };

    ghost view = { λ a. record {
      history = record { opening = opening_of a.below a.chains; revisions = changes_of (reverse a.revisions.items) };
      present = present_among (λ key. key_after (opening_of a.below a.chains) key (changes_of (reverse a.revisions.items))) (names_of a.chains);
      opened = a.opened;
      floor = a.floor;
    } };

    ghost invariant = { λ a. IsKept (opening_of a.below a.chains) (reverse a.revisions.items) (get_by_text a.chains)
        × StandFirst (λ key. is_some (key_after (opening_of a.below a.chains) key (changes_of (reverse a.revisions.items)))) a.present (names_of a.chains)
        × (a.floor ≤ a.below + length a.revisions.items)
        × AllByRecursion (SumsUp a.below a.revisions.items) a.runs };
}

/// What a put makes of a key: it begins anew where the key was absent, and counts on where it was present.
fn state_put(before: Option<&KeyState>, number: u64, value: Text, lease: u64) -> KeyState
    requires { version_of (option_copied before) + 1 < 2 ^ 64 }
    ensures { result ≡ state_after_put number value lease (option_copied before.entry) }
{
    let (create_rev, version) = match before {
        None => (number, 1),
        Some(state) => (state.create_rev, state.version + 1),
    };
    KeyState {
        value,
        create_rev,
        mod_rev: number,
        version,
        lease,
    }
}

/// A key's text as an event of it has it, and a text of its own where it has none.
fn share_key(alloc: Global, key: Text, event: Option<&Event>) -> Result<SharedText, AllocError>
    requires { IfSome (option_copied event) (λ e. key_of_event e ≡ key) }
    ensures { IfOk result (λ shared. shared ≡ key) }
{
    match event {
        Some(event) => event.shared_key().clone(),
        None => SharedText::new(alloc, key),
    }
}

/// The change of a list of one.
fn take_only(changes: Vec<Change>) -> Change
    requires { length changes.items ≡ 1 }
    ensures { changes.items ≡ result ∷ [] }
{
    let mut rest = changes;
    match rest.pop() {
        Some(change) => change,
        None => unreachable!(),
    }
}

/// A copy of the events of a revision.
fn copy_events(alloc: Global, events: &[Event]) -> Result<Vec<Event>, AllocError>
    ensures { IfOk result (λ copy. copy.items ≡ events.now) }
{
    let mut copy = Vec::with_capacity(alloc, events.len())?;
    for event in events {
        copy.push(event.clone()?)?;
    }
    Ok(copy)
}

/// A copy of the changes of a revision.
fn copy_changes(alloc: Global, changes: &[Change]) -> Result<Vec<Change>, AllocError>
    ensures { IfOk result (λ copy. copy.items ≡ changes.now) }
{
    let mut copy = Vec::with_capacity(alloc, changes.len())?;
    for change in changes {
        copy.push(change.clone()?)?;
    }
    Ok(copy)
}

/// Makes room for one more revision. A full list grows by a quarter, so that little of it stands empty.
#[inline(always)]
fn make_room_in(revisions: &mut Revisions) -> Result<(), AllocError>
    ensures same { revisions.new.items ≡ revisions.old.items }
    ensures room { OnOk result (deque_len revisions.new < deque_capacity revisions.new) }
{
    let count = revisions.len();
    if count < revisions.capacity() {
        return Ok(());
    }
    revisions.reserve_exact(count / 4 + 1)?;
    Ok(())
}

/// Adds a recorded revision, and its number to the chains of its keys, which are looked for at the hints first. Every
/// growth comes before the first change.
fn add_recorded(
    revisions: &mut Revisions,
    chains: &mut Chains,
    present: &mut usize,
    events: Events,
    number: u64,
    hints: Hints,
) -> Result<(), AllocError>
    requires apart { AreApart events }
    requires bound { present.old ≤ length chains.old.entries }
    ensures recorded { OnOk result (revisions.new.items ≡ revisions.old.items ++ events ∷ []) }
    ensures reported { OnOk result ((k : _) → versions_in (get_by_text chains.new k) ≡
        with_version (is_some (event_about k events)) number (versions_in (get_by_text chains.old k))) }
    ensures first { OnOk result ((is_present : List ℕ → Bool) → ((k : _) → versions_in (get_by_text chains.old k) ≡ no_versions → is_present k ≡ false) →
        StandFirst is_present present.old (names_of chains.old) →
        StandFirst (λ k. is_left (event_about k events) (is_present k)) present.new (names_of chains.new)) }
    ensures err { OnErr result (revisions.new.items ≡ revisions.old.items) }
    ensures count { OnErr result (present.new ≡ present.old) }
    ensures same { OnErr result ((k : List ℕ) → versions_in (get_by_text chains.new k) ≡ versions_in (get_by_text chains.old k)) }
    ensures kept { OnErr result (KeepsPresent (λ k. versions_in (get_by_text chains.old k)) (names_of chains.old) (names_of chains.new)) }
{
    make_room(chains, *revisions.allocator(), events.as_slice(), hints)?;
    make_room_in(revisions)?;
    add_versions(chains, present, events.as_slice(), number, hints);
    revisions.push_back_reserved(events);
    Ok(())
}

/// Adds a recorded revision of one event, and its number to the chain of its key, which stands at the place if it has one.
/// Every growth comes before the first change.
fn add_only(
    revisions: &mut Revisions,
    chains: &mut Chains,
    present: &mut usize,
    event: Event,
    number: u64,
    place: Option<usize>,
) -> Result<(), AllocError>
    requires none { place ≡ None → get_by_text chains.old (key_of_event event) ≡ None }
    requires named { IfSome place (λ index. slice_get (names_of chains.old) index ≡ Some (key_of_event event)) }
    requires within { IfSome place (λ index. index < length chains.old.entries) }
    requires bound { present.old ≤ length chains.old.entries }
    ensures recorded { OnOk result (revisions.new.items ≡ revisions.old.items ++ (event ∷ []) ∷ []) }
    ensures reported { OnOk result ((k : _) → versions_in (get_by_text chains.new k) ≡
        with_version (is_some (event_about k (event ∷ []))) number (versions_in (get_by_text chains.old k))) }
    ensures first { OnOk result ((is_present : List ℕ → Bool) → ((k : _) → versions_in (get_by_text chains.old k) ≡ no_versions → is_present k ≡ false) →
        StandFirst is_present present.old (names_of chains.old) →
        StandFirst (λ k. is_left (event_about k (event ∷ [])) (is_present k)) present.new (names_of chains.new)) }
    ensures err { OnErr result (revisions.new.items ≡ revisions.old.items) }
    ensures count { OnErr result (present.new ≡ present.old) }
    ensures same { OnErr result ((k : List ℕ) → versions_in (get_by_text chains.new k) ≡ versions_in (get_by_text chains.old k)) }
    ensures kept { OnErr result (KeepsPresent (λ k. versions_in (get_by_text chains.old k)) (names_of chains.old) (names_of chains.new)) }
{
    let index = make_room_at_place(chains, *revisions.allocator(), event.key(), place)?;
    make_room_in(revisions)?;
    add_version_at(chains, present, &event, Version { number, spot: 0 }, index);
    revisions.push_back_reserved(Events::one(event));
    Ok(())
}

impl Keys {
    /// An empty store at revision 1. It takes no memory.
    pub fn new(alloc: Global) -> Keys
        ensures history { result.history ≡ opened_at 1 }
        ensures present { result.present ≡ [] }
        ensures opened { result.opened ≡ 1 }
        ensures floor { result.floor ≡ 0 }
    {
        Keys::with_revision(alloc, 1)
    }

    /// An empty store whose counter is `start`: its keys are absent at every revision up to it.
    ///
    /// It takes no memory.
    pub fn with_revision(alloc: Global, start: u64) -> Keys
        requires positive { 1 ≤ start }
        requires bounded { start ≤ HIGHEST_REVISION }
        ensures history { result.history ≡ opened_at start }
        ensures present { result.present ≡ [] }
        ensures opened { result.opened ≡ start }
        ensures floor { result.floor ≡ 0 }
    {
        Keys {
            opened: start,
            floor: 0,
            below: start,
            revisions: VecDeque::new(alloc),
            chains: IndexMap::new(alloc),
            present: 0,
            runs: Runs::new(alloc),
        }
    }

    /// The counter: the number of the last revision, at least 1. Every revision changes something, and no
    /// key twice. The floor is at most the counter.
    pub fn revision(&self) -> u64
        ensures value { result ≡ now self.now.history }
        ensures positive { 1 ≤ result }
        ensures bounded { result ≤ HIGHEST_REVISION }
        ensures revisions { AreRevisions self.now.history.revisions }
        ensures floor { self.now.floor ≤ result }
    {
        self.below + self.revisions.len() as u64
    }

    /// The revision that the store had before any change.
    pub fn opening(&self) -> u64
        ensures { result ≡ self.now.opened }
    {
        self.opened
    }

    /// The number below the revisions that are kept: that of the last one that was dropped, and the opening where none was.
    pub fn below(&self) -> u64
        ensures { result ≡ self.now.history.opening.number }
    {
        self.below
    }

    /// The floor: the lowest revision that can be read. It is 0 in a store that was never compacted.
    pub fn floor(&self) -> u64
        ensures { result ≡ self.now.floor }
    {
        self.floor
    }

    /// What a key is now, `None` where it is absent.
    pub fn get(&self, key: &str) -> Option<&KeyState>
        ensures value { option_copied result ≡ key_now self.now.history key.now }
        ensures fits { IfSome (key_now self.now.history key.now) HasSmallNumbers }
    {
        find_now(&self.chains, &self.revisions, self.below, key, NO_HINT)
    }

    /// What a key was at a revision, `None` where it was absent. Revision 0 names the current one.
    ///
    /// `FutureRevision` is answered where the revision is above the counter, `Compacted` where it is another than 0 and
    /// below the floor. (etcd's API reference, "Range": `revision`.)
    pub fn get_at(&self, key: &str, revision: u64) -> Result<Option<&KeyState>, ReadRefusal>
        ensures future { (result ≡ Err ReadRefusal.FutureRevision) ↔ (now self.now.history < revision) }
        ensures compacted { (result ≡ Err ReadRefusal.Compacted) ↔ ((0 < revision) × (revision < self.now.floor)) }
        ensures found { IfOk result (λ s. option_copied s ≡ key_read self.now.history key.now revision) }
        ensures fits { IfSome (key_read self.now.history key.now revision) HasSmallNumbers }
    {
        if revision == 0 {
            return Ok(self.get(key));
        }
        if revision < self.floor {
            return Err(ReadRefusal::Compacted);
        }
        if revision > self.revision() {
            return Err(ReadRefusal::FutureRevision);
        }
        Ok(self.look_back(key, revision))
    }

    /// What a key was at a revision that has come, below the floor too: at one below those that are kept, what it was before these.
    pub fn look_back(&self, key: &str, revision: u64) -> Option<&KeyState>
        requires { revision ≤ now self.now.history }
        ensures { option_copied result ≡ key_at self.now.history key.now revision }
    {
        let _now = self.revision();
        find_state(&self.chains, &self.revisions, self.below, key, revision + 1)
    }

    /// What a put in the next revision would make of a key.
    pub fn after_put(&self, key: &str, value: &Text, lease: u64) -> Result<KeyState, AllocError>
        ensures { IfOk result (λ s. s ≡ state_after_put (now self.now.history + 1) value.now lease (key_now self.now.history key.now)) }
    {
        let value = value.clone()?;
        Ok(state_put(self.get(key), self.revision() + 1, value, lease))
    }

    /// The newest event of a key, if a kept revision changed it. Its chain is looked for at the hint first.
    #[inline(always)]
    fn newest_event(&self, key: &str, hint: usize) -> Option<&Event>
        ensures about { IfSome (option_copied result) (λ event. key_of_event event ≡ key.now) }
        ensures value { after_event (option_copied result) (opened_state self.now.history.opening key.now) ≡ key_now self.now.history key.now }
        ensures fits { IfSome (key_now self.now.history key.now) HasSmallNumbers }
    {
        find_newest(&self.chains, &self.revisions, self.below, key, hint)
    }

    /// What a key was before the revisions that are kept. Its chain is looked for at the hint first.
    fn state_before(&self, key: &str, hint: usize) -> Option<&KeyState>
        ensures { option_copied result ≡ opened_state self.now.history.opening key.now }
    {
        find_before(&self.chains, key, hint)
    }

    /// What a key is since its newest event, and without one what it was before the revisions that are kept.
    #[inline(always)]
    fn state_since<'a>(
        &'a self,
        newest: Option<&'a Event>,
        key: &str,
        hint: usize,
    ) -> Option<&'a KeyState>
        ensures { option_copied result ≡ after_event (option_copied newest.entry) (opened_state self.now.history.opening key.now) }
    {
        match newest {
            Some(event) => event.state(),
            None => self.state_before(key, hint),
        }
    }

    /// What a change shows in the next revision. Its key's chain is looked for at the hint first.
    #[inline(always)]
    fn show_change(&self, change: Change, hint: usize) -> Result<Event, AllocError>
        ensures { IfOk result (λ event. event ≡ event_of (now self.now.history + 1) (key_now self.now.history) change) }
    {
        let alloc = *self.revisions.allocator();
        let number = self.revision() + 1;
        match change {
            Change::Put { key, value, lease } => {
                let name = key.as_str();
                let newest = self.newest_event(name, hint);
                let before = self.state_since(newest, name, hint);
                let state = state_put(before, number, value, lease);
                let key = share_key(alloc, key, newest)?;
                Ok(Event::Put { key, state })
            }
            Change::Del { key } => {
                let newest = self.newest_event(key.as_str(), hint);
                let key = share_key(alloc, key, newest)?;
                Ok(Event::Delete {
                    key,
                    revision: number,
                })
            }
        }
    }

    /// What each change of the next revision shows, in their order.
    fn show_each(&self, changes: Vec<Change>, hints: Hints) -> Result<Events, AllocError>
        ensures { IfOk result (λ events. events ≡ map (event_of (now self.now.history + 1) (key_now self.now.history)) changes.items) }
    {
        let mut events = Vec::with_capacity(*self.revisions.allocator(), changes.len())?;
        for change in changes {
            let event = self.show_change(change, hints.at(events.len()))?;
            events.push(event)?;
        }
        Ok(Events::of(events))
    }

    /// Adds one revision with one change, as `apply` does.
    ///
    /// It is refused for the causes of `apply`, and then changes nothing.
    pub fn apply_one(&mut self, change: Change) -> Result<u64, ApplyRefusal>
        requires present { DeletePresent self.old.history (change ∷ []) }
        ensures number { IfOk result (λ number. number ≡ now self.new.history) }
        ensures ok { OnOk result (self.new.history ≡ add_revision self.old.history (change ∷ [])) }
        ensures kept { (self.new.opened ≡ self.old.opened) × (self.new.floor ≡ self.old.floor) }
        ensures used_up { (result ≡ Err ApplyRefusal.RevisionsUsedUp) ↔ (now self.old.history ≡ HIGHEST_REVISION) }
        ensures err { OnErr result (self.new ≡ self.old) }
    {
        let before = self.revision();
        if before == HIGHEST_REVISION {
            return Err(ApplyRefusal::RevisionsUsedUp);
        }
        let place = find_place(&self.chains, change.key());
        let event = self.show_change(change, place.unwrap_or(NO_HINT))?;
        add_only(
            &mut self.revisions,
            &mut self.chains,
            &mut self.present,
            event,
            before + 1,
            place,
        )?;
        Ok(before + 1)
    }

    /// Adds one revision with these changes, as `apply` does. A key that one of the first changes is about is looked up by its text once.
    fn apply_each(&mut self, changes: Vec<Change>) -> Result<u64, ApplyRefusal>
        requires revision { IsRevision changes.items }
        requires present { DeletePresent self.old.history changes.items }
        ensures number { IfOk result (λ number. number ≡ now self.new.history) }
        ensures ok { OnOk result (self.new.history ≡ add_revision self.old.history changes.items) }
        ensures kept { (self.new.opened ≡ self.old.opened) × (self.new.floor ≡ self.old.floor) }
        ensures used_up { (result ≡ Err ApplyRefusal.RevisionsUsedUp) ↔ (now self.old.history ≡ HIGHEST_REVISION) }
        ensures err { OnErr result (self.new ≡ self.old) }
    {
        let before = self.revision();
        if before == HIGHEST_REVISION {
            return Err(ApplyRefusal::RevisionsUsedUp);
        }
        let hints = Hints::of(&self.chains, changes.as_slice());
        let events = self.show_each(changes, hints)?;
        add_recorded(
            &mut self.revisions,
            &mut self.chains,
            &mut self.present,
            events,
            before + 1,
            hints,
        )?;
        Ok(before + 1)
    }

    /// Adds one revision with these changes, as `apply` does. The values of the changes become the store's, and are not copied.
    ///
    /// It is refused for the causes of `apply`, and then changes nothing.
    pub fn apply_all(&mut self, changes: Vec<Change>) -> Result<u64, ApplyRefusal>
        requires revision { IsRevision changes.items }
        requires present { DeletePresent self.old.history changes.items }
        ensures number { IfOk result (λ number. number ≡ now self.new.history) }
        ensures ok { OnOk result (self.new.history ≡ add_revision self.old.history changes.items) }
        ensures kept { (self.new.opened ≡ self.old.opened) × (self.new.floor ≡ self.old.floor) }
        ensures used_up { (result ≡ Err ApplyRefusal.RevisionsUsedUp) ↔ (now self.old.history ≡ HIGHEST_REVISION) }
        ensures err { OnErr result (self.new ≡ self.old) }
    {
        if changes.len() == 1 {
            self.apply_one(take_only(changes))
        } else {
            self.apply_each(changes)
        }
    }

    /// Adds one revision with these changes, in this order, and answers its number. There is a change, no key
    /// is changed twice, and each deleted key is present.
    ///
    /// `RevisionsUsedUp` is answered where the counter is at `HIGHEST_REVISION`, `OutOfMemory` where a
    /// growth was refused. A refused call changes nothing.
    pub fn apply(&mut self, changes: &[Change]) -> Result<u64, ApplyRefusal>
        requires revision { IsRevision changes.now }
        requires present { DeletePresent self.old.history changes.now }
        ensures number { IfOk result (λ number. number ≡ now self.new.history) }
        ensures ok { OnOk result (self.new.history ≡ add_revision self.old.history changes.now) }
        ensures kept { (self.new.opened ≡ self.old.opened) × (self.new.floor ≡ self.old.floor) }
        ensures used_up { (result ≡ Err ApplyRefusal.RevisionsUsedUp) ↔ (now self.old.history ≡ HIGHEST_REVISION) }
        ensures err { OnErr result (self.new ≡ self.old) }
    {
        if self.revision() == HIGHEST_REVISION {
            return Err(ApplyRefusal::RevisionsUsedUp);
        }
        let changes = copy_changes(*self.revisions.allocator(), changes)?;
        self.apply_all(changes)
    }

    /// The keys of a store that has dropped its revisions up to this one, and what each of them was there. They ascend by bytes. It is as if the store had
    /// opened so: it has no revision, and no floor. It fails only where an allocation failed.
    pub fn restored(
        alloc: Global,
        number: u64,
        states: &[(Text, KeyState)],
    ) -> Result<Keys, AllocError>
        requires revision { (1 ≤ number) × (number ≤ HIGHEST_REVISION) }
        requires states { can_open number states.now ≡ true }
        ensures history { IfOk result (λ keys. keys.history ≡ record { opening = record { number = number; states = states.now }; revisions = [] }) }
        ensures opened { IfOk result (λ keys. keys.opened ≡ number) }
        ensures floor { IfOk result (λ keys. keys.floor ≡ 0) }
    {
        let chains = opened_chains(alloc, states)?;
        let present = chains.len();
        Ok(Keys {
            opened: number,
            floor: 0,
            below: number,
            revisions: VecDeque::new(alloc),
            chains,
            present,
            runs: Runs::new(alloc),
        })
    }

    /// The events of a revision that has come, where it is kept.
    fn recorded_at(&self, revision: u64) -> Option<&Events>
        requires { revision ≤ now self.now.history }
        ensures { unwrap_or (option_copied result) [] ≡ events_of self.now.history revision }
    {
        if revision <= self.below {
            return None;
        }
        let index = (revision - self.below - 1) as usize;
        Some(&self.revisions[index])
    }

    /// The events of a revision, in the order of operations: none where it is below those that are kept. They are not
    /// copied, and it takes no memory.
    pub fn events_at(&self, revision: u64) -> &[Event]
        requires { revision ≤ now self.now.history }
        ensures { result.now ≡ events_of self.now.history revision }
    {
        match self.recorded_at(revision) {
            Some(events) => events.as_slice(),
            None => &[],
        }
    }

    /// Some of the events of a revision, in the order of operations, among them those of each key from the first to the last one, by bytes. Of a
    /// revision of many that ascend by their keys, as the end of a lease is, it is these alone, which are found by halves. It takes no memory.
    pub fn events_within(&self, revision: u64, first: &Text, last: &Text) -> &[Event]
        requires { revision ≤ now self.now.history }
        ensures { those_within first.now last.now result.now ≡ those_within first.now last.now (events_of self.now.history revision) }
    {
        match self.recorded_at(revision) {
            Some(events) => events.within(first, last),
            None => &[],
        }
    }

    /// A copy of the events of a revision, as `events_at` has them.
    pub fn events_of(&self, revision: u64) -> Result<Vec<Event>, AllocError>
        requires { revision ≤ now self.now.history }
        ensures { IfOk result (λ events. events.items ≡ events_of self.now.history revision) }
    {
        copy_events(*self.revisions.allocator(), self.events_at(revision))
    }

    /// The first revision above a number that changes a key, of those that are kept, `None` where no later one does.
    ///
    /// It is found by halves among the revisions that changed the key, and takes no memory.
    pub fn next_change(&self, key: &str, above: u64) -> Option<u64>
        ensures { result ≡ next_change self.now.history key.now above }
    {
        find_number_from(&self.chains, key, above.saturating_add(1))
    }

    /// The events of the last revision, in the order of operations: none where there is no revision yet.
    pub fn last_events(&self) -> &[Event]
        ensures { result.now ≡ events_of self.now.history (now self.now.history) }
    {
        self.events_at(self.revision())
    }

    /// The number of present keys, in constant time.
    pub fn len(&self) -> usize
        ensures count { result ≡ length self.now.present }
        ensures listed { ListsPresent self.now.history self.now.present }
    {
        let _count = self.chains.len();
        self.present
    }

    /// The present key at an index, with its state, in constant time. Which key stands where is left open.
    pub fn at(&self, index: usize) -> (&str, &KeyState)
        requires { index < length self.now.present }
        ensures { slice_get self.now.present index ≡ Some (result.0.now, result.1.now) }
    {
        find_present(&self.chains, &self.revisions, self.below, index)
    }
}

impl Keys {
    /// Makes a revision the floor, below which no revision is read any more, and drops nothing.
    ///
    /// `Compacted` is answered where it is not above the floor, `FutureRevision` where it is above the counter. A refused call changes nothing.
    pub fn raise_floor(&mut self, revision: u64) -> Result<(), ReadRefusal>
        ensures compacted { (result ≡ Err ReadRefusal.Compacted) ↔ (revision ≤ self.old.floor) }
        ensures future { (result ≡ Err ReadRefusal.FutureRevision) ↔ (now self.old.history < revision) }
        ensures above { OnOk result (self.old.floor < revision) }
        ensures reached { OnOk result (revision ≤ now self.old.history) }
        ensures ok { OnOk result (self.new ≡ with_floor revision self.old) }
        ensures err { OnErr result (self.new ≡ self.old) }
    {
        if revision <= self.floor {
            return Err(ReadRefusal::Compacted);
        }
        if revision > self.revision() {
            return Err(ReadRefusal::FutureRevision);
        }
        self.floor = revision;
        Ok(())
    }

    /// Drops the oldest revision. What its events left is what their keys were before.
    fn forget_oldest(&mut self)
        requires { self.old.history.opening.number < now self.old.history }
        ensures { self.new ≡ without_up_to (self.old.history.opening.number + 1) self.old }
    {
        match self.revisions.pop_front() {
            Some(events) => {
                forget_events(&mut self.chains, events);
                self.below += 1;
            }
            None => unreachable!(),
        }
    }

    /// Drops the revisions up to one that has come.
    fn forget_up_to(&mut self, number: u64)
        requires { number ≤ now self.old.history }
        ensures { self.new ≡ without_up_to number self.old }
    {
        'revisions: while self.below() < number {
            self.forget_oldest();
        }
    }

    /// Drops the runs of revisions that were dropped.
    fn forget_runs(&mut self)
        ensures { self.new ≡ self.old }
    {
        self.runs.forget_up_to(self.below);
    }

    /// Makes a revision the floor, and drops the revisions below it: what each key was at the floor, the events of the floor's own revision
    /// and all later ones stay.
    ///
    /// `Compacted` is answered where it is not above the floor, `FutureRevision` where it is above the counter. A refused call changes nothing. It
    /// takes no memory, and a step for each change that it drops. (etcd's API reference, "Compact".)
    pub fn compact(&mut self, revision: u64) -> Result<(), ReadRefusal>
        ensures compacted { (result ≡ Err ReadRefusal.Compacted) ↔ (revision ≤ self.old.floor) }
        ensures future { (result ≡ Err ReadRefusal.FutureRevision) ↔ (now self.old.history < revision) }
        ensures ok { OnOk result (self.new ≡ compacted_at revision self.old) }
        ensures err { OnErr result (self.new ≡ self.old) }
    {
        self.raise_floor(revision)?;
        self.forget_up_to(revision - 1);
        self.forget_runs();
        Ok(())
    }
}

impl Keys {
    /// Notes which keys the revisions above one change, up to another that has come.
    fn add_run(&mut self, from: u64, upto: u64) -> Result<(), AllocError>
        requires { upto ≤ now self.old.history }
        ensures { self.new ≡ self.old }
    {
        self.runs.add(&self.revisions, self.below, from, upto)?;
        Ok(())
    }

    /// How many events a revision has, none where it has not come.
    fn count_at(&self, number: u64) -> usize {
        if number <= self.revision() {
            self.events_at(number).len()
        } else {
            0
        }
    }

    /// Notes which keys the revisions change of which that was not noted yet. One of many events is noted by itself.
    fn add_runs(&mut self) -> Result<(), AllocError>
        ensures { self.new ≡ self.old }
    {
        let mut from = self.runs.last().max(self.below);
        let mut number = from;
        let mut count: usize = 0;
        'revisions: while number < self.revision() {
            number += 1;
            count = count.saturating_add(self.count_at(number));
            if count >= RUN_EVENTS || self.count_at(number.saturating_add(1)) >= RUN_EVENTS {
                self.add_run(from, number)?;
                from = number;
                count = 0;
            }
        }
        Ok(())
    }

    /// Notes which keys the revisions change of which that was not noted yet, so that `next_change_between` passes over many of them at once.
    ///
    /// It takes a step for each such event, and sorts it among some thousands of others. Where an allocation fails, fewer are noted: later searches take longer,
    /// and answer the same.
    pub fn sum_up(&mut self)
        ensures { self.new ≡ self.old }
    {
        let _noted = self.add_runs();
    }

    /// What is known of the revisions above one, of the keys of a range. Nothing is known up to `asked`, of which it was asked already.
    fn ahead(&self, passed: u64, asked: u64, first: &Text, end: &Text) -> Ahead
        requires { self.now.history.opening.number ≤ passed }
        ensures { IsPassed self.now.history (is_between first.now end.now) passed result }
    {
        self.runs.ahead(passed, asked, first, end)
    }

    /// The first revision above a number that changes a key from the first on and below the end, of those that are kept, `None` where no later one does.
    ///
    /// It passes over the revisions of which `sum_up` noted that they change no such key, some hundreds to some thousands of events at once, and looks at each of
    /// the others. It takes no memory.
    pub fn next_change_between(&self, first: &Text, end: &Text, above: u64) -> Option<u64>
        ensures { result ≡ next_change_between self.now.history first.now end.now above }
    {
        let mut passed = above.max(self.below());
        let mut asked = passed;
        'revisions: while passed < self.revision() {
            match self.ahead(passed, asked, first, end) {
                Ahead::Idle(upto) => passed = upto,
                Ahead::Unknown(upto) => {
                    asked = upto;
                    passed += 1;
                    if is_any_between(self.events_within(passed, first, end), first, end) {
                        return Some(passed);
                    }
                }
            }
        }
        None
    }
}

impl Keys {
    /// A copy of the keys at every revision. It shares the texts of the keys that events show.
    ///
    /// It takes a step for each revision and for each change in it, and is refused only where an allocation fails.
    pub fn copy(&self) -> Result<Keys, AllocError>
        ensures { IfOk result (λ copy. copy ≡ self.now) }
    {
        let chains = copy_chains(&self.chains)?;
        let revisions = copy_revisions(&self.revisions)?;
        let runs = self.runs.copy()?;
        Ok(Keys {
            opened: self.opened,
            floor: self.floor,
            below: self.below,
            revisions,
            chains,
            present: self.present,
            runs,
        })
    }
}
