//! Whether worlds are alike: the steps from them can see the same.
ghost use Rattle.std.specs.Prelude.{◌≡◌, true, []};
ghost use Rattle.stm_txn.specs.Standing.{with_watchers};
ghost use Rattle.stm_alike.specs.Seen.{AreAlike};

use crate::revisions::have_same_revisions;
use stm_alike::{are_same_entries, leave_same_leases};
use stm_keys::Event;
use stm_retry::SharedWorld;
use stm_txn::Store;

/// The most revisions that a hint looks at: the last ones.
const HINTED: u64 = 64;

/// The most events of a revision that a hint looks at: the first ones.
const HINTED_EVENTS: usize = 4;

/// Whether two stores have the same floor, limit and moment.
fn have_same_terms(left: &Store, right: &Store) -> bool
    ensures floor { result ≡ true → left.now.standing.floor ≡ right.now.standing.floor }
    ensures limit { result ≡ true → left.now.standing.limit ≡ right.now.standing.limit }
    ensures moment { result ≡ true → left.now.standing.moment ≡ right.now.standing.moment }
{
    left.floor() == right.floor()
        && left.limit() == right.limit()
        && left.moment() == right.moment()
}

/// Whether two worlds have the same history and the same live leases, and stores of the same floor, limit and moment.
///
/// It says no where a compaction has dropped revisions of a store.
fn have_same_whole_store(one: &SharedWorld, other: &SharedWorld) -> bool
    requires { one.now.standing.history.opening ≡ other.now.standing.history.opening }
    ensures { result ≡ true → with_watchers one.now.standing [] ≡ with_watchers other.now.standing [] }
{
    let store = one.store();
    let another = other.store();
    if !have_same_terms(store, another) {
        return false;
    }
    let floor = store.floor();
    if floor != 0 {
        return false;
    }
    let keys = store.keys();
    let keys_there = another.keys();
    if !have_same_revisions(keys, keys_there) {
        return false;
    }
    leave_same_leases(one.history(), other.history())
}

/// Whether two worlds have the same entries, and stores of the same floor, limit and moment: so they have the same history and live leases.
pub(crate) fn have_same_entries(one: &SharedWorld, other: &SharedWorld) -> bool
    requires { one.now.standing.history.opening ≡ other.now.standing.history.opening }
    ensures stores { result ≡ true → with_watchers one.now.standing [] ≡ with_watchers other.now.standing [] }
    ensures entries { result ≡ true → one.now.entries ≡ other.now.entries }
{
    if !have_same_terms(one.store(), other.store()) {
        return false;
    }
    are_same_entries(one.history(), other.history())
}

/// Whether two worlds have the same history and the same live leases, and stores of the same floor, limit and moment.
///
/// Where a compaction has dropped revisions of a store, all entries are compared, and it may say no of those that lead to the same.
fn have_same_store(one: &SharedWorld, other: &SharedWorld) -> bool
    ensures { result ≡ true → with_watchers one.now.standing [] ≡ with_watchers other.now.standing [] }
{
    if !one.opens_alike(other) {
        return false;
    }
    let floor = one.store().floor();
    if floor == 0 {
        return have_same_whole_store(one, other);
    }
    have_same_entries(one, other)
}

/// Whether the steps from two worlds can see the same. It may say no where they can.
pub(crate) fn is_alike(one: &SharedWorld, other: &SharedWorld) -> bool
    ensures { result ≡ true → AreAlike one.now other.now }
{
    if !one.has_alike_runners(other) {
        return false;
    }
    have_same_store(one, other)
}

/// One number more in a hint.
fn mix(seed: u64, x: u64) -> u64 {
    (seed.rotate_left(5) ^ x).wrapping_mul(5871781006564002453)
}

/// The bytes of a text in a hint.
fn mix_text(seed: u64, text: &str) -> u64 {
    let mut hint = seed;
    for byte in text.as_bytes() {
        hint = mix(hint, u64::from(*byte));
    }
    hint
}

/// An event in a hint.
fn mix_event(seed: u64, event: &Event) -> u64 {
    let hint = mix_text(seed, event.key().as_str());
    match event {
        Event::Put { state, .. } => mix_text(mix(hint, state.lease), state.value.as_str()),
        Event::Delete { .. } => mix(hint, 1),
    }
}

/// The events of a revision that a hint looks at.
fn first_of(events: &[Event]) -> &[Event] {
    if events.len() > HINTED_EVENTS {
        return &events[..HINTED_EVENTS];
    }
    events
}

/// A number that stores with the same revisions have in common.
pub(crate) fn store_hint(store: &Store) -> u64 {
    let keys = store.keys();
    let last = keys.revision();
    let first = last.saturating_sub(HINTED);
    let mut hint = last;
    for number in first..last {
        for event in first_of(keys.events_at(number + 1)) {
            hint = mix_event(hint, event);
        }
    }
    hint
}

/// A number that alike worlds have in common, and others mostly do not. No contract says so.
pub(crate) fn hint_of(world: &SharedWorld) -> u64 {
    mix(world.runners_hint(), store_hint(world.store()))
}
