//! The version chains of all keys.
//!
//! What each put goes through is inlined, so that its values are not copied from call to call.
ghost use Rattle.std.specs.Prelude.{◌≡◌, ◌<◌, ◌≤◌, ◌∷◌, List, [], ℕ, IfOk, OnOk, None, Option, is_some, bytes_eq, true, false, reverse, length, slice_get, Some, IfSome};
ghost use Rattle.std.specs.Prelude.{option_copied, option_map, get_or, Bool, if◌then◌else◌};
ghost use Rattle.std.specs.VecDeque.{deque_len};
ghost use Rattle.std.specs.List.Sorted.{IsNonDecreasing};
ghost use Rattle.indexmap.specs.IndexMap.{get_by_text};
ghost use Rattle.stm_keys.specs.Events.{key_of_event, event_about, is_put, AreApart};
ghost use Rattle.stm_keys.specs.Chains.{versions_in, room_in, with_version, newest_below, oldest_from, event_from, newest_event, state_from, found_below, found_now};
ghost use Rattle.stm_keys.specs.Chains.{without_oldest, forgotten, no_versions, DropsAbsent, IsKeptNumber, AreSearchable, StandFirst, KeepsPresent, is_left, names_of, number_of};

use crate::chain::{Chain, Version};
use crate::event::{Event, find_event_at};
use crate::events::{Events, Held};
use crate::hints::Hints;
use indexmap::IndexMap;
use std::alloc::{AllocError, Global};
use std::collections::VecDeque;
use stm_history::{KeyState, Text};

/// The chain of each key that was ever changed and is not gone.
pub(crate) type Chains = IndexMap<String, Chain>;

/// The events of each revision that is kept, the oldest first.
pub(crate) type Revisions = VecDeque<Events>;

/// A hint that names no chain.
pub(crate) const NO_HINT: usize = usize::MAX;

/// The chain of a key, if it has one, and its index.
///
/// The chain at the hint is looked at first. No contract speaks of the hint: a wrong one costs a look-up by text.
#[inline(always)]
fn find_chain<'a>(chains: &'a Chains, key: &str, hint: usize) -> Option<(usize, &'a Chain)>
    ensures chain { option_map (λ p. p.1.now) result ≡ get_by_text chains.now key.now }
    ensures named { IfSome result (λ p. slice_get (names_of chains.now) p.0 ≡ Some key.now) }
    ensures within { IfSome result (λ p. p.0 < length chains.now.entries) }
{
    if let Some((text, chain)) = chains.get_index(hint) {
        if text.as_str() == key {
            return Some((hint, chain));
        }
    }
    match chains.get_full(key) {
        None => None,
        Some((index, _, chain)) => Some((index, chain)),
    }
}

/// Where the chain of a key stands, if it has one.
pub(crate) fn find_place(chains: &Chains, key: &str) -> Option<usize>
    ensures none { result ≡ None → get_by_text chains.now key.now ≡ None }
    ensures named { IfSome result (λ index. slice_get (names_of chains.now) index ≡ Some key.now) }
    ensures within { IfSome result (λ index. index < length chains.now.entries) }
{
    match chains.get_full(key) {
        None => None,
        Some((index, _, _)) => Some(index),
    }
}

/// A hint for the chain of a key: where it stands, `NO_HINT` where the key has none.
pub(crate) fn hint_of(chains: &Chains, key: &str) -> usize {
    find_place(chains, key).unwrap_or(NO_HINT)
}

/// The oldest number that is not below a bound, in the chain of a key.
pub(crate) fn find_number_from(chains: &Chains, key: &str, bound: u64) -> Option<u64>
    requires { IsNonDecreasing (reverse (versions_in (get_by_text chains.now key.now)).numbers) }
    ensures { result ≡ oldest_from bound (versions_in (get_by_text chains.now key.now)).numbers }
{
    match chains.get(key) {
        None => None,
        Some(chain) => chain.oldest_from(bound),
    }
}

/// The event of a key in the revision of a version, which changed it.
#[inline(always)]
fn event_from<'a>(
    revisions: &'a Revisions,
    below: u64,
    key: &str,
    version: Option<Version>,
) -> Option<&'a Event>
    requires within { IfSome version (λ v. IsKeptNumber below (length revisions.now.items) (number_of v)) }
    requires apart { (place : ℕ) → place < length revisions.now.items → AreApart (get_or revisions.now.items place []) }
    ensures { option_copied result ≡ event_from below revisions.now.items key.now (option_map number_of version) }
{
    let version = version?;
    let index = (version.number - below - 1) as usize;
    find_event_at(revisions[index].as_slice(), key, version.spot)
}

/// What a key is after the revision of a version, which changed it, and without one what it was before.
fn state_from<'a>(
    chain: &'a Chain,
    revisions: &'a Revisions,
    below: u64,
    key: &str,
    version: Option<Version>,
) -> Option<&'a KeyState>
    requires within { IfSome version (λ v. IsKeptNumber below (length revisions.now.items) (number_of v)) }
    requires apart { (place : ℕ) → place < length revisions.now.items → AreApart (get_or revisions.now.items place []) }
    ensures { option_copied result ≡ state_from below revisions.now.items key.now chain.now.versions.before (option_map number_of version) }
{
    match event_from(revisions, below, key, version) {
        Some(event) => event.state(),
        None => chain.before(),
    }
}

/// What a key is after the revisions below a bound.
pub(crate) fn find_state<'a>(
    chains: &'a Chains,
    revisions: &'a Revisions,
    below: u64,
    key: &str,
    bound: u64,
) -> Option<&'a KeyState>
    requires { AreSearchable (get_by_text chains.now) below revisions.now.items }
    ensures { option_copied result ≡ found_below below revisions.now.items key.now bound (versions_in (get_by_text chains.now key.now)) }
{
    match chains.get(key) {
        None => None,
        Some(chain) => state_from(chain, revisions, below, key, chain.newest_below(bound)),
    }
}

/// What a key is after all these revisions. Its chain is looked for at the hint first.
pub(crate) fn find_now<'a>(
    chains: &'a Chains,
    revisions: &'a Revisions,
    below: u64,
    key: &str,
    hint: usize,
) -> Option<&'a KeyState>
    requires { AreSearchable (get_by_text chains.now) below revisions.now.items }
    ensures { option_copied result ≡ found_now below revisions.now.items key.now (versions_in (get_by_text chains.now key.now)) }
{
    match find_chain(chains, key, hint) {
        None => None,
        Some((_, chain)) => state_from(chain, revisions, below, key, chain.newest()),
    }
}

/// What a key was before these revisions. Its chain is looked for at the hint first.
pub(crate) fn find_before<'a>(chains: &'a Chains, key: &str, hint: usize) -> Option<&'a KeyState>
    ensures { option_copied result ≡ (versions_in (get_by_text chains.now key.now)).before }
{
    match find_chain(chains, key, hint) {
        None => None,
        Some((_, chain)) => chain.before(),
    }
}

/// The newest event of a key, if one of these revisions changed it. Its chain is looked for at the hint first.
#[inline(always)]
pub(crate) fn find_newest<'a>(
    chains: &Chains,
    revisions: &'a Revisions,
    below: u64,
    key: &str,
    hint: usize,
) -> Option<&'a Event>
    requires { AreSearchable (get_by_text chains.now) below revisions.now.items }
    ensures { option_copied result ≡ newest_event below revisions.now.items key.now (versions_in (get_by_text chains.now key.now)) }
{
    match find_chain(chains, key, hint) {
        None => None,
        Some((_, chain)) => event_from(revisions, below, key, chain.newest()),
    }
}

/// The key at an index of the chains.
fn key_at(chains: &Chains, index: usize) -> &str
    requires { index < length chains.now.entries }
    ensures { slice_get (names_of chains.now) index ≡ Some result.now }
{
    match chains.get_index(index) {
        Some((key, _)) => key.as_str(),
        None => unreachable!(),
    }
}

/// The key at an index, which is present, with its state.
pub(crate) fn find_present<'a>(
    chains: &'a Chains,
    revisions: &'a Revisions,
    below: u64,
    index: usize,
) -> (&'a str, &'a KeyState)
    requires searchable { AreSearchable (get_by_text chains.now) below revisions.now.items }
    requires within { index < length chains.now.entries }
    requires present { (key : List ℕ) → slice_get (names_of chains.now) index ≡ Some key →
        is_some (found_now below revisions.now.items key (versions_in (get_by_text chains.now key))) ≡ true }
    ensures key { slice_get (names_of chains.now) index ≡ Some result.0.now }
    ensures state { found_now below revisions.now.items result.0.now (versions_in (get_by_text chains.now result.0.now)) ≡ Some result.1.now }
{
    let key = key_at(chains, index);
    match find_now(chains, revisions, below, key, index) {
        Some(state) => (key, state),
        None => unreachable!(),
    }
}

/// Adds an empty chain of a key that has none, with room for one version.
fn add_chain(chains: &mut Chains, alloc: Global, key: &Text) -> Result<(), AllocError>
    requires { get_by_text chains.old key.now ≡ None }
    ensures versions { (k : List ℕ) → versions_in (get_by_text chains.new k) ≡ versions_in (get_by_text chains.old k) }
    ensures more { (k : List ℕ) → room_in (get_by_text chains.old k) ≤ room_in (get_by_text chains.new k) }
    ensures room { OnOk result (0 < room_in (get_by_text chains.new key.now)) }
    ensures present { KeepsPresent (λ k. versions_in (get_by_text chains.old k)) (names_of chains.old) (names_of chains.new) }
{
    let chain = Chain::with_room(alloc)?;
    let text = String::from_str(alloc, key.as_str())?;
    chains.insert(text, chain)?;
    Ok(())
}

/// Makes room for one more version in the chain at an index.
#[inline(always)]
fn make_room_at(chains: &mut Chains, index: usize) -> Result<(), AllocError>
    requires { index < length chains.old.entries }
    ensures names { names_of chains.new ≡ names_of chains.old }
    ensures versions { (k : List ℕ) → versions_in (get_by_text chains.new k) ≡ versions_in (get_by_text chains.old k) }
    ensures more { (k : List ℕ) → room_in (get_by_text chains.old k) ≤ room_in (get_by_text chains.new k) }
    ensures room { OnOk result ((key : List ℕ) → slice_get (names_of chains.old) index ≡ Some key → 0 < room_in (get_by_text chains.new key)) }
{
    let (_key, chain) = chains.pair_mut(index);
    chain.make_room()
}

/// The index of a key's chain, if it has one. The chain at the hint is looked at first.
fn find_index(chains: &Chains, key: &str, hint: usize) -> Option<usize>
    ensures none { result ≡ None → get_by_text chains.now key.now ≡ None }
    ensures named { IfSome result (λ index. slice_get (names_of chains.now) index ≡ Some key.now) }
    ensures within { IfSome result (λ index. index < length chains.now.entries) }
{
    match find_chain(chains, key, hint) {
        None => None,
        Some((index, _)) => Some(index),
    }
}

/// Makes room for one more version in the chain of a key, which is looked for at the hint first.
fn make_room_of(
    chains: &mut Chains,
    alloc: Global,
    key: &Text,
    hint: usize,
) -> Result<(), AllocError>
    ensures versions { (k : List ℕ) → versions_in (get_by_text chains.new k) ≡ versions_in (get_by_text chains.old k) }
    ensures more { (k : List ℕ) → room_in (get_by_text chains.old k) ≤ room_in (get_by_text chains.new k) }
    ensures room { OnOk result (0 < room_in (get_by_text chains.new key.now)) }
    ensures present { KeepsPresent (λ k. versions_in (get_by_text chains.old k)) (names_of chains.old) (names_of chains.new) }
{
    match find_index(chains, key.as_str(), hint) {
        Some(index) => make_room_at(chains, index),
        None => add_chain(chains, alloc, key),
    }
}

/// Makes room for one more version in the chain of a key, which stands at the place if it has one. Answers where the chain stands.
pub(crate) fn make_room_at_place(
    chains: &mut Chains,
    alloc: Global,
    key: &Text,
    place: Option<usize>,
) -> Result<usize, AllocError>
    requires none { place ≡ None → get_by_text chains.old key.now ≡ None }
    requires named { IfSome place (λ index. slice_get (names_of chains.old) index ≡ Some key.now) }
    requires within { IfSome place (λ index. index < length chains.old.entries) }
    ensures versions { (k : List ℕ) → versions_in (get_by_text chains.new k) ≡ versions_in (get_by_text chains.old k) }
    ensures room { OnOk result (0 < room_in (get_by_text chains.new key.now)) }
    ensures present { KeepsPresent (λ k. versions_in (get_by_text chains.old k)) (names_of chains.old) (names_of chains.new) }
    ensures named { IfOk result (λ index. slice_get (names_of chains.new) index ≡ Some key.now) }
{
    match place {
        Some(index) => {
            make_room_at(chains, index)?;
            Ok(index)
        }
        None => {
            add_chain(chains, alloc, key)?;
            Ok(index_of(chains, key.as_str(), NO_HINT))
        }
    }
}

/// Makes room for one more version in the chain of each event's key, which is looked for at its hint first. Where memory runs
/// out, every version is as it was.
pub(crate) fn make_room(
    chains: &mut Chains,
    alloc: Global,
    events: &[Event],
    hints: Hints,
) -> Result<(), AllocError>
    ensures versions { (k : List ℕ) → versions_in (get_by_text chains.new k) ≡ versions_in (get_by_text chains.old k) }
    ensures room { OnOk result ((k : List ℕ) → is_some (event_about k events.now) ≡ true → 0 < room_in (get_by_text chains.new k)) }
    ensures present { KeepsPresent (λ k. versions_in (get_by_text chains.old k)) (names_of chains.old) (names_of chains.new) }
{
    let mut spot: usize = 0;
    for event in events {
        make_room_of(chains, alloc, event.key(), hints.at(spot))?;
        spot = spot.saturating_add(1);
    }
    Ok(())
}

/// The index of a key that has a chain. The chain at the hint is looked at first.
fn index_of(chains: &Chains, key: &str, hint: usize) -> usize
    requires { 0 < room_in (get_by_text chains.now key.now) }
    ensures { slice_get (names_of chains.now) result ≡ Some key.now }
{
    match find_index(chains, key, hint) {
        Some(index) => index,
        None => unreachable!(),
    }
}

/// Adds a version to the chain at an index, which has room for it.
fn push_at(chains: &mut Chains, index: usize, version: Version)
    requires within { index < length chains.old.entries }
    requires room { (key : List ℕ) → slice_get (names_of chains.old) index ≡ Some key → 0 < room_in (get_by_text chains.old key) }
    ensures names { names_of chains.new ≡ names_of chains.old }
    ensures len { length chains.new.entries ≡ length chains.old.entries }
    ensures versions { (key : List ℕ) → slice_get (names_of chains.old) index ≡ Some key → (k : List ℕ) →
        versions_in (get_by_text chains.new k) ≡ with_version (bytes_eq key k) (number_of version) (versions_in (get_by_text chains.old k)) }
    ensures room { (key : List ℕ) → slice_get (names_of chains.old) index ≡ Some key → (k : List ℕ) →
        bytes_eq key k ≡ false → room_in (get_by_text chains.new k) ≡ room_in (get_by_text chains.old k) }
{
    let (_key, chain) = chains.pair_mut(index);
    chain.push(version);
}

/// Brings the key at an index, which is present from now on, among the first ones.
fn bring_in(chains: &mut Chains, present: &mut usize, index: usize)
    requires within { index < length chains.old.entries }
    requires bound { present.old ≤ length chains.old.entries }
    ensures looked { (k : List ℕ) → get_by_text chains.new k ≡ get_by_text chains.old k }
    ensures bound { present.new ≤ length chains.new.entries }
    ensures first { (key : List ℕ) (is_present : List ℕ → Bool) → slice_get (names_of chains.old) index ≡ Some key →
        StandFirst is_present present.old (names_of chains.old) → StandFirst (λ k. if bytes_eq key k then true else is_present k) present.new (names_of chains.new) }
{
    let _count = chains.len();
    if index >= *present {
        chains.swap_indices(index, *present);
        *present += 1;
    }
}

/// Takes the key at an index, which is absent from now on, from the first ones.
fn take_out(chains: &mut Chains, present: &mut usize, index: usize)
    requires within { index < length chains.old.entries }
    requires bound { present.old ≤ length chains.old.entries }
    ensures looked { (k : List ℕ) → get_by_text chains.new k ≡ get_by_text chains.old k }
    ensures bound { present.new ≤ length chains.new.entries }
    ensures first { (key : List ℕ) (is_present : List ℕ → Bool) → slice_get (names_of chains.old) index ≡ Some key →
        StandFirst is_present present.old (names_of chains.old) → StandFirst (λ k. if bytes_eq key k then false else is_present k) present.new (names_of chains.new) }
{
    let _count = chains.len();
    if index < *present {
        *present -= 1;
        chains.swap_indices(index, *present);
    }
}

/// Adds a version to the chain of an event's key, which stands at an index and has room for it, and moves the chain to where it
/// belongs.
pub(crate) fn add_version_at(
    chains: &mut Chains,
    present: &mut usize,
    event: &Event,
    version: Version,
    index: usize,
)
    requires named { slice_get (names_of chains.old) index ≡ Some (key_of_event event.now) }
    requires room { 0 < room_in (get_by_text chains.old (key_of_event event.now)) }
    requires bound { present.old ≤ length chains.old.entries }
    ensures versions { (k : List ℕ) → versions_in (get_by_text chains.new k) ≡ with_version (bytes_eq (key_of_event event.now) k) (number_of version) (versions_in (get_by_text chains.old k)) }
    ensures room { (k : List ℕ) → bytes_eq (key_of_event event.now) k ≡ false → room_in (get_by_text chains.new k) ≡ room_in (get_by_text chains.old k) }
    ensures bound { present.new ≤ length chains.new.entries }
    ensures first { (is_present : List ℕ → Bool) → StandFirst is_present present.old (names_of chains.old) →
        StandFirst (λ k. if bytes_eq (key_of_event event.now) k then is_put event.now else is_present k) present.new (names_of chains.new) }
{
    push_at(chains, index, version);
    match event {
        Event::Put { .. } => bring_in(chains, present, index),
        Event::Delete { .. } => take_out(chains, present, index),
    }
}

/// The same of a chain that is looked for at the hint first.
fn add_version(
    chains: &mut Chains,
    present: &mut usize,
    event: &Event,
    version: Version,
    hint: usize,
)
    requires room { 0 < room_in (get_by_text chains.old (key_of_event event.now)) }
    requires bound { present.old ≤ length chains.old.entries }
    ensures versions { (k : List ℕ) → versions_in (get_by_text chains.new k) ≡ with_version (bytes_eq (key_of_event event.now) k) (number_of version) (versions_in (get_by_text chains.old k)) }
    ensures room { (k : List ℕ) → bytes_eq (key_of_event event.now) k ≡ false → room_in (get_by_text chains.new k) ≡ room_in (get_by_text chains.old k) }
    ensures bound { present.new ≤ length chains.new.entries }
    ensures first { (is_present : List ℕ → Bool) → StandFirst is_present present.old (names_of chains.old) →
        StandFirst (λ k. if bytes_eq (key_of_event event.now) k then is_put event.now else is_present k) present.new (names_of chains.new) }
{
    let index = index_of(chains, event.key().as_str(), hint);
    add_version_at(chains, present, event, version, index);
}

/// Adds a version to the chain of each event's key. Each has room for it, and is looked for at its hint first.
pub(crate) fn add_versions(
    chains: &mut Chains,
    present: &mut usize,
    events: &[Event],
    number: u64,
    hints: Hints,
)
    requires room { (k : List ℕ) → is_some (event_about k events.now) ≡ true → 0 < room_in (get_by_text chains.old k) }
    requires apart { AreApart events.now }
    requires bound { present.old ≤ length chains.old.entries }
    ensures versions { (k : List ℕ) → versions_in (get_by_text chains.new k) ≡
        with_version (is_some (event_about k events.now)) number (versions_in (get_by_text chains.old k)) }
    ensures first { (is_present : List ℕ → Bool) → StandFirst is_present present.old (names_of chains.old) →
        StandFirst (λ k. is_left (event_about k events.now) (is_present k)) present.new (names_of chains.new) }
{
    let mut spot: usize = 0;
    for event in events {
        let version = Version { number, spot };
        add_version(chains, present, event, version, hints.at(spot));
        spot = spot.saturating_add(1);
    }
}

/// The index of the chain of a key that has a version.
fn index_of_versions(chains: &Chains, key: &str) -> usize
    requires { 0 < length (versions_in (get_by_text chains.now key.now)).numbers }
    ensures named { slice_get (names_of chains.now) result ≡ Some key.now }
    ensures within { result < length chains.now.entries }
{
    match find_index(chains, key, NO_HINT) {
        Some(index) => index,
        None => unreachable!(),
    }
}

/// Forgets the oldest version of the chain at an index, after which its key was `before`.
fn forget_at(chains: &mut Chains, index: usize, before: Option<KeyState>)
    requires { index < length chains.old.entries }
    ensures names { names_of chains.new ≡ names_of chains.old }
    ensures len { length chains.new.entries ≡ length chains.old.entries }
    ensures versions { (key : List ℕ) → slice_get (names_of chains.old) index ≡ Some key → (k : List ℕ) → versions_in (get_by_text chains.new k) ≡
        (if bytes_eq key k then record { before = before; numbers = without_oldest (versions_in (get_by_text chains.old k)).numbers } else versions_in (get_by_text chains.old k)) }
{
    let (_key, chain) = chains.pair_mut(index);
    chain.forget_oldest(before);
}

/// Whether the key of the chain at an index is gone.
fn is_gone_at(chains: &Chains, index: usize) -> bool
    requires { index < length chains.now.entries }
    ensures { result ≡ true → (key : List ℕ) → slice_get (names_of chains.now) index ≡ Some key → versions_in (get_by_text chains.now key) ≡ no_versions }
{
    let _count = chains.len();
    match chains.get_index(index) {
        Some((_, chain)) => chain.is_gone(),
        None => unreachable!(),
    }
}

/// Drops the chain at an index where its key is gone, with no version and absent before those that are kept. The last chain takes its place.
fn drop_if_gone(chains: &mut Chains, index: usize)
    requires { index < length chains.old.entries }
    ensures versions { (k : List ℕ) → versions_in (get_by_text chains.new k) ≡ versions_in (get_by_text chains.old k) }
    ensures present { DropsAbsent (λ k. versions_in (get_by_text chains.old k)) (names_of chains.old) (names_of chains.new) }
{
    if is_gone_at(chains, index) {
        let _gone = chains.swap_remove_index(index);
    }
}

/// Forgets an event, which is the oldest of its key: what it left is what the key was before, and the chain of a key that is gone goes.
fn forget_event(chains: &mut Chains, event: Event)
    requires { 0 < length (versions_in (get_by_text chains.old (key_of_event event))).numbers }
    ensures versions { (k : List ℕ) → versions_in (get_by_text chains.new k) ≡
        forgotten (if bytes_eq (key_of_event event) k then Some event else None) (versions_in (get_by_text chains.old k)) }
    ensures present { DropsAbsent (λ k. versions_in (get_by_text chains.new k)) (names_of chains.old) (names_of chains.new) }
{
    let index = index_of_versions(chains, event.key().as_str());
    forget_at(chains, index, event.into_state());
    drop_if_gone(chains, index);
}

/// Forgets the events of one revision, each of which is the oldest of its key.
fn forget_each(chains: &mut Chains, events: Vec<Event>)
    requires apart { AreApart events.items }
    requires oldest { (k : List ℕ) → is_some (event_about k events.items) ≡ true → 0 < length (versions_in (get_by_text chains.old k)).numbers }
    ensures versions { (k : List ℕ) → versions_in (get_by_text chains.new k) ≡ forgotten (event_about k events.items) (versions_in (get_by_text chains.old k)) }
    ensures present { DropsAbsent (λ k. versions_in (get_by_text chains.new k)) (names_of chains.old) (names_of chains.new) }
{
    let mut left = events;
    while let Some(event) = left.pop() {
        forget_event(chains, event);
    }
}

/// The same, wherever the events stand. It takes no memory, and a step for each event.
pub(crate) fn forget_events(chains: &mut Chains, events: Events)
    requires apart { AreApart events }
    requires oldest { (k : List ℕ) → is_some (event_about k events) ≡ true → 0 < length (versions_in (get_by_text chains.old k)).numbers }
    ensures versions { (k : List ℕ) → versions_in (get_by_text chains.new k) ≡ forgotten (event_about k events) (versions_in (get_by_text chains.old k)) }
    ensures present { DropsAbsent (λ k. versions_in (get_by_text chains.new k)) (names_of chains.old) (names_of chains.new) }
{
    match events.into_held() {
        Held::One(event) => forget_event(chains, event),
        Held::More(events) => forget_each(chains, events),
        Held::Ascending(events) => forget_each(chains, events),
    }
}
