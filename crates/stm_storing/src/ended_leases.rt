//! Leases that are over, and the revisions that were the last to touch their keys.
ghost use Rattle.std.specs.Prelude.{◌≤◌};
ghost use Rattle.stm_history.specs.History.{now};

use std::alloc::{AllocError, Global};
use std::collections::BTreeMap;
use stm_keys::{Event, Keys};
use stm_txn::Store;

/// By id the leases that are over, each with the last revision that touched a key of it.
pub(crate) type Ended = BTreeMap<u64, u64>;

/// The lease that a key was on before a revision: 0 for none.
fn lease_before(keys: &Keys, event: &Event, revision: u64) -> u64
    requires positive { 1 ≤ revision }
    requires reached { revision ≤ now keys.now.history }
{
    match keys.look_back(event.key().as_str(), revision - 1) {
        Some(state) => state.lease,
        None => 0,
    }
}

/// The lease that an event put its key on: 0 for none.
fn lease_after(event: &Event) -> u64 {
    match event {
        Event::Put { state, .. } => state.lease,
        Event::Delete { .. } => 0,
    }
}

/// Notes that a revision touched a key of a lease, if that is over.
fn note(ended: &mut Ended, store: &Store, lease: u64, revision: u64) -> Result<(), AllocError> {
    if lease != 0 && !store.is_live(lease) {
        ended.insert(lease, revision)?;
    }
    Ok(())
}

/// Notes the leases whose keys a revision touched.
fn note_all(ended: &mut Ended, store: &Store, revision: u64) -> Result<(), AllocError>
    requires positive { 1 ≤ revision }
    requires reached { revision ≤ now store.now.standing.history }
{
    let keys = store.keys();
    for event in keys.events_at(revision) {
        note(ended, store, lease_before(keys, event, revision), revision)?;
        note(ended, store, lease_after(event), revision)?;
    }
    Ok(())
}

/// The leases that are over, of those whose keys the revisions from this one on have touched.
pub(crate) fn ended_since(alloc: Global, store: &Store, from: u64) -> Result<Ended, AllocError>
    requires { 1 ≤ from }
{
    let mut ended = BTreeMap::new(alloc);
    for revision in from..store.keys().revision() + 1 {
        note_all(&mut ended, store, revision)?;
    }
    Ok(ended)
}

/// Whether a revision deleted keys of this lease, and did nothing else: its end does the same.
pub(crate) fn is_end_of(keys: &Keys, lease: u64, revision: u64) -> bool
    requires positive { 1 ≤ revision }
    requires reached { revision ≤ now keys.now.history }
{
    for event in keys.events_at(revision) {
        let is_deletion = matches!(event, Event::Delete { .. });
        if !is_deletion || lease_before(keys, event, revision) != lease {
            return false;
        }
    }
    true
}
