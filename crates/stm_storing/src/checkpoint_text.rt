//! The text of a checkpoint of a world: no clause speaks of it, since what it leads to is looked at before it is kept.
ghost use Rattle.std.specs.Prelude.{◌≤◌};
ghost use Rattle.stm_history.specs.History.{now};
ghost use Rattle.stm_txn.specs.Standing.{kept};

use crate::changes_text::{push_event, push_revision};
use crate::ended_leases::{Ended, ended_since, is_end_of};
use crate::past::text_at;
use std::alloc::{AllocError, Global};
use std::collections::BTreeMap;
use stm_keys::Keys;
use stm_report::{LiveLease, World, WorldEvent, live_leases};
use stm_report_lines::{end_json, lease_json, push_line};
use stm_txn::Store;

/// Adds what the store of a checkpoint opens with: the revision below the floor, and the most operations of each list of a transaction.
fn push_opening(
    alloc: Global,
    text: &mut String,
    store: &Store,
    below: u64,
) -> Result<(), AllocError> {
    let opening = format!(in alloc; "[[\"begin\",{below},{}]", store.limit())?;
    text.push_str(opening.as_str())
}

/// Adds the ends of the leases whose keys this revision was the last to touch.
fn push_ends(
    alloc: Global,
    text: &mut String,
    ended: &Ended,
    revision: u64,
) -> Result<(), AllocError> {
    for (lease, last) in ended {
        if *last == revision {
            push_event(alloc, text, &WorldEvent::Revoke { id: *lease })?;
        }
    }
    Ok(())
}

/// Whether the end of a lease does what a revision did, which was the last to touch its keys.
fn is_an_end(keys: &Keys, ended: &Ended, revision: u64) -> bool
    requires positive { 1 ≤ revision }
    requires reached { revision ≤ now keys.now.history }
{
    for (lease, last) in ended {
        if *last == revision && is_end_of(keys, *lease, revision) {
            return true;
        }
    }
    false
}

/// Adds what makes the changes of a revision again, and the ends of the leases whose keys it was the last to touch.
fn push_change(
    alloc: Global,
    text: &mut String,
    keys: &Keys,
    ended: &Ended,
    revision: u64,
) -> Result<(), AllocError>
    requires positive { 1 ≤ revision }
    requires reached { revision ≤ now keys.now.history }
{
    if !is_an_end(keys, ended, revision) {
        push_revision(alloc, text, keys, revision)?;
    }
    push_ends(alloc, text, ended, revision)
}

/// The scenario of a checkpoint: it sets the moment, makes the changes of the floor's revision and compacts there, and then makes the later changes.
fn push_scenario(
    alloc: Global,
    text: &mut String,
    store: &Store,
    ended: &Ended,
    floor: u64,
) -> Result<(), AllocError>
    requires positive { 1 ≤ floor }
    requires reached { floor ≤ now store.now.standing.history }
{
    let keys = store.keys();
    push_opening(alloc, text, store, floor - 1)?;
    let advance = WorldEvent::Advance {
        now: store.moment(),
    };
    push_event(alloc, text, &advance)?;
    push_change(alloc, text, keys, ended, floor)?;
    push_event(alloc, text, &WorldEvent::Compact { revision: floor })?;
    for revision in floor..keys.revision() {
        push_change(alloc, text, keys, ended, revision + 1)?;
    }
    text.push_str("]\n")
}

/// Adds a line for each lease.
fn push_leases(
    alloc: Global,
    text: &mut String,
    leases: &BTreeMap<u64, LiveLease>,
) -> Result<(), AllocError> {
    for (id, lease) in leases {
        let line = lease_json(alloc, *id, lease.ttl, lease.renewed)?;
        push_line(alloc, text, &line)?;
    }
    Ok(())
}

/// The leases that are granted to begin with: those that are live, and those whose keys are still to be touched.
fn granted(
    alloc: Global,
    world: &World,
    ended: &Ended,
) -> Result<BTreeMap<u64, LiveLease>, AllocError> {
    let mut leases = live_leases(alloc, world.history())?;
    for (lease, _) in ended {
        let anew = LiveLease {
            ttl: 1,
            renewed: world.store().moment(),
        };
        leases.insert(*lease, anew)?;
    }
    Ok(leases)
}

/// Adds what the keys were below the floor, the leases, and an end.
fn push_held(
    alloc: Global,
    text: &mut String,
    world: &World,
    ended: &Ended,
    below: u64,
) -> Result<(), AllocError>
    requires { below ≤ now (kept world.now.standing).history }
{
    let lines = text_at(alloc, world.store().keys(), below)?;
    text.push_str(lines.as_str())?;
    let leases = granted(alloc, world, ended)?;
    push_leases(alloc, text, &leases)?;
    let end = end_json(alloc, below, 0)?;
    push_line(alloc, text, &end)
}

/// The text of a checkpoint of a world, whose store shows from then on what is not below this revision.
pub(crate) fn checkpoint_text(
    alloc: Global,
    world: &World,
    floor: u64,
) -> Result<String, AllocError>
    requires positive { 1 ≤ floor }
    requires reached { floor ≤ now (kept world.now.standing).history }
{
    let ended = ended_since(alloc, world.store(), floor)?;
    let mut text = String::new(alloc);
    push_scenario(alloc, &mut text, world.store(), &ended, floor)?;
    push_held(alloc, &mut text, world, &ended, floor - 1)?;
    Ok(text)
}
