//! What the store of a file had at a revision, and what has happened in it since one.
ghost use Rattle.std.specs.Prelude.{◌≡◌, ◌<◌, ◌≤◌, ◌++◌, Err, false, IsSome, map, IfOk, IfErr, OnOk, IsTrue, string_bytes};
ghost use Rattle.std.specs.List.{concat, flat_map};
ghost use Rattle.stm_history.specs.History.{now, key_now};
ghost use Rattle.stm_keys.specs.Events.{event_about};
ghost use Rattle.stm_records.specs.Disk.{Only, LeavesOnly};
ghost use Rattle.stm_records.specs.RecordFiles.{OpensAlike};
ghost use Rattle.stm_report_lines.specs.LineData.{event_data};
ghost use Rattle.stm_report_lines.specs.Text.{line_text};
ghost use Rattle.stm_storing.specs.Storing.{HasShownEvents, HasShownPast, OpensToStore, IsToCome, IsCompacted, CanBeRead};
ghost use Rattle.stm_storing.specs.Past.{is_wanted, event_text, text_since, state_text, Adds, IsChangedIn, IsPast, IsTextAt};

use crate::fault::StoreFault;
use crate::scripting::{opened, print_text};
use std::alloc::{AllocError, Global};
use std::collections::BTreeMap;
use stm_devices::Sink;
use stm_lasting::{Disk, RecordFile};
use stm_report_lines::{Event, Spelled, key_json, push_line};
use stm_txn::{KeyState, Keys, Store, Text, Watched};

/// The keys that were present at a revision, each with its state then.
pub(crate) type Past = BTreeMap<Text, KeyState>;

/// A copy of a state.
fn copy_of(state: &KeyState) -> Result<KeyState, AllocError>
    ensures { IfOk result (λ copy. copy ≡ state.now) }
{
    let copy = state.clone()?;
    Ok(copy)
}

/// Adds a key that was present at a revision, with its state then.
fn add_key_at(
    alloc: Global,
    past: &mut Past,
    keys: &Keys,
    revision: u64,
    key: &str,
) -> Result<(), AllocError>
    requires { revision ≤ now keys.now.history }
    ensures { OnOk result (Adds keys.now.history revision (λ k. k ≡ key.now) past.old.entries past.new.entries) }
{
    match keys.look_back(key, revision) {
        None => Ok(()),
        Some(state) => {
            let key = Text::copy_of(alloc, key)?;
            let state = copy_of(state)?;
            past.insert(key, state)?;
            Ok(())
        }
    }
}

/// Adds those of the keys that are present now.
fn add_present(alloc: Global, past: &mut Past, keys: &Keys, revision: u64) -> Result<(), AllocError>
    requires { revision ≤ now keys.now.history }
    ensures { OnOk result (Adds keys.now.history revision (λ k. IsSome (key_now keys.now.history k)) past.old.entries past.new.entries) }
{
    for index in 0..keys.len() {
        let (key, _) = keys.at(index);
        add_key_at(alloc, past, keys, revision, key)?;
    }
    Ok(())
}

/// Adds those of the keys that these events are about.
fn add_changed(
    alloc: Global,
    past: &mut Past,
    keys: &Keys,
    revision: u64,
    events: &[Event],
) -> Result<(), AllocError>
    requires { revision ≤ now keys.now.history }
    ensures { OnOk result (Adds keys.now.history revision (λ k. IsSome (event_about k events.now)) past.old.entries past.new.entries) }
{
    for event in events {
        add_key_at(alloc, past, keys, revision, event.key().as_str())?;
    }
    Ok(())
}

/// Adds those of the keys that were changed since.
fn add_changed_since(
    alloc: Global,
    past: &mut Past,
    keys: &Keys,
    revision: u64,
) -> Result<(), AllocError>
    requires { revision ≤ now keys.now.history }
    ensures { OnOk result (Adds keys.now.history revision (IsChangedIn keys.now.history revision (now keys.now.history)) past.old.entries past.new.entries) }
{
    for later in revision..keys.revision() {
        add_changed(alloc, past, keys, revision, keys.events_at(later + 1))?;
    }
    Ok(())
}

/// The keys that were present at a revision: each of them is present now, or was changed since.
pub(crate) fn past_of(alloc: Global, keys: &Keys, revision: u64) -> Result<Past, AllocError>
    requires { revision ≤ now keys.now.history }
    ensures { IfOk result (λ past. IsPast keys.now.history revision past.entries) }
{
    let mut past = BTreeMap::new(alloc);
    add_present(alloc, &mut past, keys, revision)?;
    add_changed_since(alloc, &mut past, keys, revision)?;
    Ok(past)
}

/// Adds the line of a key.
fn push_key(
    alloc: Global,
    text: &mut String,
    key: &Text,
    state: &KeyState,
) -> Result<(), AllocError>
    ensures { OnOk result (string_bytes text.new ≡ string_bytes text.old ++ state_text (key.now, state.now)) }
{
    let line = key_json(alloc, key.as_str(), state)?;
    push_line(alloc, text, &line)
}

/// Adds a line for each key.
fn push_past(alloc: Global, text: &mut String, past: &Past) -> Result<(), AllocError>
    ensures { OnOk result (string_bytes text.new ≡ string_bytes text.old ++ concat (map state_text past.now.entries)) }
{
    for entry in past {
        let (key, state) = entry;
        push_key(alloc, text, key, state)?;
    }
    Ok(())
}

/// A line for each key that was present at a revision.
pub(crate) fn text_at(alloc: Global, keys: &Keys, revision: u64) -> Result<String, AllocError>
    requires { revision ≤ now keys.now.history }
    ensures { IfOk result (λ text. IsTextAt keys.now.history revision (string_bytes text)) }
{
    let past = past_of(alloc, keys, revision)?;
    let mut text = String::new(alloc);
    push_past(alloc, &mut text, &past)?;
    Ok(text)
}

/// Whether an event is asked for: each one, where no keys are named.
fn is_wanted(wanted: &Option<Watched>, event: &Event) -> bool
    ensures { result ≡ is_wanted wanted.now event.now }
{
    match wanted {
        None => true,
        Some(watched) => watched.has(event.key()),
    }
}

/// Adds the line of an event.
fn push_event(alloc: Global, text: &mut String, event: &Event) -> Result<(), AllocError>
    ensures { OnOk result (string_bytes text.new ≡ string_bytes text.old ++ line_text (event_data event.now)) }
{
    let line = event.to_json(alloc)?;
    push_line(alloc, text, &line)
}

/// Adds the line of an event, if it is asked for.
fn push_wanted(
    alloc: Global,
    text: &mut String,
    wanted: &Option<Watched>,
    event: &Event,
) -> Result<(), AllocError>
    ensures { OnOk result (string_bytes text.new ≡ string_bytes text.old ++ event_text wanted.now event.now) }
{
    if is_wanted(wanted, event) {
        return push_event(alloc, text, event);
    }
    Ok(())
}

/// Adds the lines of those of these events that are asked for.
fn push_events(
    alloc: Global,
    text: &mut String,
    wanted: &Option<Watched>,
    events: &[Event],
) -> Result<(), AllocError>
    ensures { OnOk result (string_bytes text.new ≡ string_bytes text.old ++ flat_map (event_text wanted.now) events.now) }
{
    for event in events {
        push_wanted(alloc, text, wanted, event)?;
    }
    Ok(())
}

/// A line for each event from a revision on that is asked for, in their order.
fn events_text(
    alloc: Global,
    keys: &Keys,
    from: u64,
    wanted: &Option<Watched>,
) -> Result<String, AllocError>
    ensures { IfOk result (λ text. string_bytes text ≡ text_since wanted.now keys.now.history from) }
{
    let mut text = String::new(alloc);
    for revision in from..keys.revision() + 1 {
        push_events(alloc, &mut text, wanted, keys.events_at(revision))?;
    }
    Ok(text)
}

/// A line for each key that was present at a revision of a store. `FutureRevision`: it is above the store's. `Compacted`: it is below the floor.
fn text_of_past(alloc: Global, store: &Store, revision: u64) -> Result<String, StoreFault>
    ensures text { IfOk result (λ text. IsTextAt store.now.standing.history revision (string_bytes text)) }
    ensures future { now store.now.standing.history < revision → result ≡ Err StoreFault.FutureRevision }
    ensures compacted { revision ≤ now store.now.standing.history → revision < store.now.standing.floor → result ≡ Err StoreFault.Compacted }
    ensures readable { OnOk result (CanBeRead revision store.now.standing) }
    ensures is_to_come { IfErr result (λ e. e ≡ StoreFault.FutureRevision → IsToCome revision store.now.standing) }
    ensures is_compacted { IfErr result (λ e. e ≡ StoreFault.Compacted → IsCompacted revision store.now.standing) }
{
    let keys = store.keys();
    if revision > keys.revision() {
        return Err(StoreFault::FutureRevision);
    }
    if revision < store.floor() {
        return Err(StoreFault::Compacted);
    }
    let text = text_at(alloc, keys, revision)?;
    Ok(text)
}

/// A line for each event of a store from a revision on that is asked for. `Compacted`: that revision is below the floor.
fn text_of_events(
    alloc: Global,
    store: &Store,
    from: u64,
    wanted: &Option<Watched>,
) -> Result<String, StoreFault>
    ensures text { IfOk result (λ text. string_bytes text ≡ text_since wanted.now store.now.standing.history from) }
    ensures compacted { from < store.now.standing.floor → result ≡ Err StoreFault.Compacted }
    ensures above_floor { OnOk result (store.now.standing.floor ≤ from) }
    ensures is_compacted { IfErr result (λ e. e ≡ StoreFault.Compacted → IsCompacted from store.now.standing) }
{
    if from < store.floor() {
        return Err(StoreFault::Compacted);
    }
    let text = events_text(alloc, store.keys(), from, wanted)?;
    Ok(text)
}

/// Writes the keys that the store of a file had at a revision, each as a line of a report, ascending by bytes. The file was opened with these bytes.
///
/// `FutureRevision`: the revision is above the store's. `Compacted`: it was compacted. At a refusal other than `Output` nothing was written. After each the
/// file opens to what it would have.
pub fn show_at<D: Disk, W: Sink>(
    records: &mut RecordFile<D>,
    bytes: Vec<u8>,
    revision: u64,
    out: &mut W,
) -> Result<(), StoreFault>
    requires bytes { bytes.items ≡ D.seen records.old.disk }
    requires durable { Only (D.seen records.old.disk) (D.may_leave records.old.disk) }
    requires usable { IsTrue (D.is_usable records.old.disk) }
    requires out_works { W.failed out.old ≡ false }
    ensures shown { OnOk result (HasShownPast (D.seen records.old.disk) revision (W.held out.old) (W.held out.new)) }
    ensures future { IfErr result (λ e. e ≡ StoreFault.FutureRevision → OpensToStore (D.seen records.old.disk) (IsToCome revision)) }
    ensures compacted { IfErr result (λ e. e ≡ StoreFault.Compacted → OpensToStore (D.seen records.old.disk) (IsCompacted revision)) }
    ensures silent { IfErr result (λ e. (e ≡ StoreFault.Output → ⊥) → W.held out.new ≡ W.held out.old) }
    ensures any_moment { LeavesOnly D.moment D.left_since records.old.disk records.new.disk (OpensAlike (D.seen records.old.disk)) }
{
    let kept = opened(records, bytes)?;
    let text = text_of_past(records.alloc, kept.world.store(), revision)?;
    print_text(text.as_str(), out)?;
    Ok(())
}

/// Writes the events of the store of a file from a revision on, each as an array on a line, in their order: those of the named keys, or all. The file was
/// opened with these bytes.
///
/// `Compacted`: that revision was compacted. At a refusal other than `Output` nothing was written. After each the file opens to what it would have.
pub fn show_since<D: Disk, W: Sink>(
    records: &mut RecordFile<D>,
    bytes: Vec<u8>,
    from: u64,
    wanted: &Option<Watched>,
    out: &mut W,
) -> Result<(), StoreFault>
    requires bytes { bytes.items ≡ D.seen records.old.disk }
    requires durable { Only (D.seen records.old.disk) (D.may_leave records.old.disk) }
    requires usable { IsTrue (D.is_usable records.old.disk) }
    requires out_works { W.failed out.old ≡ false }
    ensures shown { OnOk result (HasShownEvents (D.seen records.old.disk) wanted.now from (W.held out.old) (W.held out.new)) }
    ensures compacted { IfErr result (λ e. e ≡ StoreFault.Compacted → OpensToStore (D.seen records.old.disk) (IsCompacted from)) }
    ensures silent { IfErr result (λ e. (e ≡ StoreFault.Output → ⊥) → W.held out.new ≡ W.held out.old) }
    ensures any_moment { LeavesOnly D.moment D.left_since records.old.disk records.new.disk (OpensAlike (D.seen records.old.disk)) }
{
    let kept = opened(records, bytes)?;
    let text = text_of_events(records.alloc, kept.world.store(), from, wanted)?;
    print_text(text.as_str(), out)?;
    Ok(())
}
