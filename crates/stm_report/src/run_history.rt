//! A run that keeps the whole history of its store, also what a compaction drops.
ghost use Rattle.std.specs.Prelude.{◌≡◌, ◌<◌, ◌+◌, map, IfOk, OnOk};
ghost use Rattle.std.specs.List.{list_any};
ghost use Rattle.stm_history.specs.History.{now};
ghost use Rattle.stm_keys.specs.Events.{change_of_event};
ghost use Rattle.stm_world.specs.World.{step, world_after, replies_to};
ghost use Rattle.stm_report.specs.RunHistory.{is_compaction, IsBehind, IsWhole};

use std::alloc::{AllocError, Global};
use stm_events::Event;
use stm_history::Change;
use stm_keys::Keys;
use stm_retry::{Denied, Reply, World, WorldEvent, is_out_of_memory};

/// Whether an event compacts the store.
fn is_compaction(event: &WorldEvent) -> bool
    ensures { result ≡ is_compaction event.now }
{
    matches!(event, WorldEvent::Compact { .. })
}

/// Whether one of these events compacts the store.
pub(crate) fn has_compaction(events: &[WorldEvent]) -> bool
    ensures { result ≡ list_any is_compaction events.now }
{
    events.iter().any(is_compaction)
}

/// The change that an event shows.
fn change_of(event: &Event) -> Result<Change, AllocError>
    ensures { IfOk result (λ change. change ≡ change_of_event event.now) }
{
    match event {
        Event::Put { key, state } => {
            let key = key.text().clone()?;
            let value = state.value.clone()?;
            Ok(Change::Put {
                key,
                value,
                lease: state.lease,
            })
        }
        Event::Delete { key, .. } => {
            let key = key.text().clone()?;
            Ok(Change::Del { key })
        }
    }
}

/// The changes that these events show.
fn changes_of(alloc: Global, events: &[Event]) -> Result<Vec<Change>, AllocError>
    ensures { IfOk result (λ changes. changes.items ≡ map change_of_event events.now) }
{
    let mut changes = Vec::with_capacity(alloc, events.len())?;
    for event in events {
        changes.push(change_of(event)?)?;
    }
    Ok(changes)
}

/// Adds the first revision that these keys lack of those of a world's store.
fn add_next(alloc: Global, whole: &mut Keys, world: &World) -> Result<(), AllocError>
    requires behind { IsBehind whole.old.history world.now }
    requires lacks { now whole.old.history < now world.now.standing.history }
    ensures behind { OnOk result (IsBehind whole.new.history world.now) }
    ensures next { OnOk result (now whole.new.history ≡ now whole.old.history + 1) }
{
    let events = world.store().keys().events_at(whole.revision() + 1);
    let changes = changes_of(alloc, events)?;
    match whole.apply_all(changes) {
        Ok(_) => Ok(()),
        Err(_) => Err(AllocError),
    }
}

/// Adds the revisions that these keys lack of those of a world's store.
fn catch_up(alloc: Global, whole: &mut Keys, world: &World) -> Result<(), AllocError>
    requires { IsBehind whole.old.history world.now }
    ensures { OnOk result (IsWhole whole.new.history world.now) }
{
    let last = world.store().keys().revision();
    'revisions: while whole.revision() < last {
        add_next(alloc, whole, world)?;
    }
    Ok(())
}

/// Takes an event, and adds what it changed to the keys, which have the whole history.
fn take_event(
    alloc: Global,
    world: &mut World,
    whole: &mut Keys,
    event: &WorldEvent,
) -> Result<Result<Reply, Denied>, AllocError>
    requires { IsWhole whole.old.history world.old }
    ensures reply { IfOk result (λ reply. reply ≡ (step event.now world.old).reply) }
    ensures world { OnOk result (world.new ≡ (step event.now world.old).next) }
    ensures whole { OnOk result (IsWhole whole.new.history world.new) }
{
    let reply = world.step(event);
    if is_out_of_memory(&reply) {
        return Err(AllocError);
    }
    match catch_up(alloc, whole, world) {
        Ok(()) => Ok(reply),
        Err(_) => {
            drop(reply);
            Err(AllocError)
        }
    }
}

/// Takes these events in their order, and returns their replies. What they change is added to the keys, which have the whole history.
pub(crate) fn run_with_history(
    alloc: Global,
    world: &mut World,
    whole: &mut Keys,
    events: &[WorldEvent],
) -> Result<Vec<Result<Reply, Denied>>, AllocError>
    requires { IsWhole whole.old.history world.old }
    ensures replies { IfOk result (λ replies. replies.items ≡ replies_to events.now world.old) }
    ensures world { OnOk result (world.new ≡ world_after events.now world.old) }
    ensures whole { OnOk result (IsWhole whole.new.history world.new) }
{
    let mut replies = Vec::with_capacity(alloc, events.len())?;
    for event in events {
        replies.push(take_event(alloc, world, whole, event)?)?;
    }
    Ok(replies)
}
