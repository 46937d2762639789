//! Reading the events of watchers.
ghost use Rattle.serde_json.specs.View.{items_view};
ghost use Rattle.stm_json.specs.Elements.{one_of, two_of, three_of};
ghost use Rattle.stm_json.specs.Returns.{Returns};
ghost use Rattle.stm_texts.specs.Reading.{watch_key_of, watch_range_of, poll_of, cancel_of, watcher_event as event_of_watcher};

use serde_json::Value;
use std::alloc::Global;
use stm_events::WorldEvent;
use stm_json::{Cause, ReadError, fault, number_part, one, text_part, three, two};

fn watch_key(alloc: Global, elements: &[Value]) -> Result<WorldEvent, ReadError>
    ensures { Returns (λ e. e) result (watch_key_of (two_of (items_view elements.now))) }
{
    let Some((first, second)) = two(elements) else {
        return Err(fault(alloc, Cause::Shape));
    };
    let key = text_part(alloc, 1, first)?;
    let from = number_part(alloc, 2, second)?;
    Ok(WorldEvent::WatchKey { key, from })
}

fn watch_range(alloc: Global, elements: &[Value]) -> Result<WorldEvent, ReadError>
    ensures { Returns (λ e. e) result (watch_range_of (three_of (items_view elements.now))) }
{
    let Some((first, second, third)) = three(elements) else {
        return Err(fault(alloc, Cause::Shape));
    };
    let first = text_part(alloc, 1, first)?;
    let end = text_part(alloc, 2, second)?;
    let from = number_part(alloc, 3, third)?;
    Ok(WorldEvent::WatchRange { first, end, from })
}

fn poll(alloc: Global, elements: &[Value]) -> Result<WorldEvent, ReadError>
    ensures { Returns (λ e. e) result (poll_of (two_of (items_view elements.now))) }
{
    let Some((first, second)) = two(elements) else {
        return Err(fault(alloc, Cause::Shape));
    };
    let watcher = number_part(alloc, 1, first)?;
    let most = number_part(alloc, 2, second)?;
    Ok(WorldEvent::Poll { watcher, most })
}

fn cancel(alloc: Global, elements: &[Value]) -> Result<WorldEvent, ReadError>
    ensures { Returns (λ e. e) result (cancel_of (one_of (items_view elements.now))) }
{
    let Some(first) = one(elements) else {
        return Err(fault(alloc, Cause::Shape));
    };
    let watcher = number_part(alloc, 1, first)?;
    Ok(WorldEvent::Cancel { watcher })
}

/// The event of a watcher's word, from the elements after it.
#[tactic(auto, unfolding(crate::specs::Reading::watcher_event))]
pub(crate) fn watcher_event(
    alloc: Global,
    word: &str,
    elements: &[Value],
) -> Result<WorldEvent, ReadError>
    ensures { Returns (λ e. e) result (event_of_watcher word.now (items_view elements.now)) }
{
    if word == "watch_key" {
        watch_key(alloc, elements)
    } else if word == "watch_range" {
        watch_range(alloc, elements)
    } else if word == "poll" {
        poll(alloc, elements)
    } else if word == "cancel" {
        cancel(alloc, elements)
    } else {
        Err(fault(alloc, Cause::Shape))
    }
}
