//! Events that do nothing, or not what they seem to: those that are refused, and those that stand among the starts.

use crate::accounts::{NO_MEMORY, shown_text};
use crate::audience::Audience;
use crate::beginning::world_of;
use crate::setup::{is_start, setup_and_others};
use std::alloc::{AllocError, Global};
use stm_events::EventRefusal;
use stm_explain::Said;
use stm_outcome::Txn;
use stm_retry::{World, is_out_of_memory};
use stm_texts::{Scenario, WorldEvent};

/// What is said of a scenario that starts nothing.
const NO_START: &str =
    "no start: there is nothing to interleave; what is to run side by side has to be started";

/// A word of an event, or more, with the number behind it.
fn numbered(alloc: Global, words: &str, number: u64) -> Said {
    format!(in alloc; "{words} {number}")
}

/// The words of a grant.
fn grant_words(alloc: Global, id: u64, ttl: u64) -> Said {
    format!(in alloc; "grant {id} ttl {ttl}")
}

/// The words of a watch of the keys from one to before another.
fn range_words(alloc: Global, first: &str, end: &str) -> Said {
    let first = shown_text(alloc, first)?;
    let end = shown_text(alloc, end)?;
    let first = first.as_str();
    let end = end.as_str();
    format!(in alloc; "watch {first}..{end}")
}

/// The words of a watch of a key.
fn watch_words(alloc: Global, key: &str) -> Said {
    let key = shown_text(alloc, key)?;
    let key = key.as_str();
    format!(in alloc; "watch {key}")
}

/// An event as a source has it, without what is long.
pub(crate) fn event_words(alloc: Global, event: &WorldEvent) -> Said {
    match event {
        WorldEvent::Start { limit, .. } => numbered(alloc, "start with limit", *limit as u64),
        WorldEvent::Step { runner } => numbered(alloc, "step", *runner),
        WorldEvent::Txn { .. } => String::from_str(alloc, "txn"),
        WorldEvent::Grant { id, ttl } => grant_words(alloc, *id, *ttl),
        WorldEvent::Keep { id } => numbered(alloc, "keep", *id),
        WorldEvent::Revoke { id } => numbered(alloc, "revoke", *id),
        WorldEvent::Advance { now } => numbered(alloc, "advance to", *now),
        WorldEvent::WatchKey { key, .. } => watch_words(alloc, key.as_str()),
        WorldEvent::WatchRange { first, end, .. } => {
            range_words(alloc, first.as_str(), end.as_str())
        }
        WorldEvent::Poll { watcher, .. } => numbered(alloc, "poll", *watcher),
        WorldEvent::Cancel { watcher } => numbered(alloc, "cancel", *watcher),
        WorldEvent::Compact { revision } => numbered(alloc, "compact", *revision),
    }
}

/// Takes an event, and answers why it is refused, if it is.
fn refusal_of(world: &mut World, event: &WorldEvent) -> Result<Option<EventRefusal>, AllocError> {
    let reply = world.step(event);
    if is_out_of_memory(&reply) {
        return Err(AllocError);
    }
    match &reply {
        Ok(_) => Ok(None),
        Err(denied) => Ok(Some(denied.cause)),
    }
}

/// Says of the event with a number that it is refused.
fn tell_refusal<O: Audience>(
    alloc: Global,
    number: u64,
    event: &WorldEvent,
    when: &str,
    cause: EventRefusal,
    audience: &mut O,
) -> Result<(), AllocError> {
    let words = event_words(alloc, event)?;
    let words = words.as_str();
    let cause = cause.name();
    let line = format!(in alloc; "{words} is refused{when}: {cause}")?;
    audience.doubt_event(number, line.as_str());
    Ok(())
}

/// Whether a transaction that is refused for this cause is so whatever its keys are: for its form, or since it puts on a lease and compares nothing. No
/// runner grants or ends a lease.
fn is_sure_of_txn(txn: &Txn, cause: EventRefusal) -> bool {
    match cause {
        EventRefusal::TooManyOps | EventRefusal::EmptyKey | EventRefusal::DuplicateKey => true,
        EventRefusal::LeaseNotFound => txn.compares.as_slice().is_empty(),
        _ => false,
    }
}

/// Whether an event of the others that is refused for this cause is so whatever the runners did before it.
fn is_sure(event: &WorldEvent, cause: EventRefusal) -> bool {
    match event {
        WorldEvent::Txn { txn } => is_sure_of_txn(txn, cause),
        _ => true,
    }
}

/// Whether it depends on the store's revision, which commits of runners raise, that an event is refused for this cause. Of what comes behind such an
/// event, but for a transaction, nothing is sure.
fn depends_on_revision(event: &WorldEvent, cause: EventRefusal) -> bool {
    let is_txn = matches!(event, WorldEvent::Txn { .. });
    let is_by_revision = matches!(
        cause,
        EventRefusal::FutureRevision | EventRefusal::RevisionsUsedUp
    );
    is_by_revision && !is_txn
}

/// Says which of these events are refused, one after another, before which so many stand: of the set-up each that is, and of the others those that are it in
/// every order, by one in which no runner steps before them.
fn tell_refusals<O: Audience>(
    alloc: Global,
    world: &mut World,
    before: usize,
    events: &[WorldEvent],
    is_setup: bool,
    audience: &mut O,
) -> Result<(), AllocError> {
    let when = if is_setup { "" } else { " in every order" };
    let mut number = before as u64;
    for event in events {
        number = number.saturating_add(1);
        if let Some(cause) = refusal_of(world, event)? {
            if !is_setup && depends_on_revision(event, cause) {
                return Ok(());
            }
            if is_setup || is_sure(event, cause) {
                tell_refusal(alloc, number, event, when, cause, audience)?;
            }
        }
    }
    Ok(())
}

/// Whether an event that stands among the starts may well be meant to come while runners step.
fn is_early(event: &WorldEvent) -> bool {
    match event {
        WorldEvent::Start { .. } | WorldEvent::Txn { .. } => false,
        _ => true,
    }
}

/// Says which events of the set-up stand among the starts.
fn tell_early<O: Audience>(
    alloc: Global,
    setup: &[WorldEvent],
    audience: &mut O,
) -> Result<(), AllocError> {
    let mut number = 0u64;
    let mut is_started = false;
    for event in setup {
        number = number.saturating_add(1);
        is_started = is_started || is_start(event);
        if is_started && is_early(event) {
            let words = event_words(alloc, event)?;
            let words = words.as_str();
            let line = format!(in alloc;
                "{words} stands before the last start, and so is over before any step"
            )?;
            audience.hear_event(number, line.as_str());
        }
    }
    Ok(())
}

/// Says of events in a new world what `tell_events` says.
fn tell_in<O: Audience>(
    alloc: Global,
    world: &mut World,
    events: &[WorldEvent],
    audience: &mut O,
) -> Result<(), AllocError> {
    let (setup, others) = setup_and_others(events);
    if setup.is_empty() {
        audience.doubt(NO_START);
        return tell_refusals(alloc, world, 0, others, true, audience);
    }
    tell_refusals(alloc, world, 0, setup, true, audience)?;
    tell_early(alloc, setup, audience)?;
    tell_refusals(alloc, world, setup.len(), others, false, audience)
}

/// The same of a scenario.
fn tell_of<O: Audience>(
    alloc: Global,
    scenario: &Scenario,
    audience: &mut O,
) -> Result<(), AllocError> {
    let mut world = world_of(alloc, scenario)?;
    let told = tell_in(alloc, &mut world, scenario.events.as_slice(), audience);
    drop(world);
    told
}

/// Says which events of a scenario without steps are refused, those of the others in every order, which ones stand among the starts, and where there is no
/// start. Or it says that an allocation failed for it.
pub(crate) fn tell_events<O: Audience>(alloc: Global, scenario: &Scenario, audience: &mut O) {
    if let Err(_) = tell_of(alloc, scenario, audience) {
        audience.hear(NO_MEMORY);
    }
}
