//! The text of a scenario that makes the calls and the changes of a run of jobs again: no clause speaks of it, since what it comes to is looked at before it
//! is kept.
ghost use Rattle.std.specs.Prelude.{◌≡◌, ◌≤◌, false};
ghost use Rattle.serde_json.specs.View.{view};
ghost use Rattle.serde_json.specs.Written.{has_float};
ghost use Rattle.stm_history.specs.History.{now};

use serde_json::Value as Json;
use std::alloc::{AllocError, Global};
use stm_keys::{Event, Keys};
use stm_report::{Opening, WorldEvent};
use stm_texts::{event_json, opening_json};
use stm_txn::{Op, ShortList, Txn};

/// The operation that makes the change of an event.
fn op_of(event: &Event) -> Result<Op, AllocError> {
    let key = event.key().clone()?;
    match event {
        Event::Put { state, .. } => Ok(Op::Put {
            key,
            value: state.value.clone()?,
            lease: state.lease,
        }),
        Event::Delete { .. } => Ok(Op::Del { key }),
    }
}

/// The transaction that makes the changes of these events.
fn txn_of(alloc: Global, events: &[Event]) -> Result<WorldEvent, AllocError> {
    let mut success = ShortList::new(alloc);
    for event in events {
        success.push(op_of(event)?)?;
    }
    let txn = Txn {
        compares: ShortList::new(alloc),
        success,
        failure: ShortList::new(alloc),
    };
    Ok(WorldEvent::Txn { txn })
}

/// Adds an element, behind a comma where it is not the first.
fn push_element(alloc: Global, text: &mut String, element: &Json) -> Result<(), AllocError>
    requires { has_float (view element.now) ≡ false }
{
    if text.len() > 1 {
        text.push(',')?;
    }
    let compact = element.to_string(alloc)?;
    text.push_str(compact.as_str())
}

/// Adds an event.
pub(crate) fn push_event(
    alloc: Global,
    text: &mut String,
    event: &WorldEvent,
) -> Result<(), AllocError> {
    let element = event_json(alloc, event)?;
    push_element(alloc, text, &element)
}

/// Adds these events.
fn push_events(alloc: Global, text: &mut String, events: &[WorldEvent]) -> Result<(), AllocError> {
    for event in events {
        push_event(alloc, text, event)?;
    }
    Ok(())
}

/// Adds the transaction that makes the changes of a revision.
pub(crate) fn push_revision(
    alloc: Global,
    text: &mut String,
    keys: &Keys,
    revision: u64,
) -> Result<(), AllocError>
    requires { revision ≤ now keys.now.history }
{
    let txn = txn_of(alloc, keys.events_at(revision))?;
    push_event(alloc, text, &txn)
}

/// Adds a transaction for each revision above this one.
fn push_changes(
    alloc: Global,
    text: &mut String,
    keys: &Keys,
    since: u64,
) -> Result<(), AllocError> {
    for revision in since..keys.revision() {
        push_revision(alloc, text, keys, revision + 1)?;
    }
    Ok(())
}

/// Adds what a store opens with.
fn push_opening(
    alloc: Global,
    text: &mut String,
    opening: Option<Opening>,
) -> Result<(), AllocError> {
    match opening {
        Some(opening) => {
            let element = opening_json(alloc, opening)?;
            push_element(alloc, text, &element)
        }
        None => Ok(()),
    }
}

/// The text of a scenario that opens so, makes these calls, and then the changes of each revision of these keys above this one.
pub(crate) fn changes_text(
    alloc: Global,
    opening: Option<Opening>,
    calls: &[WorldEvent],
    keys: &Keys,
    since: u64,
) -> Result<String, AllocError> {
    let mut text = String::from_str(alloc, "[")?;
    push_opening(alloc, &mut text, opening)?;
    push_events(alloc, &mut text, calls)?;
    push_changes(alloc, &mut text, keys, since)?;
    text.push(']')?;
    Ok(text)
}
