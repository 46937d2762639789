//! What watchers see of a revision.
ghost use Rattle.std.specs.Prelude.{◌≡◌, ◌≤◌, ◌++◌, [], ◌∷◌, IfOk, OnOk};
ghost use Rattle.stm_history.specs.History.{now};
ghost use Rattle.stm_keys.specs.Events.{events_of};
ghost use Rattle.stm_watch.specs.Pending.{matching};
ghost use Rattle.stm_watch.specs.Walk.{first_above};

use crate::watched::Watched;
use std::alloc::{AllocError, Global};
use stm_keys::{Event, Keys, Sequence};

/// A revision's events for a watcher, in the order of operations.
#[derive(Debug, Drop)]
pub struct PendingRevision {
    /// The revision's number.
    pub number: u64,
    /// Its events that match.
    pub events: Sequence<Event>,
}

/// Puts a copy of an event after these, where it is of a key that is watched.
fn push_matching(
    copies: &mut Vec<Event>,
    watched: &Watched,
    event: &Event,
) -> Result<(), AllocError>
    ensures { OnOk result (copies.new.items ≡ copies.old.items ++ matching watched.now (event.now ∷ [])) }
{
    if watched.has(event.key()) {
        copies.push(event.clone()?)?;
    }
    Ok(())
}

/// Copies of those of these events that are of keys that are watched.
fn copy_matching(
    alloc: Global,
    watched: &Watched,
    events: &[Event],
) -> Result<Vec<Event>, AllocError>
    ensures { IfOk result (λ copies. copies.items ≡ matching watched.now events.now) }
{
    let mut copies = Vec::new(alloc);
    for event in events {
        push_matching(&mut copies, watched, event)?;
    }
    Ok(copies)
}

/// Copies of those events of a revision that are of keys that are watched. Of a revision of many events not all are looked at.
pub(crate) fn copy_pending(
    alloc: Global,
    keys: &Keys,
    watched: &Watched,
    number: u64,
) -> Result<Vec<Event>, AllocError>
    requires { number ≤ now keys.now.history }
    ensures { IfOk result (λ copies. copies.items ≡ matching watched.now (events_of keys.now.history number)) }
{
    let events = keys.events_within(number, watched.first_key(), watched.last_key());
    let copies = copy_matching(alloc, watched, events)?;
    Ok(copies)
}

/// The first revision above one of which a watcher is notified: of a key by halves among the revisions that
/// changed it, of a range past those of which the store noted that they change no key of it. It takes no memory.
pub(crate) fn next_number(keys: &Keys, watched: &Watched, above: u64) -> Option<u64>
    ensures { result ≡ first_above keys.now.history watched.now above }
{
    match watched {
        Watched::Key(key) => keys.next_change(key.as_str(), above),
        Watched::Range { first, end } => keys.next_change_between(first, end, above),
    }
}
