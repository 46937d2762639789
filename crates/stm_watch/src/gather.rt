//! The batch of a poll.
ghost use Rattle.std.specs.Prelude.{◌≡◌, None, IfOk, max};
ghost use Rattle.stm_history.specs.History.{now};
ghost use Rattle.stm_watch.specs.Pending.{batch_of, after_poll, first_pending};
ghost use Rattle.stm_watch.specs.Slots.{IsFollowed, followed};

use crate::pending_revision::{copy_pending, next_number};
use crate::watched::Watcher;
use crate::watchers::Batch;
use std::alloc::{AllocError, Global};
use stm_keys::{Event, Keys, Sequence};

/// A batch, and the first revision of which events are pending after it.
#[derive(Drop)]
pub(crate) struct PolledBatch {
    pub(crate) batch: Batch,
    pub(crate) next: Option<u64>,
}

impl PolledBatch {
    /// The batch with these events, after which none are pending.
    fn all(events: Vec<Event>, upto: u64) -> PolledBatch
        ensures events { result.batch.events ≡ events.items }
        ensures upto { result.batch.upto ≡ upto }
        ensures next { result.next ≡ None }
    {
        PolledBatch {
            batch: Batch {
                events: Sequence::of(events),
                upto,
            },
            next: None,
        }
    }
}

/// Up to which revision a watcher has been notified once nothing is pending.
fn reported_all(keys: &Keys, watcher: &Watcher) -> u64
    ensures { result ≡ max watcher.now.seen (now keys.now.history) }
{
    watcher.seen.max(keys.revision())
}

/// The pending events of a watcher, of at most `most` revisions. A revision of a range is looked for from the last
/// one that was given, and where nothing is pending, none is looked at.
pub(crate) fn gather(
    alloc: Global,
    keys: &Keys,
    watcher: &Watcher,
    most: u64,
) -> Result<PolledBatch, AllocError>
    requires { IsFollowed keys.now.history watcher.now }
    ensures batch { IfOk result (λ g. g.batch ≡ batch_of most keys.now.history (followed watcher.now)) }
    ensures next { IfOk result (λ g. g.next ≡ first_pending keys.now.history (after_poll most keys.now.history (followed watcher.now))) }
{
    let mut events = Vec::new(alloc);
    let mut upto = watcher.seen;
    let mut next = watcher.first;
    let mut count = 0;
    while count < most {
        let Some(number) = next else {
            return Ok(PolledBatch::all(events, reported_all(keys, watcher)));
        };
        let mut reported = copy_pending(alloc, keys, &watcher.watched, number)?;
        events.append(&mut reported)?;
        upto = number;
        next = next_number(keys, &watcher.watched, number);
        count += 1;
    }
    if next.is_none() {
        return Ok(PolledBatch::all(events, reported_all(keys, watcher)));
    }
    let events = Sequence::of(events);
    Ok(PolledBatch {
        batch: Batch { events, upto },
        next,
    })
}
