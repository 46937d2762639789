//! The events that are about watchers, and a compaction. Each is one call of the journal's store, and none is an entry.
ghost use Rattle.std.specs.Prelude.{◌≡◌, ◌≢◌, Ok};
ghost use Rattle.stm_outcome.specs.declared.refusal.Refusal.TheVariants.{Compacted as CompactedRefusal};
ghost use Rattle.stm_txn.specs.Standing.{compacted};
ghost use Rattle.stm_events.specs.declared.reply.Reply.TheVariants.{Compacted as CompactedReply, Lost as LostReply};
ghost use Rattle.stm_events.specs.Replies.{denied as denied_for, event_refusal, reply_to, store_after_call};
ghost use Rattle.stm_events.specs.declared.event.WorldEvent.TheVariants.{WatchKey as WatchKeyEvent, WatchRange as WatchRangeEvent};
ghost use Rattle.stm_events.specs.declared.event.WorldEvent.TheVariants.{Poll as PollEvent, Cancel as CancelEvent};
ghost use Rattle.stm_retry.specs.CallReturns.{CallReturns};
ghost use Rattle.stm_journal.specs.JournalState.{with_store};

use crate::store_calls::refuse;
use std::alloc::Global;
use stm_events::{Denied, Reply};
use stm_journal::Journal;
use stm_txn::Refusal as StoreRefusal;

/// Begins to watch a key.
pub(crate) fn watch_key(
    alloc: Global,
    journal: &mut Journal,
    key: &str,
    from: u64,
) -> Result<Reply, Denied>
    ensures { CallReturns (WatchKeyEvent key.now from) result journal.old journal.new }
{
    match journal.watch_key(key, from) {
        Ok(watcher) => Ok(Reply::Watching { watcher }),
        Err(cause) => refuse(alloc, cause),
    }
}

/// Begins to watch a range of keys.
pub(crate) fn watch_range(
    alloc: Global,
    journal: &mut Journal,
    first: &str,
    end: &str,
    from: u64,
) -> Result<Reply, Denied>
    ensures { CallReturns (WatchRangeEvent first.now end.now from) result journal.old journal.new }
{
    match journal.watch_range(first, end, from) {
        Ok(watcher) => Ok(Reply::Watching { watcher }),
        Err(cause) => refuse(alloc, cause),
    }
}

/// The reply to a poll that the store refused: `Lost`, with the floor of the store, for a watcher that is lost.
fn refuse_poll(
    alloc: Global,
    watcher: u64,
    floor: u64,
    cause: StoreRefusal,
) -> Result<Reply, Denied>
    ensures lost { cause ≡ CompactedRefusal → result ≡ Ok (LostReply watcher floor) }
    ensures other { cause ≢ CompactedRefusal → result ≡ denied_for (event_refusal cause) }
{
    if cause == StoreRefusal::Compacted {
        return Ok(Reply::Lost { watcher, floor });
    }
    refuse(alloc, cause)
}

/// Returns what is pending for a watcher, of at most `most` revisions. A poll of one that is lost returns `Lost`, and gives it up.
pub(crate) fn poll(
    alloc: Global,
    journal: &mut Journal,
    watcher: u64,
    most: u64,
) -> Result<Reply, Denied>
    ensures { CallReturns (PollEvent watcher most) result journal.old journal.new }
{
    match journal.poll(watcher, most) {
        Ok(batch) => Ok(Reply::Batch {
            watcher,
            upto: batch.upto,
            events: batch.events,
        }),
        Err(cause) => refuse_poll(alloc, watcher, journal.store().floor(), cause),
    }
}

/// Gives a watcher up.
pub(crate) fn cancel(alloc: Global, journal: &mut Journal, watcher: u64) -> Result<Reply, Denied>
    ensures { CallReturns (CancelEvent watcher) result journal.old journal.new }
{
    match journal.cancel(watcher) {
        Ok(()) => Ok(Reply::Cancelled { watcher }),
        Err(cause) => refuse(alloc, cause),
    }
}

/// Compacts the store at a revision: what is below it is dropped.
pub(crate) fn compact(alloc: Global, journal: &mut Journal, revision: u64) -> Result<Reply, Denied>
    ensures reported { result ≡ reply_to (λ _. CompactedReply revision) (compacted journal.old.standing revision) }
    ensures store { journal.new ≡ with_store journal.old (store_after_call journal.old.standing (compacted journal.old.standing revision)) }
{
    match journal.compact(revision) {
        Ok(()) => Ok(Reply::Compacted { revision }),
        Err(cause) => refuse(alloc, cause),
    }
}
