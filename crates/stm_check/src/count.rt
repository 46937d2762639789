//! How many entries the reply to an event reports.
ghost use Rattle.std.specs.Prelude.{◌≡◌, ◌+◌, length, IfOk};
ghost use Rattle.stm_history.specs.History.{History, now};
ghost use Rattle.stm_outcome.specs.declared.txn.Txn.{Txn as StoreTxn};
ghost use Rattle.stm_txn.specs.Standing.{Standing};
ghost use Rattle.stm_entries.specs.declared.entry.Entry.{Entry};
ghost use Rattle.stm_entries.specs.Entered.{if_changed, expiries};
ghost use Rattle.stm_events.specs.Called.{Txn as TxnCall, Calls, asked, called, if_reported, expired_reported};
ghost use Rattle.stm_check.specs.Point.{step_entries, entries_reported};
ghost use Rattle.stm_check.specs.Runners.{running};

use crate::runner::{Runner, is_running};
use std::alloc::AllocError;
use stm_events::{Denied, Reply, WorldEvent};

/// How many entries a transaction is, by the revisions of the store before and after it: one where it changed something.
fn count_txn(before: u64, after: u64) -> u64
    ensures { (s next : Standing) (txn : StoreTxn) → now s.history ≡ before → now next.history ≡ after → result ≡ length (if_changed s next txn) }
{
    if before < after { 1 } else { 0 }
}

/// How many entries the reply to a call of one lease reports.
fn count_taken(reply: &Result<Reply, Denied>) -> u64
    ensures { (entry : Entry) → result ≡ length (if_reported reply.now entry) }
{
    match reply {
        Ok(_) => 1,
        Err(_) => 0,
    }
}

/// How many entries the reply to an advance reports.
fn count_advance(reply: &Result<Reply, Denied>) -> u64
    ensures { result ≡ length (expiries (expired_reported reply.now)) }
{
    match reply {
        Ok(Reply::Advanced { expired, .. }) => expired.len() as u64,
        Err(denied) => denied.expired.len() as u64,
        _ => 0,
    }
}

/// How many entries the reply to a step reports.
fn count_step(runners: &[Runner], id: u64, reply: &Result<Reply, Denied>) -> u64
    ensures { (h : History) → result ≡ length (step_entries h (running id runners.now) reply.now) }
{
    match reply {
        Ok(Reply::Committed { .. }) => { if is_running(runners, id) { 1 } else { 0 } }
        _ => 0,
    }
}

/// How many entries the reply to an event reports, which led the store from one revision to another.
pub(crate) fn count_reported(
    before: u64,
    after: u64,
    runners: &[Runner],
    event: &WorldEvent,
    reply: &Result<Reply, Denied>,
) -> u64
    ensures { (s : Standing) → now s.history ≡ before
        → ((txn : StoreTxn) → asked event.now ≡ Calls (TxnCall txn) → now (called s (TxnCall txn)).next.history ≡ after)
        → result ≡ length (entries_reported s runners.now event.now reply.now) }
{
    match event {
        WorldEvent::Step { runner } => count_step(runners, *runner, reply),
        WorldEvent::Txn { .. } => count_txn(before, after),
        WorldEvent::Grant { .. } => count_taken(reply),
        WorldEvent::Keep { .. } => count_taken(reply),
        WorldEvent::Revoke { .. } => count_taken(reply),
        WorldEvent::Advance { .. } => count_advance(reply),
        _ => 0,
    }
}

/// The number of entries with those that a reply reports. A number beyond 64 bits is returned as a failed allocation.
pub(crate) fn add_count(entries: u64, more: u64) -> Result<u64, AllocError>
    ensures { IfOk result (λ count. count ≡ entries + more) }
{
    match entries.checked_add(more) {
        Some(count) => Ok(count),
        None => Err(AllocError),
    }
}
