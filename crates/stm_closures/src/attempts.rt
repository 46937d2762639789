//! A transaction as a closure.
ghost use Rattle.std.specs.Prelude.{◌≡◌, ◌+◌, ◌≤◌, IfOk, IfErr, OnErr};
ghost use Rattle.stm_closures.specs.Committing.{IsDone, HasFailed, IfClosure};

use crate::not_committed::NotCommitted;
use crate::store_access::{Commit, CommitOutcome, Fetch};
use crate::transaction::Transaction;
use std::alloc::Global;
use stm_attempt::{Level, ReadSet};

/// Runs a closure as a transaction: calls it at a transaction that has just begun and commits what it read and wrote, until a commit succeeds, at most
/// this many times.
///
/// What a transaction sees, `Transaction::get` and the calls beside it say; what a commit compares is the level's. After a commit that failed the
/// closure is called again, at a new transaction. Nothing is asked of the closure but that it may be called.
///
/// Refused, nothing was committed. `Closure`: the closure returned this error, and no commit was sent for that call. `AttemptsUsedUp`: each of the
/// commits failed. `Exchanged`: what the closure left in its transaction's place is of another level, or shows an answer that is not this store's.
/// `Refused`: the store refused a commit. (The Go package `clientv3/concurrency`, "NewSTM"; that the number of commits is bounded is our own.)
pub fn atomically<R: Drop, E: Drop, D: Fetch + Commit, F: Fn(&mut Transaction<D>) -> Result<R, E>>(
    alloc: Global,
    store: &mut D,
    level: Level,
    attempts: u64,
    body: F,
) -> Result<R, NotCommitted<E>>
    requires { F.IsAlwaysCallable body }
    ensures done { IfOk result (λ answer. IsDone F.Fn body level (λ reads writes. D.holds store.old level reads writes store.new) answer) }
    ensures closure { IfErr result (IfClosure (HasFailed F.Fn body level)) }
    ensures nothing { OnErr result (D.is_left store.old store.new) }
    ensures few { D.sent store.new ≤ D.sent store.old + attempts }
{
    let mut again = ReadSet::new(alloc);
    for sent in 0..attempts {
        let mut tx = Transaction::begin(alloc, store, level, again);
        let answer = match body(&mut tx) {
            Ok(answer) => answer,
            Err(error) => return Err(NotCommitted::Closure(error)),
        };
        let (left_at, reads, writes) = tx.into_parts();
        if !left_at.is_same(level) {
            return Err(NotCommitted::Exchanged);
        }
        match store.commit(alloc, level, &reads, &writes) {
            Ok(CommitOutcome::Committed) => return Ok(answer),
            Ok(CommitOutcome::Conflict { again: read_again }) => again = read_again,
            Ok(CommitOutcome::Exchanged) => return Err(NotCommitted::Exchanged),
            Err(refusal) => return Err(NotCommitted::Refused(refusal)),
        }
    }
    Err(NotCommitted::AttemptsUsedUp)
}
