//! Why the commit of an attempt is turned down before anything is written.
ghost use Rattle.std.specs.Prelude.{◌≡◌, ◌≤◌, length};
ghost use Rattle.stm_outcome.specs.Checks.{has_empty_key};
ghost use Rattle.stm_outcome.specs.Terms.{most_operations};
ghost use Rattle.stm_journal.specs.Causes.{cause_of, cause_compared, cause_unvouched, checked};
ghost use Rattle.stm_journal.specs.Verdicts.{txn_of, first_unvouched};

use crate::conflicts::find_conflict;
use crate::faults::{find_fault, names_empty_key};
use crate::still::is_clear;
use crate::vouching::find_unvouched;
use stm_attempt::Ready;
use stm_keys::Keys;
use stm_txn::{FailedCompare, Refusal, Store};

/// Why a commit is turned down before anything is written.
#[derive(Drop)]
pub(crate) enum Cause {
    /// Its transaction is wrong as a whole.
    Wrong(Refusal),
    /// This compare of it is the first that fails.
    Fails(FailedCompare),
    /// A value that its attempt says it read is not the store's.
    Unvouched,
}

/// Whether a value that an attempt says it read is not the store's.
fn find_false_value(keys: &Keys, ready: &Ready) -> Option<Cause>
    ensures { result ≡ cause_unvouched (first_unvouched keys.now.history ready.now.level ready.now.answers) }
{
    match find_unvouched(keys, ready) {
        None => None,
        Some(_) => Some(Cause::Unvouched),
    }
}

/// Why a commit is turned down with which nothing is wrong as a whole. Its compares are no more than any store takes.
///
/// Most are turned down for nothing, which is seen by one look-up of each key.
fn find_failure(keys: &Keys, ready: &Ready) -> Option<Cause>
    requires { length (txn_of ready.now).compares ≤ most_operations }
    ensures { result ≡ cause_compared keys.now.history ready.now }
{
    if is_clear(keys, ready) {
        return None;
    }
    match find_conflict(keys, ready) {
        None => find_false_value(keys, ready),
        Some(failed) => Some(Cause::Fails(failed)),
    }
}

/// Why a store, as it is now, turns down the commit of an attempt; `has_empty` says whether that names an empty key. It takes no memory.
pub(crate) fn find_cause(store: &Store, has_empty: bool, ready: &Ready) -> Option<Cause>
    requires { has_empty ≡ has_empty_key (txn_of ready.now) }
    ensures { result ≡ cause_of store.now.standing ready.now }
{
    let most = store.limit();
    match find_fault(most, has_empty, ready) {
        None => find_failure(store.keys(), ready),
        Some(fault) => Some(Cause::Wrong(fault)),
    }
}

/// What a store makes of the compares of an attempt's commit, as it is now: the first that fails. It takes no memory.
///
/// The commit is refused where its transaction is wrong as a whole. What the attempt says it read is the store's own.
pub(crate) fn check(store: &Store, ready: &Ready) -> Result<Option<FailedCompare>, Refusal>
    ensures { result ≡ checked store.now.standing ready.now }
{
    let most = store.limit();
    match find_fault(most, names_empty_key(ready), ready) {
        None => Ok(find_conflict(store.keys(), ready)),
        Some(fault) => Err(fault),
    }
}
