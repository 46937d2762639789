//! The commit of a transaction to a store.
ghost use Rattle.std.specs.Prelude.{◌≡◌, ◌↔◌, true, IsTrue, All};
ghost use Rattle.std.specs.Option.{option_copied};
ghost use Rattle.stm_hall.specs.Showing.{IsShown};
ghost use Rattle.stm_closures.specs.Outcomes.{CommitReturns};
ghost use Rattle.stm_closures.specs.Committing.{IsCommitted};

use crate::rereading::read_all_again;
use crate::store_access::CommitOutcome;
use std::alloc::Global;
use stm_attempt::{Level, ReadSet, WriteBuffer, compile};
use stm_hall::{ReadAnswer, Refusal, Store};
use stm_history::{KeyState, are_same_states};
use stm_keys::Keys;

/// Whether a key is absent in both, or has the same state in both.
fn is_same_state(left: Option<&KeyState>, right: &Option<KeyState>) -> bool
    ensures { IsTrue result ↔ option_copied left.entry ≡ right.now }
{
    match left {
        None => right.is_none(),
        Some(state) => match right {
            None => false,
            Some(other) => are_same_states(state, other),
        },
    }
}

/// Whether the history shows an answer.
fn is_shown(keys: &Keys, answer: &ReadAnswer) -> bool
    ensures { IsTrue result ↔ IsShown keys.now.history answer.now }
{
    if answer.of_rev == 0 || keys.revision() < answer.of_rev {
        return false;
    }
    is_same_state(
        keys.look_back(answer.key.as_str(), answer.of_rev),
        &answer.kv,
    )
}

/// Whether a store's history shows all these answers, each at a revision that is not 0. A `Commit` of your own asks this of what it is handed, since a closure
/// may have left another transaction in the place of its own.
pub fn are_shown(keys: &Keys, answers: &[ReadAnswer]) -> bool
    ensures { IsTrue result ↔ All (IsShown keys.now.history) answers.now }
{
    match answers {
        [] => true,
        [first, rest @ ..] => is_shown(keys, first) && are_shown(keys, rest),
    }
}

/// Commits what was read and written, by one transaction.
pub(crate) fn commit_to_store(
    alloc: Global,
    store: &mut Store,
    level: Level,
    reads: &ReadSet,
    writes: &WriteBuffer,
) -> Result<CommitOutcome, Refusal>
    ensures { CommitReturns (IsCommitted store.old.standing level reads.now writes.now store.new.standing) (store.new.standing ≡ store.old.standing) result }
{
    if !are_shown(store.keys(), reads.as_slice()) {
        return Ok(CommitOutcome::Exchanged);
    }
    let txn = compile(alloc, level, reads, writes)?;
    let answer = store.txn(&txn)?;
    if answer.failed.is_none() {
        return Ok(CommitOutcome::Committed);
    }
    let again = read_all_again(alloc, store, level, reads);
    Ok(CommitOutcome::Conflict { again })
}
