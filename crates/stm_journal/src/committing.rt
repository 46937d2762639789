//! The commit of an attempt.
ghost use Rattle.std.specs.Prelude.{◌≡◌, Some, Ok, Err, IfOk, IfSome};
ghost use Rattle.stm_attempt.specs.ReadyRun.{IsRunOnItsAnswers};
ghost use Rattle.stm_journal.specs.declared.causes.Cause.TheVariants.{Unvouched as IsUnvouched};
ghost use Rattle.stm_journal.specs.declared.refusal.CommitRefusal.TheVariants.{Unvouched as RefusesValue};
ghost use Rattle.stm_journal.specs.Causes.{cause_of, checked, IsClear, IsForeseenBy, TurnsDown};
ghost use Rattle.stm_journal.specs.Verdicts.{taken_by_store, sent, refused_by_store, SendsAs, CommitsAs, CanGoOn};

use crate::causes::{Cause, check};
use crate::commit_entry::parts_of;
use crate::failing::fail;
use crate::prepared::Prepared;
use crate::refusal::CommitRefusal;
use crate::verdict::Verdict;
use crate::vouching::find_unvouched;
use std::alloc::{AllocError, Global};
use stm_attempt::Ready;
use stm_entries::Entry;
use stm_history::Text;
use stm_txn::{FailedCompare, Refusal, Store};

/// Makes the commit of an attempt that nothing but the store's leases, its last revision and memory can refuse.
///
/// The room of its entry is made before its changes, so that a commit that the store took is never without it.
fn make(
    alloc: Global,
    store: &mut Store,
    entries: &mut Vec<Entry>,
    ready: Ready,
) -> Result<Verdict, Refusal>
    requires clear { IsClear store.old.standing ready }
    requires run { IsRunOnItsAnswers ready }
    ensures verdict { SendsAs (λ journal. taken_by_store journal ready) result store.old.standing entries.old.items store.new.standing entries.new.items }
    ensures answers { IfOk result CanGoOn }
{
    if entries.reserve(1).is_err() {
        drop(ready);
        return Err(Refusal::OutOfMemory);
    }
    let (kept, changes) = parts_of(alloc, ready);
    match store.write(changes) {
        Ok(revision) => {
            let index = entries.len();
            entries.push_reserved(kept.into_entry(revision));
            Ok(Verdict::Committed { index, revision })
        }
        Err(cause) => {
            drop(kept);
            Err(cause)
        }
    }
}

// ---- an attempt whose answers are the store's own

/// Foresees the commit of an attempt of which this compare fails.
fn turn_down_trusted(
    alloc: Global,
    store: &Store,
    ready: &Ready,
    failed: FailedCompare,
) -> Result<Option<Verdict>, Refusal>
    requires { checked store.now.standing ready.now ≡ Ok (Some failed) }
    ensures verdict { IsForeseenBy store.now.standing ready.now result }
    ensures answers { IfOk result (λ o. IfSome o CanGoOn) }
{
    let verdict = fail(alloc, store, ready, failed)?;
    Ok(Some(verdict))
}

/// Foresees the commit of an attempt whose answers are the store's own: the verdict or the refusal where it is turned down, `None` where nothing turns it down
/// before anything is written.
pub(crate) fn foresee(
    alloc: Global,
    store: &Store,
    ready: &Ready,
) -> Result<Option<Verdict>, Refusal>
    ensures verdict { IsForeseenBy store.now.standing ready.now result }
    ensures answers { IfOk result (λ o. IfSome o CanGoOn) }
{
    match check(store, ready) {
        Ok(None) => Ok(None),
        Ok(Some(failed)) => turn_down_trusted(alloc, store, ready, failed),
        Err(fault) => Err(fault),
    }
}

/// Commits an attempt whose answers are the store's own.
pub(crate) fn commit_trusted(
    alloc: Global,
    store: &mut Store,
    entries: &mut Vec<Entry>,
    ready: Ready,
) -> Result<Verdict, Refusal>
    ensures verdict { SendsAs (λ journal. sent journal ready) result store.old.standing entries.old.items store.new.standing entries.new.items }
    ensures answers { IfOk result CanGoOn }
    ensures run { IsRunOnItsAnswers ready }
{
    // (the attempt's type says that it is a run on its answers)
    let _is_run = ready.answers.as_slice();
    match foresee(alloc, store, &ready) {
        Ok(None) => make(alloc, store, entries, ready),
        Ok(Some(verdict)) => {
            drop(ready);
            Ok(verdict)
        }
        Err(cause) => {
            drop(ready);
            Err(cause)
        }
    }
}

// ---- an attempt whose answers are its caller's

/// The key of the first value that an attempt says it read, and that is not the store's.
fn find_false_key(store: &Store, ready: &Ready) -> Result<Text, AllocError>
    requires { cause_of store.now.standing ready.now ≡ Some IsUnvouched }
    ensures { IfOk result (λ key. TurnsDown store.now.standing ready.now (Err (RefusesValue key))) }
{
    match find_unvouched(store.keys(), ready) {
        None => unreachable!(),
        Some(unvouched) => {
            let key = unvouched.key.clone()?;
            Ok(key)
        }
    }
}

/// Turns down the commit of an attempt, for a cause that was found. Nothing is written.
fn turn_down(
    alloc: Global,
    store: &Store,
    ready: &Ready,
    cause: Cause,
) -> Result<Verdict, CommitRefusal>
    requires { cause_of store.now.standing ready.now ≡ Some cause }
    ensures verdict { TurnsDown store.now.standing ready.now result }
    ensures answers { IfOk result CanGoOn }
{
    match cause {
        Cause::Wrong(fault) => Err(CommitRefusal::Store(fault)),
        Cause::Fails(failed) => {
            let verdict = fail(alloc, store, ready, failed)?;
            Ok(verdict)
        }
        Cause::Unvouched => {
            let key = find_false_key(store, ready)?;
            Err(CommitRefusal::Unvouched { key })
        }
    }
}

/// The verdict, or the store's refusal as that of the commit.
fn of_store(outcome: Result<Verdict, Refusal>) -> Result<Verdict, CommitRefusal>
    ensures { result ≡ refused_by_store outcome }
{
    match outcome {
        Ok(verdict) => Ok(verdict),
        Err(cause) => Err(CommitRefusal::Store(cause)),
    }
}

/// Commits an attempt that was prepared.
pub(crate) fn commit(
    alloc: Global,
    store: &mut Store,
    entries: &mut Vec<Entry>,
    prepared: Prepared,
) -> Result<Verdict, CommitRefusal>
    ensures verdict { CommitsAs prepared result store.old.standing entries.old.items store.new.standing entries.new.items }
    ensures answers { IfOk result CanGoOn }
    ensures run { IsRunOnItsAnswers prepared }
{
    match prepared.find_cause(store) {
        None => {
            let ready = prepared.into_attempt();
            of_store(make(alloc, store, entries, ready))
        }
        Some(cause) => {
            let reported = turn_down(alloc, store, prepared.attempt(), cause);
            drop(prepared);
            reported
        }
    }
}
