//! The calls of a journal's store that are no commit. Each is an entry where it is one.
//!
//! Room for the entries is made before the call, so that a call that the store took is never without them.
ghost use Rattle.std.specs.Prelude.{◌≡◌, ◌+◌, ◌≤◌, ◌<◌, ◌++◌, ◌∷◌, [], if◌then◌else◌, length, vec_len, vec_capacity, false, Some, None, IfSome, IsOk, IfOk, IfErr};
ghost use Rattle.std.specs.Option.{option_map_or};
ghost use Rattle.stm_entries.specs.declared.entry.Entry.TheVariants.{Foreign};
ghost use Rattle.stm_outcome.specs.Numbers.{AnswerFits, ReadFits};
ghost use Rattle.stm_journal.specs.Fetched.{fetch_of};
ghost use Rattle.stm_outcome.specs.Outcome.{would_change};
ghost use Rattle.stm_journal.specs.Fetching.{OnlyReads, fetched, reported_alone, FetchReturns};
ghost use Rattle.stm_txn.specs.Standing.{kept_alive, refusal_of};
ghost use Rattle.stm_entries.specs.Entered.{expiries};
ghost use Rattle.stm_journal.specs.JournalState.{ReturnsAs};
ghost use Rattle.stm_journal.specs.Entering.{made, granted_in, renewed_in, revoked_in, or_out_of_memory, AdvancesTo, StopsAt};

use crate::fetching::read;
use crate::refusal::FetchRefusal;
use std::alloc::{AllocError, Global};
use stm_entries::Entry;
use stm_history::{ReadAnswer, Sequence};
use stm_txn::{AdvanceRefused, Expired, Refusal, Store, Txn, TxnAnswer};

/// Answers reads, for a caller that has seen this revision. It changes nothing.
pub(crate) fn fetch(store: &mut Store, seen: u64, txn: &Txn) -> Result<TxnAnswer, FetchRefusal>
    requires { OnlyReads txn.now }
    ensures answer { FetchReturns (fetched store.old.standing seen txn.now) result }
    ensures seen { IfOk result (λ answer. seen ≤ answer.revision) }
    ensures numbers { IfOk result AnswerFits }
    ensures same { store.new.standing ≡ store.old.standing }
{
    let now = store.keys().revision();
    if now < seen {
        return Err(FetchRefusal::Behind { seen, now });
    }
    match store.txn(txn) {
        Ok(answer) => Ok(answer),
        Err(cause) => Err(FetchRefusal::Store(cause)),
    }
}

/// Fetches one key at a revision, 0 for the current one, for a caller that has seen this revision.
pub(crate) fn fetch_one(
    alloc: Global,
    store: &Store,
    seen: u64,
    key: &str,
    at: u64,
) -> Result<ReadAnswer, FetchRefusal>
    ensures answer { FetchReturns (fetched store.now.standing seen (fetch_of key.now at)) (reported_alone result) }
    ensures seen { IfOk result (λ answer. seen ≤ answer.revision) }
    ensures numbers { IfOk result ReadFits }
{
    // (the store's type says that it takes at least one operation)
    let _takes_one = store.limit();
    let counter = store.keys().revision();
    if counter < seen {
        return Err(FetchRefusal::Behind { seen, now: counter });
    }
    match read(alloc, store, key, at) {
        Ok(answer) => Ok(answer),
        Err(cause) => Err(FetchRefusal::Store(cause)),
    }
}

/// Makes room for the entry of a transaction, and the copy that the entry keeps. One that would change nothing is no entry,
/// and takes no memory here.
fn prepare_txn(
    store: &Store,
    entries: &mut Vec<Entry>,
    txn: &Txn,
) -> Result<Option<Txn>, AllocError>
    ensures copy { IfOk result (λ copy. copy ≡ (if would_change store.now.standing.history txn.now then Some txn.now else None)) }
    ensures room { IfOk result (λ copy. IfSome copy (λ _. vec_len entries.new < vec_capacity entries.new)) }
    ensures same { entries.new.items ≡ entries.old.items }
    ensures no_growth { would_change store.now.standing.history txn.now ≡ false → IsOk result × (entries.new ≡ entries.old) }
{
    if !store.would_change(txn) {
        return Ok(None);
    }
    entries.reserve(1)?;
    let copy = txn.clone()?;
    Ok(Some(copy))
}

/// Why a call is refused for which room could not be made: the store's cause, or else that memory ran out.
fn cause_or_out_of_memory(cause: Option<Refusal>) -> Refusal
    ensures { result ≡ or_out_of_memory cause }
{
    match cause {
        Some(cause) => cause,
        None => Refusal::OutOfMemory,
    }
}

/// Enters a transaction that was made, where it changed something.
fn enter_txn(entries: &mut Vec<Entry>, copy: Option<Txn>)
    requires { IfSome copy (λ _. vec_len entries.old < vec_capacity entries.old) }
    ensures { entries.new.items ≡ entries.old.items ++ option_map_or (λ txn. Foreign txn ∷ []) copy [] }
{
    if let Some(txn) = copy {
        entries.push_reserved(Entry::Foreign { txn });
    }
}

/// Makes another client's transaction, which is an entry where it changed something.
pub(crate) fn make_and_enter_txn(
    store: &mut Store,
    entries: &mut Vec<Entry>,
    txn: &Txn,
) -> Result<TxnAnswer, Refusal>
    ensures { ReturnsAs (λ journal. made journal txn.now) result store.old.standing entries.old.items store.new.standing entries.new.items }
{
    let Ok(copy) = prepare_txn(store, entries, txn) else {
        return Err(cause_or_out_of_memory(store.txn_refusal(txn)));
    };
    match store.txn(txn) {
        Ok(answer) => {
            enter_txn(entries, copy);
            Ok(answer)
        }
        Err(cause) => {
            drop(copy);
            Err(cause)
        }
    }
}

/// Grants a lease at the store's moment.
pub(crate) fn grant(
    store: &mut Store,
    entries: &mut Vec<Entry>,
    id: u64,
    ttl: u64,
) -> Result<(), Refusal>
    ensures { ReturnsAs (λ journal. granted_in journal id ttl) result store.old.standing entries.old.items store.new.standing entries.new.items }
{
    if entries.reserve(1).is_err() {
        return Err(cause_or_out_of_memory(store.grant_refusal(id, ttl)));
    }
    let at = store.moment();
    match store.grant(id, ttl) {
        Ok(()) => {
            entries.push_reserved(Entry::Grant { id, ttl, at });
            Ok(())
        }
        Err(cause) => Err(cause),
    }
}

/// Why a renewal would be refused.
fn renewal_refusal(store: &Store, id: u64) -> Option<Refusal>
    ensures { result ≡ refusal_of (kept_alive store.now.standing id) }
{
    if store.is_live(id) {
        None
    } else {
        Some(Refusal::LeaseNotFound)
    }
}

/// Renews a lease at the store's moment.
pub(crate) fn keep_alive(
    store: &mut Store,
    entries: &mut Vec<Entry>,
    id: u64,
) -> Result<(), Refusal>
    ensures { ReturnsAs (λ journal. renewed_in journal id) result store.old.standing entries.old.items store.new.standing entries.new.items }
{
    if entries.reserve(1).is_err() {
        return Err(cause_or_out_of_memory(renewal_refusal(store, id)));
    }
    let at = store.moment();
    match store.keep_alive(id) {
        Ok(()) => {
            entries.push_reserved(Entry::Renew { id, at });
            Ok(())
        }
        Err(cause) => Err(cause),
    }
}

/// Revokes a lease, with its keys, and gives the revision after it.
pub(crate) fn revoke(store: &mut Store, entries: &mut Vec<Entry>, id: u64) -> Result<u64, Refusal>
    ensures { ReturnsAs (λ journal. revoked_in journal id) result store.old.standing entries.old.items store.new.standing entries.new.items }
{
    if entries.reserve(1).is_err() {
        return Err(cause_or_out_of_memory(store.revoke_refusal(id)));
    }
    match store.revoke(id) {
        Ok(revision) => {
            entries.push_reserved(Entry::Revoke { id });
            Ok(revision)
        }
        Err(cause) => Err(cause),
    }
}

/// Enters leases that expired, for which there is room.
fn enter_expiries(entries: &mut Vec<Entry>, expired: &[Expired])
    requires { vec_len entries.old + length expired.now ≤ vec_capacity entries.old }
    ensures { entries.new.items ≡ entries.old.items ++ expiries expired.now }
{
    for lease in expired {
        entries.push_reserved(Entry::Expire { id: lease.id });
    }
}

/// The refusal of an advance before anything expired.
fn stop(alloc: Global, cause: Refusal) -> AdvanceRefused
    ensures { result ≡ record { expired = []; cause = cause } }
{
    AdvanceRefused {
        expired: Sequence::new(alloc),
        cause,
    }
}

/// Advances the store's moment. Each lease that expired is an entry, also where the advance was cut short.
pub(crate) fn advance(
    alloc: Global,
    store: &mut Store,
    entries: &mut Vec<Entry>,
    moment: u64,
) -> Result<Vec<Expired>, AdvanceRefused>
    ensures ok { IfOk result (λ expired. AdvancesTo moment expired.items store.old.standing entries.old.items store.new.standing entries.new.items) }
    ensures refused { IfErr result (λ stopped. StopsAt moment stopped.expired stopped.cause store.old.standing entries.old.items store.new.standing entries.new.items) }
{
    if moment < store.moment() {
        return Err(stop(alloc, Refusal::TimeGoesBack));
    }
    if entries.reserve(store.lease_count()).is_err() {
        return Err(stop(alloc, Refusal::OutOfMemory));
    }
    match store.advance(moment) {
        Ok(expired) => {
            enter_expiries(entries, expired.as_slice());
            Ok(expired)
        }
        Err(stopped) => {
            enter_expiries(entries, stopped.expired.as_slice());
            Err(stopped)
        }
    }
}
