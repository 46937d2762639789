//! The fetch of a key, and of a list of keys.
ghost use Rattle.std.specs.Prelude.{◌≡◌, ◌<◌, ◌≤◌, length, option_copied, All, Ok as OkOf, IfOk, IfErr, OnOk};
ghost use Rattle.stm_history.specs.declared.revisions.TheConstants.{HIGHEST_REVISION};
ghost use Rattle.stm_history.specs.History.{now};
ghost use Rattle.stm_outcome.specs.Commits.{AreNamed, read_now, revision_read};
ghost use Rattle.stm_outcome.specs.Numbers.{ReadFits};
ghost use Rattle.stm_journal.specs.Fetched.{fetch_reported, read_reported, answer_with, IsFetch, ReadReturns, fetch_all_of, fetch_all_reported, IsRefusalOfAll};
ghost use Rattle.stm_journal.specs.ReadRefusals.{cause_read};

use crate::answers::take_reads;
use std::alloc::{AllocError, Global};
use stm_history::{KeyState, ReadAnswer, Text, copy_found};
use stm_keys::{Keys, ReadRefusal};
use stm_txn::{Op, Refusal, ShortList, Store, Txn};

/// Why the store refuses a read.
fn cause_of(refusal: ReadRefusal) -> Refusal
    ensures { result ≡ cause_read refusal }
{
    match refusal {
        ReadRefusal::FutureRevision => Refusal::FutureRevision,
        ReadRefusal::Compacted => Refusal::Compacted,
    }
}

/// What a key, which is not empty, was at a revision, 0 for the current one.
fn find_named<'a>(store: &'a Store, key: &str, at: u64) -> Result<Option<&'a KeyState>, Refusal>
    requires { 0 < length key.now }
    ensures found { IfOk result (λ state. read_reported store.now.standing key.now at ≡ Ok (answer_with store.now.standing.history key.now at (option_copied state))) }
    ensures refused { IfErr result (λ cause. read_reported store.now.standing key.now at ≡ Err cause) }
{
    let keys = store.keys();
    // (the type of the keys says that the floor is no higher than the counter)
    let _counter = keys.revision();
    match keys.get_at(key, at) {
        Ok(state) => Ok(state),
        Err(refusal) => Err(cause_of(refusal)),
    }
}

/// What a key was at a revision, 0 for the current one.
fn find_state<'a>(store: &'a Store, key: &str, at: u64) -> Result<Option<&'a KeyState>, Refusal>
    ensures found { IfOk result (λ state. read_reported store.now.standing key.now at ≡ Ok (answer_with store.now.standing.history key.now at (option_copied state))) }
    ensures refused { IfErr result (λ cause. read_reported store.now.standing key.now at ≡ Err cause) }
{
    if key.is_empty() {
        return Err(Refusal::EmptyKey);
    }
    find_named(store, key, at)
}

/// The revision that a read names, 0 for the current one.
fn revision_of(keys: &Keys, at: u64) -> u64
    ensures { result ≡ revision_read keys.now.history at }
{
    if at == 0 { keys.revision() } else { at }
}

/// The answer to a read of a key, which was this. It fails only where an allocation failed.
fn answer_to(
    alloc: Global,
    keys: &Keys,
    key: &str,
    at: u64,
    state: Option<&KeyState>,
) -> Result<ReadAnswer, AllocError>
    ensures answer { IfOk result (λ answer. answer ≡ answer_with keys.now.history key.now at (option_copied state.entry)) }
    ensures counter { OnOk result (now keys.now.history ≤ HIGHEST_REVISION) }
{
    let kv = copy_found(state)?;
    let key = Text::copy_of(alloc, key)?;
    Ok(ReadAnswer {
        key,
        kv,
        of_rev: revision_of(keys, at),
        revision: keys.revision(),
    })
}

/// Reads a key at a revision, 0 for the current one. It is refused as a transaction is that does this and nothing else.
///
/// The answer shows the key at that revision, and carries the store's. `EmptyKey`: the key is empty. Then `FutureRevision`: the
/// revision is above the store's. Then `Compacted`: it is not 0 and below the store's floor. `OutOfMemory` may come only where none
/// of these does. (etcd's API reference, "Range".)
pub fn read(alloc: Global, store: &Store, key: &str, at: u64) -> Result<ReadAnswer, Refusal>
    ensures reported { ReadReturns (read_reported store.now.standing key.now at) result }
    ensures in_range { IfOk result ReadFits }
{
    match find_state(store, key, at) {
        Ok(state) => {
            let answer = answer_to(alloc, store.keys(), key, at, state)?;
            Ok(answer)
        }
        Err(cause) => Err(cause),
    }
}

/// Fetches a key, which is not empty, at a revision that the store has reached, 0 for the current one.
///
/// The answer shows the key at that revision, and carries the store's. `Compacted`: the revision is not 0 and below the
/// store's floor. `OutOfMemory` may come before it. The store is as it was, refused or not. (etcd's API reference,
/// "Range".)
pub(crate) fn fetch(
    alloc: Global,
    store: &mut Store,
    key: &str,
    at: u64,
) -> Result<ReadAnswer, Refusal>
    requires named { 0 < length key.now }
    requires reached { at ≤ now store.old.standing.history }
    ensures reported { IsFetch (fetch_reported store.old.standing key.now at) result }
    ensures in_range { IfOk result ReadFits }
    ensures store { store.new.standing ≡ store.old.standing }
{
    read(alloc, store, key, at)
}

/// A read of a key as it is now.
fn read_now(key: &Text) -> Result<Op, AllocError>
    ensures { IfOk result (λ op. op ≡ read_now key.now) }
{
    let key = key.clone()?;
    Ok(Op::Get { key, rev: 0 })
}

/// The transaction that reads these keys as they are now, in their order, and does nothing else. It fails only where an
/// allocation failed.
pub fn txn_of_reads(alloc: Global, keys: &[Text]) -> Result<Txn, AllocError>
    ensures { IfOk result (λ txn. txn ≡ fetch_all_of keys.now) }
{
    let mut success = ShortList::new(alloc);
    for key in keys {
        success.push(read_now(key)?)?;
    }
    Ok(Txn {
        compares: ShortList::new(alloc),
        success,
        failure: ShortList::new(alloc),
    })
}

/// Fetches keys, none of which is empty, as they are now. It is one transaction, which reads and nothing else: all answers are of one
/// revision.
///
/// `TooManyOps`: there are more keys than the store takes operations. `OutOfMemory` may come before it. The store is as it was, refused or
/// not. (etcd's API reference, "Transaction".)
pub(crate) fn fetch_all(
    alloc: Global,
    store: &mut Store,
    keys: &[Text],
) -> Result<Vec<ReadAnswer>, Refusal>
    requires { AreNamed keys.now }
    ensures reported { IfOk result (λ reads. fetch_all_reported store.old.standing keys.now ≡ OkOf reads.items) }
    ensures refused { IfErr result (IsRefusalOfAll store.old.standing keys.now) }
    ensures in_range { IfOk result (λ reads. All ReadFits reads.items) }
    ensures store { store.new.standing ≡ store.old.standing }
{
    let txn = txn_of_reads(alloc, keys)?;
    let reported = store.txn(&txn);
    drop(txn);
    let answer = reported?;
    let reads = take_reads(alloc, answer.answers)?;
    Ok(reads)
}
