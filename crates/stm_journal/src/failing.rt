//! What is reported of a commit of which a compare failed.
ghost use Rattle.std.specs.Prelude.{◌≡◌, ◌<◌, map, length, slice_get, Some, IfOk};
ghost use Rattle.stm_history.specs.History.{key_now};
ghost use Rattle.stm_outcome.specs.Compares.{first_failed};
ghost use Rattle.stm_compile.specs.Answers.{answer_now};
ghost use Rattle.stm_compile.specs.CommitTxn.{reread_keys};
ghost use Rattle.stm_compile.specs.Conflicts.{seen_by, seen_in};
ghost use Rattle.stm_journal.specs.Verdicts.{txn_of, failed_with, CanGoOn};

use crate::rereads::read_again;
use crate::verdict::Verdict;
use std::alloc::{AllocError, Global};
use stm_attempt::{ReadSet, Ready, WriteBuffer};
use stm_history::{ReadAnswer, Sequence, Text, mod_rev_of};
use stm_txn::{FailedCompare, Store};

/// The key that the compare at a place is about: those of the keys read come first.
fn key_seen<'a>(reads: &'a ReadSet, writes: &'a WriteBuffer, place: usize) -> &'a str
    requires { place < length (seen_by reads.now writes.now) }
    ensures { result.now ≡ (seen_in (slice_get (seen_by reads.now writes.now) place)).key }
{
    if place < reads.len() {
        reads.at(place).key.as_str()
    } else {
        writes.at(place - reads.len()).key()
    }
}

/// What was seen of that key.
fn revision_seen(reads: &ReadSet, writes: &WriteBuffer, place: usize) -> u64
    requires { place < length (seen_by reads.now writes.now) }
    ensures { result ≡ (seen_in (slice_get (seen_by reads.now writes.now) place)).mod_rev }
{
    if place < reads.len() {
        mod_rev_of(&reads.at(place).kv)
    } else {
        reads.first_carried()
    }
}

/// The verdict on an attempt of which this compare failed, where its keys were read again with these answers. Out of memory is its only refusal.
fn failed_verdict(
    alloc: Global,
    ready: &Ready,
    failed: FailedCompare,
    answers: Vec<ReadAnswer>,
) -> Result<Verdict, AllocError>
    requires { failed.index < length (seen_by ready.now.answers ready.now.writes) }
    ensures { IfOk result (λ verdict. verdict ≡ failed_with ready.now failed answers.items) }
{
    let key = Text::copy_of(alloc, key_seen(&ready.answers, &ready.writes, failed.index))?;
    Ok(Verdict::Failed {
        key,
        seen: revision_seen(&ready.answers, &ready.writes, failed.index),
        now: failed.mod_rev,
        answers: Sequence::of(answers),
    })
}

/// Reports that this compare of an attempt's commit failed, and what the keys that it read are now.
pub(crate) fn fail(
    alloc: Global,
    store: &Store,
    ready: &Ready,
    failed: FailedCompare,
) -> Result<Verdict, AllocError>
    requires { first_failed (key_now store.now.standing.history) 0 (txn_of ready.now).compares ≡ Some failed }
    ensures verdict { IfOk result (λ verdict. verdict ≡ failed_with ready.now failed (map (answer_now store.now.standing.history) (reread_keys ready.now.level ready.now.answers))) }
    ensures answers { IfOk result CanGoOn }
{
    // (the read set's type says that its keys are distinct)
    let _keys_differ = ready.answers.as_slice();
    let keys = store.keys();
    // (the type of the keys says that the counter is no higher than the highest revision)
    let _counter = keys.revision();
    let again = read_again(alloc, keys, ready.level, &ready.answers)?;
    failed_verdict(alloc, ready, failed, again)
}
