//! The first compare of a commit that fails, found without making the compares.
ghost use Rattle.std.specs.Prelude.{◌≡◌, ◌↔◌, ◌+◌, ◌≤◌, None, IsTrue, length, map};
ghost use Rattle.stm_history.specs.History.{key_now, mod_of, key_of};
ghost use Rattle.stm_program.specs.declared.level.Level.TheVariants.{SerializableSnapshot};
ghost use Rattle.stm_outcome.specs.Compares.{first_failed};
ghost use Rattle.stm_outcome.specs.Terms.{most_operations};
ghost use Rattle.stm_compile.specs.CommitTxn.{is_as_read as as_read, is_unmodified as unmodified, compares_of};
ghost use Rattle.stm_journal.specs.Verdicts.{txn_of};

use stm_attempt::{ReadSet, Ready, WriteBuffer};
use stm_history::{ReadAnswer, found_mod_rev, mod_rev_of};
use stm_keys::Keys;
use stm_program::{Level, Write};
use stm_txn::FailedCompare;

/// The modification revision of a key now, 0 where it is absent.
fn modified_now(keys: &Keys, key: &str) -> u64
    ensures { result ≡ mod_of (key_now keys.now.history key.now) }
{
    found_mod_rev(keys.get(key))
}

/// Whether a key that was read is as it was read, by its modification revision.
fn is_as_read(keys: &Keys, answer: &ReadAnswer) -> bool
    ensures { IsTrue result ↔ mod_of (key_now keys.now.history answer.now.key) ≡ mod_of answer.now.kv }
{
    modified_now(keys, answer.key.as_str()) == mod_rev_of(&answer.kv)
}

/// Whether a key that is written was not modified above a revision.
fn is_unmodified(keys: &Keys, first: u64, write: &Write) -> bool
    ensures { IsTrue result ↔ mod_of (key_now keys.now.history (key_of write.now)) ≤ first }
{
    modified_now(keys, write.key()) <= first
}

/// The first of these answers whose key was modified since.
fn find_changed(keys: &Keys, answers: &ReadSet) -> Option<FailedCompare>
    ensures { result ≡ first_failed (key_now keys.now.history) 0 (map as_read answers.now) }
{
    for place in 0..answers.len() {
        let answer = answers.at(place);
        if !is_as_read(keys, answer) {
            return Some(FailedCompare {
                index: place,
                mod_rev: modified_now(keys, answer.key.as_str()),
            });
        }
    }
    None
}

/// The first of these writes whose key is modified above a revision. Its place is counted after `before` other compares; all of them together are
/// no more than any store takes.
fn find_modified(
    keys: &Keys,
    first: u64,
    before: usize,
    writes: &WriteBuffer,
) -> Option<FailedCompare>
    requires { before + length writes.now ≤ most_operations }
    ensures { result ≡ first_failed (key_now keys.now.history) before (map (unmodified first) writes.now) }
{
    for place in 0..writes.len() {
        let write = writes.at(place);
        if !is_unmodified(keys, first, write) {
            return Some(FailedCompare {
                index: before + place,
                mod_rev: modified_now(keys, write.key()),
            });
        }
    }
    None
}

/// At SerializableSnapshot: the first of the keys that were read, and after all of those the first of the keys that are written.
fn find_either(keys: &Keys, answers: &ReadSet, writes: &WriteBuffer) -> Option<FailedCompare>
    requires { length answers.now + length writes.now ≤ most_operations }
    ensures { result ≡ first_failed (key_now keys.now.history) 0 (compares_of SerializableSnapshot answers.now writes.now) }
{
    match find_changed(keys, answers) {
        None => find_modified(keys, answers.first_carried(), answers.len(), writes),
        Some(failed) => Some(failed),
    }
}

/// The first compare of an attempt's commit that fails now: of a key that was read, or, at SerializableSnapshot, after all of those, of a key that is
/// written. The compares are no more than any store takes.
pub(crate) fn find_conflict(keys: &Keys, ready: &Ready) -> Option<FailedCompare>
    requires { length (txn_of ready.now).compares ≤ most_operations }
    ensures { result ≡ first_failed (key_now keys.now.history) 0 (txn_of ready.now).compares }
{
    match ready.level {
        Level::SerializableSnapshot => find_either(keys, &ready.answers, &ready.writes),
        Level::Serializable => find_changed(keys, &ready.answers),
        Level::RepeatableReads => find_changed(keys, &ready.answers),
        Level::ReadCommitted => None,
    }
}
