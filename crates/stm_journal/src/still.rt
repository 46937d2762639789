//! Whether keys are still as they were read, found with one look-up of each.
ghost use Rattle.std.specs.Prelude.{◌≡◌, true, None, All};
ghost use Rattle.stm_journal.specs.Causes.{IsStill, cause_compared};

use stm_attempt::{ReadSet, Ready};
use stm_history::{KeyState, ReadAnswer};
use stm_keys::Keys;
use stm_program::Level;

/// Whether two states of a key have one modification revision and one value.
fn are_alike(now: &KeyState, read: &KeyState) -> bool
    ensures modified { result ≡ true → now.now.mod_rev ≡ read.now.mod_rev }
    ensures value { result ≡ true → now.now.value ≡ read.now.value }
{
    now.mod_rev == read.mod_rev && now.value == read.value
}

/// Whether a key still has the modification revision and the value that an answer says.
fn is_still(keys: &Keys, answer: &ReadAnswer) -> bool
    ensures { result ≡ true → IsStill keys.now.history answer.now }
{
    match keys.get(answer.key.as_str()) {
        None => answer.kv.is_none(),
        Some(now) => match &answer.kv {
            None => false,
            Some(read) => are_alike(now, read),
        },
    }
}

/// Whether the keys of these answers are all as they say.
fn are_still(keys: &Keys, answers: &[ReadAnswer]) -> bool
    ensures { result ≡ true → All (IsStill keys.now.history) answers.now }
{
    answers.iter().all(|answer| is_still(keys, answer))
}

/// Whether every key that an attempt read still has the modification revision and the value that it read.
fn reads_stand(keys: &Keys, answers: &ReadSet) -> bool
    ensures { result ≡ true → All (IsStill keys.now.history) answers.now }
{
    are_still(keys, answers.as_slice())
}

/// True only where the commit of an attempt, with which nothing is wrong as a whole, is turned down for no compare and no value. At the levels that
/// compare what was read, and nothing else, it is true where each key still is as it was read; at the others it is never true.
pub(crate) fn is_clear(keys: &Keys, ready: &Ready) -> bool
    ensures { result ≡ true → cause_compared keys.now.history ready.now ≡ None }
{
    match ready.level {
        Level::SerializableSnapshot => false,
        Level::Serializable => reads_stand(keys, &ready.answers),
        Level::RepeatableReads => reads_stand(keys, &ready.answers),
        Level::ReadCommitted => false,
    }
}
