//! What the keys that a failed attempt read are now.
ghost use Rattle.std.specs.Prelude.{◌≡◌, ◌++◌, ◌∷◌, [], map, IfOk, OnOk};
ghost use Rattle.stm_history.specs.declared.key_state.ReadAnswer.{ReadAnswer as Answer};
ghost use Rattle.stm_compile.specs.Answers.{answer_now};
ghost use Rattle.stm_compile.specs.CommitTxn.{reread_keys};

use std::alloc::{AllocError, Global};
use stm_attempt::ReadSet;
use stm_history::{ReadAnswer, Text, copy_found};
use stm_keys::Keys;
use stm_program::Level;

/// What a key is now, as the read of it answers.
fn read_now(keys: &Keys, key: &Text) -> Result<ReadAnswer, AllocError>
    ensures { IfOk result (λ answer. answer ≡ answer_now keys.now.history key.now) }
{
    let kv = copy_found(keys.get(key.as_str()))?;
    let key = key.clone()?;
    let revision = keys.revision();
    Ok(ReadAnswer {
        key,
        kv,
        of_rev: revision,
        revision,
    })
}

/// Adds what the key of an answer is now.
fn push_now(again: &mut Vec<ReadAnswer>, keys: &Keys, answer: &ReadAnswer) -> Result<(), AllocError>
    ensures { OnOk result (again.new.items ≡ again.old.items ++ answer_now keys.now.history answer.now.key ∷ []) }
{
    let read = read_now(keys, &answer.key)?;
    again.push(read)?;
    Ok(())
}

/// What the keys of these answers are now.
fn read_each(
    alloc: Global,
    keys: &Keys,
    answers: &[ReadAnswer],
) -> Result<Vec<ReadAnswer>, AllocError>
    ensures { IfOk result (λ again. again.items ≡ map (answer_now keys.now.history) (map (λ (a : Answer). a.key) answers.now)) }
{
    let mut again = Vec::with_capacity(alloc, answers.len())?;
    for answer in answers {
        push_now(&mut again, keys, answer)?;
    }
    Ok(again)
}

/// What the keys that a failed commit reads again are now, at each level.
pub(crate) fn read_again(
    alloc: Global,
    keys: &Keys,
    level: Level,
    answers: &ReadSet,
) -> Result<Vec<ReadAnswer>, AllocError>
    ensures { IfOk result (λ again. again.items ≡ map (answer_now keys.now.history) (reread_keys level answers.now)) }
{
    match level {
        Level::SerializableSnapshot => read_each(alloc, keys, answers.as_slice()),
        Level::Serializable => read_each(alloc, keys, answers.as_slice()),
        Level::RepeatableReads => Ok(Vec::new(alloc)),
        Level::ReadCommitted => Ok(Vec::new(alloc)),
    }
}
