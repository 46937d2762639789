//! Where a replayed run looks its keys up.
ghost use Rattle.std.specs.Prelude.{◌≡◌, ◌↔◌, ◌≤◌, ◌++◌, ◌∷◌, [], ℕ, List, IsTrue, IfOk, OnOk, is_some, option_copied, option_map};
ghost use Rattle.stm_history.specs.declared.key_state.ReadAnswer.{ReadAnswer as Read};
ghost use Rattle.stm_history.specs.declared.key_state.KeyState.{KeyState as State};
ghost use Rattle.stm_history.specs.History.{now};
ghost use Rattle.stm_outcome.specs.Numbers.{StatesFit, ReadFits};
ghost use Rattle.stm_compile.specs.Answers.{answer_in};
ghost use Rattle.stm_events.specs.Replies.{read_in, reads_in};
ghost use Rattle.stm_check.specs.Replays.{IsTrulyReported, AreTrulyReported};

use std::alloc::{AllocError, Global};
use stm_compile::ReadSet;
use stm_events::CommittedRead;
use stm_history::{KeyState, ReadAnswer, Text, copy_found, found_mod_rev};
use stm_keys::Keys;
use stm_meaning::Lookup;

/// The keys of a store as they are now.
#[derive(Clone, Copy)]
pub(crate) struct KeysNow<'a> {
    pub(crate) keys: &'a Keys,
}

impl Lookup for KeysNow<'_> {
    ghost use Rattle.stm_compile.specs.Answers.{state_now};

    ghost answers = { λ look. state_now look.keys.now.history };

    fn value(&self, key: &str) -> Option<&str> {
        match self.keys.get(key) {
            None => Some(""),
            Some(state) => Some(state.value.as_str()),
        }
    }

    fn mod_rev(&self, key: &str) -> Option<u64> {
        match self.keys.get(key) {
            None => Some(0),
            Some(state) => Some(state.mod_rev),
        }
    }
}

/// Whether a value is reported as a key had it, and as none where the key was absent.
fn has_value(reported: &Option<Text>, state: Option<&KeyState>) -> bool
    ensures { IsTrue result ↔ reported.now ≡ option_map (λ (s : State). s.value) (option_copied state.entry) }
{
    match state {
        None => reported.is_none(),
        Some(state) => match reported {
            None => false,
            Some(value) => *value == state.value,
        },
    }
}

/// Whether an answer says what a key was at a revision that the store has reached.
fn is_truly_reported(keys: &Keys, answer: &CommittedRead) -> bool
    ensures { IsTrue result ↔ IsTrulyReported keys.now.history answer.now }
{
    if answer.of_rev > keys.revision() {
        return false;
    }
    let state = keys.look_back(answer.key.as_str(), answer.of_rev);
    has_value(&answer.value, state) && answer.mod_rev == found_mod_rev(state)
}

/// Whether answers say what their keys were.
pub(crate) fn are_truly_reported(keys: &Keys, answers: &[CommittedRead]) -> bool
    ensures { IsTrue result ↔ AreTrulyReported keys.now.history answers.now }
{
    for answer in answers {
        if !is_truly_reported(keys, answer) {
            return false;
        }
    }
    true
}

/// An answer, as a read of the store's history gives it.
fn read_reported(keys: &Keys, answer: &CommittedRead) -> Result<ReadAnswer, AllocError>
    requires numbers { StatesFit keys.now.history }
    requires reached { answer.now.of_rev ≤ now keys.now.history }
    ensures read { IfOk result (λ read. read ≡ read_in keys.now.history answer.now) }
    ensures in_range { IfOk result ReadFits }
{
    // (the type of the keys says that the counter is no higher than the highest revision)
    let _counter = keys.revision();
    let key = answer.key.clone()?;
    let kv = copy_found(keys.look_back(answer.key.as_str(), answer.of_rev))?;
    Ok(ReadAnswer {
        key,
        kv,
        of_rev: answer.of_rev,
        revision: answer.of_rev,
    })
}

/// Whether there is an answer of a key.
fn is_known(reads: &ReadSet, key: &Text) -> bool
    ensures { result ≡ is_some (answer_in key.now reads.now) }
{
    reads.get(key.as_str()).is_some()
}

/// Adds an answer as it was read, if there is none of its key.
fn add_reported(reads: &mut ReadSet, keys: &Keys, answer: &CommittedRead) -> Result<(), AllocError>
    requires numbers { StatesFit keys.now.history }
    requires reached { answer.now.of_rev ≤ now keys.now.history }
    ensures { OnOk result ((so_far : List Read) → ((key : List ℕ) → answer_in key reads.old ≡ answer_in key so_far)
        → (key : List ℕ) → answer_in key reads.new ≡ answer_in key (so_far ++ read_in keys.now.history answer.now ∷ [])) }
{
    if is_known(reads, &answer.key) {
        return Ok(());
    }
    let read = read_reported(keys, answer)?;
    reads.add(read)?;
    Ok(())
}

/// The answers as an attempt has read them: the first of each key.
pub(crate) fn reads_reported(
    alloc: Global,
    keys: &Keys,
    answers: &[CommittedRead],
) -> Result<ReadSet, AllocError>
    requires numbers { StatesFit keys.now.history }
    requires truth { AreTrulyReported keys.now.history answers.now }
    ensures { IfOk result (λ reads. (key : List ℕ) → answer_in key reads ≡ answer_in key (reads_in keys.now.history answers.now)) }
{
    let mut reads = ReadSet::new(alloc);
    for answer in answers {
        add_reported(&mut reads, keys, answer)?;
    }
    Ok(reads)
}
