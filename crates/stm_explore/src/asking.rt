//! When a rule is asked, and what it sees there of the ends of runners.
ghost use Rattle.std.specs.Prelude.{◌≡◌, ◌++◌, [], ◌∷◌, Some, option_copied, IfOk, OnOk, bytes_eq, string_bytes};
ghost use Rattle.std.specs.List.{find};
ghost use Rattle.stm_schedules.specs.declared.outcome.KeyValue.{KeyValue as KeyValueOf};
ghost use Rattle.stm_explore.specs.declared.asking.When.TheVariants.{Each, Last};
ghost use Rattle.stm_explore.specs.Asked.{end_word, end_reason, value_text, outputs_of, output_key, outputs_from, laid_outputs, laid_of, laid, end_for, asks};

use crate::judging::is_kept;
use crate::keeping::end_alone;
use std::alloc::{AllocError, Global};
use stm_history::Text;
use stm_meaning::{Answered, End, Lookup, Value, run_answered};
use stm_program::Program;
use stm_retry::{KeysNow, SharedWorld};
use stm_schedules::{KeyValue, Move, RunnerEnd};

/// When a rule is asked.
#[derive(Clone, Copy, Debug, PartialEq, Eq)]
pub enum When {
    /// At each place.
    Each,
    /// Only where no schedule goes on. There its program sees how the runs ended, as keys that are laid over the state: `#end/N` is `committed`, `aborted`,
    /// `faulted`, `gaveup` or `ended`, `#why/N` its text or cause, and `#out/N/0`, `#out/N/1` and so on what it emitted, as texts. N is the number of the
    /// runner.
    Last,
}

/// How a run ended, as a word.
fn end_word(end: &Option<RunnerEnd>) -> &'static str
    ensures { result.now ≡ end_word end.now }
{
    match end {
        None => "",
        Some(RunnerEnd::Committed { .. }) => "committed",
        Some(RunnerEnd::GaveUp { .. }) => "gaveup",
        Some(RunnerEnd::Aborted { .. }) => "aborted",
        Some(RunnerEnd::Faulted { .. }) => "faulted",
        Some(RunnerEnd::Ended { .. }) => "ended",
    }
}

/// The text or the cause of an end.
fn end_reason(end: &Option<RunnerEnd>) -> &str
    ensures { result.now ≡ end_reason end.now }
{
    match end {
        None | Some(RunnerEnd::Committed { .. }) => "",
        Some(RunnerEnd::GaveUp { key }) => key.as_str(),
        Some(RunnerEnd::Aborted { text }) => text.as_str(),
        Some(RunnerEnd::Faulted { fault }) => fault.name(),
        Some(RunnerEnd::Ended { cause }) => cause.name(),
    }
}

/// A value as a text.
fn value_text(alloc: Global, value: &Value) -> Result<Text, AllocError>
    ensures { IfOk result (λ text. text ≡ value_text value.now) }
{
    match value {
        Value::Text(text) => text.clone(),
        Value::Number(number) => {
            let text = format!(in alloc; "{number}")?;
            Ok(Text::new(text))
        }
    }
}

/// What a run emitted.
fn outputs_of(end: &Option<RunnerEnd>) -> &[Value]
    ensures { result.now ≡ outputs_of end.now }
{
    match end {
        Some(RunnerEnd::Committed { output }) => output.as_slice(),
        _ => &[],
    }
}

/// Adds a key that is laid over a state.
fn push_key(laid: &mut Vec<KeyValue>, key: String, value: Text) -> Result<(), AllocError>
    ensures { OnOk result (laid.new.items ≡ laid.old.items ++ record { key = string_bytes key; value = value } ∷ []) }
{
    laid.push(KeyValue {
        key: Text::new(key),
        value,
    })?;
    Ok(())
}

/// The key of the output that the runner with this number has at a place.
fn output_key(alloc: Global, number: u64, place: usize) -> Result<String, AllocError>
    ensures { IfOk result (λ key. string_bytes key ≡ output_key number place) }
{
    format!(in alloc; "#out/{number}/{place}")
}

/// Adds the output that the runner with this number has at a place.
fn push_output(
    alloc: Global,
    laid: &mut Vec<KeyValue>,
    number: u64,
    place: usize,
    output: &Value,
) -> Result<(), AllocError>
    ensures { OnOk result (laid.new.items ≡ laid.old.items ++ record { key = output_key number place; value = value_text output.now } ∷ []) }
{
    let key = output_key(alloc, number, place)?;
    let value = value_text(alloc, output)?;
    push_key(laid, key, value)
}

/// Adds the outputs of the runner with this number.
fn push_outputs(
    alloc: Global,
    laid: &mut Vec<KeyValue>,
    number: u64,
    outputs: &[Value],
) -> Result<(), AllocError>
    ensures { OnOk result (laid.new.items ≡ laid.old.items ++ outputs_from number 0 outputs.now) }
{
    for place in 0..outputs.len() {
        push_output(alloc, laid, number, place, &outputs[place])?;
    }
    Ok(())
}

/// Adds the outputs of the runner with this number, of which the first is empty where it has none.
fn push_laid_outputs(
    alloc: Global,
    laid: &mut Vec<KeyValue>,
    number: u64,
    outputs: &[Value],
) -> Result<(), AllocError>
    ensures { OnOk result (laid.new.items ≡ laid.old.items ++ laid_outputs number outputs.now) }
{
    match outputs {
        [] => {
            let key = output_key(alloc, number, 0)?;
            let value = Text::copy_of(alloc, "")?;
            push_key(laid, key, value)
        }
        [_, ..] => push_outputs(alloc, laid, number, outputs),
    }
}

/// Adds the keys that are laid over a state for the runner with this number.
fn push_laid(
    alloc: Global,
    laid: &mut Vec<KeyValue>,
    number: u64,
    end: &Option<RunnerEnd>,
) -> Result<(), AllocError>
    ensures { OnOk result (laid.new.items ≡ laid.old.items ++ laid_of number end.now) }
{
    let word = Text::copy_of(alloc, end_word(end))?;
    let reason = Text::copy_of(alloc, end_reason(end))?;
    let ends = format!(in alloc; "#end/{number}")?;
    let reasons = format!(in alloc; "#why/{number}")?;
    push_key(laid, ends, word)?;
    push_key(laid, reasons, reason)?;
    push_laid_outputs(alloc, laid, number, outputs_of(end))
}

/// The keys that `When::Last` lays over a state, where this is known of the ends of runners. It fails only when out of memory.
pub fn laid(alloc: Global, ends: &[Option<RunnerEnd>]) -> Result<Vec<KeyValue>, AllocError>
    ensures { IfOk result (λ keys. keys.items ≡ laid ends.now) }
{
    let mut keys = Vec::new(alloc);
    for index in 0..ends.len() {
        push_laid(alloc, &mut keys, index as u64 + 1, &ends[index])?;
    }
    Ok(keys)
}

/// The first of these keys with this name.
fn find_laid<'a>(laid: &'a [KeyValue], key: &str) -> Option<&'a KeyValue>
    ensures { option_copied result ≡ find (λ (kv : KeyValueOf). bytes_eq kv.key key.now) laid.now }
{
    laid.iter().find(|kv| kv.key.as_str() == key)
}

/// The keys of a store as they are now, with others laid over them.
#[derive(Clone, Copy)]
struct LaidOver<'a> {
    laid: &'a [KeyValue],
    below: KeysNow<'a>,
}

impl Lookup for LaidOver<'_> {
    ghost use Rattle.stm_compile.specs.Answers.{state_now};
    ghost use Rattle.stm_explore.specs.Asked.{laid_over};

    ghost answers = { λ look. laid_over look.laid.now (state_now look.below.keys.now.history) };

    fn value(&self, key: &str) -> Option<&str> {
        match find_laid(self.laid, key) {
            Some(kv) => Some(kv.value.as_str()),
            None => self.below.value(key),
        }
    }

    fn mod_rev(&self, key: &str) -> Option<u64> {
        match find_laid(self.laid, key) {
            Some(_) => Some(0),
            None => self.below.mod_rev(key),
        }
    }
}

/// The end of a rule's program at a last place, where this is known of the ends of runners.
fn last_end(
    alloc: Global,
    rule: &Program,
    world: &SharedWorld,
    ends: &[Option<RunnerEnd>],
) -> Result<End, AllocError>
    ensures { IfOk result (λ end. end_for Last rule.now world.now.standing.history ends.now ≡ Some end) }
{
    let laid = laid(alloc, ends)?;
    let keys = world.store().keys();
    let look = LaidOver {
        laid: laid.as_slice(),
        below: KeysNow { keys },
    };
    match run_answered(alloc, rule, &look)? {
        Answered::Ended(run) => Ok(run.end),
        Answered::Wants { .. } => unreachable!(),
    }
}

/// The end of a rule's program at a place, where this is known of the ends of runners.
pub(crate) fn end_for(
    alloc: Global,
    when: When,
    rule: &Program,
    world: &SharedWorld,
    ends: &[Option<RunnerEnd>],
) -> Result<End, AllocError>
    ensures { IfOk result (λ end. end_for when rule.now world.now.standing.history ends.now ≡ Some end) }
{
    match when {
        When::Each => end_alone(rule, world),
        When::Last => last_end(alloc, rule, world, ends),
    }
}

/// Whether a rule is kept at a last place.
fn is_kept_last(
    alloc: Global,
    rule: &Program,
    world: &SharedWorld,
    ends: &[Option<RunnerEnd>],
) -> Result<bool, AllocError>
    ensures { IfOk result (λ kept. kept ≡ asks Last rule.now [] world.now.standing.history ends.now) }
{
    match last_end(alloc, rule, world, ends)? {
        End::Done => Ok(true),
        _ => Ok(false),
    }
}

/// Whether a rule is kept at a place, from where these moves can be made, and where this is known of the ends of runners.
pub(crate) fn asks(
    alloc: Global,
    when: When,
    rule: &Program,
    moves: &[Move],
    world: &SharedWorld,
    ends: &[Option<RunnerEnd>],
) -> Result<bool, AllocError>
    ensures { IfOk result (λ kept. kept ≡ asks when rule.now moves.now world.now.standing.history ends.now) }
{
    match when {
        When::Each => is_kept(rule, world),
        When::Last => match moves {
            [] => is_kept_last(alloc, rule, world, ends),
            [_, ..] => Ok(true),
        },
    }
}
