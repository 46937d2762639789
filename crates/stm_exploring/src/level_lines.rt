//! What is printed of answers about rules at levels.
ghost use Rattle.std.specs.Prelude.{◌≡◌, ◌++◌, map, IfOk, OnOk, string_bytes};
ghost use Rattle.std.specs.List.{concat, list_all, list_any};
ghost use Rattle.serde_json.specs.View.{view};
ghost use Rattle.stm_report_lines.specs.Text.{line_text};
ghost use Rattle.stm_texts.specs.Grammar.{level_text};
ghost use Rattle.stm_exploring.specs.Judging.{is_kept};
ghost use Rattle.stm_exploring.specs.Levels.{all_kept, are_met, enough, enough_line, has_failed, is_failed, is_met, is_spared, level_line, level_line_text, level_text_of, levels_text, printed_levels, strength, verdict_of_levels};

use crate::leveled::LevelAnswers;
use crate::lines::{named_parts, push_word};
use crate::printed::{Printed, SearchAnswer};
use crate::rules::{RuleAnswer, are_kept, is_broken, is_kept};
use serde_json::{Value as Json, json};
use std::alloc::{AllocError, Global};
use stm_explain::Said;
use stm_history::Text;
use stm_program::Level;
use stm_report_lines::push_line;

/// The name of a level.
pub(crate) fn level_name(level: Level) -> &'static str
    ensures { result.now ≡ level_text level }
{
    match level {
        Level::SerializableSnapshot => "SerializableSnapshot",
        Level::Serializable => "Serializable",
        Level::RepeatableReads => "RepeatableReads",
        Level::ReadCommitted => "ReadCommitted",
    }
}

/// How strong a level is.
fn strength(level: Level) -> u8
    ensures { result ≡ strength level }
{
    match level {
        Level::ReadCommitted => 0,
        Level::RepeatableReads => 1,
        Level::Serializable => 2,
        Level::SerializableSnapshot => 3,
    }
}

/// Whether a rule that is to be kept from a level on is not to be kept at this one.
fn is_spared(from: Level, level: Level) -> bool
    ensures { result ≡ is_spared from level }
{
    strength(level) < strength(from)
}

/// Whether a rule is broken at a level at which it is to be kept.
fn is_failed(level: Level, a: &RuleAnswer) -> bool
    ensures { result ≡ is_failed level a.now }
{
    if is_spared(a.rule.from, level) {
        return false;
    }
    is_broken(a)
}

/// Whether a rule is always kept at a level, or is not to be kept there.
fn is_met(level: Level, a: &RuleAnswer) -> bool
    ensures { result ≡ is_met level a.now }
{
    if is_spared(a.rule.from, level) {
        return true;
    }
    is_kept(a)
}

/// Whether a rule is broken that is to be kept at the level.
fn has_failed(a: &LevelAnswers) -> bool
    ensures { result ≡ has_failed a.now }
{
    let level = a.level;
    let answers = a.answers.as_slice();
    answers.iter().any(|answer| is_failed(level, answer))
}

/// Whether each rule is always kept that is to be kept at the level.
fn are_met(a: &LevelAnswers) -> bool
    ensures { result ≡ are_met a.now }
{
    let level = a.level;
    let answers = a.answers.as_slice();
    answers.iter().all(|answer| is_met(level, answer))
}

/// Whether each rule is always kept at the level.
fn all_kept(a: &LevelAnswers) -> bool
    ensures { result ≡ all_kept a.now }
{
    are_kept(a.answers.as_slice())
}

/// Whether each rule is always kept at each of these levels.
fn are_enough(at: &[LevelAnswers]) -> bool
    ensures { result ≡ list_all all_kept at.now }
{
    at.iter().all(all_kept)
}

/// The first level from which on each rule is always kept.
fn enough(at: &[LevelAnswers]) -> Option<Level>
    ensures { result ≡ enough at.now }
{
    for i in 0..at.len() {
        if are_enough(&at[i..]) {
            return Some(at[i].level);
        }
    }
    None
}

/// The line of an answer at a level, as JSON.
fn level_json(alloc: Global, level: Level, a: &RuleAnswer) -> Result<Json, AllocError>
    ensures { IfOk result (λ v. view v ≡ level_line level a.now) }
{
    let mut parts = named_parts(alloc, a)?;
    push_word(alloc, &mut parts, level_name(level))?;
    Ok(Json::Array(parts))
}

/// Adds the line of an answer at a level.
fn push_at_level(
    alloc: Global,
    text: &mut String,
    level: Level,
    a: &RuleAnswer,
) -> Result<(), AllocError>
    ensures { OnOk result (string_bytes text.new ≡ string_bytes text.old ++ level_line_text level a.now) }
{
    let line = level_json(alloc, level, a)?;
    push_line(alloc, text, &line)
}

/// Adds the lines of answers at a level.
fn push_rules(
    alloc: Global,
    text: &mut String,
    level: Level,
    answers: &[RuleAnswer],
) -> Result<(), AllocError>
    ensures { OnOk result (string_bytes text.new ≡ string_bytes text.old ++ concat (map (level_line_text level) answers.now)) }
{
    for a in answers {
        push_at_level(alloc, text, level, a)?;
    }
    Ok(())
}

/// Adds the lines of a level.
fn push_level(alloc: Global, text: &mut String, a: &LevelAnswers) -> Result<(), AllocError>
    ensures { OnOk result (string_bytes text.new ≡ string_bytes text.old ++ level_text_of a.now) }
{
    push_rules(alloc, text, a.level, a.answers.as_slice())
}

/// Adds the lines of levels.
fn push_levels(alloc: Global, text: &mut String, at: &[LevelAnswers]) -> Result<(), AllocError>
    ensures { OnOk result (string_bytes text.new ≡ string_bytes text.old ++ concat (map level_text_of at.now)) }
{
    for a in at {
        push_level(alloc, text, a)?;
    }
    Ok(())
}

/// The line of the least level that is enough, as JSON.
fn enough_json(alloc: Global, level: Option<Level>) -> Result<Json, AllocError>
    ensures { IfOk result (λ v. view v ≡ enough_line level) }
{
    match level {
        None => json!(in alloc; ["enough", null]),
        Some(level) => json!(in alloc; ["enough", level_name(level)]),
    }
}

/// Adds that line.
pub(crate) fn push_enough(
    alloc: Global,
    text: &mut String,
    level: Option<Level>,
) -> Result<(), AllocError>
    ensures { OnOk result (string_bytes text.new ≡ string_bytes text.old ++ line_text (enough_line level)) }
{
    let line = enough_json(alloc, level)?;
    push_line(alloc, text, &line)
}

/// What is printed of answers at levels.
fn levels_text(alloc: Global, at: &[LevelAnswers]) -> Said
    ensures { IfOk result (λ text. string_bytes text ≡ levels_text at.now) }
{
    let mut text = String::new(alloc);
    push_levels(alloc, &mut text, at)?;
    push_enough(alloc, &mut text, enough(at))?;
    Ok(text)
}

/// Whether a rule is broken at one of these levels at which it is to be kept.
fn any_failed(at: &[LevelAnswers]) -> bool
    ensures { result ≡ list_any has_failed at.now }
{
    at.iter().any(has_failed)
}

/// Whether each rule is always kept at each of these levels at which it is to be kept.
fn all_met(at: &[LevelAnswers]) -> bool
    ensures { result ≡ list_all are_met at.now }
{
    at.iter().all(are_met)
}

/// What answers at levels come to.
fn verdict_of_levels(at: &[LevelAnswers]) -> SearchAnswer
    ensures { result ≡ verdict_of_levels at.now }
{
    if any_failed(at) {
        return SearchAnswer::Broken;
    }
    if all_met(at) {
        return SearchAnswer::Kept;
    }
    SearchAnswer::Open
}

/// What is printed of answers at levels, with what they come to.
pub(crate) fn print_levels(alloc: Global, at: &[LevelAnswers]) -> Result<Printed, AllocError>
    ensures { IfOk result (λ p. p ≡ printed_levels at.now) }
{
    let text = levels_text(alloc, at)?;
    Ok(Printed {
        verdict: verdict_of_levels(at),
        text: Text::new(text),
    })
}
