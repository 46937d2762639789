//! The lines of an answer.
ghost use Rattle.std.specs.Prelude.{◌≡◌, ◌++◌, [], ◌∷◌, map, option_map, IfOk, OnOk, codes, length, string_bytes};
ghost use Rattle.serde_json.specs.Data.{null, string};
ghost use Rattle.serde_json.specs.View.{view};
ghost use Rattle.stm_report_lines.specs.LineData.{list, whole};
ghost use Rattle.stm_report_lines.specs.Text.{line_text};
ghost use Rattle.stm_exploring.specs.Judging.{answer_line, answer_parts, answer_text, explored_parts, name_parts, named_parts};
ghost use Rattle.stm_exploring.specs.Lines.{count_line, end_data};

use crate::judging::Answer;
use crate::rules::RuleAnswer;
use serde_json::Value as Json;
use std::alloc::{AllocError, Global};
use stm_explore::Explored;
use stm_history::Text;
use stm_meaning::End;
use stm_report_lines::{push_line, worded_json};

/// The line of a word and a number.
fn count_json(alloc: Global, word: &str, count: u64) -> Result<Json, AllocError>
    ensures { IfOk result (λ v. view v ≡ count_line word.now count) }
{
    worded_json(alloc, word, &[&count])
}

/// Adds the line of a word and a number.
pub(crate) fn push_count(
    alloc: Global,
    text: &mut String,
    word: &str,
    count: u64,
) -> Result<(), AllocError>
    ensures { OnOk result (string_bytes text.new ≡ string_bytes text.old ++ line_text (count_line word.now count)) }
{
    let line = count_json(alloc, word, count)?;
    push_line(alloc, text, &line)
}

/// An end of a program at which its rule is not kept.
fn end_json(alloc: Global, end: &End) -> Result<Json, AllocError>
    ensures { IfOk result (λ v. view v ≡ end_data end.now) }
{
    match end {
        End::Done => worded_json(alloc, "done", &[]),
        End::Aborted(text) => worded_json(alloc, "aborted", &[text]),
        End::Faulted(fault) => worded_json(alloc, "faulted", &[fault]),
    }
}

/// The elements of the line of a word and a number.
pub(crate) fn count_parts(alloc: Global, word: &str, count: u64) -> Result<Vec<Json>, AllocError>
    ensures { IfOk result (λ parts. map view parts.items ≡ string word.now ∷ whole count ∷ []) }
{
    let word = Json::try_from_str(alloc, word)?;
    let parts = vec![in alloc; word, Json::from(count)]?;
    Ok(parts)
}

/// The elements of the line of a rule that is always kept, without the length of the longest schedule.
fn always_parts(alloc: Global) -> Result<Vec<Json>, AllocError>
    ensures { IfOk result (λ parts. map view parts.items ≡ string (codes "always") ∷ null ∷ []) }
{
    let word = Json::try_from_str(alloc, "always")?;
    let parts = vec![in alloc; word, Json::Null]?;
    Ok(parts)
}

/// The elements of the line of a rule that is not kept after this many moves.
fn broken_parts(alloc: Global, moves: u64, end: &End) -> Result<Vec<Json>, AllocError>
    ensures { IfOk result (λ parts. map view parts.items ≡ string (codes "broken") ∷ whole moves ∷ end_data end.now ∷ []) }
{
    let word = Json::try_from_str(alloc, "broken")?;
    let end = end_json(alloc, end)?;
    let parts = vec![in alloc; word, Json::from(moves), end]?;
    Ok(parts)
}

/// The elements of the line of what a search through schedules came to.
fn explored_parts(alloc: Global, explored: &Explored) -> Result<Vec<Json>, AllocError>
    ensures { IfOk result (λ parts. map view parts.items ≡ explored_parts explored.now) }
{
    match explored {
        Explored::Always { longest } => count_parts(alloc, "always", *longest),
        Explored::Broken { moves, end } => broken_parts(alloc, moves.len() as u64, end),
        Explored::Open { kept } => count_parts(alloc, "open", *kept),
    }
}

/// The elements of the line of an answer.
fn answer_parts(alloc: Global, answer: &Answer) -> Result<Vec<Json>, AllocError>
    ensures { IfOk result (λ parts. map view parts.items ≡ answer_parts answer.now) }
{
    match answer {
        Answer::BySchedules(explored) => explored_parts(alloc, explored),
        Answer::AlwaysByOrders => always_parts(alloc),
        Answer::BrokenByOrder(found) => {
            broken_parts(alloc, found.moves.len() as u64, &found.end)
        }
    }
}

/// Adds a text to the elements of a line.
pub(crate) fn push_word(alloc: Global, parts: &mut Vec<Json>, word: &str) -> Result<(), AllocError>
    ensures { OnOk result (map view parts.new.items ≡ map view parts.old.items ++ string word.now ∷ []) }
{
    let word = Json::try_from_str(alloc, word)?;
    parts.push(word)?;
    Ok(())
}

/// Adds the name of a rule to the elements of a line, where it has one.
fn push_name(alloc: Global, parts: &mut Vec<Json>, name: &Option<Text>) -> Result<(), AllocError>
    ensures { OnOk result (map view parts.new.items ≡ map view parts.old.items ++ name_parts name.now) }
{
    match name {
        Some(name) => push_word(alloc, parts, name.as_str()),
        None => Ok(()),
    }
}

/// The elements of the line of an answer, and the name of its rule.
pub(crate) fn named_parts(alloc: Global, a: &RuleAnswer) -> Result<Vec<Json>, AllocError>
    ensures { IfOk result (λ parts. map view parts.items ≡ named_parts a.now) }
{
    let mut parts = answer_parts(alloc, &a.answer)?;
    push_name(alloc, &mut parts, &a.rule.name)?;
    Ok(parts)
}

/// The line of an answer, as JSON.
fn answer_json(alloc: Global, a: &RuleAnswer) -> Result<Json, AllocError>
    ensures { IfOk result (λ v. view v ≡ answer_line a.now) }
{
    let parts = named_parts(alloc, a)?;
    Ok(Json::Array(parts))
}

/// Adds the line of an answer.
pub(crate) fn push_answer(
    alloc: Global,
    text: &mut String,
    a: &RuleAnswer,
) -> Result<(), AllocError>
    ensures { OnOk result (string_bytes text.new ≡ string_bytes text.old ++ answer_text a.now) }
{
    let line = answer_json(alloc, a)?;
    push_line(alloc, text, &line)
}
