//! The explanation of a fault.
ghost use Rattle.std.specs.Prelude.{◌≡◌, ◌≤◌, length, IfOk, OnOk, string_bytes};
ghost use Rattle.stm_explain.specs.Explaining.{AreExplanations, IsExplanation, IsExplanationOf, explanation};

use crate::allowed::{described, form_of, noun, words_allowed};
use crate::exchanged::exchanged;
use crate::faults::{Fault, other_faults};
use crate::forms::{Form, Input, Part};
use crate::messages::Said;
use crate::offsets::{line_length, line_start, offset_of};
use crate::position::position_of;
use crate::syntax::json_of;
use crate::values::shown;
use crate::walking::{Found, form_of_line, steps_of, walk, word_of_line};
use serde_json::Value;
use std::alloc::{AllocError, Global};
use stm_json::{BadInput, Cause, worded_array};

/// A text that was read, under its name.
#[derive(Clone, Copy)]
struct ReadText<'a> {
    input: Input,
    name: &'a str,
    text: &'a str,
    /// What it was read to.
    value: &'a Value,
}

/// What is said of a fault.
#[derive(Drop)]
pub(crate) struct Explained {
    /// Where in the text it stands.
    pub(crate) offset: usize,
    /// What was found and what is allowed.
    pub(crate) words: String,
}

impl Explained {
    /// These words, of a fault at an offset.
    pub(crate) fn new(alloc: Global, offset: usize, words: &str) -> Result<Explained, AllocError>
        ensures { IfOk result (λ reported. reported.offset ≡ offset) }
    {
        let words = String::from_str(alloc, words)?;
        Ok(Explained { offset, words })
    }
}

/// Where a word has no place that is allowed elsewhere.
fn nowhere(input: Input) -> &'static str {
    match input {
        Input::Jobs => "in a scenario of jobs, which has starts and what changes the store",
        Input::Search => "in a scenario that is searched, whose steps are what is searched for",
        _ => "here",
    }
}

/// Whether a value is a word with which what is expected in its place may begin: the array of it stands where a list of such arrays is wanted.
fn is_first_word(found: Found<'_>) -> bool {
    match found.value.as_str() {
        Some(word) => form_of(found.part, word).is_some(),
        None => false,
    }
}

/// What is said of a value that does not fit.
fn unfit(alloc: Global, found: Found<'_>) -> Said {
    let value = shown(alloc, found.value)?;
    if is_first_word(found) {
        let noun = noun(found.part);
        return format!(in alloc;
            "found {value}, where a list of {noun}s is wanted: [[{value},..],..]"
        );
    }
    let wanted = described(found.part);
    format!(in alloc; "found {value}, where {wanted} is wanted")
}

/// What is said of an unknown word.
fn unknown(alloc: Global, part: Part, word: &str, value: &Value) -> Said {
    let noun = noun(part);
    let word_shown = shown(alloc, value)?;
    let allowed = words_allowed(alloc, part, word)?;
    format!(in alloc; "unknown {noun} {word_shown}: {allowed}")
}

/// What is said of an array whose word is known and that has another number of elements after it than the word takes.
fn miscounted(alloc: Global, input: Input, form: Form, has: usize) -> Said {
    let word = form.word;
    if form.parts.are_so_many(has) {
        let nowhere = nowhere(input);
        return format!(in alloc; "\"{word}\" has no place {nowhere}");
    }
    let number = form.parts.number();
    let spelling = form.spelling;
    format!(in alloc; "elements after \"{word}\": {has} found, {number} wanted: {spelling}")
}

/// What is said of an array that begins with a word.
fn misworded(
    alloc: Global,
    input: Input,
    found: Found<'_>,
    word: &str,
    elements: &[Value],
) -> Said {
    match form_of(found.part, word) {
        Some(form) => miscounted(alloc, input, form, elements.len()),
        None => match found.value.get(0) {
            Some(first) => unknown(alloc, found.part, word, first),
            None => unfit(alloc, found),
        },
    }
}

/// What is said of a value of the wrong shape.
fn misshaped(alloc: Global, input: Input, found: Found<'_>) -> Said {
    match found.part {
        Part::Event
        | Part::Beginning
        | Part::FirstElement
        | Part::Statement
        | Part::Expression
        | Part::Condition
        | Part::Compare
        | Part::Operation => match worded_array(found.value) {
            Some((word, elements)) => misworded(alloc, input, found, word, elements),
            None => unfit(alloc, found),
        },
        Part::Level | Part::Order => match found.value.as_str() {
            Some(word) => unknown(alloc, found.part, word, found.value),
            None => unfit(alloc, found),
        },
        Part::Line => misshaped_line(alloc, found),
        _ => unfit(alloc, found),
    }
}

/// What is said of a line of the wrong shape.
fn misshaped_line(alloc: Global, found: Found<'_>) -> Said {
    let Some(first) = word_of_line(found.value) else {
        return unfit(alloc, found);
    };
    let Some(word) = first.as_str() else {
        return unfit(alloc, found);
    };
    match form_of(Part::Line, word) {
        Some(form) => unfit_line(alloc, found, form),
        None => unknown(alloc, Part::Line, word, first),
    }
}

/// What is said of a line with a known word, whose elements are too many or too few, or that has no number where one is due.
fn unfit_line(alloc: Global, found: Found<'_>, form: Form) -> Said {
    let value = shown(alloc, found.value)?;
    let spelling = form.spelling;
    format!(in alloc; "found {value}, where a line {spelling} is wanted")
}

/// What is said of a part of a line that does not fit.
fn unfit_in_line(alloc: Global, line: &Value, value: &Value, cause: Cause) -> Said {
    let value = shown(alloc, value)?;
    let spelling = match form_of_line(line) {
        Some(form) => form.spelling,
        None => "",
    };
    match cause {
        Cause::Range => {
            format!(in alloc;
                "found {value}, which is out of range, in a line {spelling}; numbers are from 0 to 9223372036854775807"
            )
        }
        _ => format!(in alloc; "found {value}, which does not fit into a line {spelling}"),
    }
}

/// What is said of one thing too many in such a place.
fn too_many(part: Part) -> &'static str {
    match part {
        Part::ListedKey => "a program's list has at most 128 keys",
        _ => "a scenario has at most 100000 events",
    }
}

/// What is said of a value at which reading stopped.
fn words_of(alloc: Global, input: Input, found: Found<'_>, cause: Cause) -> Said {
    match cause {
        Cause::Shape => misshaped(alloc, input, found),
        Cause::TooDeep => String::from_str(alloc, "a program nests at most 32 deep"),
        Cause::TooManyNodes => String::from_str(alloc, "a program has at most 4096 nodes"),
        Cause::TooLong => String::from_str(alloc, "a text of a program has at most 65536 bytes"),
        Cause::TooMany => String::from_str(alloc, too_many(found.part)),
        Cause::Range | Cause::NotJson => unfit(alloc, found),
    }
}

/// What is said of a fault of a text that is JSON.
fn reported_of_value(
    alloc: Global,
    input: Input,
    text: &str,
    value: &Value,
    steps: &[usize],
    cause: Cause,
) -> Result<Explained, AllocError>
    ensures { IfOk result (λ reported. reported.offset ≤ length text.now) }
{
    let offset = offset_of(alloc, text, steps)?;
    match walk(input, value, steps) {
        Some(
            Found {
                part: Part::OfLine,
                value: part,
            },
        ) => {
            let words = unfit_in_line(alloc, value, part, cause)?;
            Ok(Explained { offset, words })
        }
        Some(found) => {
            let words = words_of(alloc, input, found, cause)?;
            Ok(Explained { offset, words })
        }
        None => Explained::new(alloc, offset, "what stands here is not wanted"),
    }
}

/// What is said of a fault of a text; where the text is no JSON, that it is none.
fn reported_in(
    alloc: Global,
    input: Input,
    text: &[u8],
    steps: &[usize],
    cause: Cause,
) -> Result<Explained, AllocError>
    ensures { IfOk result (λ reported. reported.offset ≤ length text.now) }
{
    let value = match json_of(alloc, text)? {
        Ok(value) => value,
        Err(reported) => return Ok(reported),
    };
    match std::str::from_utf8(text) {
        Ok(text) => reported_of_value(alloc, input, text, &value, steps, cause),
        Err(_) => unreachable!(),
    }
}

/// The same of a fault in one line of a report; the offset is counted from the text's start.
fn reported_in_line(
    alloc: Global,
    text: &[u8],
    line: usize,
    steps: &[usize],
    cause: Cause,
) -> Result<Explained, AllocError>
    ensures { IfOk result (λ reported. reported.offset ≤ length text.now) }
{
    let start = line_start(text, line);
    let (_, rest) = text.split_at(start);
    let end = line_length(rest);
    if end == rest.len() {
        return Explained::new(alloc, start, "the last line is not ended by a line feed");
    }
    let reported = reported_in(alloc, Input::Report, &rest[..end], steps, cause)?;
    Ok(Explained {
        offset: start + reported.offset,
        words: reported.words,
    })
}

/// What is said of a fault of an input.
fn reported_of(
    alloc: Global,
    input: Input,
    text: &[u8],
    steps: &[usize],
    cause: Cause,
) -> Result<Explained, AllocError>
    ensures { IfOk result (λ reported. reported.offset ≤ length text.now) }
{
    let Some((first, rest)) = steps.split_first() else {
        return reported_of_whole(alloc, input, text, cause);
    };
    match input {
        Input::Report => reported_in_line(alloc, text, *first, rest, cause),
        _ => reported_in(alloc, input, text, steps, cause),
    }
}

/// What is said of a fault of the whole input.
fn reported_of_whole(
    alloc: Global,
    input: Input,
    text: &[u8],
    cause: Cause,
) -> Result<Explained, AllocError>
    ensures { IfOk result (λ reported. reported.offset ≤ length text.now) }
{
    match cause {
        Cause::TooLong => Explained::new(alloc, text.len(), "an input has at most 16777216 bytes"),
        _ => reported_in(alloc, input, text, &[], cause),
    }
}

/// The line of what is said of a fault.
fn line_about(alloc: Global, name: &str, text: &[u8], reported: &Explained) -> Said
    requires { reported.now.offset ≤ length text.now }
    ensures { IfOk result (λ line. IsExplanation name.now text.now (string_bytes line)) }
{
    let at = position_of(text, reported.offset);
    line_of(alloc, name, at.line, at.column, reported.words.as_str())
}

/// Adds the line of a fault of a text that is JSON.
fn add_line(
    alloc: Global,
    read: &ReadText<'_>,
    fault: &Fault,
    said: &mut String,
) -> Result<(), AllocError>
    requires { AreExplanations read.now.name.now read.now.text.now (string_bytes said.old) }
    ensures { OnOk result (AreExplanations read.now.name.now read.now.text.now (string_bytes said.new)) }
{
    let steps = fault.steps.as_slice();
    let reported = reported_of_value(alloc, read.input, read.text, read.value, steps, fault.cause)?;
    let line = line_about(alloc, read.name, read.text.as_bytes(), &reported)?;
    said.push_str(line.as_str())?;
    Ok(())
}

/// Adds the lines of faults of a text that is JSON.
fn add_lines(
    alloc: Global,
    read: &ReadText<'_>,
    faults: &[Fault],
    said: &mut String,
) -> Result<(), AllocError>
    requires { AreExplanations read.now.name.now read.now.text.now (string_bytes said.old) }
    ensures { OnOk result (AreExplanations read.now.name.now read.now.text.now (string_bytes said.new)) }
{
    for fault in faults {
        add_line(alloc, read, fault, said)?;
    }
    Ok(())
}

/// Adds the lines of the faults of a text beside the one at this place; none where the text is no JSON.
fn add_others(
    alloc: Global,
    input: Input,
    name: &str,
    text: &str,
    steps: &[usize],
    said: &mut String,
) -> Result<(), AllocError>
    requires { AreExplanations name.now text.now (string_bytes said.old) }
    ensures { OnOk result (AreExplanations name.now text.now (string_bytes said.new)) }
{
    let value = match Value::from_str(alloc, text) {
        Ok(value) => value,
        Err(error) if error.is_memory() => return Err(AllocError),
        Err(_) => return Ok(()),
    };
    let faults = other_faults(alloc, input, &value, steps)?;
    let value = &value;
    let read = ReadText {
        input,
        name,
        text,
        value,
    };
    add_lines(alloc, &read, faults.as_slice(), said)?;
    Ok(())
}

/// Adds the lines of the faults of a scenario or a program beside the one at this place.
fn add_more(
    alloc: Global,
    input: Input,
    name: &str,
    text: &[u8],
    steps: &[usize],
    said: &mut String,
) -> Result<(), AllocError>
    requires { AreExplanations name.now text.now (string_bytes said.old) }
    ensures { OnOk result (AreExplanations name.now text.now (string_bytes said.new)) }
{
    if input == Input::Report || steps.is_empty() || exchanged(alloc, input, text)?.is_some() {
        return Ok(());
    }
    let Ok(readable) = std::str::from_utf8(text) else {
        return Ok(());
    };
    add_others(alloc, input, name, readable, steps, said)?;
    Ok(())
}

/// What is said of the first fault of a text: that it stands in another's place, or where it is bad and why.
fn reported_first(
    alloc: Global,
    input: Input,
    text: &[u8],
    steps: &[usize],
    cause: Cause,
) -> Result<Explained, AllocError>
    ensures { IfOk result (λ reported. reported.offset ≤ length text.now) }
{
    match exchanged(alloc, input, text)? {
        Some(words) => Explained::new(alloc, 0, words),
        None => reported_of(alloc, input, text, steps, cause),
    }
}

/// The explanation of a fault that a reader found in a text of this kind, as a line `NAME:LINE:COLUMN: WORDS` and a line feed, and such lines of
/// other faults of a scenario or a program, up to ten in all.
///
/// The name is that of the text's file, line and column are those of an offset in the text. The words say what was found there and what is
/// allowed, or why the text is no JSON. It fails where an allocation failed.
#[tactic(auto, using(crate::proofs::LineLemmas::one))]
pub fn explain(alloc: Global, input: Input, name: &str, text: &[u8], bad: &BadInput) -> Said
    ensures { IfOk result (λ lines. AreExplanations name.now text.now (string_bytes lines)) }
{
    let steps = steps_of(alloc, bad.place.as_str())?;
    let reported = reported_first(alloc, input, text, steps.as_slice(), bad.cause)?;
    let mut said = line_about(alloc, name, text, &reported)?;
    add_more(alloc, input, name, text, steps.as_slice(), &mut said)?;
    Ok(said)
}

/// The explanation of what stands in a text of JSON at the place that these indices lead to, as one line: `NAME:LINE:COLUMN: WORDS` and a line
/// feed. It fails where an allocation failed.
pub fn explained_at(alloc: Global, name: &str, text: &str, steps: &[usize], words: &str) -> Said
    ensures { IfOk result (λ line. IsExplanationOf name.now text.now words.now (string_bytes line)) }
{
    let offset = offset_of(alloc, text, steps)?;
    let at = position_of(text.as_bytes(), offset);
    line_of(alloc, name, at.line, at.column, words)
}

/// A line of explanation.
pub(crate) fn line_of(alloc: Global, name: &str, line: usize, column: usize, words: &str) -> Said
    ensures { IfOk result (λ text. string_bytes text ≡ explanation name.now line column words.now) }
{
    format!(in alloc; "{name}:{line}:{column}: {words}\n")
}
