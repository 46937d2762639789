//! What is allowed in a place.

use crate::forms::{
    BEGINNINGS, COMPARES, CONDITIONS, EVENTS, EXPRESSIONS, Entry, FIRST_ELEMENTS, Form, LEVELS,
    LINES, OPERATIONS, ORDERS, Part, Parts, STATEMENTS,
};
use crate::messages::Said;
use std::alloc::{AllocError, Global};
use strsim::osa_distance;

/// A word of more bytes than this has no near miss.
const MOST_NEAR: usize = 60;

/// The form of a word, where it is one of these.
fn named(entries: &[Entry], word: &str) -> Option<Form> {
    for (own, parts, spelling) in entries {
        if *own == word {
            return Some(Form {
                word: *own,
                parts: *parts,
                spelling: *spelling,
            });
        }
    }
    None
}

/// The form of a word in such a place, where the word is allowed there.
pub(crate) fn form_of(part: Part, word: &str) -> Option<Form> {
    match part {
        Part::Event => named(&EVENTS, word),
        Part::Beginning => named(&BEGINNINGS, word),
        Part::Level => named(&LEVELS, word),
        Part::FirstElement => named(&FIRST_ELEMENTS, word),
        Part::Statement => named(&STATEMENTS, word),
        Part::Expression => named(&EXPRESSIONS, word),
        Part::Condition => named(&CONDITIONS, word),
        Part::Compare => named(&COMPARES, word),
        Part::Operation => named(&OPERATIONS, word),
        Part::Order => named(&ORDERS, word),
        Part::Line => named(&LINES, word),
        _ => None,
    }
}

/// The elements that follow a word in such a place, where the word is allowed there.
pub(crate) fn parts_after(part: Part, word: &str) -> Option<Parts> {
    Some(form_of(part, word)?.parts)
}

/// The word of these that is nearest to one, by edits of characters and exchanges of two neighbours: an empty one, where each is further than half of the word.
fn nearest(alloc: Global, entries: &[Entry], word: &str) -> Result<&'static str, AllocError> {
    let mut found = "";
    if word.len() > MOST_NEAR {
        return Ok(found);
    }
    let mut least = word.chars().count() / 2 + 1;
    for entry in entries {
        let distance = osa_distance(alloc, word, entry.0)?;
        if distance < least {
            least = distance;
            found = entry.0;
        }
    }
    Ok(found)
}

/// Adds a word in quotes.
fn push_quoted(text: &mut String, word: &str) -> Result<(), AllocError> {
    text.push('"')?;
    text.push_str(word)?;
    text.push('"')
}

/// Adds these words, with commas between them.
fn push_words(text: &mut String, entries: &[Entry]) -> Result<(), AllocError> {
    for (index, entry) in entries.iter().enumerate() {
        if index > 0 {
            text.push_str(", ")?;
        }
        push_quoted(text, entry.0)?;
    }
    Ok(())
}

/// The words of a table, and that of them which is nearest to one that is not among them.
fn listed(alloc: Global, entries: &[Entry], word: &str) -> Said {
    let mut text = String::from_str(alloc, "one of ")?;
    push_words(&mut text, entries)?;
    let near = nearest(alloc, entries, word)?;
    if !near.is_empty() {
        text.push_str("; the nearest is ")?;
        push_quoted(&mut text, near)?;
    }
    Ok(text)
}

/// The words that are allowed in such a place, and which of them is nearest to one that is not.
pub(crate) fn words_allowed(alloc: Global, part: Part, word: &str) -> Said {
    match part {
        Part::Event => listed(alloc, &EVENTS, word),
        Part::Beginning => listed(alloc, &BEGINNINGS, word),
        Part::Level => listed(alloc, &LEVELS, word),
        Part::FirstElement => listed(alloc, &FIRST_ELEMENTS, word),
        Part::Statement => listed(alloc, &STATEMENTS, word),
        Part::Expression => listed(alloc, &EXPRESSIONS, word),
        Part::Condition => listed(alloc, &CONDITIONS, word),
        Part::Compare => listed(alloc, &COMPARES, word),
        Part::Operation => listed(alloc, &OPERATIONS, word),
        Part::Order => listed(alloc, &ORDERS, word),
        Part::Line => listed(alloc, &LINES, word),
        _ => Ok(String::new(alloc)),
    }
}

/// What a word is called that begins such a place.
pub(crate) fn noun(part: Part) -> &'static str {
    match part {
        Part::Event | Part::Beginning => "event",
        Part::Level => "level",
        Part::FirstElement | Part::Statement => "statement",
        Part::Condition => "condition",
        Part::Compare => "compare",
        Part::Operation => "operation",
        Part::Order => "order",
        Part::Line => "line",
        _ => "expression",
    }
}

/// What is allowed in such a place.
pub(crate) fn described(part: Part) -> &'static str {
    match part {
        Part::Scenario => "an array of events",
        Part::Event => "an event, which is an array that begins with a word,",
        Part::Beginning => "[\"begin\",REVISION] or [\"begin\",REVISION,OPERATIONS]",
        Part::Opening => "a whole number from 1 to 9223372036854775806",
        Part::MostOperations => "a whole number from 1 to 128",
        Part::Level => "a level",
        Part::Limit => "a whole number from 0 to 4294967295",
        Part::JobLimit => "a whole number from 1 to 4294967295",
        Part::Program | Part::Block => "an array of statements",
        Part::Keys => "an array of keys",
        Part::ListedKey => "a text of 1 to 65536 bytes that stands in the list once",
        Part::FirstElement | Part::Statement =>
            "a statement, which is an array that begins with a word,",
        Part::Expression =>
            "an expression, which is a text, a whole number from -9223372036854775808 to 9223372036854775807 or an array that begins with a word,",
        Part::Condition => "a condition, which is an array that begins with a word,",
        Part::Variable => "a variable, which is a whole number from 0 to 15,",
        Part::Turns => "a whole number from 0 to 1000",
        Part::Compares => "an array of compares",
        Part::Compare => "a compare, which is an array that begins with a word,",
        Part::Operations => "an array of operations",
        Part::Operation => "an operation, which is an array that begins with a word,",
        Part::Order => "an order",
        Part::Text => "a text",
        Part::Number => "a whole number from 0 to 9223372036854775807",
        Part::Line => "a line of a report, which is an array with a word in it,",
        Part::OfLine => "something else",
    }
}
