//! Lines about runners, with the names that their source gives them.

use std::alloc::{AllocError, Global};
use stm_compiling::{NamedRunner, name_of_runner};
use stm_explain::Said;

/// What stands in a line before the key by which a final asks how a runner ended, and its `#`.
const ASKED: &str = "the key \"#";

/// What is said behind a key whose value is "".
const EMPTY: &str = " is absent, or its value \"\"";

/// How lines call runners.
#[derive(Clone, Copy)]
pub(crate) struct Called {
    /// What stands before the number of one.
    pub(crate) word: &'static str,
    /// The number of the first one.
    pub(crate) first: u64,
}

/// Runners of a world.
pub(crate) const RUNNERS: Called = Called {
    word: "runner ",
    first: 1,
};

/// Runners as jobs of threads.
pub(crate) const JOBS: Called = Called {
    word: "job ",
    first: 0,
};

/// Whether a character is no digit.
fn is_no_digit(character: char) -> bool {
    !character.is_ascii_digit()
}

/// The digits with which a text begins, and the rest.
pub(crate) fn digits_of(text: &str) -> (&str, &str) {
    match text.split_once(is_no_digit) {
        Some((digits, _)) => (digits, text.strip_prefix(digits).unwrap_or("")),
        None => (text, ""),
    }
}

/// The name of the runner whose number the digits are, where the first one has this number.
fn name_in<'a>(runners: &'a [NamedRunner], first: u64, digits: &str) -> Option<&'a str> {
    match digits.parse::<u64>() {
        Ok(number) => name_of_runner(runners, number.saturating_sub(first).saturating_add(1)),
        Err(_) => None,
    }
}

/// Adds a runner, by what stands behind that word: with its name, if its source gives it one.
fn push_runner(
    alloc: Global,
    out: &mut String,
    called: Called,
    runners: &[NamedRunner],
    behind: &str,
) -> Result<(), AllocError> {
    let word = called.word;
    let (digits, rest) = digits_of(behind);
    match name_in(runners, called.first, digits) {
        Some(name) => {
            let named = format!(in alloc; "{name} ({word}{digits}){rest}")?;
            out.push_str(named.as_str())
        }
        None => {
            out.push_str(word)?;
            out.push_str(behind)
        }
    }
}

/// What a final asks for of a runner: `end(NAME)`, `why(NAME)` or `out(NAME, PLACE)`; nothing, where a word and what stands behind a number are none of it.
fn asked_of(
    alloc: Global,
    word: &str,
    name: &str,
    behind: &str,
) -> Result<Option<String>, AllocError> {
    match (word, behind.strip_prefix('/')) {
        ("end" | "why", None) => {
            let asked = format!(in alloc; "{word}({name})")?;
            Ok(Some(asked))
        }
        ("out", Some(place)) => {
            let asked = format!(in alloc; "out({name}, {place})")?;
            Ok(Some(asked))
        }
        _ => Ok(None),
    }
}

/// The same by a key that is laid over the state, of which this stands behind its `#`.
fn asked_by(
    alloc: Global,
    runners: &[NamedRunner],
    key: &str,
) -> Result<Option<String>, AllocError> {
    let Some((word, rest)) = key.split_once('/') else {
        return Ok(None);
    };
    let (digits, behind) = digits_of(rest);
    match name_in(runners, 1, digits) {
        Some(name) => asked_of(alloc, word, name, behind),
        None => asked_of(alloc, word, digits, behind),
    }
}

/// What stands behind what a final asks for, where this stands behind its key.
fn behind_asked(rest: &str) -> &str {
    if rest == EMPTY { " is \"\"" } else { rest }
}

/// A line of a final's fault with what its source has in the place of the key that it says; nothing of another line.
fn with_asked(
    alloc: Global,
    runners: &[NamedRunner],
    line: &str,
) -> Result<Option<String>, AllocError> {
    let Some((front, behind)) = line.split_once(ASKED) else {
        return Ok(None);
    };
    let Some((key, rest)) = behind.split_once('"') else {
        return Ok(None);
    };
    match asked_by(alloc, runners, key)? {
        Some(asked) => {
            let rest = behind_asked(rest);
            let line = format!(in alloc; "{front}{asked}{rest}")?;
            Ok(Some(line))
        }
        None => Ok(None),
    }
}

/// A line with the names of the runners that it is about, where their source gives them some, and with what a final asks for.
pub(crate) fn with_names(
    alloc: Global,
    called: Called,
    runners: &[NamedRunner],
    line: &str,
) -> Said {
    match with_asked(alloc, runners, line)? {
        Some(line) => named_in(alloc, called, runners, line.as_str()),
        None => named_in(alloc, called, runners, line),
    }
}

/// A line with the names of the runners that it is about. Behind a quote stand words of others, in which nothing is the number of a runner.
fn named_in(alloc: Global, called: Called, runners: &[NamedRunner], line: &str) -> Said {
    let mut named = String::new(alloc);
    let mut are_others = false;
    for (index, part) in line.split(called.word).enumerate() {
        if index == 0 {
            named.push_str(part)?;
        } else if are_others {
            named.push_str(called.word)?;
            named.push_str(part)?;
        } else {
            push_runner(alloc, &mut named, called, runners, part)?;
        }
        are_others = are_others || part.contains('"');
    }
    Ok(named)
}
