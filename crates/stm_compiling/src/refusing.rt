//! What is said of words that are typed for a part of a source which it does not have: a name of none of its programs and rules, or arguments that the one of
//! that name does not take.

use crate::calls::{given_from, listed_behind, parameters_of, takes_list};
use crate::explaining::words_at;
use crate::program::{line_named, start_at, started};
use crate::spots::{Spot, behind, spelled, spot_at};
use crate::titles::titles_but;
use crate::whole::rules_in;
use std::alloc::{AllocError, Global};
use stm_explain::Said;
use stm_source::{BadSource, Rule, SourceCause, SourceError};
use stm_tokens::{Token, tokens_of};

/// Why a name and words are no part of a source that has no fault itself.
#[derive(Debug, Drop)]
pub enum Refused {
    /// None of its programs, rules and finals has the name: which names there are.
    Name(String),
    /// The one of the name does not take these arguments: why not.
    Arguments(String),
}

/// The head of a program that is defined among tokens, `NAME(PARAMETER, ..)`; its name alone, where none of them defines one.
fn head_of(alloc: Global, tokens: &[Token], name: &str) -> Said {
    let mut head = String::from_str(alloc, name)?;
    for token in behind(given_from(tokens, name), 2) {
        match spelled(token) {
            "," => head.push_str(", ")?,
            word => head.push_str(word)?,
        }
        if spelled(token) == ")" {
            return Ok(head);
        }
    }
    Ok(head)
}

/// So many arguments, in words.
fn arguments_in_words(alloc: Global, count: usize) -> Said {
    match count {
        0 => String::from_str(alloc, "no arguments"),
        1 => String::from_str(alloc, "1 argument"),
        _ => format!(in alloc; "{count} arguments"),
    }
}

/// What is said of words one of which is an option of a command, as `--explain`, that stands where an argument does; nothing of others.
fn said_of_options(words: &[String]) -> &'static str {
    let is_option = words.iter().any(|word| word.as_str().starts_with("--")
        && word.as_str() != "--text");
    if is_option {
        "; an option stands before the name"
    } else {
        ""
    }
}

/// What is said of a program or a rule that takes another number of arguments than stand in the place where it is started, which these words are.
fn count_words(alloc: Global, name: &str, words: &[String], spot: Spot<'_>) -> Said {
    let options = said_of_options(words);
    let head = head_of(alloc, spot.before, name)?;
    let given = listed_behind(spot.from);
    let parameters = parameters_of(spot.before, name);
    if takes_list(spot.before, name) {
        let least = arguments_in_words(alloc, parameters.saturating_sub(1))?;
        return format!(in alloc; "{head} takes {least} or more: {given} found{options}");
    }
    let wanted = arguments_in_words(alloc, parameters)?;
    format!(in alloc; "{head} takes {wanted}: {given} found{options}")
}

/// What is said of a fault in the line that starts a program of a name with words, behind a source, in their text.
fn refused_at(
    alloc: Global,
    text: &str,
    name: &str,
    words: &[String],
    bad: BadSource,
) -> Result<Refused, AllocError> {
    let tokens = tokens_of(alloc, text.as_bytes())?;
    let spot = spot_at(text, tokens.as_slice(), bad.at);
    match bad.cause {
        SourceCause::Name => Ok(Refused::Name(titles_but(alloc, tokens.as_slice(), name)?)),
        SourceCause::Arguments => Ok(Refused::Arguments(count_words(alloc, name, words, spot)?)),
        cause => Ok(Refused::Arguments(words_at(alloc, spot, cause)?)),
    }
}

/// Why a name and words are no part of a source that has these rules.
fn refused_beside(
    alloc: Global,
    source: &[u8],
    rules: &[Rule],
    name: &str,
    words: &[String],
) -> Result<Option<Refused>, AllocError> {
    let text = started(alloc, source, name, words)?;
    match line_named(alloc, start_at(source), rules, name, words, text.as_slice()) {
        Ok(_) => Ok(None),
        Err(SourceError::Bad(bad)) => {
            let text = str::from_utf8(text.as_slice()).unwrap_or("");
            Ok(Some(refused_at(alloc, text, name, words, bad)?))
        }
        Err(SourceError::OutOfMemory) => Err(AllocError),
    }
}

/// Why a name and words, as `Part::Program` has them, are no part of a source; nothing, where they are one, or where the source has a fault itself. It fails
/// only when out of memory.
pub fn refused_in(
    alloc: Global,
    source: &[u8],
    name: &str,
    words: &[String],
) -> Result<Option<Refused>, AllocError> {
    match rules_in(alloc, source) {
        Ok(rules) => refused_beside(alloc, source, rules.as_slice(), name, words),
        Err(SourceError::Bad(_)) => Ok(None),
        Err(SourceError::OutOfMemory) => Err(AllocError),
    }
}
