//! Where a program wants an argument as a number that it wants as a text, too.

use crate::calls::given_from;
use crate::fault::position_in;
use crate::items::{between, end_of};
use crate::spots::{Spot, behind, name_of, open_behind, spelled};
use std::alloc::{AllocError, Global};
use stm_explain::Said;
use stm_source::{SourceCause, SourceError, read_source};
use stm_tokens::Token;

/// The tokens of a program from its name on, up to the brace that ends it, of those that begin with its name.
fn program_in(tokens: &[Token]) -> &[Token] {
    let mut open = 0usize;
    for (index, token) in tokens.iter().enumerate() {
        open = open_behind(open, token);
        if open == 0 && spelled(token) == "}" {
            return tokens.get(..index.saturating_add(1)).unwrap_or(tokens);
        }
    }
    tokens
}

/// The place of a name in the parentheses behind the first of these tokens.
fn place_of(tokens: &[Token], name: &str) -> Option<usize> {
    let mut place = 0usize;
    for token in behind(tokens, 2) {
        match spelled(token) {
            ")" => return None,
            "," => place = place.saturating_add(1),
            word if word == name => return Some(place),
            _ => {}
        }
    }
    None
}

/// The text of the argument with a place in the parentheses behind the first of these tokens.
fn argument_at<'a>(source: &'a str, tokens: &[Token], place: usize) -> Option<&'a str> {
    let mut number = 0usize;
    let mut from = tokens.get(1)?.at.saturating_add(1);
    for token in behind(tokens, 2) {
        match spelled(token) {
            ")" | "," if number == place => return Some(between(source, from, token.at).trim()),
            ")" => return None,
            "," => {
                number = number.saturating_add(1);
                from = token.at.saturating_add(1);
            }
            _ => {}
        }
    }
    None
}

/// The argument of a start for the parameter of a program that a token names. The tokens of both begin with the program's name.
fn argument_for<'a>(
    source: &'a str,
    program: &[Token],
    start: &[Token],
    token: &Token,
) -> Option<&'a str> {
    match name_of(token) {
        "" => None,
        name => argument_at(source, start, place_of(program, name)?),
    }
}

/// A source up to the end of a program, in whose body the arguments of a start stand in the places of its parameters.
fn with_arguments(alloc: Global, source: &str, program: &[Token], start: &[Token]) -> Said {
    let mut text = String::new(alloc);
    let mut copied = 0usize;
    let mut is_body = false;
    for token in program {
        is_body = is_body || spelled(token) == "{";
        if is_body {
            if let Some(argument) = argument_for(source, program, start, token) {
                text.push_str(between(source, copied, token.at))?;
                text.push_str(argument)?;
                copied = end_of(source, token);
            }
        }
    }
    if let Some(last) = program.last() {
        text.push_str(between(source, copied, end_of(source, last)))?;
    }
    Ok(text)
}

/// The line of the first fault of a text, where that is one of kinds.
fn line_in(alloc: Global, text: &[u8]) -> Result<Option<usize>, AllocError> {
    match read_source(alloc, text) {
        Err(SourceError::Bad(bad)) => Ok(match bad.cause {
            SourceCause::Kind => Some(position_in(text, bad.at).line),
            _ => None,
        }),
        Err(SourceError::OutOfMemory) => Err(AllocError),
        Ok(_) => Ok(None),
    }
}

/// The line in which a program, which the start there names, wants an argument as a number that it wants as a text before; nothing, where that is not known.
pub(crate) fn line_of_second_use(
    alloc: Global,
    spot: Spot<'_>,
    name: &str,
) -> Result<Option<usize>, AllocError> {
    let given = given_from(spot.before, name);
    if given.is_empty() {
        return Ok(None);
    }
    let program = program_in(behind(given, 1));
    let text = with_arguments(alloc, spot.source, program, spot.from)?;
    line_in(alloc, text.as_str().as_bytes())
}
