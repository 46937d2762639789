//! What a source calls its runners and the programs that they run.

use crate::items::{ItemKind, between, end_of, items_of, names_of};
use crate::spots::{behind, name_of, open_behind, spelled_at};
use std::alloc::{AllocError, Global};
use stm_history::Text;
use stm_tokens::{Token, TokenKind, tokens_of};

/// A runner as its source calls it.
#[derive(Debug, Drop)]
pub struct CalledRunner {
    /// Its name, where it has one.
    pub name: Option<Text>,
    /// The name of its program with the arguments, as they are spelled, where its start names one.
    pub program: Option<Text>,
}

/// The token with which a program's arguments end, by those behind its name.
fn end_of_call(tokens: &[Token]) -> Option<&Token> {
    let mut open = 0;
    for token in tokens {
        open = open_behind(open, token);
        if open == 0 {
            return Some(token);
        }
    }
    None
}

/// The program that a start names, with its arguments, by the tokens behind its word.
fn call_of<'a>(source: &'a str, tokens: &[Token]) -> &'a str {
    let Some(first) = tokens.first() else {
        return "";
    };
    if name_of(first).is_empty() {
        return "";
    }
    let last = match spelled_at(tokens, 1) {
        "(" => end_of_call(behind(tokens, 1)).unwrap_or(first),
        _ => first,
    };
    between(source, first.at, end_of(source, last))
}

/// Whether a start may send no commit, by the tokens behind its word: then it has no runner.
fn sends_nothing(tokens: &[Token]) -> bool {
    let mut open = 0;
    let mut is_limit = false;
    for token in tokens {
        if let (true, TokenKind::Number(0)) = (is_limit, &token.kind) {
            return true;
        }
        is_limit = open == 0 && name_of(token) == "limit";
        open = open_behind(open, token);
    }
    false
}

/// A copy of a text; none of an empty one.
fn copied(alloc: Global, text: &str) -> Result<Option<Text>, AllocError> {
    if text.is_empty() {
        return Ok(None);
    }
    let copy = Text::copy_of(alloc, text)?;
    Ok(Some(copy))
}

/// Adds a runner.
fn push_runner(
    alloc: Global,
    runners: &mut Vec<CalledRunner>,
    name: &str,
    call: &str,
) -> Result<(), AllocError> {
    let name = copied(alloc, name)?;
    let program = copied(alloc, call)?;
    runners.push(CalledRunner { name, program })?;
    Ok(())
}

/// Adds the runners of a start, by the tokens behind its word.
fn push_started(
    alloc: Global,
    runners: &mut Vec<CalledRunner>,
    source: &str,
    tokens: &[Token],
) -> Result<(), AllocError> {
    if sends_nothing(tokens) {
        return Ok(());
    }
    let call = call_of(source, tokens);
    let names = names_of(alloc, tokens)?;
    if names.is_empty() {
        return push_runner(alloc, runners, "", call);
    }
    for name in names.as_slice() {
        push_runner(alloc, runners, name, call)?;
    }
    Ok(())
}

/// The runners of a source that spells a scenario, in the order of their numbers. It fails only when out of memory.
pub fn called_runners(alloc: Global, source: &str) -> Result<Vec<CalledRunner>, AllocError> {
    let tokens = tokens_of(alloc, source.as_bytes())?;
    let items = items_of(alloc, tokens.as_slice())?;
    let mut runners = Vec::new(alloc);
    for item in items.as_slice() {
        if item.kind == ItemKind::Start {
            push_started(alloc, &mut runners, source, behind(item.tokens, 1))?;
        }
    }
    Ok(runners)
}
