//! What begins at the top of a source.

use crate::spots::{is_one_of, name_of, open_behind, spelled};
use crate::wanted::EVENTS;
use std::alloc::{AllocError, Global};
use stm_tokens::{Token, TokenKind, number_length};

/// What an item is.
#[derive(Clone, Copy, PartialEq, Eq)]
pub(crate) enum ItemKind {
    /// A program, a rule, a final or a definition.
    Part,
    /// A start.
    Start,
    /// Steps.
    Step,
    /// Any other event.
    Event,
}

/// An item of a source.
#[derive(Clone, Copy)]
pub(crate) struct Item<'a> {
    pub(crate) kind: ItemKind,
    /// The byte at which it begins.
    pub(crate) at: usize,
    /// Its tokens, up to the next item or the end.
    pub(crate) tokens: &'a [Token],
}

/// The item that a token begins behind another one, where no bracket is open.
fn kind_of(before: &str, token: &Token) -> Option<ItemKind> {
    match spelled(token) {
        "program" | "rule" | "finally" | "let" => Some(ItemKind::Part),
        // A name stands there, whatever the word.
        _
            if matches!(
                before,
                "program" | "rule" | "finally" | "let" | "=" | "start"
            ) => None,
        "start" => Some(ItemKind::Start),
        "step" => Some(ItemKind::Step),
        word if is_one_of(word, &EVENTS) => Some(ItemKind::Event),
        _ => None,
    }
}

/// Adds the item that has begun in a place, if one has, with its tokens up to another place.
fn push_item<'a>(
    items: &mut Vec<Item<'a>>,
    tokens: &'a [Token],
    begun: Option<(ItemKind, usize)>,
    to: usize,
) -> Result<(), AllocError> {
    let Some((kind, from)) = begun else {
        return Ok(());
    };
    let tokens = tokens.get(from..to).unwrap_or(&[]);
    if let Some(first) = tokens.first() {
        items.push(Item {
            kind,
            at: first.at,
            tokens,
        })?;
    }
    Ok(())
}

/// The items of a source.
pub(crate) fn items_of(alloc: Global, tokens: &[Token]) -> Result<Vec<Item<'_>>, AllocError> {
    let mut items = Vec::new(alloc);
    let mut begun = None;
    let mut open = 0;
    let mut before = "";
    for (place, token) in tokens.iter().enumerate() {
        let kind = if open == 0 {
            kind_of(before, token)
        } else {
            None
        };
        if kind.is_some() || matches!(token.kind, TokenKind::End) {
            push_item(&mut items, tokens, begun, place)?;
            begun = kind.map(|kind| (kind, place));
        }
        open = open_behind(open, token);
        before = spelled(token);
    }
    push_item(&mut items, tokens, begun, tokens.len())?;
    Ok(items)
}

/// The byte at which the last start begins; none, where there is none.
pub(crate) fn last_start(items: &[Item<'_>]) -> Option<usize> {
    let start = items
        .iter()
        .rev()
        .find(|item| item.kind == ItemKind::Start)?;
    Some(start.at)
}

/// The text from one byte to another.
pub(crate) fn between(source: &str, from: usize, to: usize) -> &str {
    source.get(from..to).unwrap_or("")
}

/// The byte behind a token that is no text.
pub(crate) fn end_of(source: &str, token: &Token) -> usize {
    let length = match &token.kind {
        TokenKind::Number(_) => { number_length(source.as_bytes().get(token.at..).unwrap_or(&[])) }
        _ => spelled(token).len().max(1),
    };
    token.at.saturating_add(length)
}

/// The names that a start gives, by its tokens.
pub(crate) fn names_of<'a>(alloc: Global, tokens: &'a [Token]) -> Result<Vec<&'a str>, AllocError> {
    let mut names = Vec::new(alloc);
    let mut open = 0;
    let mut is_named = false;
    let mut is_behind = false;
    for token in tokens {
        let name = name_of(token);
        if is_named && !name.is_empty() {
            names.push(name)?;
            is_named = false;
            is_behind = true;
        } else {
            let goes_on = is_behind && spelled(token) == ",";
            is_named = goes_on || open == 0 && name == "as";
            is_behind = false;
        }
        open = open_behind(open, token);
    }
    Ok(names)
}
