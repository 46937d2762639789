//! The text of a source without what a schedule stands for: its steps, and the events of the others, which stand behind the last start.

use crate::items::{Item, ItemKind, between, end_of, items_of, last_start};
use crate::spots::{open_behind, spelled};
use crate::whole::compiled_source;
use std::alloc::{AllocError, Global};
use stm_explain::Said;
use stm_source::SourceError;
use stm_tokens::{Token, tokens_of};

/// The bytes of a start's level: none behind its last token, where none is named.
fn level_place(source: &str, tokens: &[Token]) -> (usize, usize) {
    let mut open = 0;
    let mut is_level = false;
    let mut last = 0;
    for token in tokens {
        last = end_of(source, token);
        if is_level {
            return (token.at, last);
        }
        is_level = open == 0 && spelled(token) == "at";
        open = open_behind(open, token);
    }
    (last, last)
}

/// Adds a start, which ends at a byte, at a level.
fn push_start(
    out: &mut String,
    source: &str,
    start: Item<'_>,
    end: usize,
    level: &str,
) -> Result<(), AllocError> {
    let (from, to) = level_place(source, start.tokens);
    out.push_str(between(source, start.at, from))?;
    if from == to {
        out.push_str(" at ")?;
    }
    out.push_str(level)?;
    out.push_str(between(source, to, end))?;
    Ok(())
}

/// Adds an item, which ends at a byte, with a start at a level, where one is named.
fn push_item(
    out: &mut String,
    source: &str,
    item: Item<'_>,
    end: usize,
    level: Option<&str>,
) -> Result<(), AllocError> {
    match (item.kind, level) {
        (ItemKind::Start, Some(level)) => push_start(out, source, item, end, level),
        _ => out.push_str(between(source, item.at, end)),
    }
}

/// Whether an item stays, where the last start begins at a byte, if there is one.
fn is_kept(item: Item<'_>, start: Option<usize>) -> bool {
    match (item.kind, start) {
        (ItemKind::Step, _) => false,
        (ItemKind::Event, Some(start)) => item.at < start,
        _ => true,
    }
}

/// The text of a source without its steps and without the events behind its last start, with each start at a level, where one is named, and with a line
/// feed at its end.
pub fn kept_text(alloc: Global, source: &str, level: Option<&str>) -> Said {
    let tokens = tokens_of(alloc, source.as_bytes())?;
    let items = items_of(alloc, tokens.as_slice())?;
    let items = items.as_slice();
    let start = last_start(items);
    let mut out = String::new(alloc);
    if let Some(first) = items.first() {
        out.push_str(between(source, 0, first.at))?;
    }
    for (index, item) in items.iter().enumerate() {
        let end = match items.get(index.saturating_add(1)) {
            Some(next) => next.at,
            None => source.len(),
        };
        if is_kept(*item, start) {
            push_item(&mut out, source, *item, end, level)?;
        }
    }
    if !out.as_str().ends_with('\n') {
        out.push('\n')?;
    }
    Ok(out)
}

/// Whether a source comes to the scenario of this line. It fails only when out of memory.
pub fn spells(alloc: Global, source: &str, line: &str) -> Result<bool, AllocError> {
    match compiled_source(alloc, source.as_bytes()) {
        Ok(compiled) => Ok(compiled.line.as_str() == line),
        Err(SourceError::OutOfMemory) => Err(AllocError),
        Err(SourceError::Bad(_)) => Ok(false),
    }
}
