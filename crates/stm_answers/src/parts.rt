//! What the lines of a search are made of.

use serde_json::Value as Json;
use std::alloc::Global;
use stm_explain::{Said, is_hidden, shown};

/// The text at a place of a list, if one stands there.
pub(crate) fn text_at(parts: &[Json], place: usize) -> Option<&str> {
    match parts.get(place) {
        Some(part) => part.as_str(),
        None => None,
    }
}

/// The number at a place of a list, if one stands there.
pub(crate) fn number_at(parts: &[Json], place: usize) -> Option<u64> {
    match parts.get(place) {
        Some(part) => part.as_u64(),
        None => None,
    }
}

/// The list at a place of a list: an empty one, if none stands there.
pub(crate) fn list_at(parts: &[Json], place: usize) -> &[Json] {
    match parts.get(place) {
        Some(part) => list_of(part),
        None => &[],
    }
}

/// The elements of a list: none of what is no list.
pub(crate) fn list_of(part: &Json) -> &[Json] {
    match part.as_array() {
        Some(list) => list.as_slice(),
        None => &[],
    }
}

/// The elements of a list from a place on.
pub(crate) fn behind(parts: &[Json], place: usize) -> &[Json] {
    parts.get(place..).unwrap_or(&[])
}

/// A name as it is, or in quotes, where it has a character that does something to a terminal.
pub(crate) fn plain(alloc: Global, name: &Json) -> Said {
    match name.as_str() {
        Some(text) if !text.chars().any(is_hidden) => String::from_str(alloc, text),
        _ => shown(alloc, name),
    }
}

/// So many moves.
pub(crate) fn moves(alloc: Global, count: u64) -> Said {
    if count == 1 {
        return String::from_str(alloc, "1 move");
    }
    format!(in alloc; "{count} moves")
}

/// What stands before an answer about a level, which stands at a place of its line, if it is about one.
pub(crate) fn at_level(alloc: Global, parts: &[Json], place: usize) -> Said {
    match text_at(parts, place) {
        Some(level) => format!(in alloc; "{level}: "),
        None => Ok(String::new(alloc)),
    }
}
