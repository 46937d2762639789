//! The lines of what a store has in words.

use crate::parts::{number_at, plain};
use crate::words::some;
use serde_json::Value as Json;
use std::alloc::{AllocError, Global};
use stm_explain::{Said, shown};

/// A key: its value, and the revision of its last change; its version and its lease, if it has one.
fn key_words(alloc: Global, parts: &[Json]) -> Said {
    let (Some(key), Some(value)) = (parts.get(1), parts.get(2)) else {
        return Ok(String::new(alloc));
    };
    let key = plain(alloc, key)?;
    let value = shown(alloc, value)?;
    let revision = number_at(parts, 4).unwrap_or(0);
    let version = number_at(parts, 5).unwrap_or(0);
    match number_at(parts, 6).unwrap_or(0) {
        0 => format!(in alloc; "key {key} = {value} @{revision}, version {version}"),
        lease => {
            format!(in alloc; "key {key} = {value} @{revision}, version {version}, lease {lease}")
        }
    }
}

/// A live lease: how long it lives, and since when.
fn lease_words(alloc: Global, parts: &[Json]) -> Said {
    let lease = number_at(parts, 1).unwrap_or(0);
    let ttl = number_at(parts, 2).unwrap_or(0);
    let renewed = number_at(parts, 3).unwrap_or(0);
    let due = renewed.saturating_add(ttl);
    format!(in alloc; "lease {lease}: ttl {ttl}, granted or renewed at {renewed}, due at {due}")
}

/// The store's revision, and how many entries changed it.
fn end_words(alloc: Global, parts: &[Json]) -> Said {
    let revision = number_at(parts, 1).unwrap_or(0);
    let entries = number_at(parts, 2).unwrap_or(0);
    format!(in alloc; "revision {revision}, entries {entries}")
}

/// A line in words, by its elements; none of one that a store does not print.
fn words_of(alloc: Global, parts: &[Json]) -> Result<Option<String>, AllocError> {
    let Some(word) = parts.first() else {
        return Ok(None);
    };
    match word.as_str().unwrap_or("") {
        "key" => some(key_words(alloc, parts)),
        "lease" => some(lease_words(alloc, parts)),
        "end" => some(end_words(alloc, parts)),
        _ => Ok(None),
    }
}

/// A line that `store` printed of a key, a lease or the end, in words without a line feed. None of another line. It fails only when out of memory.
pub fn store_line_in_words(alloc: Global, line: &str) -> Result<Option<String>, AllocError> {
    let Ok(json) = Json::from_str(alloc, line) else {
        return Ok(None);
    };
    match json.as_array() {
        Some(parts) => words_of(alloc, parts.as_slice()),
        None => Ok(None),
    }
}
