//! The keys and texts that are nearest to others, by edits of characters.
ghost use Rattle.std.specs.Prelude.{◌<◌};

use crate::key_use::KeyUse;
use std::alloc::{AllocError, Global};
use stm_explain::Said;
use stm_history::Text;
use stm_named_keys::Name;
use strsim::levenshtein;

/// A key of more bytes than this has no near one.
const MOST_NEAR: usize = 60;

/// The nearest key so far, and by how many edits.
#[derive(Clone, Copy)]
struct Near<'a> {
    key: &'a str,
    edits: usize,
}

/// The nearer one of what was found so far and another key, where this is not the same.
fn nearer<'a>(
    alloc: Global,
    near: Near<'a>,
    key: &str,
    known: &'a Text,
) -> Result<Near<'a>, AllocError> {
    let known = known.as_str();
    if known.len() > MOST_NEAR {
        return Ok(near);
    }
    let edits = levenshtein(alloc, key, known)?;
    if 0 < edits && edits < near.edits {
        Ok(Near { key: known, edits })
    } else {
        Ok(near)
    }
}

/// The nearest one among the keys that are there where the schedules begin.
fn near_there<'a>(
    alloc: Global,
    keys: &'a KeyUse,
    near: Near<'a>,
    key: &str,
) -> Result<Near<'a>, AllocError> {
    let mut near = near;
    for place in 0..keys.state.len() {
        near = nearer(alloc, near, key, &keys.state.at(place).key)?;
    }
    Ok(near)
}

/// The nearest one among these keys.
fn near_among<'a>(
    alloc: Global,
    keys: &'a [Text],
    near: Near<'a>,
    key: &str,
) -> Result<Near<'a>, AllocError> {
    let mut near = near;
    for known in keys {
        near = nearer(alloc, near, key, known)?;
    }
    Ok(near)
}

/// The key that is there or is put and that is nearest to one: an empty text, where each is further than that part of it.
pub(crate) fn nearest<'a>(
    alloc: Global,
    keys: &'a KeyUse,
    key: &Text,
    part: usize,
) -> Result<&'a str, AllocError>
    requires { 0 < part }
{
    let key = key.as_str();
    if key.len() > MOST_NEAR {
        return Ok("");
    }
    let edits = key.chars().count() / part + 1;
    let near = near_there(alloc, keys, Near { key: "", edits }, key)?;
    let near = near_among(alloc, keys.put.as_slice(), near, key)?;
    let near = near_among(alloc, keys.spelled.as_slice(), near, key)?;
    Ok(near.key)
}

/// The nearer one of what was found so far and a text of which the beginning alone is known, by as many bytes as this and the other one have.
fn nearer_front<'a>(
    alloc: Global,
    near: Near<'a>,
    text: &str,
    front: &'a Text,
) -> Result<Near<'a>, AllocError> {
    let front = front.as_str();
    let length = front.len().min(text.len());
    if front.len() > MOST_NEAR {
        return Ok(near);
    }
    let (Some(one), Some(other)) = (text.get(..length), front.get(..length)) else {
        return Ok(near);
    };
    let edits = levenshtein(alloc, one, other)?;
    if edits < near.edits && edits <= length / 2 {
        Ok(Near { key: front, edits })
    } else {
        Ok(near)
    }
}

/// A text that is near to another one.
#[derive(Clone, Copy)]
pub(crate) struct NearText<'a> {
    /// The text, or its beginning; an empty text, where none is near.
    pub(crate) text: &'a str,
    /// Whether it is whole.
    pub(crate) is_whole: bool,
}

/// The text that is nearest to one, among those that the spelling of programs says, of a computed one by its beginning: none, where each is further than half
/// of it.
pub(crate) fn nearest_name<'a>(
    alloc: Global,
    names: &'a [Name],
    text: &str,
) -> Result<NearText<'a>, AllocError> {
    let mut is_whole = true;
    let edits = text.chars().count() / 2 + 1;
    let mut near = Near { key: "", edits };
    if text.len() <= MOST_NEAR {
        for name in names {
            let next = if name.is_whole {
                nearer(alloc, near, text, &name.text)?
            } else {
                nearer_front(alloc, near, text, &name.text)?
            };
            if next.edits < near.edits {
                is_whole = name.is_whole;
            }
            near = next;
        }
    }
    Ok(NearText {
        text: near.key,
        is_whole,
    })
}

/// A text without its digits.
fn without_digits(alloc: Global, text: &str) -> Said {
    let mut rest = String::new(alloc);
    for character in text.chars() {
        if !character.is_ascii_digit() {
            rest.push(character)?;
        }
    }
    Ok(rest)
}

/// Whether two keys are the same but for their digits, as those of a list are.
pub(crate) fn are_of_a_list(alloc: Global, key: &str, other: &str) -> Result<bool, AllocError> {
    let left = without_digits(alloc, key)?;
    let right = without_digits(alloc, other)?;
    Ok(left.as_str() == right.as_str())
}
