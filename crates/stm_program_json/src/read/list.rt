//! Reading the list of keys that a program may begin with.
ghost use Rattle.std.specs.Prelude.{◌≡◌, [], length, map, option_map, string_bytes};
ghost use Rattle.serde_json.specs.Find.{as_str, as_array};
ghost use Rattle.serde_json.specs.View.{view, items_view};
ghost use Rattle.stm_json.specs.Elements.{worded, one_of};
ghost use Rattle.stm_json.specs.Outcome.{within as within_lem};
ghost use Rattle.stm_json.specs.Returns.{Returns};
ghost use Rattle.stm_program_json.specs.Reading.{key_reported, key_at, keys_from, keys_array, list_of, list_parts};

use serde_json::Value;
use std::alloc::Global;
use stm_json::{Cause, ReadError, fault, one, within, worded_array};
use stm_program::{MAX_PREFETCH, MAX_TEXT, is_listed};

/// What follows the word of a list, where an array begins with it.
pub(crate) fn list_parts(value: &Value) -> Option<&[Value]>
    ensures { option_map (λ vs. items_view vs.now) result ≡ list_parts (worded (view value.now)) }
{
    let (word, parts) = worded_array(value)?;
    if word == "prefetch" {
        Some(parts)
    } else {
        None
    }
}

/// The key that a value spells, after these keys.
fn key(alloc: Global, earlier: &[String], value: &Value) -> Result<String, ReadError>
    ensures { Returns string_bytes result (key_reported (map string_bytes earlier.now) (as_str (view value.now))) }
{
    let Some(text) = value.as_str() else {
        return Err(fault(alloc, Cause::Shape));
    };
    if text.is_empty() || is_listed(text, earlier) {
        return Err(fault(alloc, Cause::Shape));
    }
    if text.len() > MAX_TEXT {
        return Err(fault(alloc, Cause::TooLong));
    }
    let key = String::from_str(alloc, text)?;
    Ok(key)
}

/// The same, where there may be one more key.
fn next_key(alloc: Global, earlier: &[String], value: &Value) -> Result<String, ReadError>
    ensures { Returns string_bytes result (key_at (map string_bytes earlier.now) (view value.now)) }
{
    if earlier.len() < MAX_PREFETCH {
        key(alloc, earlier, value)
    } else {
        Err(fault(alloc, Cause::TooMany))
    }
}

/// The same, of the next element of an array. A fault's place is that in the array.
fn key_part(alloc: Global, earlier: &[String], value: &Value) -> Result<String, ReadError>
    ensures { Returns string_bytes result (within_lem (length earlier.now) (key_at (map string_bytes earlier.now) (view value.now))) }
{
    within(alloc, earlier.len(), next_key(alloc, earlier, value))
}

/// These keys, and the others after them.
#[tactic(auto, unfolding(crate::specs::Reading::keys_from))]
fn with_keys(
    alloc: Global,
    earlier: Vec<String>,
    values: &[Value],
) -> Result<Vec<String>, ReadError>
    ensures { Returns (λ keys. map string_bytes keys.items) result (keys_from (map string_bytes earlier.items) (items_view values.now)) }
{
    let mut keys = earlier;
    match values {
        [] => Ok(keys),
        [first, rest @ ..] => {
            let key = key_part(alloc, keys.as_slice(), first)?;
            keys.push(key)?;
            with_keys(alloc, keys, rest)
        }
    }
}

/// The keys of an array.
fn keys(alloc: Global, value: &Value) -> Result<Vec<String>, ReadError>
    ensures { Returns (λ keys. map string_bytes keys.items) result (keys_array (as_array (view value.now))) }
{
    match value.as_array() {
        Some(values) => with_keys(alloc, Vec::new(alloc), values.as_slice()),
        None => Err(fault(alloc, Cause::Shape)),
    }
}

/// The keys of a list: nothing but their array follows its word.
fn list_keys(alloc: Global, parts: &[Value]) -> Result<Vec<String>, ReadError>
    ensures { Returns (λ keys. map string_bytes keys.items) result (list_of (one_of (items_view parts.now))) }
{
    match one(parts) {
        Some(value) => within(alloc, 1, keys(alloc, value)),
        None => Err(fault(alloc, Cause::Shape)),
    }
}

/// The same, where the list is the first element of an array. A fault's place is that in the array.
pub(crate) fn list_part(alloc: Global, parts: &[Value]) -> Result<Vec<String>, ReadError>
    ensures { Returns (λ keys. map string_bytes keys.items) result (within_lem 0 (list_of (one_of (items_view parts.now)))) }
{
    within(alloc, 0, list_keys(alloc, parts))
}
