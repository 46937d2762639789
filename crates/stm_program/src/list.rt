//! The list of keys that a program may begin with.
ghost use Rattle.std.specs.Prelude.{◌≡◌, ◌↔◌, IsTrue, bytes_eq, map, string_bytes};
ghost use Rattle.std.specs.List.{list_any};
ghost use Rattle.stm_program.specs.Limits.{is_no_key, has_repeat, list_fits};

use crate::limits::{MAX_PREFETCH, MAX_TEXT};

/// Whether a text is no key of a list: it is empty, or has too many bytes.
fn is_no_key(text: &str) -> bool
    ensures { result ≡ is_no_key text.now }
{
    text.is_empty() || text.len() > MAX_TEXT
}

/// Whether one of these texts is no key of a list.
fn has_no_key(keys: &[String]) -> bool
    ensures { result ≡ list_any is_no_key (map string_bytes keys.now) }
{
    match keys {
        [] => false,
        [first, rest @ ..] => is_no_key(first.as_str()) || has_no_key(rest),
    }
}

/// Whether a key is one of these. It allocates nothing.
pub fn is_listed(key: &str, keys: &[String]) -> bool
    ensures { result ≡ list_any (bytes_eq key.now) (map string_bytes keys.now) }
{
    match keys {
        [] => false,
        [other, rest @ ..] => key == other.as_str() || is_listed(key, rest),
    }
}

/// Whether a list has a key twice.
fn repeats(keys: &[String]) -> bool
    ensures { result ≡ has_repeat (map string_bytes keys.now) }
{
    match keys {
        [] => false,
        [first, rest @ ..] => is_listed(first.as_str(), rest) || repeats(rest),
    }
}

/// Whether keys are within the limits of a program's list: no more than `MAX_PREFETCH`, each of 1 to `MAX_TEXT` bytes, none twice.
///
/// It allocates nothing, and compares each key with those after it.
pub fn list_fits(keys: &[String]) -> bool
    ensures { result ≡ list_fits (map string_bytes keys.now) }
{
    keys.len() <= MAX_PREFETCH && !has_no_key(keys) && !repeats(keys)
}

/// Whether two lists have the same keys in the same order.
pub(crate) fn are_same_keys(left: &[String], right: &[String]) -> bool
    ensures { IsTrue result ↔ map string_bytes left.now ≡ map string_bytes right.now }
{
    match left {
        [] => right.is_empty(),
        [first, rest @ ..] => match right {
            [] => false,
            [other, others @ ..] => {
                first.as_str() == other.as_str() && are_same_keys(rest, others)
            }
        },
    }
}
