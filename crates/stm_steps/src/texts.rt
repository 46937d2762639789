//! Texts and keys of programs.
ghost use Rattle.std.specs.Prelude.{◌≡◌, ◌≤◌, ◌++◌, IfOk, MatchResult};
ghost use Rattle.stm_history.specs.declared.revisions.TheConstants.{HIGHEST_NUMBER};
ghost use Rattle.stm_steps.specs.Values.{text_in, key_in, concatenated, put_of, del_of, turns_of, equal, less};

use crate::fault::Fault;
use crate::value::Value;
use std::alloc::{AllocError, Global};
use stm_history::Text;
use stm_program::{MAX_TEXT, Write};

/// A text, where a text is expected. `Kind` is answered for a number.
#[tactic(auto, unfolding(crate::specs::Values::text_in))]
pub fn wanted_text(value: &Value) -> Result<&Text, Fault>
    ensures { MatchResult result (λ text. text_in value.now ≡ Ok text.now) (λ fault. text_in value.now ≡ Err fault) }
{
    match value {
        Value::Text(text) => Ok(text),
        Value::Number(_) => Err(Fault::Kind),
    }
}

/// A text that is not empty, where a key is expected. `Kind` is answered for a number, `EmptyKey` for the empty
/// text.
#[tactic(auto, unfolding(crate::specs::Values::key_in))]
pub fn wanted_key(value: &Value) -> Result<&Text, Fault>
    ensures { MatchResult result (λ key. key_in value.now ≡ Ok key.now) (λ fault. key_in value.now ≡ Err fault) }
{
    match value {
        Value::Text(text) => {
            if text.as_str().is_empty() {
                return Err(Fault::EmptyKey);
            }
            Ok(text)
        }
        Value::Number(_) => Err(Fault::Kind),
    }
}

/// Two texts, one after the other.
fn joined(alloc: Global, front: &str, back: &str) -> Result<Text, AllocError>
    ensures { IfOk result (λ text. text ≡ front.now ++ back.now) }
{
    let mut text = String::from_str(alloc, front)?;
    text.push_str(back)?;
    Text::shared(alloc, text)
}

/// Two texts, one after the other. `Kind` is answered where one of them is a number, `TextTooLong` where there
/// are more than 65536 bytes.
#[tactic(auto, unfolding(crate::specs::Values::concatenated))]
pub fn join(alloc: Global, left: &Value, right: &Value) -> Result<Result<Value, Fault>, AllocError>
    ensures { IfOk result (λ r. r ≡ concatenated left.now right.now) }
{
    match (left, right) {
        (Value::Text(front), Value::Text(back)) => {
            let length = front.as_str().len();
            if length > MAX_TEXT || back.as_str().len() > MAX_TEXT - length {
                return Ok(Err(Fault::TextTooLong));
            }
            let text = joined(alloc, front.as_str(), back.as_str())?;
            Ok(Ok(Value::Text(text)))
        }
        _ => Ok(Err(Fault::Kind)),
    }
}

/// Whether two numbers or two texts are equal. `Kind` is answered for one of each.
#[tactic(auto, unfolding(crate::specs::Values::equal))]
pub fn are_equal(left: &Value, right: &Value) -> Result<bool, Fault>
    ensures { result ≡ equal left.now right.now }
{
    match (left, right) {
        (Value::Text(a), Value::Text(b)) => Ok(a == b),
        (Value::Number(a), Value::Number(b)) => Ok(*a == *b),
        _ => Err(Fault::Kind),
    }
}

/// Whether a number or a text is below another, texts by their bytes. `Kind` is answered for one of each.
#[tactic(auto, unfolding(crate::specs::Values::less))]
pub fn is_below(left: &Value, right: &Value) -> Result<bool, Fault>
    ensures { result ≡ less left.now right.now }
{
    match (left, right) {
        (Value::Text(a), Value::Text(b)) => Ok(a.cmp(b).is_lt()),
        (Value::Number(a), Value::Number(b)) => Ok(*a < *b),
        _ => Err(Fault::Kind),
    }
}

/// The put of a key. The kinds of key and value are checked before the key's length: `Kind` is answered where
/// one of them is a number, and then `EmptyKey` for an empty key.
#[tactic(auto, unfolding(crate::specs::Values::put_of))]
pub fn put(key: &Value, value: &Value, lease: u64) -> Result<Result<Write, Fault>, AllocError>
    ensures { IfOk result (λ r. r ≡ put_of key.now value.now lease) }
{
    match (key, value) {
        (Value::Text(key), Value::Text(value)) => {
            if key.as_str().is_empty() {
                return Ok(Err(Fault::EmptyKey));
            }
            let key = key.clone()?;
            let value = value.clone()?;
            Ok(Ok(Write::Put { key, value, lease }))
        }
        _ => Ok(Err(Fault::Kind)),
    }
}

/// The deletion of a key. `Kind` is answered for a number, `EmptyKey` for the empty text.
#[tactic(auto, unfolding(crate::specs::Values::del_of))]
pub fn deletion(key: &Value) -> Result<Result<Write, Fault>, AllocError>
    ensures { IfOk result (λ r. r ≡ del_of key.now) }
{
    match key {
        Value::Text(key) => {
            if key.as_str().is_empty() {
                return Ok(Err(Fault::EmptyKey));
            }
            let key = key.clone()?;
            Ok(Ok(Write::Del { key }))
        }
        Value::Number(_) => Ok(Err(Fault::Kind)),
    }
}

/// The number of turns of a loop: none for a count of 0 or below. `Kind` is answered for a text, `LoopTooLong`
/// for a count above the loop's limit.
#[tactic(auto, unfolding(crate::specs::Values::turns_of))]
pub fn turns(count: &Value, limit: u64) -> Result<u64, Fault>
    ensures turns { result ≡ turns_of count.now limit }
    ensures in_range { IfOk result (λ n. n ≤ HIGHEST_NUMBER) }
{
    match count {
        Value::Text(_) => Err(Fault::Kind),
        Value::Number(count) => {
            let turns = (*count).max(0) as u64;
            if turns > limit {
                return Err(Fault::LoopTooLong);
            }
            Ok(turns)
        }
    }
}
