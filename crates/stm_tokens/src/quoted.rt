//! Texts in quotes.
ghost use Rattle.std.specs.Prelude.{◌≡◌, ◌≤◌, ◌+◌, length, false, not, ◌&&◌, nat_eq, Some, IfOk, IfSome};
ghost use Rattle.stm_tokens.specs.Quoted.{closing, text_in};
ghost use Rattle.stm_tokens.specs.Tokens.{text_piece};
ghost use Rattle.stm_tokens.specs.declared.token.TokenKind.TheVariants as kind;

use crate::runs::{Run, run_length};
use serde_json::Value;
use std::alloc::{AllocError, Global};
use stm_history::Text;

/// Whether a byte is a backslash that escapes the one behind it: not where it is escaped itself.
fn escapes(escaped: bool, byte: u8) -> bool
    ensures { result ≡ (not escaped && nat_eq byte 92) }
{
    !escaped && byte == b'\\'
}

/// How many bytes there are up to the quote that closes a text, and with it; none, where it is not closed. The first of these follows the quote
/// that opens it.
pub(crate) fn closing_quote(bytes: &[u8]) -> Option<usize>
    ensures is { result ≡ closing 0 false bytes.now }
    ensures within { IfSome result (λ n. n ≤ length bytes.now) }
{
    let mut escaped = false;
    for (index, byte) in bytes.iter().enumerate() {
        if !escaped && *byte == b'"' {
            return Some(index + 1);
        }
        escaped = escapes(escaped, *byte);
    }
    None
}

/// The text at the start, where each of its bytes stands for itself.
pub(crate) fn plain_text(bytes: &[u8]) -> Option<&str>
    ensures is { IfSome result (λ text. text_piece bytes.now ≡ Some (kind.Text text.now, length text.now + 2)) }
    ensures within { IfSome result (λ text. length text.now + 2 ≤ length bytes.now) }
{
    let (first, inner) = bytes.split_first()?;
    let length = run_length(Run::Plain, inner);
    if *first != b'"' || length >= inner.len() || inner[length] != b'"' {
        return None;
    }
    match str::from_utf8(&inner[..length]) {
        Ok(text) => Some(text),
        Err(_) => None,
    }
}

/// The text that bytes with their quotes are a JSON string of, if they are one.
#[tactic(auto, unfolding(crate::specs::Quoted::text_in))]
pub(crate) fn quoted_text(alloc: Global, bytes: &[u8]) -> Result<Option<Text>, AllocError>
    ensures { IfOk result (λ text. text ≡ text_in bytes.now) }
{
    match Value::from_slice(alloc, bytes) {
        Ok(value) => match value.as_str() {
            Some(text) => Ok(Some(Text::copy_of(alloc, text)?)),
            None => Ok(None),
        },
        Err(error) => {
            if error.is_memory() {
                Err(AllocError)
            } else {
                Ok(None)
            }
        }
    }
}
