//! Values as they are shown.

use crate::messages::Said;
use serde_json::Value;
use std::alloc::Global;

/// At most this many bytes of a value's text are shown.
const MOST_SHOWN: usize = 60;

/// Whether a character does something to a terminal: a control character, or one that turns the direction of writing.
pub fn is_hidden(character: char) -> bool {
    character.is_control() || matches!(character, '\u{202a}'..='\u{202e}' | '\u{2066}'..='\u{2069}')
}

/// A text of JSON, with an escape in the place of each hidden character.
fn escaped(alloc: Global, text: &str) -> Said {
    let mut out = String::new(alloc);
    for character in text.chars() {
        if is_hidden(character) {
            let code = u32::from(character);
            let escape = format!(in alloc; "\\u{code:04x}")?;
            out.push_str(escape.as_str())?;
        } else {
            out.push(character)?;
        }
    }
    Ok(out)
}

/// A value in its shortest spelling, without a character that does something to a terminal; of a long one, its first bytes.
pub fn shown(alloc: Global, value: &Value) -> Said {
    let text = value.to_string(alloc)?;
    let text = escaped(alloc, text.as_str())?;
    if text.len() <= MOST_SHOWN {
        return Ok(text);
    }
    let whole = text.as_str();
    match whole.get(..whole.floor_char_boundary(MOST_SHOWN)) {
        Some(front) => format!(in alloc; "{front}.."),
        None => String::from_str(alloc, ".."),
    }
}
