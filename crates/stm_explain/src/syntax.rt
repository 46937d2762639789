//! What is wrong with a text that is no JSON.
ghost use Rattle.std.specs.Prelude.{◌≡◌, ◌≤◌, length, IfErr, IfOk, IfSome, IsUtf8, None};
ghost use Rattle.serde_json.specs.Read.{read as read_text};

use crate::explaining::Explained;
use crate::messages::Said;
use crate::offsets::line_start;
use crate::tokens::{Slip, Wrong, slip_of};
use serde_json::{Error, Value};
use std::alloc::{AllocError, Global};

/// How deep arrays and objects may nest.
const MOST_DEPTH: usize = 127;

/// How deep a byte of a text stands.
#[derive(Drop)]
struct Nesting {
    /// How many arrays and objects are open.
    depth: usize,
    is_text: bool,
    is_escaped: bool,
}

impl Nesting {
    /// At the beginning of a text.
    fn new() -> Nesting {
        Nesting {
            depth: 0,
            is_text: false,
            is_escaped: false,
        }
    }

    /// Goes past a byte.
    fn pass(&mut self, byte: u8) {
        if self.is_text {
            self.is_text = self.is_escaped || byte != b'"';
            self.is_escaped = !self.is_escaped && byte == b'\\';
            return;
        }
        match byte {
            b'"' => self.is_text = true,
            b'[' | b'{' => self.depth = self.depth.saturating_add(1),
            b']' | b'}' => self.depth = self.depth.saturating_sub(1),
            _ => {}
        }
    }
}

/// How many arrays and objects are still open after these bytes.
fn depth_after(bytes: &[u8]) -> usize {
    let mut nesting = Nesting::new();
    for byte in bytes {
        nesting.pass(*byte);
    }
    nesting.depth
}

/// Where the first bracket stands that is nested too deep.
fn bracket_too_deep(bytes: &[u8]) -> Option<usize>
    ensures { IfSome result (λ at. at ≤ length bytes.now) }
{
    let mut nesting = Nesting::new();
    for at in 0..bytes.len() {
        nesting.pass(bytes[at]);
        if nesting.depth > MOST_DEPTH {
            return Some(at);
        }
    }
    None
}

/// Whether a byte is white space of JSON.
fn is_blank(byte: u8) -> bool {
    matches!(byte, b' ' | b'\t' | b'\n' | b'\r')
}

/// Whether there is something but white space.
fn has_more(bytes: &[u8]) -> bool {
    for byte in bytes {
        if !is_blank(*byte) {
            return true;
        }
    }
    false
}

/// Whether the text begins with the mark of a byte order.
fn has_mark(text: &[u8]) -> bool {
    text.starts_with(b"\xef\xbb\xbf")
}

/// Whether a value ends with these bytes, and white space.
fn ends_a_value(bytes: &[u8]) -> bool {
    for byte in bytes.iter().rev() {
        if !is_blank(*byte) {
            return !matches!(*byte, b'[' | b'{' | b',' | b':');
        }
    }
    false
}

/// What may be meant where this byte stands, after these.
fn hint(before: &[u8], byte: u8) -> &'static str {
    match byte {
        b']' | b'}' => "; a value is missing before it, or a comma is too many",
        b'\'' => "; texts stand between \" and \"",
        b'/' | b'#' => "; JSON has no comments",
        b'"' | b'[' | b'{' | b'-' | b'0'..=b'9' if ends_a_value(before) =>
            "; a comma is missing before it",
        _ => "",
    }
}

/// What is said of a byte that cannot stand where it does.
fn found_text(alloc: Global, before: &[u8], byte: u8) -> Said {
    let hint = hint(before, byte);
    if byte > 32 && byte < 127 {
        let found = char::from(byte);
        format!(in alloc; "no JSON: {found} cannot stand here{hint}")
    } else {
        format!(in alloc; "no JSON: byte {byte} cannot stand here")
    }
}

/// What is said of a byte in a token.
fn slipped(alloc: Global, byte: u8, wrong: Wrong) -> Said {
    match wrong {
        Wrong::Byte => found_text(alloc, b"", byte),
        Wrong::Control => {
            format!(in alloc;
                "no JSON: byte {byte} cannot stand in a text; it is written as an escape, \\u{byte:04x}"
            )
        }
        Wrong::Escape => String::from_str(
            alloc,
            "no JSON: no escape begins here; there are \\\" \\\\ \\/ \\b \\f \\n \\r \\t and \\u with four hexadecimal digits",
        ),
        Wrong::Digits => String::from_str(
            alloc,
            "no JSON: \\u is wanted with four hexadecimal digits",
        ),
        Wrong::Half => String::from_str(
            alloc,
            "no JSON: this escape is half of a surrogate pair, and the other half is missing",
        ),
    }
}

/// What is wrong at an offset of a text whose value does not end too early.
fn reason_at(alloc: Global, text: &[u8], offset: usize) -> Said
    requires { offset ≤ length text.now }
{
    let (before, rest) = text.split_at(offset);
    if depth_after(before) == 0 && has_more(before) {
        return String::from_str(alloc, "no JSON: the value has ended before this");
    }
    match rest.first() {
        Some(byte) => found_text(alloc, before, *byte),
        None => String::from_str(alloc, "no JSON"),
    }
}

/// What is wrong in the token at an offset of a text, where something is.
fn reported_in_token(
    alloc: Global,
    text: &[u8],
    offset: usize,
) -> Result<Option<Explained>, AllocError>
    requires { offset ≤ length text.now }
    ensures { IfOk result (λ found. IfSome found (λ reported. reported.offset ≤ length text.now)) }
{
    let (_, rest) = text.split_at(offset);
    let Some(
        Slip {
            offset: within,
            wrong,
        },
    ) = slip_of(rest)
    else {
        return Ok(None);
    };
    match rest.get(within) {
        Some(byte) => {
            let words = slipped(alloc, *byte, wrong)?;
            Ok(Some(Explained {
                offset: offset + within,
                words,
            }))
        }
        None => Ok(None),
    }
}

/// What is wrong where JSON's reader stopped, by what it says of it.
fn reason(alloc: Global, text: &[u8], offset: usize, error: &Error) -> Said
    requires { offset ≤ length text.now }
{
    if has_mark(text) {
        return String::from_str(alloc, "no JSON: a byte order mark cannot stand here");
    }
    if error.is_eof() {
        return String::from_str(alloc, "no JSON: the text ends before its value does");
    }
    let said = format!(in alloc; "{error}")?;
    if said.as_str().starts_with("number") {
        return String::from_str(alloc, "no JSON: the number before this is too far from 0");
    }
    reason_at(alloc, text, offset)
}

/// What is wrong where JSON's reader stopped: before this offset where that is nested too deep, in the token that begins there, or there.
fn reported_at(
    alloc: Global,
    text: &[u8],
    offset: usize,
    error: &Error,
) -> Result<Explained, AllocError>
    requires { offset ≤ length text.now }
    ensures { IfOk result (λ reported. reported.offset ≤ length text.now) }
{
    let (before, _) = text.split_at(offset);
    if let Some(bracket) = bracket_too_deep(before) {
        return Explained::new(alloc, bracket, "no JSON: nested deeper than 127");
    }
    if let Err(error) = std::str::from_utf8(text) {
        let byte = error.valid_up_to().min(text.len());
        return Explained::new(alloc, byte, "no JSON: what stands here is not UTF-8");
    }
    if let Some(reported) = reported_in_token(alloc, text, offset)? {
        return Ok(reported);
    }
    let words = reason(alloc, text, offset, error)?;
    Ok(Explained { offset, words })
}

/// Where JSON's reader stopped.
fn stop_of(text: &[u8], error: &Error) -> usize
    ensures { result ≤ length text.now }
{
    if error.is_eof() {
        return text.len();
    }
    let start = line_start(text, error.line().saturating_sub(1));
    let column = error.column().saturating_sub(1);
    start.saturating_add(column).min(text.len())
}

/// What a text of JSON holds; of one that is none, what is wrong with it, and where. It fails where an allocation failed.
pub(crate) fn json_of(alloc: Global, text: &[u8]) -> Result<Result<Value, Explained>, AllocError>
    ensures holds { IfOk result (λ read. IfOk read (λ json. IsUtf8 text.now)) }
    ensures none { IfOk result (λ read. IfErr read (λ reported. IsUtf8 text.now → read_text text.now ≡ None)) }
    ensures offset { IfOk result (λ read. IfErr read (λ reported. reported.offset ≤ length text.now)) }
{
    match Value::from_slice(alloc, text) {
        Ok(json) => Ok(Ok(json)),
        Err(error) => {
            if error.is_memory() {
                return Err(AllocError);
            }
            let reported = reported_at(alloc, text, stop_of(text, &error), &error)?;
            Ok(Err(reported))
        }
    }
}
