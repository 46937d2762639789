//! Words that go on in further lines, where one has no room for them.
ghost use Rattle.std.specs.Prelude.{◌≡◌, ◌++◌, ◌<◌, ◌^◌, nat_eq, IfOk, OnOk};
ghost use Rattle.std.specs.List.{position};
ghost use Rattle.stm_formats.specs.FormatWrap.{word_ahead, ends_at, turned, wrapped, fitted_words};

use crate::format_pieces::{Piece, is_continuation, push_pieces};
use std::alloc::AllocError;

/// So many bytes of words a line has at least.
const LEAST_ROOM: u64 = 8;

/// So many spaces stand before the words of a further line, beside those before the first one.
const FURTHER: u64 = 2;

/// How many bytes stand before the first space.
fn before_space(bytes: &[u8]) -> Option<usize>
    ensures { result ≡ position (λ b. nat_eq b 32) bytes.now }
{
    bytes.iter().position(|byte| *byte == b' ')
}

/// How many bytes behind the first one of these stand before a space, or the end.
fn word_ahead(behind: &[u8]) -> u64
    ensures { result ≡ word_ahead behind.now }
{
    if behind.is_empty() {
        return 0;
    }
    let (_, ahead) = behind.split_at(1);
    before_space(ahead).unwrap_or(ahead.len()) as u64
}

/// Whether a line that has so many bytes left of its room ends at this byte before these.
fn ends_at(room: u64, left: u64, byte: u8, behind: &[u8]) -> bool
    ensures { result ≡ ends_at room left byte behind.now }
{
    let has_words = left < room.saturating_sub(FURTHER);
    byte == b' ' && has_words && left.saturating_sub(1) <= word_ahead(behind)
}

/// Adds a byte before these, in a further line where this one ends, and answers how many bytes its line has left.
fn push_byte(
    out: &mut Vec<u8>,
    room: u64,
    indent: u64,
    left: u64,
    byte: u8,
    behind: &[u8],
) -> Result<u64, AllocError>
    ensures text { OnOk result (out.new.items ≡ out.old.items ++ (turned room indent left byte behind.now).0) }
    ensures left { IfOk result (λ after. after ≡ (turned room indent left byte behind.now).1) }
{
    if ends_at(room, left, byte, behind) {
        push_pieces(out, &[Piece::Say("\n"), Piece::Spaces(indent)])?;
        return Ok(room.saturating_sub(FURTHER));
    }
    if left == 0 && !is_continuation(byte) {
        let pieces = [Piece::Say("\n"), Piece::Spaces(indent)];
        push_pieces(out, &pieces)?;
        out.push(byte)?;
        return Ok(room.saturating_sub(FURTHER + 1));
    }
    out.push(byte)?;
    Ok(left.saturating_sub(1))
}

/// Adds words in lines of so many bytes, of which further ones begin with so many spaces.
fn push_wrapped(out: &mut Vec<u8>, room: u64, indent: u64, words: &[u8]) -> Result<(), AllocError>
    ensures { OnOk result (out.new.items ≡ out.old.items ++ wrapped room indent room words.now) }
{
    let mut left = room;
    for index in 0..words.len() {
        let (_, behind) = words.split_at(index + 1);
        left = push_byte(out, room, indent, left, words[index], behind)?;
    }
    Ok(())
}

/// Adds words that stand behind so many characters, for a text of a width: in further lines what has no room in this one.
pub(crate) fn push_fitted(
    out: &mut Vec<u8>,
    width: Option<u32>,
    before: u64,
    words: &[u8],
) -> Result<(), AllocError>
    requires { before < 2 ^ 32 }
    ensures { OnOk result (out.new.items ≡ out.old.items ++ fitted_words width before words.now) }
{
    let Some(width) = width else {
        return out.extend_from_slice(words);
    };
    let room = u64::from(width).saturating_sub(before).max(LEAST_ROOM);
    push_wrapped(out, room, before + FURTHER, words)
}
