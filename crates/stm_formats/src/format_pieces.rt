//! Writing a text piece by piece.
ghost use Rattle.std.specs.Prelude.{◌≡◌, ◌++◌, ◌-◌, ◌<◌, ◌≤◌, ◌^◌, drop, get_or, decimal, replicate, length, map, take, IfOk, OnOk};
ghost use Rattle.stm_formats.specs.FormatShown.{front, front_of, back, byte_text, around, coded, cut, digit, from_character, hidden, hidden_from, is_unseen, is_unseen_pair, shown_after, spelled, is_continuation};
ghost use Rattle.stm_formats.specs.FormatEscaped.{entity, escaped};
ghost use Rattle.stm_formats.specs.FormatPieces.{joined, padded, tag_text, piece_text};

use crate::format_label::MOST_COLUMNS;
use crate::format_row::Lane;
use itoa::Buffer;
use std::alloc::{AllocError, Global};
use stm_history::Sequence;

/// A value or a message of more bytes than this is shown without its middle, where no width says otherwise.
pub(crate) const MOST_SHOWN: u32 = 32;

/// A piece of what is written.
#[derive(Clone, Copy)]
pub(crate) enum Piece<'a> {
    /// A text of this crate.
    Say(&'a str),
    /// A key, exactly.
    Key(&'a str),
    /// A value or a message, exactly; one of more than so many bytes without its middle.
    Shown(u32, &'a str),
    /// A source; one of more than twice so many bytes without its middle.
    Source(u32, &'a [u8]),
    /// A number in decimal.
    Number(u64),
    /// A number in decimal, after spaces that make it six characters where it has fewer.
    Padded(u64),
    /// So many spaces.
    Spaces(u64),
    /// Which runner a row of the last column is about.
    Tag(Lane),
    /// Bytes as they are.
    Raw(&'a [u8]),
    /// Bytes as XML has them in a text.
    Escaped(&'a [u8]),
}

/// Whether a byte goes on with a character of UTF-8.
pub(crate) fn is_continuation(byte: u8) -> bool
    ensures { result ≡ is_continuation byte }
{
    byte >= 128 && byte < 192
}

/// A byte, or 255, which no text has, where there are fewer.
fn byte_at(bytes: &[u8], index: usize) -> u8
    ensures { result ≡ get_or bytes.now index 255 }
{
    if index < bytes.len() {
        bytes[index]
    } else {
        255
    }
}

/// Whether two bytes are a character that cannot be seen.
fn is_unseen_pair(first: u8, second: u8) -> bool
    ensures { result ≡ is_unseen_pair first second }
{
    if first == 194 {
        second >= 128 && second <= 159 || second == 173
    } else {
        first == 216 && second == 156
    }
}

/// Whether three bytes are.
fn is_unseen(first: u8, second: u8, third: u8) -> bool
    ensures { result ≡ is_unseen first second third }
{
    if first == 226 {
        let marks = third >= 139 && third <= 143 || third >= 168 && third <= 174;
        second == 128 && marks || second == 129 && third >= 160 && third <= 175
    } else {
        let is_none = second == 191 && third >= 190 && third <= 191;
        first == 239 && (second == 187 && third == 191 || is_none)
    }
}

/// How many bytes the character has that these begin with, where it is a control character, cannot be seen, or turns the direction of writing; 0 for another.
fn hidden(bytes: &[u8]) -> usize
    ensures length { result ≡ hidden bytes.now }
    ensures most { result ≤ 3 }
{
    let first = byte_at(bytes, 0);
    let second = byte_at(bytes, 1);
    if first < 32 || first == 127 {
        return 1;
    }
    if is_unseen_pair(first, second) {
        return 2;
    }
    if is_unseen(first, second, byte_at(bytes, 2)) {
        3
    } else {
        0
    }
}

/// Where the front of that many bytes ends, with the rest of its last character.
fn end_of_front(bytes: &[u8], kept: usize) -> usize
    requires { kept ≤ length bytes.now }
    ensures within { result ≤ length bytes.now }
    ensures front { take result bytes.now ≡ front kept bytes.now }
{
    let mut end = kept;
    while end < bytes.len() && is_continuation(bytes[end]) {
        end += 1;
    }
    end
}

/// Where that many bytes at the end begin, without the rest of a character that began before them.
fn start_of_back(bytes: &[u8], kept: usize) -> usize
    ensures within { result ≤ length bytes.now }
    ensures back { drop result bytes.now ≡ back kept bytes.now }
{
    let mut start = bytes.len().saturating_sub(kept);
    while start < bytes.len() && is_continuation(bytes[start]) {
        start += 1;
    }
    start
}

/// A digit of a number to the base 16, which is below that.
fn digit(number: u8) -> u8
    requires { number < 16 }
    ensures { result ≡ digit number }
{
    if number < 10 {
        b'0' + number
    } else {
        b'a' - 10 + number
    }
}

/// Adds a byte of a character that is hidden.
fn push_coded(out: &mut Vec<u8>, byte: u8) -> Result<(), AllocError>
    ensures { OnOk result (out.new.items ≡ out.old.items ++ coded byte) }
{
    out.extend_from_slice(&[b'\\', b'x', digit(byte / 16), digit(byte % 16)])
}

/// Adds another byte. Where a text is shown exactly, a backslash is doubled.
fn push_spelled(out: &mut Vec<u8>, exact: bool, byte: u8) -> Result<(), AllocError>
    ensures { OnOk result (out.new.items ≡ out.old.items ++ spelled exact byte) }
{
    if exact && byte == b'\\' {
        return out.extend_from_slice(b"\\\\");
    }
    out.push(byte)?;
    Ok(())
}

/// How many bytes from an index on belong to a hidden character, where so many more do of one that began before it.
fn hidden_from(bytes: &[u8], index: usize, left: usize) -> usize
    requires { index < length bytes.now }
    ensures { result ≡ hidden_from left (drop index bytes.now) }
{
    if left > 0 {
        return left;
    }
    let (_, rest) = bytes.split_at(index);
    hidden(rest)
}

/// Adds a byte, of which character so many bytes are hidden.
fn push_byte(out: &mut Vec<u8>, exact: bool, hidden: usize, byte: u8) -> Result<(), AllocError>
    ensures { OnOk result (out.new.items ≡ out.old.items ++ byte_text exact hidden byte) }
{
    if hidden > 0 {
        push_coded(out, byte)
    } else {
        push_spelled(out, exact, byte)
    }
}

/// Adds bytes as they are shown: exactly, or without that.
pub(crate) fn push_shown(out: &mut Vec<u8>, exact: bool, bytes: &[u8]) -> Result<(), AllocError>
    ensures { OnOk result (out.new.items ≡ out.old.items ++ shown_after exact 0 bytes.now) }
{
    let mut left = 0usize;
    for index in 0..bytes.len() {
        let hidden = hidden_from(bytes, index, left);
        let byte = bytes[index];
        push_byte(out, exact, hidden, byte)?;
        left = hidden.saturating_sub(1);
    }
    Ok(())
}

/// The front that is shown of a text without its middle.
#[tactic(auto, using(crate::proofs::FormatFronts::front_short))]
pub(crate) fn front_shown(bytes: &[u8], most: usize) -> &[u8]
    requires { most < 2 ^ 33 }
    ensures { result.now ≡ front (front_of most) bytes.now }
{
    let kept = most * 2 / 5;
    if kept >= bytes.len() {
        return bytes;
    }
    let (front, _) = bytes.split_at(end_of_front(bytes, kept));
    front
}

/// The end that is shown of it, with so many bytes for the mark between them.
pub(crate) fn back_shown(bytes: &[u8], most: usize, mark: usize) -> &[u8]
    requires { most < 2 ^ 33 }
    ensures { result.now ≡ back (most - mark - front_of most) bytes.now }
{
    let kept = most.saturating_sub(mark).saturating_sub(most * 2 / 5);
    let (_, back) = bytes.split_at(start_of_back(bytes, kept));
    back
}

/// Adds the bytes in front and at the end as they are shown, around a mark: `most` with that.
pub(crate) fn push_around(
    out: &mut Vec<u8>,
    exact: bool,
    mark: &str,
    most: usize,
    bytes: &[u8],
) -> Result<(), AllocError>
    requires { most < 2 ^ 33 }
    ensures { OnOk result (out.new.items ≡ out.old.items ++ around exact mark.now most bytes.now) }
{
    push_shown(out, exact, front_shown(bytes, most))?;
    out.extend_from_slice(mark.as_bytes())?;
    push_shown(out, exact, back_shown(bytes, most, mark.len()))
}

/// Adds bytes as they are shown, of more than `most` only those in front and at the end.
fn push_cut(out: &mut Vec<u8>, exact: bool, most: usize, bytes: &[u8]) -> Result<(), AllocError>
    requires { most < 2 ^ 33 }
    ensures { OnOk result (out.new.items ≡ out.old.items ++ cut exact most bytes.now) }
{
    if bytes.len() <= most {
        return push_shown(out, exact, bytes);
    }
    push_around(out, exact, "..", most, bytes)
}

/// Adds a number in decimal.
fn push_number(out: &mut Vec<u8>, number: u64) -> Result<(), AllocError>
    ensures { OnOk result (out.new.items ≡ out.old.items ++ decimal number) }
{
    let mut buffer = Buffer::new();
    out.extend_from_slice(buffer.format(number).as_bytes())
}

/// Adds a number in decimal, and spaces before it where it has fewer than six digits.
pub(crate) fn push_padded(out: &mut Vec<u8>, number: u64) -> Result<(), AllocError>
    ensures { OnOk result (out.new.items ≡ out.old.items ++ padded number) }
{
    let mut buffer = Buffer::new();
    let digits = buffer.format(number);
    push_spaces(out, 6usize.saturating_sub(digits.len()) as u64)?;
    out.extend_from_slice(digits.as_bytes())
}

/// Adds that many spaces.
pub(crate) fn push_spaces(out: &mut Vec<u8>, count: u64) -> Result<(), AllocError>
    ensures { OnOk result (out.new.items ≡ out.old.items ++ replicate count 32) }
{
    for _ in 0..count {
        out.push(b' ')?;
    }
    Ok(())
}

/// Adds the number of a runner that stands in the last column.
fn push_tag(out: &mut Vec<u8>, lane: Lane) -> Result<(), AllocError>
    ensures { OnOk result (out.new.items ≡ out.old.items ++ tag_text lane) }
{
    match lane {
        Lane::Store => Ok(()),
        Lane::Runner(runner) => {
            if runner < MOST_COLUMNS {
                return Ok(());
            }
            push_number(out, runner)?;
            out.extend_from_slice(b": ")
        }
    }
}

/// Adds a byte as XML has it in a text.
fn push_entity(out: &mut Vec<u8>, byte: u8) -> Result<(), AllocError>
    ensures { OnOk result (out.new.items ≡ out.old.items ++ entity byte) }
{
    match byte {
        b'&' => out.extend_from_slice(b"&amp;"),
        b'<' => out.extend_from_slice(b"&lt;"),
        b'>' => out.extend_from_slice(b"&gt;"),
        b'"' => out.extend_from_slice(b"&quot;"),
        b'\'' => out.extend_from_slice(b"&apos;"),
        _ => {
            out.push(byte)?;
            Ok(())
        }
    }
}

/// Adds bytes as XML has them in a text.
#[tactic(auto, unfolding(crate::specs::FormatEscaped::escaped))]
fn push_escaped(out: &mut Vec<u8>, bytes: &[u8]) -> Result<(), AllocError>
    ensures { OnOk result (out.new.items ≡ out.old.items ++ escaped bytes.now) }
{
    for byte in bytes {
        push_entity(out, *byte)?;
    }
    Ok(())
}

/// Adds a piece.
fn push_piece(out: &mut Vec<u8>, piece: Piece<'_>) -> Result<(), AllocError>
    ensures { OnOk result (out.new.items ≡ out.old.items ++ piece_text piece.entry) }
{
    match piece {
        Piece::Say(text) => out.extend_from_slice(text.as_bytes()),
        Piece::Key(text) => push_shown(out, true, text.as_bytes()),
        Piece::Shown(most, text) => push_cut(out, true, most as usize, text.as_bytes()),
        Piece::Source(most, bytes) => push_cut(out, false, most as usize + most as usize, bytes),
        Piece::Number(number) => push_number(out, number),
        Piece::Padded(number) => push_padded(out, number),
        Piece::Spaces(count) => push_spaces(out, count),
        Piece::Tag(lane) => push_tag(out, lane),
        Piece::Raw(bytes) => out.extend_from_slice(bytes),
        Piece::Escaped(bytes) => push_escaped(out, bytes),
    }
}

/// Adds pieces, one after the other.
pub(crate) fn push_pieces(out: &mut Vec<u8>, pieces: &[Piece<'_>]) -> Result<(), AllocError>
    ensures { OnOk result (out.new.items ≡ out.old.items ++ joined (map piece_text pieces.now)) }
{
    for piece in pieces {
        push_piece(out, *piece)?;
    }
    Ok(())
}

/// The text of pieces.
pub(crate) fn said(alloc: Global, pieces: &[Piece<'_>]) -> Result<Sequence<u8>, AllocError>
    ensures { IfOk result (λ text. text ≡ joined (map piece_text pieces.now)) }
{
    let mut out = Vec::new(alloc);
    push_pieces(&mut out, pieces)?;
    Ok(Sequence::of(out))
}
