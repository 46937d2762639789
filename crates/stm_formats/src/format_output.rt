//! What a run emitted, as words.
ghost use Rattle.std.specs.Prelude.{◌≡◌, ◌++◌, IfOk, OnOk};
ghost use Rattle.std.specs.Fmt.{signed_decimal};
ghost use Rattle.stm_formats.specs.FormatOutput.{value_words, value_after, counted_value, output_after, emitted_words};

use crate::format_changes::MOST_CHANGES;
use crate::format_pieces::{Piece, push_pieces, said};
use itoa::Buffer;
use std::alloc::{AllocError, Global};
use stm_events::Value;
use stm_history::Sequence;
use stm_retry::{Denied, Reply};

/// A number in decimal, with a `-` before it where it is below 0.
fn signed(alloc: Global, number: i64) -> Result<Sequence<u8>, AllocError>
    ensures { IfOk result (λ words. words ≡ signed_decimal number) }
{
    let mut buffer = Buffer::new();
    let mut words = Vec::new(alloc);
    words.extend_from_slice(buffer.format(number).as_bytes())?;
    Ok(Sequence::of(words))
}

/// The words of a value.
fn value_words(alloc: Global, most: u32, value: &Value) -> Result<Sequence<u8>, AllocError>
    ensures { IfOk result (λ words. words ≡ value_words most value.now) }
{
    match value {
        Value::Text(text) => {
            let pieces = [
                Piece::Say("\""),
                Piece::Shown(most, text.as_str()),
                Piece::Say("\""),
            ];
            said(alloc, &pieces)
        }
        Value::Number(number) => signed(alloc, *number),
    }
}

/// What stands before a value after so many.
fn value_after(count: u64) -> &'static str
    ensures { result.now ≡ value_after count }
{
    if count == 0 { "  emits " } else { ", " }
}

/// Adds a value after so many.
fn push_value(
    alloc: Global,
    most: u32,
    out: &mut Vec<u8>,
    count: u64,
    value: &Value,
) -> Result<(), AllocError>
    ensures { OnOk result (out.new.items ≡ out.old.items ++ counted_value most count value.now) }
{
    if count < MOST_CHANGES {
        let words = value_words(alloc, most, value)?;
        return push_pieces(
            out,
            &[Piece::Say(value_after(count)), Piece::Raw(words.as_slice())],
        );
    }
    if count == MOST_CHANGES {
        return out.extend_from_slice(b", ..");
    }
    Ok(())
}

/// The words of what a run emitted.
fn output_words(alloc: Global, most: u32, output: &[Value]) -> Result<Vec<u8>, AllocError>
    ensures { IfOk result (λ words. words.items ≡ output_after most 0 output.now) }
{
    let mut out = Vec::new(alloc);
    for (count, value) in output.iter().enumerate() {
        push_value(alloc, most, &mut out, count as u64, value)?;
    }
    Ok(out)
}

/// The words of what the run of a commit emitted; none for another reply.
pub(crate) fn emitted_words(
    alloc: Global,
    most: u32,
    reply: &Result<Reply, Denied>,
) -> Result<Vec<u8>, AllocError>
    ensures { IfOk result (λ words. words.items ≡ emitted_words most reply.now) }
{
    match reply {
        Ok(Reply::Committed { output, .. }) => output_words(alloc, most, output.as_slice()),
        _ => Ok(Vec::new(alloc)),
    }
}
