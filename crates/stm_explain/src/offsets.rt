//! Where values and lines begin in a text.
ghost use Rattle.std.specs.Prelude.{◌≤◌, length, IfOk};

use json::{MAX_DEPTH, Reader, Scratch};
use std::alloc::{AllocError, Global};

/// Goes into an array, to its element at this index.
fn enter(reader: &mut Reader<'_>, index: usize) {
    let _ = reader.next();
    for _ in 0..index {
        let _ = reader.skip_value(MAX_DEPTH);
    }
}

/// Where the value that these steps lead to begins in a text that is JSON.
pub(crate) fn offset_of(alloc: Global, text: &str, steps: &[usize]) -> Result<usize, AllocError>
    ensures { IfOk result (λ offset. offset ≤ length text.now) }
{
    let mut scratch = Scratch::new(alloc);
    let mut reader = Reader::new(text, &mut scratch)?;
    for index in steps {
        enter(&mut reader, *index);
    }
    Ok(reader.offset().min(text.len()))
}

/// Where a line begins in a text, the first of them 0; the text's end, where there are fewer.
pub(crate) fn line_start(text: &[u8], line: usize) -> usize
    ensures { result ≤ length text.now }
{
    let mut passed = 0usize;
    for (index, byte) in text.iter().enumerate() {
        if passed >= line {
            return index;
        }
        if *byte == b'\n' {
            passed = passed.saturating_add(1);
        }
    }
    text.len()
}

/// How many bytes stand before the first line feed of these; all of them, where there is none.
pub(crate) fn line_length(text: &[u8]) -> usize
    ensures { result ≤ length text.now }
{
    for (index, byte) in text.iter().enumerate() {
        if *byte == b'\n' {
            return index;
        }
    }
    text.len()
}
