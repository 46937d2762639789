//! The pieces that printed sources are made of.
ghost use Rattle.std.specs.Prelude.{◌≡◌, ◌++◌, decimal, OnOk, string_bytes};
ghost use Rattle.std.specs.Fmt.{signed_decimal};
ghost use Rattle.json.specs.Print.{quoted};
ghost use Rattle.stm_program_source.specs.Texts.{indentation, last_number, next_line};

use itoa::Buffer;
use serde_json::Value as Json;
use std::alloc::{AllocError, Global};

/// Adds a text in quotes, as JSON has it. It fails where an allocation failed.
pub fn push_quoted(alloc: Global, out: &mut String, text: &str) -> Result<(), AllocError>
    ensures { OnOk result (string_bytes out.new ≡ string_bytes out.old ++ quoted text.now) }
{
    let value = Json::try_from_str(alloc, text)?;
    let quoted = value.to_string(alloc)?;
    out.push_str(quoted.as_str())
}

/// Adds a number in decimal. It fails where an allocation failed.
pub fn push_number(out: &mut String, number: u64) -> Result<(), AllocError>
    ensures { OnOk result (string_bytes out.new ≡ string_bytes out.old ++ decimal number) }
{
    let mut buffer = Buffer::new();
    out.push_str(buffer.format(number))
}

/// Adds a number in decimal, with a `-` before it where it is below 0.
pub(crate) fn push_signed(out: &mut String, number: i64) -> Result<(), AllocError>
    ensures { OnOk result (string_bytes out.new ≡ string_bytes out.old ++ signed_decimal number) }
{
    let mut buffer = Buffer::new();
    out.push_str(buffer.format(number))
}

/// Adds a number as the last argument of a call, where it is not 0. It fails where an allocation failed.
pub fn push_last_number(out: &mut String, number: u64) -> Result<(), AllocError>
    ensures { OnOk result (string_bytes out.new ≡ string_bytes out.old ++ last_number number) }
{
    if number == 0 {
        return Ok(());
    }
    out.push_str(", ")?;
    push_number(out, number)
}

/// Adds the indentation of a line around which stand so many blocks.
fn push_indentation(out: &mut String, blocks: usize) -> Result<(), AllocError>
    ensures { OnOk result (string_bytes out.new ≡ string_bytes out.old ++ indentation blocks) }
{
    for _ in 0..blocks {
        out.push_str("    ")?;
    }
    Ok(())
}

/// Ends a line, and adds the indentation of the next one, around which stand so many blocks. It fails where an allocation failed.
pub fn push_next_line(out: &mut String, blocks: usize) -> Result<(), AllocError>
    ensures { OnOk result (string_bytes out.new ≡ string_bytes out.old ++ next_line blocks) }
{
    out.push('\n')?;
    push_indentation(out, blocks)
}
