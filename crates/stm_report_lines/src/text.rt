//! The text of lines.
ghost use Rattle.std.specs.Prelude.{◌≡◌, ◌++◌, false, OnOk, string_bytes};
ghost use Rattle.serde_json.specs.View.{view};
ghost use Rattle.serde_json.specs.Written.{has_float};
ghost use Rattle.stm_report_lines.specs.Text.{line_text};

use serde_json::Value as Json;
use std::alloc::{AllocError, Global};

/// Adds a line: compact JSON, and a line feed. It fails where an allocation failed.
pub fn push_line(alloc: Global, text: &mut String, line: &Json) -> Result<(), AllocError>
    requires { has_float (view line.now) ≡ false }
    ensures { OnOk result (string_bytes text.new ≡ string_bytes text.old ++ line_text (view line.now)) }
{
    let compact = line.to_string(alloc)?;
    text.push_str(compact.as_str())?;
    text.push('\n')
}
