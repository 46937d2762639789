//! What is said of explanations, where they could be made.
ghost use Rattle.std.specs.Prelude.{◌≡◌, [], IfOk, OnErr, string_bytes};

use stm_explain::Said;

/// The explanations, or nothing where an allocation failed for them. It takes no memory.
pub fn said_of(explained: &Said) -> &str
    ensures ok { IfOk explained.now (λ lines. result.now ≡ string_bytes lines) }
    ensures err { OnErr explained.now (result.now ≡ []) }
{
    match explained {
        Ok(lines) => lines.as_str(),
        Err(_) => "",
    }
}
