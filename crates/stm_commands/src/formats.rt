//! What the command `script` says of a format that there is not.
ghost use Rattle.std.specs.Prelude.{◌≡◌, false};
ghost use Rattle.stm_commands.specs.Statuses.{SaysNoFormat};

use stm_explain::write_text;
use stm_report::Sink;

/// What is said of a word that names no format, in the manner of the other usage faults.
pub const NO_FORMAT: &str =
    "error: no format has this name: lines, json, text, svg and html are allowed

Usage: stmrun script [OPTIONS] [FILE]

For more information, try '--help'.
";

/// Says on `err` that a word names no format, and which words do, and gives the status of usage, 2. It takes no memory. What is said is
/// whole where `err` then has not failed; that it fails changes no status. `err` has not failed before.
pub fn no_format_to<E: Sink>(err: &mut E) -> u8
    requires { E.failed err.old ≡ false }
    ensures { SaysNoFormat (E.held err.old) (E.held err.new) (E.failed err.new) result }
{
    let _ = write_text(err, NO_FORMAT);
    2
}
