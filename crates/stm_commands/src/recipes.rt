//! The command `recipe` over devices.
ghost use Rattle.std.specs.Prelude.{◌≡◌, false};
ghost use Rattle.stm_explain.specs.Saying.{status_of, text_of};
ghost use Rattle.stm_recipe_lines.specs.Reading.{recipe_in};
ghost use Rattle.stm_commands.specs.Recipes.{fault_status, fault_message, SaysOf, Ends};

use std::alloc::Global;
use stm_explain::Message;
use stm_recipe_lines::{RecipeFault, RecipeWords, print_recipe};
use stm_report::Sink;

/// What is said after what is wrong with the words, in the manner of the other usage faults.
pub const USAGE: &str = "

Usage: stmrun recipe <NAME> [FIRST] [SECOND] [THIRD]

For more information, try '--help'.
";

/// What is said of a fault.
fn message(fault: &RecipeFault) -> Message<'_>
    ensures status { status_of result ≡ fault_status fault.now }
    ensures text { text_of result ≡ fault_message fault.now }
{
    match fault {
        RecipeFault::Words(fault) => Message::Usage {
            wrong: fault.text(),
            usage: USAGE,
        },
        RecipeFault::OutOfMemory => Message::OutOfMemory,
        RecipeFault::Write => Message::Device,
    }
}

/// Says what went wrong, and returns the status. Takes no memory.
fn report_fault<E: Sink>(err: &mut E, fault: &RecipeFault) -> u8
    requires { E.failed err.old ≡ false }
    ensures { SaysOf (E.held err.old) (E.held err.new) (E.failed err.new) fault.now result }
{
    message(fault).report(err)
}

/// Writes the program of the recipe that these words name to `out`, as one line of JSON, whole or not at all but for a failed `out`.
///
/// Gives the status: 0 where the line was written, 2 where the words spell no recipe, 3 where an allocation failed or `out` failed. On `err` it
/// says what went wrong, and takes no memory for it: what is wrong with the words first and what is allowed, with the usage, or
/// `stmrun: out of memory` or `stmrun: device fault`, whole where `err` then has not failed. That `err` fails changes no status. None of the
/// devices has failed before.
pub fn recipe_to<W: Sink, E: Sink>(
    alloc: Global,
    words: &RecipeWords<'_>,
    out: &mut W,
    err: &mut E,
) -> u8
    requires out_works { W.failed out.old ≡ false }
    requires err_works { E.failed err.old ≡ false }
    ensures { Ends (recipe_in words.now) (record {
      before = W.held out.old;
      after = W.held out.new;
      sink_failed = W.failed out.new;
    }) (E.held err.old) (E.held err.new) (E.failed err.new) result }
{
    match print_recipe(alloc, words, out) {
        Ok(()) => 0,
        Err(fault) => report_fault(err, &fault),
    }
}
