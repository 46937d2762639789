//! What the command `explore` writes of an answer, what it says of a fault, and its statuses.
ghost use Rattle.std.specs.Prelude.{◌≡◌, ◌++◌, false};
ghost use Rattle.stm_explain.specs.Saying.{status_of as code_of, text_of, Reports};
ghost use Rattle.stm_exploring.specs.Command.{verdict_status, fault_status, fault_message, Writes};

use crate::printed::{Printed, SearchAnswer};
use crate::reading::ExploreFault;
use stm_devices::Sink;
use stm_explain::{Message, write_text};

/// The status of what a search came to.
pub(crate) fn status_of(verdict: SearchAnswer) -> u8
    ensures { result ≡ verdict_status verdict }
{
    match verdict {
        SearchAnswer::Kept => 0,
        SearchAnswer::Broken => 1,
        SearchAnswer::Open => 4,
    }
}

/// Writes what a search prints, where it came to an answer.
pub(crate) fn write<W: Sink>(
    out: &mut W,
    searched: Result<Printed, ExploreFault>,
) -> Result<SearchAnswer, ExploreFault>
    requires { W.failed out.old ≡ false }
    ensures { Writes searched (W.held out.old) (W.held out.new) (W.failed out.new) result }
{
    let printed = searched?;
    match write_text(out, printed.text.as_str()) {
        Ok(()) => Ok(printed.verdict),
        Err(_) => Err(ExploreFault::Device),
    }
}

/// What is said of a fault.
fn message(fault: &ExploreFault) -> Message<'_>
    ensures status { code_of result ≡ fault_status fault.now }
    ensures text { text_of result ≡ fault_message fault.now }
{
    match fault {
        ExploreFault::BadScenario(bad) => Message::Bad {
            begin: "stmrun: bad scenario at ",
            bad,
        },
        ExploreFault::BadProgram(bad) => Message::Bad {
            begin: "stmrun: bad program at ",
            bad,
        },
        ExploreFault::BadWait(bad) => Message::Bad {
            begin: "stmrun: bad wait ",
            bad,
        },
        ExploreFault::OutOfMemory => Message::OutOfMemory,
        ExploreFault::Device => Message::Device,
    }
}

/// Says what went wrong and more after it, and returns the status.
pub(crate) fn report_with<E: Sink>(err: &mut E, fault: &ExploreFault, more: &str) -> u8
    requires { E.failed err.old ≡ false }
    ensures { Reports (fault_status fault.now) (fault_message fault.now ++ more.now) (E.held err.old) (E.held err.new) (E.failed err.new) result }
{
    message(fault).report_with(err, more)
}
