//! The command `script` over devices.
ghost use Rattle.std.specs.Prelude.{◌≡◌, ◌≤◌, ◌+◌, ◌++◌, false};
ghost use Rattle.stm_devices.specs.declared.transfer.TheConstants.{MOST_READ};
ghost use Rattle.stm_explain.specs.Saying.{status_of as code_of, text_of, Reports};
ghost use Rattle.stm_commands.specs.Statuses.{status_of, message_of, SaysOf, Ends};

use std::alloc::Global;
use stm_explain::Message;
use stm_report::{ScriptFault, Sink, Source, script};

/// What is said of a fault.
fn message(fault: &ScriptFault) -> Message<'_>
    ensures status { code_of result ≡ status_of fault.now }
    ensures text { text_of result ≡ message_of fault.now }
{
    match fault {
        ScriptFault::Bad(bad) => Message::Bad {
            begin: "stmrun: bad scenario at ",
            bad,
        },
        ScriptFault::OutOfMemory => Message::OutOfMemory,
        ScriptFault::Read | ScriptFault::Write => Message::Device,
    }
}

/// Says what went wrong, and returns the status. Takes no memory.
pub(crate) fn report_fault<E: Sink>(err: &mut E, fault: &ScriptFault) -> u8
    requires { E.failed err.old ≡ false }
    ensures { SaysOf (E.held err.old) (E.held err.new) (E.failed err.new) fault.now result }
{
    message(fault).report(err)
}

/// Says what went wrong and more after it, and returns the status.
pub(crate) fn report_explained<E: Sink>(err: &mut E, fault: &ScriptFault, more: &str) -> u8
    requires { E.failed err.old ≡ false }
    ensures { Reports (status_of fault.now) (message_of fault.now ++ more.now) (E.held err.old) (E.held err.new) (E.failed err.new) result }
{
    message(fault).report_with(err, more)
}

/// Runs the scenario of `input` and writes its report to `out`, whole or not at all but for a failed `out`.
///
/// Gives the status: 0 where the report was written, 2 where the input is no scenario, 3 where an allocation failed or
/// `input` or `out` failed. On `err` it says what went wrong, and takes no memory for it: `stmrun: bad scenario at PLACE: CAUSE`,
/// `stmrun: out of memory` or `stmrun: device fault`, whole where `err` then has not failed. That `err` fails changes no
/// status. None of the devices has failed before. `input` is read at most 16777217 times.
pub fn script_to<S: Source, W: Sink, E: Sink>(
    alloc: Global,
    input: &mut S,
    out: &mut W,
    err: &mut E,
) -> u8
    requires input_works { S.failed input.old ≡ false }
    requires out_works { W.failed out.old ≡ false }
    requires err_works { E.failed err.old ≡ false }
    ensures ends { Ends (record {
      input = S.left input.old;
      before = W.held out.old;
      after = W.held out.new;
      source_failed = S.failed input.new;
      sink_failed = W.failed out.new;
    }) (E.held err.old) (E.held err.new) (E.failed err.new) result }
    ensures bounded { S.reads input.new ≤ S.reads input.old + MOST_READ }
{
    match script(alloc, input, out) {
        Ok(()) => 0,
        Err(fault) => report_fault(err, &fault),
    }
}
