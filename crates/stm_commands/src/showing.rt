//! The command `show` over devices.
ghost use Rattle.std.specs.Prelude.{◌≡◌, ◌≤◌, ◌+◌, false};
ghost use Rattle.stm_devices.specs.declared.transfer.TheConstants.{MOST_READ};
ghost use Rattle.stm_explain.specs.Saying.{status_of, text_of};
ghost use Rattle.stm_commands.specs.Showing.{bad_begins, fault_status, fault_message, SaysOf, Ends};

use std::alloc::Global;
use stm_explain::Message;
use stm_report::{Sink, Source};
use stm_show::{ShowFault, Shown, show};

/// What stands before the place of a bad input.
fn bad_begins(shown: Shown) -> &'static str
    ensures { result.now ≡ bad_begins shown }
{
    match shown {
        Shown::Scenario => "stmrun: bad scenario at ",
        Shown::Program => "stmrun: bad program at ",
    }
}

/// What is said of a fault.
fn message(shown: Shown, fault: &ShowFault) -> Message<'_>
    ensures status { status_of result ≡ fault_status fault.now }
    ensures text { text_of result ≡ fault_message shown fault.now }
{
    match fault {
        ShowFault::Bad(bad) => Message::Bad {
            begin: bad_begins(shown),
            bad,
        },
        ShowFault::OutOfMemory => Message::OutOfMemory,
        ShowFault::Read | ShowFault::Write => Message::Device,
    }
}

/// Says what went wrong, and returns the status. Takes no memory.
fn report_fault<E: Sink>(err: &mut E, shown: Shown, fault: &ShowFault) -> u8
    requires { E.failed err.old ≡ false }
    ensures { SaysOf shown (E.held err.old) (E.held err.new) (E.failed err.new) fault.now result }
{
    message(shown, fault).report(err)
}

/// Writes the scenario, or the program, of `input` to `out` as a source, whole or not at all but for a failed `out`.
///
/// Gives the status: 0 where the source was written, 2 where the input is no scenario, or no program, 3 where an allocation failed or `input` or
/// `out` failed. On `err` it says what went wrong, and takes no memory for it: `stmrun: bad scenario at PLACE: CAUSE` or
/// `stmrun: bad program at PLACE: CAUSE`, `stmrun: out of memory` or `stmrun: device fault`, whole where `err` then has not failed. That `err`
/// fails changes no status. None of the devices has failed before. `input` is read at most 16777217 times.
pub fn show_to<S: Source, W: Sink, E: Sink>(
    alloc: Global,
    shown: Shown,
    input: &mut S,
    out: &mut W,
    err: &mut E,
) -> u8
    requires input_works { S.failed input.old ≡ false }
    requires out_works { W.failed out.old ≡ false }
    requires err_works { E.failed err.old ≡ false }
    ensures ends { Ends shown (record {
      input = S.left input.old;
      before = W.held out.old;
      after = W.held out.new;
      source_failed = S.failed input.new;
      sink_failed = W.failed out.new;
    }) (E.held err.old) (E.held err.new) (E.failed err.new) result }
    ensures bounded { S.reads input.new ≤ S.reads input.old + MOST_READ }
{
    match show(alloc, shown, input, out) {
        Ok(()) => 0,
        Err(fault) => report_fault(err, shown, &fault),
    }
}
